ghost use Rattle.std.specs.Prelude.{◌<◌, ◌≤◌, ◌+◌, ◌^◌, IfOk, length};
ghost use Rattle.anneal_placer.specs.Grid.{IsGrid};

use crate::SiteAt;
use flat_tables::FlatTable;
use indexmap::IndexSet;
use std::alloc::{AllocError, Global};

/// A site in a row of sites.
#[derive(Clone, Copy, Debug, Drop)]
pub(crate) struct Spot {
    pub(crate) site: u32,
    /// The number of its column.
    pub(crate) column: u32,
}

/// The sites row by row, with a number for each column and row in which sites stand.
#[derive(Drop)]
pub(crate) struct Grid {
    pub(crate) columns: Vec<u32>,
    pub(crate) rows: Vec<u32>,
    /// The sites of each row.
    pub(crate) spots: FlatTable<Spot>,
}

impl Grid {
    pub(crate) fn new(alloc: Global, sites: &[SiteAt]) -> Result<Grid, AllocError>
        requires few { length sites.now + 1 < 2 ^ 32 }
        ensures grid { IfOk result
            (λ grid. IsGrid sites.now grid.columns.items grid.rows.items grid.spots) }
        ensures few { IfOk result (λ grid. length grid.rows.items ≤ length sites.now) }
    {
        let mut columns = IndexSet::new(alloc);
        let mut rows = IndexSet::new(alloc);
        let mut pairs = Vec::with_capacity(alloc, sites.len())?;
        for (number, site) in sites.iter().enumerate() {
            let column = columns.insert_full(site.x)?.0 as u32;
            let row = rows.insert_full(site.y)?.0 as u32;
            let site = number as u32;
            pairs.push((row, Spot { site, column }))?;
        }
        let spots = FlatTable::from_pairs(alloc, &pairs, rows.len() as u32)?;
        let columns = Vec::from_slice(alloc, columns.as_slice())?;
        let rows = Vec::from_slice(alloc, rows.as_slice())?;
        Ok(Grid {
            columns,
            rows,
            spots,
        })
    }
}
