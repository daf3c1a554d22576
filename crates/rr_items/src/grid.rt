ghost use Rattle.std.specs.Prelude.{MatchOption, IfOk, IfErr};
ghost use Rattle.rr_items.specs.Ground.{IsOnGround};
ghost use Rattle.rr_items.specs.Grid.{SaysPlace, IsFault};

use crate::ground::is_on_ground;
use elem_reading::number_within;
use elem_text::Elem;

/// A place of the grid: the id of the block type that stands there, and how far the place is from
/// that block's root.
#[derive(Clone, Copy, Debug, PartialEq, Eq)]
pub struct GridPlace {
    pub x: u32,
    pub y: u32,
    pub block_type: u32,
    pub width_offset: u32,
    pub height_offset: u32,
}

/// Why a `grid_loc` is no place of the grid.
#[derive(Clone, Copy, Debug, PartialEq, Eq)]
pub enum GridFault {
    /// Its `layer` isn't 0.
    Layer,
    /// It lacks a number, or one isn't below 2^31.
    Number,
}

/// The place that a `grid_loc` says.
pub fn grid_place(elem: &Elem) -> Result<GridPlace, GridFault>
    ensures ok { IfOk result (λ place. SaysPlace elem.now place × IsOnGround elem.now) }
    ensures fault { IfErr result (IsFault elem.now) }
{
    if !is_on_ground(elem) {
        return Err(GridFault::Layer);
    }
    match place_of(elem) {
        Some(place) => Ok(place),
        None => Err(GridFault::Number),
    }
}

/// The place, whatever its layer.
fn place_of(elem: &Elem) -> Option<GridPlace>
    ensures { MatchOption result ((place : GridPlace) → SaysPlace elem.now place → ⊥)
        (SaysPlace elem.now) }
{
    let x = number_within(elem, b"x", i32::MAX as u32)?;
    let y = number_within(elem, b"y", i32::MAX as u32)?;
    let block_type = number_within(elem, b"block_type_id", i32::MAX as u32)?;
    let width_offset = number_within(elem, b"width_offset", i32::MAX as u32)?;
    let height_offset = number_within(elem, b"height_offset", i32::MAX as u32)?;
    Some(GridPlace {
        x,
        y,
        block_type,
        width_offset,
        height_offset,
    })
}
