ghost use Rattle.std.specs.Prelude.{◌≡◌, ◌<◌, ◌≤◌, ◌↔◌, ◌+◌, ◌^◌, IfOk, OnOk, IsTrue, IsFalse, []};
ghost use Rattle.std.specs.Prelude.{length, map, slice_index, slice_index_or, slice_set};
ghost use Rattle.std.specs.List.{All, swap};
ghost use Rattle.std.specs.Vec.{vec_items};
ghost use Rattle.anneal_placer.specs.Board.{HaveSamePairs, IsBoard, Descends};
ghost use Rattle.anneal_placer.specs.Grid.{IsGrid};
ghost use Rattle.anneal_placer.specs.Search.{AreBlockNets, ArePulls, AreStuck, IsDraw, IsStuck};
ghost use Rattle.anneal_placer.specs.Search.{IsStuckAmong, IsStuckAt};
ghost use Rattle.anneal_placer.specs.Task.{ArePlaces, FitsAt, IsSettled, NameBlocks, cost, nets_of};

use crate::AnnealTask;
use crate::board::{Board, fits};
use crate::draw::Draw;
use crate::grid::Grid;
use crate::indexed::BlockNets;
use crate::pairing::Pairing;
use crate::pull::{Pull, pulls_of};
use crate::trial::exchange_trial;
use crate::wake::woken;
use std::alloc::{AllocError, Global};

/// Moves and exchanges blocks until no move and no exchange makes the cost less.
pub(crate) fn descend(
    alloc: Global,
    task: &AnnealTask,
    nets: &BlockNets,
    pairing: &Pairing,
    board: &mut Board,
) -> Result<(), AllocError>
    requires nets { AreBlockNets (nets_of task.now) (map vec_items nets.now.of.items)
        (length task.now.blocks.items) }
    requires named { NameBlocks (nets_of task.now) (length task.now.blocks.items) }
    requires pairing { HaveSamePairs task.now.fits.items pairing.now.pairs.keys }
    requires few_blocks { length task.now.blocks.items + 1 < 2 ^ 32 }
    requires few_sites { length task.now.sites.items + 1 < 2 ^ 32 }
    requires board { IsBoard task.now board.old.places.items board.old.occupants.items }
    ensures placed { OnOk result (ArePlaces task.now board.new.places.items) }
    ensures no_dearer { OnOk result
        (cost task.now board.new.places.items ≤ cost task.now board.old.places.items) }
    ensures settled { OnOk result (IsSettled task.now board.new.places.items) }
{
    let grid = Grid::new(alloc, &task.sites)?;
    let all = vec![in alloc; true; task.blocks.len()]?;
    let mut better = true;
    while better {
        let before = Vec::from_slice(alloc, &board.places)?;
        better = pass(alloc, task, nets, pairing, &grid, &all, board)?;
        if better {
            follow(alloc, task, nets, pairing, &grid, before, board)?;
        }
    }
    Ok(())
}

/// Tries the blocks of the nets of those that moved, until none of them moves. `before` has the
/// places before the last steps.
fn follow(
    alloc: Global,
    task: &AnnealTask,
    nets: &BlockNets,
    pairing: &Pairing,
    grid: &Grid,
    before: Vec<u32>,
    board: &mut Board,
) -> Result<(), AllocError>
    requires nets { AreBlockNets (nets_of task.now) (map vec_items nets.now.of.items)
        (length task.now.blocks.items) }
    requires named { NameBlocks (nets_of task.now) (length task.now.blocks.items) }
    requires pairing { HaveSamePairs task.now.fits.items pairing.now.pairs.keys }
    requires few_blocks { length task.now.blocks.items + 1 < 2 ^ 32 }
    requires grid { IsGrid task.now.sites.items grid.now.columns.items grid.now.rows.items
        grid.now.spots }
    requires few_rows { length grid.now.rows.items + 1 < 2 ^ 32 }
    requires before { length before.items ≡ length task.now.blocks.items }
    requires board { IsBoard task.now board.old.places.items board.old.occupants.items }
    ensures board { OnOk result
        (IsBoard task.now board.new.places.items board.new.occupants.items) }
    ensures no_dearer { OnOk result
        (cost task.now board.new.places.items ≤ cost task.now board.old.places.items) }
{
    let mut before = before;
    let mut better = true;
    while better {
        let active = woken(alloc, task, nets, &before, &board.places)?;
        before = Vec::from_slice(alloc, &board.places)?;
        better = pass(alloc, task, nets, pairing, grid, &active, board)?;
    }
    Ok(())
}

/// Tries each active block at each site. Whether the cost became less.
///
/// What draws the blocks is found once. After a step it may be out of date, so that a step that
/// would help is passed over until the next pass.
fn pass(
    alloc: Global,
    task: &AnnealTask,
    nets: &BlockNets,
    pairing: &Pairing,
    grid: &Grid,
    active: &[bool],
    board: &mut Board,
) -> Result<bool, AllocError>
    requires nets { AreBlockNets (nets_of task.now) (map vec_items nets.now.of.items)
        (length task.now.blocks.items) }
    requires named { NameBlocks (nets_of task.now) (length task.now.blocks.items) }
    requires pairing { HaveSamePairs task.now.fits.items pairing.now.pairs.keys }
    requires few_blocks { length task.now.blocks.items + 1 < 2 ^ 32 }
    requires grid { IsGrid task.now.sites.items grid.now.columns.items grid.now.rows.items
        grid.now.spots }
    requires few_rows { length grid.now.rows.items + 1 < 2 ^ 32 }
    requires active { length active.now ≡ length task.now.blocks.items }
    requires board { IsBoard task.now board.old.places.items board.old.occupants.items }
    ensures descends { IfOk result (Descends task.now board.old.places.items
        board.old.occupants.items board.new.places.items board.new.occupants.items) }
    ensures stuck { IfOk result (λ better. IsFalse better → All IsTrue active.now
        → AreStuck task.now board.old.places.items board.old.occupants.items
        (length task.now.blocks.items)) }
{
    let pulls = pulls_of(alloc, task, nets, &board.places)?;
    let mut better = false;
    for block in 0..task.blocks.len() as u32 {
        if active[block as usize]
            && settle(alloc, task, nets, pairing, grid, &pulls, board, block)?
        {
            better = true;
        }
    }
    Ok(better)
}

/// Tries a block at each site. Whether the cost became less.
fn settle(
    alloc: Global,
    task: &AnnealTask,
    nets: &BlockNets,
    pairing: &Pairing,
    grid: &Grid,
    pulls: &[Pull],
    board: &mut Board,
    block: u32,
) -> Result<bool, AllocError>
    requires nets { AreBlockNets (nets_of task.now) (map vec_items nets.now.of.items)
        (length task.now.blocks.items) }
    requires named { NameBlocks (nets_of task.now) (length task.now.blocks.items) }
    requires pairing { HaveSamePairs task.now.fits.items pairing.now.pairs.keys }
    requires grid { IsGrid task.now.sites.items grid.now.columns.items grid.now.rows.items
        grid.now.spots }
    requires few_rows { length grid.now.rows.items + 1 < 2 ^ 32 }
    requires pulls { length pulls.now ≡ length task.now.blocks.items }
    requires board { IsBoard task.now board.old.places.items board.old.occupants.items }
    requires block { block < length task.now.blocks.items }
    ensures descends { IfOk result (Descends task.now board.old.places.items
        board.old.occupants.items board.new.places.items board.new.occupants.items) }
    ensures stuck { IfOk result (λ better. IsFalse better
        → ArePulls task.now board.old.places.items pulls.now
        → IsStuck task.now board.old.places.items board.old.occupants.items block
        (length task.now.sites.items)) }
{
    let mut better = false;
    let mut draw = Draw::of(alloc, task, nets, &grid.columns, &board.places, block)?;
    for row in 0..grid.rows.len() as u32 {
        if try_row(task, nets, pairing, grid, pulls, &draw, board, block, row) {
            better = true;
            draw = Draw::of(alloc, task, nets, &grid.columns, &board.places, block)?;
        }
    }
    Ok(better)
}

/// Tries a block at the sites of a row, up to the first at which the cost becomes less. Whether
/// there was one.
fn try_row(
    task: &AnnealTask,
    nets: &BlockNets,
    pairing: &Pairing,
    grid: &Grid,
    pulls: &[Pull],
    draw: &Draw,
    board: &mut Board,
    block: u32,
    row: u32,
) -> bool
    requires nets { AreBlockNets (nets_of task.now) (map vec_items nets.now.of.items)
        (length task.now.blocks.items) }
    requires named { NameBlocks (nets_of task.now) (length task.now.blocks.items) }
    requires pairing { HaveSamePairs task.now.fits.items pairing.now.pairs.keys }
    requires grid { IsGrid task.now.sites.items grid.now.columns.items grid.now.rows.items
        grid.now.spots }
    requires pulls { length pulls.now ≡ length task.now.blocks.items }
    requires draw { IsDraw task.now board.old.places.items grid.now.columns.items block draw.now }
    requires board { IsBoard task.now board.old.places.items board.old.occupants.items }
    requires block { block < length task.now.blocks.items }
    requires row { row < length grid.now.rows.items }
    ensures descends { Descends task.now board.old.places.items board.old.occupants.items
        board.new.places.items board.new.occupants.items result }
    ensures stuck { IsFalse result → ArePulls task.now board.old.places.items pulls.now
        → IsStuckAmong task.now board.old.places.items board.old.occupants.items block
        (slice_index_or grid.now.spots row []) }
{
    let left = draw.left(grid.rows[row as usize]);
    if left <= draw.nearest {
        return false;
    }
    let spots = grid.spots.group(row);
    for spot in spots {
        let away = draw.columns[spot.column as usize];
        if away < left
            && improve(
                task,
                nets,
                pairing,
                pulls,
                board,
                block,
                spot.site,
                left - away,
            )
        {
            return true;
        }
    }
    false
}

/// Moves a block to a site, or exchanges it with the block there, if both fit and the cost becomes
/// less; the move alone makes it less by `gain`. Whether it did.
fn improve(
    task: &AnnealTask,
    nets: &BlockNets,
    pairing: &Pairing,
    pulls: &[Pull],
    board: &mut Board,
    block: u32,
    site: u32,
    gain: u128,
) -> bool
    requires nets { AreBlockNets (nets_of task.now) (map vec_items nets.now.of.items)
        (length task.now.blocks.items) }
    requires named { NameBlocks (nets_of task.now) (length task.now.blocks.items) }
    requires pairing { HaveSamePairs task.now.fits.items pairing.now.pairs.keys }
    requires pulls { length pulls.now ≡ length task.now.blocks.items }
    requires board { IsBoard task.now board.old.places.items board.old.occupants.items }
    requires block { block < length task.now.blocks.items }
    requires site { site < length task.now.sites.items }
    requires gain { 0 < gain }
    requires less { cost task.now (slice_set board.old.places.items block site) + gain
        ≡ cost task.now board.old.places.items }
    ensures descends { Descends task.now board.old.places.items board.old.occupants.items
        board.new.places.items board.new.occupants.items result }
    ensures stuck { IsFalse result → ArePulls task.now board.old.places.items pulls.now
        → IsStuckAt task.now board.old.places.items board.old.occupants.items block site }
{
    if !fits(task, pairing, block, site) {
        return false;
    }
    let Some(other) = board.occupants[site as usize] else {
        board.move_to(block, site);
        return true;
    };
    let home = board.places[block as usize];
    if !fits(task, pairing, other, home) {
        return false;
    }
    if !pulls[other as usize].reaches(task.sites[home as usize], gain) {
        return false;
    }
    let helps = exchange_helps(task, nets, &mut board.places, block, other);
    if helps {
        board.exchange(block, other);
    }
    helps
}

/// Whether the cost becomes less where two blocks are exchanged.
fn exchange_helps(task: &AnnealTask, nets: &BlockNets, places: &mut [u32], a: u32, b: u32) -> bool
    requires nets { AreBlockNets (nets_of task.now) (map vec_items nets.now.of.items)
        (length task.now.blocks.items) }
    requires named { NameBlocks (nets_of task.now) (length task.now.blocks.items) }
    requires blocks { length places.old ≡ length task.now.blocks.items }
    requires sites { All (λ site. site < length task.now.sites.items) places.old }
    requires a { a < length places.old }
    requires b { b < length places.old }
    ensures kept { places.new ≡ places.old }
    ensures value { IsTrue result ↔ cost task.now (swap places.old a b) < cost task.now places.old }
{
    let trial = exchange_trial(task, nets, places, a, b);
    trial.after < trial.before
}
