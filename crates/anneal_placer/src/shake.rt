ghost use Rattle.std.specs.Prelude.{◌≡◌, ◌<◌, ◌≤◌, ◌+◌, ◌^◌, IfSome, IsTrue, OnOk, length, map};
ghost use Rattle.std.specs.Vec.{vec_items};
ghost use Rattle.anneal_placer.specs.Board.{HaveSamePairs, IsBoard};
ghost use Rattle.anneal_placer.specs.Search.{AreBlockNets};
ghost use Rattle.anneal_placer.specs.Task.{FitsAt, NameBlocks, nets_of};

use crate::AnnealTask;
use crate::board::{Board, fits};
use crate::curve::Curve;
use crate::indexed::BlockNets;
use crate::pairing::Pairing;
use crate::trial::{Trial, cost_with, exchange_trial, move_trial};
use rand_core::utils::NextWord;
use rand_pcg::Pcg32;
use std::alloc::{AllocError, Global};

/// How often the temperature falls.
const ROUNDS: u32 = 200;

/// How far along the curve from a neighbour a block is tried at most.
const NEIGHBOURHOOD: u32 = 64;

/// How many sites a block looks at in each move; it is tried at the one that would cost it least.
const LOOKS: u32 = 3;

/// The window grows no narrower.
const LEAST_WINDOW: u64 = 8;

/// What the moves of a round came to.
#[derive(Clone, Copy, Drop)]
struct Tally {
    tried: u64,
    taken: u64,
    dearer: u64,
    rise: u128,
}

/// The words of a seed, how hot it is, and how far along the curve a block goes.
#[derive(Drop)]
struct Heat {
    words: Pcg32,
    /// The rise that is taken every second time, in parts of 65,536.
    level: u64,
    /// By how many halves the level falls in all rounds.
    halves: u64,
    window: u32,
}

/// Tries blocks at other sites at random, and takes what costs less, and at first also what costs
/// somewhat more.
pub(crate) fn shake(
    alloc: Global,
    task: &AnnealTask,
    nets: &BlockNets,
    pairing: &Pairing,
    board: &mut Board,
    seed: u64,
    moves: u32,
) -> Result<(), AllocError>
    requires nets { AreBlockNets (nets_of task.now) (map vec_items nets.now.of.items)
        (length task.now.blocks.items) }
    requires named { NameBlocks (nets_of task.now) (length task.now.blocks.items) }
    requires pairing { HaveSamePairs task.now.fits.items pairing.now.pairs.keys }
    requires few_blocks { length task.now.blocks.items + 1 < 2 ^ 32 }
    requires few_sites { length task.now.sites.items + 1 < 2 ^ 32 }
    requires board { IsBoard task.now board.old.places.items board.old.occupants.items }
    ensures { OnOk result (IsBoard task.now board.new.places.items board.new.occupants.items) }
{
    let curve = Curve::new(alloc, &task.sites)?;
    let mut heat = Heat {
        words: Pcg32::new(seed, 0),
        level: 0,
        halves: 0,
        window: task.sites.len() as u32,
    };
    for round in 0..ROUNDS {
        let more = if moves % ROUNDS > round { 1 } else { 0 };
        let tally = try_moves(
            task,
            nets,
            pairing,
            board,
            &curve,
            &mut heat,
            moves / ROUNDS + more,
        );
        if round == 0 {
            heat.kindle(tally);
        } else {
            heat.cool(tally);
        }
    }
    Ok(())
}

/// Tries that many moves and exchanges.
fn try_moves(
    task: &AnnealTask,
    nets: &BlockNets,
    pairing: &Pairing,
    board: &mut Board,
    curve: &Curve,
    heat: &mut Heat,
    tries: u32,
) -> Tally
    requires nets { AreBlockNets (nets_of task.now) (map vec_items nets.now.of.items)
        (length task.now.blocks.items) }
    requires named { NameBlocks (nets_of task.now) (length task.now.blocks.items) }
    requires pairing { HaveSamePairs task.now.fits.items pairing.now.pairs.keys }
    requires few_blocks { length task.now.blocks.items + 1 < 2 ^ 32 }
    requires few_sites { length task.now.sites.items + 1 < 2 ^ 32 }
    requires board { IsBoard task.now board.old.places.items board.old.occupants.items }
    ensures { IsBoard task.now board.new.places.items board.new.occupants.items }
{
    let mut tally = Tally {
        tried: 0,
        taken: 0,
        dearer: 0,
        rise: 0,
    };
    let blocks = task.blocks.len() as u32;
    if blocks == 0 {
        return tally;
    }
    for _ in 0..tries {
        let block = heat.words.next_word() % blocks;
        if let Some(site) = best_of_few(task, nets, pairing, board, curve, heat, block) {
            let most = heat.patience();
            let trial = try_step(task, nets, pairing, board, block, site, most);
            tally.count(trial, most);
        }
    }
    tally
}

/// Of a few sites other than its own that the block fits, one at which its nets would cost least.
fn best_of_few(
    task: &AnnealTask,
    nets: &BlockNets,
    pairing: &Pairing,
    board: &mut Board,
    curve: &Curve,
    heat: &mut Heat,
    block: u32,
) -> Option<u32>
    requires nets { AreBlockNets (nets_of task.now) (map vec_items nets.now.of.items)
        (length task.now.blocks.items) }
    requires named { NameBlocks (nets_of task.now) (length task.now.blocks.items) }
    requires pairing { HaveSamePairs task.now.fits.items pairing.now.pairs.keys }
    requires few_sites { length task.now.sites.items + 1 < 2 ^ 32 }
    requires board { IsBoard task.now board.old.places.items board.old.occupants.items }
    requires block { block < length task.now.blocks.items }
    ensures board { IsBoard task.now board.new.places.items board.new.occupants.items }
    ensures fit { IfSome result (FitsAt task.now block) }
{
    let mut best = None;
    let mut least = u128::MAX;
    for _ in 0..LOOKS {
        let site = heat.aim(task, nets, curve, &board.places, block);
        if can_go(task, pairing, board, block, site) {
            let cost = cost_there(task, nets, board, block, site);
            if cost < least {
                least = cost;
                best = Some(site);
            }
        }
    }
    best
}

/// What the nets of a block would cost with the block at that site. The board stays.
fn cost_there(task: &AnnealTask, nets: &BlockNets, board: &mut Board, block: u32, site: u32) -> u128
    requires nets { AreBlockNets (nets_of task.now) (map vec_items nets.now.of.items)
        (length task.now.blocks.items) }
    requires named { NameBlocks (nets_of task.now) (length task.now.blocks.items) }
    requires board { IsBoard task.now board.old.places.items board.old.occupants.items }
    requires block { block < length task.now.blocks.items }
    requires site { site < length task.now.sites.items }
    ensures { IsBoard task.now board.new.places.items board.new.occupants.items }
{
    cost_with(task, nets, &mut board.places, block, site)
}

/// Whether a site is another than the block's own, and one that the block fits.
fn can_go(task: &AnnealTask, pairing: &Pairing, board: &Board, block: u32, site: u32) -> bool
    requires pairing { HaveSamePairs task.now.fits.items pairing.now.pairs.keys }
    requires few_sites { length task.now.sites.items + 1 < 2 ^ 32 }
    requires board { IsBoard task.now board.now.places.items board.now.occupants.items }
    requires block { block < length task.now.blocks.items }
    ensures within { IsTrue result → site < length task.now.sites.items }
    ensures fit { IsTrue result → FitsAt task.now block site }
{
    let home = board.places[block as usize];
    (site as usize) < task.sites.len() && site != home && fits(task, pairing, block, site)
}

/// Moves a block to a site, or exchanges it with the block there, unless that block doesn't fit or
/// the cost rises by more than `most`. What it would do to the cost.
fn try_step(
    task: &AnnealTask,
    nets: &BlockNets,
    pairing: &Pairing,
    board: &mut Board,
    block: u32,
    site: u32,
    most: u128,
) -> Trial
    requires nets { AreBlockNets (nets_of task.now) (map vec_items nets.now.of.items)
        (length task.now.blocks.items) }
    requires named { NameBlocks (nets_of task.now) (length task.now.blocks.items) }
    requires pairing { HaveSamePairs task.now.fits.items pairing.now.pairs.keys }
    requires board { IsBoard task.now board.old.places.items board.old.occupants.items }
    requires block { block < length task.now.blocks.items }
    requires fit { FitsAt task.now block site }
    ensures { IsBoard task.now board.new.places.items board.new.occupants.items }
{
    let Some(other) = board.occupants[site as usize] else {
        let trial = move_trial(task, nets, &mut board.places, block, site);
        if trial.after.saturating_sub(trial.before) <= most {
            board.move_to(block, site);
        }
        return trial;
    };
    let home = board.places[block as usize];
    if !fits(task, pairing, other, home) {
        return Trial {
            before: 0,
            after: u128::MAX,
        };
    }
    let trial = exchange_trial(task, nets, &mut board.places, block, other);
    if trial.after.saturating_sub(trial.before) <= most {
        board.exchange(block, other);
    }
    trial
}

impl Tally {
    /// Counts a step, which was taken where the cost rises by no more than `most`.
    fn count(&mut self, trial: Trial, most: u128) {
        let rise = trial.after.saturating_sub(trial.before);
        self.tried = self.tried.saturating_add(1);
        if rise <= most {
            self.taken = self.taken.saturating_add(1);
        }
        if 0 < rise && rise < u64::MAX as u128 {
            self.dearer = self.dearer.saturating_add(1);
            self.rise = self.rise.saturating_add(rise);
        }
    }
}

impl Heat {
    /// A site for a block to look at: every third time near a block that shares a net with it, and
    /// else near its own.
    fn aim(
        &mut self,
        task: &AnnealTask,
        nets: &BlockNets,
        curve: &Curve,
        places: &[u32],
        block: u32,
    ) -> u32 {
        let window = self.window;
        if self.words.next_word() % 3 == 0 {
            if let Some(site) = self.neighbour(task, nets, places, block) {
                return self.near(curve, site, window.min(NEIGHBOURHOOD));
            }
        }
        let home = places.get(block as usize).copied().unwrap_or(0);
        self.near(curve, home, window)
    }

    /// The site of a block of one of the block's nets.
    fn neighbour(
        &mut self,
        task: &AnnealTask,
        nets: &BlockNets,
        places: &[u32],
        block: u32,
    ) -> Option<u32> {
        let list = nets.of.get(block as usize)?;
        let net = self.any_of(list)?;
        let other = self.any_of(task.nets.get(net as usize)?)?;
        places.get(other as usize).copied()
    }

    /// Any entry of a list, if it has one.
    fn any_of(&mut self, list: &[u32]) -> Option<u32> {
        let word = self.words.next_word() as usize;
        list.get(word % list.len().max(1)).copied()
    }

    /// A site not far from that one along the curve, or now and then any.
    fn near(&mut self, curve: &Curve, site: u32, window: u32) -> u32 {
        let word = self.words.next_word();
        let mut low = 0;
        let mut width = curve.len();
        if word % 16 != 0 {
            low = curve.rank_of(site).saturating_sub(window);
            width = window.saturating_mul(2).saturating_add(1);
        }
        let rank = low.saturating_add(self.words.next_word() % width.max(1));
        curve.site(rank).unwrap_or(site)
    }

    /// The most by which the cost may rise in a step: half as much again every second time.
    fn patience(&mut self) -> u128 {
        (self.level as u128).saturating_mul(halvings(self.words.next_word()) as u128) >> 32
    }

    /// Sets the level by the mean rise of the steps that made the cost more.
    fn kindle(&mut self, tally: Tally) {
        let mean = tally.rise / (tally.dearer.max(1) as u128);
        self.level = mean.min(1 << 40).saturating_mul(1 << 14) as u64;
        self.halves = 64 - (self.level >> 14).leading_zeros() as u64;
    }

    /// Lowers the level a little, and narrows the window where few steps are taken.
    fn cool(&mut self, tally: Tally) {
        self.level = self
            .level
            .saturating_sub((self.level / 350).saturating_mul(self.halves));
        let share = tally.taken.saturating_mul(100) / tally.tried.max(1);
        let window = (self.window as u64).saturating_mul(share.min(100) + 56) / 100;
        self.window = window.clamp(LEAST_WINDOW, 1 << 31) as u32;
    }
}

/// How often one has to halve to come to a share of 2^32, in parts of 65,536: about its logarithm.
fn halvings(word: u32) -> u64
    ensures { result < 2 ^ 22 }
{
    let zeros = word.leading_zeros() as u64;
    let behind = ((word as u64) << (zeros + 1)) & 0xffff_ffff;
    (zeros + 1) * 65536 - (behind >> 16) % 65536
}
