ghost use Rattle.std.specs.Prelude.{◌≡◌, ℕ, Option};
ghost use Rattle.rr_nodes.specs.declared.pins.FoundPin.{FoundPin};

use rr_items::TilePin;

/// A pin of the block at a place, and whether it leads out of the block.
#[derive(Clone, Copy, Debug, PartialEq, Eq)]
pub struct FoundPin {
    pub pin: TilePin,
    pub is_output: bool,
}

/// The pins of the blocks that stand in a grid. `pin_of` is the pin that the block at a place (x,
/// y) has under a number (`ptc`), where it has one.
pub trait PinTable {
    ghost pin_of: { Self → ℕ → ℕ → ℕ → Option FoundPin };

    /// The pin that the block at (x, y) has under this number. It takes no memory.
    fn pin_at(&self, x: u32, y: u32, ptc: u32) -> Option<FoundPin>
        ensures { result ≡ pin_of self.now x y ptc };
}
