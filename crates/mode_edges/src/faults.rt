ghost use Rattle.std.specs.Prelude.{◌≡◌, ◌≢◌, ◌<◌, ◌⊎◌, ◌↔◌, length, IsTrue, Any, MatchResult};
ghost use Rattle.std.specs.List.{flat_map};
ghost use Rattle.mode_edges.specs.Faults.{IsFaultless, TellsFault, IsSoundMode, TellsFirst};
ghost use Rattle.mode_edges.specs.Readers.{pins_of};
ghost use Rattle.mode_edges.specs.declared.faults.EdgeError.TheVariants.{OutOfMemory};

use crate::groups::{groups, has_wide, pin_count};
use crate::names::{ModeNames, PinGroup};
use crate::pin::EdgeEnd;
use arch_types::{Inter, InterKind};
use std::alloc::{AllocError, Global};
use thiserror::Error;
use vtr_base::Text;

/// Why the interconnects of a mode can't be expanded. `inter` is the name of the first of them that
/// has a fault.
#[derive(Debug, Drop, Error)]
pub enum EdgeError {
    /// A word names no pin, or a pin on the wrong side.
    #[error("an interconnect names no pin")]
    NoSuchPin { inter: Text },
    /// The lists of a `direct` have two lengths.
    #[error("an interconnect has two widths")]
    Width { inter: Text },
    /// An input word of a `mux` names more than one pin, or its output isn't one pin.
    #[error("a mux is wider than one pin")]
    WideMux { inter: Text },
    #[error("out of memory")]
    OutOfMemory,
}

impl From<AllocError> for EdgeError {
    ghost from_gives = { λ _ e. e ≡ OutOfMemory };

    fn from(_e: AllocError) -> EdgeError {
        EdgeError::OutOfMemory
    }
}

impl<'n, 'a> ModeNames<'n, 'a> {
    /// Whether every interconnect of the mode names pins rightly. It counts pins and lists none, so
    /// that it is quick at words that name very many.
    pub fn check(&self, alloc: Global) -> Result<(), EdgeError>
        ensures { MatchResult result (λ _. IsSoundMode self.now.block self.now.mode)
            (λ e. TellsFirst self.now.block self.now.mode e) }
    {
        for inter in self.mode().inters.as_slice() {
            check_inter(alloc, self, inter)?;
        }
        Ok(())
    }
}

/// Whether an interconnect names pins rightly.
fn check_inter(alloc: Global, names: &ModeNames<'_, '_>, inter: &Inter) -> Result<(), EdgeError>
    ensures { MatchResult result (λ _. IsFaultless names.now.block names.now.mode inter.now)
        (λ e. TellsFault names.now.block names.now.mode inter.now e) }
{
    let Some(ins) = groups(alloc, names, EdgeEnd::Source, inter.input.as_bytes())? else {
        return Err(EdgeError::NoSuchPin {
            inter: inter.name.copy(alloc)?,
        });
    };
    let Some(outs) = groups(alloc, names, EdgeEnd::End, inter.output.as_bytes())? else {
        return Err(EdgeError::NoSuchPin {
            inter: inter.name.copy(alloc)?,
        });
    };
    if has_two_widths(inter.kind, ins.as_slice(), outs.as_slice()) {
        return Err(EdgeError::Width {
            inter: inter.name.copy(alloc)?,
        });
    }
    if is_wide_mux(inter.kind, ins.as_slice(), outs.as_slice()) {
        return Err(EdgeError::WideMux {
            inter: inter.name.copy(alloc)?,
        });
    }
    Ok(())
}

/// Whether the lists of a `direct` have two lengths.
fn has_two_widths(kind: InterKind, ins: &[PinGroup], outs: &[PinGroup]) -> bool
    ensures { IsTrue result ↔ ((kind ≡ InterKind.Direct)
        × (length (flat_map pins_of ins.now) ≢ length (flat_map pins_of outs.now))) }
{
    kind == InterKind::Direct && pin_count(ins) != pin_count(outs)
}

/// Whether a `mux` has a wide input word, or an output that isn't one pin.
fn is_wide_mux(kind: InterKind, ins: &[PinGroup], outs: &[PinGroup]) -> bool
    ensures { IsTrue result ↔ ((kind ≡ InterKind.Mux)
        × (Any (λ g. 1 < length (pins_of g)) ins.now ⊎ (length (flat_map pins_of outs.now) ≢ 1))) }
{
    kind == InterKind::Mux && (has_wide(ins) || pin_count(outs) != 1)
}
