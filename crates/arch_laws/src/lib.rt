//! What every architecture keeps whose file breaks no rule, so that whoever reads an architecture
//! need not test it again.
#![tactic(auto)]

ghost use Rattle.std.specs.Prelude.{◌≡◌, ◌<◌, ◌^◌};
ghost use Rattle.elem_text.specs.Held.{IsUtf8Elem, elements};
ghost use Rattle.arch_build.specs.Said.{said_arch};
ghost use Rattle.arch_rules.specs.Walks.{IsFineFile};
ghost use Rattle.arch_links.specs.Links.{AreLinked};
ghost use Rattle.arch_types.specs.WellFormed.{IsWellFormed};

use arch_types::ArchParts;
use elem_text::Elem;

/// The law of architecture files: the architecture that a file says is well formed where the file
/// breaks no rule, is UTF-8, and has fewer than 2^32 elements. It does nothing.
pub fn well_formed(root: &Elem, arch: &ArchParts)
    requires fine { IsFineFile root.now }
    requires says { arch.now ≡ said_arch root.now }
    requires linked { AreLinked root.now arch.now }
    requires utf8 { IsUtf8Elem root.now }
    requires few { elements root.now < 2 ^ 32 }
    ensures { IsWellFormed arch.now }
{}
