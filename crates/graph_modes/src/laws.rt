ghost use Rattle.std.specs.Prelude.{◌≡◌, ℕ, Some, slice_get};
ghost use Rattle.arch_types.specs.declared.block.PbType.{PbType};
ghost use Rattle.pb_expand.specs.Graph.{Graph};
ghost use Rattle.search_rules.specs.Left.{HasSomeModes};

use arch_types::Arch;

/// A law of architectures, for callers' proofs: in the graph of a block type each instance that
/// isn't a leaf has a mode, as the VTR architecture reference has it of `<pb_type>`: one without
/// `<mode>` is a mode of its own. It does nothing.
pub fn some_modes(arch: &Arch)
    ensures { (number : ℕ) (root : PbType) (g : Graph) → slice_get arch.now.blocks number ≡ Some
        root → g.root ≡ root → HasSomeModes g }
{
    arch.law();
}
