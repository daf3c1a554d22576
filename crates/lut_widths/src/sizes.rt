ghost use Rattle.std.specs.Prelude.{◌≡◌, ◌↔◌, ◌<◌, ◌^◌, ℕ, IsTrue, MatchOption};
ghost use Rattle.arch_types.specs.declared.block.Side.TheVariants.{Input};
ghost use Rattle.lut_widths.specs.Held.{HasInputs, IsLutOf, HoldsLut};
ghost use Rattle.lut_widths.specs.Sizes.{AreSizes, AtSome, InChild, InMode, SizesMisfit, both};

use arch_types::{Kind, Mode, PbType, Port, Side};
use meta_said::holds_luts;

/// How many inputs LUTs have, as far as a width asks: of two different numbers one fits no width.
#[derive(Clone, Copy, Debug, PartialEq, Eq)]
pub(crate) enum LutSizes {
    NoLut,
    /// All have so many.
    Single(u32),
    /// Some have the one number, some have the other, and there may be more.
    Several(u32, u32),
}

impl LutSizes {
    /// The sizes of both.
    pub(crate) fn with(self, other: LutSizes) -> LutSizes
        ensures { result ≡ both self other }
    {
        match (self, other) {
            (LutSizes::NoLut, sizes) => sizes,
            (LutSizes::Several(_, _), _) => self,
            (LutSizes::Single(_), LutSizes::NoLut) => self,
            (LutSizes::Single(one), LutSizes::Single(two)) => {
                if one == two {
                    self
                } else {
                    LutSizes::Several(one, two)
                }
            }
            (LutSizes::Single(_), LutSizes::Several(_, _)) => other,
        }
    }

    /// Whether some LUT has no table of so many bits.
    pub(crate) fn misfit(self, width: u64) -> bool
        ensures { IsTrue result ↔ SizesMisfit self width }
    {
        match self {
            LutSizes::NoLut => false,
            LutSizes::Single(inputs) => !is_table(width, inputs),
            LutSizes::Several(_, _) => true,
        }
    }
}

/// Whether a table of so many inputs has so many bits.
pub(crate) fn is_table(width: u64, inputs: u32) -> bool
    requires { width < 2 ^ 64 }
    ensures { IsTrue result ↔ (width ≡ 2 ^ inputs) }
{
    match 2u64.checked_pow(inputs) {
        Some(bits) => width == bits,
        None => false,
    }
}

/// The sizes of the LUTs that a pb_type holds, if it holds LUTs: its own size, or those below it.
#[cycle(held)]
pub(crate) fn held_sizes(block: &PbType) -> LutSizes
    ensures { AreSizes (HoldsLut block.now) result }
{
    match &block.kind {
        Kind::Lut => own_size(block),
        Kind::Modes(modes) => modes_sizes(modes.as_slice()),
        Kind::InPad | Kind::OutPad | Kind::Latch | Kind::Cell(_) => LutSizes::NoLut,
    }
}

/// The sizes in modes that don't hold LUTs themselves.
#[cycle(held)]
fn modes_sizes(modes: &[Mode]) -> LutSizes
    ensures { AreSizes (AtSome InMode modes.now) result }
{
    let mut sizes = LutSizes::NoLut;
    for mode in modes {
        sizes = sizes.with(mode_sizes(mode));
    }
    sizes
}

/// The sizes in a mode, and none where it holds LUTs itself.
#[cycle(held)]
fn mode_sizes(mode: &Mode) -> LutSizes
    ensures { AreSizes (InMode mode.now) result }
{
    if holds_luts(mode.metas.as_slice()) {
        LutSizes::NoLut
    } else {
        kids_sizes(mode.kids.as_slice())
    }
}

/// The sizes in children that don't hold LUTs themselves.
#[cycle(held)]
pub(crate) fn kids_sizes(kids: &[PbType]) -> LutSizes
    ensures { AreSizes (AtSome InChild kids.now) result }
{
    let mut sizes = LutSizes::NoLut;
    for kid in kids {
        sizes = sizes.with(kid_sizes(kid));
    }
    sizes
}

/// The sizes in a child, and none where it holds LUTs itself or has no instance.
#[cycle(held)]
pub(crate) fn kid_sizes(kid: &PbType) -> LutSizes
    ensures { AreSizes (InChild kid.now) result }
{
    if kid.count == 0 {
        return LutSizes::NoLut;
    }
    if holds_luts(kid.metas.as_slice()) {
        return LutSizes::NoLut;
    }
    held_sizes(kid)
}

/// The size of a LUT; none where it has no input port.
fn own_size(leaf: &PbType) -> LutSizes
    ensures { AreSizes (λ k. HasInputs leaf.now.ports k) result }
{
    match inputs_of(leaf.ports.as_slice()) {
        Some(inputs) => LutSizes::Single(inputs),
        None => LutSizes::NoLut,
    }
}

/// How many pins the first input port has.
fn inputs_of(ports: &[Port]) -> Option<u32>
    ensures { MatchOption result ((k : ℕ) → HasInputs ports.now k → ⊥) (HasInputs ports.now) }
{
    for port in ports {
        if is_input(port) {
            return Some(port.width);
        }
    }
    None
}

/// Whether a port leads in.
fn is_input(port: &Port) -> bool
    ensures { IsTrue result ↔ (port.now.side ≡ Input) }
{
    port.side == Side::Input
}
