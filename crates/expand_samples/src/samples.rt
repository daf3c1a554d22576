use crate::make::{InterRow, block, leaf, mode, one_kid, one_mode};
use arch_types::{InterKind, Kind, PbType, Side};
use std::alloc::{AllocError, Global};

/// A `top` whose `ins` input pins a `complete` joins to each of the `outs` input pins of its one
/// child, and with `more` a `direct` from its first input pin to its one output pin.
pub fn crossbar(alloc: Global, ins: u32, outs: u32, more: bool) -> Result<PbType, AllocError> {
    let kid = leaf(alloc, "cell", 1, Kind::Cell(0), &[("i", Side::Input, outs)])?;
    let wires: [InterRow<'_>; 2] = [
        ("all", InterKind::Complete, "top.a", "cell.i"),
        ("one", InterKind::Direct, "top.a[0]", "top.z"),
    ];
    let count = if more { 2 } else { 1 };
    let modes = one_mode(
        alloc,
        mode(alloc, "default", one_kid(alloc, kid)?, &wires[..count])?,
    )?;
    block(
        alloc,
        "top",
        1,
        &[("a", Side::Input, ins), ("z", Side::Output, 1)],
        modes,
    )
}
