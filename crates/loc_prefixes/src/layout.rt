ghost use Rattle.std.specs.Prelude.{◌<◌, ◌^◌, MatchOption, length};
ghost use Rattle.loc_prefixes.specs.Layouts.{HasNoSize, IsFirstOfSize, AreSinglesOf};

use arch_types::{Arch, Layout, Single};

/// The layout that holds for a grid of so many columns and rows: the first of that size (VTR
/// architecture reference, "Grid layout").
pub fn layout_of(layouts: &[Layout], size: (u32, u32)) -> Option<&Layout>
    ensures { MatchOption result (HasNoSize layouts.now size)
        (λ layout. IsFirstOfSize layouts.now size layout.now) }
{
    for layout in layouts {
        if layout.width == size.0 && layout.height == size.1 {
            return Some(layout);
        }
    }
    None
}

/// The singles of that layout, in file order, and none where no layout has the size.
pub fn singles_of(arch: &Arch, size: (u32, u32)) -> &[Single]
    ensures of { AreSinglesOf arch.now.layouts size result.now }
    ensures few { length result.now < 2 ^ 32 }
{
    arch.law();
    match layout_of(arch.layouts.as_slice(), size) {
        Some(layout) => layout.singles.as_slice(),
        None => &[],
    }
}
