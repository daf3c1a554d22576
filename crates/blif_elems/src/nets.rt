ghost use Rattle.std.specs.Prelude.{◌≡◌, ◌↔◌, IsTrue};
ghost use Rattle.blif_elems.specs.Nets.{IsNet, AreNets};
ghost use Rattle.blif_elems.specs.Seen.{texts};

/// Whether a word may name a net: it isn't `open` and doesn't begin with `Netlist_File:`, since
/// packed netlists and placements use these for something else.
pub fn is_net(name: &str) -> bool
    ensures { IsTrue result ↔ IsNet name.now }
{
    if is_same(name, "open") {
        return false;
    }
    !name.as_bytes().starts_with(b"Netlist_File:")
}

/// Whether all words may name nets.
pub(crate) fn are_nets(names: &[&str]) -> bool
    ensures { IsTrue result ↔ AreNets (texts names.now) }
{
    names.iter().all(|name| is_net(name))
}

/// Whether two texts are equal.
pub(crate) fn is_same(a: &str, b: &str) -> bool
    ensures { IsTrue result ↔ (a.now ≡ b.now) }
{
    a == b
}
