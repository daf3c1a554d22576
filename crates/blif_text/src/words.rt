ghost use Rattle.std.specs.Prelude.{◌≡◌, ◌<◌, ◌++◌, ◌∷◌, [], length, OnOk};
ghost use Rattle.std.specs.List.{All};
ghost use Rattle.blif_text.specs.Words.{name_at, nets_text, spaced};

use names::Names;
use net_types::Conn;
use std::alloc::AllocError;

/// Appends a blank and a word.
pub(crate) fn put_word(out: &mut Vec<u8>, word: &str) -> Result<(), AllocError>
    ensures { OnOk result (out.new.items ≡ out.old.items ++ spaced word.now) }
{
    out.push(b' ')?;
    out.extend_from_slice(word.as_bytes())
}

/// Ends a line behind a name: a blank stands before the line feed, since a name may end in `\`,
/// which would join the next line.
pub(crate) fn end_line(out: &mut Vec<u8>) -> Result<(), AllocError>
    ensures { OnOk result (out.new.items ≡ out.old.items ++ 32 ∷ 10 ∷ []) }
{
    out.extend_from_slice(b" \n")
}

/// Appends the names of the nets of these connections.
pub(crate) fn put_nets(out: &mut Vec<u8>, nets: &Names, conns: &[Conn]) -> Result<(), AllocError>
    requires { All (λ c. c.net < length nets.now) conns.now }
    ensures { OnOk result (out.new.items ≡ out.old.items ++ nets_text nets.now conns.now) }
{
    for conn in conns {
        put_word(out, net_name(nets, conn.net))?;
    }
    Ok(())
}

/// The name of a net.
pub(crate) fn net_name(nets: &Names, net: u32) -> &str
    requires { net < length nets.now }
    ensures { result.now ≡ name_at nets.now net }
{
    nets.text(net)
}
