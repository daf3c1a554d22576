ghost use Rattle.std.specs.Prelude.{◌≡◌, ◌↔◌, ℕ, List, map, IfOk, IsTrue};
ghost use Rattle.std.specs.List.{AllPass};
ghost use Rattle.vtr_base.specs.Spans.{is_white, is_word_byte};
ghost use Rattle.arch_types.specs.Names.{is_plain, IsPlainName, IsUnbrokenName};

fn is_white_byte(b: u8) -> bool
    ensures { result ≡ is_white b }
{
    matches!(b, b' ' | b'\t' | b'\n' | b'\r')
}

/// Whether a byte may stand in a plain name.
fn is_plain_byte(b: u8) -> bool
    ensures { result ≡ is_plain b }
{
    if is_white_byte(b) {
        return false;
    }
    !matches!(
        b,
        b'/' | b':' | b'.' | b'[' | b']' | b'{' | b'}' | b'=' | b'#' | b',' | b'\\' | b'"'
    )
}

/// Whether a text may name a pb_type or a port.
pub fn is_plain_name(text: &[u8]) -> bool
    ensures { IsTrue result ↔ IsPlainName text.now }
{
    !text.is_empty() && text.iter().all(|b| is_plain_byte(*b))
}

/// Whether a text may name an interconnect.
pub fn is_unbroken_name(text: &[u8]) -> bool
    ensures { IsTrue result ↔ IsUnbrokenName text.now }
{
    !text.is_empty() && text.iter().all(|b| !is_white_byte(*b))
}
