ghost use Rattle.std.specs.Prelude.{◌≡◌, ◌↔◌, IsTrue};
ghost use Rattle.fasm_text.specs.Names.{is_name_byte, IsNamePart, IsFeatureName};

use vtr_base::cut;

/// Whether a text is a feature's name: one or more parts divided by `.`, each of ASCII letters,
/// digits and `_`.
pub fn is_feature_name(text: &[u8]) -> bool
    ensures { IsTrue result ↔ IsFeatureName text.now }
{
    let mut rest = text;
    while let Some((part, behind)) = cut(rest, b'.') {
        if !is_name_part(part) {
            return false;
        }
        rest = behind;
    }
    is_name_part(rest)
}

fn is_name_part(part: &[u8]) -> bool
    ensures { IsTrue result ↔ IsNamePart part.now }
{
    !part.is_empty() && part.iter().all(|b| is_byte_of_a_name(*b))
}

fn is_byte_of_a_name(b: u8) -> bool
    ensures { result ≡ is_name_byte b }
{
    matches!(b, b'a'..=b'z' | b'A'..=b'Z' | b'0'..=b'9' | b'_')
}
