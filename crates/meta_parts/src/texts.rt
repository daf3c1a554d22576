ghost use Rattle.std.specs.Prelude.{◌≡◌, IfOk, IsUtf8};

use std::alloc::{AllocError, Global};
use text_parts::as_text;
use vtr_base::Text;

/// The text of these bytes.
pub fn text_of(alloc: Global, bytes: &[u8]) -> Result<Text, AllocError>
    requires { IsUtf8 bytes.now }
    ensures { IfOk result (λ text. text ≡ bytes.now) }
{
    match as_text(bytes) {
        Some(text) => Text::from_str(alloc, text),
        None => Err(AllocError),
    }
}
