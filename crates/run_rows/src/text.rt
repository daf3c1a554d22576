ghost use Rattle.std.specs.Prelude.{◌<◌, IfSome, length};

use std::alloc::AllocError;

/// Replaces the first place of `old` in the text by `new`; whether there is one.
pub fn replace_first(text: &mut Vec<u8>, old: &[u8], new: &[u8]) -> Result<bool, AllocError> {
    let Some(at) = find(text.as_slice(), old) else {
        return Ok(false);
    };
    let alloc = *text.allocator();
    let mut changed = Vec::new(alloc);
    for (place, byte) in text.iter().enumerate() {
        if place == at {
            changed.extend_from_slice(new)?;
        }
        if place < at || place - at >= old.len() {
            changed.push(*byte)?;
        }
    }
    *text = changed;
    Ok(true)
}

/// The first place at which `part` stands in the text; a part of no bytes stands nowhere.
pub fn find(text: &[u8], part: &[u8]) -> Option<usize>
    ensures inside { IfSome result (λ at. at < length text.now) }
{
    if part.is_empty() {
        return None;
    }
    for place in 0..text.len() {
        if text[place..].starts_with(part) {
            return Some(place);
        }
    }
    None
}
