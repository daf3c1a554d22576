ghost use Rattle.std.specs.Prelude.{◌≡◌, map, IfOk};
ghost use Rattle.meta_block.specs.Ways.{way_text};

use std::alloc::{AllocError, Global};
use vtr_base::Text;

/// The names on a way, joined by `/`.
pub(crate) fn way_name(alloc: Global, way: &[&Text]) -> Result<Text, AllocError>
    ensures { IfOk result (λ name. name ≡ way_text (map (λ n. n.now) way.now)) }
{
    let Some((first, rest)) = way.split_first() else {
        return Ok(Text::new(alloc));
    };
    let mut text = first.copy(alloc)?;
    for name in rest {
        text.push('/')?;
        text.push_str(name.as_str())?;
    }
    Ok(text)
}
