ghost use Rattle.elem_text.specs.Laws.{SpellsOneElement, BreaksAtOnePlace, BreaksOrIsSpelled, BreaksOrIsTooDeep};
ghost use Rattle.std.specs.Prelude.{◌≡◌, IfOk, IfErr};
ghost use Rattle.elem_text.specs.Written.{bare, IsWritable};

use crate::elem::Elem;
use crate::error::ElemError;
use crate::reader::read_elems;
use crate::writer::write_elem;
use std::alloc::Global;

/// The laws of the grammar, so that what `read_elems` promises of its answers decides each answer:
/// a file spells at most one element, and breaks at most at one place; and one that breaks neither
/// spells an element nor is nested too deep before. It does nothing.
pub fn laws_of_the_grammar()
    ensures one_element { SpellsOneElement }
    ensures one_place { BreaksAtOnePlace }
    ensures spelled { BreaksOrIsSpelled }
    ensures deep { BreaksOrIsTooDeep }
{}

/// The round trip: what an element is read as when it has been written. Where it can be written, it
/// comes back but for its places, or memory runs out.
pub fn read_back(alloc: Global, elem: &Elem) -> Result<Elem, ElemError>
    ensures same { IsWritable elem.now → IfOk result (λ e. bare e ≡ bare elem.now) }
    ensures memory { IsWritable elem.now → IfErr result (λ e. e ≡ ElemError.OutOfMemory) }
{
    let mut text = Vec::new(alloc);
    write_elem(&mut text, elem)?;
    read_elems(alloc, text.as_slice())
}
