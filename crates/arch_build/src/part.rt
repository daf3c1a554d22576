ghost use Rattle.std.specs.Prelude.{◌≡◌, ◌++◌, ℕ, IfOk, OnOk};
ghost use Rattle.std.specs.List.{flat_map};
ghost use Rattle.elem_text.specs.declared.elem.Elem.{out-Elem};
ghost use Rattle.elem_attrs.specs.Attributes.{attr_of};
ghost use Rattle.arch_build.specs.Said.{count_in, count_of, small_in};

use elem_attrs::{attribute, number_up_to};
use elem_text::Elem;
use std::alloc::{AllocError, Global};
use vtr_base::Text;

/// A copy of an attribute's value.
pub(crate) fn copied(alloc: Global, elem: &Elem, name: &[u8]) -> Result<Text, AllocError>
    ensures { IfOk result (λ t. t ≡ attr_of elem.now name.now) }
{
    match attribute(elem, name) {
        Some(value) => value.copy(alloc),
        None => Ok(Text::new(alloc)),
    }
}

/// The number from 1 to 65,536 that an attribute holds; 1 where there is none.
pub(crate) fn count_in(elem: &Elem, name: &[u8]) -> u32
    ensures { result ≡ count_in (out-Elem elem.now).attrs name.now }
{
    match attribute(elem, name) {
        Some(digits) => count_of(digits.as_bytes()),
        None => 1,
    }
}

fn count_of(digits: &[u8]) -> u32
    ensures { result ≡ count_of digits.now }
{
    match number_up_to(digits, 65536) {
        Some(0) | None => 1,
        Some(n) => n as u32,
    }
}

/// The number below 2^32 that an attribute holds.
pub(crate) fn small_in(elem: &Elem, name: &[u8]) -> Option<u32>
    ensures { result ≡ small_in (out-Elem elem.now).attrs name.now }
{
    let digits = attribute(elem, name)?;
    let n = number_up_to(digits.as_bytes(), 4294967295)?;
    Some(n as u32)
}
