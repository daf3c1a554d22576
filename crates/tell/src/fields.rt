ghost use Rattle.std.specs.Prelude.{◌≡◌, ◌∷◌, ◌++◌, OnOk};
ghost use Rattle.std.specs.Fmt.{decimal};
ghost use Rattle.tell.specs.Fields.{place_text, named_text, pair_text};

use itoa::Buffer;
use std::alloc::AllocError;
use vtr_base::{Place, Text};

/// Appends a heading and one field behind it.
pub fn put_two(text: &mut Text, heading: &str, field: &str) -> Result<(), AllocError>
    ensures { OnOk result (text.new ≡ text.old ++ (heading.now ++ field.now)) }
{
    text.push_str(heading)?;
    text.push_str(field)
}

/// Appends a heading and two fields with a space between them.
pub fn put_pair(text: &mut Text, heading: &str, one: &str, two: &str) -> Result<(), AllocError>
    ensures { OnOk result (text.new ≡ text.old ++ pair_text heading.now one.now two.now) }
{
    text.push_str(heading)?;
    text.push_str(one)?;
    text.push_str(" ")?;
    text.push_str(two)
}

/// Appends a heading and a whole number in decimal digits.
pub fn put_number(text: &mut Text, heading: &str, number: u64) -> Result<(), AllocError>
    ensures { OnOk result (text.new ≡ text.old ++ (heading.now ++ decimal number)) }
{
    text.push_str(heading)?;
    text.push_str(Buffer::new().format(number))
}

/// Appends a place as `line:byte`.
pub fn put_place(text: &mut Text, place: Place) -> Result<(), AllocError>
    ensures { OnOk result (text.new ≡ text.old ++ place_text place) }
{
    put_number(text, "", u64::from(place.line))?;
    put_number(text, ":", u64::from(place.byte))
}

/// Appends a heading and a place.
pub fn put_placed(text: &mut Text, heading: &str, place: Place) -> Result<(), AllocError>
    ensures { OnOk result (text.new ≡ text.old ++ (heading.now ++ place_text place)) }
{
    text.push_str(heading)?;
    put_place(text, place)
}

/// Appends a heading, a name and a place.
pub fn put_named(text: &mut Text, heading: &str, name: &str, place: Place) -> Result<(), AllocError>
    ensures { OnOk result (text.new ≡ text.old ++ named_text heading.now name.now place) }
{
    text.push_str(heading)?;
    text.push_str(name)?;
    text.push_str(" ")?;
    put_place(text, place)
}
