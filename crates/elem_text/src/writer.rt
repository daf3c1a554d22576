ghost use Rattle.std.specs.Prelude.{◌≡◌, ◌++◌, OnOk, OnErr, IsUtf8, flat_map};
ghost use Rattle.elem_text.specs.Written.{escape, escaped, attr_text, text_of, start_text, end_text, IsPart, IsReadAs, IsWritable};

use crate::elem::{Attr, Elem};
use std::alloc::AllocError;

/// Appends an element as text, with nothing between its children. Where memory runs out, a front of
/// the text was appended.
pub fn write_elem(out: &mut Vec<u8>, elem: &Elem) -> Result<(), AllocError>
    ensures text { OnOk result (out.new.items ≡ out.old.items ++ text_of elem.now) }
    ensures part { OnErr result (IsPart out.old.items (text_of elem.now) out.new.items) }
    ensures utf8 { OnOk result (IsUtf8 (text_of elem.now)) }
    ensures reads_back { OnOk result (IsWritable elem.now → IsReadAs (text_of elem.now) elem.now) }
{
    write_start(out, elem)?;
    for kid in elem.kids.as_slice() {
        write_elem(out, kid)?;
    }
    write_end(out, elem)
}

/// Appends the start tag and the text.
fn write_start(out: &mut Vec<u8>, elem: &Elem) -> Result<(), AllocError>
    ensures text { OnOk result (out.new.items ≡ out.old.items ++ start_text elem.now) }
    ensures part { OnErr result (IsPart out.old.items (start_text elem.now) out.new.items) }
    ensures utf8 { OnOk result (IsUtf8 (start_text elem.now)) }
{
    out.push(b'<')?;
    write_text(out, elem.name.as_str())?;
    write_attrs(out, elem.attrs.as_slice())?;
    out.push(b'>')?;
    write_escaped(out, elem.text.as_str())
}

/// Appends the end tag.
fn write_end(out: &mut Vec<u8>, elem: &Elem) -> Result<(), AllocError>
    ensures text { OnOk result (out.new.items ≡ out.old.items ++ end_text elem.now) }
    ensures part { OnErr result (IsPart out.old.items (end_text elem.now) out.new.items) }
    ensures utf8 { OnOk result (IsUtf8 (end_text elem.now)) }
{
    out.extend_from_slice(b"</")?;
    write_text(out, elem.name.as_str())?;
    out.push(b'>')?;
    Ok(())
}

fn write_attrs(out: &mut Vec<u8>, attrs: &[Attr]) -> Result<(), AllocError>
    ensures text { OnOk result (out.new.items ≡ out.old.items ++ flat_map attr_text attrs.now) }
    ensures part { OnErr result (IsPart out.old.items (flat_map attr_text attrs.now)
        out.new.items) }
    ensures utf8 { OnOk result (IsUtf8 (flat_map attr_text attrs.now)) }
{
    for attr in attrs {
        write_attr(out, attr)?;
    }
    Ok(())
}

fn write_attr(out: &mut Vec<u8>, attr: &Attr) -> Result<(), AllocError>
    ensures text { OnOk result (out.new.items ≡ out.old.items ++ attr_text attr.now) }
    ensures part { OnErr result (IsPart out.old.items (attr_text attr.now) out.new.items) }
    ensures utf8 { OnOk result (IsUtf8 (attr_text attr.now)) }
{
    out.push(b' ')?;
    write_text(out, attr.name.as_str())?;
    out.extend_from_slice(b"=\"")?;
    write_escaped(out, attr.value.as_str())?;
    out.push(b'"')?;
    Ok(())
}

/// Appends text as it stands.
fn write_text(out: &mut Vec<u8>, text: &str) -> Result<(), AllocError>
    ensures text { OnOk result (out.new.items ≡ out.old.items ++ text.now) }
    ensures part { OnErr result (IsPart out.old.items (text.now) out.new.items) }
    ensures utf8 { IsUtf8 text.now }
{
    out.extend_from_slice(text.as_bytes())
}

/// Appends text or a value, with references for the characters that may not stand there.
fn write_escaped(out: &mut Vec<u8>, text: &str) -> Result<(), AllocError>
    ensures text { OnOk result (out.new.items ≡ out.old.items ++ escaped text.now) }
    ensures part { OnErr result (IsPart out.old.items (escaped text.now) out.new.items) }
    ensures utf8 { IsUtf8 (escaped text.now) }
{
    for b in text.as_bytes() {
        write_byte(out, *b)?;
    }
    Ok(())
}

fn write_byte(out: &mut Vec<u8>, b: u8) -> Result<(), AllocError>
    ensures text { OnOk result (out.new.items ≡ out.old.items ++ escape b) }
    ensures part { OnErr result (IsPart out.old.items (escape b) out.new.items) }
{
    match b {
        b'<' => out.extend_from_slice(b"&lt;"),
        b'&' => out.extend_from_slice(b"&amp;"),
        b'"' => out.extend_from_slice(b"&quot;"),
        _ => {
            out.push(b)?;
            Ok(())
        }
    }
}
