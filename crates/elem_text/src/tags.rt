ghost use Rattle.std.specs.Prelude.{◌≡◌, ◌∷◌, [], ◌<◌, ◌⊎◌, ℕ, List, Some, None, Bool, IfOk, IfErr, IfSome, IfNone, IsTrue, false, ◌↔◌, MatchOption, IsUtf8, length};
ghost use Rattle.vtr_base.specs.declared.place.Place.{Place};
ghost use Rattle.elem_text.specs.Bytes.{is_white, IsSpan, IsNamed};
ghost use Rattle.elem_text.specs.References.{decoded};
ghost use Rattle.elem_text.specs.Grammar.{HasName, IsQuote, IsQuoted, IsAttr, Attributes, tail_of, IsStartTag, IsEndTag, IsLex};
ghost use Rattle.elem_text.specs.Lexed.{lexed, IsUtf8Lex};
ghost use Rattle.elem_text.specs.Flaws.{IsFlawOf, IsEnded, ANamed, AQuote, AQuoted, ASign, AnAttr, ATagRest, AStartTag, AnEndTag, IsSlash, NoTail};
ghost use Rattle.elem_text.specs.Next.{IsNext, IsUtf8Next};

use crate::bytes::{begins_with_letter, byte, until, white, word};
use crate::elem::Attr;
use crate::lex::{Flaw, Lex};
use crate::tag_attrs::{RawAttr, TagAttrs};
use sqlite_items::Items;
use std::alloc::Global;

/// Which flaw it is that a byte is missing before `bytes`.
pub fn ended(bytes: &[u8]) -> Flaw
    ensures { IsEnded result bytes.now }
{
    if bytes.is_empty() {
        Flaw::Cut
    } else {
        Flaw::Bad
    }
}

/// The name at the front, and the rest.
fn name(bytes: &[u8]) -> Result<(&[u8], &[u8]), Flaw>
    ensures whole { IfOk result (λ r. IsNamed bytes.now r.0.now r.1.now) }
    ensures flaw { IfErr result (λ f. IsFlawOf ANamed f bytes.now) }
{
    if !begins_with_letter(bytes) {
        return Err(ended(bytes));
    }
    Ok(word(bytes))
}

/// The quote at the front, and the rest.
fn quote(bytes: &[u8]) -> Result<(u8, &[u8]), Flaw>
    ensures whole { IfOk result (λ r. (bytes.now ≡ r.0 ∷ r.1.now) × IsQuote r.0) }
    ensures flaw { IfErr result (λ f. IsFlawOf AQuote f bytes.now) }
{
    if let Some(rest) = byte(bytes, b'"') {
        return Ok((b'"', rest));
    }
    if let Some(rest) = byte(bytes, b'\'') {
        return Ok((b'\'', rest));
    }
    Err(ended(bytes))
}

/// What stands between the quotes at the front, and the rest.
fn quoted(bytes: &[u8]) -> Result<(&[u8], &[u8]), Flaw>
    ensures whole { IfOk result (λ r. IsQuoted bytes.now r.0.now r.1.now) }
    ensures flaw { IfErr result (λ f. IsFlawOf AQuoted f bytes.now) }
{
    let (mark, rest) = quote(bytes)?;
    let (raw, rest) = until(rest, mark);
    let Some(after) = byte(rest, mark) else {
        return Err(Flaw::Cut);
    };
    Ok((raw, after))
}

/// What follows `b`, before which white space may stand.
fn sign(bytes: &[u8], b: u8) -> Result<&[u8], Flaw>
    requires { is_white b ≡ false }
    ensures whole { IfOk result (λ rest. (gap : List ℕ) × IsSpan is_white bytes.now gap
        (b ∷ rest.now)) }
    ensures flaw { IfErr result (λ f. IsFlawOf (ASign b) f bytes.now) }
{
    let (_, rest) = white(bytes);
    let Some(after) = byte(rest, b) else {
        return Err(ended(rest));
    };
    Ok(after)
}

/// The attribute at the front, whose name none of `before` has.
fn attr<'a>(bytes: &'a [u8], before: &TagAttrs<'a>) -> Result<RawAttr<'a>, Flaw>
    ensures whole { IfOk result (λ r. IsAttr bytes.now r.name.now r.raw.now r.after.now) }
    ensures own { IfOk result (λ r. HasName before.now r.name.now → ⊥) }
    ensures flaw { IfErr result (λ f. IsFlawOf (AnAttr before.now) f bytes.now) }
{
    let (name, rest) = name(bytes)?;
    if rest.is_empty() {
        return Err(Flaw::Cut);
    }
    if before.has(name) {
        return Err(Flaw::Bad);
    }
    let rest = sign(rest, b'=')?;
    let (_, rest) = white(rest);
    let (raw, after) = quoted(rest)?;
    Ok(RawAttr { name, raw, after })
}

/// How a tag ends, and what follows it.
#[derive(Drop)]
pub struct TagEnd<'a> {
    pub empty: bool,
    pub rest: &'a [u8],
}

/// The end of a tag, where one stands here.
fn tag_end(bytes: &[u8]) -> Result<Option<TagEnd<'_>>, Flaw>
    ensures whole { IfOk result (λ t. IfSome t (λ end. bytes.now ≡ tail_of end.empty
        end.rest.now)) }
    ensures none { IfOk result (λ t. IfNone t (NoTail bytes.now)) }
    ensures flaw { IfErr result (λ f. IsSlash f bytes.now) }
{
    if let Some(rest) = byte(bytes, b'>') {
        return Ok(Some(TagEnd { empty: false, rest }));
    }
    let Some(rest) = byte(bytes, b'/') else {
        return Ok(None);
    };
    let Some(rest) = byte(rest, b'>') else {
        return Err(ended(rest));
    };
    Ok(Some(TagEnd { empty: true, rest }))
}

/// What stands next in a start tag: its end, or an attribute.
#[derive(Drop)]
pub enum Next<'a> {
    End(TagEnd<'a>),
    Attr(RawAttr<'a>),
}

/// What stands behind the attributes `before`, and behind white space.
fn next_in_tag<'a>(bytes: &'a [u8], before: &TagAttrs<'a>) -> Result<Next<'a>, Flaw>
    requires { IsUtf8 bytes.now }
    ensures whole { IfOk result (λ n. IsNext before.now bytes.now n) }
    ensures utf8 { IfOk result (λ n. IsUtf8Next n) }
    ensures flaw { IfErr result (λ f. IsFlawOf (ATagRest before.now) f bytes.now) }
{
    let (gap, rest) = white(bytes);
    if let Some(end) = tag_end(rest)? {
        return Ok(Next::End(end));
    }
    if gap.is_empty() {
        return Err(ended(rest));
    }
    Ok(Next::Attr(attr(rest, before)?))
}

/// The attributes of a start tag, and how it ends.
#[derive(Drop)]
pub struct TagRest<'a> {
    pub attrs: Items<Attr>,
    pub end: TagEnd<'a>,
}

/// What follows the name of a start tag.
fn tag_rest(alloc: Global, bytes: &[u8]) -> Result<TagRest<'_>, Flaw>
    requires { IsUtf8 bytes.now }
    ensures whole { IfOk result (λ r. Attributes [] bytes.now r.attrs
        (tail_of r.end.empty r.end.rest.now)) }
    ensures utf8 { IfOk result (λ r. IsUtf8 r.end.rest.now) }
    ensures flaw { IfErr result (λ f. IsFlawOf (ATagRest []) f bytes.now) }
{
    let mut attrs = TagAttrs::new(alloc);
    let mut left = bytes;
    'attrs: loop {
        match next_in_tag(left, &attrs)? {
            Next::End(end) => {
                let attrs = attrs.into_attrs();
                return Ok(TagRest { attrs, end });
            }
            Next::Attr(attr) => {
                left = attr.after;
                attrs = attrs.with(alloc, attr)?;
            }
        }
    }
}

/// The start tag whose `<` stands before `inside`, and what follows it.
pub fn start_tag(alloc: Global, inside: &[u8]) -> Result<(Lex<'_>, &[u8]), Flaw>
    requires { IsUtf8 inside.now }
    ensures whole { IfOk result (λ r. (at : Place) → IsLex at (60 ∷ inside.now) (lexed at r.0)
        r.1.now) }
    ensures utf8 { IfOk result (λ r. IsUtf8Lex r.0 × IsUtf8 r.1.now) }
    ensures flaw { IfErr result (λ f. IsFlawOf AStartTag f inside.now) }
{
    let (name, rest) = name(inside)?;
    let TagRest { attrs, end } = tag_rest(alloc, rest)?;
    if end.empty {
        return Ok((Lex::Hollow(name, attrs), end.rest));
    }
    Ok((Lex::Opens(name, attrs), end.rest))
}

/// The end tag whose `</` stands before `inside`, and what follows it.
pub fn end_tag(inside: &[u8]) -> Result<(&[u8], &[u8]), Flaw>
    ensures whole { IfOk result (λ r. IsEndTag (60 ∷ 47 ∷ inside.now) r.0.now r.1.now) }
    ensures flaw { IfErr result (λ f. IsFlawOf AnEndTag f inside.now) }
{
    let (name, rest) = name(inside)?;
    let rest = sign(rest, b'>')?;
    Ok((name, rest))
}
