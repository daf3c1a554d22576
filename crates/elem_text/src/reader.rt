ghost use Rattle.std.specs.Prelude.{◌≡◌, ◌∷◌, ◌++◌, ◌<◌, ◌≤◌, ℕ, List, true, false, IfOk, IfErr, OnOk, IsErrOf, IsUtf8, MatchOption, length, drop};
ghost use Rattle.elem_text.specs.Grammar.{IsFile, Spells, has_mark};
ghost use Rattle.elem_text.specs.Held.{IsUtf8Elem, elements};
ghost use Rattle.elem_text.specs.Lexed.{lexed, IsUtf8Lex};
ghost use Rattle.elem_text.specs.Refusals.{IsTooDeep, DeepensFrom, Refuses, RefusesFrom, TellsFlaw, TellsRefusal};
ghost use Rattle.elem_text.specs.Written.{IsWritable};
ghost use Rattle.elem_text.specs.Stack.{stack_of, IsAllowed, IsTooDeepFor, IsShallowFor, next};

use crate::bytes::{byte, place_after};
use crate::elem::Elem;
use crate::error::ElemError;
use crate::lex::{Flaw, Lex};
use crate::pieces::piece;
use crate::stack::{Opened, Refusal};
use std::alloc::Global;
use vtr_base::Place;

/// The root element of a file of element text. `write_elem` can write it: its text reads back.
pub fn read_elems(alloc: Global, bytes: &[u8]) -> Result<Elem, ElemError>
    ensures found { IfOk result (λ e. Spells bytes.now e) }
    ensures shallow { OnOk result (IsTooDeep bytes.now → ⊥) }
    ensures writable { IfOk result (λ e. IsWritable e) }
    ensures utf8 { IfOk result IsUtf8Elem }
    ensures few { IfOk result (λ e. elements e ≤ length bytes.now) }
    ensures refused { IfErr result (λ e. Refuses bytes.now e) }
{
    let Ok(_) = str::from_utf8(bytes) else {
        return Err(ElemError::NotUtf8);
    };
    if let Some(body) = behind_mark(bytes) {
        return read_body(alloc, body, Place { line: 1, byte: 4 });
    }
    read_body(alloc, bytes, Place { line: 1, byte: 1 })
}

/// What follows a byte order mark.
fn behind_mark(bytes: &[u8]) -> Option<&[u8]>
    ensures { MatchOption result (has_mark bytes.now ≡ false)
        (λ body. (has_mark bytes.now ≡ true) × (bytes.now ≡ 239 ∷ 187 ∷ 191 ∷ body.now)) }
{
    let Some(second) = byte(bytes, 0xef) else {
        return None;
    };
    let Some(third) = byte(second, 0xbb) else {
        return None;
    };
    byte(third, 0xbf)
}

/// The root of a file whose bytes begin at `start`.
fn read_body(alloc: Global, bytes: &[u8], start: Place) -> Result<Elem, ElemError>
    requires { IsUtf8 bytes.now }
    ensures found { IfOk result (λ e. IsFile start bytes.now e) }
    ensures shallow { OnOk result (DeepensFrom start bytes.now → ⊥) }
    ensures writable { IfOk result (λ e. IsWritable e) }
    ensures refused { IfErr result (λ e. RefusesFrom start bytes.now e) }
{
    let mut opened = Opened::new(alloc);
    let mut rest = bytes;
    let mut place = start;
    while !rest.is_empty() {
        let (lex, later) = match piece(alloc, rest) {
            Ok(found) => found,
            Err(flaw) => return Err(flawed(flaw, place, rest)),
        };
        if let Err(refusal) = take(&mut opened, alloc, lex, place) {
            return Err(refused(refusal, place));
        }
        place = place_after(place, front_of(rest, later));
        rest = later;
    }
    match opened.root() {
        Some(root) => Ok(root),
        None => Err(ElemError::Broken { place }),
    }
}

/// The error for a piece that was not read.
fn flawed(flaw: Flaw, place: Place, rest: &[u8]) -> ElemError
    ensures { TellsFlaw flaw place rest.now result }
{
    match flaw {
        Flaw::Cut => ElemError::Broken {
            place: place_after(place, rest),
        },
        Flaw::Bad => ElemError::Broken { place },
        Flaw::OutOfMemory => ElemError::OutOfMemory,
    }
}

/// The error for a piece that may not stand at its place.
fn refused(refusal: Refusal, place: Place) -> ElemError
    ensures { TellsRefusal refusal place result }
{
    match refusal {
        Refusal::Broken => ElemError::Broken { place },
        Refusal::Deep => ElemError::Deep,
        Refusal::OutOfMemory => ElemError::OutOfMemory,
    }
}

/// What stands before `rest`.
fn front_of<'a>(bytes: &'a [u8], rest: &[u8]) -> &'a [u8]
    requires { (front : List ℕ) × (bytes.now ≡ front ++ rest.now) }
    ensures { bytes.now ≡ result.now ++ rest.now }
{
    &bytes[..bytes.len() - rest.len()]
}

/// Lets a piece change what is open.
fn take(opened: &mut Opened, alloc: Global, lex: Lex<'_>, place: Place) -> Result<(), Refusal>
    requires { IsUtf8Lex lex }
    ensures ok { OnOk result (IsAllowed (stack_of opened.old) (lexed place lex.entry)
        × (stack_of opened.new ≡ next (stack_of opened.old) (lexed place lex.entry))) }
    ensures broken { IsErrOf result Refusal.Broken → IsAllowed (stack_of opened.old)
        (lexed place lex.entry) → ⊥ }
    ensures shallow { OnOk result (IsShallowFor (stack_of opened.old) (lexed place lex.entry)) }
    ensures deep { IsErrOf result Refusal.Deep → IsTooDeepFor (stack_of opened.old)
        (lexed place lex.entry) }
{
    match lex {
        Lex::Opens(name, attrs) => opened.open(alloc, name, attrs, place),
        Lex::Hollow(name, attrs) => opened.leaf(alloc, name, attrs, place),
        Lex::Closes(name) => opened.close(name),
        Lex::Run(raw) => opened.text(raw),
        Lex::Skip => Ok(()),
    }
}
