ghost use Rattle.std.specs.Prelude.{◌≡◌, ◌↔◌, ℕ, List, IsTrue, MatchOption, codes};
ghost use Rattle.blif_boxes.specs.Pins.{ActualSaid, IsActual, IsBitBehind, IsFormal, IsPinWord, PinSaid};
ghost use Rattle.blif_boxes.specs.Seen.{actual_said, pin_said};

use crate::cuts::cut_text;
use blif_elems::is_net;
use text_parts::{Number, number_up_to};

/// The greatest number of a bit.
const LAST_BIT: u64 = 4_294_967_295;

/// What stands at a pin.
#[derive(Clone, Copy, Debug)]
pub enum Actual<'a> {
    /// `unconn`
    Unconnected,
    Net(&'a str),
}

/// A word `formal=actual`: a bit of a port, and what stands there.
#[derive(Clone, Copy, Debug)]
pub struct PinWord<'a> {
    pub port: &'a str,
    pub bit: u32,
    pub actual: Actual<'a>,
}

/// Reads a word `port=net` or `port[bit]=net`; `unconn` is no net. A bit is below 2^32.
pub fn read_pin_word(word: &str) -> Option<PinWord<'_>>
    ensures { MatchOption result ((p : PinSaid) → IsPinWord word.now p → ⊥)
        (λ p. IsPinWord word.now (pin_said p)) }
{
    let (formal, actual) = cut_text(word, b'=')?;
    let (port, bit) = formal_of(formal)?;
    let actual = actual_of(actual)?;
    Some(PinWord { port, bit, actual })
}

/// The port and the bit of a formal.
fn formal_of(formal: &str) -> Option<(&str, u32)>
    ensures { MatchOption result ((port : List ℕ) (bit : ℕ) → IsFormal formal.now port bit → ⊥)
        (λ r. IsFormal formal.now r.0.now r.1) }
{
    let Some((port, behind)) = cut_text(formal, b'[') else {
        return Some((formal, 0));
    };
    let bit = bit_behind(behind.as_bytes())?;
    Some((port, bit))
}

/// The bit in brackets, read from behind the opening one.
fn bit_behind(behind: &[u8]) -> Option<u32>
    ensures { MatchOption result ((bit : ℕ) → IsBitBehind behind.now bit → ⊥)
        (λ bit. IsBitBehind behind.now bit) }
{
    let (last, digits) = behind.split_last()?;
    if *last != b']' {
        return None;
    }
    match number_up_to(digits, LAST_BIT) {
        Number::Value(bit) => Some(bit as u32),
        _ => None,
    }
}

/// What a word behind `=` says.
fn actual_of(actual: &str) -> Option<Actual<'_>>
    ensures { MatchOption result ((a : ActualSaid) → IsActual actual.now a → ⊥)
        (λ a. IsActual actual.now (actual_said a)) }
{
    if is_unconnected(actual) {
        return Some(Actual::Unconnected);
    }
    if actual.is_empty() {
        return None;
    }
    if !is_net(actual) {
        return None;
    }
    Some(Actual::Net(actual))
}

fn is_unconnected(actual: &str) -> bool
    ensures { IsTrue result ↔ (actual.now ≡ codes "unconn") }
{
    actual == "unconn"
}
