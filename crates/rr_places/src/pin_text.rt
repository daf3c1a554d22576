ghost use Rattle.std.specs.Prelude.{◌≡◌, ℕ, MatchBool, MatchOption};
ghost use Rattle.std.specs.Option.{option_copied};
ghost use Rattle.arch_types.specs.Blocks.{is_on};
ghost use Rattle.arch_types.specs.declared.block.Side.TheVariants.{Output as out_side};
ghost use Rattle.rr_places.specs.PinTexts.{IsNumberBelow, IsIndex, IsOwner, NamesSub, NamesBit, IsPinText, NamesPin};

use crate::tile_names::TilePorts;
use arch_types::{Side, Tile};
use text_parts::{Number, number_up_to};
use vtr_base::cut;

/// A pin of a tile: the instance of the sub_tile, and the port and the bit in the tile's ports.
#[derive(Clone, Copy, Debug, PartialEq, Eq, Hash, Drop)]
pub struct SubPin {
    pub sub: u32,
    pub port: u32,
    pub bit: u32,
}

/// A pin of a tile, and whether its port is an output of the tile.
#[derive(Clone, Copy, Debug, PartialEq, Eq)]
pub struct NamedPin {
    pub pin: SubPin,
    pub is_output: bool,
}

/// The pin that a text names, where there is a tile.
pub(crate) fn named_pin(tile: Option<&TilePorts<'_>>, text: &[u8]) -> Option<NamedPin>
    ensures { MatchOption result
        ((named : NamedPin) → NamesPin (option_copied tile.entry) text.now named → ⊥)
        (NamesPin (option_copied tile.entry) text.now) }
{
    match tile {
        Some(tile) => pin_of_tile(tile, text),
        None => None,
    }
}

/// The pin of the tile that a text names.
fn pin_of_tile(tile: &TilePorts<'_>, text: &[u8]) -> Option<NamedPin>
    ensures { MatchOption result ((named : NamedPin) → IsPinText tile.now text.now named → ⊥)
        (IsPinText tile.now text.now) }
{
    let Some((owner, rest)) = cut(text, b'.') else {
        return None;
    };
    let Some(sub) = sub_of(tile.tile(), owner) else {
        return None;
    };
    named_bit(tile, rest, sub)
}

/// The bit of a port that a text names, at this instance.
fn named_bit(tile: &TilePorts<'_>, text: &[u8], sub: u32) -> Option<NamedPin>
    ensures { MatchOption result
        ((named : NamedPin) → NamesBit tile.now.ports text.now named → ⊥)
        (λ named. NamesBit tile.now.ports text.now named × (named.pin.sub ≡ sub)) }
{
    let Some((name, index)) = cut(text, b'[') else {
        return None;
    };
    let Some((place, port)) = tile.find_port(name) else {
        return None;
    };
    let Some(bit) = index_below(index, port.width) else {
        return None;
    };
    let pin = SubPin {
        sub,
        port: place,
        bit,
    };
    Some(NamedPin {
        pin,
        is_output: leads_out(port.side),
    })
}

/// The instance of the sub_tile that a text names.
fn sub_of(tile: &Tile, text: &[u8]) -> Option<u32>
    ensures { MatchOption result ((sub : ℕ) → NamesSub tile.now text.now sub → ⊥)
        (NamesSub tile.now text.now) }
{
    let Some((name, index)) = cut(text, b'[') else {
        return if is_owner(tile, text) { Some(0) } else { None };
    };
    if !is_owner(tile, name) {
        return None;
    }
    index_below(index, tile.capacity)
}

/// Whether this is the name of the tile or of its sub_tile.
fn is_owner(tile: &Tile, name: &[u8]) -> bool
    ensures { MatchBool result (IsOwner tile.now name.now) (IsOwner tile.now name.now → ⊥) }
{
    tile.name.is(name) || tile.sub_name.is(name)
}

fn leads_out(side: Side) -> bool
    ensures { result ≡ is_on out_side side }
{
    match side {
        Side::Output => true,
        Side::Input => false,
        Side::Clock => false,
    }
}

/// The number below the limit that stands before a `]` at the end.
fn index_below(text: &[u8], limit: u32) -> Option<u32>
    ensures { MatchOption result ((n : ℕ) → IsIndex text.now limit n → ⊥)
        (IsIndex text.now limit) }
{
    let Some((digits, rest)) = cut(text, b']') else {
        return None;
    };
    let left = rest.len();
    if left > 0 {
        return None;
    }
    number_below(digits, limit)
}

/// The number below the limit that decimal digits say.
fn number_below(digits: &[u8], limit: u32) -> Option<u32>
    ensures { MatchOption result ((n : ℕ) → IsNumberBelow digits.now limit n → ⊥)
        (IsNumberBelow digits.now limit) }
{
    match number_up_to(digits, u64::from(limit)) {
        Number::Value(number) => {
            if number < u64::from(limit) {
                Some(number as u32)
            } else {
                None
            }
        }
        Number::NoDigits => None,
        Number::Over => None,
    }
}
