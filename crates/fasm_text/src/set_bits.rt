ghost use Rattle.std.specs.Prelude.{◌≡◌, ◌≤◌, ◌<◌, ◌+◌, ◌^◌, ◌++◌, [], ◌↔◌, ℕ, None, Some, OnOk, IsTrue, MatchOption, length, slice_get, slice_range};
ghost use Rattle.std.specs.Option.{SomeIff};
ghost use Rattle.fasm_text.specs.Kept.{AreInside, kept_from};
ghost use Rattle.fasm_text.specs.Sets.{NamedBit, set_from};

use std::alloc::{AllocError, Global};
use std::marker::Model;

/// A bit that is set: its name is the part of all names from `start` to `end`.
#[derive(Clone, Copy, Debug)]
struct KeptBit {
    start: u32,
    end: u32,
    bit: u32,
}

/// The bits that a FASM text sets, in the order of the text: each has the name of its feature and
/// its number there. One bit may stand in it several times.
#[derive(Debug, Drop)]
pub struct SetBits {
    names: Vec<u8>,
    set: Vec<KeptBit>,
}

impl Model for SetBits {
    ghost use Rattle.std.specs.Prelude.{List, map, length};
    ghost use Rattle.fasm_text.specs.Sets.{NamedBit};
    ghost use Rattle.fasm_text.specs.Kept.{AreInside, named};

    ghost Value = { List NamedBit };

    ghost view = { λ s. map (named s.names.items) s.set.items };

    ghost invariant = { λ s. AreInside (length s.names.items) s.set.items };
}

impl SetBits {
    /// No bits, which take no memory.
    pub fn new(alloc: Global) -> SetBits
        ensures { result ≡ [] }
    {
        SetBits {
            names: Vec::new(alloc),
            set: Vec::new(alloc),
        }
    }

    /// Appends those of the bits that are on, the first of which is bit `lo` of the name. Where
    /// memory runs out, a front of them may be appended.
    pub fn add(&mut self, name: &[u8], lo: u32, bits: &[bool]) -> Result<(), AllocError>
        requires { lo + length bits.now < 2 ^ 32 }
        ensures { OnOk result (self.new ≡ self.old ++ set_from name.now lo bits.now) }
    {
        let start = self.names.len();
        let Some(end) = end_of(start, name.len()) else {
            return Err(AllocError);
        };
        self.names.extend_from_slice(name)?;
        keep(&mut self.set, start as u32, end, lo, bits)
    }

    /// How many bits are listed.
    pub fn len(&self) -> usize
        ensures { result ≡ length self.now }
    {
        self.set.len()
    }

    pub fn is_empty(&self) -> bool
        ensures { IsTrue result ↔ (self.now ≡ []) }
    {
        self.set.is_empty()
    }

    /// The name and the number of the bit at this place of the list, where it is so long.
    pub fn get(&self, place: usize) -> Option<(&[u8], u32)>
        ensures { MatchOption result (slice_get self.now place ≡ None)
            (λ r. slice_get self.now place ≡ Some (record { name = r.0.now; bit = r.1 })) }
    {
        let kept = kept_at(self.set.as_slice(), place)?;
        Some((part(self.names.as_slice(), kept.start, kept.end), kept.bit))
    }
}

fn kept_at(set: &[KeptBit], place: usize) -> Option<KeptBit>
    ensures { result ≡ slice_get set.now place }
{
    set.get(place).copied()
}

/// The part of all names from `start` to `end`.
fn part(names: &[u8], start: u32, end: u32) -> &[u8]
    requires order { start ≤ end }
    requires inside { end ≤ length names.now }
    ensures { result.now ≡ slice_range names.now start end }
{
    &names[start as usize..end as usize]
}

/// Where a name ends that begins at a place, if that is a `u32`.
fn end_of(start: usize, len: usize) -> Option<u32>
    ensures { SomeIff result (start + len < 2 ^ 32) (start + len) }
{
    u32::try_from(start.checked_add(len)?).ok()
}

/// Keeps those of the bits that are on, the first of which has the number `lo`.
fn keep(
    set: &mut Vec<KeptBit>,
    start: u32,
    end: u32,
    lo: u32,
    bits: &[bool],
) -> Result<(), AllocError>
    requires fits { lo + length bits.now < 2 ^ 32 }
    requires order { start ≤ end }
    ensures kept { OnOk result (set.new.items ≡ set.old.items ++ kept_from start end lo bits.now) }
    ensures inside { (count : ℕ) → end ≤ count → AreInside count set.old.items
        → AreInside count set.new.items }
{
    for (place, on) in bits.iter().enumerate() {
        if *on {
            set.push(KeptBit {
                start,
                end,
                bit: lo + place as u32,
            })?;
        }
    }
    Ok(())
}
