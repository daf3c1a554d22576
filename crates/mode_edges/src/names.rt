ghost use Rattle.std.specs.Prelude.{◌≡◌, ◌↔◌, ℕ, List, Some, map, slice_get, IsTrue, IfOk, MatchOption};
ghost use Rattle.vtr_base.specs.Lists.{IsFirstPlace};
ghost use Rattle.arch_types.specs.Tree.{kids_of};
ghost use Rattle.mode_edges.specs.PinWords.{Index, AreMembers, IsOwnHead, IsOwnSide, IsChildSide, NamesOwn, NamesChild, Names};
ghost use Rattle.mode_edges.specs.Readers.{Stands, word_with, member_list, pins_of, NamesBits};
ghost use Rattle.mode_edges.specs.Scopes.{places_in, IsIndex};
ghost use Rattle.mode_edges.specs.declared.pin.LocalPin.{LocalPin};

use crate::index::{NameIndex, find_name, index_kids, index_ports};
use crate::pin::EdgeEnd;
use crate::word::{Ends, PinWord, part, word};
use arch_types::{Mode, PbType, Port, Side};
use std::alloc::{AllocError, Global};
use std::marker::Model;

/// The members of a range: from `low` on, below `end`.
#[derive(Clone, Copy)]
pub struct Members {
    pub low: u32,
    pub end: u32,
}

/// The bits of a port that a word names.
#[derive(Clone, Copy)]
pub struct PortBits {
    pub port: u32,
    pub bits: Members,
}

/// Those bits, with the side of their port.
#[derive(Clone, Copy)]
pub struct SidedBits {
    pub of: PortBits,
    pub side: Side,
}

/// The instances of a child that a word names.
#[derive(Clone, Copy)]
pub struct Instances {
    pub child: u32,
    pub members: Members,
}

/// What a word names: bits of a port, of the block itself where `of` is `None`, or of each of some
/// instances of a child.
#[derive(Clone, Copy)]
pub struct PinGroup {
    pub of: Option<Instances>,
    pub bits: PortBits,
}

/// The ports of a pb_type by name. They are found once for a pb_type and serve all of its modes.
/// Contracts see the pb_type.
#[derive(Drop)]
pub struct PortNames<'a> {
    block: &'a PbType,
    places: NameIndex<'a>,
}

impl<'a> Model for PortNames<'a> {
    ghost use Rattle.std.specs.Prelude.{map};
    ghost use Rattle.std.specs.Coded.{codes};
    ghost use Rattle.arch_types.specs.declared.block.PbType.{PbType};
    ghost use Rattle.arch_types.specs.contracts.block.PbType as tree;
    ghost use Rattle.mode_edges.specs.Scopes.{places_in, IsIndex};

    ghost Value = { PbType };

    ghost coded = { Prim.hlevel (codes, tree.the_row.coded) };

    ghost view = { λ n. n.block.now };

    ghost invariant = { λ n. IsIndex (map (λ p. p.name) n.block.now.ports) (places_in n.places) };
}

impl<'a> PortNames<'a> {
    /// The ports of this pb_type by name.
    pub fn new(alloc: Global, block: &'a PbType) -> Result<PortNames<'a>, AllocError>
        ensures { IfOk result (λ names. names ≡ block.now) }
    {
        let places = index_ports(alloc, block.ports.as_slice())?;
        Ok(PortNames { block, places })
    }

    /// The pb_type.
    pub fn block(&self) -> &'a PbType
        ensures { result.now ≡ self.now }
    {
        self.block
    }

    /// The bits that a word names of the port of that name.
    fn bits(&self, word: &PinWord<'_>) -> Option<SidedBits>
        ensures { NamesBits self.now.ports word.now result }
    {
        port_bits(&self.places, self.block.ports.as_slice(), word)
    }
}

/// The names that the pin words of a mode can name. They are found once for a mode and serve all of
/// its words: those of its interconnects, and any text that names pins as these do. Contracts see
/// the mode and its pb_type.
#[derive(Drop)]
pub struct ModeNames<'n, 'a> {
    own: &'n PortNames<'a>,
    mode: &'a Mode,
    kids: NameIndex<'a>,
    /// Of each child its ports.
    kid_ports: Vec<PortNames<'a>>,
}

impl<'n, 'a> Model for ModeNames<'n, 'a> {
    ghost use Rattle.std.specs.Prelude.{◌≡◌, map};
    ghost use Rattle.std.specs.Coded.{codes};
    ghost use Rattle.arch_types.specs.Tree.{kids_of};
    ghost use Rattle.arch_types.specs.contracts.block.PbType as tree;
    ghost use Rattle.arch_types.specs.contracts.block.Mode as row;
    ghost use Rattle.mode_edges.specs.Scopes.{places_in, IsIndex, ModeOf};

    ghost Value = { ModeOf };

    ghost coded = { Prim.hlevel (codes, tree.the_row.coded, row.the_row.coded) };

    ghost view = { λ n. record { block = n.own.now; mode = n.mode.now } };

    ghost invariant = { λ n. IsIndex (map (λ kid. kid.name) (kids_of n.mode.now)) (places_in n.kids)
        × (n.kid_ports.items ≡ kids_of n.mode.now) };
}

impl<'n, 'a> ModeNames<'n, 'a> {
    /// The names in sight in a mode of the pb_type whose ports these are.
    pub fn new(
        alloc: Global,
        own: &'n PortNames<'a>,
        mode: &'a Mode,
    ) -> Result<ModeNames<'n, 'a>, AllocError>
        ensures block { IfOk result (λ names. names.block ≡ own.now) }
        ensures mode { IfOk result (λ names. names.mode ≡ mode.now) }
    {
        let kids = index_kids(alloc, mode.kids.as_slice())?;
        let kid_ports = ports_of_all(alloc, mode.kids.as_slice())?;
        Ok(ModeNames {
            own,
            mode,
            kids,
            kid_ports,
        })
    }

    /// The pb_type.
    pub fn block(&self) -> &'a PbType
        ensures { result.now ≡ self.now.block }
    {
        self.own.block()
    }

    /// The mode.
    pub fn mode(&self) -> &'a Mode
        ensures { result.now ≡ self.now.mode }
    {
        self.mode
    }

    /// The bits that a word names of the port of the pb_type itself of that name.
    fn own_bits(&self, word: &PinWord<'_>) -> Option<SidedBits>
        ensures { NamesBits self.now.block.ports word.now result }
    {
        self.own.bits(word)
    }

    /// The first child of that name with its ports, and its place.
    fn find_kid(&self, name: &[u8]) -> Option<(u32, &PortNames<'a>)>
        ensures { MatchOption result ((place : ℕ) → IsFirstPlace
            (map (λ kid. kid.name) (kids_of self.now.mode)) name.now place → ⊥)
            (λ found. IsFirstPlace (map (λ kid. kid.name) (kids_of self.now.mode)) name.now found.0
            × (slice_get (kids_of self.now.mode) found.0 ≡ Some found.1.now)) }
    {
        let place = find_name(&self.kids, name)?;
        Some((place, &self.kid_ports[place as usize]))
    }
}

/// Of each child its ports by name.
fn ports_of_all<'a>(alloc: Global, kids: &'a [PbType]) -> Result<Vec<PortNames<'a>>, AllocError>
    ensures { IfOk result (λ all. all.items ≡ kids.now) }
{
    let mut all = Vec::new(alloc);
    for kid in kids {
        all.push(PortNames::new(alloc, kid)?)?;
    }
    Ok(all)
}

/// What a pin word names, where it names pins on the right side for the role.
pub(crate) fn named(names: &ModeNames<'_, '_>, role: EdgeEnd, text: &[u8]) -> Option<PinGroup>
    ensures { MatchOption result ((pins : List LocalPin) → Names names.now.block names.now.mode role
        text.now pins → ⊥) (λ named. Names names.now.block names.now.mode role text.now
        (pins_of named)) }
{
    let Some(word) = word(text) else {
        return None;
    };
    if is_own_head(names.block().name.as_bytes(), word.head) {
        named_own(names, role, &word)
    } else {
        named_child(names, role, &word)
    }
}

/// What a word names of the block itself, whose name it bears.
fn named_own(names: &ModeNames<'_, '_>, role: EdgeEnd, word: &PinWord<'_>) -> Option<PinGroup>
    requires { IsOwnHead names.now.block.name word.now.head.now }
    ensures { MatchOption result ((index : Index) (pins : List LocalPin) → Stands word.now.bits
        index → NamesOwn names.now.block role (word_with word.now index) pins → ⊥)
        (λ named. (index : Index) → Stands word.now.bits index → NamesOwn names.now.block role
        (word_with word.now index) (pins_of named)) }
{
    let Some(found) = names.own_bits(word) else {
        return None;
    };
    if !is_own_side(role, found.side) {
        return None;
    }
    Some(PinGroup {
        of: None,
        bits: found.of,
    })
}

/// What a word names of a child, where it doesn't bear the name of the block itself.
fn named_child(names: &ModeNames<'_, '_>, role: EdgeEnd, word: &PinWord<'_>) -> Option<PinGroup>
    requires { IsOwnHead names.now.block.name word.now.head.now → ⊥ }
    ensures { MatchOption result ((index : Index) (pins : List LocalPin) → Stands word.now.bits
        index → NamesChild names.now.block names.now.mode role (word_with word.now index) pins → ⊥)
        (λ named. (index : Index) → Stands word.now.bits index → NamesChild names.now.block
        names.now.mode role (word_with word.now index) (pins_of named)) }
{
    let Some((name, ends)) = part(word.head) else {
        return None;
    };
    let Some((child, kid)) = names.find_kid(name) else {
        return None;
    };
    let Some(members) = members_of(ends, kid.block().count) else {
        return None;
    };
    let Some(found) = kid.bits(word) else {
        return None;
    };
    if !is_child_side(role, found.side) {
        return None;
    }
    Some(PinGroup {
        of: Some(Instances { child, members }),
        bits: found.of,
    })
}

/// The bits that a word names of the port of that name.
fn port_bits(index: &NameIndex<'_>, ports: &[Port], word: &PinWord<'_>) -> Option<SidedBits>
    requires { IsIndex (map (λ p. p.name) ports.now) (places_in index.now) }
    ensures { NamesBits ports.now word.now result }
{
    let Some((place, port)) = find_port(index, ports, word.port) else {
        return None;
    };
    let Some(bits) = members_of(word.bits, port.width) else {
        return None;
    };
    Some(SidedBits {
        of: PortBits { port: place, bits },
        side: port.side,
    })
}

/// The first port of that name, and its place.
fn find_port<'a>(index: &NameIndex<'_>, ports: &'a [Port], name: &[u8]) -> Option<(u32, &'a Port)>
    requires { IsIndex (map (λ p. p.name) ports.now) (places_in index.now) }
    ensures { MatchOption result ((place : ℕ) → IsFirstPlace (map (λ p. p.name) ports.now) name.now
        place → ⊥) (λ found. IsFirstPlace (map (λ p. p.name) ports.now) name.now found.0
        × (slice_get ports.now found.0 ≡ Some found.1.now)) }
{
    let place = find_name(index, name)?;
    Some((place, &ports[place as usize]))
}

/// The members of `count` that an index names, where it names none outside.
fn members_of(ends: Option<Ends>, count: u32) -> Option<Members>
    ensures { MatchOption result ((index : Index) (ms : List ℕ) → Stands ends index → AreMembers
        index count ms → ⊥) (λ m. (index : Index) → Stands ends index → AreMembers index count
        (member_list m)) }
{
    match ends {
        None => Some(Members { low: 0, end: count }),
        Some(ends) => {
            if ends.high >= count {
                return None;
            }
            Some(Members {
                low: ends.low,
                end: ends.high + 1,
            })
        }
    }
}

/// Whether what stands before a word's dot is the name of the block itself.
fn is_own_head(name: &[u8], head: &[u8]) -> bool
    ensures { IsTrue result ↔ IsOwnHead name.now head.now }
{
    if same_bytes(head, name) {
        return true;
    }
    let Some((front, behind)) = head.split_at_checked(name.len()) else {
        return false;
    };
    same_bytes(front, name) && same_bytes(behind, b"[0]")
}

fn same_bytes(one: &[u8], other: &[u8]) -> bool
    ensures { IsTrue result ↔ (one.now ≡ other.now) }
{
    one == other
}

/// Whether a port of the block itself is on the right side for the role.
fn is_own_side(role: EdgeEnd, side: Side) -> bool
    ensures { IsTrue result ↔ IsOwnSide role side }
{
    match (role, side) {
        (EdgeEnd::Source, Side::Input | Side::Clock) => true,
        (EdgeEnd::End, Side::Output) => true,
        _ => false,
    }
}

/// Whether a port of a child is on the right side for the role.
fn is_child_side(role: EdgeEnd, side: Side) -> bool
    ensures { IsTrue result ↔ IsChildSide role side }
{
    match (role, side) {
        (EdgeEnd::Source, Side::Output) => true,
        (EdgeEnd::End, Side::Input | Side::Clock) => true,
        _ => false,
    }
}
