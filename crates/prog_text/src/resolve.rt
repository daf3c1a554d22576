ghost use Rattle.std.specs.Prelude.{◌≡◌, ◌^◌, ◌↔◌, ℕ, IsTrue, MatchOption};
ghost use Rattle.std.specs.Prelude.{IfOk, IfErr, codes};
ghost use Rattle.prog_map.specs.Leaves.{HasModes, IsLeaf, IsLut};
ghost use Rattle.prog_text.specs.Names.{NamesInstance};
ghost use Rattle.prog_text.specs.Sayings.{Says, SaysBehind, SaysWire, SaysTable};
ghost use Rattle.prog_text.specs.Settings.{IsNamed, LacksInstance};
ghost use Rattle.prog_text.specs.Table.{AreNamesOf};
ghost use Rattle.prog_text.specs.Text.{Lacks};

use crate::digits::{are_bits, number, table};
use crate::into::find_edge;
use crate::words::{first_word, is_one_word, is_same, three_words, two_words};
use crate::{GraphNames, ProgError};
use pb_expand::{PbGraph, PbIx};
use prog_map::{LutChoice, Setting, inputs_of, is_leaf, is_lut};
use std::alloc::Global;

/// The site and the choice that a line of a programming's text names. It is the line of that number
/// in its file.
pub fn setting_of(
    alloc: Global,
    text: &[u8],
    line: u32,
    graph: &PbGraph,
    names: &GraphNames,
) -> Result<Setting, ProgError>
    requires { AreNamesOf graph.now names.now }
    ensures names { IfOk result (IsNamed graph.now (Says text.now)) }
    ensures lacks { IfErr result (Lacks graph.now (Says text.now) line) }
{
    let Ok(_) = str::from_utf8(text) else {
        return Err(ProgError::BadLine { line });
    };
    let Some((keyword, rest)) = first_word(text) else {
        return Err(ProgError::BadLine { line });
    };
    if is_same(keyword, b"mode") {
        return mode_setting(rest, line, graph, names);
    }
    if is_same(keyword, b"pin") {
        return pin_setting(rest, line, graph, names);
    }
    if is_same(keyword, b"used") {
        return used_setting(rest, line, graph, names);
    }
    if is_same(keyword, b"lut") {
        return lut_setting(alloc, rest, line, graph, names);
    }
    Err(ProgError::BadLine { line })
}

/// `mode INST MODE`, from what stands behind `mode`.
fn mode_setting(
    rest: &[u8],
    line: u32,
    graph: &PbGraph,
    names: &GraphNames,
) -> Result<Setting, ProgError>
    requires { AreNamesOf graph.now names.now }
    ensures names { IfOk result (IsNamed graph.now (SaysBehind (codes "mode") rest.now)) }
    ensures lacks { IfErr result (Lacks graph.now (SaysBehind (codes "mode") rest.now) line) }
{
    let Some((instance, mode)) = two_words(rest) else {
        return Err(ProgError::BadLine { line });
    };
    let Some(pb) = block_named(graph, names, instance) else {
        return Err(ProgError::NoSuchSite { line });
    };
    match names.mode(graph, pb, mode) {
        Some(number) => Ok(Setting::Mode(pb, number)),
        None => Err(ProgError::NoSuchChoice { line }),
    }
}

/// `pin PIN MODE PIN`, from what stands behind `pin`.
fn pin_setting(
    rest: &[u8],
    line: u32,
    graph: &PbGraph,
    names: &GraphNames,
) -> Result<Setting, ProgError>
    requires { AreNamesOf graph.now names.now }
    ensures names { IfOk result (IsNamed graph.now (SaysBehind (codes "pin") rest.now)) }
    ensures lacks { IfErr result (Lacks graph.now (SaysBehind (codes "pin") rest.now) line) }
{
    let Some((pin, mode, source)) = three_words(rest) else {
        return Err(ProgError::BadLine { line });
    };
    let Some(pin) = names.pin(graph, pin) else {
        return Err(ProgError::NoSuchSite { line });
    };
    let Some(_) = find_edge(graph, names, pin, mode, None) else {
        return Err(ProgError::NoSuchSite { line });
    };
    let Some(source) = names.pin(graph, source) else {
        return Err(ProgError::NoSuchChoice { line });
    };
    match find_edge(graph, names, pin, mode, Some(source)) {
        Some(edge) => Ok(Setting::Pick(pin, graph.edge(edge).mode, edge)),
        None => Err(ProgError::NoSuchChoice { line }),
    }
}

/// `used INST`, from what stands behind `used`.
fn used_setting(
    rest: &[u8],
    line: u32,
    graph: &PbGraph,
    names: &GraphNames,
) -> Result<Setting, ProgError>
    requires { AreNamesOf graph.now names.now }
    ensures names { IfOk result (IsNamed graph.now (SaysBehind (codes "used") rest.now)) }
    ensures lacks { IfErr result (Lacks graph.now (SaysBehind (codes "used") rest.now) line) }
{
    if !is_one_word(rest) {
        return Err(ProgError::BadLine { line });
    }
    match leaf_named(graph, names, rest) {
        Some(pb) => Ok(Setting::Used(pb)),
        None => Err(ProgError::NoSuchSite { line }),
    }
}

/// `lut INST wire K` and `lut INST table BITS`, from what stands behind `lut`.
fn lut_setting(
    alloc: Global,
    rest: &[u8],
    line: u32,
    graph: &PbGraph,
    names: &GraphNames,
) -> Result<Setting, ProgError>
    requires { AreNamesOf graph.now names.now }
    ensures names { IfOk result (IsNamed graph.now (SaysBehind (codes "lut") rest.now)) }
    ensures lacks { IfErr result (Lacks graph.now (SaysBehind (codes "lut") rest.now) line) }
{
    let Some((instance, keyword, digits)) = three_words(rest) else {
        return Err(ProgError::BadLine { line });
    };
    if is_same(keyword, b"wire") {
        return wire_setting(instance, digits, line, graph, names);
    }
    if is_same(keyword, b"table") {
        return table_setting(alloc, instance, digits, line, graph, names);
    }
    Err(ProgError::BadLine { line })
}

/// A LUT that passes on the input that digits name.
fn wire_setting(
    instance: &[u8],
    digits: &[u8],
    line: u32,
    graph: &PbGraph,
    names: &GraphNames,
) -> Result<Setting, ProgError>
    requires { AreNamesOf graph.now names.now }
    ensures names { IfOk result (IsNamed graph.now (SaysWire instance.now digits.now)) }
    ensures lacks { IfErr result (Lacks graph.now (SaysWire instance.now digits.now) line) }
{
    let Some(input) = number(digits) else {
        return Err(ProgError::BadLine { line });
    };
    let Some(pb) = lut_named(graph, names, instance) else {
        return Err(ProgError::NoSuchSite { line });
    };
    let Some(inputs) = inputs_of(graph, pb) else {
        return Err(ProgError::NoSuchChoice { line });
    };
    if input >= inputs.width {
        return Err(ProgError::NoSuchChoice { line });
    }
    Ok(Setting::Lut(pb, LutChoice::Wire(input)))
}

/// A LUT that holds the table that digits write.
fn table_setting(
    alloc: Global,
    instance: &[u8],
    digits: &[u8],
    line: u32,
    graph: &PbGraph,
    names: &GraphNames,
) -> Result<Setting, ProgError>
    requires { AreNamesOf graph.now names.now }
    ensures names { IfOk result (IsNamed graph.now (SaysTable instance.now digits.now)) }
    ensures lacks { IfErr result (Lacks graph.now (SaysTable instance.now digits.now) line) }
{
    if !are_bits(digits) {
        return Err(ProgError::BadLine { line });
    }
    let Some(pb) = lut_named(graph, names, instance) else {
        return Err(ProgError::NoSuchSite { line });
    };
    let Some(inputs) = inputs_of(graph, pb) else {
        return Err(ProgError::NoSuchChoice { line });
    };
    if !is_table_size(digits.len(), inputs.width) {
        return Err(ProgError::NoSuchChoice { line });
    }
    let bits = table(alloc, digits)?;
    Ok(Setting::Lut(pb, LutChoice::Table(bits)))
}

/// Whether a LUT of so many inputs has a table of that many bits.
fn is_table_size(len: usize, width: u32) -> bool
    ensures { IsTrue result ↔ (len ≡ 2 ^ width) }
{
    match 2usize.checked_pow(width) {
        Some(size) => len == size,
        None => false,
    }
}

/// An instance with modes that is written so.
fn block_named(graph: &PbGraph, names: &GraphNames, text: &[u8]) -> Option<PbIx>
    requires { AreNamesOf graph.now names.now }
    ensures { MatchOption result (LacksInstance graph.now text.now (HasModes graph.now))
        (λ pb. NamesInstance graph.now text.now pb.0 × HasModes graph.now pb.0) }
{
    let pb = names.instance(graph, text)?;
    if is_leaf(graph, pb) {
        return None;
    }
    Some(pb)
}

/// A leaf that is written so.
pub fn leaf_named(graph: &PbGraph, names: &GraphNames, text: &[u8]) -> Option<PbIx>
    requires { AreNamesOf graph.now names.now }
    ensures { MatchOption result (LacksInstance graph.now text.now (IsLeaf graph.now))
        (λ pb. NamesInstance graph.now text.now pb.0 × IsLeaf graph.now pb.0) }
{
    let pb = names.instance(graph, text)?;
    if !is_leaf(graph, pb) {
        return None;
    }
    Some(pb)
}

/// A LUT that is written so.
fn lut_named(graph: &PbGraph, names: &GraphNames, text: &[u8]) -> Option<PbIx>
    requires { AreNamesOf graph.now names.now }
    ensures { MatchOption result (LacksInstance graph.now text.now (IsLut graph.now))
        (λ pb. NamesInstance graph.now text.now pb.0 × IsLut graph.now pb.0) }
{
    let pb = names.instance(graph, text)?;
    if !is_lut(graph, pb) {
        return None;
    }
    Some(pb)
}
