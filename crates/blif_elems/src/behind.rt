ghost use Rattle.std.specs.Prelude.{◌↔◌, ◌∷◌, IsTrue, MatchResult};
ghost use Rattle.blif_elems.specs.declared.keyword.Keyword.TheVariants.{Model, Inputs, Outputs, Names, Latch, Subckt, Param, End};
ghost use Rattle.blif_elems.specs.Statements.{IsInit, IsSmall, SaysBehind, latch_words};
ghost use Rattle.blif_elems.specs.Nets.{IsNet};
ghost use Rattle.blif_elems.specs.Faults.{IsFaultBehind};
ghost use Rattle.blif_elems.specs.Seen.{texts, said, fault_said};

use crate::nets::{are_nets, is_net, is_same};
use crate::{Fault, Statement};
use text_parts::{Number, number_up_to};

/// The greatest number of inputs of a `.names`.
const MOST_INPUTS: usize = 8;

/// The words behind `.model`: its name.
pub(crate) fn model<'a>(behind: &'a [&'a str]) -> Result<Statement<'a>, Fault<'a>>
    ensures { MatchResult result
        (λ s. SaysBehind Model (texts behind.now) (said s))
        (λ f. IsFaultBehind Model (texts behind.now) (fault_said f)) }
{
    match behind {
        [name] => Ok(Statement::Model(name)),
        _ => Err(Fault::BadLine),
    }
}

/// The words behind `.inputs`: nets.
pub(crate) fn inputs<'a>(behind: &'a [&'a str]) -> Result<Statement<'a>, Fault<'a>>
    ensures { MatchResult result
        (λ s. SaysBehind Inputs (texts behind.now) (said s))
        (λ f. IsFaultBehind Inputs (texts behind.now) (fault_said f)) }
{
    if are_nets(behind) {
        Ok(Statement::Inputs(behind))
    } else {
        Err(Fault::BadLine)
    }
}

/// The words behind `.outputs`: nets.
pub(crate) fn outputs<'a>(behind: &'a [&'a str]) -> Result<Statement<'a>, Fault<'a>>
    ensures { MatchResult result
        (λ s. SaysBehind Outputs (texts behind.now) (said s))
        (λ f. IsFaultBehind Outputs (texts behind.now) (fault_said f)) }
{
    if are_nets(behind) {
        Ok(Statement::Outputs(behind))
    } else {
        Err(Fault::BadLine)
    }
}

/// The words behind `.names`: its inputs and its output.
pub(crate) fn names<'a>(behind: &'a [&'a str]) -> Result<Statement<'a>, Fault<'a>>
    ensures { MatchResult result
        (λ s. SaysBehind Names (texts behind.now) (said s))
        (λ f. IsFaultBehind Names (texts behind.now) (fault_said f)) }
{
    let Some((output, inputs)) = behind.split_last() else {
        return Err(Fault::BadLine);
    };
    if !are_nets(behind) {
        return Err(Fault::BadLine);
    }
    if inputs.len() > MOST_INPUTS {
        return Err(Fault::WideNames { net: output });
    }
    Ok(Statement::Names { inputs, output })
}

/// The words behind `.latch`: data, output, kind, control, and an initial value or none.
pub(crate) fn latch<'a>(behind: &'a [&'a str]) -> Result<Statement<'a>, Fault<'a>>
    ensures { MatchResult result
        (λ s. SaysBehind Latch (texts behind.now) (said s))
        (λ f. IsFaultBehind Latch (texts behind.now) (fault_said f)) }
{
    match behind {
        [loaded, made, kind @ ..] => latch_of(loaded, made, kind),
        _ => Err(Fault::BadLine),
    }
}

/// The words behind data and output: kind, control, and an initial value or none.
fn latch_of<'a>(
    loaded: &'a str,
    made: &'a str,
    kind: &'a [&'a str],
) -> Result<Statement<'a>, Fault<'a>>
    ensures { MatchResult result
        (λ s. SaysBehind Latch (loaded.now ∷ made.now ∷ texts kind.now) (said s))
        (λ f. IsFaultBehind Latch (loaded.now ∷ made.now ∷ texts kind.now) (fault_said f)) }
{
    match kind {
        [edge, control, init @ ..] if is_same(edge, "re") => rising(loaded, made, control, init),
        _ => Err(Fault::LatchKind { net: made }),
    }
}

/// The words behind `re`: control, and an initial value or none.
fn rising<'a>(
    loaded: &'a str,
    made: &'a str,
    control: &'a str,
    init: &'a [&'a str],
) -> Result<Statement<'a>, Fault<'a>>
    ensures { MatchResult result
        (λ s. SaysBehind Latch (latch_words loaded.now made.now control.now (texts init.now))
        (said s))
        (λ f. IsFaultBehind Latch (latch_words loaded.now made.now control.now (texts init.now))
        (fault_said f)) }
{
    if !is_init(init) {
        return Err(Fault::BadLine);
    }
    if !are_three_nets(loaded, made, control) {
        return Err(Fault::BadLine);
    }
    Ok(Statement::Latch {
        loaded,
        made,
        control,
    })
}

fn are_three_nets(a: &str, b: &str, c: &str) -> bool
    ensures { IsTrue result ↔ (IsNet a.now × IsNet b.now × IsNet c.now) }
{
    is_net(a) && is_net(b) && is_net(c)
}

/// Whether words are no word, or a number from 0 to 3.
fn is_init(words: &[&str]) -> bool
    ensures { IsTrue result ↔ IsInit (texts words.now) }
{
    match words {
        [] => true,
        [word] => is_small(word),
        _ => false,
    }
}

/// Whether a word is a number from 0 to 3.
fn is_small(word: &str) -> bool
    ensures { IsTrue result ↔ IsSmall word.now }
{
    match number_up_to(word.as_bytes(), 3) {
        Number::Value(_) => true,
        Number::Over => false,
        Number::NoDigits => false,
    }
}

/// The words behind `.subckt`: the model's name, and what follows it.
pub(crate) fn subckt<'a>(behind: &'a [&'a str]) -> Result<Statement<'a>, Fault<'a>>
    ensures { MatchResult result
        (λ s. SaysBehind Subckt (texts behind.now) (said s))
        (λ f. IsFaultBehind Subckt (texts behind.now) (fault_said f)) }
{
    match behind {
        [model, pins @ ..] => Ok(Statement::Box { model, pins }),
        _ => Err(Fault::BadLine),
    }
}

/// The words behind `.param`: a name and a value.
pub(crate) fn param<'a>(behind: &'a [&'a str]) -> Result<Statement<'a>, Fault<'a>>
    ensures { MatchResult result
        (λ s. SaysBehind Param (texts behind.now) (said s))
        (λ f. IsFaultBehind Param (texts behind.now) (fault_said f)) }
{
    match behind {
        [name, value] => Ok(Statement::Param { name, value }),
        _ => Err(Fault::BadLine),
    }
}

/// There is no word behind `.end`.
pub(crate) fn end<'a>(behind: &'a [&'a str]) -> Result<Statement<'a>, Fault<'a>>
    ensures { MatchResult result
        (λ s. SaysBehind End (texts behind.now) (said s))
        (λ f. IsFaultBehind End (texts behind.now) (fault_said f)) }
{
    if behind.is_empty() {
        Ok(Statement::End)
    } else {
        Err(Fault::BadLine)
    }
}
