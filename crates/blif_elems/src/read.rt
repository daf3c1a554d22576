ghost use Rattle.std.specs.Prelude.{MatchResult};
ghost use Rattle.blif_elems.specs.Statements.{SaysBehind, WordsSay};
ghost use Rattle.blif_elems.specs.Faults.{IsFault, IsFaultBehind};
ghost use Rattle.blif_elems.specs.Seen.{texts, said, fault_said};

use crate::behind::{end, inputs, latch, model, names, outputs, param, subckt};
use crate::keyword::{Keyword, has_dot, keyword_of};
use crate::{Fault, Statement};

/// Reads the words of a line. Where it is broken in several ways, another word with a dot and
/// another kind of latch are told first, then that it isn't of the format, then that a `.names` has
/// too many inputs.
pub fn read_statement<'a>(words: &'a [&'a str]) -> Result<Statement<'a>, Fault<'a>>
    ensures { MatchResult result
        (λ s. WordsSay (texts words.now) (said s))
        (λ f. IsFault (texts words.now) (fault_said f)) }
{
    let Some((first, behind)) = words.split_first() else {
        return Ok(Statement::Nothing);
    };
    match keyword_of(first) {
        Some(keyword) => behind_keyword(keyword, behind),
        None => {
            if has_dot(first) {
                return Err(Fault::Unsupported { word: first });
            }
            Ok(Statement::Row(words))
        }
    }
}

/// Reads the words behind a keyword.
fn behind_keyword<'a>(keyword: Keyword, behind: &'a [&'a str]) -> Result<Statement<'a>, Fault<'a>>
    ensures { MatchResult result
        (λ s. SaysBehind keyword (texts behind.now) (said s))
        (λ f. IsFaultBehind keyword (texts behind.now) (fault_said f)) }
{
    match keyword {
        Keyword::Model => model(behind),
        Keyword::Inputs => inputs(behind),
        Keyword::Outputs => outputs(behind),
        Keyword::Names => names(behind),
        Keyword::Latch => latch(behind),
        Keyword::Subckt => subckt(behind),
        Keyword::Param => param(behind),
        Keyword::Attr => Ok(Statement::Passed),
        Keyword::Cname => Ok(Statement::Passed),
        Keyword::End => end(behind),
    }
}
