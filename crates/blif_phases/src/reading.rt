ghost use Rattle.std.specs.Prelude.{MatchOption, MatchResult};
ghost use Rattle.blif_elems.specs.Seen.{said, texts};
ghost use Rattle.blif_lines.specs.Lines.{LineSaid};
ghost use Rattle.blif_phases.specs.declared.phase.Phase.{Phase as Place};
ghost use Rattle.blif_phases.specs.Phases.{GoesOn, StopsAt, IsReadAt, IsRefused, Leads};
ghost use Rattle.blif_phases.specs.Seen.{Holds, stop_said};

use crate::next::{fault_stop, next_before, next_behind, next_inside, stray_stop};
use crate::over::{over_box, over_later};
use crate::{Phase, Stop};
use blif_elems::{Statement, read_statement};

/// The phase behind a line with these words, and what the line says to those who read the model.
/// Only a line that is UTF-8 has words.
pub fn step<'a>(
    phase: Phase,
    is_utf8: bool,
    words: &'a [&'a str],
) -> Result<(Phase, Statement<'a>), Stop<'a>>
    ensures { (l : LineSaid) → Holds l is_utf8 (texts words.now)
        → MatchResult result (λ r. GoesOn phase l r.0 (said r.1))
        (λ stop. StopsAt phase l (stop_said stop)) }
{
    match phase {
        Phase::Before => read(Phase::Before, is_utf8, words),
        Phase::Inside => read(Phase::Inside, is_utf8, words),
        Phase::Behind => read(Phase::Behind, is_utf8, words),
        Phase::Later => match over_later(is_utf8, words) {
            Some(next) => Ok((next, Statement::Nothing)),
            None => Err(Stop::Unsupported { word: ".model" }),
        },
        Phase::BlackBox => Ok((over_box(is_utf8, words), Statement::Nothing)),
    }
}

/// Reads the words of a line.
fn read<'a>(
    phase: Phase,
    is_utf8: bool,
    words: &'a [&'a str],
) -> Result<(Phase, Statement<'a>), Stop<'a>>
    ensures { (l : LineSaid) → Holds l is_utf8 (texts words.now)
        → MatchResult result (λ r. IsReadAt phase l r.0 (said r.1))
        (λ stop. IsRefused phase l (stop_said stop)) }
{
    if !is_utf8 {
        return Err(Stop::BadLine);
    }
    match read_statement(words) {
        Ok(statement) => match next_phase(phase, &statement) {
            Some(next) => Ok((next, statement)),
            None => Err(stray_stop(statement)),
        },
        Err(fault) => Err(fault_stop(phase, fault)),
    }
}

/// The phase to which what a line says leads.
fn next_phase(phase: Phase, statement: &Statement<'_>) -> Option<Phase>
    ensures { MatchOption result ((next : Place) → Leads phase (said statement.now) next → ⊥)
        (λ next. Leads phase (said statement.now) next) }
{
    match phase {
        Phase::Before => next_before(statement),
        Phase::Inside => next_inside(statement),
        Phase::Behind => next_behind(statement),
        Phase::Later => None,
        Phase::BlackBox => None,
    }
}
