ghost use Rattle.std.specs.Prelude.{◌≡◌, MatchOption};
ghost use Rattle.blif_elems.specs.Seen.{said};
ghost use Rattle.blif_phases.specs.declared.phase.Phase.{Phase as Place};
ghost use Rattle.blif_phases.specs.declared.phase.Phase.TheVariants.{Before, Inside, Behind};
ghost use Rattle.blif_phases.specs.Phases.{Leads, stray, stop_of, wide};
ghost use Rattle.blif_phases.specs.Seen.{stop_said};
ghost use Rattle.blif_elems.specs.Seen.{fault_said};

use crate::{Phase, Stop};
use blif_elems::{Fault, Statement};

/// The phase to which what a line in front of the model says leads.
pub(crate) fn next_before(statement: &Statement<'_>) -> Option<Phase>
    ensures { MatchOption result ((next : Place) → Leads Before (said statement.now) next → ⊥)
        (λ next. Leads Before (said statement.now) next) }
{
    match statement {
        Statement::Nothing => Some(Phase::Before),
        Statement::Model(_) => Some(Phase::Inside),
        Statement::Inputs(_) => None,
        Statement::Outputs(_) => None,
        Statement::Names { .. } => None,
        Statement::Latch { .. } => None,
        Statement::Box { .. } => None,
        Statement::Param { .. } => None,
        Statement::Passed => None,
        Statement::End => None,
        Statement::Row(_) => None,
    }
}

/// The phase to which what a line of the model says leads.
pub(crate) fn next_inside(statement: &Statement<'_>) -> Option<Phase>
    ensures { MatchOption result ((next : Place) → Leads Inside (said statement.now) next → ⊥)
        (λ next. Leads Inside (said statement.now) next) }
{
    match statement {
        Statement::Nothing => Some(Phase::Inside),
        Statement::Model(_) => None,
        Statement::Inputs(_) => Some(Phase::Inside),
        Statement::Outputs(_) => Some(Phase::Inside),
        Statement::Names { .. } => Some(Phase::Inside),
        Statement::Latch { .. } => Some(Phase::Inside),
        Statement::Box { .. } => Some(Phase::Inside),
        Statement::Param { .. } => Some(Phase::Inside),
        Statement::Passed => Some(Phase::Inside),
        Statement::End => Some(Phase::Behind),
        Statement::Row(_) => Some(Phase::Inside),
    }
}

/// The phase to which what a line behind a model says leads.
pub(crate) fn next_behind(statement: &Statement<'_>) -> Option<Phase>
    ensures { MatchOption result ((next : Place) → Leads Behind (said statement.now) next → ⊥)
        (λ next. Leads Behind (said statement.now) next) }
{
    match statement {
        Statement::Nothing => Some(Phase::Behind),
        Statement::Model(_) => Some(Phase::Later),
        Statement::Inputs(_) => None,
        Statement::Outputs(_) => None,
        Statement::Names { .. } => None,
        Statement::Latch { .. } => None,
        Statement::Box { .. } => None,
        Statement::Param { .. } => None,
        Statement::Passed => None,
        Statement::End => None,
        Statement::Row(_) => None,
    }
}

/// Why a line stops that says something which doesn't stand there.
pub(crate) fn stray_stop<'a>(statement: Statement<'a>) -> Stop<'a>
    ensures { stop_said result ≡ stray (said statement.entry) }
{
    match statement {
        Statement::Box { model, .. } => Stop::StrayBox { model },
        Statement::Nothing => Stop::BadLine,
        Statement::Model(_) => Stop::BadLine,
        Statement::Inputs(_) => Stop::BadLine,
        Statement::Outputs(_) => Stop::BadLine,
        Statement::Names { .. } => Stop::BadLine,
        Statement::Latch { .. } => Stop::BadLine,
        Statement::Param { .. } => Stop::BadLine,
        Statement::Passed => Stop::BadLine,
        Statement::End => Stop::BadLine,
        Statement::Row(_) => Stop::BadLine,
    }
}

/// Why a line stops whose words have a fault.
pub(crate) fn fault_stop<'a>(phase: Phase, fault: Fault<'a>) -> Stop<'a>
    ensures { stop_said result ≡ stop_of phase (fault_said fault.entry) }
{
    match fault {
        Fault::BadLine => Stop::BadLine,
        Fault::WideNames { net } => wide_stop(phase, net),
        Fault::LatchKind { net } => Stop::LatchKind { net },
        Fault::Unsupported { word } => Stop::Unsupported { word },
    }
}

/// Why a `.names` with too many inputs stops.
fn wide_stop<'a>(phase: Phase, net: &'a str) -> Stop<'a>
    ensures { stop_said result ≡ wide phase net.now }
{
    match phase {
        Phase::Inside => Stop::WideNames { net },
        Phase::Before => Stop::BadLine,
        Phase::Behind => Stop::BadLine,
        Phase::Later => Stop::BadLine,
        Phase::BlackBox => Stop::BadLine,
    }
}
