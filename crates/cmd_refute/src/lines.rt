ghost use Rattle.std.specs.Prelude.{◌≡◌, IfOk};
ghost use Rattle.cmd_refute.specs.Lines.{IsAnswerOf, verdict_status, verdict_text};

use run_base::{Answer, Status};
use std::alloc::{AllocError, Global};
use tree_verdict::Verdict;
use vtr_base::put_number;

/// The status and the line of a verdict.
pub(crate) fn answer_of(alloc: Global, verdict: Verdict) -> Result<Answer, AllocError>
    ensures { IfOk result (IsAnswerOf verdict) }
{
    let text = line_of(alloc, verdict)?;
    let status = status_of(verdict);
    Ok(Answer { status, text })
}

/// The status with which a tree of that verdict ends.
fn status_of(verdict: Verdict) -> Status
    ensures { result ≡ verdict_status verdict }
{
    match verdict {
        Verdict::Refutes => Status::Done,
        Verdict::Partial { .. } => Status::Undecided,
        Verdict::Wrong { .. } => Status::Wrong,
    }
}

/// The line that tells a verdict.
fn line_of(alloc: Global, verdict: Verdict) -> Result<Vec<u8>, AllocError>
    ensures { IfOk result (λ text. text.items ≡ verdict_text verdict) }
{
    let mut text = Vec::new(alloc);
    match verdict {
        Verdict::Refutes => text.extend_from_slice(b"refutes\n")?,
        Verdict::Partial { branches, loose } => {
            text.extend_from_slice(b"partial ")?;
            put_number(&mut text, branches)?;
            text.push(b' ')?;
            put_number(&mut text, loose)?;
            text.push(b'\n')?;
        }
        Verdict::Wrong { node } => {
            text.extend_from_slice(b"wrong ")?;
            put_number(&mut text, u64::from(node))?;
            text.push(b'\n')?;
        }
    }
    Ok(text)
}
