ghost use Rattle.std.specs.Prelude.{◌≡◌, ◌⊎◌, IfOk, map, string_bytes};
ghost use Rattle.run_base.specs.Worlds.{world, shown};
ghost use Rattle.run_base.specs.Prints.{SaysOf};
ghost use Rattle.cmd_trace.specs.Trace.{AnswersTrace, StopsTrace};
ghost use Rattle.cmd_trace.specs.Valid.{IsValid};
ghost use Rattle.cmd_refute.specs.Refute.{AnswersRefute, StopsRefute};
ghost use Rattle.cmd_refute.specs.Valid as refute_inputs;
ghost use Rattle.run_tasks.specs.Words.{words_said};
ghost use Rattle.vtr_top.specs.Says.{Says, SaysTask, Answers};
ghost use Rattle.vtr_top.specs.Valid.{IsValidRun, IsValidTask, EndsOrMemory, Completes};

use crate::table::{Task, table, task_of};
use cmd_refute::refute;
use cmd_trace::trace;
use run_base::{Answer, Status, memory_line, print, said, words_line};
use run_tasks::TaskWords;
use run_words::{WordsError, read_words};
use std::alloc::{AllocError, Global};
use vtr_base::{Shelf, Sink};

/// Runs one command: reads its words, fetches and reads its files in turn, and prints its answer.
/// The exit status of the process is the status's code.
pub fn run<S: Shelf, K: Sink>(alloc: Global, words: &[String], shelf: &mut S, out: &mut K) -> Status
    ensures answers { let w = world (S.files shelf.old) (S.faults shelf.old) (S.faults shelf.new) in
        Answers (map string_bytes words.now) w (shown (K.bytes out.old) (K.bytes out.new)
        (K.faults out.old) (K.faults out.new)) result }
    ensures held { S.files shelf.new ≡ S.files shelf.old }
    ensures complete { let w = world (S.files shelf.old) (S.faults shelf.old) (S.faults shelf.new)
        in (valid : IsValidRun (map string_bytes words.now) w) → Completes valid.task
        (shown (K.bytes out.old) (K.bytes out.new) (K.faults out.old) (K.faults out.new)) result }
    ensures beside { K.beside out.new ≡ K.beside out.old }
{
    match answer_of(alloc, words, shelf) {
        Ok(Answer { status, text }) => print(out, text.as_slice(), status),
        Err(_) => print(out, memory_line(), Status::Memory),
    }
}

/// The status and the text of the words, without printing it.
fn answer_of<S: Shelf>(alloc: Global, words: &[String], shelf: &mut S) -> Result<Answer, AllocError>
    ensures says { let w = world (S.files shelf.old) (S.faults shelf.old) (S.faults shelf.new) in
        IfOk result (λ a. Says (map string_bytes words.now) w a.status a.text.items) }
    ensures complete { let w = world (S.files shelf.old) (S.faults shelf.old) (S.faults shelf.new)
        in (valid : IsValidRun (map string_bytes words.now) w) → IfOk result
        (λ a. EndsOrMemory valid.task a.status) }
    ensures held { S.files shelf.new ≡ S.files shelf.old }
{
    let table = table();
    match read_words(alloc, &table, words) {
        Ok(command) => do_task(
            alloc,
            &task_of(command.row, command.plain.as_slice()),
            shelf,
        ),
        Err(WordsError::Wrong { place }) => {
            let text = words_line(alloc, place)?;
            let status = Status::Words;
            Ok(Answer { status, text })
        }
        Err(WordsError::OutOfMemory) => Err(AllocError),
    }
}

/// The status and the text of a task.
fn do_task<S: Shelf>(alloc: Global, task: &Task<'_>, shelf: &mut S) -> Result<Answer, AllocError>
    ensures says { let w = world (S.files shelf.old) (S.faults shelf.old) (S.faults shelf.new) in
        IfOk result (λ a. SaysTask task.now w a.status a.text.items) }
    ensures complete { let w = world (S.files shelf.old) (S.faults shelf.old) (S.faults shelf.new)
        in IsValidTask task.now w → IfOk result (λ a. EndsOrMemory task.now a.status) }
    ensures held { S.files shelf.new ≡ S.files shelf.old }
{
    match task {
        Task::Trace { arch, block, prog } => do_trace(alloc, arch, block, prog, shelf),
        Task::Refute { of, tree } => do_refute(alloc, of, tree, shelf),
    }
}

/// The status and the text of `trace`.
fn do_trace<S: Shelf>(
    alloc: Global,
    arch: &str,
    block: &str,
    prog: &str,
    shelf: &mut S,
) -> Result<Answer, AllocError>
    ensures says { let w = world (S.files shelf.old) (S.faults shelf.old) (S.faults shelf.new) in
        IfOk result (λ a. SaysOf (AnswersTrace w arch.now block.now prog.now)
        (StopsTrace w arch.now block.now prog.now) a.status a.text.items) }
    ensures complete { let w = world (S.files shelf.old) (S.faults shelf.old) (S.faults shelf.new)
        in IsValid w arch.now block.now prog.now → IfOk result
        (λ a. (a.status ≡ Status.Done) ⊎ (a.status ≡ Status.Memory)) }
    ensures held { S.files shelf.new ≡ S.files shelf.old }
{
    said(alloc, trace(alloc, arch, block, prog, shelf))
}

/// The status and the text of `refute`.
fn do_refute<S: Shelf>(
    alloc: Global,
    words: &TaskWords<'_>,
    tree: &str,
    shelf: &mut S,
) -> Result<Answer, AllocError>
    ensures says { let w = world (S.files shelf.old) (S.faults shelf.old) (S.faults shelf.new) in
        IfOk result (λ a. SaysOf (AnswersRefute w (words_said words.now) tree.now)
        (StopsRefute w (words_said words.now) tree.now) a.status a.text.items) }
    ensures complete { let w = world (S.files shelf.old) (S.faults shelf.old) (S.faults shelf.new)
        in refute_inputs.IsValid w (words_said words.now) tree.now → IfOk result (λ a. ((a.status ≡ Status.Done)
        ⊎ ((a.status ≡ Status.Undecided) ⊎ (a.status ≡ Status.Wrong)))
        ⊎ (a.status ≡ Status.Memory)) }
    ensures held { S.files shelf.new ≡ S.files shelf.old }
{
    said(alloc, refute(alloc, words, tree, shelf))
}
