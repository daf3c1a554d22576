ghost use Rattle.std.specs.Prelude.{◌≡◌, ◌≤◌, IfOk, IfErr};
ghost use Rattle.run_base.specs.Worlds.{world};
ghost use Rattle.cmd_refute.specs.Refute.{AnswersRefute, StopsRefute};
ghost use Rattle.cmd_refute.specs.Valid.{IsValid};
ghost use Rattle.run_tasks.specs.Words.{words_said};

use crate::lines::answer_of;
use crate::tree::verdict_on;
use prog_text::plain_names;
use run_base::{Answer, Stop, fetch};
use run_laws::fetch_laws;
use run_tasks::{TaskWords, read_task};
use std::alloc::Global;
use vtr_base::Shelf;

/// `refute ARCH BLIF BLOCK ATOMS TREE`: what a tree shows of the task of a list of atoms. The task
/// is read by its words; then TREE is fetched and read, and its nodes are looked at in turn.
pub fn refute<S: Shelf>(
    alloc: Global,
    words: &TaskWords<'_>,
    tree: &str,
    shelf: &mut S,
) -> Result<Answer, Stop>
    ensures held { S.files shelf.new ≡ S.files shelf.old }
    ensures count { S.faults shelf.old ≤ S.faults shelf.new }
    ensures answer { let w = world (S.files shelf.old) (S.faults shelf.old) (S.faults shelf.new) in
        IfOk result (λ a. AnswersRefute w (words_said words.now) tree.now a.status a.text.items) }
    ensures stopped { let w = world (S.files shelf.old) (S.faults shelf.old) (S.faults shelf.new) in
        IfErr result (StopsRefute w (words_said words.now) tree.now) }
    ensures complete { let w = world (S.files shelf.old) (S.faults shelf.old) (S.faults shelf.new)
        in IsValid w (words_said words.now) tree.now → IfErr result (λ s. s ≡ Stop.Memory) }
{
    fetch_laws();
    let input = read_task(alloc, words, shelf)?;
    let bytes = fetch(alloc, tree, shelf)?;
    plain_names(&input.mapped.expanded.architecture);
    let graph = input.graph();
    let net = &input.mapped.netlist;
    let verdict = verdict_on(alloc, tree, bytes.as_slice(), net, graph, &input.task)?;
    match answer_of(alloc, verdict) {
        Ok(answer) => Ok(answer),
        Err(_) => Err(Stop::Memory),
    }
}
