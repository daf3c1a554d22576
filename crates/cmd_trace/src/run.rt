ghost use Rattle.std.specs.Prelude.{◌≡◌, ◌≤◌, IfOk, IfErr};
ghost use Rattle.prog_map.specs.Choices.{Choices};
ghost use Rattle.prog_text.specs.Text.{SpellsProg};
ghost use Rattle.prog_text.specs.Plain.{HasPlainNames};
ghost use Rattle.run_base.specs.Worlds.{world};
ghost use Rattle.cmd_trace.specs.Trace.{AnswersTrace, StopsTrace, IsTextOf, IsRefusedProg};
ghost use Rattle.cmd_trace.specs.Valid.{IsValid};

use crate::lines::answers;
use pb_expand::PbGraph;
use prog_text::{laws_of_the_text, plain_names, read_prog};
use run_base::{Answer, Status, Stop, fetch, refused_by};
use run_inputs::{block_named, read_expanded, valid_is_read};
use std::alloc::Global;
use vtr_base::Shelf;

/// `trace ARCH BLOCK PROG`: follows the chosen edges in a block type. ARCH is fetched and read, and
/// its block types are expanded; then PROG is fetched, BLOCK is looked up, and PROG is read.
pub fn trace<S: Shelf>(
    alloc: Global,
    arch: &str,
    block: &str,
    prog: &str,
    shelf: &mut S,
) -> Result<Answer, Stop>
    ensures held { S.files shelf.new ≡ S.files shelf.old }
    ensures count { S.faults shelf.old ≤ S.faults shelf.new }
    ensures answer { let w = world (S.files shelf.old) (S.faults shelf.old) (S.faults shelf.new) in
        IfOk result (λ a. AnswersTrace w arch.now block.now prog.now a.status a.text.items) }
    ensures stopped { let w = world (S.files shelf.old) (S.faults shelf.old) (S.faults shelf.new) in
        IfErr result (StopsTrace w arch.now block.now prog.now) }
    ensures complete { let w = world (S.files shelf.old) (S.faults shelf.old) (S.faults shelf.new)
        in IsValid w arch.now block.now prog.now → IfErr result (λ s. s ≡ Stop.Memory) }
{
    valid_is_read();
    let expanded = read_expanded(alloc, arch, shelf)?;
    let bytes = fetch(alloc, prog, shelf)?;
    let number = block_named(alloc, arch, &expanded, block)?;
    plain_names(&expanded.architecture);
    let text = text_of(alloc, prog, &expanded.graphs[number], bytes.as_slice())?;
    Ok(Answer {
        status: Status::Done,
        text,
    })
}

/// The lines of the programming that the bytes of its file spell.
fn text_of(alloc: Global, prog: &str, graph: &PbGraph, bytes: &[u8]) -> Result<Vec<u8>, Stop>
    requires { HasPlainNames graph.now.root }
    ensures text { IfOk result (λ text. IsTextOf graph.now bytes.now text.items) }
    ensures stopped { IfErr result (IsRefusedProg graph.now prog.now bytes.now) }
    ensures complete { (c : Choices) → SpellsProg graph.now bytes.now c → IfErr result
        (λ s. s ≡ Stop.Memory) }
{
    laws_of_the_text(graph);
    match read_prog(alloc, bytes, graph) {
        Ok(programming) => Ok(answers(alloc, graph, &programming)?),
        Err(error) => Err(refused_by(alloc, prog, &error)),
    }
}
