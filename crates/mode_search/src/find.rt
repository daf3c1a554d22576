ghost use Rattle.std.specs.Prelude.{◌≡◌, ◌<◌, ◌^◌, IfOk, IfSome, length};
ghost use Rattle.task_rules.specs.Valid.{IsValid};
ghost use Rattle.task_reach.specs.Valid.{IsTaskOf};
ghost use Rattle.task_empty.specs.Empty.{empty_real};
ghost use Rattle.search_rules.specs.Left.{HasSomeModes};
ghost use Rattle.search_rules.specs.Settled.{IsReady};
ghost use Rattle.tree_steps.specs.Owing.{IsPath};
ghost use Rattle.search_loop.specs.Outcomes.{IsFound, IsOutcome};
ghost use Rattle.mode_search.specs.Answers.{IsAnswer, IsWritableAnswer};
ghost use Rattle.mode_search.specs.Sets.{AreSets};
ghost use Rattle.task_types.specs.Realises.{Realises};

use crate::Answer;
use crate::sets::Sets;
use first_try::first_try;
use net_types::Netlist;
use pb_expand::PbGraph;
use prog_map::Prog;
use room_law::room_law;
use search_law::{home_law, legal_law, ready_law};
use search_loop::{Outcome, search};
use search_real::real_of;
use sqlite_items::Items;
use std::alloc::{AllocError, Global};
use task_empty::empty_law;
use task_law::{one_net_law, refuting_law};
use task_rules::valid_law;
use task_there::there_law;
use task_trail::Trail;
use task_types::{Real, Task};

/// What realises a task, a tree that refutes it, or the tree of a search that gave up after
/// `nodes` branches. A task of no atoms needs no search.
///
/// A node of the search takes the time of its tests: a walk over what is reached back from each
/// active need, a matching of atoms with the leaves that are open to them, and as many walks over
/// the graph as nets are needed.
pub fn legalise(
    alloc: Global,
    net: &Netlist,
    graph: &PbGraph,
    task: &Task,
    nodes: u64,
) -> Result<Answer, AllocError>
    requires valid { IsValid graph.now net.now.atoms task.now }
    requires modes { HasSomeModes graph.now }
    ensures answer { IfOk result (IsAnswer graph.now net.now.atoms task.now nodes) }
    ensures writable { IfOk result (IsWritableAnswer graph.now task.now) }
{
    empty_law();
    if task.atoms.is_empty() {
        return Ok(Answer::Legal(nothing_chosen(alloc, graph)?));
    }
    there_law(net);
    home_law(graph);
    room_law(graph);
    refuting_law(graph);
    one_net_law(net);
    valid_law();
    if task.needs.len() >= 4_294_967_296 {
        return Err(AllocError);
    }
    let mut sets = Sets::for_task(alloc, graph, task)?;
    if let Some(real) = found_at_once(alloc, &mut sets, net, graph, task)? {
        return Ok(Answer::Legal(real));
    }
    let mut trail = Trail::for_task(alloc, graph, task)?;
    match search(alloc, &mut sets, net, graph, task, &mut trail, nodes)? {
        Outcome::Found => Ok(Answer::Legal(found(alloc, net, graph, task, &trail)?)),
        Outcome::Refuted(tree) => Ok(Answer::Refuted(tree)),
        Outcome::GivenUp(tree) => Ok(Answer::Undecided(tree)),
    }
}

/// The realisation in which nothing is chosen.
fn nothing_chosen(alloc: Global, graph: &PbGraph) -> Result<Real, AllocError>
    ensures { IfOk result (λ real. real ≡ empty_real) }
{
    Ok(Real {
        prog: Prog::empty(alloc, graph)?,
        homes: Items::new(alloc),
        entries: Items::new(alloc),
    })
}

/// What realises the task, where a first try finds it.
fn found_at_once(
    alloc: Global,
    sets: &mut Sets,
    net: &Netlist,
    graph: &PbGraph,
    task: &Task,
) -> Result<Option<Real>, AllocError>
    requires valid { IsValid graph.now net.now.atoms task.now }
    requires task { IsTaskOf graph.now task.now }
    requires few_needs { length task.now.needs < 2 ^ 32 }
    requires sets { AreSets sets.old graph.now task.now }
    ensures real { IfOk result (λ found. IfSome found (Realises graph.now net.now.atoms
        task.now)) }
    ensures sets { AreSets sets.new graph.now task.now }
{
    let mut trail = Trail::for_task(alloc, graph, task)?;
    if !first_try(alloc, net, graph, task, &mut trail, &mut sets.reached)? {
        return Ok(None);
    }
    Ok(Some(real_at(alloc, net, graph, task, &trail)?))
}

/// The realisation that a search has found.
fn found(
    alloc: Global,
    net: &Netlist,
    graph: &PbGraph,
    task: &Task,
    trail: &Trail,
) -> Result<Real, AllocError>
    requires valid { IsValid graph.now net.now.atoms task.now }
    requires task { IsTaskOf graph.now task.now }
    requires instances { trail.now.instances ≡ length graph.now.instances }
    requires pins { trail.now.pins ≡ length graph.now.pins }
    requires found { IsFound graph.now net.now.atoms task.now trail.now.made }
    ensures { IfOk result (Realises graph.now net.now.atoms task.now) }
{
    home_law(graph);
    ready_law(graph);
    real_at(alloc, net, graph, task, trail)
}

/// The realisation that decisions say which give each atom its home and settle each need.
fn real_at(
    alloc: Global,
    net: &Netlist,
    graph: &PbGraph,
    task: &Task,
    trail: &Trail,
) -> Result<Real, AllocError>
    requires valid { IsValid graph.now net.now.atoms task.now }
    requires task { IsTaskOf graph.now task.now }
    requires instances { trail.now.instances ≡ length graph.now.instances }
    requires pins { trail.now.pins ≡ length graph.now.pins }
    requires path { IsPath graph.now task.now trail.now.made }
    requires ready { IsReady graph.now net.now.atoms task.now trail.now.made }
    ensures { IfOk result (Realises graph.now net.now.atoms task.now) }
{
    let _ = net;
    legal_law(graph);
    real_of(alloc, graph, task, trail)
}
