ghost use Rattle.std.specs.Prelude.{◌<◌, ◌^◌, IfOk, length};
ghost use Rattle.mode_search.specs.Sets.{AreSets};
ghost use Rattle.search_rules.specs.Left.{HasLeafHomes};

use net_types::Netlist;
use pb_expand::PbGraph;
use search_choice::next_var;
use search_crowds::find_crowd;
use search_homes::find_homeless;
use search_loop::Guide;
use search_ways::find_cut;
use sparse_set::SparseSet;
use std::alloc::{AllocError, Global};
use task_trail::Trail;
use task_types::{Task, TreeNode, Var};

/// What the tests of a node keep room for: nets of a task, and pins of a graph.
#[derive(Drop)]
pub(crate) struct Sets {
    pub nets: SparseSet,
    pub reached: SparseSet,
}

impl Sets {
    /// Empty sets with room for the task and the graph.
    pub fn for_task(alloc: Global, graph: &PbGraph, task: &Task) -> Result<Sets, AllocError>
        requires homes { HasLeafHomes graph.now task.now }
        requires few { length task.now.nets < 2 ^ 32 }
        ensures { IfOk result (λ sets. AreSets sets graph.now task.now) }
    {
        Ok(Sets {
            nets: SparseSet::with_room(alloc, task.nets.len() as u32)?,
            reached: SparseSet::with_room(alloc, graph.pins())?,
        })
    }
}

impl Guide for Sets {
    ghost is_fit = { AreSets };

    /// Atoms without enough leaves are looked for first, then a need without a way, and then needs
    /// that crowd.
    fn close(
        &mut self,
        alloc: Global,
        net: &Netlist,
        graph: &PbGraph,
        task: &Task,
        trail: &Trail,
    ) -> Result<Option<TreeNode>, AllocError> {
        if let Some(leaf) = find_homeless(alloc, graph, task, trail)? {
            return Ok(Some(leaf));
        }
        if let Some(leaf) = find_cut(alloc, net, graph, task, trail, &mut self.reached)? {
            return Ok(Some(leaf));
        }
        find_crowd(
            alloc,
            net,
            graph,
            task,
            trail,
            &mut self.nets,
            &mut self.reached,
        )
    }

    fn next_var(
        &mut self,
        alloc: Global,
        net: &Netlist,
        graph: &PbGraph,
        task: &Task,
        trail: &Trail,
    ) -> Result<Option<Var>, AllocError> {
        next_var(alloc, net, graph, task, trail, &mut self.reached)
    }
}
