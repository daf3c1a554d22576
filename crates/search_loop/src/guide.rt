ghost use Rattle.std.specs.Prelude.{◌≡◌, ◌<◌, ◌^◌, IfOk, IfSome, IfNone, length};
ghost use Rattle.pb_expand.specs.Graph.{Graph};
ghost use Rattle.task_types.specs.declared.task.Task.{Task as TaskSaid};
ghost use Rattle.task_reach.specs.Valid.{IsTaskOf, EntersAtRoot};
ghost use Rattle.tree_steps.specs.Owing.{IsPath};
ghost use Rattle.search_rules.specs.Closing.{Closes, IsHopeful};
ghost use Rattle.search_rules.specs.Left.{IsNextVar, IsAllDecided, HasLeafHomes};

use net_types::Netlist;
use pb_expand::PbGraph;
use std::alloc::{AllocError, Global};
use task_trail::Trail;
use task_types::{Task, TreeNode, Var};

/// What a search asks where so much is decided. Between two calls it keeps room, and nothing else.
pub trait Guide {
    /// It has the room that the graph and the task take.
    ghost is_fit: { Self → Graph → TaskSaid → Type 0 };

    /// A leaf that closes the tree here, where there is one.
    fn close(
        &mut self,
        alloc: Global,
        net: &Netlist,
        graph: &PbGraph,
        task: &Task,
        trail: &Trail,
    ) -> Result<Option<TreeNode>, AllocError>
        requires fit { is_fit self.old graph.now task.now }
        requires task { IsTaskOf graph.now task.now }
        requires few_needs { length task.now.needs < 2 ^ 32 }
        requires homes { HasLeafHomes graph.now task.now }
        requires atoms { trail.now.atoms ≡ length task.now.atoms }
        requires instances { trail.now.instances ≡ length graph.now.instances }
        requires pins { trail.now.pins ≡ length graph.now.pins }
        requires path { IsPath graph.now task.now trail.now.made }
        requires root { EntersAtRoot graph.now trail.now.made }
        ensures closes { IfOk result (λ leaf. IfSome leaf (λ node. Closes graph.now net.now.atoms
            task.now trail.now.made node)) }
        ensures hopeful { IfOk result (λ leaf. IfNone leaf (IsHopeful graph.now net.now.atoms
            task.now trail.now.made)) }
        ensures fit { is_fit self.new graph.now task.now };

    /// The variable to decide next, where something is left to be decided.
    fn next_var(
        &mut self,
        alloc: Global,
        net: &Netlist,
        graph: &PbGraph,
        task: &Task,
        trail: &Trail,
    ) -> Result<Option<Var>, AllocError>
        requires fit { is_fit self.old graph.now task.now }
        requires task { IsTaskOf graph.now task.now }
        requires few_needs { length task.now.needs < 2 ^ 32 }
        requires homes { HasLeafHomes graph.now task.now }
        requires atoms { trail.now.atoms ≡ length task.now.atoms }
        requires instances { trail.now.instances ≡ length graph.now.instances }
        requires pins { trail.now.pins ≡ length graph.now.pins }
        requires path { IsPath graph.now task.now trail.now.made }
        requires root { EntersAtRoot graph.now trail.now.made }
        requires hopeful { IsHopeful graph.now net.now.atoms task.now trail.now.made }
        ensures next { IfOk result (λ var. IfSome var (IsNextVar graph.now net.now.atoms task.now
            trail.now.made)) }
        ensures decided { IfOk result (λ var. IfNone var (IsAllDecided graph.now net.now.atoms
            task.now trail.now.made)) }
        ensures fit { is_fit self.new graph.now task.now };
}
