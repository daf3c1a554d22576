ghost use Rattle.std.specs.Prelude.{◌≡◌, ◌<◌, ℕ, IfSome, MatchOption, length};
ghost use Rattle.prog_text.specs.Names.{NamesInstance, NamesPin};
ghost use Rattle.prog_text.specs.Steps.{IsChildNamed, IsBelow};
ghost use Rattle.prog_text.specs.Table.{AreNamesOf};

use crate::GraphNames;
use crate::steps::{StepText, first_step, indexed, without_prefix};
use pb_expand::{PbGraph, PbIx, PinIx};
use vtr_base::cut;

impl GraphNames {
    /// The instance of the graph that is written so: the block type's name, and `/MODE:CHILD[i]`
    /// for each step down. It takes a look-up or three a step.
    pub fn instance(&self, graph: &PbGraph, text: &[u8]) -> Option<PbIx>
        requires { AreNamesOf graph.now self.now }
        ensures { MatchOption result ((pb : ℕ) → NamesInstance graph.now text.now pb → ⊥)
            (λ pb. NamesInstance graph.now text.now pb.0) }
    {
        graph.law();
        let steps = without_prefix(text, graph.root().name.as_bytes())?;
        self.below(graph, PbIx(0), steps)
    }

    /// The pin of the graph that is written so: its instance, a dot, the port, and the bit in
    /// brackets.
    pub fn pin(&self, graph: &PbGraph, text: &[u8]) -> Option<PinIx>
        requires { AreNamesOf graph.now self.now }
        ensures { MatchOption result ((pin : ℕ) → NamesPin graph.now text.now pin → ⊥)
            (λ pin. NamesPin graph.now text.now pin.0) }
    {
        graph.law();
        let (instance, behind) = cut(text, b'.')?;
        let pb = self.instance(graph, instance)?;
        let bit = indexed(behind)?;
        if !bit.rest.is_empty() {
            return None;
        }
        let port = self.port(graph, pb, bit.name)?;
        graph.pin_of(pb, port, bit.index)
    }

    /// The instance to which these steps lead down from one.
    fn below(&self, graph: &PbGraph, pb: PbIx, steps: &[u8]) -> Option<PbIx>
        requires there { pb.0 < length graph.now.instances }
        requires of { AreNamesOf graph.now self.now }
        ensures { MatchOption result ((n : ℕ) → IsBelow graph.now pb.0 steps.now n → ⊥)
            (λ n. IsBelow graph.now pb.0 steps.now n.0) }
    {
        graph.law();
        if steps.is_empty() {
            return Some(pb);
        }
        let step = first_step(steps)?;
        let kid = self.kid(graph, pb, step)?;
        self.below(graph, kid, step.rest)
    }

    /// The instance to which one step leads.
    fn kid(&self, graph: &PbGraph, pb: PbIx, step: StepText<'_>) -> Option<PbIx>
        requires there { pb.0 < length graph.now.instances }
        requires of { AreNamesOf graph.now self.now }
        ensures { MatchOption result ((n : ℕ) → IsChildNamed graph.now pb.0 step.entry.mode.now
            step.entry.child.now step.entry.instance n → ⊥)
            (λ n. IsChildNamed graph.now pb.0 step.entry.mode.now step.entry.child.now
            step.entry.instance n.0) }
    {
        graph.law();
        let mode = self.mode(graph, pb, step.mode)?;
        let child = self.child(graph, pb, mode, step.child)?;
        graph.child_of(pb, mode, child, step.instance)
    }
}
