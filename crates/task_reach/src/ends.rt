ghost use Rattle.std.specs.Prelude.{◌≡◌, ◌<◌, ℕ, MatchOption, length};
ghost use Rattle.task_types.specs.Ends.{IsAtom, IsInputAt, IsLutInput};
ghost use Rattle.task_types.specs.Open.{IsOpenTo, MayEnd};
ghost use Rattle.net_types.specs.declared.atom.Atom.{Atom as AtomSaid};
ghost use Rattle.task_reach.specs.Gains.{Gains};
ghost use Rattle.task_reach.specs.Valid.{IsTaskOf, IsNeedOf};
ghost use Rattle.task_reach.specs.Reached.{IsOpenConn, IsOpenInput};

use crate::bits::put_pin;
use crate::conns::{put_conn, put_lut};
use crate::leaves::homes_of;
use crate::roots::put_root_outputs;
use arch_types::AtomKind;
use net_types::{Atom, Conn, Netlist};
use pb_expand::{PbGraph, PbIx};
use sparse_set::SparseSet;
use task_open::is_open_to;
use task_trail::Trail;
use task_types::{Need, Task};

/// Adds the pins at which a need may be met, as far as decisions leave that open. It goes over the
/// leaves that are listed for the need's atom.
pub fn put_ends(
    net: &Netlist,
    graph: &PbGraph,
    task: &Task,
    trail: &Trail,
    need: Need,
    reached: &mut SparseSet,
)
    requires task { IsTaskOf graph.now task.now }
    requires need { IsNeedOf graph.now task.now need }
    requires atoms { trail.now.atoms ≡ length task.now.atoms }
    requires instances { trail.now.instances ≡ length graph.now.instances }
    requires room { reached.old.room ≡ length graph.now.pins }
    ensures gains { Gains reached.old.items reached.new.items
        (MayEnd graph.now net.now.atoms task.now trail.now.made need) }
    ensures room { reached.new.room ≡ reached.old.room }
{
    match need {
        Need::Input { atom, conn, .. } => {
            put_input_ends(net, graph, task, trail, atom, conn, reached);
        }
        Need::LutNet { atom, .. } => put_lut_ends(graph, task, trail, atom, reached),
        Need::Leave { .. } => put_root_outputs(graph, reached),
        Need::LeaveAt { pin, .. } => put_pin(pin, reached),
    }
}

/// Adds the pins of an atom's input connection at the leaves that are open to the atom.
fn put_input_ends(
    net: &Netlist,
    graph: &PbGraph,
    task: &Task,
    trail: &Trail,
    place: u32,
    conn: u32,
    reached: &mut SparseSet,
)
    requires task { IsTaskOf graph.now task.now }
    requires atom { place < trail.now.atoms }
    requires instances { trail.now.instances ≡ length graph.now.instances }
    requires room { reached.old.room ≡ length graph.now.pins }
    ensures gains { Gains reached.old.items reached.new.items
        (λ pin. (leaf : ℕ) × IsOpenTo graph.now task.now trail.now.made place leaf × IsInputAt
        graph.now net.now.atoms task.now place conn leaf pin) }
    ensures room { reached.new.room ≡ reached.old.room }
{
    if let Some(atom) = atom_at(net, task, place) {
        if let Some(input) = atom.ins.get(conn as usize) {
            put_conns(graph, task, trail, place, atom.kind, input, reached);
        }
    }
}

/// Adds the pins of a connection at the leaves that are open to its atom.
fn put_conns(
    graph: &PbGraph,
    task: &Task,
    trail: &Trail,
    place: u32,
    kind: AtomKind,
    conn: &Conn,
    reached: &mut SparseSet,
)
    requires task { IsTaskOf graph.now task.now }
    requires atom { place < trail.now.atoms }
    requires instances { trail.now.instances ≡ length graph.now.instances }
    requires room { reached.old.room ≡ length graph.now.pins }
    ensures gains { Gains reached.old.items reached.new.items
        (λ pin. (leaf : ℕ) × IsOpenConn graph.now task.now trail.now.made place kind conn.now leaf
        pin) }
    ensures room { reached.new.room ≡ reached.old.room }
{
    for leaf in homes_of(task, place) {
        put_conn_at(graph, task, trail, place, kind, conn, *leaf, reached);
    }
}

/// Adds the pins of a connection at a leaf, where that is open to its atom.
fn put_conn_at(
    graph: &PbGraph,
    task: &Task,
    trail: &Trail,
    place: u32,
    kind: AtomKind,
    conn: &Conn,
    leaf: PbIx,
    reached: &mut SparseSet,
)
    requires task { IsTaskOf graph.now task.now }
    requires atom { place < trail.now.atoms }
    requires inside { leaf.0 < length graph.now.instances }
    requires instances { trail.now.instances ≡ length graph.now.instances }
    requires room { reached.old.room ≡ length graph.now.pins }
    ensures gains { Gains reached.old.items reached.new.items
        (IsOpenConn graph.now task.now trail.now.made place kind conn.now leaf.0) }
    ensures room { reached.new.room ≡ reached.old.room }
{
    if is_open_to(graph, task, trail, place, leaf) {
        put_conn(graph, kind, conn, leaf, reached);
    }
}

/// Adds the inputs of the LUTs that are open to an atom.
fn put_lut_ends(graph: &PbGraph, task: &Task, trail: &Trail, place: u32, reached: &mut SparseSet)
    requires task { IsTaskOf graph.now task.now }
    requires atom { place < trail.now.atoms }
    requires instances { trail.now.instances ≡ length graph.now.instances }
    requires room { reached.old.room ≡ length graph.now.pins }
    ensures gains { Gains reached.old.items reached.new.items
        (λ pin. (leaf : ℕ) × IsOpenTo graph.now task.now trail.now.made place leaf × IsLutInput
        graph.now leaf pin) }
    ensures room { reached.new.room ≡ reached.old.room }
{
    for leaf in homes_of(task, place) {
        put_lut_at(graph, task, trail, place, *leaf, reached);
    }
}

/// Adds the inputs of a LUT, where it is open to an atom.
fn put_lut_at(
    graph: &PbGraph,
    task: &Task,
    trail: &Trail,
    place: u32,
    leaf: PbIx,
    reached: &mut SparseSet,
)
    requires task { IsTaskOf graph.now task.now }
    requires atom { place < trail.now.atoms }
    requires inside { leaf.0 < length graph.now.instances }
    requires instances { trail.now.instances ≡ length graph.now.instances }
    requires room { reached.old.room ≡ length graph.now.pins }
    ensures gains { Gains reached.old.items reached.new.items
        (IsOpenInput graph.now task.now trail.now.made place leaf.0) }
    ensures room { reached.new.room ≡ reached.old.room }
{
    if is_open_to(graph, task, trail, place, leaf) {
        put_lut(graph, leaf, reached);
    }
}

/// The atom at a place of the task.
pub(crate) fn atom_at<'a>(net: &'a Netlist, task: &Task, place: u32) -> Option<&'a Atom>
    ensures { MatchOption result ((atom : AtomSaid) → IsAtom net.now.atoms task.now place atom → ⊥)
        (λ atom. IsAtom net.now.atoms task.now place atom.now) }
{
    let number = task.atoms.get(place as usize)?;
    net.atoms().get(*number as usize)
}
