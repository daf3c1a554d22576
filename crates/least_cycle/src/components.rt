ghost use Rattle.std.specs.Prelude.{◌≡◌, ◌<◌, ◌≤◌, [], IfOk, OnOk, Some, length, map, slice_get};
ghost use Rattle.least_cycle.specs.Walks.{AreNodes, AreComponentRanks, Joins};
ghost use Rattle.least_cycle.specs.declared.components.Component.{Component};
ghost use Rattle.least_cycle.specs.Components.{IsSearch, IsPlace, GoesOn, AllReach, IsLast, IsCut, AreMarked, AreSeen, KeepsSeen, IsFresh, IsSomeSearch, Merges, StaysSearch, AreOrdered, rank_of};

use flat_tables::FlatTable;
use std::alloc::{AllocError, Global};
use std::marker::Model;

/// What the search knows of a node.
#[derive(Debug, Clone, Copy)]
pub(crate) enum Place {
    Unseen,
    /// At this place of the path.
    Open(usize),
    /// In a closed component, with its rank.
    Closed(u32),
}

impl Place {
    fn rank(self) -> u32
        ensures { result ≡ rank_of self }
    {
        match self {
            Place::Closed(rank) => rank,
            Place::Unseen | Place::Open(_) => 0,
        }
    }
}

/// Nodes of the path that reach each other, as found so far, up to where the next component
/// begins. A closed one is a strongly connected component of the graph.
#[derive(Debug, Clone, Copy)]
pub(crate) struct Component {
    /// Where its nodes begin on the path.
    pub(crate) path: usize,
    /// Where the nodes begin that its nodes' edges still lead to.
    pub(crate) ahead: usize,
}

/// A search along edges that keeps the components of its path.
#[derive(Drop)]
struct Search {
    path: Vec<u32>,
    /// The nodes that edges of the path's nodes lead to and that are to be looked at.
    ahead: Vec<u32>,
    components: Vec<Component>,
    /// The place of each node.
    places: Vec<Place>,
    /// The rank of the component that was closed last.
    low: u32,
}

impl Model for Search {
    ghost use Rattle.least_cycle.specs.declared.components.Component.{Component};
    ghost use Rattle.least_cycle.specs.Components.{State};

    ghost Value = { State };

    ghost view = { λ s. record {
      path = s.path.items;
      ahead = s.ahead.items;
      components = s.components.items;
      places = s.places.items;
      low = s.low;
    } };
}

impl Search {
    fn new(alloc: Global, nodes: u32) -> Result<Search, AllocError>
        ensures { IfOk result (IsFresh nodes) }
    {
        Ok(Search {
            path: Vec::new(alloc),
            ahead: Vec::new(alloc),
            components: Vec::new(alloc),
            places: vec![in alloc; Place::Unseen; nodes as usize]?,
            low: nodes,
        })
    }

    /// Looks at all nodes that can be reached from this one and weren't seen.
    fn search_from(&mut self, nexts: &FlatTable<u32>, root: u32) -> Result<(), AllocError>
        requires search { IsSearch nexts.now self.old }
        requires nodes { AreNodes nexts.now }
        requires root { root < length nexts.now }
        requires no_path { self.old.path ≡ [] }
        ensures search { OnOk result (IsSearch nexts.now self.new) }
        ensures no_path { OnOk result (self.new.path ≡ []) }
        ensures seen { OnOk result (KeepsSeen self.old self.new) }
        ensures root_seen { OnOk result (IsPlace self.new root Place.Unseen → ⊥) }
    {
        if let Place::Unseen = self.places[root as usize] {
            self.enter(nexts, root)?;
        }
        'steps: while let Some(component) = self.components.last().copied() {
            self.step(nexts, component)?;
        }
        Ok(())
    }

    /// Follows an edge that leaves the last component, or closes it where there is none.
    fn step(&mut self, nexts: &FlatTable<u32>, component: Component) -> Result<(), AllocError>
        requires search { IsSearch nexts.now self.old }
        requires nodes { AreNodes nexts.now }
        requires last { IsLast self.old component }
        ensures { OnOk result (GoesOn nexts.now self.old self.new) }
    {
        if self.ahead.len() <= component.ahead {
            self.close(component);
            return Ok(());
        }
        let node = self.ahead[self.ahead.len() - 1];
        match self.places[node as usize] {
            Place::Unseen => self.enter(nexts, node),
            Place::Open(at) => {
                self.merge(at);
                Ok(())
            }
            Place::Closed(_) => {
                self.ahead.pop();
                Ok(())
            }
        }
    }

    /// Puts a node on the path as a component by itself.
    fn enter(&mut self, nexts: &FlatTable<u32>, node: u32) -> Result<(), AllocError>
        requires search { IsSearch nexts.now self.old }
        requires unseen { IsPlace self.old node Place.Unseen }
        requires reached { AllReach nexts.now self.old node }
        ensures goes_on { OnOk result (GoesOn nexts.now self.old self.new) }
        ensures node { OnOk result (IsPlace self.new node Place.Unseen → ⊥) }
    {
        let component = Component {
            path: self.path.len(),
            ahead: self.ahead.len(),
        };
        self.places[node as usize] = Place::Open(component.path);
        self.path.push(node)?;
        self.ahead.extend_from_slice(nexts.group(node))?;
        self.components.push(component)?;
        Ok(())
    }

    /// Joins the components from that place of the path on, and takes away the next node, which
    /// stands there.
    fn merge(&mut self, at: usize)
        requires search { IsSomeSearch self.old }
        requires some { 0 < length self.old.components }
        ensures { Merges at self.old self.new }
    {
        let count = components_by(self.components.as_slice(), at);
        self.components.truncate(count);
        self.ahead.pop();
    }

    /// Takes the last component off the path, as nothing is ahead of it.
    fn close(&mut self, component: Component)
        requires search { IsSomeSearch self.old }
        requires last { IsLast self.old component }
        requires nothing { length self.old.ahead ≤ component.ahead }
        ensures { StaysSearch self.old self.new }
    {
        self.low -= 1;
        mark(&self.path[component.path..], self.low, &mut self.places);
        self.path.truncate(component.path);
        self.components.pop();
    }
}

/// How many of the components begin by that place of the path.
fn components_by(components: &[Component], at: usize) -> usize
    requires some { 0 < length components.now }
    requires first { (first : Component) → slice_get components.now 0 ≡ Some first
        → first.path ≤ at }
    requires ordered { AreOrdered components.now }
    ensures { IsCut components.now at result }
{
    let mut count = components.len();
    'cut: while count > 1 && components[count - 1].path > at {
        count -= 1;
    }
    count
}

/// Gives that rank to the nodes.
fn mark(nodes: &[u32], rank: u32, places: &mut [Place])
    requires { AreSeen nodes.now places.old }
    ensures { AreMarked nodes.now rank places.old places.new }
{
    for node in nodes {
        places[*node as usize] = Place::Closed(rank);
    }
}

/// Ranks of the nodes, equal for those that reach each other, along which no edge falls.
pub(crate) fn component_ranks(
    alloc: Global,
    nodes: u32,
    nexts: &FlatTable<u32>,
) -> Result<Vec<u32>, AllocError>
    requires long { length nexts.now ≡ nodes }
    requires nodes { AreNodes nexts.now }
    ensures { IfOk result (λ ranks. AreComponentRanks (Joins nexts.now) nodes ranks.items) }
{
    let mut search = Search::new(alloc, nodes)?;
    for root in 0..nodes {
        search.search_from(nexts, root)?;
    }
    Ok(ranks_of(alloc, &search.places)?)
}

/// The ranks of closed nodes.
fn ranks_of(alloc: Global, places: &[Place]) -> Result<Vec<u32>, AllocError>
    ensures { IfOk result (λ ranks. ranks.items ≡ map rank_of places.now) }
{
    places.iter().map(|place| place.rank()).collect(alloc)
}
