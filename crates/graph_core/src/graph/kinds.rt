//! The change of a graph's kind.
ghost use Rattle.std.specs.Prelude.{◌≡◌, ℕ, false, [], Some, map};
ghost use Rattle.graph_state.specs.declared.name.ListName.{ListName};
ghost use Rattle.graph_state.specs.declared.name.ListName.TheVariants.{Nodes};
ghost use Rattle.graph_state.specs.declared.name.Element.{Element};
ghost use Rattle.graph_state.specs.Names.{Has, number};
ghost use Rattle.graph_state.specs.Edits.{made_undirected, made_directed};
ghost use Rattle.graph_state.specs.Turned.{is_back, kind_changed};
ghost use Rattle.graph_lists.specs.Named.{head_at, list_at, SameRoom};
ghost use Rattle.graph_lists.specs.Heads.{IsMemberOf};
ghost use Rattle.graph_core.specs.Marks.{HasTokens};
ghost use Rattle.graph_core.specs.Turns.{Fills};
ghost use Rattle.graph_core.specs.Gathers.{GoesIf, CanGather, Gathers, CanGatherAt, GathersAt, CanGatherEach, CanGatherAll, GathersAll};

use super::Graph;
use super::growth::{back_head, back_name};
use super::marks::element_at;
use crate::cell::{EdgeCell, Heads, NodeCell};
use crate::seen::show;
use graph_lists::{Head, ListHead, Lists, Member};
use graph_state::{Element, ListName};
use item_pool::{Item, Pool};

/// Whether the element is the dart of an edge at its target.
fn is_back(x: Element) -> bool
    ensures { result ≡ is_back x }
{
    match x {
        Element::End(dart) => dart.back,
        _ => false,
    }
}

/// The element of the first list that the member is of goes to the end of the second list, where it
/// is a back dart.
fn gather_one(
    lists: &mut Lists,
    nodes: &Pool<NodeCell>,
    edges: &Pool<EdgeCell>,
    from: ListName,
    m: Member,
    to: ListName,
    rear: &ListHead,
)
    requires member { (x : Element)
        × (Has x (list_at lists.old.named from) × IsMemberOf lists.old.named false x m) }
    requires tokens { HasTokens lists.old.named nodes.now edges.now from }
    requires rear { head_at lists.old.named to ≡ Some rear.now }
    ensures named { (x : Element) → Has x (list_at lists.old.named from)
        → IsMemberOf lists.old.named false x m
        → GoesIf (is_back x) lists.old.named lists.new.named to x }
    ensures room { SameRoom lists.old lists.new }
{
    let (x, hook) = element_at(lists, nodes, edges, from, m);
    if is_back(x) {
        let shows = lists.is_shown(x, hook);
        lists.unlink(x, hook);
        lists.push_back(to, rear, x, hook, shows);
    }
}

/// The back darts of the first list go to the end of the second list, in their order.
fn gather(
    lists: &mut Lists,
    nodes: &Pool<NodeCell>,
    edges: &Pool<EdgeCell>,
    from: ListName,
    head: &ListHead,
    to: ListName,
    rear: &ListHead,
)
    requires { CanGather lists.old.named nodes.now edges.now from to head.now rear.now }
    ensures named { Gathers lists.old.named lists.new.named from to
        (list_at lists.old.named from) [] }
    ensures room { SameRoom lists.old lists.new }
{
    let mut at = lists.first(head.full);
    for _turn in 0..lists.len(head.full) {
        let Some(m) = at else { unreachable!() };
        at = lists.next(m);
        gather_one(lists, nodes, edges, from, m, to, rear);
    }
}

/// The back darts of a node go to the end of its other list.
fn gather_at(
    lists: &mut Lists,
    nodes: &Pool<NodeCell>,
    edges: &Pool<EdgeCell>,
    directed: bool,
    v: u32,
)
    requires { CanGatherAt lists.old.named nodes.now edges.now directed v }
    ensures named { GathersAt lists.old.named lists.new.named directed v }
    ensures room { SameRoom lists.old lists.new }
{
    let Ok(cell) = nodes.get(Item { slot: 0, serial: v }) else {
        unreachable!()
    };
    gather(
        lists,
        nodes,
        edges,
        back_name(directed, v),
        back_head(directed, cell),
        back_name(!directed, v),
        back_head(!directed, cell),
    );
}

/// The same for each node of the node list.
fn gather_each(
    lists: &mut Lists,
    nodes: &Pool<NodeCell>,
    edges: &Pool<EdgeCell>,
    head: Head,
    directed: bool,
)
    requires can { CanGatherEach lists.old nodes.now edges.now }
    requires fills { Fills lists.old nodes.now Nodes head }
    ensures named { GathersAll lists.old.named lists.new.named directed
        (map number (list_at lists.old.named Nodes)) }
    ensures room { SameRoom lists.old lists.new }
{
    let mut at = lists.first(head);
    for _turn in 0..lists.len(head) {
        let Some(m) = at else { unreachable!() };
        let v = lists.number(m);
        gather_at(lists, nodes, edges, directed, v);
        at = lists.next(m);
    }
}

/// The same for all nodes.
fn gather_all(
    lists: &mut Lists,
    heads: &Option<Heads>,
    nodes: &Pool<NodeCell>,
    edges: &Pool<EdgeCell>,
    directed: bool,
)
    requires { CanGatherAll lists.old nodes.now edges.now heads.now }
    ensures named { GathersAll lists.old.named lists.new.named directed
        (map number (list_at lists.old.named Nodes)) }
    ensures room { SameRoom lists.old lists.new }
{
    if let Some(heads) = heads {
        gather_each(lists, nodes, edges, heads.nodes.full, directed);
    }
}

impl Graph {
    /// Changes the kind. The back darts of each node go to the end of its other list, in their
    /// order.
    fn change_kind(&mut self)
        ensures { self.new ≡ kind_changed self.old }
    {
        gather_all(
            &mut self.lists,
            &self.heads,
            &self.nodes,
            &self.edges,
            self.directed,
        );
        self.directed = !self.directed;
        show(&mut self.seen, 0, 0, 0);
    }

    /// The graph is undirected: the out list of each node becomes the out list followed by the in
    /// list, so that a loop stands there twice, and in lists are empty. It changes nothing in an
    /// undirected graph. It takes no memory, and time linear in the nodes and edges.
    pub fn make_undirected(&mut self)
        ensures { self.new ≡ made_undirected self.old }
    {
        if self.directed {
            self.change_kind();
        }
    }

    /// The graph is directed: the back darts of each out list, which are those at the targets of
    /// edges, go to the in list in their order. It changes nothing in a directed graph. It takes no
    /// memory, and time linear in the nodes and edges.
    pub fn make_directed(&mut self)
        ensures { self.new ≡ made_directed self.old }
    {
        if !self.directed {
            self.change_kind();
        }
    }
}
