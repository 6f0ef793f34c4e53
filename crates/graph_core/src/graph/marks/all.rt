//! Everything that is hidden restored.
ghost use Rattle.std.specs.Prelude.{◌≡◌, Some};
ghost use Rattle.item_pool.specs.Contents.{HasLive};
ghost use Rattle.graph_state.specs.declared.name.ListName.{ListName};
ghost use Rattle.graph_state.specs.declared.name.ListName.TheVariants.{Nodes, Edges};
ghost use Rattle.graph_state.specs.declared.name.Element.{Element};
ghost use Rattle.graph_state.specs.Names.{Has, number};
ghost use Rattle.graph_state.specs.Edits.{all_restored};
ghost use Rattle.graph_lists.specs.Named.{head_at, list_at, SameRoom};
ghost use Rattle.graph_core.specs.Marks.{HasTokens};
ghost use Rattle.graph_core.specs.Restores.{ShowsAll, ShowsRows, ShowsWhole, HasRows, CanShowAll, bare_node, bare_edge, Clears};

use super::super::Graph;
use super::nodes::set_node_mark;
use super::{element_at, set_mark, show_element};
use crate::cell::{EdgeCell, Heads, NodeCell};
use crate::seen::show;
use graph_lists::{ListHead, Lists};
use graph_state::{EdgeItem, ListName, NodeItem};
use item_pool::{Item, Pool};

/// Everything that stands in the list shows from here on. An element goes next to the one before
/// it, which shows by then: so this takes time linear in the list.
fn show_list(
    lists: &mut Lists,
    nodes: &Pool<NodeCell>,
    edges: &Pool<EdgeCell>,
    list: ListName,
    head: &ListHead,
)
    requires head { head_at lists.old.named list ≡ Some head.now }
    requires tokens { HasTokens lists.old.named nodes.now edges.now list }
    ensures named { ShowsAll lists.old.named lists.new.named (list_at lists.old.named list) }
    ensures room { SameRoom lists.old lists.new }
{
    let mut at = lists.first(head.full);
    for _turn in 0..lists.len(head.full) {
        let Some(m) = at else { unreachable!() };
        let (x, hook) = element_at(lists, nodes, edges, list, m);
        show_element(lists, nodes, edges, list, head, x, hook);
        at = lists.next(m);
    }
}

/// Everything that stands in a list of a node shows from here on.
fn show_rows(lists: &mut Lists, nodes: &Pool<NodeCell>, edges: &Pool<EdgeCell>, head: &ListHead)
    requires head { head_at lists.old.named Nodes ≡ Some head.now }
    requires tokens { (l : ListName) → HasTokens lists.old.named nodes.now edges.now l }
    requires rows { (x : Element) → Has x (list_at lists.old.named Nodes)
        → HasRows lists.old.named nodes.now (number x) }
    ensures named { ShowsRows lists.old.named lists.new.named (list_at lists.old.named Nodes) }
    ensures room { SameRoom lists.old lists.new }
{
    let mut at = lists.first(head.full);
    for _turn in 0..lists.len(head.full) {
        let Some(m) = at else { unreachable!() };
        let v = lists.number(m);
        let Ok(cell) = nodes.get(Item { slot: 0, serial: v }) else {
            unreachable!()
        };
        show_list(lists, nodes, edges, ListName::Out(v), &cell.outs);
        show_list(lists, nodes, edges, ListName::In(v), &cell.ins);
        at = lists.next(m);
    }
}

/// Everything shows from here on.
fn show_all(lists: &mut Lists, heads: &Heads, nodes: &Pool<NodeCell>, edges: &Pool<EdgeCell>)
    requires { CanShowAll lists.old.named nodes.now edges.now heads.now }
    ensures named { ShowsWhole lists.old.named lists.new.named }
    ensures room { SameRoom lists.old lists.new }
{
    show_list(lists, nodes, edges, ListName::Nodes, &heads.nodes);
    show_list(lists, nodes, edges, ListName::Edges, &heads.edges);
    show_rows(lists, nodes, edges, &heads.nodes);
}

/// Clears the mark of each node that stands in the node list.
fn clear_nodes(lists: &Lists, nodes: &mut Pool<NodeCell>, head: &ListHead)
    requires head { head_at lists.now.named Nodes ≡ Some head.now }
    requires live { (x : Element) → Has x (list_at lists.now.named Nodes)
        → HasLive nodes.old (number x) }
    ensures live { Clears bare_node nodes.old.live nodes.new.live (list_at lists.now.named Nodes) }
    ensures made { nodes.new.made ≡ nodes.old.made }
{
    let mut at = lists.first(head.full);
    for _turn in 0..lists.len(head.full) {
        let Some(m) = at else { unreachable!() };
        let serial = lists.number(m);
        set_node_mark(nodes, NodeItem(Item { slot: 0, serial }), false);
        at = lists.next(m);
    }
}

/// Clears the mark of each edge that stands in the edge list.
fn clear_edges(lists: &Lists, edges: &mut Pool<EdgeCell>, head: &ListHead)
    requires head { head_at lists.now.named Edges ≡ Some head.now }
    requires live { (x : Element) → Has x (list_at lists.now.named Edges)
        → HasLive edges.old (number x) }
    ensures live { Clears bare_edge edges.old.live edges.new.live (list_at lists.now.named Edges) }
    ensures made { edges.new.made ≡ edges.old.made }
{
    let mut at = lists.first(head.full);
    for _turn in 0..lists.len(head.full) {
        let Some(m) = at else { unreachable!() };
        let serial = lists.number(m);
        set_mark(edges, EdgeItem(Item { slot: 0, serial }), false);
        at = lists.next(m);
    }
}

impl Graph {
    /// Restores every node and every edge that is hidden, each to the place that it has kept. It
    /// takes no memory, and time linear in the whole graph.
    pub fn restore_all(&mut self)
        ensures { self.new ≡ all_restored self.old }
    {
        let Some(heads) = &self.heads else { return };
        show_all(&mut self.lists, heads, &self.nodes, &self.edges);
        clear_nodes(&self.lists, &mut self.nodes, &heads.nodes);
        clear_edges(&self.lists, &mut self.edges, &heads.edges);
        show(&mut self.seen, 0, 0, 0);
    }
}
