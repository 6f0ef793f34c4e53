//! Nodes that are hidden and restored, with their edges.
ghost use Rattle.std.specs.Prelude.{◌≡◌, Bool, true, false, not, Some};
ghost use Rattle.std.specs.FinMap as map;
ghost use Rattle.std.specs.FinSet as set;
ghost use Rattle.item_pool.specs.Contents.{HasLive};
ghost use Rattle.leda_base.specs.declared.name.ItemName.TheVariants as names;
ghost use Rattle.graph_state.specs.Names.{Has};
ghost use Rattle.graph_state.specs.Edits.{node_hidden, node_restored};
ghost use Rattle.graph_state.specs.Refusals.{IsThere};
ghost use Rattle.graph_lists.specs.Named.{head_at, hook_at, list_at, SameRoom};
ghost use Rattle.graph_core.specs.declared.cell.NodeCell.{NodeCell};
ghost use Rattle.graph_core.specs.Marks.{Marks, MarksIf, HasTokens};
ghost use Rattle.graph_core.specs.NodeMarks.{turns, CanTurn, CanTurnAll, TurnsAll, CanTurnNode, TurnsNode};

use super::super::Graph;
use super::{hide_element, hide_parts, show_element, show_parts};
use crate::cell::{EdgeCell, Heads, NodeCell};
use crate::seen::show;
use graph_lists::{Hook, ListHead, Lists};
use graph_state::{Element, ListName, NodeItem};
use item_pool::{Item, Pool};

/// Sets the mark of a node, which says whether it is hidden by itself.
pub(super) fn set_node_mark(nodes: &mut Pool<NodeCell>, v: NodeItem, hidden: bool)
    requires { HasLive nodes.old v.0.serial }
    ensures live { (c : NodeCell) → map.get nodes.old.live v.0.serial ≡ Some c
        → nodes.new.live ≡ map.insert nodes.old.live v.0.serial (record c { is_hidden = hidden }) }
    ensures made { nodes.new.made ≡ nodes.old.made }
{
    if let Ok(cell) = nodes.get_mut(v.0) {
        cell.is_hidden = hidden;
    }
}

/// The element, which stands in the list, shows from here on, or doesn't.
fn turn_element(
    lists: &mut Lists,
    nodes: &Pool<NodeCell>,
    edges: &Pool<EdgeCell>,
    list: ListName,
    head: &ListHead,
    x: Element,
    hook: &Hook,
    shows: bool,
)
    requires head { head_at lists.old.named list ≡ Some head.now }
    requires hook { hook_at lists.old.named x ≡ Some hook.now }
    requires there { Has x (list_at lists.old.named list) }
    requires tokens { HasTokens lists.old.named nodes.now edges.now list }
    ensures named { Marks lists.old.named lists.new.named x shows }
    ensures room { SameRoom lists.old lists.new }
{
    if shows {
        show_element(lists, nodes, edges, list, head, x, hook);
    } else {
        hide_element(lists, x, hook);
    }
}

/// The edge and its darts show from here on, where neither it nor an end of it is hidden, or they
/// don't.
fn turn_edge(
    lists: &mut Lists,
    heads: &Heads,
    nodes: &Pool<NodeCell>,
    edges: &Pool<EdgeCell>,
    directed: bool,
    e: u32,
    shows: bool,
)
    requires { CanTurn lists.old.named nodes.now edges.now heads.now.edges directed e }
    ensures named { MarksIf (turns shows nodes.now.live edges.now.live e)
        lists.old.named lists.new.named e shows }
    ensures room { SameRoom lists.old lists.new }
{
    let Ok(cell) = edges.get(Item { slot: 0, serial: e }) else {
        unreachable!()
    };
    if !shows {
        hide_parts(lists, e, cell);
    } else if !cell.is_hidden {
        show_parts(lists, heads, nodes, edges, directed, e, cell);
    }
}

/// The same of each edge that has a dart in the list.
fn turn_edges(
    lists: &mut Lists,
    heads: &Heads,
    nodes: &Pool<NodeCell>,
    edges: &Pool<EdgeCell>,
    directed: bool,
    list: ListName,
    head: &ListHead,
    shows: bool,
)
    requires head { head_at lists.old.named list ≡ Some head.now }
    requires edges { CanTurnAll lists.old.named nodes.now edges.now heads.now.edges directed list }
    ensures named { TurnsAll (turns shows nodes.now.live edges.now.live) shows
        lists.old.named lists.new.named (list_at lists.old.named list) }
    ensures room { SameRoom lists.old lists.new }
{
    let mut at = lists.first(head.full);
    for _turn in 0..lists.len(head.full) {
        let Some(m) = at else { unreachable!() };
        let e = lists.number(m);
        turn_edge(lists, heads, nodes, edges, directed, e, shows);
        at = lists.next(m);
    }
}

/// The node shows from here on, with its edges of which neither they nor the other end is hidden,
/// or the node and all its edges don't.
fn turn_node(
    lists: &mut Lists,
    heads: &Heads,
    nodes: &Pool<NodeCell>,
    edges: &Pool<EdgeCell>,
    directed: bool,
    v: u32,
    cell: &NodeCell,
    shows: bool,
)
    requires { CanTurnNode lists.old.named nodes.now edges.now heads.now directed v cell.now }
    ensures named { TurnsNode (turns shows nodes.now.live edges.now.live) shows
        lists.old.named lists.new.named v }
    ensures room { SameRoom lists.old lists.new }
{
    let node = Element::Node(v);
    let (outs, ins) = (ListName::Out(v), ListName::In(v));
    turn_element(
        lists,
        nodes,
        edges,
        ListName::Nodes,
        &heads.nodes,
        node,
        &cell.hook,
        shows,
    );
    turn_edges(
        lists, heads, nodes, edges, directed, outs, &cell.outs, shows,
    );
    turn_edges(lists, heads, nodes, edges, directed, ins, &cell.ins, shows);
}

impl Graph {
    /// Hides a node, which isn't hidden by itself. No edge that has an end there shows any more. It
    /// takes no memory, and time linear in the edges that have an end there.
    pub fn hide_node(&mut self, v: NodeItem)
        requires live { IsThere self.old (names.Node v.0.serial) }
        requires unhidden { set.contains self.old.hidden_nodes v.0.serial ≡ false }
        ensures { self.new ≡ node_hidden v.0.serial self.old }
    {
        set_node_mark(&mut self.nodes, v, true);
        let Ok(cell) = self.nodes.get(v.0) else {
            unreachable!()
        };
        let Some(heads) = &self.heads else {
            unreachable!()
        };
        turn_node(
            &mut self.lists,
            heads,
            &self.nodes,
            &self.edges,
            self.directed,
            v.0.serial,
            cell,
            false,
        );
        show(&mut self.seen, v.0.serial, 0, 0);
    }

    /// Restores a node, which is hidden by itself, and with it each edge that has an end there and
    /// is hidden neither by itself nor by its other end. All go to the places that they have kept.
    /// It takes no memory, and for each of these edges the time that it takes to restore the edge.
    pub fn restore_node(&mut self, v: NodeItem)
        requires live { IsThere self.old (names.Node v.0.serial) }
        requires hidden { set.contains self.old.hidden_nodes v.0.serial ≡ true }
        ensures { self.new ≡ node_restored v.0.serial self.old }
    {
        set_node_mark(&mut self.nodes, v, false);
        let Ok(cell) = self.nodes.get(v.0) else {
            unreachable!()
        };
        let Some(heads) = &self.heads else {
            unreachable!()
        };
        turn_node(
            &mut self.lists,
            heads,
            &self.nodes,
            &self.edges,
            self.directed,
            v.0.serial,
            cell,
            true,
        );
        show(&mut self.seen, v.0.serial, 0, 0);
    }
}
