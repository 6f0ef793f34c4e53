//! New nodes and edges.
ghost use Rattle.std.specs.Prelude.{◌≡◌, ℕ, ◌+◌, ◌*◌, ◌<◌, ◌≤◌, [], ◌∷◌, Some, None, cond, IfOk, IfErr, OnOk, OnErr};
ghost use Rattle.item_ring.specs.declared.rings.TheConstants.{MOST_NODES};
ghost use Rattle.item_pool.specs.Contents.{IsAsBefore};
ghost use Rattle.leda_base.specs.declared.name.ItemName.TheVariants as names;
ghost use Rattle.graph_state.specs.declared.name.ListName.TheVariants.{Nodes, Edges, Out, In};
ghost use Rattle.graph_state.specs.Names.{back_row};
ghost use Rattle.graph_state.specs.Formed.{IsLabel};
ghost use Rattle.graph_state.specs.Edits.{with_node, with_edge};
ghost use Rattle.graph_state.specs.Refusals.{AreVisible, NodeRoom, RefusesNode, EdgeRoom, RefusesEdge};
ghost use Rattle.graph_lists.specs.Named.{head_at};
ghost use Rattle.graph_core.specs.Steps.{IsClosed, Opens, EntersNode, CanEnterNode, CanEnterEdge, EntersEdge};

use super::Graph;
use crate::cell::{EdgeCell, Heads, NodeCell};
use crate::seen::show_label;
use graph_lists::{ListHead, Lists};
use graph_state::{Dart, EdgeItem, EditRefusal, Element, ListName, NodeItem};
use item_pool::{Item, Pool};
use leda_base::{NoMemory, Row};

/// Makes room for one value more, and for so many lists and elements.
pub(super) fn make_room<T>(
    lists: &mut Lists,
    pool: &mut Pool<T>,
    more: u32,
    elements: u32,
) -> Result<(), NoMemory>
    requires lists { lists.old.heads + 2 * more ≤ MOST_NODES }
    requires elements { lists.old.members + 2 * elements ≤ MOST_NODES }
    ensures heads { OnOk result (2 * more ≤ lists.new.spare_heads) }
    ensures members { OnOk result (2 * elements ≤ lists.new.spare_members) }
    ensures pool { OnOk result (0 < pool.new.spare) }
    ensures named { lists.new.named ≡ lists.old.named }
    ensures same { (lists.new.heads ≡ lists.old.heads) × (lists.new.members ≡ lists.old.members) }
    ensures kept { IsAsBefore pool.old pool.new }
{
    match pool.reserve(1) {
        Ok(()) => lists.reserve(more, elements),
        Err(_) => Err(NoMemory),
    }
}

/// Makes the heads of the node list and of the edge list, where there are none.
fn open(lists: &mut Lists, heads: &mut Option<Heads>)
    requires spare { heads.old ≡ None → 4 ≤ lists.old.spare_heads }
    requires few { lists.old.heads + 4 ≤ MOST_NODES }
    requires fresh { heads.old ≡ None → IsClosed lists.old }
    ensures { Opens lists.old lists.new heads.old heads.new }
{
    if heads.is_none() {
        let nodes = lists.add_list(ListName::Nodes);
        let edges = lists.add_list(ListName::Edges);
        *heads = Some(Heads { nodes, edges });
    }
}

/// Takes a node in under the next number, at the rear of the node list.
fn enter_node(
    lists: &mut Lists,
    nodes: &mut Pool<NodeCell>,
    head: &ListHead,
    label: Row<u8>,
) -> Item
    requires { CanEnterNode lists.old nodes.old head.now }
    ensures { EntersNode lists.old lists.new nodes.old nodes.new head.now label result }
{
    let v = nodes.made() + 1;
    let outs = lists.add_list(ListName::Out(v));
    let ins = lists.add_list(ListName::In(v));
    let hook = lists.add_element(Element::Node(v));
    lists.push_back(ListName::Nodes, head, Element::Node(v), &hook, true);
    nodes.insert_reserved(NodeCell {
        label,
        is_hidden: false,
        hook,
        outs,
        ins,
    })
}

/// The list of the darts that end at a node.
pub(super) fn back_name(directed: bool, to: u32) -> ListName
    ensures { result ≡ back_row directed to }
{
    if directed {
        ListName::In(to)
    } else {
        ListName::Out(to)
    }
}

/// The heads of that list.
pub(super) fn back_head(directed: bool, cell: &NodeCell) -> &ListHead
    ensures { result.now ≡ cond directed cell.now.ins cell.now.outs }
{
    if directed { &cell.ins } else { &cell.outs }
}

/// Where an edge goes: its two nodes, and the list of the darts that end at the second.
#[derive(Clone, Copy)]
pub(super) struct Ends {
    pub from: u32,
    pub to: u32,
    pub row: ListName,
}

/// Takes an edge in under the next number, with its darts at the rear of their lists.
fn enter_edge(
    lists: &mut Lists,
    edges: &mut Pool<EdgeCell>,
    ends: Ends,
    head: &ListHead,
    outs: &ListHead,
    ins: &ListHead,
    label: Row<u8>,
) -> Item
    requires room { CanEnterEdge lists.old edges.old }
    requires edges { head_at lists.old.named Edges ≡ Some head.now }
    requires outs { head_at lists.old.named (Out ends.from) ≡ Some outs.now }
    requires ins { head_at lists.old.named ends.row ≡ Some ins.now }
    ensures { EntersEdge lists.old lists.new edges.old edges.new
        ends.row ends.from ends.to label result }
{
    let e = edges.made() + 1;
    let front = Element::End(Dart {
        edge: e,
        back: false,
    });
    let back = Element::End(Dart {
        edge: e,
        back: true,
    });
    let hook = lists.add_element(Element::Edge(e));
    let first = lists.add_element(front);
    let second = lists.add_element(back);
    lists.push_back(ListName::Edges, head, Element::Edge(e), &hook, true);
    lists.push_back(ListName::Out(ends.from), outs, front, &first, true);
    lists.push_back(ends.row, ins, back, &second, true);
    edges.insert_reserved(EdgeCell {
        label,
        from: ends.from,
        to: ends.to,
        reversal: None,
        is_hidden: false,
        hook,
        front: first,
        back: second,
    })
}

impl Graph {
    /// A new node with the label, at the rear of the node list.
    ///
    /// # Errors
    ///
    /// `FullNodes` exactly where there are 100,000 nodes, else `Spent` exactly where 16,777,215
    /// were made, and `NoMemory` where there is no memory. The label is then dropped.
    pub fn new_node(&mut self, label: Row<u8>) -> Result<NodeItem, EditRefusal>
        requires { IsLabel label }
        ensures room { OnOk result (NodeRoom self.old) }
        ensures item { IfOk result (λ v. v.0.serial ≡ self.old.made_nodes + 1) }
        ensures state { OnOk result (self.new ≡ with_node label self.old) }
        ensures err { IfErr result (RefusesNode self.old) }
        ensures same { OnErr result (self.new ≡ self.old) }
    {
        self.check_nodes()?;
        if make_room(&mut self.lists, &mut self.nodes, 4, 1).is_err() {
            return Err(EditRefusal::NoMemory);
        }
        open(&mut self.lists, &mut self.heads);
        let Some(heads) = &self.heads else {
            unreachable!()
        };
        show_label(&mut self.seen, 0, 0, &label);
        let item = enter_node(&mut self.lists, &mut self.nodes, &heads.nodes, label);
        Ok(NodeItem(item))
    }

    /// A new edge from v to w with the label, at the rear of the edge list. Its front dart goes to
    /// the rear of the out list of v, and its back dart to the rear of the in list of w, or of the
    /// out list in an undirected graph.
    ///
    /// # Errors
    ///
    /// `Gone` for the leftmost node that is dead or unknown, else `Hidden` for the leftmost one
    /// that isn't visible. Else `FullEdges` exactly where there are 400,000 edges, else `Spent`
    /// exactly where 16,777,215 were made, and `NoMemory` where there is no memory. The label is
    /// then dropped.
    pub fn new_edge(
        &mut self,
        v: NodeItem,
        w: NodeItem,
        label: Row<u8>,
    ) -> Result<EdgeItem, EditRefusal>
        requires { IsLabel label }
        ensures visible { OnOk result
            (AreVisible self.old (names.Node v.0.serial ∷ names.Node w.0.serial ∷ [])) }
        ensures room { OnOk result (EdgeRoom self.old) }
        ensures item { IfOk result (λ e. e.0.serial ≡ self.old.made_edges + 1) }
        ensures state { OnOk result (self.new ≡ with_edge v.0.serial w.0.serial label self.old) }
        ensures err { IfErr result
            (RefusesEdge self.old (names.Node v.0.serial ∷ names.Node w.0.serial ∷ [])) }
        ensures same { OnErr result (self.new ≡ self.old) }
    {
        self.see_ends(v, w)?;
        self.check_edges()?;
        if make_room(&mut self.lists, &mut self.edges, 0, 3).is_err() {
            return Err(EditRefusal::NoMemory);
        }
        let (Some(heads), Ok(from), Ok(to)) = (
            &self.heads,
            self.nodes.get(v.0),
            self.nodes.get(w.0),
        ) else {
            unreachable!()
        };
        show_label(&mut self.seen, v.0.serial, w.0.serial, &label);
        let ends = Ends {
            from: v.0.serial,
            to: w.0.serial,
            row: back_name(self.directed, w.0.serial),
        };
        let ins = back_head(self.directed, to);
        let item = enter_edge(
            &mut self.lists,
            &mut self.edges,
            ends,
            &heads.edges,
            &from.outs,
            ins,
            label,
        );
        Ok(EdgeItem(item))
    }
}
