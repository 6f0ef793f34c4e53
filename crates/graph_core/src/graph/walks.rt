//! The lists of the graph, as rows: what shows of them, and the node list and the edge list whole.
ghost use Rattle.std.specs.Prelude.{◌≡◌, ℕ, Bool, map, IfOk, IfErr, OnOk, [], ◌∷◌};
ghost use Rattle.leda_base.specs.declared.name.ItemName.TheVariants as names;
ghost use Rattle.graph_defs.specs.declared.dart.Dart.{Dart};
ghost use Rattle.graph_state.specs.declared.item.NodeItem.{NodeItem};
ghost use Rattle.graph_state.specs.declared.item.EdgeItem.{EdgeItem};
ghost use Rattle.graph_state.specs.declared.name.ListName.{ListName};
ghost use Rattle.graph_state.specs.declared.name.Element.{Element};
ghost use Rattle.graph_state.specs.State.{visible_nodes, visible_edges, visible_out, visible_in};
ghost use Rattle.graph_state.specs.Names.{number};
ghost use Rattle.graph_state.specs.Refusals.{AreVisible, RefusesList};
ghost use Rattle.graph_lists.specs.Named.{seen_list};
ghost use Rattle.graph_lists.specs.Heads.{IsHeadOf, IsMemberOf};
ghost use Rattle.graph_core.specs.Members.{HasValue, HaveValues};

use super::Graph;
use graph_lists::{Head, Lists, Member};
use graph_state::{EdgeItem, EditRefusal, NodeItem};
use item_pool::{Item, Pool};
use leda_base::{NoMemory, Row};
use std::alloc::Global;

/// A node or an edge, by the item of what is kept for it.
trait ByItem: Drop {
    ghost serial: { Self → ℕ };

    fn by(item: Item) -> Self
        ensures { serial result ≡ item.serial };
}

impl ByItem for NodeItem {
    ghost serial = { λ v. v.0.serial };

    fn by(item: Item) -> NodeItem {
        NodeItem(item)
    }
}

impl ByItem for EdgeItem {
    ghost serial = { λ e. e.0.serial };

    fn by(item: Item) -> EdgeItem {
        EdgeItem(item)
    }
}

/// The item of what is kept for the element that the member is of.
pub(super) fn item_at<T>(lists: &Lists, cells: &Pool<T>, m: Member) -> Item
    requires { HasValue lists.now cells.now m }
    ensures { (b : Bool) (x : Element)
        → IsMemberOf lists.now.named b x m → result.serial ≡ number x }
{
    match cells.item(lists.number(m)) {
        Ok(item) => item,
        Err(_) => unreachable!(),
    }
}

/// The items of the nodes in a ring, of the edges in one, or of the edges of the darts in one, in
/// their order.
fn items_in<T, I: ByItem>(
    alloc: Global,
    lists: &Lists,
    cells: &Pool<T>,
    head: Head,
) -> Result<Row<I>, NoMemory>
    requires { HaveValues lists.now cells.now head }
    ensures { IfOk result (λ row. (b : Bool) (l : ListName) → IsHeadOf lists.now.named b l head
        → map I.serial row ≡ map number (seen_list lists.now.named b l)) }
{
    let count = lists.len(head);
    let mut row = Row::with_room(alloc, count as usize)?;
    let mut at = lists.first(head);
    for _turn in 0..count {
        let Some(m) = at else { unreachable!() };
        row.push(I::by(item_at(lists, cells, m)))?;
        at = lists.next(m);
    }
    Ok(row)
}

impl Graph {
    /// The visible nodes in their order.
    ///
    /// # Errors
    ///
    /// `NoMemory` where there is no memory.
    pub fn nodes(&self, alloc: Global) -> Result<Row<NodeItem>, NoMemory>
        ensures { IfOk result
            (λ row. map (λ (v : NodeItem). v.0.serial) row ≡ visible_nodes self.now) }
    {
        match &self.heads {
            Some(heads) => items_in(alloc, &self.lists, &self.nodes, heads.nodes.shown),
            None => Ok(Row::new(alloc)),
        }
    }

    /// The visible edges in their order.
    ///
    /// # Errors
    ///
    /// `NoMemory` where there is no memory.
    pub fn edges(&self, alloc: Global) -> Result<Row<EdgeItem>, NoMemory>
        ensures { IfOk result
            (λ row. map (λ (e : EdgeItem). e.0.serial) row ≡ visible_edges self.now) }
    {
        match &self.heads {
            Some(heads) => items_in(alloc, &self.lists, &self.edges, heads.edges.shown),
            None => Ok(Row::new(alloc)),
        }
    }

    /// Every node in the order of the node list, hidden ones too.
    ///
    /// # Errors
    ///
    /// `NoMemory` where there is no memory.
    pub fn live_nodes(&self, alloc: Global) -> Result<Row<NodeItem>, NoMemory>
        ensures { IfOk result (λ row. map (λ (v : NodeItem). v.0.serial) row ≡ self.now.nodes) }
    {
        match &self.heads {
            Some(heads) => items_in(alloc, &self.lists, &self.nodes, heads.nodes.full),
            None => Ok(Row::new(alloc)),
        }
    }

    /// Every edge in the order of the edge list, hidden ones too.
    ///
    /// # Errors
    ///
    /// `NoMemory` where there is no memory.
    pub fn live_edges(&self, alloc: Global) -> Result<Row<EdgeItem>, NoMemory>
        ensures { IfOk result (λ row. map (λ (e : EdgeItem). e.0.serial) row ≡ self.now.edges) }
    {
        match &self.heads {
            Some(heads) => items_in(alloc, &self.lists, &self.edges, heads.edges.full),
            None => Ok(Row::new(alloc)),
        }
    }

    /// The edges of the visible out list of the node: in an undirected graph a loop stands there
    /// twice.
    ///
    /// # Errors
    ///
    /// `Gone` where the node is dead or unknown, `Hidden` where it isn't visible, and `NoMemory`
    /// where there is no memory.
    pub fn out_edges(&self, alloc: Global, v: NodeItem) -> Result<Row<EdgeItem>, EditRefusal>
        ensures visible { OnOk result (AreVisible self.now (names.Node v.0.serial ∷ [])) }
        ensures edges { IfOk result (λ row. map (λ (e : EdgeItem). e.0.serial) row
            ≡ map (λ (d : Dart). d.edge) (visible_out self.now v.0.serial)) }
        ensures err { IfErr result (RefusesList self.now (names.Node v.0.serial ∷ [])) }
    {
        self.see_node(v)?;
        let Ok(cell) = self.nodes.get(v.0) else {
            unreachable!()
        };
        Ok(items_in(alloc, &self.lists, &self.edges, cell.outs.shown)?)
    }

    /// The edges of the visible in list of the node, which is empty in an undirected graph.
    ///
    /// # Errors
    ///
    /// As those of `out_edges`.
    pub fn in_edges(&self, alloc: Global, v: NodeItem) -> Result<Row<EdgeItem>, EditRefusal>
        ensures visible { OnOk result (AreVisible self.now (names.Node v.0.serial ∷ [])) }
        ensures edges { IfOk result (λ row. map (λ (e : EdgeItem). e.0.serial) row
            ≡ map (λ (d : Dart). d.edge) (visible_in self.now v.0.serial)) }
        ensures err { IfErr result (RefusesList self.now (names.Node v.0.serial ∷ [])) }
    {
        self.see_node(v)?;
        let Ok(cell) = self.nodes.get(v.0) else {
            unreachable!()
        };
        Ok(items_in(alloc, &self.lists, &self.edges, cell.ins.shown)?)
    }
}
