//! Looks at nodes and edges.
ghost use Rattle.std.specs.Prelude.{◌≡◌, Bool, [], ◌∷◌, Option, Some, None, option_map, IfOk, IfErr, OnOk, MatchResult};
ghost use Rattle.leda_base.specs.declared.name.ItemName.TheVariants as names;
ghost use Rattle.graph_state.specs.declared.item.EdgeItem.{EdgeItem};
ghost use Rattle.graph_state.specs.declared.name.Element.{Element};
ghost use Rattle.graph_state.specs.State.{source, target, node_label, edge_label, visible_out};
ghost use Rattle.graph_state.specs.Names.{number, first_of, last_of};
ghost use Rattle.graph_state.specs.Refusals.{AreVisible, RefusesLook, IsThere, IsGone};
ghost use Rattle.graph_lists.specs.Heads.{IsMemberOf, Finds};
ghost use Rattle.graph_core.specs.Looks.{IsEdgeOf, IsBehind, IsBefore, IsCyclicBehind, IsCyclicBefore};
ghost use Rattle.graph_core.specs.Members.{HasEdge, MayHaveEdge};

use super::Graph;
use super::walks::item_at;
use crate::cell::EdgeCell;
use graph_lists::{Lists, Member};
use graph_state::{EdgeItem, Gone, LookRefusal, NodeItem};
use item_pool::Pool;

/// The item of the edge that the member is of.
pub(super) fn edge_at(lists: &Lists, edges: &Pool<EdgeCell>, m: Member) -> EdgeItem
    requires { HasEdge lists.now edges.now m }
    ensures { (b : Bool) (x : Element)
        → IsMemberOf lists.now.named b x m → result.0.serial ≡ number x }
{
    EdgeItem(item_at(lists, edges, m))
}

/// The item of the edge that the member is of, where there is one.
pub(super) fn may_edge_at(
    lists: &Lists,
    edges: &Pool<EdgeCell>,
    m: Option<Member>,
) -> Option<EdgeItem>
    requires { MayHaveEdge lists.now edges.now m }
    ensures { (b : Bool) (o : Option Element) → Finds lists.now.named b m o
        → option_map (λ (e : EdgeItem). e.0.serial) result ≡ option_map number o }
{
    match m {
        Some(member) => Some(edge_at(lists, edges, member)),
        None => None,
    }
}

impl Graph {
    /// The node where the edge begins.
    ///
    /// # Errors
    ///
    /// `Gone` where the edge is dead or unknown, and `Hidden` where it isn't visible.
    pub fn source(&self, e: EdgeItem) -> Result<NodeItem, LookRefusal>
        ensures visible { OnOk result (AreVisible self.now (names.Edge e.0.serial ∷ [])) }
        ensures node { IfOk result (λ v. v.0.serial ≡ source self.now e.0.serial) }
        ensures err { IfErr result (RefusesLook self.now (names.Edge e.0.serial ∷ [])) }
    {
        let cell = self.see_edge(e)?;
        let Ok(item) = self.nodes.item(cell.from) else {
            unreachable!()
        };
        Ok(NodeItem(item))
    }

    /// The node where the edge ends.
    ///
    /// # Errors
    ///
    /// As those of `source`.
    pub fn target(&self, e: EdgeItem) -> Result<NodeItem, LookRefusal>
        ensures visible { OnOk result (AreVisible self.now (names.Edge e.0.serial ∷ [])) }
        ensures node { IfOk result (λ v. v.0.serial ≡ target self.now e.0.serial) }
        ensures err { IfErr result (RefusesLook self.now (names.Edge e.0.serial ∷ [])) }
    {
        let cell = self.see_edge(e)?;
        let Ok(item) = self.nodes.item(cell.to) else {
            unreachable!()
        };
        Ok(NodeItem(item))
    }

    /// The label of the node.
    ///
    /// # Errors
    ///
    /// `Gone` where the node is dead or unknown, and `Hidden` where it isn't visible.
    pub fn node_label(&self, v: NodeItem) -> Result<&[u8], LookRefusal>
        ensures visible { OnOk result (AreVisible self.now (names.Node v.0.serial ∷ [])) }
        ensures label { IfOk result (λ label. label.now ≡ node_label self.now v.0.serial) }
        ensures err { IfErr result (RefusesLook self.now (names.Node v.0.serial ∷ [])) }
    {
        let cell = self.see_node(v)?;
        Ok(cell.label.as_slice())
    }

    /// The label of the edge.
    ///
    /// # Errors
    ///
    /// As those of `source`.
    pub fn edge_label(&self, e: EdgeItem) -> Result<&[u8], LookRefusal>
        ensures visible { OnOk result (AreVisible self.now (names.Edge e.0.serial ∷ [])) }
        ensures label { IfOk result (λ label. label.now ≡ edge_label self.now e.0.serial) }
        ensures err { IfErr result (RefusesLook self.now (names.Edge e.0.serial ∷ [])) }
    {
        let cell = self.see_edge(e)?;
        Ok(cell.label.as_slice())
    }

    /// The label of the node, hidden or not.
    ///
    /// # Errors
    ///
    /// `Dead` where the number was given and the node is gone, and `Unknown` where it wasn't given.
    pub fn live_node_label(&self, v: NodeItem) -> Result<&[u8], Gone>
        ensures { MatchResult result
            (λ label. IsThere self.now (names.Node v.0.serial)
            × (label.now ≡ node_label self.now v.0.serial))
            (IsGone self.now (names.Node v.0.serial)) }
    {
        match self.nodes.get(v.0) {
            Ok(cell) => Ok(cell.label.as_slice()),
            Err(why) => Err(why),
        }
    }

    /// The label of the edge, hidden or not.
    ///
    /// # Errors
    ///
    /// As those of `live_node_label`.
    pub fn live_edge_label(&self, e: EdgeItem) -> Result<&[u8], Gone>
        ensures { MatchResult result
            (λ label. IsThere self.now (names.Edge e.0.serial)
            × (label.now ≡ edge_label self.now e.0.serial))
            (IsGone self.now (names.Edge e.0.serial)) }
    {
        match self.edges.get(e.0) {
            Ok(cell) => Ok(cell.label.as_slice()),
            Err(why) => Err(why),
        }
    }

    /// The first edge of the visible out list, and none exactly where it is empty.
    ///
    /// # Errors
    ///
    /// As those of `node_label`.
    pub fn out_first(&self, v: NodeItem) -> Result<Option<EdgeItem>, LookRefusal>
        ensures visible { OnOk result (AreVisible self.now (names.Node v.0.serial ∷ [])) }
        ensures edge { IfOk result (λ r. IsEdgeOf r (first_of (visible_out self.now v.0.serial))) }
        ensures err { IfErr result (RefusesLook self.now (names.Node v.0.serial ∷ [])) }
    {
        self.see_node(v)?;
        let Ok(cell) = self.nodes.get(v.0) else {
            unreachable!()
        };
        let first = self.lists.first(cell.outs.shown);
        Ok(may_edge_at(&self.lists, &self.edges, first))
    }

    /// The last edge of the visible out list, and none exactly where it is empty.
    ///
    /// # Errors
    ///
    /// As those of `node_label`.
    pub fn out_last(&self, v: NodeItem) -> Result<Option<EdgeItem>, LookRefusal>
        ensures visible { OnOk result (AreVisible self.now (names.Node v.0.serial ∷ [])) }
        ensures edge { IfOk result (λ r. IsEdgeOf r (last_of (visible_out self.now v.0.serial))) }
        ensures err { IfErr result (RefusesLook self.now (names.Node v.0.serial ∷ [])) }
    {
        self.see_node(v)?;
        let Ok(cell) = self.nodes.get(v.0) else {
            unreachable!()
        };
        let last = self.lists.last(cell.outs.shown);
        Ok(may_edge_at(&self.lists, &self.edges, last))
    }

    /// The edge behind e in the visible out list of its source, and none exactly where e is the
    /// last.
    ///
    /// # Errors
    ///
    /// As those of `source`.
    pub fn adj_succ(&self, e: EdgeItem) -> Result<Option<EdgeItem>, LookRefusal>
        ensures visible { OnOk result (AreVisible self.now (names.Edge e.0.serial ∷ [])) }
        ensures edge { IfOk result (IsBehind self.now e.0.serial) }
        ensures err { IfErr result (RefusesLook self.now (names.Edge e.0.serial ∷ [])) }
    {
        self.see_edge(e)?;
        let Ok(cell) = self.edges.get(e.0) else {
            unreachable!()
        };
        let next = self.lists.next(cell.front.shown);
        Ok(may_edge_at(&self.lists, &self.edges, next))
    }

    /// The edge before e in the visible out list of its source, and none exactly where e is the
    /// first.
    ///
    /// # Errors
    ///
    /// As those of `source`.
    pub fn adj_pred(&self, e: EdgeItem) -> Result<Option<EdgeItem>, LookRefusal>
        ensures visible { OnOk result (AreVisible self.now (names.Edge e.0.serial ∷ [])) }
        ensures edge { IfOk result (IsBefore self.now e.0.serial) }
        ensures err { IfErr result (RefusesLook self.now (names.Edge e.0.serial ∷ [])) }
    {
        self.see_edge(e)?;
        let Ok(cell) = self.edges.get(e.0) else {
            unreachable!()
        };
        let prev = self.lists.prev(cell.front.shown);
        Ok(may_edge_at(&self.lists, &self.edges, prev))
    }

    /// The edge behind e in the visible out list of its source, and the first behind the last.
    ///
    /// # Errors
    ///
    /// As those of `source`.
    pub fn cyclic_adj_succ(&self, e: EdgeItem) -> Result<EdgeItem, LookRefusal>
        ensures visible { OnOk result (AreVisible self.now (names.Edge e.0.serial ∷ [])) }
        ensures edge { IfOk result (IsCyclicBehind self.now e.0.serial) }
        ensures err { IfErr result (RefusesLook self.now (names.Edge e.0.serial ∷ [])) }
    {
        self.see_edge(e)?;
        let Ok(cell) = self.edges.get(e.0) else {
            unreachable!()
        };
        let next = self.lists.cyclic_next(cell.front.shown);
        Ok(edge_at(&self.lists, &self.edges, next))
    }

    /// The edge before e in the visible out list of its source, and the last before the first.
    ///
    /// # Errors
    ///
    /// As those of `source`.
    pub fn cyclic_adj_pred(&self, e: EdgeItem) -> Result<EdgeItem, LookRefusal>
        ensures visible { OnOk result (AreVisible self.now (names.Edge e.0.serial ∷ [])) }
        ensures edge { IfOk result (IsCyclicBefore self.now e.0.serial) }
        ensures err { IfErr result (RefusesLook self.now (names.Edge e.0.serial ∷ [])) }
    {
        self.see_edge(e)?;
        let Ok(cell) = self.edges.get(e.0) else {
            unreachable!()
        };
        let prev = self.lists.cyclic_prev(cell.front.shown);
        Ok(edge_at(&self.lists, &self.edges, prev))
    }
}
