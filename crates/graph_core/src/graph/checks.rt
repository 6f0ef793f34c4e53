//! Whether items are there and show, and whether there can be more.
ghost use Rattle.std.specs.Prelude.{[], ◌∷◌, MatchResult, OnOk};
ghost use Rattle.leda_base.specs.declared.name.ItemName.TheVariants as names;
ghost use Rattle.graph_state.specs.Refusals.{AreVisible, IsGoneOf, RefusesLook, NodeRoom, EdgeRoom, FullNode, FullEdge};
ghost use Rattle.graph_core.specs.Kept.{IsNodeCell, IsEdgeCell};

use super::Graph;
use crate::cell::{EdgeCell, NodeCell};
use graph_defs::{ARC_LIMIT, NODE_LIMIT};
use graph_state::{EdgeItem, EditRefusal, Element, ItemName, LookRefusal, NodeItem};
use item_pool::MOST_SERIALS;

impl Graph {
    /// The cell of a node, hidden or not.
    pub(super) fn live_node(&self, v: NodeItem) -> Result<&NodeCell, LookRefusal>
        ensures { MatchResult result (λ cell. IsNodeCell self.now v.0.serial cell.now)
            (IsGoneOf self.now (names.Node v.0.serial)) }
    {
        match self.nodes.get(v.0) {
            Ok(cell) => Ok(cell),
            Err(why) => Err(LookRefusal::Gone(ItemName::Node(v.0.serial), why)),
        }
    }

    /// The cell of an edge, hidden or not.
    pub(super) fn live_edge(&self, e: EdgeItem) -> Result<&EdgeCell, LookRefusal>
        ensures { MatchResult result (λ cell. IsEdgeCell self.now e.0.serial cell.now)
            (IsGoneOf self.now (names.Edge e.0.serial)) }
    {
        match self.edges.get(e.0) {
            Ok(cell) => Ok(cell),
            Err(why) => Err(LookRefusal::Gone(ItemName::Edge(e.0.serial), why)),
        }
    }

    /// The cell of a visible node.
    pub(super) fn see_node(&self, v: NodeItem) -> Result<&NodeCell, LookRefusal>
        ensures cell { MatchResult result (λ cell. IsNodeCell self.now v.0.serial cell.now)
            (RefusesLook self.now (names.Node v.0.serial ∷ [])) }
        ensures visible { OnOk result (AreVisible self.now (names.Node v.0.serial ∷ [])) }
    {
        let cell = self.live_node(v)?;
        if cell.is_hidden {
            return Err(LookRefusal::Hidden(ItemName::Node(v.0.serial)));
        }
        Ok(cell)
    }

    /// The cell of a visible edge.
    pub(super) fn see_edge(&self, e: EdgeItem) -> Result<&EdgeCell, LookRefusal>
        ensures cell { MatchResult result (λ cell. IsEdgeCell self.now e.0.serial cell.now)
            (RefusesLook self.now (names.Edge e.0.serial ∷ [])) }
        ensures visible { OnOk result (AreVisible self.now (names.Edge e.0.serial ∷ [])) }
    {
        match self.edges.get(e.0) {
            Ok(cell) => {
                if self.lists.is_shown(Element::Edge(e.0.serial), &cell.hook) {
                    Ok(cell)
                } else {
                    Err(LookRefusal::Hidden(ItemName::Edge(e.0.serial)))
                }
            }
            Err(why) => Err(LookRefusal::Gone(ItemName::Edge(e.0.serial), why)),
        }
    }

    /// Refuses two nodes of which one isn't visible.
    pub(super) fn see_ends(&self, v: NodeItem, w: NodeItem) -> Result<(), LookRefusal>
        ensures { MatchResult result
            (λ _. AreVisible self.now (names.Node v.0.serial ∷ names.Node w.0.serial ∷ []))
            (RefusesLook self.now (names.Node v.0.serial ∷ names.Node w.0.serial ∷ [])) }
    {
        let from = self.live_node(v)?;
        let to = self.live_node(w)?;
        if from.is_hidden {
            return Err(LookRefusal::Hidden(ItemName::Node(v.0.serial)));
        }
        if to.is_hidden {
            return Err(LookRefusal::Hidden(ItemName::Node(w.0.serial)));
        }
        Ok(())
    }

    /// Whether there can be a node more.
    pub(super) fn check_nodes(&self) -> Result<(), EditRefusal>
        ensures { MatchResult result (λ _. NodeRoom self.now) (FullNode self.now) }
    {
        if self.nodes.len() >= NODE_LIMIT {
            return Err(EditRefusal::FullNodes);
        }
        if self.nodes.made() == MOST_SERIALS {
            return Err(EditRefusal::Spent);
        }
        Ok(())
    }

    /// Whether there can be an edge more.
    pub(super) fn check_edges(&self) -> Result<(), EditRefusal>
        ensures { MatchResult result (λ _. EdgeRoom self.now) (FullEdge self.now) }
    {
        if self.edges.len() >= ARC_LIMIT {
            return Err(EditRefusal::FullEdges);
        }
        if self.edges.made() == MOST_SERIALS {
            return Err(EditRefusal::Spent);
        }
        Ok(())
    }
}
