//! New labels.
ghost use Rattle.std.specs.Prelude.{◌≡◌, [], ◌∷◌, Some, OnOk, OnErr, IfErr};
ghost use Rattle.std.specs.FinMap as map;
ghost use Rattle.item_pool.specs.Contents.{HasLive};
ghost use Rattle.leda_base.specs.declared.name.ItemName.TheVariants as names;
ghost use Rattle.graph_state.specs.Edits.{with_node_label, with_edge_label};
ghost use Rattle.graph_state.specs.Formed.{IsLabel};
ghost use Rattle.graph_state.specs.Refusals.{AreVisible, RefusesLook};
ghost use Rattle.graph_core.specs.declared.cell.NodeCell.{NodeCell};
ghost use Rattle.graph_core.specs.declared.cell.EdgeCell.{EdgeCell};

use super::Graph;
use crate::cell::{EdgeCell, NodeCell};
use crate::seen::show_label;
use graph_state::{EdgeItem, LookRefusal, NodeItem};
use item_pool::Pool;
use leda_base::Row;

/// Puts a label into the cell of a node, and drops the one that was there.
fn put_node_label(nodes: &mut Pool<NodeCell>, v: NodeItem, label: Row<u8>)
    requires { HasLive nodes.old v.0.serial }
    ensures live { (c : NodeCell) → map.get nodes.old.live v.0.serial ≡ Some c
        → nodes.new.live ≡ map.insert nodes.old.live v.0.serial (record c { label = label }) }
    ensures made { nodes.new.made ≡ nodes.old.made }
{
    if let Ok(cell) = nodes.get_mut(v.0) {
        cell.label = label;
    }
}

/// Puts a label into the cell of an edge, and drops the one that was there.
fn put_edge_label(edges: &mut Pool<EdgeCell>, e: EdgeItem, label: Row<u8>)
    requires { HasLive edges.old e.0.serial }
    ensures live { (c : EdgeCell) → map.get edges.old.live e.0.serial ≡ Some c
        → edges.new.live ≡ map.insert edges.old.live e.0.serial (record c { label = label }) }
    ensures made { edges.new.made ≡ edges.old.made }
{
    if let Ok(cell) = edges.get_mut(e.0) {
        cell.label = label;
    }
}

impl Graph {
    /// Gives a node another label. It takes no memory.
    ///
    /// # Errors
    ///
    /// `Gone` where the node is dead or unknown, and `Hidden` where it isn't visible. The label is
    /// then dropped.
    pub fn set_node_label(&mut self, v: NodeItem, label: Row<u8>) -> Result<(), LookRefusal>
        requires { IsLabel label }
        ensures visible { OnOk result (AreVisible self.old (names.Node v.0.serial ∷ [])) }
        ensures state { OnOk result (self.new ≡ with_node_label v.0.serial label self.old) }
        ensures err { IfErr result (RefusesLook self.old (names.Node v.0.serial ∷ [])) }
        ensures same { OnErr result (self.new ≡ self.old) }
    {
        self.see_node(v)?;
        show_label(&mut self.seen, v.0.serial, 0, &label);
        put_node_label(&mut self.nodes, v, label);
        Ok(())
    }

    /// Gives an edge another label. It takes no memory.
    ///
    /// # Errors
    ///
    /// `Gone` where the edge is dead or unknown, and `Hidden` where it isn't visible. The label is
    /// then dropped.
    pub fn set_edge_label(&mut self, e: EdgeItem, label: Row<u8>) -> Result<(), LookRefusal>
        requires { IsLabel label }
        ensures visible { OnOk result (AreVisible self.old (names.Edge e.0.serial ∷ [])) }
        ensures state { OnOk result (self.new ≡ with_edge_label e.0.serial label self.old) }
        ensures err { IfErr result (RefusesLook self.old (names.Edge e.0.serial ∷ [])) }
        ensures same { OnErr result (self.new ≡ self.old) }
    {
        self.see_edge(e)?;
        show_label(&mut self.seen, e.0.serial, 0, &label);
        put_edge_label(&mut self.edges, e, label);
        Ok(())
    }
}
