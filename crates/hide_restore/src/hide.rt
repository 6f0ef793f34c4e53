//! Nodes and edges are hidden and restored.
ghost use Rattle.std.specs.Prelude.{◌≡◌, true, false, IfErr, OnOk, OnErr};
ghost use Rattle.std.specs.FinSet as set;
ghost use Rattle.leda_base.specs.declared.name.ItemName.TheVariants as names;
ghost use Rattle.graph_state.specs.Edits.{edge_hidden, edge_restored, node_hidden, node_restored, all_restored};
ghost use Rattle.hide_restore.specs.Refusals.{RefusesHiding, RefusesRestoring};

use graph_core::{EdgeItem, Gone, Graph, ItemName, NodeItem};

/// Why nothing was hidden. All is then as before.
#[derive(Clone, Copy, Debug, PartialEq, Eq)]
pub enum HideRefusal {
    /// The item is dead, or was never made.
    Gone(Gone),
    /// It is hidden by itself already.
    AlreadyHidden,
}

/// Why nothing was restored. All is then as before.
#[derive(Clone, Copy, Debug, PartialEq, Eq)]
pub enum RestoreRefusal {
    /// The item is dead, or was never made.
    Gone(Gone),
    /// It isn't hidden by itself.
    NotHidden,
}

/// Hides an edge. An edge of which an end is hidden can be hidden by itself too. It takes no
/// memory.
///
/// # Errors
///
/// `Gone` where the edge is dead or unknown, and else `AlreadyHidden` exactly where it is hidden by
/// itself.
pub fn hide_edge(g: &mut Graph, e: EdgeItem) -> Result<(), HideRefusal>
    ensures unhidden { OnOk result (set.contains g.old.hidden_edges e.0.serial ≡ false) }
    ensures state { OnOk result (g.new ≡ edge_hidden e.0.serial g.old) }
    ensures err { IfErr result (RefusesHiding g.old (names.Edge e.0.serial)) }
    ensures same { OnErr result (g.new ≡ g.old) }
{
    if let Err(why) = g.edge_item(e.0.serial) {
        return Err(HideRefusal::Gone(why));
    }
    if g.is_hidden(ItemName::Edge(e.0.serial)) {
        return Err(HideRefusal::AlreadyHidden);
    }
    g.hide_edge(e);
    Ok(())
}

/// Restores an edge to the place that it has kept in each list. It shows again where both its ends
/// do. It takes no memory.
///
/// # Errors
///
/// `Gone` where the edge is dead or unknown, and else `NotHidden` exactly where it isn't hidden by
/// itself.
pub fn restore_edge(g: &mut Graph, e: EdgeItem) -> Result<(), RestoreRefusal>
    ensures hidden { OnOk result (set.contains g.old.hidden_edges e.0.serial ≡ true) }
    ensures state { OnOk result (g.new ≡ edge_restored e.0.serial g.old) }
    ensures err { IfErr result (RefusesRestoring g.old (names.Edge e.0.serial)) }
    ensures same { OnErr result (g.new ≡ g.old) }
{
    if let Err(why) = g.edge_item(e.0.serial) {
        return Err(RestoreRefusal::Gone(why));
    }
    if !g.is_hidden(ItemName::Edge(e.0.serial)) {
        return Err(RestoreRefusal::NotHidden);
    }
    g.restore_edge(e);
    Ok(())
}

/// Hides a node. No edge that has an end there shows any more. It takes no memory, and time linear
/// in these edges.
///
/// # Errors
///
/// `Gone` where the node is dead or unknown, and else `AlreadyHidden` exactly where it is hidden by
/// itself.
pub fn hide_node(g: &mut Graph, v: NodeItem) -> Result<(), HideRefusal>
    ensures unhidden { OnOk result (set.contains g.old.hidden_nodes v.0.serial ≡ false) }
    ensures state { OnOk result (g.new ≡ node_hidden v.0.serial g.old) }
    ensures err { IfErr result (RefusesHiding g.old (names.Node v.0.serial)) }
    ensures same { OnErr result (g.new ≡ g.old) }
{
    if let Err(why) = g.node_item(v.0.serial) {
        return Err(HideRefusal::Gone(why));
    }
    if g.is_hidden(ItemName::Node(v.0.serial)) {
        return Err(HideRefusal::AlreadyHidden);
    }
    g.hide_node(v);
    Ok(())
}

/// Restores a node to the place that it has kept in the node list. It shows again, and so does each
/// edge that has an end there and is hidden neither by itself nor by its other end. It takes no
/// memory.
///
/// # Errors
///
/// `Gone` where the node is dead or unknown, and else `NotHidden` exactly where it isn't hidden by
/// itself.
pub fn restore_node(g: &mut Graph, v: NodeItem) -> Result<(), RestoreRefusal>
    ensures hidden { OnOk result (set.contains g.old.hidden_nodes v.0.serial ≡ true) }
    ensures state { OnOk result (g.new ≡ node_restored v.0.serial g.old) }
    ensures err { IfErr result (RefusesRestoring g.old (names.Node v.0.serial)) }
    ensures same { OnErr result (g.new ≡ g.old) }
{
    if let Err(why) = g.node_item(v.0.serial) {
        return Err(RestoreRefusal::Gone(why));
    }
    if !g.is_hidden(ItemName::Node(v.0.serial)) {
        return Err(RestoreRefusal::NotHidden);
    }
    g.restore_node(v);
    Ok(())
}

/// Restores every node and every edge that is hidden, each to the place that it has kept. It takes
/// no memory, and time linear in the whole graph.
pub fn restore_all(g: &mut Graph)
    ensures { g.new ≡ all_restored g.old }
{
    g.restore_all();
}
