//! Hiding and restoring nodes and edges, which may be hidden.
ghost use Rattle.std.specs.Prelude.{◌≡◌, false};
ghost use Rattle.leda_base.specs.declared.ItemName.TheVariants as items;
ghost use Rattle.graph_state.specs.Refusals.{IsThere};
ghost use Rattle.reply_text.specs.Outcome.{Gives};
ghost use Rattle.reply_text.specs.Text.{IsNamed, IsShort};
ghost use Rattle.console_state.specs.Graph.{hide_edge as hiding_edge, restore_edge as restoring_edge, hide_node as hiding_node, restore_node as restoring_node};

use graph_core::Graph;
use hide_restore::{HideRefusal, RestoreRefusal, hide_edge, hide_node, restore_edge, restore_node};
use leda_base::ItemName;
use reply_text::{Refusal, Reply, ReplyLine};

/// Hides an edge, which is there.
pub(super) fn hide_an_edge(graph: &mut Graph, e: u32) -> Reply
    requires { IsThere graph.old (items.Edge e) }
    ensures gives { Gives false (hiding_edge e graph.old) graph.old result graph.new }
    ensures named { IsNamed result }
    ensures short { IsShort result }
{
    let Ok(item) = graph.edge_item(e) else {
        unreachable!()
    };
    match hide_edge(graph, item) {
        Ok(()) => Reply::Line(ReplyLine::Empty),
        Err(HideRefusal::AlreadyHidden) => Reply::Refused(Refusal::Hidden(ItemName::Edge(e))),
        Err(HideRefusal::Gone(_)) => unreachable!(),
    }
}

/// Restores an edge, which is there.
pub(super) fn restore_an_edge(graph: &mut Graph, e: u32) -> Reply
    requires { IsThere graph.old (items.Edge e) }
    ensures gives { Gives false (restoring_edge e graph.old) graph.old result graph.new }
    ensures named { IsNamed result }
    ensures short { IsShort result }
{
    let Ok(item) = graph.edge_item(e) else {
        unreachable!()
    };
    match restore_edge(graph, item) {
        Ok(()) => Reply::Line(ReplyLine::Empty),
        Err(RestoreRefusal::NotHidden) => Reply::Refused(Refusal::NotHidden(ItemName::Edge(e))),
        Err(RestoreRefusal::Gone(_)) => unreachable!(),
    }
}

/// Hides a node, which is there.
pub(super) fn hide_a_node(graph: &mut Graph, node: u32) -> Reply
    requires { IsThere graph.old (items.Node node) }
    ensures gives { Gives false (hiding_node node graph.old) graph.old result graph.new }
    ensures named { IsNamed result }
    ensures short { IsShort result }
{
    let Ok(item) = graph.node_item(node) else {
        unreachable!()
    };
    match hide_node(graph, item) {
        Ok(()) => Reply::Line(ReplyLine::Empty),
        Err(HideRefusal::AlreadyHidden) => Reply::Refused(Refusal::Hidden(ItemName::Node(node))),
        Err(HideRefusal::Gone(_)) => unreachable!(),
    }
}

/// Restores a node, which is there.
pub(super) fn restore_a_node(graph: &mut Graph, node: u32) -> Reply
    requires { IsThere graph.old (items.Node node) }
    ensures gives { Gives false (restoring_node node graph.old) graph.old result graph.new }
    ensures named { IsNamed result }
    ensures short { IsShort result }
{
    let Ok(item) = graph.node_item(node) else {
        unreachable!()
    };
    match restore_node(graph, item) {
        Ok(()) => Reply::Line(ReplyLine::Empty),
        Err(RestoreRefusal::NotHidden) => Reply::Refused(Refusal::NotHidden(ItemName::Node(node))),
        Err(RestoreRefusal::Gone(_)) => unreachable!(),
    }
}
