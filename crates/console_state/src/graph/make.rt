//! Edits that take a label.
ghost use Rattle.std.specs.Prelude.{◌≡◌, true, [], ◌∷◌};
ghost use Rattle.leda_base.specs.declared.ItemName.TheVariants as items;
ghost use Rattle.graph_state.specs.Edits.{with_node_label, with_edge_label};
ghost use Rattle.graph_state.specs.Formed.{IsLabel};
ghost use Rattle.graph_state.specs.Refusals.{AreVisible};
ghost use Rattle.reply_text.specs.declared.reply.Reply.TheVariants.{Refused};
ghost use Rattle.reply_text.specs.declared.reply.ReplyLine.TheVariants.{Empty};
ghost use Rattle.reply_text.specs.Outcome.{Gives, done};
ghost use Rattle.reply_text.specs.Text.{IsNamed, IsShort};
ghost use Rattle.console_state.specs.Graph.{node, edge, edge_beside};
ghost use Rattle.console_state.specs.Refused.{edit_refusal};

use graph_core::{EditRefusal, Gone, Graph, Side};
use leda_base::{ItemName, Row};
use reply_text::{Refusal, Reply, ReplyLine};
use std::alloc::Global;

/// Makes a node with the label.
pub(super) fn new_node(alloc: Global, graph: &mut Graph, label: &[u8]) -> Reply
    requires { IsLabel label.now }
    ensures gives { Gives true (node label.now graph.old) graph.old result graph.new }
    ensures named { IsNamed result }
    ensures short { IsShort result }
{
    let Ok(label) = Row::from_slice(alloc, label) else {
        return Reply::Refused(Refusal::Memory);
    };
    match graph.new_node(label) {
        Ok(v) => Reply::Line(ReplyLine::Name(ItemName::Node(v.0.serial))),
        Err(refusal) => refused(refusal),
    }
}

/// Makes an edge with the label between two nodes, which are visible.
pub(super) fn new_edge(alloc: Global, graph: &mut Graph, from: u32, to: u32, label: &[u8]) -> Reply
    requires from { AreVisible graph.old (items.Node from ∷ []) }
    requires to { AreVisible graph.old (items.Node to ∷ []) }
    requires label { IsLabel label.now }
    ensures gives { Gives true (edge from to label.now graph.old) graph.old result graph.new }
    ensures named { IsNamed result }
    ensures short { IsShort result }
{
    let Ok(label) = Row::from_slice(alloc, label) else {
        return Reply::Refused(Refusal::Memory);
    };
    let (Ok(from), Ok(to)) = (graph.node_item(from), graph.node_item(to)) else {
        unreachable!()
    };
    match graph.new_edge(from, to, label) {
        Ok(e) => Reply::Line(ReplyLine::Name(ItemName::Edge(e.0.serial))),
        Err(refusal) => refused(refusal),
    }
}

/// Makes an edge with the label, next to a visible one in the out list where that begins.
pub(super) fn new_edge_at(
    alloc: Global,
    graph: &mut Graph,
    side: Side,
    beside: u32,
    to: u32,
    label: &[u8],
) -> Reply
    requires beside { AreVisible graph.old (items.Edge beside ∷ []) }
    requires to { AreVisible graph.old (items.Node to ∷ []) }
    requires label { IsLabel label.now }
    ensures gives { Gives true (edge_beside side beside to label.now graph.old)
        graph.old result graph.new }
    ensures named { IsNamed result }
    ensures short { IsShort result }
{
    let Ok(label) = Row::from_slice(alloc, label) else {
        return Reply::Refused(Refusal::Memory);
    };
    let (Ok(beside), Ok(to)) = (graph.edge_item(beside), graph.node_item(to)) else {
        unreachable!()
    };
    match graph.new_edge_at(beside, to, side, label) {
        Ok(e) => Reply::Line(ReplyLine::Name(ItemName::Edge(e.0.serial))),
        Err(refusal) => refused(refusal),
    }
}

/// Gives a visible node another label.
pub(super) fn label_node(alloc: Global, graph: &mut Graph, node: u32, label: &[u8]) -> Reply
    requires node { AreVisible graph.old (items.Node node ∷ []) }
    requires label { IsLabel label.now }
    ensures gives { Gives true (done (with_node_label node label.now graph.old) Empty)
        graph.old result graph.new }
    ensures named { IsNamed result }
    ensures short { IsShort result }
{
    let Ok(label) = Row::from_slice(alloc, label) else {
        return Reply::Refused(Refusal::Memory);
    };
    let Ok(item) = graph.node_item(node) else {
        unreachable!()
    };
    let Ok(()) = graph.set_node_label(item, label) else {
        unreachable!()
    };
    Reply::Line(ReplyLine::Empty)
}

/// Gives a visible edge another label.
pub(super) fn label_edge(alloc: Global, graph: &mut Graph, edge: u32, label: &[u8]) -> Reply
    requires edge { AreVisible graph.old (items.Edge edge ∷ []) }
    requires label { IsLabel label.now }
    ensures gives { Gives true (done (with_edge_label edge label.now graph.old) Empty)
        graph.old result graph.new }
    ensures named { IsNamed result }
    ensures short { IsShort result }
{
    let Ok(label) = Row::from_slice(alloc, label) else {
        return Reply::Refused(Refusal::Memory);
    };
    let Ok(item) = graph.edge_item(edge) else {
        unreachable!()
    };
    let Ok(()) = graph.set_edge_label(item, label) else {
        unreachable!()
    };
    Reply::Line(ReplyLine::Empty)
}

/// The reply to an edit that the graph refuses.
fn refused(refusal: EditRefusal) -> Reply
    ensures { result ≡ Refused (edit_refusal refusal) }
{
    Reply::Refused(match refusal {
        EditRefusal::Gone(item, Gone::Dead) => Refusal::Dead(item),
        EditRefusal::Gone(item, Gone::Unknown) => Refusal::Unknown(item),
        EditRefusal::Hidden(item) => Refusal::Hidden(item),
        EditRefusal::FullNodes => Refusal::FullNodes,
        EditRefusal::FullEdges => Refusal::FullEdges,
        EditRefusal::Spent => Refusal::Spent,
        EditRefusal::NoMemory => Refusal::Memory,
    })
}
