//! Edits of nodes and edges that are visible.
ghost use Rattle.std.specs.Prelude.{◌≡◌, false, [], ◌∷◌};
ghost use Rattle.leda_base.specs.declared.ItemName.TheVariants as items;
ghost use Rattle.graph_state.specs.Edits.{without_edge, without_node, reversed, moved};
ghost use Rattle.graph_state.specs.Refusals.{AreVisible};
ghost use Rattle.reply_text.specs.declared.reply.ReplyLine.TheVariants.{Empty};
ghost use Rattle.reply_text.specs.Outcome.{Gives, done};
ghost use Rattle.reply_text.specs.Text.{IsNamed, IsShort};
ghost use Rattle.console_state.specs.Graph.{set_reversal as opposed, make_map as mapped};

use graph_core::Graph;
use graph_rev::{RevRefusal, make_map, set_reversal};
use reply_text::{Refusal, Reply, ReplyLine};

/// Makes two visible edges each other's reversal.
pub(super) fn pair(graph: &mut Graph, e: u32, f: u32) -> Reply
    requires first { AreVisible graph.old (items.Edge e ∷ []) }
    requires second { AreVisible graph.old (items.Edge f ∷ []) }
    ensures gives { Gives false (opposed e f graph.old) graph.old result graph.new }
    ensures named { IsNamed result }
    ensures short { IsShort result }
{
    let (Ok(e), Ok(f)) = (graph.edge_item(e), graph.edge_item(f)) else {
        unreachable!()
    };
    match set_reversal(graph, e, f) {
        Ok(()) => Reply::Line(ReplyLine::Empty),
        Err(RevRefusal::NotOpposite) => Reply::Refused(Refusal::Opposite),
        Err(RevRefusal::Look(_)) => unreachable!(),
    }
}

/// Pairs the visible edges that have no reversal, and tells how many are left without one.
pub(super) fn pair_all(graph: &mut Graph) -> Reply
    ensures gives { Gives false (mapped graph.old) graph.old result graph.new }
    ensures named { IsNamed result }
    ensures short { IsShort result }
{
    Reply::Line(ReplyLine::Num(i64::from(make_map(graph))))
}

/// Deletes a visible edge.
pub(super) fn delete_edge(graph: &mut Graph, edge: u32) -> Reply
    requires { AreVisible graph.old (items.Edge edge ∷ []) }
    ensures gives { Gives false (done (without_edge edge graph.old) Empty)
        graph.old result graph.new }
    ensures named { IsNamed result }
    ensures short { IsShort result }
{
    let Ok(item) = graph.edge_item(edge) else {
        unreachable!()
    };
    let Ok(()) = graph.del_edge(item) else {
        unreachable!()
    };
    Reply::Line(ReplyLine::Empty)
}

/// Deletes a visible node, with all its edges.
pub(super) fn delete_node(graph: &mut Graph, node: u32) -> Reply
    requires { AreVisible graph.old (items.Node node ∷ []) }
    ensures gives { Gives false (done (without_node node graph.old) Empty)
        graph.old result graph.new }
    ensures named { IsNamed result }
    ensures short { IsShort result }
{
    let Ok(item) = graph.node_item(node) else {
        unreachable!()
    };
    let Ok(()) = graph.del_node(item) else {
        unreachable!()
    };
    Reply::Line(ReplyLine::Empty)
}

/// Turns a visible edge round.
pub(super) fn reverse_edge(graph: &mut Graph, edge: u32) -> Reply
    requires { AreVisible graph.old (items.Edge edge ∷ []) }
    ensures gives { Gives false (done (reversed edge graph.old) Empty)
        graph.old result graph.new }
    ensures named { IsNamed result }
    ensures short { IsShort result }
{
    let Ok(item) = graph.edge_item(edge) else {
        unreachable!()
    };
    let Ok(()) = graph.rev_edge(item) else {
        unreachable!()
    };
    Reply::Line(ReplyLine::Empty)
}

/// Gives a visible edge other ends, which are visible.
pub(super) fn move_edge(graph: &mut Graph, edge: u32, from: u32, to: u32) -> Reply
    requires edge { AreVisible graph.old (items.Edge edge ∷ []) }
    requires from { AreVisible graph.old (items.Node from ∷ []) }
    requires to { AreVisible graph.old (items.Node to ∷ []) }
    ensures gives { Gives false (done (moved edge from to graph.old) Empty)
        graph.old result graph.new }
    ensures named { IsNamed result }
    ensures short { IsShort result }
{
    let (Ok(item), Ok(v), Ok(w)) = (
        graph.edge_item(edge),
        graph.node_item(from),
        graph.node_item(to),
    ) else {
        unreachable!()
    };
    let Ok(()) = graph.move_edge(item, v, w) else {
        unreachable!()
    };
    Reply::Line(ReplyLine::Empty)
}
