//! The first node or edge of an answer on shortest paths that is gone.
ghost use Rattle.std.specs.Prelude.{◌≡◌};
ghost use Rattle.kept_answers.specs.Carried.{first_gone_of};
ghost use Rattle.kept_answers.specs.Told.{first_in, gone_node, gone_edge, gone_of_finite, gone_of_seed, gone_of_reason, gone_of_low, first_gone};

use crate::lookup::is_among;
use graph_defs::{Finite, Low, Seed, SpAnswer, Why};
use hide_restore::Places;

/// A node or an edge that isn't visible, by the number in its name.
#[derive(Clone, Copy)]
pub(crate) enum GoneItem {
    Node(u32),
    Edge(u32),
}

/// The first that is gone of the source and of what the lines of an answer name, in their order,
/// where these nodes and edges are visible.
pub(crate) fn first_gone(
    nodes: &Places,
    edges: &Places,
    source: u32,
    answer: &SpAnswer,
) -> Option<GoneItem>
    ensures { result ≡ first_gone nodes.now edges.now source answer.now }
{
    gone_node(nodes, source)
        .or_else(|| gone_in_finite(nodes, edges, answer.finite.as_slice()))
        .or_else(|| gone_in_seeds(nodes, edges, answer.seeds.as_slice()))
        .or_else(|| gone_in_low(nodes, edges, answer.low.as_slice()))
        .or_else(|| gone_in_nodes(nodes, answer.unreached.as_slice()))
}

/// The first that is gone of a flow: of its source, its sink, the edges along which something
/// flows, and the nodes of its cut, where these nodes and edges are visible.
pub(crate) fn first_gone_of(
    nodes: &Places,
    edges: &Places,
    from: u32,
    to: u32,
    carrying: &[u32],
    cut: &[u32],
) -> Option<GoneItem>
    ensures { result ≡ first_gone_of nodes.now edges.now from to carrying.now cut.now }
{
    gone_node(nodes, from)
        .or_else(|| gone_node(nodes, to))
        .or_else(|| gone_in_edges(edges, carrying))
        .or_else(|| gone_in_nodes(nodes, cut))
}

fn gone_in_finite(nodes: &Places, edges: &Places, lines: &[Finite]) -> Option<GoneItem>
    ensures { result ≡ first_in (gone_of_finite nodes.now edges.now) lines.now }
{
    lines
        .iter()
        .find_map(|line| gone_of_finite(nodes, edges, line))
}

fn gone_in_seeds(nodes: &Places, edges: &Places, lines: &[Seed]) -> Option<GoneItem>
    ensures { result ≡ first_in (gone_of_seed nodes.now edges.now) lines.now }
{
    lines
        .iter()
        .find_map(|line| gone_of_seed(nodes, edges, line))
}

fn gone_in_low(nodes: &Places, edges: &Places, lines: &[Low]) -> Option<GoneItem>
    ensures { result ≡ first_in (gone_of_low nodes.now edges.now) lines.now }
{
    lines
        .iter()
        .find_map(|line| gone_of_low(nodes, edges, line))
}

fn gone_in_nodes(nodes: &Places, numbers: &[u32]) -> Option<GoneItem>
    ensures { result ≡ first_in (gone_node nodes.now) numbers.now }
{
    numbers.iter().find_map(|number| gone_node(nodes, *number))
}

fn gone_in_edges(edges: &Places, numbers: &[u32]) -> Option<GoneItem>
    ensures { result ≡ first_in (gone_edge edges.now) numbers.now }
{
    numbers.iter().find_map(|number| gone_edge(edges, *number))
}

fn gone_of_finite(nodes: &Places, edges: &Places, line: &Finite) -> Option<GoneItem>
    ensures { result ≡ gone_of_finite nodes.now edges.now line.now }
{
    gone_node(nodes, line.node).or_else(|| line.pred.and_then(|edge| gone_edge(edges, edge)))
}

fn gone_of_seed(nodes: &Places, edges: &Places, line: &Seed) -> Option<GoneItem>
    ensures { result ≡ gone_of_seed nodes.now edges.now line.now }
{
    gone_node(nodes, line.start)
        .or_else(|| gone_in_edges(edges, line.walk.as_slice()))
        .or_else(|| gone_in_edges(edges, line.cycle.as_slice()))
}

fn gone_of_low(nodes: &Places, edges: &Places, line: &Low) -> Option<GoneItem>
    ensures { result ≡ gone_of_low nodes.now edges.now line.now }
{
    gone_node(nodes, line.node).or_else(|| gone_of_reason(edges, line.why))
}

fn gone_of_reason(edges: &Places, why: Why) -> Option<GoneItem>
    ensures { result ≡ gone_of_reason edges.now why }
{
    match why {
        Why::Seed(_) => None,
        Why::Arc(edge) => gone_edge(edges, edge),
    }
}

fn gone_node(nodes: &Places, number: u32) -> Option<GoneItem>
    ensures { result ≡ gone_node nodes.now number }
{
    if is_among(nodes, number) {
        None
    } else {
        Some(GoneItem::Node(number))
    }
}

fn gone_edge(edges: &Places, number: u32) -> Option<GoneItem>
    ensures { result ≡ gone_edge edges.now number }
{
    if is_among(edges, number) {
        None
    } else {
        Some(GoneItem::Edge(number))
    }
}
