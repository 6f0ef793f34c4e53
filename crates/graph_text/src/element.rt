//! The nodes and edges of a text.
ghost use Rattle.std.specs.Prelude.{◌≡◌, ◌<◌, ◌≤◌, length, IfOk, OnErr};
ghost use Rattle.graph_text.specs.Reading.{label_in, node_in, end_in, reversal_in, edge_in, many_of, edges_of};
ghost use Rattle.graph_text.specs.Gives.{line_seen, Reads, Gives, GivesOn, edges_seen, sizes_seen};

use crate::fault::{Fault, TextRefusal};
use crate::head::count;
use crate::line::{Line, Lines};
use crate::part::{label_of, number_in, split_field};
use graph_defs::{ARC_LIMIT, PlainEdge, TextKind};
use leda_base::{LABEL_LIMIT, NoMemory, Row};
use std::alloc::Global;

/// How many nodes and edges there are, and whether edges have no labels.
#[derive(Clone, Copy)]
struct Sizes {
    nodes: u32,
    edges: u32,
    void: bool,
}

/// Edges, and the number of the line of each.
#[derive(Drop)]
pub(crate) struct Edges {
    pub edges: Row<PlainEdge>,
    pub lines: Row<u32>,
}

/// Reads the labels of so many nodes.
pub(crate) fn read_nodes(
    alloc: Global,
    void: bool,
    count: u32,
    lines: &mut Lines<'_>,
) -> Result<Row<Row<u8>>, TextRefusal>
    ensures { GivesOn (λ nodes. nodes) result lines.new (many_of (node_in void) count lines.old) }
{
    let mut nodes = Row::with_room(alloc, lines.at_most(count))?;
    for _ in 0..count {
        let line = lines.want_line()?;
        nodes.push(own(alloc, label(void, line.number, line.bytes)?)?)?;
    }
    Ok(nodes)
}

/// Reads the edges of a graph of so many nodes.
#[tactic(auto, unfolding(crate::specs::Reading::edges_of))]
pub(crate) fn read_edges(
    alloc: Global,
    nodes: u32,
    void: bool,
    lines: &mut Lines<'_>,
) -> Result<Edges, TextRefusal>
    ensures read { GivesOn edges_seen result lines.new (edges_of nodes void lines.old) }
    ensures lengths { IfOk result (λ edges. length edges.edges ≡ length edges.lines) }
{
    let edges = count(ARC_LIMIT, lines.want_line()?)?;
    let sizes = Sizes { nodes, edges, void };
    read_edge_lines(alloc, sizes, lines)
}

/// Reads a line for each edge.
fn read_edge_lines(alloc: Global, sizes: Sizes, lines: &mut Lines<'_>) -> Result<Edges, TextRefusal>
    ensures read { GivesOn edges_seen result lines.new
        (many_of (edge_in (sizes_seen sizes)) sizes.edges lines.old) }
    ensures lengths { IfOk result (λ edges. length edges.edges ≡ length edges.lines) }
{
    let room = lines.at_most(sizes.edges);
    let mut edges = Row::with_room(alloc, room)?;
    let mut numbers = Row::with_room(alloc, room)?;
    for _ in 0..sizes.edges {
        let line = lines.want_line()?;
        edges.push(edge(alloc, sizes, line)?)?;
        numbers.push(line.number)?;
    }
    Ok(Edges {
        edges,
        lines: numbers,
    })
}

/// An edge by its line.
#[tactic(auto, unfolding(crate::specs::Reading::edge_in))]
fn edge(alloc: Global, sizes: Sizes, line: Line<'_>) -> Result<PlainEdge, TextRefusal>
    ensures { Gives (λ edge. record { line = line.entry.number; edge = edge }) result
        (edge_in (sizes_seen sizes) (line_seen line.entry)) }
{
    let (from, rest) = split_field(line.bytes);
    let from = end(sizes.nodes, line.number, from)?;
    let (to, rest) = split_field(rest);
    let to = end(sizes.nodes, line.number, to)?;
    let (rev, rest) = split_field(rest);
    let rev = reversal(sizes.edges, line.number, rev)?;
    let label = own(alloc, label(sizes.void, line.number, rest)?)?;
    Ok(PlainEdge {
        from,
        to,
        rev,
        label,
    })
}

/// The place of a node, of so many.
#[tactic(auto, unfolding(crate::specs::Reading::end_in))]
fn end(nodes: u32, line: u32, field: &[u8]) -> Result<u32, Fault>
    ensures { Reads (λ x. x) result (end_in nodes line field.now) }
{
    match number_in(1, nodes, field) {
        Some(number) => Ok(number - 1),
        None => Err(Fault::at(line, TextKind::Ends)),
    }
}

/// The place of an edge, of so many, or none where the field is 0.
#[tactic(auto, unfolding(crate::specs::Reading::reversal_in))]
fn reversal(edges: u32, line: u32, field: &[u8]) -> Result<Option<u32>, Fault>
    ensures { Reads (λ x. x) result (reversal_in edges line field.now) }
{
    match number_in(0, edges, field) {
        Some(number) => Ok(number.checked_sub(1)),
        None => Err(Fault::at(line, TextKind::Reversal)),
    }
}

/// The label that the bytes write.
#[tactic(auto, unfolding(crate::specs::Reading::label_in))]
fn label(void: bool, line: u32, bytes: &[u8]) -> Result<&[u8], Fault>
    ensures { Reads (λ label. label.now) result (label_in void line bytes.now) }
{
    let Some(label) = label_of(bytes) else {
        return Err(Fault::at(line, TextKind::Label));
    };
    if label.len() > LABEL_LIMIT {
        return Err(Fault::at(line, TextKind::Limit));
    }
    if void && !label.is_empty() {
        return Err(Fault::at(line, TextKind::Label));
    }
    Ok(label)
}

/// A label with bytes of its own. An empty one takes no memory.
fn own(alloc: Global, label: &[u8]) -> Result<Row<u8>, NoMemory>
    ensures ok { IfOk result (λ row. row ≡ label.now) }
    ensures err { OnErr result (0 < length label.now) }
{
    if label.is_empty() {
        return Ok(Row::new(alloc));
    }
    Row::from_slice(alloc, label)
}
