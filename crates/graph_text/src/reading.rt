//! A text read as a graph.
ghost use Rattle.std.specs.Prelude.{◌≡◌, ◌≤◌, length};
ghost use Rattle.graph_defs.specs.Plain.{is_void};
ghost use Rattle.graph_text.specs.Reading.{graph_of, reading_of};
ghost use Rattle.graph_text.specs.Gives.{Gives};
ghost use Rattle.graph_text.specs.Text.{Answers};

use crate::element::{read_edges, read_nodes};
use crate::fault::TextRefusal;
use crate::head::read_head;
use crate::line::Lines;
use crate::pair::check_pairs;
use graph_defs::PlainGraph;
use leda_base::Row;
use std::alloc::Global;

/// How many bytes a text may have.
pub const TEXT_LIMIT: usize = 268_435_456;

/// Reads a text, which is of at most [`TEXT_LIMIT`] bytes.
///
/// # Errors
/// [`TextRefusal::At`] exactly where the text stands for no graph: the first fault in it.
pub fn read(alloc: Global, text: &[u8]) -> Result<PlainGraph, TextRefusal>
    requires { length text.now ≤ TEXT_LIMIT }
    ensures right { Answers text.now result }
    ensures exact { Gives (λ g. g) result (reading_of text.now) }
{
    read_lines(alloc, text)
}

#[tactic(auto, unfolding(crate::specs::Reading::reading_of))]
fn read_lines(alloc: Global, text: &[u8]) -> Result<PlainGraph, TextRefusal>
    requires { length text.now ≤ TEXT_LIMIT }
    ensures { Gives (λ g. g) result (reading_of text.now) }
{
    read_graph(alloc, &mut Lines::new(text))
}

#[tactic(auto, unfolding(crate::specs::Reading::graph_of))]
fn read_graph(alloc: Global, lines: &mut Lines<'_>) -> Result<PlainGraph, TextRefusal>
    ensures { Gives (λ g. g) result (graph_of lines.old) }
{
    let head = read_head(lines)?;
    let nodes = read_nodes(alloc, is_void(head.node_type), head.nodes, lines)?;
    let edges = read_edges(alloc, head.nodes, is_void(head.edge_type), lines)?;
    lines.end()?;
    check_pairs(edges.edges.as_slice(), edges.lines.as_slice())?;
    Ok(PlainGraph {
        directed: head.directed,
        node_type: Row::from_slice(alloc, head.node_type)?,
        edge_type: Row::from_slice(alloc, head.edge_type)?,
        nodes,
        edges: edges.edges,
    })
}

fn is_void(name: &[u8]) -> bool
    ensures { result ≡ is_void name.now }
{
    name == b"void".as_slice()
}
