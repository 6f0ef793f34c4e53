//! A graph written as a text.
ghost use Rattle.std.specs.Prelude.{◌≡◌, ◌++◌, codes, map, decimal, IfOk, OnOk};
ghost use Rattle.graph_defs.specs.Plain.{IsPlainGraph};
ghost use Rattle.graph_text.specs.Text.{GraphText};
ghost use Rattle.graph_text.specs.Written.{direction_text, label_text, edge_text, reversal_number, ended, ended_lines, head_lines, text_of};

use graph_defs::{PlainEdge, PlainGraph};
use itoa::Buffer;
use leda_base::{NoMemory, Row};
use std::alloc::Global;

/// Writes a graph: the one text that [`read`](crate::read) reads as it.
///
/// # Errors
/// `NoMemory` where there is no memory for the text.
pub fn write(alloc: Global, g: &PlainGraph) -> Result<Vec<u8>, NoMemory>
    requires { IsPlainGraph g.now }
    ensures text { IfOk result (λ text. text.items ≡ text_of g.now) }
    ensures again { IfOk result (λ text. GraphText text.items g.now) }
{
    write_lines(alloc, g)
}

/// Writes the lines of a graph.
fn write_lines(alloc: Global, g: &PlainGraph) -> Result<Vec<u8>, NoMemory>
    ensures { IfOk result (λ text. text.items ≡ text_of g.now) }
{
    let mut text = Vec::new(alloc);
    append_head(&mut text, g)?;
    append_nodes(&mut text, g.nodes.as_slice())?;
    append_count(&mut text, g.edges.as_slice().len())?;
    append_edges(&mut text, g.edges.as_slice())?;
    Ok(text)
}

/// Appends the lines before the nodes.
fn append_head(to: &mut Vec<u8>, g: &PlainGraph) -> Result<(), NoMemory>
    ensures { OnOk result (to.new.items ≡ to.old.items ++ ended_lines (head_lines g.now)) }
{
    append_line(to, b"LEDA.GRAPH")?;
    append_line(to, g.node_type.as_slice())?;
    append_line(to, g.edge_type.as_slice())?;
    append_line(to, direction_text(g.directed))?;
    append_count(to, g.nodes.as_slice().len())
}

fn direction_text(directed: bool) -> &'static [u8]
    ensures { result.now ≡ direction_text directed }
{
    if directed { b"-1" } else { b"-2" }
}

/// Appends a line for each node.
fn append_nodes(to: &mut Vec<u8>, nodes: &[Row<u8>]) -> Result<(), NoMemory>
    ensures { OnOk result (to.new.items ≡ to.old.items ++ ended_lines (map label_text nodes.now)) }
{
    for label in nodes {
        append_label(to, label.as_slice())?;
    }
    Ok(())
}

/// Appends a line for each edge.
fn append_edges(to: &mut Vec<u8>, edges: &[PlainEdge]) -> Result<(), NoMemory>
    ensures { OnOk result (to.new.items ≡ to.old.items ++ ended_lines (map edge_text edges.now)) }
{
    for edge in edges {
        append_edge(to, edge)?;
    }
    Ok(())
}

fn append_edge(to: &mut Vec<u8>, edge: &PlainEdge) -> Result<(), NoMemory>
    ensures { OnOk result (to.new.items ≡ to.old.items ++ ended (edge_text edge.now)) }
{
    append_field(to, u64::from(edge.from) + 1)?;
    append_field(to, u64::from(edge.to) + 1)?;
    append_field(to, reversal_number(edge.rev))?;
    append_label(to, edge.label.as_slice())
}

/// The number of a reversal, from 1, or 0 for none.
fn reversal_number(rev: Option<u32>) -> u64
    ensures { result ≡ reversal_number rev }
{
    match rev {
        Some(place) => u64::from(place) + 1,
        None => 0,
    }
}

/// Appends a number and a blank.
fn append_field(to: &mut Vec<u8>, number: u64) -> Result<(), NoMemory>
    ensures { OnOk result (to.new.items ≡ to.old.items ++ (decimal number ++ codes " ")) }
{
    append(to, Buffer::new().format(number).as_bytes())?;
    append(to, b" ")
}

/// Appends a number that ends its line.
fn append_count(to: &mut Vec<u8>, count: usize) -> Result<(), NoMemory>
    ensures { OnOk result (to.new.items ≡ to.old.items ++ ended (decimal count)) }
{
    append_line(to, Buffer::new().format(count).as_bytes())
}

/// Appends a label that ends its line.
fn append_label(to: &mut Vec<u8>, label: &[u8]) -> Result<(), NoMemory>
    ensures { OnOk result (to.new.items ≡ to.old.items ++ ended (label_text label.now)) }
{
    append(to, b"|{")?;
    append(to, label)?;
    append(to, b"}|\n")
}

/// Appends a line with its end.
fn append_line(to: &mut Vec<u8>, line: &[u8]) -> Result<(), NoMemory>
    ensures { OnOk result (to.new.items ≡ to.old.items ++ ended line.now) }
{
    append(to, line)?;
    append(to, b"\n")
}

fn append(to: &mut Vec<u8>, bytes: &[u8]) -> Result<(), NoMemory>
    ensures { OnOk result (to.new.items ≡ to.old.items ++ bytes.now) }
{
    to.extend_from_slice(bytes)?;
    Ok(())
}
