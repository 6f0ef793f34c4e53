//! What comes before the nodes of a graph.
ghost use Rattle.std.specs.Prelude.{◌≡◌, ◌≤◌, true, IfOk};
ghost use Rattle.graph_text.specs.Reading.{header_in, type_in, direction_in, count_in, way_of, head_of};
ghost use Rattle.graph_text.specs.Gives.{line_seen, head_seen, way_seen, Reads, ReadsOn};

use crate::fault::Fault;
use crate::line::{Line, Lines};
use graph_defs::{NODE_LIMIT, TYPE_LIMIT, TextKind};
use leda_base::natural_of;

/// The types, the direction, and how many nodes there are.
#[derive(Clone, Copy)]
pub(crate) struct Head<'a> {
    pub directed: bool,
    pub node_type: &'a [u8],
    pub edge_type: &'a [u8],
    pub nodes: u32,
}

/// The direction, and how many nodes there are.
#[derive(Clone, Copy)]
struct Way {
    directed: bool,
    nodes: u32,
}

/// Reads all that comes before the nodes.
#[tactic(auto, unfolding(crate::specs::Reading::head_of))]
pub(crate) fn read_head<'a>(lines: &mut Lines<'a>) -> Result<Head<'a>, Fault>
    ensures read { ReadsOn head_seen result lines.new (head_of lines.old) }
    ensures few { IfOk result (λ head. head.nodes ≤ NODE_LIMIT) }
{
    check_header(lines.want_line()?)?;
    let node_type = type_name(lines.want_line()?)?;
    let edge_type = type_name(lines.want_line()?)?;
    let way = read_way(lines)?;
    Ok(Head {
        directed: way.directed,
        node_type,
        edge_type,
        nodes: way.nodes,
    })
}

/// That the first line is the name of the format.
fn check_header(line: Line<'_>) -> Result<(), Fault>
    ensures { Reads (λ _. true) result (header_in (line_seen line.entry)) }
{
    if line.bytes == b"LEDA.GRAPH".as_slice() {
        Ok(())
    } else {
        Err(line.fault(TextKind::Header))
    }
}

fn type_name(line: Line<'_>) -> Result<&[u8], Fault>
    ensures { Reads (λ name. name.now) result (type_in (line_seen line.entry)) }
{
    if line.bytes.len() > TYPE_LIMIT {
        return Err(line.fault(TextKind::Limit));
    }
    Ok(line.bytes)
}

/// Reads the direction, whose line may be missing, and the number of nodes.
#[tactic(auto, unfolding(crate::specs::Reading::way_of, crate::specs::Reading::nodes_behind))]
fn read_way(lines: &mut Lines<'_>) -> Result<Way, Fault>
    ensures read { ReadsOn way_seen result lines.new (way_of lines.old) }
    ensures few { IfOk result (λ way. way.nodes ≤ NODE_LIMIT) }
{
    let line = lines.want_line()?;
    match direction(line)? {
        None => Ok(Way {
            directed: true,
            nodes: count(NODE_LIMIT, line)?,
        }),
        Some(directed) => Ok(Way {
            directed,
            nodes: count(NODE_LIMIT, lines.want_line()?)?,
        }),
    }
}

/// Whether the graph is directed. None where the line isn't that of the direction.
fn direction(line: Line<'_>) -> Result<Option<bool>, Fault>
    ensures { Reads (λ x. x) result (direction_in (line_seen line.entry)) }
{
    if !line.bytes.starts_with(b"-") {
        return Ok(None);
    }
    if line.bytes == b"-1".as_slice() {
        return Ok(Some(true));
    }
    if line.bytes == b"-2".as_slice() {
        return Ok(Some(false));
    }
    Err(line.fault(TextKind::Kind))
}

/// A number of nodes or edges, and at most `most`.
pub(crate) fn count(most: u32, line: Line<'_>) -> Result<u32, Fault>
    ensures read { Reads (λ x. x) result (count_in most (line_seen line.entry)) }
    ensures few { IfOk result (λ count. count ≤ most) }
{
    let Some(number) = natural_of(line.bytes) else {
        return Err(line.fault(TextKind::Count));
    };
    match u32::try_from(number) {
        Ok(number) if number <= most => Ok(number),
        _ => Err(line.fault(TextKind::Limit)),
    }
}
