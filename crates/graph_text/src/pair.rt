//! Whether reversals are mutual.
ghost use Rattle.std.specs.Prelude.{◌≡◌, ◌&&◌, ◌==◌, true, length};
ghost use Rattle.graph_defs.specs.Plain.{is_number, is_paired};
ghost use Rattle.graph_text.specs.Reading.{unpaired_from, all_paired};
ghost use Rattle.graph_text.specs.Gives.{placed, Reads};

use crate::fault::Fault;
use graph_defs::{PlainEdge, TextKind};

/// That each reversal is mutual and runs the other way.
///
/// # Errors
/// The line of the first edge whose own reversal isn't so.
pub(crate) fn check_pairs(edges: &[PlainEdge], lines: &[u32]) -> Result<(), Fault>
    requires { length edges.now ≡ length lines.now }
    ensures { Reads (λ _. true) result
        (all_paired (unpaired_from edges.now 0 (placed edges.now lines.now))) }
{
    match first_unpaired(edges, lines) {
        None => Ok(()),
        Some(line) => Err(Fault::at(line, TextKind::Reversal)),
    }
}

/// The line of the first edge whose reversal isn't its own.
fn first_unpaired(edges: &[PlainEdge], lines: &[u32]) -> Option<u32>
    requires { length edges.now ≡ length lines.now }
    ensures { result ≡ unpaired_from edges.now 0 (placed edges.now lines.now) }
{
    for (i, edge) in edges.iter().enumerate() {
        if !is_paired(edges, i, edge) {
            return Some(lines[i]);
        }
    }
    None
}

/// Whether an edge has no reversal, or one with which it is paired.
fn is_paired(edges: &[PlainEdge], number: usize, edge: &PlainEdge) -> bool
    ensures { result ≡ is_paired edges.now number edge.now }
{
    let Some(place) = edge.rev else {
        return true;
    };
    let Some(back) = edges.get(place as usize) else {
        return false;
    };
    place as usize != number && is_number(back.rev, number) && are_opposite(edge, back)
}

fn is_number(place: Option<u32>, number: usize) -> bool
    ensures { result ≡ is_number place number }
{
    place.is_some_and(|place| place as usize == number)
}

/// Whether the second edge runs between the same nodes the other way.
fn are_opposite(edge: &PlainEdge, back: &PlainEdge) -> bool
    ensures { result ≡ (back.now.from == edge.now.to && back.now.to == edge.now.from) }
{
    back.from == edge.to && back.to == edge.from
}
