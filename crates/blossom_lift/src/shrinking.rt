//! A blossom contracted into one node.
ghost use Rattle.std.specs.Prelude.{◌≡◌, ℕ, ◌<◌, ◌≤◌, Bool, not, cond, [], length, map, slice_index, All, IfOk};
ghost use Rattle.std.specs.List.{filter, range_with_len};
ghost use Rattle.graph_defs.specs.declared.net.TheConstants.{NODE_LIMIT};
ghost use Rattle.graph_defs.specs.Matching.{IsMatching};
ghost use Rattle.graph_defs.specs.Net.{EndsBelow, IsValid};
ghost use Rattle.match_core.specs.Path.{HasStem};
ghost use Rattle.blossom_lift.specs.Contraction.{inside, rank, image_of, is_inner, IsCycle, IsLevelOf};
ghost use Rattle.blossom_lift.specs.Passes.{marked, read_ends};

use crate::level::Level;
use crate::marks::marks_of;
use graph_defs::Net;
use leda_base::{NoMemory, Row};
use match_core::{Blossom, Matching};
use std::alloc::Global;

/// The net in which the blossom's nodes are one, the hub, and the matching less the edges inside.
/// The blossom is one of a matching of the net, and a stem leads to its base. The smaller net's
/// matching leads to the hub in the same way, so that a cover of its size there doesn't label the
/// hub 1. In time and memory linear in nodes, arcs and edges (J. Edmonds, Paths, trees, and
/// flowers, 1965).
///
/// # Errors
/// `NoMemory` where the room isn't given.
pub fn contract(alloc: Global, net: &Net, m: &Matching, b: &Blossom) -> Result<Level, NoMemory>
    requires valid { IsValid net.now }
    requires matching { IsMatching net.now m.now.edges }
    requires cycle { IsCycle net.now m.now.edges b.now.nodes b.now.edges }
    requires stem { HasStem net.now m.now.edges (inside b.now.nodes)
        (slice_index b.now.nodes 0) }
    ensures level { IfOk result (λ level. IsLevelOf net.now m.now.edges b.now level) }
    ensures valid { IfOk result (λ level. IsValid level.net) }
    ensures matching { IfOk result (λ level. IsMatching level.net level.matching.edges) }
    ensures stem { IfOk result (λ level.
        HasStem level.net level.matching.edges (inside []) level.hub) }
{
    let marks = marks_of(alloc, b.nodes.as_slice(), net.n as usize)?;
    let hub = count_unmarked(marks.as_slice());
    let image = images(alloc, marks.as_slice(), hub)?;
    let arcs = image_arcs(alloc, net.arcs.as_slice(), image.as_slice())?;
    let edges = edges_left(alloc, net, marks.as_slice(), m.edges.as_slice())?;
    Ok(Level {
        net: Net { n: hub + 1, arcs },
        matching: Matching { edges },
        image,
        hub,
    })
}

// 1 for a place that isn't marked.
fn outside(is_marked: bool) -> u32
    ensures small { result ≤ 1 }
    ensures value { result ≡ cond is_marked 0 1 }
{
    if is_marked { 0 } else { 1 }
}

// How many places aren't marked.
fn count_unmarked(marks: &[bool]) -> u32
    requires { length marks.now ≤ NODE_LIMIT }
    ensures small { result ≤ length marks.now }
    ensures value { result ≡ rank (marked marks.now) (length marks.now) }
{
    let mut count = 0;
    for is_marked in marks {
        count += outside(*is_marked);
    }
    count
}

// The number in the smaller net of each node.
fn images(alloc: Global, marks: &[bool], hub: u32) -> Result<Row<u32>, NoMemory>
    requires few { length marks.now ≤ NODE_LIMIT }
    requires hub { hub ≡ rank (marked marks.now) (length marks.now) }
    ensures { IfOk result (λ images. images ≡ map (image_of (marked marks.now) (length marks.now))
        (range_with_len 0 (length marks.now))) }
{
    let mut images = Row::new(alloc);
    let mut next = 0;
    for is_marked in marks {
        images.push(image(*is_marked, hub, next))?;
        next += outside(*is_marked);
    }
    Ok(images)
}

// The number of a node, where `next` is that of the next node outside.
fn image(is_marked: bool, hub: u32, next: u32) -> u32
    ensures { result ≡ cond is_marked hub next }
{
    if is_marked { hub } else { next }
}

// Every arc between the numbers of its ends.
fn image_arcs(
    alloc: Global,
    arcs: &[(u32, u32)],
    images: &[u32],
) -> Result<Row<(u32, u32)>, NoMemory>
    requires { EndsBelow (length images.now) arcs.now }
    ensures { IfOk result (λ small. small ≡ map (read_ends images.now) arcs.now) }
{
    let mut small = Row::new(alloc);
    for (from, to) in arcs {
        small.push((images[*from as usize], images[*to as usize]))?;
    }
    Ok(small)
}

// The edges of which not both ends are marked.
fn edges_left(alloc: Global, net: &Net, marks: &[bool], edges: &[u32]) -> Result<Row<u32>, NoMemory>
    requires ends { EndsBelow (length marks.now) net.now.arcs }
    requires among { All (λ edge. edge < length net.now.arcs) edges.now }
    ensures { IfOk result (λ left.
        left ≡ filter (λ arc. not (is_inner (marked marks.now) net.now arc)) edges.now) }
{
    let mut left = Row::new(alloc);
    for edge in edges {
        if !is_inside(net, marks, *edge) {
            left.push(*edge)?;
        }
    }
    Ok(left)
}

// Whether both ends of an arc are marked.
fn is_inside(net: &Net, marks: &[bool], arc: u32) -> bool
    requires ends { EndsBelow (length marks.now) net.now.arcs }
    requires arc { arc < length net.now.arcs }
    ensures { result ≡ is_inner (marked marks.now) net.now arc }
{
    let (from, to) = net.arcs.as_slice()[arc as usize];
    marks[from as usize] && marks[to as usize]
}
