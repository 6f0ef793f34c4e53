//! Whether some arcs are a matching, and where they first aren't.
ghost use Rattle.std.specs.Prelude.{◌≡◌, ◌≢◌, ◌↔◌, ℕ, ◌+◌, ◌<◌, ◌≤◌, min, length, slice_index, slice_set, All, IsTrue, IfOk};
ghost use Rattle.graph_defs.specs.Count.{times};
ghost use Rattle.graph_defs.specs.Matching.{IsMatching, degree};
ghost use Rattle.graph_defs.specs.Net.{IsValid, source, target};
ghost use Rattle.graph_defs.specs.Verdict.{Finds};
ghost use Rattle.match_core.specs.Passes.{AreDegrees, IsLeastLoop};

use graph_defs::Net;
use leda_base::NoMemory;
use std::alloc::Global;

/// Whether arcs are a matching: they are arcs of the net, none is a loop, and no two share an end.
/// An arc that is listed twice shares both ends with itself. In time and memory linear in the nodes
/// and the arcs listed.
///
/// # Errors
/// `NoMemory` where the room isn't given.
pub fn is_matching(alloc: Global, net: &Net, edges: &[u32]) -> Result<bool, NoMemory>
    requires { IsValid net.now }
    ensures { IfOk result (λ holds. IsTrue holds ↔ IsMatching net.now edges.now) }
{
    if !are_edges(net, edges) {
        return Ok(false);
    }
    if first_loop(net, edges).is_some() {
        return Ok(false);
    }
    Ok(first_shared(alloc, net, edges)?.is_none())
}

/// The nodes that an arc leads from and to.
pub fn ends_of(net: &Net, arc: u32) -> (u32, u32)
    requires valid { IsValid net.now }
    requires arc { arc < length net.now.arcs }
    ensures source { result.0 ≡ source net.now arc }
    ensures target { result.1 ≡ target net.now arc }
    ensures below { (result.0 < net.now.n) × (result.1 < net.now.n) }
{
    net.arcs.as_slice()[arc as usize]
}

/// Whether all numbers are those of arcs.
pub fn are_edges(net: &Net, edges: &[u32]) -> bool
    ensures { IsTrue result ↔ All (λ edge. edge < length net.now.arcs) edges.now }
{
    let arcs = net.arcs.as_slice().len();
    edges.iter().all(|edge| (*edge as usize) < arcs)
}

/// The least arc listed that is a loop. In time linear in the arcs listed.
pub fn first_loop(net: &Net, edges: &[u32]) -> Option<u32>
    requires valid { IsValid net.now }
    requires among { All (λ edge. edge < length net.now.arcs) edges.now }
    ensures { Finds (λ arc. 1 ≤ times arc edges.now
        → source net.now arc ≢ target net.now arc) result }
{
    let arcs = net.arcs.as_slice().len() as u32;
    let least = least_loop(net, edges);
    if least < arcs { Some(least) } else { None }
}

// The least loop, or the number of arcs where there is none.
fn least_loop(net: &Net, edges: &[u32]) -> u32
    requires valid { IsValid net.now }
    requires among { All (λ edge. edge < length net.now.arcs) edges.now }
    ensures { IsLeastLoop net.now edges.now result }
{
    let mut least = net.arcs.as_slice().len() as u32;
    for edge in edges {
        least = lesser_loop(net, least, *edge);
    }
    least
}

// The lesser of this arc and one listed before, where it is a loop.
fn lesser_loop(net: &Net, least: u32, edge: u32) -> u32
    requires valid { IsValid net.now }
    requires edge { edge < length net.now.arcs }
    ensures least { source net.now edge ≡ target net.now edge → result ≡ min least edge }
    ensures other { source net.now edge ≢ target net.now edge → result ≡ least }
{
    let (from, to) = ends_of(net, edge);
    if from == to { least.min(edge) } else { least }
}

/// The least node that is an end of two arcs listed. In time and memory linear in the nodes and the
/// arcs listed.
///
/// # Errors
/// `NoMemory` where the room isn't given.
pub fn first_shared(alloc: Global, net: &Net, edges: &[u32]) -> Result<Option<u32>, NoMemory>
    requires valid { IsValid net.now }
    requires among { All (λ edge. edge < length net.now.arcs) edges.now }
    requires loops { (arc : ℕ) → 1 ≤ times arc edges.now
        → source net.now arc ≢ target net.now arc }
    ensures { IfOk result (λ found.
        Finds (λ node. degree net.now node edges.now ≤ 1) found) }
{
    let degrees = degrees_of(alloc, net, edges)?;
    for node in 0..net.n {
        if degrees[node as usize] > 1 {
            return Ok(Some(node));
        }
    }
    Ok(None)
}

// How many of the arcs have an end at each node, counted up to 2.
fn degrees_of(alloc: Global, net: &Net, edges: &[u32]) -> Result<Vec<u8>, NoMemory>
    requires valid { IsValid net.now }
    requires among { All (λ edge. edge < length net.now.arcs) edges.now }
    requires loops { (arc : ℕ) → 1 ≤ times arc edges.now
        → source net.now arc ≢ target net.now arc }
    ensures { IfOk result (λ degrees.
        AreDegrees net.now edges.now (length edges.now) degrees.items) }
{
    let mut degrees = vec![in alloc; 0u8; net.n as usize]?;
    for edge in edges {
        let (from, to) = ends_of(net, *edge);
        touch(&mut degrees, from);
        touch(&mut degrees, to);
    }
    Ok(degrees)
}

// One arc more ends at a node.
fn touch(degrees: &mut Vec<u8>, node: u32)
    requires { node < length degrees.old.items }
    ensures { degrees.new.items ≡ slice_set degrees.old.items node
        (min 2 (slice_index degrees.old.items node + 1)) }
{
    let place = node as usize;
    degrees[place] = more(degrees[place]);
}

// One more, up to 2.
fn more(count: u8) -> u8
    ensures { result ≡ min 2 (count + 1) }
{
    if count >= 1 { 2 } else { 1 }
}
