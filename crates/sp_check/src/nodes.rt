//! The nodes of an answer in one list, how often each stands in it, and at which place.
ghost use Rattle.std.specs.Prelude.{◌≡◌, ◌↔◌, ℕ, ◌+◌, ◌<◌, ◌≤◌, min, length, All, IsTrue, IsSome, IfOk};
ghost use Rattle.graph_defs.specs.Shortest.{AreBelow, finite_at, listed, IsOnce, IsSource};
ghost use Rattle.graph_defs.specs.Count.{times};
ghost use Rattle.graph_defs.specs.Verdict.{FindsBelow};
ghost use Rattle.sp_check.specs.Passes.{AreCounts, HavePlaces};

use crate::read::{finite_count, finite_of};
use graph_defs::{Net, SpAnswer};
use leda_base::NoMemory;
use std::alloc::Global;

// The nodes of an answer, one behind another.
pub(crate) fn nodes_of(alloc: Global, a: &SpAnswer) -> Result<Vec<u32>, NoMemory>
    ensures { IfOk result (λ nodes. nodes.items ≡ listed a.now) }
{
    let mut nodes = Vec::new(alloc);
    for finite in a.finite.as_slice() {
        nodes.push(finite.node)?;
    }
    for low in a.low.as_slice() {
        nodes.push(low.node)?;
    }
    nodes.extend_from_slice(a.unreached.as_slice())?;
    Ok(nodes)
}

// The first node that doesn't stand once in the list.
pub(crate) fn first_not_once(
    alloc: Global,
    n: u32,
    a: &SpAnswer,
    nodes: &[u32],
) -> Result<Option<u32>, NoMemory>
    requires nodes { nodes.now ≡ listed a.now }
    requires below { AreBelow n nodes.now }
    ensures { IfOk result (λ found. FindsBelow n (IsOnce a.now) found) }
{
    let counts = counts_of(alloc, n, nodes)?;
    for node in 0..n {
        if counts[node as usize] != 1 {
            return Ok(Some(node));
        }
    }
    Ok(None)
}

// How often each node stands in the list, counted up to 2.
fn counts_of(alloc: Global, n: u32, nodes: &[u32]) -> Result<Vec<u8>, NoMemory>
    requires { AreBelow n nodes.now }
    ensures { IfOk result (λ counts. AreCounts n nodes.now (length nodes.now) counts.items) }
{
    let mut counts = vec![in alloc; 0u8; n as usize]?;
    for node in nodes {
        let place = *node as usize;
        counts[place] = more(counts[place]);
    }
    Ok(counts)
}

// One more, up to 2.
fn more(count: u8) -> u8
    ensures { result ≡ min 2 (count + 1) }
{
    if count >= 1 { 2 } else { 1 }
}

// The place of each node in the list.
pub(crate) fn places_of(alloc: Global, n: u32, nodes: &[u32]) -> Result<Vec<usize>, NoMemory>
    requires below { AreBelow n nodes.now }
    requires once { (v : ℕ) → v < n → times v nodes.now ≡ 1 }
    ensures { IfOk result (λ places. HavePlaces n nodes.now (length nodes.now) places.items) }
{
    let mut places = vec![in alloc; 0usize; n as usize]?;
    for (place, node) in nodes.iter().enumerate() {
        places[*node as usize] = place;
    }
    Ok(places)
}

// Whether the source is the first finite node, with distance 0 and alone without an arc, or low
// where no node is finite.
pub(crate) fn has_source(s: u32, a: &SpAnswer) -> bool
    ensures { IsTrue result ↔ IsSource s a.now }
{
    if finite_count(a) == 0 {
        return a.low.as_slice().iter().any(|low| low.node == s);
    }
    let first = finite_of(a, 0);
    if first.node != s {
        return false;
    }
    if first.dist != 0 {
        return false;
    }
    if first.pred.is_some() {
        return false;
    }
    have_arcs(a)
}

// Whether each finite node behind the first has an arc.
fn have_arcs(a: &SpAnswer) -> bool
    ensures { IsTrue result ↔
        ((k : ℕ) → 0 < k → k < length a.now.finite → IsSome (finite_at a.now k).pred) }
{
    for place in 1..finite_count(a) {
        if finite_of(a, place).pred.is_none() {
            return false;
        }
    }
    true
}
