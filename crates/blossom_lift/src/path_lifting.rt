//! An augmenting path of a contracted net brought back to the larger one.
ghost use Rattle.std.specs.Prelude.{◌≡◌, ◌↔◌, ℕ, ◌+◌, ◌<◌, ◌≤◌, Bool, length, ◌++◌, reverse, slice_index, All, IsTrue, IfOk, MatchOption};
ghost use Rattle.graph_defs.specs.Matching.{IsMatching, is_end};
ghost use Rattle.graph_defs.specs.Net.{IsValid, source, target};
ghost use Rattle.match_core.specs.Path.{IsAugmenting};
ghost use Rattle.blossom_lift.specs.Contraction.{IsCycle, IsLevelOf};
ghost use Rattle.blossom_lift.specs.Passes.{IsFirst, IsBehind, IsHubAt, way_to, IsEndPlace, IsWithWay};

use crate::level::Level;
use graph_defs::Net;
use leda_base::{NoMemory, Row};
use match_core::{Blossom, Matching};
use std::alloc::Global;

/// An augmenting path of the larger net for one of the smaller net that `contract` gives for the
/// same net, matching and blossom. Where the path meets the hub, it goes through the blossom from
/// the base on that way round which has an even number of edges. In time and memory linear in the
/// path and the blossom.
///
/// # Errors
/// `NoMemory` where the room isn't given.
pub fn lift_path(
    alloc: Global,
    net: &Net,
    m: &Matching,
    b: &Blossom,
    small: &Level,
    path: &[u32],
) -> Result<Row<u32>, NoMemory>
    requires valid { IsValid net.now }
    requires matching { IsMatching net.now m.now.edges }
    requires cycle { IsCycle net.now m.now.edges b.now.nodes b.now.edges }
    requires level { IsLevelOf net.now m.now.edges b.now small.now }
    requires path { IsAugmenting small.now.net small.now.matching.edges path.now }
    ensures { IfOk result (λ longer. IsAugmenting net.now m.now.edges longer) }
{
    if let Some(place) = hub_place(&small.net, small.hub, path) {
        return with_way(alloc, net, b, path, place);
    }
    let turned = turned(alloc, path)?;
    let back = turned.as_slice();
    if let Some(place) = hub_place(&small.net, small.hub, back) {
        return with_way(alloc, net, b, back, place);
    }
    Row::from_slice(alloc, path)
}

// The even place of the path at which the hub is. Of a path of one edge either end may be the
// first.
fn hub_place(net: &Net, hub: u32, path: &[u32]) -> Option<usize>
    requires { All (λ arc. arc < length net.now.arcs) path.now }
    ensures { MatchOption result
        ((place : ℕ) → IsHubAt net.now hub path.now place → ⊥)
        (λ place. IsHubAt net.now hub path.now place) }
{
    if is_first(net, hub, path) {
        return Some(0);
    }
    match half_behind(net, hub, path) {
        Some(half) => Some(half + half + 2),
        None => None,
    }
}

// Whether the hub is the first node.
fn is_first(net: &Net, hub: u32, path: &[u32]) -> bool
    requires { All (λ arc. arc < length net.now.arcs) path.now }
    ensures { IsTrue result ↔ IsFirst net.now hub path.now }
{
    if path.len() < 1 {
        return false;
    }
    if !touches(net, hub, path[0]) {
        return false;
    }
    if path.len() < 2 {
        return true;
    }
    !touches(net, hub, path[1])
}

// After how many pairs of edges the hub comes, of which the second alone ends there.
fn half_behind(net: &Net, hub: u32, path: &[u32]) -> Option<usize>
    requires { All (λ arc. arc < length net.now.arcs) path.now }
    ensures { MatchOption result
        ((half : ℕ) → IsBehind net.now hub path.now half → ⊥)
        (λ half. IsBehind net.now hub path.now half) }
{
    for half in 0..path.len() / 2 {
        let out = half + half;
        if !touches(net, hub, path[out]) && touches(net, hub, path[out + 1]) {
            return Some(half);
        }
    }
    None
}

// Whether an arc ends at a node.
fn touches(net: &Net, node: u32, arc: u32) -> bool
    requires { arc < length net.now.arcs }
    ensures { result ≡ is_end net.now node arc }
{
    let (from, to) = net.arcs.as_slice()[arc as usize];
    from == node || to == node
}

// The path with the way from the base put in at a place, behind which its edge leaves the blossom.
fn with_way(
    alloc: Global,
    net: &Net,
    b: &Blossom,
    path: &[u32],
    place: usize,
) -> Result<Row<u32>, NoMemory>
    requires place { place < length path.now }
    requires arc { slice_index path.now place < length net.now.arcs }
    requires long { length b.now.edges ≡ length b.now.nodes }
    requires some { (at : ℕ) × IsEndPlace b.now.nodes
        (source net.now (slice_index path.now place))
        (target net.now (slice_index path.now place)) at }
    ensures { IfOk result (λ longer. IsWithWay net.now b.now path.now place longer) }
{
    let (from, to) = net.arcs.as_slice()[path[place] as usize];
    let at = end_place(b.nodes.as_slice(), from, to);
    let way = way(alloc, b.edges.as_slice(), at)?;
    joined(alloc, &path[..place], way.as_slice(), &path[place..])
}

// The first place of one of two nodes.
fn end_place(nodes: &[u32], from: u32, to: u32) -> usize
    requires { (place : ℕ) × IsEndPlace nodes.now from to place }
    ensures { IsEndPlace nodes.now from to result }
{
    for place in 0..nodes.len() {
        let node = nodes[place];
        if node == from || node == to {
            return place;
        }
    }
    0
}

// The edges from the base to the node at a place, that way round on which their number is even.
fn way(alloc: Global, edges: &[u32], at: usize) -> Result<Row<u32>, NoMemory>
    requires { at ≤ length edges.now }
    ensures { IfOk result (λ way. way ≡ way_to edges.now at) }
{
    if at % 2 == 0 {
        return Row::from_slice(alloc, &edges[..at]);
    }
    let turned = turned(alloc, edges)?;
    Row::from_slice(alloc, &turned.as_slice()[..edges.len() - at])
}

// The entries in their reverse order.
fn turned(alloc: Global, entries: &[u32]) -> Result<Row<u32>, NoMemory>
    ensures { IfOk result (λ turned. turned ≡ reverse entries.now) }
{
    let mut turned = Vec::from_slice(alloc, entries)?;
    turned.as_mut_slice().reverse();
    Ok(Row::from_vec(turned))
}

// Three rows behind one another.
fn joined(alloc: Global, first: &[u32], second: &[u32], third: &[u32]) -> Result<Row<u32>, NoMemory>
    ensures { IfOk result (λ row. row ≡ first.now ++ (second.now ++ third.now)) }
{
    let mut row = Vec::from_slice(alloc, first)?;
    row.extend_from_slice(second)?;
    row.extend_from_slice(third)?;
    Ok(Row::from_vec(row))
}
