//! A matching made larger along an augmenting path.
ghost use Rattle.std.specs.Prelude.{◌≡◌, ◌<◌, ◌≤◌, length, slice_index, slice_set, IfOk};
ghost use Rattle.graph_defs.specs.Count.{times};
ghost use Rattle.graph_defs.specs.Matching.{IsMatching};
ghost use Rattle.match_core.specs.Path.{IsAugmenting};
ghost use Rattle.blossom_search.specs.Closed.{IsLarger};

use graph_defs::Net;
use leda_base::{NoMemory, Row};
use match_core::Matching;
use std::alloc::Global;

/// The matching with one edge more: along the path, the edges outside the matching take the places
/// of those in it. In time linear in the path times the matching (C. Berge, Two theorems in graph
/// theory, 1957).
///
/// # Errors
/// `NoMemory` where the room isn't given.
pub fn augment(alloc: Global, net: &Net, m: &Matching, path: &[u32]) -> Result<Matching, NoMemory>
    requires matching { IsMatching net.now m.now.edges }
    requires path { IsAugmenting net.now m.now.edges path.now }
    ensures { IfOk result (λ larger. IsLarger net.now m.now.edges larger.edges) }
{
    let _net = net;
    let mut edges = Vec::from_slice(alloc, m.edges.as_slice())?;
    for half in 0..path.len() / 2 {
        let place = place_of(edges.as_slice(), path[half + half + 1]);
        put(&mut edges, place, path[half + half]);
    }
    edges.push(path[path.len() - 1])?;
    Ok(Matching {
        edges: Row::from_vec(edges),
    })
}

// The first place of an edge.
fn place_of(edges: &[u32], edge: u32) -> usize
    requires { 1 ≤ times edge edges.now }
    ensures within { result < length edges.now }
    ensures found { slice_index edges.now result ≡ edge }
{
    for place in 0..edges.len() {
        if edges[place] == edge {
            return place;
        }
    }
    0
}

fn put(edges: &mut Vec<u32>, place: usize, edge: u32)
    requires { place < length edges.old.items }
    ensures { edges.new.items ≡ slice_set edges.old.items place edge }
{
    edges[place] = edge;
}
