//! Alternating paths from free nodes, and what stands beside their ends.
ghost use Rattle.std.specs.Prelude.{◌≡◌, ℕ, ◌<◌, ◌≤◌, [], ◌∷◌, ◌++◌, drop, length, IfOk, MatchOption};
ghost use Rattle.graph_defs.specs.Matching.{IsMatching};
ghost use Rattle.graph_defs.specs.Net.{IsValid};
ghost use Rattle.match_core.specs.Path.{IsFree, Joins};
ghost use Rattle.blossom_search.specs.Forest.{IsMate, IsEvenPlace, stem_at, stem_beyond};

use graph_defs::Net;
use leda_base::{NoMemory, Row};
use match_core::{Blossom, Matching, ends_of};
use std::alloc::Global;

/// A path of even length from a free node, which alternates between edges outside the matching and
/// edges of it.
#[derive(Drop)]
pub struct Stem {
    /// The nodes, the free one first.
    pub nodes: Row<u32>,
    pub edges: Row<u32>,
    /// The last node.
    pub end: u32,
}

/// An edge of the matching at a node, and its other end.
#[derive(Clone, Copy)]
pub struct Mate {
    pub edge: u32,
    pub end: u32,
}

/// The other end of an arc at a node, unless it is a loop.
pub fn other_end(net: &Net, arc: u32, node: u32) -> Option<u32>
    requires valid { IsValid net.now }
    requires arc { arc < length net.now.arcs }
    ensures { MatchOption result
        ((end : ℕ) → Joins net.now arc node end → ⊥)
        (λ end. Joins net.now arc node end) }
{
    let (from, to) = ends_of(net, arc);
    if from == to {
        return None;
    }
    if from == node {
        return Some(to);
    }
    if to == node {
        return Some(from);
    }
    None
}

/// The edge of the matching at a node, unless the node is free. In time linear in the matching.
pub fn mate_of(net: &Net, m: &Matching, node: u32) -> Option<Mate>
    requires valid { IsValid net.now }
    requires matching { IsMatching net.now m.now.edges }
    ensures { MatchOption result
        (IsFree net.now m.now.edges node)
        (λ mate. IsMate net.now m.now.edges node mate) }
{
    let edges = m.edges.as_slice();
    for edge in edges {
        if let Some(end) = other_end(net, *edge, node) {
            return Some(Mate { edge: *edge, end });
        }
    }
    None
}

/// The half of the even place at which a node stands in a row.
pub fn half_of(nodes: &[u32], node: u32) -> Option<usize>
    ensures { MatchOption result
        ((half : ℕ) → IsEvenPlace nodes.now node half → ⊥)
        (λ half. IsEvenPlace nodes.now node half) }
{
    for half in 0..(nodes.len() + 1) / 2 {
        if nodes[half + half] == node {
            return Some(half);
        }
    }
    None
}

impl Stem {
    /// The stem of a free node alone.
    pub fn at(alloc: Global, node: u32) -> Result<Stem, NoMemory>
        ensures { IfOk result (λ stem. stem ≡ stem_at node) }
    {
        let mut nodes = Row::new(alloc);
        nodes.push(node)?;
        Ok(Stem {
            nodes,
            edges: Row::new(alloc),
            end: node,
        })
    }

    /// The stem that goes on along an arc to a node and along that one's edge of the matching.
    pub fn beyond(&self, alloc: Global, arc: u32, node: u32, mate: Mate) -> Result<Stem, NoMemory>
        ensures { IfOk result (λ stem. stem ≡ stem_beyond self.now arc node mate) }
    {
        let pair = [node, mate.end];
        let mut nodes = Vec::from_slice(alloc, self.nodes.as_slice())?;
        nodes.extend_from_slice(pair.as_slice())?;
        let pair = [arc, mate.edge];
        let mut edges = Vec::from_slice(alloc, self.edges.as_slice())?;
        edges.extend_from_slice(pair.as_slice())?;
        Ok(Stem {
            nodes: Row::from_vec(nodes),
            edges: Row::from_vec(edges),
            end: mate.end,
        })
    }

    /// Its edges from a place on, and one more.
    pub fn edges_with(&self, alloc: Global, place: usize, arc: u32) -> Result<Row<u32>, NoMemory>
        requires { place ≤ length self.now.edges }
        ensures { IfOk result (λ edges. edges ≡ drop place self.now.edges ++ arc ∷ []) }
    {
        let mut edges = Vec::from_slice(alloc, &self.edges.as_slice()[place..])?;
        edges.push(arc)?;
        Ok(Row::from_vec(edges))
    }

    /// The blossom of its nodes from a place on, where an arc leads back to the first of them.
    pub fn blossom(&self, alloc: Global, place: usize, arc: u32) -> Result<Blossom, NoMemory>
        requires nodes { place < length self.now.nodes }
        requires edges { place ≤ length self.now.edges }
        ensures nodes { IfOk result (λ blossom. blossom.nodes ≡ drop place self.now.nodes) }
        ensures edges { IfOk result (λ blossom.
            blossom.edges ≡ drop place self.now.edges ++ arc ∷ []) }
    {
        let nodes = Row::from_slice(alloc, &self.nodes.as_slice()[place..])?;
        let edges = self.edges_with(alloc, place, arc)?;
        Ok(Blossom { nodes, edges })
    }
}
