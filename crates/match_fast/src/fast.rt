//! The fast search.

use crate::forest::{Forest, Side};
use crate::graph::Graph;
use crate::rows::{NONE, at, put};
use crate::start::first_matching;
use graph_defs::{MatchAnswer, Net};
use leda_base::{NoMemory, Row};
use std::alloc::Global;

// A matching and a cover. Nothing is claimed of them here.
pub(crate) fn propose(alloc: Global, net: &Net) -> Result<MatchAnswer, NoMemory> {
    let graph = Graph::new(alloc, net)?;
    let mate = first_matching(alloc, &graph)?;
    let mut forest = Forest::new(alloc, net.n, mate)?;
    for _ in 0..=net.n {
        if !forest.grow(&graph) {
            break;
        }
        forest.dissolve(&graph);
    }
    let cover = cover_of(alloc, &mut forest)?;
    let edges = edges_of(alloc, net, forest)?;
    Ok(MatchAnswer {
        edges: Row::from_vec(edges),
        cover: Row::from_vec(cover),
    })
}

// The labels: 1 for odd nodes, 0 for even ones by themselves, one label for each blossom, and of
// the nodes outside the forest 1 for the first and 2 for the others.
fn cover_of(alloc: Global, forest: &mut Forest) -> Result<Vec<u32>, NoMemory> {
    let names = names_of(alloc, forest)?;
    let mut labels = vec![in alloc; 0u32; forest.n as usize]?;
    let mut outside = 1;
    for node in 0..forest.n {
        let label = match forest.side_of(node) {
            Side::Odd => 1,
            Side::Even => {
                let base = forest.find(node);
                at(names.as_slice(), base)
            }
            Side::Outside => {
                let label = outside;
                outside = 2;
                label
            }
        };
        put(labels.as_mut_slice(), node, label);
    }
    Ok(labels)
}

// By base: the label of the blossom, from 3 on, or 0 where the base is by itself.
fn names_of(alloc: Global, forest: &mut Forest) -> Result<Vec<u32>, NoMemory> {
    let mut names = vec![in alloc; 0u32; forest.n as usize]?;
    let mut next = 3u32;
    for node in 0..forest.n {
        let base = forest.find(node);
        if base != node && at(names.as_slice(), base) == 0 {
            put(names.as_mut_slice(), base, next);
            next = next.wrapping_add(1);
        }
    }
    Ok(names)
}

// Of the arcs between two mates the first.
fn edges_of(alloc: Global, net: &Net, forest: Forest) -> Result<Vec<u32>, NoMemory> {
    let Forest { mut mate, .. } = forest;
    let mut edges = Vec::new(alloc);
    for (arc, (from, to)) in net.arcs.as_slice().iter().enumerate() {
        if from != to && at(mate.as_slice(), *from) == *to {
            put(mate.as_mut_slice(), *from, NONE);
            put(mate.as_mut_slice(), *to, NONE);
            edges.push(u32::try_from(arc).unwrap_or(NONE))?;
        }
    }
    Ok(edges)
}
