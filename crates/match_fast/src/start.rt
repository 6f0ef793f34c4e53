//! The matching that the search begins with.

use crate::graph::Graph;
use crate::rows::{NONE, at, put};
use leda_base::NoMemory;
use std::alloc::Global;

// Nodes that wait for a turn.
#[derive(Drop)]
struct Stack {
    nodes: Vec<u32>,
    len: u32,
}

impl Stack {
    fn new(alloc: Global, n: u32) -> Result<Stack, NoMemory> {
        Ok(Stack {
            nodes: vec![in alloc; NONE; n as usize]?,
            len: 0,
        })
    }

    fn push(&mut self, node: u32) {
        put(self.nodes.as_mut_slice(), self.len, node);
        self.len = self.len.wrapping_add(1);
    }

    fn pop(&mut self) -> Option<u32> {
        if self.len == 0 {
            return None;
        }
        self.len -= 1;
        Some(at(self.nodes.as_slice(), self.len))
    }
}

// A matching that grows node by node: those with one free neighbour come first, then those with
// two, then the others in their order.
#[derive(Drop)]
struct Start {
    mate: Vec<u32>,
    // how many arcs lead to free neighbours
    degree: Vec<u32>,
    one: Stack,
    two: Stack,
}

// The mate of each node, or NONE.
pub(crate) fn first_matching(alloc: Global, graph: &Graph) -> Result<Vec<u32>, NoMemory> {
    let mut start = Start {
        mate: vec![in alloc; NONE; graph.n as usize]?,
        degree: vec![in alloc; 0u32; graph.n as usize]?,
        one: Stack::new(alloc, graph.n)?,
        two: Stack::new(alloc, graph.n)?,
    };
    for node in 0..graph.n {
        start.set_degree(node, graph.degree(node));
    }
    for node in 0..graph.n {
        start.take_waiting(graph);
        start.take(graph, node);
    }
    start.take_waiting(graph);
    let Start { mate, .. } = start;
    Ok(mate)
}

impl Start {
    fn set_degree(&mut self, node: u32, degree: u32) {
        put(self.degree.as_mut_slice(), node, degree);
        if degree == 1 {
            self.one.push(node);
        } else if degree == 2 {
            self.two.push(node);
        }
    }

    fn is_free(&self, node: u32) -> bool {
        at(self.mate.as_slice(), node) == NONE
    }

    // The nodes that wait, each of which came at most once to either stack.
    fn take_waiting(&mut self, graph: &Graph) {
        for _ in 0..graph.n.saturating_mul(2) {
            if let Some(node) = self.one.pop() {
                self.take(graph, node);
            } else if let Some(node) = self.two.pop() {
                self.take(graph, node);
            } else {
                return;
            }
        }
    }

    // Matches a free node with the free neighbour that has the fewest free neighbours itself.
    fn take(&mut self, graph: &Graph, node: u32) {
        if !self.is_free(node) {
            return;
        }
        let mut best = NONE;
        let mut least = NONE;
        for other in graph.row(node) {
            let degree = at(self.degree.as_slice(), *other);
            if degree < least && self.is_free(*other) {
                best = *other;
                least = degree;
            }
        }
        if best != NONE {
            put(self.mate.as_mut_slice(), node, best);
            put(self.mate.as_mut_slice(), best, node);
            self.lower(graph, node);
            self.lower(graph, best);
        }
    }

    // The node isn't free any more.
    fn lower(&mut self, graph: &Graph, node: u32) {
        for other in graph.row(node) {
            if self.is_free(*other) {
                let degree = at(self.degree.as_slice(), *other);
                self.set_degree(*other, degree.wrapping_sub(1));
            }
        }
    }
}
