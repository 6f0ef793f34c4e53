//! The strong components of the nodes that are reached from the source.

use crate::graph::Graph;
use crate::rows::{NONE, at, put};
use leda_base::NoMemory;
use std::alloc::Global;

// The number of a node whose component is known, which is above those of the others.
const CLOSED: u32 = u32::MAX;

// A depth-first search from the source (R. Tarjan, Depth-first search and linear graph algorithms,
// 1972), with the way back to the source in a row in place of a recursion.
#[derive(Drop)]
pub(crate) struct Components {
    n: u32,
    // 0 for a node that wasn't reached; else from 1 on, in the order in which they were, as long as
    // the component isn't known
    number: Vec<u32>,
    // the least number that a node is known to lead to
    least: Vec<u32>,
    // how far its row was looked at, and the node that it was reached from
    looked: Vec<u32>,
    above: Vec<u32>,
    // the nodes whose components aren't known
    stack: Vec<u32>,
    height: u32,
    reached: u32,
    // the nodes of the known components, each behind those to which arcs lead from it
    nodes: Vec<u32>,
    // for each of these where its component begins
    begins: Vec<u32>,
    count: u32,
}

impl Components {
    pub(crate) fn of(alloc: Global, graph: &Graph, source: u32) -> Result<Components, NoMemory> {
        let n = graph.count;
        let mut components = Components {
            n,
            number: vec![in alloc; 0u32; n as usize]?,
            least: vec![in alloc; 0u32; n as usize]?,
            looked: vec![in alloc; 0u32; n as usize]?,
            above: vec![in alloc; NONE; n as usize]?,
            stack: vec![in alloc; NONE; n as usize]?,
            height: 0,
            reached: 0,
            nodes: vec![in alloc; NONE; n as usize]?,
            begins: vec![in alloc; 0u32; n as usize]?,
            count: 0,
        };
        components.reach(graph, source, NONE);
        components.search(graph, source);
        Ok(components)
    }

    pub(crate) fn count(&self) -> u32 {
        self.count
    }

    // The node at a place of the order in which each component stands before those to which arcs
    // lead from it, and in each the nodes as they were reached.
    pub(crate) fn node_at(&self, place: u32) -> u32 {
        at(self.nodes.as_slice(), self.turned(place))
    }

    // Where in this order the component of a place ends.
    pub(crate) fn end_at(&self, place: u32) -> u32 {
        let begin = at(self.begins.as_slice(), self.turned(place));
        self.count.wrapping_sub(begin)
    }

    fn turned(&self, place: u32) -> u32 {
        self.count.wrapping_sub(1).wrapping_sub(place)
    }

    fn reach(&mut self, graph: &Graph, node: u32, above: u32) {
        self.reached = self.reached.wrapping_add(1);
        put(self.number.as_mut_slice(), node, self.reached);
        put(self.least.as_mut_slice(), node, self.reached);
        put(self.looked.as_mut_slice(), node, graph.offset(node));
        put(self.above.as_mut_slice(), node, above);
        put(self.stack.as_mut_slice(), self.height, node);
        self.height = self.height.wrapping_add(1);
    }

    // Each step down reaches a node, and each step up leaves one for good.
    fn search(&mut self, graph: &Graph, source: u32) {
        let mut node = source;
        for _ in 0..self.n.saturating_mul(2) {
            if node == NONE {
                return;
            }
            let next = self.next(graph, node);
            if next != NONE {
                self.reach(graph, next, node);
                node = next;
            } else {
                self.close(node);
                let above = at(self.above.as_slice(), node);
                let least = at(self.least.as_slice(), node);
                self.lower(above, least);
                node = above;
            }
        }
    }

    // The next node of a row that wasn't reached, or NONE. The others before it are noted.
    fn next(&mut self, graph: &Graph, node: u32) -> u32 {
        let mut offset = at(self.looked.as_slice(), node);
        let mut least = at(self.least.as_slice(), node);
        let mut next = NONE;
        for hop in graph.row_from(node, offset) {
            offset = offset.wrapping_add(1);
            let number = at(self.number.as_slice(), hop.to);
            if number == 0 {
                next = hop.to;
                break;
            }
            least = least.min(number);
        }
        put(self.looked.as_mut_slice(), node, offset);
        put(self.least.as_mut_slice(), node, least);
        next
    }

    fn lower(&mut self, node: u32, number: u32) {
        if number < at(self.least.as_slice(), node) {
            put(self.least.as_mut_slice(), node, number);
        }
    }

    // A node that leads to none that was reached before it: the nodes of the stack from it on are
    // its component.
    fn close(&mut self, node: u32) {
        if at(self.least.as_slice(), node) != at(self.number.as_slice(), node) {
            return;
        }
        let begin = self.count;
        for _ in 0..self.n {
            self.height = self.height.wrapping_sub(1);
            let top = at(self.stack.as_slice(), self.height);
            put(self.number.as_mut_slice(), top, CLOSED);
            put(self.nodes.as_mut_slice(), self.count, top);
            put(self.begins.as_mut_slice(), self.count, begin);
            self.count = self.count.wrapping_add(1);
            if top == node {
                return;
            }
        }
    }
}
