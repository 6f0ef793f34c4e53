//! A forest of alternating trees.

use crate::graph::Graph;
use crate::rows::{NONE, at, is_set, put, set};
use leda_base::NoMemory;
use std::alloc::Global;

// Where a node stands in the forest.
#[derive(Clone, Copy, PartialEq, Eq)]
pub(crate) enum Side {
    Outside,
    Even,
    Odd,
}

// The matching, the trees, and the nodes that are to be looked at.
#[derive(Drop)]
pub(crate) struct Forest {
    pub(crate) n: u32,
    pub(crate) mate: Vec<u32>,
    pub(crate) side: Vec<Side>,
    // for an odd node the even one that it hangs from; within a blossom also where the way goes on
    // that leads the other way round
    pub(crate) link: Vec<u32>,
    // union-find: the way to the base of the blossom that the node lies in
    pub(crate) base: Vec<u32>,
    pub(crate) root: Vec<u32>,
    // by root: whether the tree was used up
    dead: Vec<bool>,
    pub(crate) stamp: Vec<u32>,
    pub(crate) time: u32,
    queue: Vec<u32>,
    tail: u32,
    freed: Vec<u32>,
}

impl Forest {
    // A tree for each free node.
    pub(crate) fn new(alloc: Global, n: u32, mate: Vec<u32>) -> Result<Forest, NoMemory> {
        let mut forest = Forest {
            n,
            mate,
            side: vec![in alloc; Side::Outside; n as usize]?,
            link: vec![in alloc; NONE; n as usize]?,
            base: vec![in alloc; NONE; n as usize]?,
            root: vec![in alloc; NONE; n as usize]?,
            dead: vec![in alloc; false; n as usize]?,
            stamp: vec![in alloc; 0u32; n as usize]?,
            time: 0,
            queue: vec![in alloc; NONE; n as usize]?,
            tail: 0,
            freed: vec![in alloc; NONE; n as usize]?,
        };
        for node in 0..n {
            put(forest.base.as_mut_slice(), node, node);
            if forest.mate_of(node) == NONE {
                forest.make_even(node, node);
            }
        }
        Ok(forest)
    }

    #[inline(always)]
    pub(crate) fn mate_of(&self, node: u32) -> u32 {
        at(self.mate.as_slice(), node)
    }

    #[inline(always)]
    pub(crate) fn link_of(&self, node: u32) -> u32 {
        at(self.link.as_slice(), node)
    }

    #[inline(always)]
    pub(crate) fn side_of(&self, node: u32) -> Side {
        let place = node as usize;
        let side = self.side.as_slice();
        if place < side.len() {
            side[place]
        } else {
            Side::Outside
        }
    }

    fn root_of(&self, node: u32) -> u32 {
        at(self.root.as_slice(), node)
    }

    fn set_side(&mut self, node: u32, side: Side) {
        let place = node as usize;
        if place < self.side.len() {
            self.side[place] = side;
        }
    }

    // The node is even from now on, in the tree with this root, and is to be looked at.
    pub(crate) fn make_even(&mut self, node: u32, root: u32) {
        self.set_side(node, Side::Even);
        put(self.root.as_mut_slice(), node, root);
        self.wait(node);
    }

    fn wait(&mut self, node: u32) {
        put(self.queue.as_mut_slice(), self.tail, node);
        self.tail = self.tail.wrapping_add(1);
    }

    // Looks at all nodes that wait, each of which came once. Whether the matching grew.
    pub(crate) fn grow(&mut self, graph: &Graph) -> bool {
        let mut grew = false;
        for head in 0..self.n {
            if head >= self.tail {
                break;
            }
            let node = at(self.queue.as_slice(), head);
            if !is_set(self.dead.as_slice(), self.root_of(node)) && self.scan(graph, node) {
                grew = true;
            }
        }
        grew
    }

    // Looks at the neighbours of an even node, up to one with which the matching grows. Whether
    // there is such a one.
    fn scan(&mut self, graph: &Graph, node: u32) -> bool {
        let root = self.root_of(node);
        for other in graph.row(node) {
            match self.side_of(*other) {
                Side::Odd => {}
                Side::Outside => self.hang(node, *other, root),
                Side::Even => {
                    let opposite = self.root_of(*other);
                    if opposite == root {
                        self.meet(node, *other, root);
                    } else if !is_set(self.dead.as_slice(), opposite) {
                        self.augment(node, *other);
                        set(self.dead.as_mut_slice(), root);
                        set(self.dead.as_mut_slice(), opposite);
                        return true;
                    }
                }
            }
        }
        false
    }

    // A node outside, which is odd from now on, and its mate.
    fn hang(&mut self, node: u32, odd: u32, root: u32) {
        self.set_side(odd, Side::Odd);
        put(self.link.as_mut_slice(), odd, node);
        put(self.root.as_mut_slice(), odd, root);
        let mate = self.mate_of(odd);
        self.make_even(mate, root);
    }

    // Along the two ways to the roots and the edge between these nodes, edges of the matching
    // become others, and others edges of it.
    fn augment(&mut self, node: u32, other: u32) {
        self.turn(node);
        self.turn(other);
        self.marry(node, other);
    }

    // The same along the way from an even node to its root; the node gets no new mate.
    fn turn(&mut self, node: u32) {
        let mut odd = self.mate_of(node);
        for _ in 0..self.n {
            if odd == NONE {
                return;
            }
            let even = self.link_of(odd);
            let next = self.mate_of(even);
            self.marry(odd, even);
            odd = next;
        }
    }

    fn marry(&mut self, node: u32, other: u32) {
        put(self.mate.as_mut_slice(), node, other);
        put(self.mate.as_mut_slice(), other, node);
    }

    // Takes the trees that were used up out of the forest. The even nodes beside them wait to be
    // looked at again.
    pub(crate) fn dissolve(&mut self, graph: &Graph) {
        self.tail = 0;
        let count = self.free_dead();
        self.time = self.time.wrapping_add(1);
        for place in 0..count {
            let node = at(self.freed.as_slice(), place);
            for other in graph.row(node) {
                if self.side_of(*other) == Side::Even
                    && at(self.stamp.as_slice(), *other) != self.time
                {
                    put(self.stamp.as_mut_slice(), *other, self.time);
                    self.wait(*other);
                }
            }
        }
    }

    // The nodes of the trees that were used up are outside from now on. How many there are.
    fn free_dead(&mut self) -> u32 {
        let mut count = 0u32;
        for node in 0..self.n {
            if self.side_of(node) != Side::Outside
                && is_set(self.dead.as_slice(), self.root_of(node))
            {
                self.set_side(node, Side::Outside);
                put(self.base.as_mut_slice(), node, node);
                put(self.freed.as_mut_slice(), count, node);
                count = count.wrapping_add(1);
            }
        }
        count
    }
}
