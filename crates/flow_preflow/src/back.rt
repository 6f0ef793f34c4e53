//! Excess that can't come to the sink, sent back to the source.

use crate::residual::NONE;
use crate::search::Search;
use leda_base::NoMemory;
use std::alloc::Global;

#[derive(Clone, Copy, PartialEq, Eq)]
enum Color {
    /// It wasn't met, or was left again.
    White,
    /// It is on the path.
    Grey,
    /// It is done, and stands in the order.
    Black,
}

// A node, the hop against an arc that is looked at, and the node before it on the path.
#[derive(Clone, Copy)]
struct Stop {
    color: Color,
    current: u32,
    before: u32,
}

const DONE: Stop = Stop {
    color: Color::Black,
    current: NONE,
    before: NONE,
};

/// A depth first search from the nodes with excess, against the arcs along which something flows.
/// Where it comes round, what flows round is taken away; so in the end each node stands in the
/// order behind all nodes to which excess can go back from it (B. V. Cherkassky, A. V. Goldberg,
/// On implementing the push-relabel method for the maximum flow problem, 1997).
#[derive(Drop)]
pub(crate) struct Back {
    stops: Vec<Stop>,
    order: Vec<u32>,
}

impl Back {
    pub(crate) fn new(
        alloc: Global,
        search: &Search,
        source: u32,
        sink: u32,
    ) -> Result<Back, NoMemory> {
        let n = search.graph.node_count();
        let mut stops = Vec::with_capacity(alloc, n as usize)?;
        for node in 0..n {
            let color = if node == source || node == sink {
                Color::Black
            } else {
                Color::White
            };
            stops.push(Stop {
                color,
                current: search.graph.begin_against(node),
                before: NONE,
            })?;
        }
        let order = Vec::with_capacity(alloc, n as usize)?;
        Ok(Back { stops, order })
    }

    /// Sends all excess back but that of the source and the sink.
    pub(crate) fn run(&mut self, search: &mut Search) -> Result<(), NoMemory> {
        for node in 0..search.graph.node_count() {
            if search.excess(node) > 0 && self.stop(node).color == Color::White {
                self.walk(search, node)?;
            }
        }
        for turn in (0..self.order.len()).rev() {
            give_back(search, self.order[turn]);
        }
        Ok(())
    }

    #[inline(always)]
    fn stop(&self, node: u32) -> Stop {
        let node = node as usize;
        let stops = self.stops.as_slice();
        if node < stops.len() {
            stops[node]
        } else {
            DONE
        }
    }

    #[inline(always)]
    fn set(&mut self, node: u32, stop: Stop) {
        let node = node as usize;
        if node < self.stops.len() {
            self.stops[node] = stop;
        }
    }

    fn paint(&mut self, node: u32, color: Color) {
        let stop = self.stop(node);
        self.set(node, Stop { color, ..stop });
    }

    // Brings all nodes that are met from here into the order.
    fn walk(&mut self, search: &mut Search, root: u32) -> Result<(), NoMemory> {
        self.enter(root, NONE);
        let mut here = root;
        for _ in 0..u64::MAX {
            if here == NONE {
                break;
            }
            here = self.step(search, here)?;
        }
        Ok(())
    }

    fn enter(&mut self, node: u32, before: u32) {
        let stop = self.stop(node);
        self.set(
            node,
            Stop {
                color: Color::Grey,
                before,
                ..stop
            },
        );
    }

    // The node where the walk is next.
    fn step(&mut self, search: &mut Search, here: u32) -> Result<u32, NoMemory> {
        let stop = self.stop(here);
        let place = next_carrying(search, stop.current, here);
        self.set(
            here,
            Stop {
                current: place,
                ..stop
            },
        );
        if place == NONE {
            self.paint(here, Color::Black);
            self.order.push(here)?;
            return Ok(stop.before);
        }
        let to = search.graph.hop(place).to;
        match self.stop(to).color {
            Color::White => {
                self.enter(to, here);
                Ok(to)
            }
            Color::Grey => Ok(self.cancel(search, here)),
            Color::Black => {
                self.set(
                    here,
                    Stop {
                        current: place.wrapping_add(1),
                        ..stop
                    },
                );
                Ok(here)
            }
        }
    }

    // Takes away what flows round, and leaves the nodes behind the first arc that carries nothing
    // any more. The node before that arc.
    fn cancel(&mut self, search: &mut Search, here: u32) -> u32 {
        let n = search.graph.node_count();
        let mut least = i64::MAX;
        let mut node = here;
        for _ in 0..n {
            let hop = search.graph.hop(self.stop(node).current);
            least = least.min(hop.room);
            node = hop.to;
            if node == here {
                break;
            }
        }
        for _ in 0..n {
            let place = self.stop(node).current;
            search.graph.push(place, least);
            node = search.graph.hop(place).to;
            if node == here {
                break;
            }
        }
        self.back_to(search, here)
    }

    // The first node of the path, from where it was met again, whose hop carries nothing; those
    // behind it are left.
    fn back_to(&mut self, search: &Search, here: u32) -> u32 {
        let mut empty = NONE;
        let mut node = search.graph.hop(self.stop(here).current).to;
        for _ in 0..search.graph.node_count() {
            if node == here {
                break;
            }
            let hop = search.graph.hop(self.stop(node).current);
            if empty != NONE {
                self.paint(node, Color::White);
            } else if hop.room == 0 {
                empty = node;
            }
            node = hop.to;
        }
        if empty == NONE {
            return here;
        }
        self.paint(here, Color::White);
        empty
    }
}

// The first hop of a node against an arc that carries something, from a place on, or NONE.
fn next_carrying(search: &Search, from: u32, node: u32) -> u32 {
    for place in from..search.graph.begin(node.wrapping_add(1)) {
        if search.graph.hop(place).room > 0 {
            return place;
        }
    }
    NONE
}

// Sends the excess of a node back along its hops against arcs.
fn give_back(search: &mut Search, node: u32) {
    let begin = search.graph.begin_against(node);
    let end = search.graph.begin(node.wrapping_add(1));
    let mut excess = search.excess(node);
    for place in begin..end {
        if excess <= 0 {
            break;
        }
        let hop = search.graph.hop(place);
        let amount = hop.room.min(excess);
        search.graph.push(place, amount);
        let there = search.excess(hop.to).wrapping_add(amount);
        search.set_excess(hop.to, there);
        excess = excess.wrapping_sub(amount);
    }
    search.set_excess(node, excess);
}
