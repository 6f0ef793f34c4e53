//! A breadth first search from both ends.

use crate::residual::{Hop, NONE, Residual};
use leda_base::NoMemory;
use std::alloc::Global;

/// The level of a node that wasn't met, or was set aside.
pub(crate) const UNMET: u32 = 0;

/// The level of the source. Each hop from there has one more.
pub(crate) const AT_SOURCE: u32 = 1;

/// The level of the sink. Each hop back from there has one less.
pub(crate) const AT_SINK: u32 = 0x8000_0000;

/// Levels from the source are below this number, those from the sink above it.
pub(crate) const MIDDLE: u32 = AT_SINK / 2;

/// The level of a node, and its hop to be looked at next.
#[derive(Clone, Copy)]
pub(crate) struct Stop {
    pub(crate) level: u32,
    pub(crate) current: u32,
}

const NOWHERE: Stop = Stop {
    level: UNMET,
    current: NONE,
};

/// The levels of all nodes.
#[derive(Drop)]
pub(crate) struct Stops {
    stops: Vec<Stop>,
}

impl Stops {
    pub(crate) fn new(alloc: Global, n: u32) -> Result<Stops, NoMemory> {
        Ok(Stops {
            stops: vec![in alloc; NOWHERE; n as usize]?,
        })
    }

    /// No node was met.
    pub(crate) fn clear(&mut self) {
        self.stops.as_mut_slice().fill(NOWHERE);
    }

    /// A shortest path doesn't go by this node.
    pub(crate) fn set_aside(&mut self, node: u32) {
        self.set(node, NOWHERE);
    }

    #[inline(always)]
    pub(crate) fn at(&self, node: u32) -> Stop {
        let node = node as usize;
        let stops = self.stops.as_slice();
        if node < stops.len() {
            stops[node]
        } else {
            NOWHERE
        }
    }

    #[inline(always)]
    pub(crate) fn set(&mut self, node: u32, stop: Stop) {
        let node = node as usize;
        if node < self.stops.len() {
            self.stops[node] = stop;
        }
    }
}

/// An end of the paths.
#[derive(Clone, Copy, PartialEq, Eq)]
pub(crate) enum End {
    Source,
    Sink,
}

/// The nodes met from one end, in the order of their distance from there.
#[derive(Drop)]
pub(crate) struct Side {
    end: End,
    queue: Vec<u32>,
    // where those of the last level begin
    begin: usize,
    level: u32,
    looked: u64,
}

impl Side {
    pub(crate) fn new(alloc: Global, end: End, n: u32) -> Result<Side, NoMemory> {
        Ok(Side {
            end,
            queue: Vec::with_capacity(alloc, n as usize)?,
            begin: 0,
            level: UNMET,
            looked: 0,
        })
    }

    /// Meets the end itself.
    pub(crate) fn start(
        &mut self,
        graph: &Residual,
        stops: &mut Stops,
        node: u32,
    ) -> Result<(), NoMemory> {
        self.queue.clear();
        self.begin = 0;
        self.level = match self.end {
            End::Source => AT_SOURCE,
            End::Sink => AT_SINK,
        };
        self.meet(graph, stops, node, self.level)
    }

    /// The last level.
    pub(crate) fn level(&self) -> u32 {
        self.level
    }

    /// How many nodes have the last level.
    pub(crate) fn width(&self) -> usize {
        self.queue.len().saturating_sub(self.begin)
    }

    /// How many hops were looked at, from the beginning.
    pub(crate) fn looked(&self) -> u64 {
        self.looked
    }

    /// Meets the nodes that are one hop further. Whether a hop leads to a node with the goal's level;
    /// else those that were met have the last level now.
    pub(crate) fn spread(
        &mut self,
        graph: &Residual,
        stops: &mut Stops,
        goal: u32,
    ) -> Result<bool, NoMemory> {
        let next = match self.end {
            End::Source => self.level.wrapping_add(1),
            End::Sink => self.level.wrapping_sub(1),
        };
        let last = self.queue.len();
        let mut is_met = false;
        for turn in self.begin..last {
            if turn >= self.queue.len() {
                break;
            }
            let node = self.queue[turn];
            if self.look_from(graph, stops, node, next, goal)? {
                is_met = true;
            }
        }
        if !is_met {
            self.begin = last;
            self.level = next;
        }
        Ok(is_met)
    }

    // Meets the nodes one hop from this one. Whether one of them has the goal's level.
    #[inline(always)]
    fn look_from(
        &mut self,
        graph: &Residual,
        stops: &mut Stops,
        node: u32,
        next: u32,
        goal: u32,
    ) -> Result<bool, NoMemory> {
        let begin = graph.begin(node);
        let end = graph.begin(node.wrapping_add(1));
        let degree = u64::from(end.saturating_sub(begin));
        self.looked = self.looked.saturating_add(degree);
        let mut is_met = false;
        for place in begin..end {
            let hop = graph.hop(place);
            let level = stops.at(hop.to).level;
            if (level == UNMET || level == goal) && self.is_open(graph, hop) {
                if level == goal {
                    is_met = true;
                } else {
                    self.meet(graph, stops, hop.to, next)?;
                }
            }
        }
        Ok(is_met)
    }

    // Whether a hop, seen from the node that was met, leads on from the source or back from the sink.
    #[inline(always)]
    fn is_open(&self, graph: &Residual, hop: Hop) -> bool {
        match self.end {
            End::Source => hop.room > 0,
            End::Sink => graph.hop(hop.twin).room > 0,
        }
    }

    #[inline(always)]
    fn meet(
        &mut self,
        graph: &Residual,
        stops: &mut Stops,
        node: u32,
        level: u32,
    ) -> Result<(), NoMemory> {
        let current = graph.begin(node);
        stops.set(node, Stop { level, current });
        self.queue.push(node)?;
        Ok(())
    }
}
