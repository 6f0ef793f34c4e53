//! Shortest paths from the source to the sink, filled as long as that takes little work.

use crate::meet::{End, MIDDLE, Side, Stop, Stops, UNMET};
use crate::residual::{NONE, Residual};
use leda_base::{NoMemory, Row};
use std::alloc::Global;

// A path of k hops that is filled counts as k * k / LENGTH looks at a hop: pushes are better where
// paths are long.
const LENGTH: u64 = 8;

/// A flow along shortest paths. Each round meets nodes from both ends by turns, those of the end
/// where fewer have the last level, and then fills all paths that are shortest now until each of
/// them has a hop without room (E. A. Dinic, Algorithm for solution of a problem of maximum flow in
/// networks with power estimation, 1970).
#[derive(Drop)]
pub(crate) struct Paths {
    stops: Stops,
    ahead: Side,
    behind: Side,
    // the nodes of the path so far but the last one
    path: Vec<u32>,
    n: u32,
    source: u32,
    sink: u32,
    value: i64,
    // the work beside that of meeting nodes, and how much all of it may be
    work: u64,
    patience: u64,
    // the end from which the other one can't be met
    closed: Option<End>,
}

impl Paths {
    pub(crate) fn new(
        alloc: Global,
        n: u32,
        source: u32,
        sink: u32,
        patience: u64,
    ) -> Result<Paths, NoMemory> {
        Ok(Paths {
            stops: Stops::new(alloc, n)?,
            ahead: Side::new(alloc, End::Source, n)?,
            behind: Side::new(alloc, End::Sink, n)?,
            path: Vec::with_capacity(alloc, n as usize)?,
            n,
            source,
            sink,
            value: 0,
            work: 0,
            patience,
            closed: None,
        })
    }

    /// What flows along all paths.
    pub(crate) fn value(&self) -> i64 {
        self.value
    }

    /// The nodes that are met from the source where the sink isn't, else those that aren't met from
    /// the sink.
    pub(crate) fn cut(&self, alloc: Global) -> Result<Row<u32>, NoMemory> {
        let mut cut = Row::new(alloc);
        for node in 0..self.n {
            if self.is_cut_off(self.stops.at(node).level) {
                cut.push(node)?;
            }
        }
        Ok(cut)
    }

    fn is_cut_off(&self, level: u32) -> bool {
        match self.closed {
            Some(End::Source) => UNMET < level && level < MIDDLE,
            Some(End::Sink) | None => level < MIDDLE,
        }
    }

    /// Fills paths. Whether there are no more; else the work was too much.
    pub(crate) fn run(&mut self, graph: &mut Residual) -> Result<bool, NoMemory> {
        for _ in 0..u64::MAX {
            if self.is_out_of_patience() {
                break;
            }
            self.closed = self.meet(graph)?;
            if self.closed.is_some() {
                return Ok(true);
            }
            self.fill(graph)?;
        }
        Ok(false)
    }

    fn is_out_of_patience(&self) -> bool {
        let looked = self.ahead.looked().saturating_add(self.behind.looked());
        self.work.saturating_add(looked) >= self.patience
    }

    // Meets nodes from both ends until a shortest path is found. The end from which there is none.
    fn meet(&mut self, graph: &Residual) -> Result<Option<End>, NoMemory> {
        self.stops.clear();
        self.ahead.start(graph, &mut self.stops, self.source)?;
        self.behind.start(graph, &mut self.stops, self.sink)?;
        for _ in 0..u64::MAX {
            let (ahead, behind) = (self.ahead.width(), self.behind.width());
            if ahead == 0 {
                return Ok(Some(End::Source));
            }
            if behind == 0 {
                return Ok(Some(End::Sink));
            }
            let is_met = if ahead <= behind {
                let goal = self.behind.level();
                self.ahead.spread(graph, &mut self.stops, goal)?
            } else {
                let goal = self.ahead.level();
                self.behind.spread(graph, &mut self.stops, goal)?
            };
            if is_met {
                break;
            }
        }
        Ok(None)
    }

    // Fills shortest paths until none is left, or the work is too much.
    fn fill(&mut self, graph: &mut Residual) -> Result<(), NoMemory> {
        self.path.clear();
        let mut node = self.source;
        for _ in 0..u64::MAX {
            if node == self.sink {
                node = self.augment(graph);
                if self.is_out_of_patience() {
                    break;
                }
            }
            let next = self.advance(graph, node);
            if next != NONE {
                self.path.push(node)?;
                node = next;
            } else if let Some(before) = self.path.pop() {
                self.stops.set_aside(node);
                node = before;
            } else {
                break;
            }
        }
        Ok(())
    }

    // The next node of a shortest path, or NONE where there is none.
    fn advance(&mut self, graph: &Residual, node: u32) -> u32 {
        let stop = self.stops.at(node);
        let next = if stop.level == self.ahead.level() {
            self.behind.level()
        } else {
            stop.level.wrapping_add(1)
        };
        let end = graph.begin(node.wrapping_add(1));
        for place in stop.current..end {
            let hop = graph.hop(place);
            if hop.room > 0 && self.stops.at(hop.to).level == next {
                self.go_on_at(node, stop, place);
                return hop.to;
            }
        }
        self.go_on_at(node, stop, end);
        NONE
    }

    fn go_on_at(&mut self, node: u32, stop: Stop, current: u32) {
        let looked = u64::from(current.saturating_sub(stop.current));
        self.work = self.work.saturating_add(looked).saturating_add(1);
        self.stops.set(node, Stop { current, ..stop });
    }

    // Fills the path. The first node on it whose hop has no room any more.
    fn augment(&mut self, graph: &mut Residual) -> u32 {
        let count = self.path.len();
        let mut least = i64::MAX;
        for turn in 0..count {
            least = least.min(graph.hop(self.hop_on_path(turn)).room);
        }
        let mut kept = 0;
        for turn in (0..count).rev() {
            let place = self.hop_on_path(turn);
            graph.push(place, least);
            if graph.hop(place).room == 0 {
                kept = turn;
            }
        }
        self.value = self.value.wrapping_add(least);
        let length = count as u64;
        self.work = self
            .work
            .saturating_add(length.saturating_mul(length) / LENGTH);
        let node = self.on_path(kept);
        self.path.truncate(kept);
        node
    }

    fn on_path(&self, turn: usize) -> u32 {
        let path = self.path.as_slice();
        if turn < path.len() { path[turn] } else { NONE }
    }

    fn hop_on_path(&self, turn: usize) -> u32 {
        self.stops.at(self.on_path(turn)).current
    }
}
