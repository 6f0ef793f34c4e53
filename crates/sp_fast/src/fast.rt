//! The fast search.

use crate::components::Components;
use crate::graph::Graph;
use crate::labels::{End, Labels};
use crate::lows::{Block, Lows};
use crate::passes::Passes;
use crate::rows::{NONE, at, is_set, put, set};
use crate::scans::Scans;
use crate::trees::Trees;
use graph_defs::{Finite, Low, Net, SpAnswer};
use leda_base::{NoMemory, Row};
use std::alloc::Global;

// How often the arcs may be looked at: where labels are corrected as they fall, where they are
// corrected with a tree of last arcs, and so within a component.
#[derive(Clone, Copy)]
pub(crate) struct Patience {
    pub(crate) scans: u32,
    pub(crate) whole: u32,
    pub(crate) within: u32,
}

pub(crate) const PATIENCE: Patience = Patience {
    scans: 3,
    whole: 3,
    within: 4,
};

// Distances, seeds and low nodes. Nothing is claimed of them here.
pub(crate) fn propose(
    alloc: Global,
    net: &Net,
    s: u32,
    cost: &[i64],
    patience: Patience,
) -> Result<SpAnswer, NoMemory> {
    let graph = Graph::whole(alloc, net, cost)?;
    let mut labels = Labels::new(alloc, graph.count, s)?;
    let mut scans = Scans::new(alloc, graph.count)?;
    if let End::Settled = scans.correct(&graph, &mut labels, s, patience.scans) {
        return answer_of(
            alloc,
            net.n,
            &graph,
            &labels,
            Lows::new(alloc, graph.count)?,
        );
    }
    let mut search = Search::new(alloc, graph.count, s)?;
    let end = search
        .trees
        .correct(&graph, &mut search.labels, 0, graph.count, patience.whole);
    if let End::Settled = end {
        return search.answer(alloc, net.n, &graph);
    }
    let components = Components::of(alloc, &graph, s)?;
    let graph = graph.in_order(alloc, &components)?;
    let mut search = Search::new(alloc, graph.count, 0)?;
    search.settle(alloc, &graph, patience.within)?;
    search.answer(alloc, net.n, &graph)
}

#[derive(Drop)]
struct Search {
    labels: Labels,
    trees: Trees,
    passes: Passes,
    lows: Lows,
}

impl Search {
    fn new(alloc: Global, count: u32, source: u32) -> Result<Search, NoMemory> {
        Ok(Search {
            labels: Labels::new(alloc, count, source)?,
            trees: Trees::new(alloc, count)?,
            passes: Passes::new(alloc, count)?,
            lows: Lows::new(alloc, count)?,
        })
    }

    // One component after another.
    fn settle(&mut self, alloc: Global, graph: &Graph, often: u32) -> Result<(), NoMemory> {
        let mut begin = 0;
        for _ in 0..graph.count {
            if begin >= graph.count {
                break;
            }
            let end = graph.end_at(begin);
            if !self.lows.is_low(begin) {
                self.settle_one(alloc, graph, begin, end, often)?;
            }
            begin = end;
        }
        Ok(())
    }

    fn settle_one(
        &mut self,
        alloc: Global,
        graph: &Graph,
        begin: u32,
        end: u32,
        often: u32,
    ) -> Result<(), NoMemory> {
        let entry = self.labels.first(begin, end);
        let gate = self.labels.get(entry);
        match self.correct(graph, begin, end, often) {
            End::Settled | End::Unsettled => {
                self.labels.leave(graph, begin, end);
                Ok(())
            }
            End::Cycle(place) => {
                let block = Block {
                    begin,
                    end,
                    entry,
                    gate,
                };
                self.lows.add(alloc, graph, &self.labels, block, place)
            }
        }
    }

    fn correct(&mut self, graph: &Graph, begin: u32, end: u32, often: u32) -> End {
        match self
            .trees
            .correct(graph, &mut self.labels, begin, end, often)
        {
            End::Settled => End::Settled,
            End::Cycle(place) => End::Cycle(place),
            End::Unsettled => self.passes.correct(graph, &mut self.labels, begin, end),
        }
    }

    fn answer(self, alloc: Global, n: u32, graph: &Graph) -> Result<SpAnswer, NoMemory> {
        let Search { labels, lows, .. } = self;
        answer_of(alloc, n, graph, &labels, lows)
    }
}

// What labels and low nodes tell.
fn answer_of(
    alloc: Global,
    n: u32,
    graph: &Graph,
    labels: &Labels,
    lows: Lows,
) -> Result<SpAnswer, NoMemory> {
    let finite = finite_of(alloc, graph, labels, &lows)?;
    let Lows { low, seeds, .. } = lows;
    let unreached = unreached_of(alloc, n, finite.as_slice(), low.as_slice())?;
    Ok(SpAnswer {
        finite: Row::from_vec(finite),
        seeds: Row::from_vec(seeds),
        low: Row::from_vec(low),
        unreached: Row::from_vec(unreached),
    })
}

// The nodes with labels that aren't low, each behind the one that its last arc comes from.
fn finite_of(
    alloc: Global,
    graph: &Graph,
    labels: &Labels,
    lows: &Lows,
) -> Result<Vec<Finite>, NoMemory> {
    let mut finite = Vec::with_capacity(alloc, graph.count as usize)?;
    let mut told = vec![in alloc; false; graph.count as usize]?;
    let mut stack = vec![in alloc; NONE; graph.count as usize]?;
    for place in 0..graph.count {
        let mut height = 0u32;
        let mut here = place;
        for _ in 0..graph.count {
            if labels.is_free(here) || lows.is_low(here) || is_set(told.as_slice(), here) {
                break;
            }
            set(told.as_mut_slice(), here);
            put(stack.as_mut_slice(), height, here);
            height = height.wrapping_add(1);
            here = labels.get(here).from;
        }
        for turn in 0..height {
            let above = height.wrapping_sub(1).wrapping_sub(turn);
            let next = at(stack.as_slice(), above);
            finite.push(told_of(graph, labels, next))?;
        }
    }
    Ok(finite)
}

fn told_of(graph: &Graph, labels: &Labels, place: u32) -> Finite {
    let label = labels.get(place);
    let pred = if label.arc == NONE {
        None
    } else {
        Some(label.arc)
    };
    Finite {
        node: graph.node_at(place),
        dist: label.dist,
        pred,
    }
}

// The nodes that are neither finite nor low, in their order.
fn unreached_of(
    alloc: Global,
    n: u32,
    finite: &[Finite],
    low: &[Low],
) -> Result<Vec<u32>, NoMemory> {
    let mut reached = vec![in alloc; false; n as usize]?;
    for one in finite {
        set(reached.as_mut_slice(), one.node);
    }
    for one in low {
        set(reached.as_mut_slice(), one.node);
    }
    let mut unreached = Vec::new(alloc);
    for node in 0..n {
        if !is_set(reached.as_slice(), node) {
            unreached.push(node)?;
        }
    }
    Ok(unreached)
}
