//! Closed walks of negative weight, and the nodes that are low for them.

use crate::graph::Graph;
use crate::labels::{Label, Labels};
use crate::rows::{NONE, at, is_set, put, set};
use graph_defs::{Low, Seed, Why};
use leda_base::{NoMemory, Row};
use std::alloc::Global;

// A component, and the first of its places that has a label from outside, with this label.
#[derive(Clone, Copy)]
pub(crate) struct Block {
    pub(crate) begin: u32,
    pub(crate) end: u32,
    pub(crate) entry: u32,
    pub(crate) gate: Label,
}

// The low nodes that were found, each behind the one that it is reached from.
#[derive(Drop)]
pub(crate) struct Lows {
    marks: Vec<bool>,
    places: Vec<u32>,
    pub(crate) low: Vec<Low>,
    pub(crate) seeds: Vec<Seed>,
}

impl Lows {
    pub(crate) fn new(alloc: Global, count: u32) -> Result<Lows, NoMemory> {
        Ok(Lows {
            marks: vec![in alloc; false; count as usize]?,
            places: Vec::new(alloc),
            low: Vec::new(alloc),
            seeds: Vec::new(alloc),
        })
    }

    pub(crate) fn is_low(&self, place: u32) -> bool {
        is_set(self.marks.as_slice(), place)
    }

    // A place of the component lies on a closed walk of negative weight along last arcs: all that
    // arcs lead to from there is low.
    pub(crate) fn add(
        &mut self,
        alloc: Global,
        graph: &Graph,
        labels: &Labels,
        block: Block,
        place: u32,
    ) -> Result<(), NoMemory> {
        let head = self.places.len();
        let number = u32::try_from(self.seeds.len()).unwrap_or(NONE);
        let mut here = place;
        for _ in block.begin..block.end {
            self.find(graph, here, Why::Seed(number))?;
            here = labels.get(here).from;
            if here == place {
                break;
            }
        }
        let seed = self.seed_of(alloc, graph, labels, block)?;
        self.seeds.push(seed)?;
        self.spread(graph, head)
    }

    fn find(&mut self, graph: &Graph, place: u32, why: Why) -> Result<(), NoMemory> {
        if !self.is_low(place) {
            set(self.marks.as_mut_slice(), place);
            self.places.push(place)?;
            self.low.push(Low {
                node: graph.node_at(place),
                why,
            })?;
        }
        Ok(())
    }

    // Finds all that arcs lead to, from a place of the queue on.
    fn spread(&mut self, graph: &Graph, head: usize) -> Result<(), NoMemory> {
        let first = u32::try_from(head).unwrap_or(NONE);
        for turn in first..graph.count {
            if turn as usize >= self.places.len() {
                break;
            }
            let place = at(self.places.as_slice(), turn);
            for hop in graph.row(place) {
                self.find(graph, hop.to, Why::Arc(hop.arc))?;
            }
        }
        Ok(())
    }

    // A walk to the marked places of a component, from the node from which it is entered, and the
    // closed walk from where it ends.
    fn seed_of(
        &self,
        alloc: Global,
        graph: &Graph,
        labels: &Labels,
        block: Block,
    ) -> Result<Seed, NoMemory> {
        let mut walk = Vec::new(alloc);
        let end = self.walk_within(alloc, graph, block, &mut walk)?;
        let mut cycle = Vec::new(alloc);
        let mut here = end;
        for _ in block.begin..block.end {
            let label = labels.get(here);
            cycle.push(label.arc)?;
            here = label.from;
            if here == end {
                break;
            }
        }
        let mut start = block.entry;
        if block.gate.from != NONE {
            walk.push(block.gate.arc)?;
            start = block.gate.from;
        }
        walk.as_mut_slice().reverse();
        cycle.as_mut_slice().reverse();
        Ok(Seed {
            start: graph.node_at(start),
            walk: Row::from_vec(walk),
            cycle: Row::from_vec(cycle),
        })
    }

    // The arcs of a walk within a component from its entry to the first marked place, the last arc
    // first. Where it ends.
    fn walk_within(
        &self,
        alloc: Global,
        graph: &Graph,
        block: Block,
        walk: &mut Vec<u32>,
    ) -> Result<u32, NoMemory> {
        let size = block.end.saturating_sub(block.begin);
        let mut tree = Tree::new(alloc, block, size)?;
        let end = tree.search(graph, self.marks.as_slice());
        let mut here = end;
        for _ in 0..size {
            if here == block.entry || here == NONE {
                break;
            }
            let place = here.wrapping_sub(block.begin);
            walk.push(at(tree.arcs.as_slice(), place))?;
            here = at(tree.froms.as_slice(), place);
        }
        Ok(end)
    }
}

// A breadth-first tree within a component, its rows by place from where the component begins.
#[derive(Drop)]
struct Tree {
    block: Block,
    froms: Vec<u32>,
    arcs: Vec<u32>,
    queue: Vec<u32>,
    tail: u32,
}

impl Tree {
    fn new(alloc: Global, block: Block, size: u32) -> Result<Tree, NoMemory> {
        Ok(Tree {
            block,
            froms: vec![in alloc; NONE; size as usize]?,
            arcs: vec![in alloc; NONE; size as usize]?,
            queue: vec![in alloc; NONE; size as usize]?,
            tail: 0,
        })
    }

    // From the entry to the first marked place, or NONE.
    fn search(&mut self, graph: &Graph, marks: &[bool]) -> u32 {
        self.reach(self.block.entry, self.block.entry, NONE);
        for head in self.block.begin..self.block.end {
            let turn = head.wrapping_sub(self.block.begin);
            if turn >= self.tail {
                break;
            }
            let place = at(self.queue.as_slice(), turn);
            if is_set(marks, place) {
                return place;
            }
            for hop in graph.row(place) {
                if hop.to < self.block.end {
                    self.reach(hop.to, place, hop.arc);
                }
            }
        }
        NONE
    }

    fn reach(&mut self, place: u32, from: u32, arc: u32) {
        let mine = place.wrapping_sub(self.block.begin);
        if at(self.froms.as_slice(), mine) == NONE {
            put(self.froms.as_mut_slice(), mine, from);
            put(self.arcs.as_mut_slice(), mine, arc);
            put(self.queue.as_mut_slice(), self.tail, place);
            self.tail = self.tail.wrapping_add(1);
        }
    }
}
