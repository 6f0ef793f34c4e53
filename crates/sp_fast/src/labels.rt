//! Labels of places.

use crate::graph::Graph;
use crate::rows::{NONE, at, put};
use leda_base::NoMemory;
use std::alloc::Global;

// The weight of a walk to a place, the place before it on the walk, and the last arc.
#[derive(Clone, Copy)]
pub(crate) struct Label {
    pub(crate) dist: i64,
    pub(crate) from: u32,
    pub(crate) arc: u32,
}

// No walk is known.
const FREE: Label = Label {
    dist: i64::MAX,
    from: NONE,
    arc: NONE,
};

// What a correction of the labels of a component comes to.
#[derive(Clone, Copy)]
pub(crate) enum End {
    // No label can fall any more.
    Settled,
    // A place from which the last arcs lead back to it, so that they make a closed walk of negative
    // weight.
    Cycle(u32),
    // It took too long.
    Unsettled,
}

#[derive(Drop)]
pub(crate) struct Labels {
    labels: Vec<Label>,
    // by place: the last run over last arcs that came there
    stamps: Vec<u32>,
    time: u32,
}

impl Labels {
    pub(crate) fn new(alloc: Global, count: u32, source: u32) -> Result<Labels, NoMemory> {
        let mut labels = Labels {
            labels: vec![in alloc; FREE; count as usize]?,
            stamps: vec![in alloc; 0u32; count as usize]?,
            time: 0,
        };
        labels.set(source, Label { dist: 0, ..FREE });
        Ok(labels)
    }

    #[inline(always)]
    pub(crate) fn get(&self, place: u32) -> Label {
        let place = place as usize;
        let labels = self.labels.as_slice();
        if place < labels.len() {
            labels[place]
        } else {
            FREE
        }
    }

    #[inline(always)]
    pub(crate) fn dist(&self, place: u32) -> i64 {
        self.get(place).dist
    }

    #[inline(always)]
    pub(crate) fn set(&mut self, place: u32, label: Label) {
        let place = place as usize;
        if place < self.labels.len() {
            self.labels[place] = label;
        }
    }

    pub(crate) fn is_free(&self, place: u32) -> bool {
        self.dist(place) == i64::MAX
    }

    // The first place of a component that has a label.
    pub(crate) fn first(&self, begin: u32, end: u32) -> u32 {
        for place in begin..end {
            if !self.is_free(place) {
                return place;
            }
        }
        begin
    }

    // Lowers labels along the arcs that leave a component.
    pub(crate) fn leave(&mut self, graph: &Graph, begin: u32, end: u32) {
        for place in begin..end {
            let before = self.dist(place);
            for hop in graph.row(place) {
                let dist = before.wrapping_add(hop.cost);
                if hop.to >= end && dist < self.dist(hop.to) {
                    self.set(
                        hop.to,
                        Label {
                            dist,
                            from: place,
                            arc: hop.arc,
                        },
                    );
                }
            }
        }
    }

    // A place of a component from which the last arcs lead back to it, or NONE.
    pub(crate) fn place_on_cycle(&mut self, begin: u32, end: u32) -> u32 {
        let old = self.time;
        for first in begin..end {
            self.time = self.time.wrapping_add(1);
            let mut place = first;
            for _ in begin..=end {
                if place < begin || place >= end {
                    break;
                }
                let stamp = at(self.stamps.as_slice(), place);
                if stamp == self.time {
                    return place;
                }
                if stamp > old {
                    break;
                }
                put(self.stamps.as_mut_slice(), place, self.time);
                place = self.get(place).from;
            }
        }
        NONE
    }
}
