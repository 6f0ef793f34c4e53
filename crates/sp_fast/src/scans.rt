//! Corrections in the order in which labels fall.

use crate::graph::Graph;
use crate::labels::{End, Label, Labels};
use crate::rows::{is_set, put_bool};
use crate::waiting::Waiting;
use leda_base::NoMemory;
use std::alloc::Global;

// Places whose labels fell wait in a queue for a look at their arcs (R. Bellman, On a routing
// problem, 1958). One whose last arc comes from a place that waits is passed over: its label will
// fall again by that arc, and it waits again then (B. V. Cherkassky, A. V. Goldberg, T. Radzik,
// Shortest paths algorithms: theory and experimental evaluation, 1996).
//
// Where labels fall seldom this is the least work. Closed walks of negative weight aren't found.
#[derive(Drop)]
pub(crate) struct Scans {
    waits: Vec<bool>,
    waiting: Waiting,
}

impl Scans {
    pub(crate) fn new(alloc: Global, count: u32) -> Result<Scans, NoMemory> {
        Ok(Scans {
            waits: vec![in alloc; false; count as usize]?,
            waiting: Waiting::new(alloc, count)?,
        })
    }

    // Corrects the labels of all places from the source on, as long as the arcs are looked at this
    // often at most.
    pub(crate) fn correct(
        &mut self,
        graph: &Graph,
        labels: &mut Labels,
        source: u32,
        often: u32,
    ) -> End {
        let limit = graph
            .offset(graph.count)
            .saturating_add(graph.count)
            .saturating_mul(often);
        let mut looks = 0u32;
        self.wait(source);
        for _ in 0..limit {
            if self.waiting.is_empty() {
                return End::Settled;
            }
            let place = self.waiting.take();
            put_bool(self.waits.as_mut_slice(), place, false);
            let label = labels.get(place);
            if !is_set(self.waits.as_slice(), label.from) {
                looks = looks.saturating_add(graph.degree(place));
                if looks > limit {
                    return End::Unsettled;
                }
                self.relax(graph, labels, place, label.dist);
            }
        }
        End::Unsettled
    }

    fn wait(&mut self, place: u32) {
        put_bool(self.waits.as_mut_slice(), place, true);
        self.waiting.push(place);
    }

    // Lowers labels along the arcs from a place at a distance.
    fn relax(&mut self, graph: &Graph, labels: &mut Labels, place: u32, before: i64) {
        for hop in graph.row(place) {
            let dist = before.wrapping_add(hop.cost);
            if dist < labels.dist(hop.to) {
                labels.set(
                    hop.to,
                    Label {
                        dist,
                        from: place,
                        arc: hop.arc,
                    },
                );
                if !is_set(self.waits.as_slice(), hop.to) {
                    self.wait(hop.to);
                }
            }
        }
    }
}
