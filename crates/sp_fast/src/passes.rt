//! Corrections pass by pass.

use crate::graph::Graph;
use crate::labels::{End, Label, Labels};
use crate::rows::{NONE, at, put};
use leda_base::NoMemory;
use std::alloc::Global;

// What a place has to do with the pass that is run.
#[derive(Clone, Copy, PartialEq, Eq)]
enum State {
    Idle,
    // its label fell since its arcs were looked at
    Waiting,
    // its arcs are to be looked at in this pass
    Sorted,
}

// The passes of A. V. Goldberg and T. Radzik (A heuristic improvement of the Bellman-Ford
// algorithm, 1993): what lies behind places whose labels fell, along arcs that aren't longer than
// the difference of the labels, is sorted along these arcs and looked at in this order, so that a
// label falls once where it fell once for each arc before.
#[derive(Drop)]
pub(crate) struct Passes {
    states: Vec<State>,
    waiting: Vec<u32>,
    waits: u32,
    // the last one comes first
    sorted: Vec<u32>,
    sorts: u32,
    // for a place on the way down: how far its row was looked at, and the place before it
    looked: Vec<u32>,
    above: Vec<u32>,
}

impl Passes {
    pub(crate) fn new(alloc: Global, count: u32) -> Result<Passes, NoMemory> {
        Ok(Passes {
            states: vec![in alloc; State::Idle; count as usize]?,
            waiting: vec![in alloc; NONE; count as usize]?,
            waits: 0,
            sorted: vec![in alloc; NONE; count as usize]?,
            sorts: 0,
            looked: vec![in alloc; 0u32; count as usize]?,
            above: vec![in alloc; NONE; count as usize]?,
        })
    }

    #[inline(always)]
    fn state_at(&self, place: u32) -> State {
        let place = place as usize;
        let states = self.states.as_slice();
        if place < states.len() {
            states[place]
        } else {
            State::Sorted
        }
    }

    #[inline(always)]
    fn set_state(&mut self, place: u32, state: State) {
        let place = place as usize;
        if place < self.states.len() {
            self.states[place] = state;
        }
    }

    fn wait(&mut self, place: u32) {
        self.set_state(place, State::Waiting);
        put(self.waiting.as_mut_slice(), self.waits, place);
        self.waits = self.waits.wrapping_add(1);
    }

    // Corrects the labels of a component by its own arcs.
    //
    // Last arcs are run over each time as many places were looked at as the component has, so that
    // this costs no more than the passes themselves.
    pub(crate) fn correct(
        &mut self,
        graph: &Graph,
        labels: &mut Labels,
        begin: u32,
        end: u32,
    ) -> End {
        for place in begin..end {
            if !labels.is_free(place) {
                self.wait(place);
            }
        }
        let size = end.saturating_sub(begin);
        let mut work = 0u32;
        for _ in 0..size.saturating_mul(4).saturating_add(4) {
            if self.waits == 0 {
                return End::Settled;
            }
            self.sort(graph, labels, end);
            self.relax_sorted(graph, labels, end);
            work = work.saturating_add(self.sorts);
            if work >= size {
                work = 0;
                let place = labels.place_on_cycle(begin, end);
                if place != NONE {
                    return End::Cycle(place);
                }
            }
        }
        End::Unsettled
    }

    // Sorts what lies behind the places that wait and have an arc along which a label can fall.
    fn sort(&mut self, graph: &Graph, labels: &Labels, end: u32) {
        let waits = self.waits;
        self.waits = 0;
        self.sorts = 0;
        for turn in 0..waits {
            let place = at(self.waiting.as_slice(), turn);
            if self.state_at(place) == State::Waiting {
                if can_fall_behind(graph, labels, place, end) {
                    self.descend(graph, labels, place, end);
                } else {
                    self.set_state(place, State::Idle);
                }
            }
        }
    }

    // A depth-first search; each place is sorted before all that lie behind it.
    fn descend(&mut self, graph: &Graph, labels: &Labels, root: u32, end: u32) {
        self.enter(graph, root, NONE);
        let mut place = root;
        for _ in 0..graph.count.saturating_mul(2) {
            let next = self.next(graph, labels, place, end);
            if next != NONE {
                self.enter(graph, next, place);
                place = next;
            } else {
                put(self.sorted.as_mut_slice(), self.sorts, place);
                self.sorts = self.sorts.wrapping_add(1);
                place = at(self.above.as_slice(), place);
                if place == NONE {
                    return;
                }
            }
        }
    }

    fn enter(&mut self, graph: &Graph, place: u32, above: u32) {
        self.set_state(place, State::Sorted);
        put(self.above.as_mut_slice(), place, above);
        put(self.looked.as_mut_slice(), place, graph.offset(place));
    }

    // The next place behind one, or NONE.
    fn next(&mut self, graph: &Graph, labels: &Labels, place: u32, end: u32) -> u32 {
        let dist = labels.dist(place);
        let mut offset = at(self.looked.as_slice(), place);
        for hop in graph.row_from(place, offset) {
            offset = offset.wrapping_add(1);
            if hop.to < end
                && dist.wrapping_add(hop.cost) <= labels.dist(hop.to)
                && self.state_at(hop.to) != State::Sorted
            {
                put(self.looked.as_mut_slice(), place, offset);
                return hop.to;
            }
        }
        NONE
    }

    fn relax_sorted(&mut self, graph: &Graph, labels: &mut Labels, end: u32) {
        for turn in 0..self.sorts {
            let last = self.sorts.wrapping_sub(1).wrapping_sub(turn);
            let place = at(self.sorted.as_slice(), last);
            self.set_state(place, State::Idle);
            self.relax(graph, labels, place, end);
        }
    }

    // Lowers labels along the arcs from a place within its component. Those that fell wait, unless
    // their turn in this pass is to come.
    fn relax(&mut self, graph: &Graph, labels: &mut Labels, place: u32, end: u32) {
        let before = labels.dist(place);
        for hop in graph.row(place) {
            let dist = before.wrapping_add(hop.cost);
            if hop.to < end && dist < labels.dist(hop.to) {
                labels.set(
                    hop.to,
                    Label {
                        dist,
                        from: place,
                        arc: hop.arc,
                    },
                );
                if self.state_at(hop.to) == State::Idle {
                    self.wait(hop.to);
                }
            }
        }
    }
}

// Whether a label can fall along an arc from a place within its component.
fn can_fall_behind(graph: &Graph, labels: &Labels, place: u32, end: u32) -> bool {
    let dist = labels.dist(place);
    for hop in graph.row(place) {
        if hop.to < end && dist.wrapping_add(hop.cost) < labels.dist(hop.to) {
            return true;
        }
    }
    false
}
