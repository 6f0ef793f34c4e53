//! Corrections with a tree of last arcs.

use crate::graph::Graph;
use crate::labels::{End, Label, Labels};
use crate::rows::NONE;
use crate::waiting::Waiting;
use leda_base::NoMemory;
use std::alloc::Global;

// A place in the tree of last arcs. All places of a tree stand in one list, each before those that
// hang from it.
#[derive(Clone, Copy)]
struct Branch {
    before: u32,
    behind: u32,
    // how many hang from it, or NONE for a place that isn't in the tree
    children: u32,
    waits: bool,
}

const FREE: Branch = Branch {
    before: NONE,
    behind: NONE,
    children: NONE,
    waits: false,
};

// Places wait in a queue for a look at their arcs. Where a label falls, all that hung from its
// place is taken out of the tree, since its labels will fall too, and isn't looked at before
// (R. E. Tarjan, Shortest paths, 1981). Where the arc comes from what hung from its end, last arcs
// make a closed walk of negative weight.
#[derive(Drop)]
pub(crate) struct Trees {
    branches: Vec<Branch>,
    // as many places as the component has
    waiting: Waiting,
    size: u32,
}

impl Trees {
    pub(crate) fn new(alloc: Global, count: u32) -> Result<Trees, NoMemory> {
        Ok(Trees {
            branches: vec![in alloc; FREE; count as usize]?,
            waiting: Waiting::new(alloc, count)?,
            size: 0,
        })
    }

    #[inline(always)]
    fn branch(&self, place: u32) -> Branch {
        let place = place as usize;
        let branches = self.branches.as_slice();
        if place < branches.len() {
            branches[place]
        } else {
            FREE
        }
    }

    #[inline(always)]
    fn set(&mut self, place: u32, branch: Branch) {
        let place = place as usize;
        if place < self.branches.len() {
            self.branches[place] = branch;
        }
    }

    // The first place that waits, which doesn't from now on.
    fn take(&mut self) -> u32 {
        let place = self.waiting.take();
        let branch = self.branch(place);
        self.set(
            place,
            Branch {
                waits: false,
                ..branch
            },
        );
        place
    }

    // Corrects the labels of a block by its own arcs, as long as these are looked at this often at
    // most.
    pub(crate) fn correct(
        &mut self,
        graph: &Graph,
        labels: &mut Labels,
        begin: u32,
        end: u32,
        often: u32,
    ) -> End {
        self.start(labels, begin, end);
        let arcs = graph.offset(end).saturating_sub(graph.offset(begin));
        let limit = arcs.saturating_add(self.size).saturating_mul(often);
        let mut looks = 0u32;
        for _ in 0..limit {
            if self.waiting.is_empty() {
                return End::Settled;
            }
            let place = self.take();
            if self.branch(place).children != NONE {
                looks = looks.saturating_add(graph.degree(place));
                if looks > limit {
                    return End::Unsettled;
                }
                let cycle = self.relax(graph, labels, place, end);
                if cycle != NONE {
                    return End::Cycle(cycle);
                }
            }
        }
        End::Unsettled
    }

    // A tree for each place that has a label.
    fn start(&mut self, labels: &Labels, begin: u32, end: u32) {
        self.size = end.saturating_sub(begin);
        self.waiting.clear(self.size);
        for place in begin..end {
            if !labels.is_free(place) {
                self.set(
                    place,
                    Branch {
                        children: 0,
                        waits: true,
                        ..FREE
                    },
                );
                self.waiting.push(place);
            }
        }
    }

    // Lowers labels along the arcs from a place within its component. Where one of them leads to a
    // place that it hangs from, that place, else NONE.
    fn relax(&mut self, graph: &Graph, labels: &mut Labels, place: u32, end: u32) -> u32 {
        let before = labels.dist(place);
        for hop in graph.row(place) {
            let dist = before.wrapping_add(hop.cost);
            if hop.to < end && dist < labels.dist(hop.to) {
                let old = labels.get(hop.to).from;
                labels.set(
                    hop.to,
                    Label {
                        dist,
                        from: place,
                        arc: hop.arc,
                    },
                );
                if hop.to == place || self.cut(hop.to, old, place) {
                    return hop.to;
                }
                self.hang(hop.to, place);
            }
        }
        NONE
    }

    // Takes a place out of the tree, with all that hangs from it. Whether another place is among
    // these.
    fn cut(&mut self, place: u32, parent: u32, other: u32) -> bool {
        let top = self.branch(place);
        if top.children == NONE {
            return false;
        }
        let mut hanging = top.children;
        let mut here = top.behind;
        for _ in 0..self.size {
            if hanging == 0 {
                break;
            }
            if here == other {
                return true;
            }
            let branch = self.branch(here);
            hanging = hanging.wrapping_add(branch.children).wrapping_sub(1);
            self.set(
                here,
                Branch {
                    children: NONE,
                    ..branch
                },
            );
            here = branch.behind;
        }
        self.join(top.before, here);
        let above = self.branch(parent);
        self.set(
            parent,
            Branch {
                children: above.children.wrapping_sub(1),
                ..above
            },
        );
        false
    }

    fn join(&mut self, first: u32, second: u32) {
        let before = self.branch(first);
        self.set(
            first,
            Branch {
                behind: second,
                ..before
            },
        );
        let behind = self.branch(second);
        self.set(
            second,
            Branch {
                before: first,
                ..behind
            },
        );
    }

    // Hangs a place from another. It waits.
    fn hang(&mut self, place: u32, parent: u32) {
        let branch = self.branch(place);
        let above = self.branch(parent);
        self.set(
            place,
            Branch {
                before: parent,
                behind: above.behind,
                children: 0,
                waits: true,
            },
        );
        self.set(
            parent,
            Branch {
                behind: place,
                children: above.children.wrapping_add(1),
                ..above
            },
        );
        let behind = self.branch(above.behind);
        self.set(
            above.behind,
            Branch {
                before: place,
                ..behind
            },
        );
        if !branch.waits {
            self.waiting.push(place);
        }
    }
}
