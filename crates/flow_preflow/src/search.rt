//! The search by labels.
use crate::levels::Levels;
use crate::residual::{NONE, Residual};
use leda_base::{NoMemory, Row};
use std::alloc::Global;

// What enters a node and doesn't leave it, a bound on how many hops lead on to the sink, and the hop
// to be looked at next.
#[derive(Clone, Copy)]
struct Node {
    excess: i64,
    label: u32,
    current: u32,
}

const NOWHERE: Node = Node {
    excess: 0,
    label: NONE,
    current: NONE,
};

// A label is found anew for all nodes once so much work was done for each node, hops aside.
const PATIENCE: u64 = 6;

// What a relabel counts as work beside the hops that it looks at.
const RELABEL: u64 = 12;

/// A preflow, which is pushed towards the sink.
#[derive(Drop)]
pub(crate) struct Search {
    pub(crate) graph: Residual,
    nodes: Vec<Node>,
    levels: Levels,
    // the work since labels were found anew
    work: u64,
    // how many relabels are left
    left: u64,
    source: u32,
    sink: u32,
}

impl Search {
    /// No preflow but what flows in a residual network.
    pub(crate) fn new(
        alloc: Global,
        graph: Residual,
        source: u32,
        sink: u32,
        left: u64,
    ) -> Result<Search, NoMemory> {
        let n = graph.node_count();
        Ok(Search {
            graph,
            nodes: vec![in alloc; NOWHERE; n as usize]?,
            levels: Levels::new(alloc, n)?,
            work: 0,
            left,
            source,
            sink,
        })
    }

    #[inline(always)]
    fn node(&self, node: u32) -> Node {
        let node = node as usize;
        let nodes = self.nodes.as_slice();
        if node < nodes.len() {
            nodes[node]
        } else {
            NOWHERE
        }
    }

    #[inline(always)]
    fn set(&mut self, node: u32, state: Node) {
        let node = node as usize;
        if node < self.nodes.len() {
            self.nodes[node] = state;
        }
    }

    /// How many relabels are left.
    pub(crate) fn left(&self) -> u64 {
        self.left
    }

    /// What enters a node and doesn't leave it.
    pub(crate) fn excess(&self, node: u32) -> i64 {
        self.node(node).excess
    }

    /// It enters and leaves a node.
    pub(crate) fn set_excess(&mut self, node: u32, excess: i64) {
        let state = self.node(node);
        self.set(node, Node { excess, ..state });
    }

    /// The nodes from which no hops lead to the sink, where labels are found anew.
    pub(crate) fn cut(&self, alloc: Global) -> Result<Row<u32>, NoMemory> {
        let far = self.graph.node_count();
        let mut cut = Row::new(alloc);
        for node in 0..far {
            if self.node(node).label >= far {
                cut.push(node)?;
            }
        }
        Ok(cut)
    }

    /// Pushes as much to the sink as can come there.
    pub(crate) fn run(&mut self, alloc: Global) -> Result<(), NoMemory> {
        self.flood();
        let mut queue = Vec::with_capacity(alloc, self.graph.node_count() as usize)?;
        self.relabel_all(&mut queue)?;
        let limit = u64::from(self.graph.node_count())
            .saturating_mul(PATIENCE)
            .saturating_add(self.graph.hop_count() as u64);
        for _ in 0..u64::MAX {
            let node = self.levels.take();
            if node == NONE || !self.discharge(node) {
                break;
            }
            if self.work > limit {
                self.relabel_all(&mut queue)?;
            }
        }
        self.relabel_all(&mut queue)
    }

    // Fills the arcs that leave the source.
    fn flood(&mut self) {
        let source = self.source;
        for place in self.graph.begin(source)..self.graph.begin_against(source) {
            let hop = self.graph.hop(place);
            self.graph.push(place, hop.room);
            let excess = self.excess(hop.to).wrapping_add(hop.room);
            self.set_excess(hop.to, excess);
        }
    }

    // Labels each node with the least number of hops to the sink, by a breadth first search from
    // there; a node from which none lead there, and the source, with the number of nodes.
    fn relabel_all(&mut self, queue: &mut Vec<u32>) -> Result<(), NoMemory> {
        self.work = 0;
        self.levels.clear();
        let far = self.graph.node_count();
        for node in 0..far {
            let excess = self.excess(node);
            let current = self.graph.begin(node);
            self.set(
                node,
                Node {
                    excess,
                    label: far,
                    current,
                },
            );
        }
        let sink = self.node(self.sink);
        self.set(self.sink, Node { label: 0, ..sink });
        queue.clear();
        queue.push(self.sink)?;
        for turn in 0..far {
            let turn = turn as usize;
            if turn >= queue.len() {
                break;
            }
            let node = queue[turn];
            self.spread(node, queue)?;
        }
        Ok(())
    }

    // Labels the nodes from which a hop leads to this one.
    fn spread(&mut self, node: u32, queue: &mut Vec<u32>) -> Result<(), NoMemory> {
        let far = self.graph.node_count();
        let label = self.node(node).label.wrapping_add(1);
        for place in self.graph.begin(node)..self.graph.begin(node.wrapping_add(1)) {
            let hop = self.graph.hop(place);
            let other = self.node(hop.to);
            if other.label == far && hop.to != self.source && self.graph.hop(hop.twin).room > 0 {
                self.set(hop.to, Node { label, ..other });
                self.levels.insert(hop.to, label);
                if other.excess > 0 {
                    self.levels.wait(hop.to, label);
                }
                queue.push(hop.to)?;
            }
        }
        Ok(())
    }

    // Pushes all excess of a node on, or finds that none can come to the sink. Whether the relabels
    // sufficed.
    fn discharge(&mut self, node: u32) -> bool {
        let far = self.graph.node_count();
        let mut label = self.node(node).label;
        for _ in 0..far {
            if self.drain(node, label) {
                return true;
            }
            if self.left == 0 {
                return false;
            }
            self.left = self.left.saturating_sub(1);
            let is_last = self.levels.remove(node, label);
            if is_last {
                self.cut_off_above(label);
                self.label(node, far);
                return true;
            }
            label = self.raise(node);
            if label >= far {
                return true;
            }
            self.levels.insert(node, label);
        }
        true
    }

    // Pushes excess along hops that lead down by one, from the current one on. Whether none is left.
    fn drain(&mut self, node: u32, label: u32) -> bool {
        let state = self.node(node);
        let mut excess = state.excess;
        for place in state.current..self.graph.begin(node.wrapping_add(1)) {
            let hop = self.graph.hop(place);
            if hop.room <= 0 {
                continue;
            }
            let other = self.node(hop.to);
            if other.label.wrapping_add(1) != label {
                continue;
            }
            let amount = hop.room.min(excess);
            self.graph.push(place, amount);
            if other.excess == 0 && hop.to != self.sink {
                self.levels.wait(hop.to, other.label);
            }
            self.set_excess(hop.to, other.excess.wrapping_add(amount));
            excess = excess.wrapping_sub(amount);
            if excess == 0 {
                self.set(
                    node,
                    Node {
                        excess,
                        label,
                        current: place,
                    },
                );
                return true;
            }
        }
        self.set_excess(node, excess);
        false
    }

    // Gives a node the least label by which a hop leads down by one.
    fn raise(&mut self, node: u32) -> u32 {
        let far = self.graph.node_count();
        let begin = self.graph.begin(node);
        let end = self.graph.begin(node.wrapping_add(1));
        let degree = u64::from(end.saturating_sub(begin));
        self.work = self.work.saturating_add(RELABEL).saturating_add(degree);
        let mut least = far;
        let mut current = begin;
        for place in begin..end {
            let hop = self.graph.hop(place);
            if hop.room > 0 {
                let label = self.node(hop.to).label;
                if label < least {
                    least = label;
                    current = place;
                }
            }
        }
        let label = least.saturating_add(1).min(far);
        let excess = self.excess(node);
        self.set(
            node,
            Node {
                excess,
                label,
                current,
            },
        );
        label
    }

    fn label(&mut self, node: u32, label: u32) {
        let state = self.node(node);
        self.set(node, Node { label, ..state });
    }

    // No node has a label, so that none above it leads to the sink.
    fn cut_off_above(&mut self, label: u32) {
        let far = self.graph.node_count();
        for above in label.saturating_add(1)..=self.levels.highest() {
            for _ in 0..far {
                let node = self.levels.take_out(above);
                if node == NONE {
                    break;
                }
                self.label(node, far);
            }
        }
        self.levels.end_at(label);
    }
}
