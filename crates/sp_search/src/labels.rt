//! The labels of nodes, of which the least is taken out.
ghost use Rattle.std.specs.Prelude.{◌≡◌, ◌<◌, ◌≤◌, length, IfOk, MatchBool};
ghost use Rattle.std.specs.Cmp.{partial_order_from_own_ties};
ghost use Rattle.std.specs.Cmp.Rules.{comparing};
ghost use Rattle.std.specs.Ordering.{int_cmp, nat_cmp, on, flip_args, then_cmp, as_partial_cmp};
ghost use Rattle.std.proofs.Common.{rules};
ghost use Rattle.graph_defs.specs.declared.net.TheConstants.{NODE_LIMIT};
ghost use Rattle.sp_search.specs.Labels.{label_at, first_labels, free_nodes, IsLowered, IsKept, AreSmall, TakesLeast};
ghost use Rattle.sp_search.specs.declared.labels.Label.TheVariants.{Queued};

use leda_base::{NoMemory, Row};
use std::alloc::Global;
use std::cmp::Ordering;
use std::collections::BinaryHeap;
use std::marker::Model;

/// What is known of a node.
#[derive(Clone, Copy)]
pub enum Label {
    /// Nothing leads there yet.
    Unseen,
    /// A walk of this weight leads there.
    Queued(i64),
    /// It was taken out.
    Taken,
}

/// A node and its label. The least label comes first in a heap of these, so it is the greatest of
/// them; equal labels go by their nodes.
#[derive(Clone, Copy, PartialEq, Eq)]
pub struct Least {
    pub node: u32,
    pub dist: i64,
}

impl Ord for Least {
    ghost cmp = { then_cmp (flip_args (on (λ x. x.dist) int_cmp)) (on (λ x. x.node) nat_cmp) };

    ghost total = { Prim.search (comparing, rules) };

    ghost matches_partial_cmp = { Prim.search (comparing, rules) };

    ghost matches_eq = { Prim.search (comparing, rules) };

    fn cmp(&self, other: &Least) -> Ordering {
        other.dist.cmp(&self.dist).then(self.node.cmp(&other.node))
    }
}

impl PartialOrd for Least {
    ghost partial_cmp = { as_partial_cmp
        (then_cmp (flip_args (on (λ x. x.dist) int_cmp)) (on (λ x. x.node) nat_cmp)) };

    ghost laws = { partial_order_from_own_ties
        (Prim.search (comparing, rules)) (Prim.search (comparing, rules)) };

    fn partial_cmp(&self, other: &Least) -> Option<Ordering> {
        Some(self.cmp(other))
    }
}

/// A label for each node, which contracts see as a list.
///
/// A binary heap has an entry for each label. A label that falls gets a new one, and its old one
/// stays until it comes out, where it is passed over. So a heap has at most as many entries as
/// labels fell.
#[derive(Drop)]
pub struct Labels {
    entries: Vec<Label>,
    heap: BinaryHeap<Least>,
}

impl Model for Labels {
    ghost use Rattle.std.specs.Prelude.{List};
    ghost use Rattle.sp_search.specs.declared.labels.Label.{Label};

    ghost Value = { List Label };

    ghost use Rattle.std.specs.BinaryHeap.{heap_items};
    ghost use Rattle.sp_search.specs.Waiting.{AreWaiting};

    ghost view = { λ labels. labels.entries.items };

    ghost invariant = { λ labels. AreWaiting (heap_items labels.heap) labels.entries.items };
}

impl Labels {
    /// The labels of `n` nodes, of which only the source was taken out.
    pub fn new(alloc: Global, n: u32, source: u32) -> Result<Labels, NoMemory>
        requires { source < n }
        ensures { IfOk result (λ labels. labels ≡ first_labels n source) }
    {
        let mut entries = vec![in alloc; Label::Unseen; n as usize]?;
        entries[source as usize] = Label::Taken;
        Ok(Labels {
            entries,
            heap: BinaryHeap::new(alloc),
        })
    }

    /// Lets the label of a node fall to `dist`, if it is above that. Whether it did.
    pub fn lower(&mut self, node: u32, dist: i64) -> Result<bool, NoMemory>
        requires { node < length self.old }
        ensures { IfOk result (λ falls. MatchBool falls
            (IsLowered self.old self.new node dist)
            (IsKept self.old self.new node dist)) }
    {
        let falls = match self.entries[node as usize] {
            Label::Unseen => true,
            Label::Queued(old) => dist < old,
            Label::Taken => false,
        };
        if falls {
            self.heap.push(Least { node, dist })?;
            self.entries[node as usize] = Label::Queued(dist);
        }
        Ok(falls)
    }

    /// Takes the least label out.
    pub fn take_least(&mut self) -> Option<Least>
        requires few { length self.old ≤ NODE_LIMIT }
        requires small { AreSmall self.old }
        ensures { TakesLeast self.old self.new result }
    {
        while let Some(least) = self.heap.pop() {
            if is_label(self.entries.as_slice(), least) {
                self.entries[least.node as usize] = Label::Taken;
                return Some(least);
            }
        }
        None
    }

    /// The nodes that weren't taken out, in the order of the nodes.
    pub fn free_nodes(&self, alloc: Global) -> Result<Row<u32>, NoMemory>
        requires { length self.now ≤ NODE_LIMIT }
        ensures { IfOk result (λ nodes. nodes ≡ free_nodes self.now) }
    {
        let mut nodes = Row::new(alloc);
        for (node, label) in self.entries.iter().enumerate() {
            match label {
                Label::Taken => {}
                _ => nodes.push(node as u32)?,
            }
        }
        Ok(nodes)
    }
}

// Whether an entry of the heap is the label that its node has.
fn is_label(labels: &[Label], least: Least) -> bool
    requires known { least.node < length labels.now }
    requires small { AreSmall labels.now }
    ensures { MatchBool result
        (label_at labels.now least.node ≡ Queued least.dist)
        (label_at labels.now least.node ≡ Queued least.dist → ⊥) }
{
    match labels[least.node as usize] {
        Label::Queued(dist) => dist == least.dist,
        _ => false,
    }
}
