//! The nodes that are settled one by one, and the labels of the others.
ghost use Rattle.std.specs.Prelude.{◌≡◌, ◌<◌, ◌≤◌, ◌++◌, ◌∷◌, [], length, replicate, slice_set, slice_index_or, All, Some, None, IfOk, OnOk, pos, ◌≤ℤ◌};
ghost use Rattle.graph_defs.specs.declared.grouped.Incidence.{Incidence};
ghost use Rattle.sp_search.specs.Labels.{first_labels, IsLowered, IsKept};
ghost use Rattle.sp_search.specs.Settling.{along, IsPassable, HaveFallen, IsCosted, IsSettling, IsSettled};

use crate::labels::{Labels, Least};
use graph_defs::{Finite, Grouped, Incidence, Net};
use leda_base::NoMemory;
use std::alloc::Global;

// The settled nodes with their distances, in the order in which they were, and for each other node
// its label and the arc that made it.
#[derive(Drop)]
pub struct Settling {
    pub settled: Vec<Finite>,
    pub labels: Labels,
    pub preds: Vec<u32>,
}

impl Settling {
    // The source alone is settled.
    pub fn start(alloc: Global, n: u32, s: u32) -> Result<Settling, NoMemory>
        requires { s < n }
        ensures settled { IfOk result (λ search. search.settled.items
            ≡ record { node = s; dist = pos 0; pred = None } ∷ []) }
        ensures labels { IfOk result (λ search. search.labels ≡ first_labels n s) }
        ensures preds { IfOk result (λ search. search.preds.items ≡ replicate n 0) }
    {
        let mut settled = Vec::new(alloc);
        settled.push(Finite {
            node: s,
            dist: 0,
            pred: None,
        })?;
        Ok(Settling {
            settled,
            labels: Labels::new(alloc, n, s)?,
            preds: vec![in alloc; 0u32; n as usize]?,
        })
    }

    // Settles all nodes to which a walk leads.
    pub fn run(&mut self, alloc: Global, net: &Net, s: u32, cost: &[i64]) -> Result<(), NoMemory>
        requires costed { IsCosted net.now cost.now }
        requires s { s < net.now.n }
        requires settled { self.old.settled.items
            ≡ record { node = s; dist = pos 0; pred = None } ∷ [] }
        requires labels { self.old.labels ≡ first_labels net.now.n s }
        requires preds { self.old.preds.items ≡ replicate net.now.n 0 }
        ensures { OnOk result (IsSettled net.now s cost.now self.new.settled.items self.new.labels
            self.new.preds.items) }
    {
        let rows = Grouped::by(alloc, net.n, net.arcs.as_slice())?;
        self.spread(rows.row(s), cost, 0)?;
        while let Some(least) = self.labels.take_least() {
            self.settle(least)?;
            self.spread(rows.row(least.node), cost, least.dist)?;
        }
        Ok(())
    }

    // Puts a node that was taken out behind the settled ones.
    fn settle(&mut self, least: Least) -> Result<(), NoMemory>
        requires { least.node < length self.old.preds.items }
        ensures settled { OnOk result (self.new.settled.items ≡ self.old.settled.items
            ++ record {
              node = least.node;
              dist = least.dist;
              pred = Some (slice_index_or self.old.preds.items least.node 0);
            } ∷ []) }
        ensures labels { self.new.labels ≡ self.old.labels }
        ensures preds { self.new.preds.items ≡ self.old.preds.items }
    {
        self.settled.push(Finite {
            node: least.node,
            dist: least.dist,
            pred: Some(self.preds[least.node as usize]),
        })?;
        Ok(())
    }

    // Lets the labels fall along the arcs of a row, that of a node at a distance.
    fn spread(&mut self, row: &[Incidence], cost: &[i64], dist: i64) -> Result<(), NoMemory>
        requires preds { length self.old.preds.items ≡ length self.old.labels }
        requires row { All (IsPassable (length self.old.labels) cost.now dist) row.now }
        ensures settled { self.new.settled.items ≡ self.old.settled.items }
        ensures fallen { OnOk result (HaveFallen row.now cost.now dist (length row.now)
            self.old.labels self.old.preds.items self.new.labels self.new.preds.items) }
    {
        for entry in row {
            let further = weight_along(dist, cost, entry);
            if self.labels.lower(entry.end, further)? {
                self.preds[entry.end as usize] = entry.number;
            }
        }
        Ok(())
    }
}

// The weight of a walk to a node at a distance, and on along the arc of an entry.
fn weight_along(dist: i64, cost: &[i64], entry: &Incidence) -> i64
    requires known { entry.now.number < length cost.now }
    requires low { pos 0 ≤ℤ along cost.now dist entry.now }
    requires high { along cost.now dist entry.now ≤ℤ pos 4611686018427387903 }
    ensures { result ≡ along cost.now dist entry.now }
{
    dist + cost[entry.number as usize]
}
