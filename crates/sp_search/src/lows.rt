//! The nodes with walks below every number, and the closed walks that show it.
ghost use Rattle.std.specs.Prelude.{◌≡◌, ℕ, ◌<◌, ◌^◌, Bool, List, [], false, length, replicate, IfOk, OnOk};
ghost use Rattle.graph_defs.specs.Shortest.{AreBelow};
ghost use Rattle.sp_search.specs.Finding.{IsFinding};
ghost use Rattle.sp_search.specs.Lows.{HasMet, HasMore};
ghost use Rattle.sp_search.specs.Wide.{IsWide};

use crate::finding::{Finding, Found};
use crate::tags::source_of;
use graph_defs::{Net, Seed, Why};
use leda_base::{NoMemory, Row};
use std::alloc::Global;

/// The low nodes that were found, and the seeds that they come from.
#[derive(Drop)]
pub struct Lows {
    pub found: Finding,
    pub seeds: Row<Seed>,
}

impl Lows {
    /// No node of `n` is low.
    pub fn new(alloc: Global, n: u32) -> Result<Lows, NoMemory>
        ensures queue { IfOk result (λ lows. lows.found.queue.items ≡ []) }
        ensures marks { IfOk result (λ lows. lows.found.marks.items ≡ replicate n false) }
        ensures seeds { IfOk result (λ lows. lows.seeds ≡ []) }
    {
        Ok(Lows {
            found: Finding::new(alloc, n)?,
            seeds: Row::new(alloc),
        })
    }

    /// The nodes of a seed's closed walk are low, and all nodes to which arcs lead from them.
    pub fn add(
        &mut self,
        alloc: Global,
        net: &Net,
        opened: &[bool],
        seed: Seed,
    ) -> Result<(), NoMemory>
        requires wide { IsWide net.now }
        requires opened { length opened.now ≡ length net.now.arcs }
        requires few { length self.old.seeds < 2 ^ 32 }
        requires cycle { AreBelow (length net.now.arcs) seed.cycle }
        requires finding { IsFinding net.now opened.now self.old.found.queue.items
            self.old.found.marks.items }
        ensures { OnOk result (HasMore net.now opened.now seed self.old.found.queue.items
            self.old.found.marks.items self.old.seeds self.new.found.queue.items
            self.new.found.marks.items self.new.seeds) }
    {
        let number = self.seeds.as_slice().len() as u32;
        meet(&mut self.found, net, seed.cycle.as_slice(), number)?;
        self.found.spread(alloc, net, opened)?;
        self.seeds.push(seed)?;
        Ok(())
    }
}

// Finds the nodes of a seed's closed walk.
fn meet(found: &mut Finding, net: &Net, cycle: &[u32], number: u32) -> Result<(), NoMemory>
    requires wide { IsWide net.now }
    requires cycle { AreBelow (length net.now.arcs) cycle.now }
    requires marks { length found.old.marks.items ≡ net.now.n }
    ensures { (opened : List Bool)
        → IsFinding net.now opened found.old.queue.items found.old.marks.items
        → OnOk result (HasMet net.now opened number cycle.now (length cycle.now)
        found.old.queue.items found.old.marks.items found.new.queue.items
        found.new.marks.items) }
{
    for arc in cycle {
        found.find(Found {
            node: source_of(net, *arc),
            why: Why::Seed(number),
            before: 0,
        })?;
    }
    Ok(())
}
