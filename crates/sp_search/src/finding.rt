//! The nodes to which arcs lead, found one after another.
ghost use Rattle.std.specs.Prelude.{◌≡◌, ◌<◌, [], false, length, replicate, All, IfOk, OnOk, MatchBool};
ghost use Rattle.sp_search.specs.Finding.{IsAdded, IsKnown, IsOpenable, HasSpread, IsFinding, HasGrown, IsClosedAlong};
ghost use Rattle.sp_search.specs.Wide.{IsWide};

use graph_defs::{Grouped, Incidence, Net, Why};
use leda_base::NoMemory;
use std::alloc::Global;

/// A node that was found: one where the search began, or one to which an arc leads from the node at
/// the place `before` of the queue.
#[derive(Clone, Copy)]
pub struct Found {
    pub node: u32,
    pub why: Why,
    pub before: u32,
}

/// The nodes that were found, in the order in which they were, and a mark for each.
#[derive(Drop)]
pub struct Finding {
    pub queue: Vec<Found>,
    pub marks: Vec<bool>,
}

impl Finding {
    /// Nothing was found among `n` nodes.
    pub fn new(alloc: Global, n: u32) -> Result<Finding, NoMemory>
        ensures queue { IfOk result (λ finding. finding.queue.items ≡ []) }
        ensures marks { IfOk result (λ finding. finding.marks.items ≡ replicate n false) }
    {
        Ok(Finding {
            queue: Vec::new(alloc),
            marks: vec![in alloc; false; n as usize]?,
        })
    }

    /// Puts a node behind the others, unless it was found before. Whether it wasn't.
    pub fn find(&mut self, found: Found) -> Result<bool, NoMemory>
        requires { found.node < length self.old.marks.items }
        ensures { IfOk result (λ is_new. MatchBool is_new
            (IsAdded self.old.queue.items self.old.marks.items self.new.queue.items
            self.new.marks.items found)
            (IsKnown self.old.queue.items self.old.marks.items self.new.queue.items
            self.new.marks.items found)) }
    {
        let is_new = !self.marks[found.node as usize];
        if is_new {
            self.queue.push(found)?;
            self.marks[found.node as usize] = true;
        }
        Ok(is_new)
    }

    /// Finds all nodes to which open arcs lead on from what was found.
    pub fn spread(&mut self, alloc: Global, net: &Net, opened: &[bool]) -> Result<(), NoMemory>
        requires wide { IsWide net.now }
        requires opened { length opened.now ≡ length net.now.arcs }
        requires finding { IsFinding net.now opened.now self.old.queue.items self.old.marks.items }
        ensures finding { OnOk result
            (IsFinding net.now opened.now self.new.queue.items self.new.marks.items) }
        ensures grown { OnOk result (HasGrown self.old.queue.items self.old.marks.items
            self.new.queue.items self.new.marks.items) }
        ensures closed { OnOk result (IsClosedAlong net.now opened.now self.new.marks.items) }
    {
        let rows = Grouped::by(alloc, net.n, net.arcs.as_slice())?;
        let mut head = 0;
        while head < self.queue.len() {
            let row = rows.row(self.queue[head].node);
            self.spread_row(row, opened, head as u32)?;
            head += 1;
        }
        Ok(())
    }

    // Finds the nodes to which the open entries of a row lead, that of the node at `head`.
    fn spread_row(&mut self, row: &[Incidence], opened: &[bool], head: u32) -> Result<(), NoMemory>
        requires row { All (IsOpenable (length self.old.marks.items) (length opened.now)) row.now }
        ensures { OnOk result (HasSpread row.now opened.now head (length row.now)
            self.old.queue.items self.old.marks.items self.new.queue.items self.new.marks.items) }
    {
        for entry in row {
            if opened[entry.number as usize] {
                self.find(Found {
                    node: entry.end,
                    why: Why::Arc(entry.number),
                    before: head,
                })?;
            }
        }
        Ok(())
    }
}
