//! Marks at numbers, and the first place without one.
ghost use Rattle.std.specs.Prelude.{◌≡◌, ℕ, ◌<◌, ◌≤◌, true, false, length, slice_set, IfOk};
ghost use Rattle.graph_defs.specs.declared.net.TheConstants.{NODE_LIMIT};
ghost use Rattle.graph_defs.specs.Count.{times};
ghost use Rattle.blossom_lift.specs.Passes.{AreMarks, marked};

use leda_base::NoMemory;
use std::alloc::Global;

/// For each place below `n` whether it is among some numbers. In time linear in `n` and their
/// number.
pub fn marks_of(alloc: Global, numbers: &[u32], n: usize) -> Result<Vec<bool>, NoMemory>
    ensures { IfOk result (λ marks. AreMarks numbers.now n marks.items) }
{
    let mut marks = vec![in alloc; false; n]?;
    for number in numbers {
        mark(&mut marks, *number);
    }
    Ok(marks)
}

// Marks a place. A number past the places has none.
fn mark(marks: &mut Vec<bool>, number: u32)
    ensures { marks.new.items ≡ slice_set marks.old.items number true }
{
    let place = number as usize;
    if place < marks.len() {
        marks[place] = true;
    }
}

/// The least label from 2 on that no node has. In time and memory linear in the nodes.
pub fn unused_label(alloc: Global, labels: &[u32]) -> Result<u32, NoMemory>
    requires { length labels.now ≤ NODE_LIMIT }
    ensures later { IfOk result (λ label. 2 ≤ label) }
    ensures unused { IfOk result (λ label. times label labels.now ≡ 0) }
{
    let marks = marks_of(alloc, labels, labels.len() + 3)?;
    Ok(first_unmarked(marks.as_slice()))
}

// The first place from 2 on that isn't marked.
fn first_unmarked(marks: &[bool]) -> u32
    requires few { length marks.now ≤ 100003 }
    requires some { ((place : ℕ) → 2 ≤ place → place < length marks.now
        → marked marks.now place ≡ true) → ⊥ }
    ensures later { 2 ≤ result }
    ensures within { result < length marks.now }
    ensures unmarked { marked marks.now result ≡ false }
{
    for place in 2..marks.len() as u32 {
        if !marks[place as usize] {
            return place;
        }
    }
    2
}
