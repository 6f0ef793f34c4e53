//! Sets of nodes as marks, and the capacity of the arcs that leave them.
ghost use Rattle.std.specs.Prelude.{◌≡◌, ◌<◌, ◌≤◌, length, All, IfOk};
ghost use Rattle.graph_defs.specs.Flow.{capacity};
ghost use Rattle.graph_defs.specs.Net.{IsValid};
ghost use Rattle.graph_defs.specs.Set.{leaves};
ghost use Rattle.graph_defs.specs.Sum.{at, when};
ghost use Rattle.flow_check.specs.Passes.{AreMarks, IsSmall, marked};

use crate::read::{arc_count, entry, source_of, target_of};
use graph_defs::Net;
use leda_base::NoMemory;
use std::alloc::Global;

// Marks the members of a set.
pub(crate) fn marks_of(alloc: Global, n: u32, set: &[u32]) -> Result<Vec<bool>, NoMemory>
    requires { All (λ node. node < n) set.now }
    ensures { IfOk result (λ marks. AreMarks n set.now marks.items) }
{
    let mut marks = vec![in alloc; false; n as usize]?;
    for node in set {
        marks[*node as usize] = true;
    }
    Ok(marks)
}

// The sum of the capacities of the arcs that lead from marked nodes to others.
pub(crate) fn capacity_of(net: &Net, marks: &[bool], cap: &[i64]) -> i128
    requires valid { IsValid net.now }
    requires long { length marks.now ≡ net.now.n }
    ensures { result ≡ capacity net.now cap.now (marked marks.now) }
{
    let mut sum: i128 = 0;
    for arc in 0..arc_count(net) {
        sum += leaving(net, marks, cap, arc);
    }
    sum
}

// The capacity of an arc where it leads from a marked node to another, and else 0.
fn leaving(net: &Net, marks: &[bool], cap: &[i64], arc: u32) -> i128
    requires valid { IsValid net.now }
    requires long { length marks.now ≡ net.now.n }
    requires arc { arc < length net.now.arcs }
    ensures value { result ≡ when (leaves net.now (marked marks.now) arc) (at cap.now arc) }
    ensures small { IsSmall 1 result }
{
    if !marks[source_of(net, arc) as usize] {
        return 0;
    }
    if marks[target_of(net, arc) as usize] {
        return 0;
    }
    i128::from(entry(cap, arc as usize))
}
