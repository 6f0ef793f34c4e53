//! Whether labels cover every arc, and the size of the cover.
ghost use Rattle.std.specs.Prelude.{◌≡◌, ◌≤◌, ◌<◌, ◌==◌, ◌&&◌, length, slice_index_or, slice_set, true, false, not, All, IfOk};
ghost use Rattle.graph_defs.specs.declared.net.TheConstants.{NODE_LIMIT};
ghost use Rattle.graph_defs.specs.Matching.{covers, cover_size, greatest};
ghost use Rattle.graph_defs.specs.Net.{Ends, IsValid, source, target};
ghost use Rattle.graph_defs.specs.Verdict.{FindsBelow};
ghost use Rattle.std.specs.List.Sorted.{IsNonDecreasing};
ghost use Rattle.match_check.specs.Passes.{share};

use graph_defs::Net;
use leda_base::NoMemory;
use std::alloc::Global;

// The first arc that isn't covered by the labels of its ends.
pub(crate) fn first_uncovered(net: &Net, labels: &[u32]) -> Option<u32>
    requires valid { IsValid net.now }
    requires long { length labels.now ≡ net.now.n }
    ensures { FindsBelow (length net.now.arcs)
        (λ arc. covers labels.now (source net.now arc, target net.now arc) ≡ true) result }
{
    for (arc, (from, to)) in net.arcs.as_slice().iter().enumerate() {
        if !is_covered(labels, *from, *to) {
            return Some(arc as u32);
        }
    }
    None
}

fn is_covered(labels: &[u32], from: u32, to: u32) -> bool
    requires from { from < length labels.now }
    requires to { to < length labels.now }
    ensures { result ≡ covers labels.now (from, to) }
{
    let label = labels[from as usize];
    let other = labels[to as usize];
    (from == to || label == 1) || (other == 1 || (label == other && label >= 2))
}

// The nodes labelled 1, and of each later label's nodes one half, rounded down: of these each
// second one counts.
pub(crate) fn size_of(alloc: Global, labels: &[u32]) -> Result<u32, NoMemory>
    requires { length labels.now ≤ NODE_LIMIT }
    ensures { IfOk result (λ size. size ≡ cover_size labels.now) }
{
    let top = greatest_of(labels);
    if top as usize <= labels.len() + 2 {
        size_by_table(alloc, top, labels)
    } else {
        size_by_order(alloc, labels)
    }
}

// For each label a bit is kept that tells whether there was an odd number so far.
fn size_by_table(alloc: Global, top: u32, labels: &[u32]) -> Result<u32, NoMemory>
    requires few { length labels.now ≤ NODE_LIMIT }
    requires top { top ≡ greatest labels.now }
    ensures { IfOk result (λ size. size ≡ cover_size labels.now) }
{
    let mut odd = vec![in alloc; false; top as usize + 1]?;
    let mut size = 0;
    for label in labels {
        size += count(&mut odd, *label);
    }
    Ok(size)
}

// Where labels are far greater than nodes are many they are sorted, so that no room is taken for
// labels that aren't there.
fn size_by_order(alloc: Global, labels: &[u32]) -> Result<u32, NoMemory>
    requires { length labels.now ≤ NODE_LIMIT }
    ensures { IfOk result (λ size. size ≡ cover_size labels.now) }
{
    let mut sorted = labels.to_vec(alloc)?;
    sorted.sort_unstable();
    Ok(size_of_runs(sorted.as_slice()))
}

// Each label stands in one run.
fn size_of_runs(sorted: &[u32]) -> u32
    requires few { length sorted.now ≤ NODE_LIMIT }
    requires sorted { IsNonDecreasing sorted.now }
    ensures { result ≡ cover_size sorted.now }
{
    let mut size = 0;
    let mut last = 0;
    let mut odd = false;
    for label in sorted {
        let was = goes_on(odd, last, *label);
        size += weight(*label, was);
        last = *label;
        odd = !was;
    }
    size
}

// Whether a label is the last one, of which there was an odd number.
fn goes_on(odd: bool, last: u32, label: u32) -> bool
    ensures { result ≡ (odd && (label == last)) }
{
    odd && label == last
}

// Whether a node with a label counts, where it was or wasn't an odd number before it.
fn weight(label: u32, was: bool) -> u32
    ensures small { result ≤ 1 }
    ensures value { result ≡ share label was }
{
    if label < 2 {
        return label;
    }
    if was { 1 } else { 0 }
}

#[tactic(auto, using(crate::proofs::Halves::greatest_more))]
fn greatest_of(labels: &[u32]) -> u32
    ensures { result ≡ greatest labels.now }
{
    let mut top = 0;
    for label in labels {
        top = top.max(*label);
    }
    top
}

// One node more with a label: whether it counts.
fn count(odd: &mut Vec<bool>, label: u32) -> u32
    requires { label < length odd.old.items }
    ensures small { result ≤ 1 }
    ensures counted { result ≡ share label (slice_index_or odd.old.items label false) }
    ensures turned { odd.new.items ≡
        slice_set odd.old.items label (not (slice_index_or odd.old.items label false)) }
{
    let place = label as usize;
    let was = odd[place];
    odd[place] = !was;
    weight(label, was)
}
