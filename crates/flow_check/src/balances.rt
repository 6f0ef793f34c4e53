//! Flows within their bounds, and what leaves each node less what enters it.
ghost use Rattle.std.specs.Prelude.{◌≡◌, ◌↔◌, ◌≢◌, ℕ, ◌<◌, ◌≤◌, ◌^◌, ℤ, pos, ◌+ℤ◌, ◌-ℤ◌, ◌≤ℤ◌, length, slice_set, FitsSigned, IsTrue, IfOk};
ghost use Rattle.std.specs.Int.{w128};
ghost use Rattle.graph_defs.specs.Flow.{IsWithinAt};
ghost use Rattle.graph_defs.specs.Net.{IsValid};
ghost use Rattle.graph_defs.specs.Sum.{at};
ghost use Rattle.graph_defs.specs.Verdict.{FindsBelow};
ghost use Rattle.flow_check.specs.Passes.{AreBalances, IsAtRest};

use crate::read::{arc_count, entry, source_of, target_of};
use graph_defs::Net;
use leda_base::NoMemory;
use std::alloc::Global;

// The first arc whose flow isn't within its bounds.
pub(crate) fn first_out_of_bounds(arcs: u32, low: &[i64], high: &[i64], flow: &[i64]) -> Option<u32>
    ensures { FindsBelow arcs (IsWithinAt low.now high.now flow.now) result }
{
    for arc in 0..arcs {
        if !is_within(low, high, flow, arc) {
            return Some(arc);
        }
    }
    None
}

fn is_within(low: &[i64], high: &[i64], flow: &[i64], arc: u32) -> bool
    ensures { IsTrue result ↔ IsWithinAt low.now high.now flow.now arc }
{
    let along = entry(flow, arc as usize);
    if along < entry(low, arc as usize) {
        return false;
    }
    along <= entry(high, arc as usize)
}

// What leaves each node less what enters it.
pub(crate) fn balances(alloc: Global, net: &Net, flow: &[i64]) -> Result<Vec<i128>, NoMemory>
    requires { IsValid net.now }
    ensures { IfOk result (λ rows. AreBalances net.now flow.now (length net.now.arcs) rows.items) }
{
    let mut rows = vec![in alloc; 0i128; net.n as usize]?;
    for arc in 0..arc_count(net) {
        let along = entry(flow, arc as usize);
        give(&mut rows, source_of(net, arc), along);
        take(&mut rows, target_of(net, arc), along);
    }
    Ok(rows)
}

// So much more leaves a node.
fn give(rows: &mut Vec<i128>, node: u32, along: i64)
    requires node { node < length rows.old.items }
    requires fits { FitsSigned w128 (at rows.old.items node +ℤ along) }
    ensures { rows.new.items ≡ slice_set rows.old.items node (at rows.old.items node +ℤ along) }
{
    rows[node as usize] = rows[node as usize] + i128::from(along);
}

// So much more enters a node.
fn take(rows: &mut Vec<i128>, node: u32, along: i64)
    requires node { node < length rows.old.items }
    requires fits { FitsSigned w128 (at rows.old.items node -ℤ along) }
    ensures { rows.new.items ≡ slice_set rows.old.items node (at rows.old.items node -ℤ along) }
{
    rows[node as usize] = rows[node as usize] - i128::from(along);
}

// The first node but s and t at which less or more leaves than enters.
pub(crate) fn first_unbalanced(s: u32, t: u32, n: u32, rows: &[i128]) -> Option<u32>
    requires { length rows.now ≡ n }
    ensures { FindsBelow n (IsAtRest s t rows.now) result }
{
    for node in 0..n {
        if !is_at_rest(s, t, rows, node) {
            return Some(node);
        }
    }
    None
}

fn is_at_rest(s: u32, t: u32, rows: &[i128], node: u32) -> bool
    requires { node < length rows.now }
    ensures { IsTrue result ↔ IsAtRest s t rows.now node }
{
    node == s || node == t || rows[node as usize] == 0
}
