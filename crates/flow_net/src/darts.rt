//! The arcs of a net in both directions, and what room a flow leaves there.
ghost use Rattle.std.specs.Prelude.{◌≡◌, ◌+◌, ◌-◌, ◌<◌, ◌≤◌, ◌+ℤ◌, ◌-ℤ◌, [], length, slice_set, FitsSigned, IfOk};
ghost use Rattle.std.specs.Int.{w64};
ghost use Rattle.graph_defs.specs.Flow.{AreWithin};
ghost use Rattle.graph_defs.specs.Sum.{at};
ghost use Rattle.flow_net.specs.Residual.{darts};

use graph_defs::Net;
use leda_base::NoMemory;
use std::alloc::Global;

// The ends of the arcs, and behind them those of the arcs turned round.
pub fn darts_of(alloc: Global, net: &Net) -> Result<Vec<(u32, u32)>, NoMemory>
    ensures { IfOk result (λ pairs. pairs.items ≡ darts net.now) }
{
    let arcs = net.arcs.as_slice();
    let mut pairs = arcs.to_vec(alloc)?;
    for (from, to) in arcs {
        pairs.push((*to, *from))?;
    }
    Ok(pairs)
}

// How much more may flow along a dart: forward up to the capacity, and back what flows there.
pub fn room_of(cap: &[i64], flow: &[i64], dart: u32) -> i64
    requires long { length cap.now ≡ length flow.now }
    requires within { AreWithin [] cap.now flow.now (length flow.now) }
    requires dart { dart < length flow.now + length flow.now }
    ensures front { dart < length flow.now → result ≡ at cap.now dart -ℤ at flow.now dart }
    ensures back { length flow.now ≤ dart → result ≡ at flow.now (dart - length flow.now) }
{
    let place = dart as usize;
    if place < flow.len() {
        cap[place] - flow[place]
    } else {
        flow[place - flow.len()]
    }
}

// Sends an amount along a dart.
pub fn send(flow: &mut Vec<i64>, dart: u32, amount: i64)
    requires dart { dart < length flow.old.items + length flow.old.items }
    requires front { dart < length flow.old.items
        → FitsSigned w64 (at flow.old.items dart +ℤ amount) }
    requires back { length flow.old.items ≤ dart
        → FitsSigned w64 (at flow.old.items (dart - length flow.old.items) -ℤ amount) }
    ensures front { dart < length flow.old.items
        → flow.new.items ≡ slice_set flow.old.items dart (at flow.old.items dart +ℤ amount) }
    ensures back { length flow.old.items ≤ dart
        → flow.new.items ≡ slice_set flow.old.items (dart - length flow.old.items)
        (at flow.old.items (dart - length flow.old.items) -ℤ amount) }
{
    let place = dart as usize;
    if place < flow.len() {
        flow[place] = flow[place] + amount;
    } else {
        let arc = place - flow.len();
        flow[arc] = flow[arc] - amount;
    }
}
