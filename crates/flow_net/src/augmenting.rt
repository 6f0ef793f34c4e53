//! A flow with more along one augmenting path.
ghost use Rattle.std.specs.Prelude.{◌≡◌, ◌≢◌, ◌<◌, ◌+ℤ◌, ◌≤ℤ◌, pos, length};
ghost use Rattle.graph_defs.specs.Flow.{IsFlow, outflow};
ghost use Rattle.graph_defs.specs.Grouped.{grouped};
ghost use Rattle.graph_defs.specs.Net.{IsValid};
ghost use Rattle.flow_net.specs.Refusals.{sum_of};
ghost use Rattle.flow_net.specs.Residual.{darts};
ghost use Rattle.flow_net.specs.Search.{found_at, IsTree};

use crate::breadth_first::Found;
use crate::darts::send;
use graph_defs::Net;

// Sends as much as there is room for along the darts by which the node at a place of the queue was
// found: read back from predecessor to predecessor, so that the path ends where it ought to from
// the first step on. How much it was.
pub fn augment(
    net: &Net,
    s: u32,
    t: u32,
    cap: &[i64],
    flow: &mut Vec<i64>,
    queue: &[Found],
    place: usize,
) -> i64
    requires valid { IsValid net.now }
    requires caps { length cap.now ≡ length net.now.arcs }
    requires sum { sum_of cap.now ≤ℤ pos 4611686018427387903 }
    requires differ { s ≢ t }
    requires flow { IsFlow net.now s t cap.now flow.old.items }
    requires tree { IsTree (grouped net.now.n (darts net.now)) cap.now flow.old.items queue.now }
    requires place { place < length queue.now }
    requires root { (found_at queue.now 0).node ≡ s }
    requires last { (found_at queue.now place).node ≡ t }
    ensures flow { IsFlow net.now s t cap.now flow.new.items }
    ensures value { outflow net.now flow.new.items s ≡ outflow net.now flow.old.items s +ℤ result }
    ensures some { pos 1 ≤ℤ result }
{
    let amount = queue[place].room;
    let mut at = place;
    while at > 0 {
        let found = queue[at];
        send(flow, found.dart, amount);
        at = found.predecessor as usize;
    }
    amount
}
