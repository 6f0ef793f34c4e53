//! Why there is no answer on maximum flows.
ghost use Rattle.std.specs.Prelude.{◌≤◌, ◌≢◌, ◌<ℤ◌, ◌≤ℤ◌, pos, length, All, IfNone, IfSome, MatchBool, MatchOption};
ghost use Rattle.graph_defs.specs.declared.net.TheConstants.{ARC_LIMIT};
ghost use Rattle.flow_net.specs.declared.refusals.FlowRefusal.TheVariants.{NoMemory};
ghost use Rattle.flow_net.specs.Refusals.{sum_of, AreLow, IsFirstNegative, Allows, Refuses};

/// Why there is no answer, in the order in which it is asked.
#[derive(Clone, Copy, Debug, PartialEq, Eq)]
pub enum FlowRefusal {
    /// The source is the sink.
    Same,
    /// The first arc whose capacity is below 0.
    Negative(u32),
    /// The capacities sum up to more than 2^62 - 1.
    Bound,
    /// The room isn't given.
    NoMemory,
}

/// What there is against a maximum flow from `s` to `t`, for every search for one: never want of
/// memory.
pub fn cause_against(s: u32, t: u32, cap: &[i64]) -> Option<FlowRefusal>
    requires { length cap.now ≤ ARC_LIMIT }
    ensures none { IfNone result (Allows s t cap.now) }
    ensures some { IfSome result (Refuses s t cap.now) }
    ensures known { IfSome result (λ refusal. refusal ≢ NoMemory) }
{
    if s == t {
        return Some(FlowRefusal::Same);
    }
    if let Some(arc) = first_negative(cap) {
        return Some(FlowRefusal::Negative(arc));
    }
    if is_within_bound(cap) {
        None
    } else {
        Some(FlowRefusal::Bound)
    }
}

// The greatest sum that the capacities may have.
const BOUND: i128 = 4_611_686_018_427_387_903;

// Whether the capacities sum up to no more than 2^62 - 1.
pub fn is_within_bound(cap: &[i64]) -> bool
    ensures { MatchBool result (sum_of cap.now ≤ℤ pos 4611686018427387903)
        (pos 4611686018427387903 <ℤ sum_of cap.now) }
{
    let mut sum: i128 = 0;
    for one in cap {
        sum += i128::from(*one);
    }
    sum <= BOUND
}

// The first arc whose capacity is below 0.
pub fn first_negative(cap: &[i64]) -> Option<u32>
    requires { length cap.now ≤ ARC_LIMIT }
    ensures { MatchOption result (AreLow cap.now) (λ arc. IsFirstNegative cap.now arc) }
{
    for arc in 0..cap.len() {
        if cap[arc] < 0 {
            return Some(arc as u32);
        }
    }
    None
}
