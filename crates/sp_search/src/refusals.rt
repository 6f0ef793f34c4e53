//! Why there is no answer on shortest paths.
ghost use Rattle.std.specs.Prelude.{◌≡◌, ◌≤◌, ◌<ℤ◌, ◌≤ℤ◌, pos, length, All, MatchBool, MatchOption};
ghost use Rattle.graph_defs.specs.declared.net.TheConstants.{ARC_LIMIT};
ghost use Rattle.sp_search.specs.Telling.{size};
ghost use Rattle.sp_search.specs.Refusals.{sizes, IsFirstNegative};

/// Why there is no answer, in the order in which it is asked.
#[derive(Clone, Copy, Debug, PartialEq, Eq)]
pub enum SpRefusal {
    /// The first arc whose cost is below 0.
    Negative(u32),
    /// The costs without their signs sum up to more than 2^62 - 1.
    Bound,
    /// The room isn't given.
    NoMemory,
}

/// The greatest sum that the costs without their signs may have.
const BOUND: i128 = 4_611_686_018_427_387_903;

/// Whether the costs without their signs sum up to no more than 2^62 - 1.
pub fn is_within_bound(cost: &[i64]) -> bool
    ensures { MatchBool result (sizes cost.now ≤ℤ pos 4611686018427387903)
        (pos 4611686018427387903 <ℤ sizes cost.now) }
{
    let sum = sizes_of(cost);
    sum <= BOUND
}

// The sum of the costs without their signs.
pub fn sizes_of(cost: &[i64]) -> i128
    ensures { result ≡ sizes cost.now }
{
    let mut sum: i128 = 0;
    for one in cost {
        sum += size_of(*one);
    }
    sum
}

// A cost without its sign.
fn size_of(cost: i64) -> i128
    ensures { result ≡ size cost }
{
    let cost = i128::from(cost);
    if cost < 0 { 0 - cost } else { cost }
}

/// The first arc whose cost is below 0.
pub fn first_negative(cost: &[i64]) -> Option<u32>
    requires { length cost.now ≤ ARC_LIMIT }
    ensures { MatchOption result (All (λ c. pos 0 ≤ℤ c) cost.now)
        (λ arc. IsFirstNegative cost.now arc) }
{
    for arc in 0..cost.len() {
        if cost[arc] < 0 {
            return Some(arc as u32);
        }
    }
    None
}
