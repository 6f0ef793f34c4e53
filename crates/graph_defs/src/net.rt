//! A directed graph by numbers.
ghost use Rattle.std.specs.Prelude.{◌↔◌, ◌<◌, All, IsTrue};
ghost use Rattle.graph_defs.specs.Net.{Ends, IsValid};

use leda_base::Row;

/// How many nodes a net may have.
pub const NODE_LIMIT: u32 = 100_000;

/// How many arcs a net may have.
pub const ARC_LIMIT: u32 = 400_000;

/// A directed graph by numbers: nodes 0 to `n - 1`, and arc k from `arcs[k].0` to `arcs[k].1`.
///
/// Arcs may be parallel, and an arc may be a loop. A net is valid where every end is below `n`, `n`
/// is at most 100,000 and there are at most 400,000 arcs; every call that takes a net asks that it
/// is valid.
#[derive(Drop)]
pub struct Net {
    pub n: u32,
    pub arcs: Row<(u32, u32)>,
}

impl Net {
    /// Whether every end is below `n` and there are few enough nodes and arcs.
    pub fn is_valid(&self) -> bool
        ensures { IsTrue result ↔ IsValid self.now }
    {
        let arcs = self.arcs.as_slice();
        self.n <= NODE_LIMIT && arcs.len() <= ARC_LIMIT as usize && have_ends_below(self.n, arcs)
    }
}

fn have_ends_below(n: u32, arcs: &[(u32, u32)]) -> bool
    ensures { IsTrue result ↔ All (λ (arc : Ends). (arc.0 < n) × (arc.1 < n)) arcs.now }
{
    arcs.iter().all(|(from, to)| *from < n && *to < n)
}
