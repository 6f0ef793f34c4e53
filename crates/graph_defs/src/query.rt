//! What a question names besides nodes, arcs and numbers.
ghost use Rattle.std.specs.Prelude.{◌≡◌, ◌≤◌, length};
ghost use Rattle.graph_defs.specs.Query.{kept_word};

/// Which assignment is asked for.
#[derive(Clone, Copy, Debug, PartialEq, Eq)]
pub enum Mode {
    /// A matching of the greatest weight.
    Max,
    /// Of the matchings that leave no node free, one of the greatest weight.
    PerfectMax,
    /// Of the matchings that leave no node free, one of the least weight.
    PerfectMin,
}

/// The sorts of answers of which the last one is kept, so that it can be checked again.
#[derive(Clone, Copy, Debug, PartialEq, Eq)]
pub enum Kept {
    /// Shortest paths.
    Sp,
    /// A maximum flow.
    Maxflow,
    /// A maximum flow of least cost.
    Mincost,
    /// A feasible flow of least cost.
    Mcf,
    /// A maximum matching.
    Matching,
    /// An assignment.
    Assign,
    /// A planar rotation, or a subdivision that excludes one.
    Planar,
}

impl Kept {
    /// The word of the sort, which has at most 8 bytes: `sp`, `maxflow`, `mincost`, `mcf`,
    /// `matching`, `assign` or `planar`.
    pub fn word(self) -> &'static [u8]
        ensures word { result.now ≡ kept_word self }
        ensures short { length result.now ≤ 8 }
    {
        match self {
            Kept::Sp => b"sp",
            Kept::Maxflow => b"maxflow",
            Kept::Mincost => b"mincost",
            Kept::Mcf => b"mcf",
            Kept::Matching => b"matching",
            Kept::Assign => b"assign",
            Kept::Planar => b"planar",
        }
    }
}

#[cfg(test)]
mod tests {
    use super::*;

    #[test]
    fn sorts_have_their_words(rt: HostRuntime) {
        for (kept, want) in [
            (Kept::Sp, "sp"),
            (Kept::Maxflow, "maxflow"),
            (Kept::Mincost, "mincost"),
            (Kept::Mcf, "mcf"),
            (Kept::Matching, "matching"),
            (Kept::Assign, "assign"),
            (Kept::Planar, "planar"),
        ] {
            assert_eq!(rt; kept.word(), want.as_bytes(), "at {want}");
        }
    }
}
