//! The searches for shortest paths, by the word of the command.
ghost use Rattle.std.specs.Prelude.{◌≡◌, ◌<◌, length, IfOk, IfErr};
ghost use Rattle.graph_defs.specs.Net.{IsValid};
ghost use Rattle.graph_defs.specs.Shortest.{IsSpAnswer};
ghost use Rattle.console_state.specs.Paths.{IsAllowed, MayRefuse};

use graph_defs::{Net, SpAnswer};
use leda_base::Row;
use sp_fast::shortest;
use sp_search::{SpRefusal, dijkstra};
use std::alloc::Global;

/// Which search is asked for.
#[derive(Clone, Copy, Debug, PartialEq, Eq)]
pub(crate) enum PathSearch {
    /// For costs of any sign.
    Sp,
    /// For costs of 0 and more.
    Dijkstra,
}

impl PathSearch {
    /// The answer to the question on the net.
    ///
    /// # Errors
    /// As those of the searches.
    pub(crate) fn answer(
        self,
        alloc: Global,
        net: &Net,
        source: u32,
        cost: &[i64],
    ) -> Result<SpAnswer, SpRefusal>
        requires valid { IsValid net.now }
        requires source { source < net.now.n }
        requires costs { length cost.now ≡ length net.now.arcs }
        ensures right { IfOk result (IsSpAnswer net.now source cost.now) }
        ensures allowed { IfOk result (λ _. IsAllowed self cost.now) }
        ensures refusal { IfErr result (MayRefuse self cost.now) }
    {
        match self {
            PathSearch::Sp => shortest(alloc, net, source, cost),
            PathSearch::Dijkstra => dijkstra(alloc, net, source, cost),
        }
    }
}
