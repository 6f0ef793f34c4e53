//! The fast search.
ghost use Rattle.graph_defs.specs.Net.{IsValid};

use crate::back::Back;
use crate::paths::Paths;
use crate::residual::Residual;
use crate::search::Search;
use graph_defs::{FlowAnswer, Net};
use leda_base::{NoMemory, Row};
use std::alloc::Global;

/// How much work the paths may take before labels are used, for each node and each hop.
pub(crate) const PATIENCE: u64 = 8;

/// A flow and a cut, with no more than so many relabels, of which as many remain as are left in the
/// end. Nothing is claimed of them here.
pub(crate) fn propose(
    alloc: Global,
    net: &Net,
    source: u32,
    sink: u32,
    cap: &[i64],
    patience: u64,
    left: &mut u64,
) -> Result<FlowAnswer, NoMemory>
    requires { IsValid net.now }
{
    let mut graph = Residual::new(alloc, net, source, sink, cap)?;
    let size = u64::from(net.n).saturating_add(graph.hop_count() as u64);
    let mut paths = Paths::new(alloc, net.n, source, sink, patience.saturating_mul(size))?;
    if paths.run(&mut graph)? {
        return Ok(FlowAnswer {
            flow: graph.flow(alloc)?,
            value: paths.value(),
            cut: paths.cut(alloc)?,
        });
    }
    let mut search = Search::new(alloc, graph, source, sink, *left)?;
    search.run(alloc)?;
    *left = search.left();
    let value = paths.value().wrapping_add(search.excess(sink));
    let cut = search.cut(alloc)?;
    Back::new(alloc, &search, source, sink)?.run(&mut search)?;
    let flow = search.graph.flow(alloc)?;
    Ok(FlowAnswer { flow, value, cut })
}
