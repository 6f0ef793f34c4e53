//! What contracts see of a graph.
ghost use Rattle.std.specs.Prelude.{◌≡◌};
ghost use Rattle.graph_state.specs.State.{GraphState};

use leda_base::{Row, Seen};
use std::marker::Model;

/// The type of what is seen of a graph, `GraphState`. No value of it is made.
#[derive(Drop)]
pub struct GraphView {}

impl Model for GraphView {
    ghost use Rattle.std.specs.Prelude.{true};
    ghost use Rattle.graph_state.specs.State.{GraphState, state_code, empty_graph};

    ghost Value = { GraphState };

    ghost coded = { state_code };

    ghost view = { λ _. empty_graph true };
}

/// At the start `first` is seen. The arguments are what it may be made of.
pub(crate) fn begin(
    directed: bool,
    node_type: &Row<u8>,
    edge_type: &Row<u8>,
    made_nodes: u32,
    made_edges: u32,
) -> Seen<GraphView>
    ghost first: { GraphState }
    ensures { result.view ≡ first }
{
    Seen::nothing()
}

/// From here on `to` is seen. The numbers are those that `to` may be made of.
pub(crate) fn show(seen: &mut Seen<GraphView>, x: u32, v: u32, w: u32)
    ghost to: { GraphState }
    ensures { seen.new.view ≡ to }
{
    seen.becomes();
}

/// Likewise, where a label comes.
pub(crate) fn show_label(seen: &mut Seen<GraphView>, x: u32, v: u32, label: &Row<u8>)
    ghost to: { GraphState }
    ensures { seen.new.view ≡ to }
{
    seen.becomes();
}
