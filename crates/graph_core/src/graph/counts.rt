//! How much of a graph shows.
ghost use Rattle.std.specs.Prelude.{◌≡◌, length};
ghost use Rattle.graph_state.specs.State.{visible_nodes, visible_edges};

use super::Graph;

impl Graph {
    /// How many nodes are visible. In constant time.
    pub fn count_nodes(&self) -> u32
        ensures { result ≡ length (visible_nodes self.now) }
    {
        match &self.heads {
            Some(heads) => self.lists.len(heads.nodes.shown),
            None => 0,
        }
    }

    /// How many edges are visible. In constant time.
    pub fn count_edges(&self) -> u32
        ensures { result ≡ length (visible_edges self.now) }
    {
        match &self.heads {
            Some(heads) => self.lists.len(heads.edges.shown),
            None => 0,
        }
    }
}
