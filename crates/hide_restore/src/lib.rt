//! Hiding and restoring, with their refusals, what restoring undoes, and the visible graph as a
//! net and as a plain graph.
//!
//! `specs/Edits.antt` has the edits of a graph as values, so that the law can speak of any row of
//! them: a node or an edge that is hidden, left alone by the edits that follow, and then restored,
//! stands where those edits alone would have it.
#![tactic(auto)]

mod canon;
mod hide;
mod laws;
mod places;
mod shown;

pub use canon::plain;
pub use hide::{
    HideRefusal, RestoreRefusal, hide_edge, hide_node, restore_all, restore_edge, restore_node,
};
pub use laws::{restoring_gives_back, restoring_nodes_gives_back, what_is_read_is_written_again};
pub use places::Places;
pub use shown::{Shown, net};

#[cfg(test)]
mod tests;
