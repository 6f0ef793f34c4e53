//! What holds of an array as its graph goes on.
ghost use Rattle.node_maps.specs.Later.{LaterStatesAreServed};

use crate::item::GraphItem;

/// An array that serves a state of its graph serves each later one, since the live elements of a
/// later state are live ones of the earlier state, or have greater numbers than any that was given.
pub fn later_states_are_served<E: GraphItem>()
    ensures { LaterStatesAreServed E.live E.made }
{}
