//! Reversals of edges, and the faces of a map.
//!
//! Two edges that run between the same nodes in opposite directions can be each other's reversal. A
//! directed graph in which every edge has one is a map, and the edges round a face of it follow
//! each other: behind an edge comes the one before its reversal in the cyclic order of the out
//! list there. `specs/Reversals.antt` says when the calls are refused, and what they answer.
#![tactic(auto)]

mod face;
mod map;
mod reversal;

pub use face::{FaceRefusal, face_succ};
pub use map::make_map;
pub use reversal::{RevRefusal, set_reversal};

#[cfg(test)]
mod tests;
