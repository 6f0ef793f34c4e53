//! Blossoms contracted into one node, and augmenting paths and odd-set covers of the smaller net
//! brought back to the larger one.
//!
//! `specs/Contraction.antt` says what the smaller net is: every arc keeps its number. `contract`
//! makes it, `lift_path` and `lift_cover` bring a path or a cover of it back.
#![tactic(auto)]

mod cover_lifting;
mod level;
mod marks;
mod path_lifting;
mod shrinking;

pub use cover_lifting::lift_cover;
pub use level::Level;
pub use path_lifting::lift_path;
pub use shrinking::contract;
