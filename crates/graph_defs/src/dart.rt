//! Darts: the two halves of an edge.

/// A half of an edge: the front dart stands at the edge's source, the back dart at its target.
#[derive(Clone, Copy, Debug, PartialEq, Eq)]
pub struct Dart {
    pub edge: u32,
    /// Whether it is the dart at the target.
    pub back: bool,
}
