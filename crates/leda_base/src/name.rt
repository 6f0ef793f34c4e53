//! The names of items and of objects, and how long names and labels may be.

/// How many bytes the name of an object may have.
pub const NAME_LIMIT: usize = 32;

/// How many bytes the label of a node or an edge may have.
pub const LABEL_LIMIT: usize = 60_000;

/// What an item is, and the number by which it is called: the node 7 is printed `n7`, the edge 3
/// `e3`, the item 5 of a container `i5`.
#[derive(Clone, Copy, Debug, PartialEq, Eq)]
pub enum ItemName {
    Node(u32),
    Edge(u32),
    Cell(u32),
}
