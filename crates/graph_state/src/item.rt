//! Items of nodes and edges.

use item_pool::Item;

/// A node, by the item that it was given when it was made.
#[derive(Clone, Copy, Debug, PartialEq, Eq)]
pub struct NodeItem(pub Item);

/// An edge, by the item that it was given when it was made.
#[derive(Clone, Copy, Debug, PartialEq, Eq)]
pub struct EdgeItem(pub Item);
