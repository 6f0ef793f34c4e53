//! The kinds of graphs, and the two sides of a dart.

/// Whether the edges have directions.
#[derive(Clone, Copy, Debug, PartialEq, Eq)]
pub enum Kind {
    Directed,
    Undirected,
}

/// Where a new edge goes, beside another one.
#[derive(Clone, Copy, Debug, PartialEq, Eq)]
pub enum Side {
    Before,
    Behind,
}
