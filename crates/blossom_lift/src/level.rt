//! What a net with a blossom contracted is.

use graph_defs::Net;
use leda_base::Row;
use match_core::Matching;

/// A net in which the nodes of a blossom are one node, the hub. Every arc keeps its number.
#[derive(Drop)]
pub struct Level {
    pub net: Net,
    /// The edges of the larger net's matching but those of the blossom.
    pub matching: Matching,
    /// The number here of each node of the larger net.
    pub image: Row<u32>,
    /// The node that stands for the blossom: the last one.
    pub hub: u32,
}
