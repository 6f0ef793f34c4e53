//! Rounds until no label falls, or until last arcs make a closed walk of negative weight.
ghost use Rattle.std.specs.Prelude.{◌≡◌, ◌<◌, length, IfOk};
ghost use Rattle.sp_search.specs.Tags.{IsPriced};
ghost use Rattle.sp_search.specs.Rounds.{IsEnd};

use crate::finding::Finding;
use crate::forest::{climb, stray, tree_of};
use crate::tags::{first_tags, round};
use graph_defs::Net;
use leda_base::{NoMemory, Row};
use std::alloc::Global;

/// What rounds come to.
pub enum End {
    /// No label falls any more: the tree of the tagged nodes.
    Tree(Finding),
    /// The arcs of a closed walk of negative weight to which walks lead.
    Cycle(Row<u32>),
}

/// Rounds over the nodes that aren't shut. Behind each round it is seen whether the last arcs still
/// make a tree, so a closed walk of negative weight shows as soon as they don't.
pub fn settle(
    alloc: Global,
    net: &Net,
    s: u32,
    cost: &[i64],
    shut: &[bool],
) -> Result<End, NoMemory>
    requires priced { IsPriced net.now cost.now }
    requires s { s < net.now.n }
    requires shut { length shut.now ≡ net.now.n }
    ensures { IfOk result (λ end. IsEnd net.now s cost.now shut.now end) }
{
    let mut tags = first_tags(alloc, net, s, cost, shut)?;
    loop {
        let tree = tree_of(alloc, net, s, tags.as_slice())?;
        if let Some(from) = stray(tags.as_slice(), tree.marks.as_slice()) {
            let cycle = climb(alloc, net, tags.as_slice(), tree.marks.as_slice(), from)?;
            return Ok(End::Cycle(cycle));
        }
        if !round(net, cost, shut, &mut tags) {
            return Ok(End::Tree(tree));
        }
    }
}
