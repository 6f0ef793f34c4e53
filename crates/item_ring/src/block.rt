//! A block of nodes. It never moves, so the links into it stay good until it is dropped.
ghost use Rattle.std.specs.Prelude.{◌≡◌, ℕ, ◌<◌, ◌*◌, Option, Some, None, length, get_or, slice_set, IfOk, replicate};
ghost use Rattle.std.specs.Vec.Ownership.{FitsInBlock};
ghost use Rattle.item_ring.specs.Memory.{IsFilled};
ghost use Rattle.item_ring.specs.NodeBlock.{address_of};

use crate::cells::{Cells, Deed, Link, allocate, deallocate};
use std::alloc::{AllocError, Global};
use std::marker::Model;

/// How many nodes a block has.
pub(crate) const BLOCK: usize = 256;

/// What a node serves for.
#[derive(Clone, Copy, Drop)]
pub(crate) enum State {
    Free,
    Loose,
    Linked,
    Head,
}

/// A node without its links: its neighbours and its ring by their slots, and a number,
/// the tag of a member or the length of a head's ring.
#[derive(Clone, Copy, Drop)]
pub(crate) struct Cell {
    pub(crate) next: u32,
    pub(crate) prev: u32,
    pub(crate) ring: u32,
    pub(crate) value: u32,
    pub(crate) state: State,
}

/// A node: the links to both neighbours, and its cell. It takes 40 bytes.
#[derive(Clone, Copy, Drop)]
pub(crate) struct Node {
    pub(crate) next: Link,
    pub(crate) prev: Link,
    pub(crate) cell: Cell,
}

/// `BLOCK` places for nodes.
pub(crate) struct Block {
    start: Link,
    cells: Cells<Node>,
    deed: Deed<Node, Global>,
    alloc: Global,
}

impl Model for Block {
    ghost use Rattle.item_ring.specs.NodeBlock.{NodeBlock};

    ghost Value = { NodeBlock };

    ghost use Rattle.item_ring.specs.IsBlock.{block_of, IsBlock};

    ghost view = { block_of };

    ghost invariant = { IsBlock };
}

impl Block {
    /// A block of empty places, or none where memory is lacking.
    pub(crate) fn new(alloc: Global) -> Result<Block, AllocError>
        ensures { IfOk result (λ b. b.slots ≡ replicate BLOCK None) }
    {
        let (start, cells, deed) = allocate::<Node, Global>(&alloc, BLOCK)?;
        Ok(Block {
            start,
            cells,
            deed,
            alloc,
        })
    }

    #[tactic(auto, unfolding(crate::specs::NodeBlock::address_of))]
    /// The link to the place at the index.
    pub(crate) fn link(&self, index: usize) -> Link
        requires { index < length self.now.slots }
        ensures { result.at ≡ address_of self.now index }
    {
        self.cells.link(self.start, index)
    }

    #[tactic(auto, unfolding(crate::specs::NodeBlock::address_of))]
    /// Follows a link to a node.
    pub(crate) fn get(&self, link: Link, index: usize) -> Node
        requires leads { link.at ≡ address_of self.now index }
        requires filled { IsFilled self.now.slots index }
        ensures { get_or self.now.slots index None ≡ Some result }
    {
        *self.cells.get(link, index)
    }

    #[tactic(auto, unfolding(crate::specs::NodeBlock::address_of))]
    /// Puts a node where the link leads.
    pub(crate) fn set(&mut self, link: Link, index: usize, node: Node)
        requires leads { link.at ≡ address_of self.old index }
        requires within { index < length self.old.slots }
        ensures at { self.new.at ≡ self.old.at }
        ensures slots { self.new.slots ≡ slice_set self.old.slots index (Some node) }
    {
        self.cells.write(link, index, node);
    }
}

impl Drop for Block {
    fn drop(self) {
        let Block {
            start,
            cells,
            deed,
            alloc,
        } = self;
        deallocate::<Node, Global>(&alloc, start, BLOCK, cells, deed);
    }
}
