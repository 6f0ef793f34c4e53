//! Cells by their slots, in blocks of which each has twice as many as the one before.
ghost use Rattle.std.specs.Prelude.{◌≡◌, ◌+◌, ◌*◌, ◌<◌, ◌≤◌, ◌^◌, ◌++◌, [], get_or, length, OnOk, OnErr};
ghost use Rattle.std.specs.Borrow.{sem};
ghost use Rattle.item_pool.specs.Chained.{blank, chained};
ghost use Rattle.item_pool.specs.Joined.{LiesAt};

use crate::block::{Block, Cell};
use std::alloc::{AllocError, Global};
use std::marker::Model;

/// How many cells the first block has, a power of two.
pub(crate) const FIRST_BLOCK: u32 = 64;

/// Which power of two that is.
const FIRST_POWER: u32 = 6;

/// The cells of a pool. A clause sees them as one list, in which a cell's index is its slot.
#[derive(Drop)]
pub struct Cells<T> {
    blocks: Vec<Block<T>>,
    alloc: Global,
}

impl<T> Model for Cells<T> {
    ghost use Rattle.std.specs.Prelude.{List};
    ghost use Rattle.item_pool.specs.declared.block.Cell.{Cell};

    ghost Value = { List (Cell T) };

    ghost use Rattle.item_pool.specs.Joined.{joined, AreBlocks};
    ghost use Rattle.item_pool.specs.declared.cells.TheConstants.{FIRST_BLOCK};

    ghost view = { λ c. joined c.blocks.items };

    ghost invariant = { λ c. AreBlocks FIRST_BLOCK c.blocks.items };
}

/// Where a slot lies: the number of its block, and its place there. Before a block there are 64
/// slots fewer than it has itself, so of the slot and 64 the highest bit tells the block, and the
/// others tell the place.
#[inline]
fn place_of(slot: u32) -> (usize, usize)
    ensures { LiesAt slot result.0 result.1 }
{
    let raised = slot as usize + FIRST_BLOCK as usize;
    let power = raised.ilog2();
    let block = power - FIRST_POWER;
    (block as usize, raised - (1 << power))
}

impl<T> Cells<T> {
    ghost use Rattle.item_pool.specs.CellsLent.{lends_cell_of};

    /// No cells, which take no memory.
    pub(crate) fn new(alloc: Global) -> Cells<T>
        ensures { result ≡ [] }
    {
        Cells {
            blocks: Vec::new(alloc),
            alloc,
        }
    }

    /// The cell at `slot`.
    #[inline]
    pub(crate) fn get(&self, slot: u32) -> &Cell<T>
        requires { slot < length self.now }
        ensures { result.now ≡ get_or self.now slot blank }
    {
        let (block, place) = place_of(slot);
        self.blocks[block].get(place)
    }

    /// The cell at `slot`, to be written to.
    #[inline]
    pub(crate) fn get_mut(&mut self, slot: u32) -> &mut Cell<T>
        requires { slot < length self.old }
        ensures* writes_back { sem 𝓛 (lends_cell_of T.row self.entry slot result) }
        ensures value { result.now ≡ get_or self.old slot blank }
    {
        let (block, place) = place_of(slot);
        self.blocks[block].get_mut(place)
    }

    /// A block of free cells more, chained in front of `next`, or no memory for them. It has 64
    /// cells more than the `len` that there are. The chain from `next` on has `free` cells.
    pub(crate) fn grow(&mut self, len: u32, free: u32, next: u32) -> Result<(), AllocError>
        requires len { len ≡ length self.old }
        requires slots { len + (len + FIRST_BLOCK) < 2 ^ 32 }
        requires numbers { free + (len + FIRST_BLOCK) < 2 ^ 32 }
        ensures ok { OnOk result
            (self.new ≡ self.old ++ chained (len + FIRST_BLOCK) len free next) }
        ensures err { OnErr result (self.new ≡ self.old) }
    {
        self.blocks.reserve(1)?;
        let block = Block::new(self.alloc, len + FIRST_BLOCK, len, free, next)?;
        match self.blocks.push(block) {
            Ok(()) => Ok(()),
            Err(_refused) => unreachable!(),
        }
    }
}
