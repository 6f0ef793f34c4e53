//! A block: some number of cells in memory of their own, which never move.
ghost use Rattle.std.specs.Prelude.{◌≡◌, ◌+◌, ◌<◌, ◌≤◌, ◌^◌, get_or, length, IfOk};
ghost use Rattle.std.specs.Borrow.{sem};
ghost use Rattle.item_pool.specs.Chained.{blank, chained};

use crate::places::{Deed, Places, Start, allocate, deallocate};
use std::alloc::{AllocError, Global};
use std::marker::Model;
use std_alloc::room::may_hold;

/// A cell: a value and its serial where it is live, and a link of the chain where it is free.
pub struct Cell<T> {
    /// The serial of a live cell; of a free one, how many cells the chain has from it on.
    pub(crate) number: u32,
    /// The next free cell's slot, where this one is free and isn't the last of the chain.
    pub(crate) link: u32,
    /// The value of a live cell, and none in a free one.
    pub(crate) value: Option<T>,
}

/// A block of cells. A clause sees it as their list.
pub struct Block<T> {
    start: Start<Cell<T>>,
    places: Places<Cell<T>>,
    deed: Deed<Cell<T>, Global>,
    /// How many cells there are.
    len: u32,
    alloc: Global,
}

impl<T> Model for Block<T> {
    ghost use Rattle.std.specs.Prelude.{List};
    ghost use Rattle.item_pool.specs.declared.block.Cell.{Cell};

    ghost Value = { List (Cell T) };

    ghost use Rattle.item_pool.specs.Filled.{somes};
    ghost use Rattle.item_pool.specs.IsBlock.{IsBlock};

    ghost view = { λ b. somes b.places.row };

    ghost invariant = { λ b. IsBlock b };
}

/// The free cell at `index` of a new block of `len` cells.
fn free_cell<T>(len: u32, base: u32, free: u32, next: u32, index: u32) -> Cell<T>
    requires index { index < len }
    requires slots { base + len < 2 ^ 32 }
    requires numbers { free + len < 2 ^ 32 }
    ensures { result ≡ get_or (chained len base free next) index blank }
{
    let number = free + (len - index);
    let link = if index + 1 == len {
        next
    } else {
        base + index + 1
    };
    Cell {
        number,
        link,
        value: None,
    }
}

impl<T> Block<T> {
    ghost use Rattle.item_pool.specs.CellLent.{lends_cell};

    /// A block of `len` free cells, chained one behind the other with `next` behind the last. The
    /// first cell's slot is `base`, and the chain from `next` on has `free` cells.
    pub(crate) fn new(
        alloc: Global,
        len: u32,
        base: u32,
        free: u32,
        next: u32,
    ) -> Result<Block<T>, AllocError>
        requires slots { base + len < 2 ^ 32 }
        requires numbers { free + len < 2 ^ 32 }
        ensures { IfOk result (λ b. b ≡ chained len base free next) }
    {
        if !may_hold::<Cell<T>>(len as usize) {
            return Err(AllocError);
        }
        let (start, mut places, deed) = allocate(&alloc, len as usize)?;
        for index in 0..len {
            let cell = free_cell(len, base, free, next, index);
            places.fill(start, index as usize, cell);
        }
        Ok(Block {
            start,
            places,
            deed,
            len,
            alloc,
        })
    }

    /// The cell at `index`.
    #[inline]
    pub(crate) fn get(&self, index: usize) -> &Cell<T>
        requires { index < length self.now }
        ensures { result.now ≡ get_or self.now index blank }
    {
        self.places.get(self.start, index)
    }

    /// The cell at `index`, to be written to.
    #[inline]
    pub(crate) fn get_mut(&mut self, index: usize) -> &mut Cell<T>
        requires { index < length self.old }
        ensures* writes_back { sem 𝓛 (lends_cell T.row self.entry index result) }
        ensures value { result.now ≡ get_or self.old index blank }
    {
        let start = self.start;
        self.places.get_mut(start, index)
    }
}

impl<T: Drop> Drop for Block<T> {
    fn drop(self) {
        let Block {
            start,
            mut places,
            deed,
            len,
            alloc,
        } = self;
        for index in 0..len {
            let Cell {
                number: _,
                link: _,
                value: _value,
            } = places.take(start, index as usize);
        }
        deallocate(&alloc, start, len as usize, places, deed);
    }
}
