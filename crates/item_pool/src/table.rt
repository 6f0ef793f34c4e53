//! The table of a pool, from live serials to slots.
ghost use Rattle.std.specs.Prelude.{◌≡◌, ℕ, ◌+◌, ◌^◌, ◌<◌, ◌≤◌, Some, None, OnOk, IsOk, nat_eq};
ghost use Rattle.std.specs.HashMap.{get, spare};
ghost use Rattle.item_pool.specs.Homes.{at_home, AreFree};
ghost use Rattle.item_pool.specs.Lookups.{IsApart, Sets};

use crate::homes::Homes;
use std::alloc::{AllocError, Global};
use std::collections::HashMap;

/// How many homes are looked at ahead of the serials that come in, so that not each insertion has
/// to look.
const AHEAD: u32 = 64;

/// From live serials to slots. A serial lies in its home, or in a hash table where another was
/// there first. The hash table has room for as many serials as are sure of a place, but for those
/// whose homes are free.
#[derive(Drop)]
pub struct Table {
    homes: Homes,
    others: HashMap<u32, u32>,
    /// The serial that comes in next.
    next: u32,
    /// How many serials, from the next one on, are sure of a place.
    sure: u32,
    ghost apart: { IsApart (at_home homes) (get nat_eq others) },
    ghost placed: { spare others < sure → AreFree homes next sure },
}

impl Table {
    ghost use Rattle.item_pool.specs.Table.{slot_of};

    /// A table of no serials, in which `next` comes in next. It takes no memory.
    pub(crate) fn new(alloc: Global, next: u32) -> Table
        ensures empty { (s : ℕ) → slot_of result s ≡ None }
        ensures next { result.next ≡ next }
    {
        Table {
            homes: Homes::new(alloc),
            others: HashMap::new(alloc),
            next,
            sure: 0,
        }
    }

    /// The slot of a serial.
    #[inline]
    pub(crate) fn get(&self, serial: u32) -> Option<u32>
        ensures { result ≡ slot_of self.now serial }
    {
        match self.homes.get(serial) {
            Some(slot) => Some(slot),
            None if self.others.is_empty() => None,
            None => self.others.get(&serial).copied(),
        }
    }

    /// Puts the next serial in, which is sure of a place. It can't be refused.
    #[inline]
    pub(crate) fn insert(&mut self, slot: u32)
        requires sure { 0 < self.old.sure }
        requires next { (0 < self.old.next) × (self.old.next + 1 < 2 ^ 32) }
        requires absent { slot_of self.old self.old.next ≡ None }
        ensures entry { Sets (slot_of self.old) (slot_of self.new) self.old.next (Some slot) }
        ensures next { self.new.next ≡ self.old.next + 1 }
        ensures sure { self.new.sure + 1 ≡ self.old.sure }
    {
        let serial = self.next;
        self.next += 1;
        self.sure -= 1;
        if !self.homes.settle(serial, slot) {
            match self.others.insert(serial, slot) {
                Ok(_) => {}
                Err(_) => unreachable!(),
            }
        }
    }

    /// Takes a serial out.
    #[inline]
    pub(crate) fn remove(&mut self, serial: u32)
        ensures entry { Sets (slot_of self.old) (slot_of self.new) serial None }
        ensures same { (self.new.next ≡ self.old.next) × (self.new.sure ≡ self.old.sure) }
    {
        if !self.homes.leave(serial) {
            let _slot = self.others.remove(&serial);
        }
    }

    /// Makes the next `n` serials sure of a place, and homes for as many values as there are cells.
    /// Homes only make looks faster, so where there is no memory for more of them, those that there
    /// are have to do. Where the homes of all `n` are free, no room is bought. It takes time in
    /// proportion to `n` at most.
    ///
    /// # Errors
    ///
    /// Where there is no memory for the room, which isn't so where `n` serials are sure already.
    pub(crate) fn reserve(&mut self, n: u32, cells: u32) -> Result<(), AllocError>
        requires { self.old.next + n + AHEAD < 2 ^ 32 }
        ensures kept { (s : ℕ) → slot_of self.new s ≡ slot_of self.old s }
        ensures next { self.new.next ≡ self.old.next }
        ensures ok { OnOk result (n ≤ self.new.sure) }
        ensures succeeds { n ≤ self.old.sure → IsOk result }
        ensures sure { self.old.sure ≤ self.new.sure }
    {
        self.homes.widen(cells);
        if n <= self.sure {
            return Ok(());
        }
        let free = self.homes.free_from(self.next, n.max(AHEAD));
        if free < n {
            self.others.reserve(n as usize)?;
        }
        self.sure = free.max(n);
        Ok(())
    }

    /// How many serials are sure of a place.
    #[inline]
    pub(crate) fn sure(&self) -> u32
        ensures { result ≡ self.now.sure }
    {
        self.sure
    }
}
