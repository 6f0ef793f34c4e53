//! The pool: cells of live values, a chain of free cells, and a table from serials to slots.
ghost use Rattle.std.specs.Prelude.{◌≡◌, ℕ, ◌+◌, ◌*◌, ◌<◌, ◌≤◌, ◌^◌, get_or, slice_set, length, Some, None, OnOk, OnErr, IfOk, IfErr, MatchResult, MatchOption, IsOk, IsSome, IsTrue, ◌↔◌};
ghost use Rattle.std.specs.Borrow.{sem};
ghost use Rattle.std.specs.FinMap as map;
ghost use Rattle.item_pool.specs.Chained.{blank};
ghost use Rattle.item_pool.specs.CellsKept.{cell_at, IsChain, IsLive, IsGrown};
ghost use Rattle.item_pool.specs.Table.{slot_of};
ghost use Rattle.item_pool.specs.Contents.{contents, IsAsBefore, IsWithin, Holds, HasLive, Lacks, Inserts, Refuses, Removes, WhyGone};

use crate::block::Cell;
use crate::cells::{Cells, FIRST_BLOCK};
use crate::table::Table;
use std::alloc::Global;
use std::marker::Model;
use std::mem;

/// The most serials that a pool gives: serials are 1 to this number.
pub const MOST_SERIALS: u32 = 16_777_215;

/// Names a value of a pool by its serial. The slot is a hint, by which the value is found sooner:
/// no answer depends on it.
#[derive(Clone, Copy, PartialEq, Eq, Debug)]
pub struct Item {
    /// Where the value lay when the item was made.
    pub slot: u32,
    /// The serial, which no other value of the pool is ever given.
    pub serial: u32,
}

/// Why there is no value with a serial.
#[derive(Clone, Copy, PartialEq, Eq, Debug)]
pub enum Gone {
    /// There was one, and it was removed.
    Dead,
    /// There was never one.
    Unknown,
}

/// Why a value wasn't taken in. It comes back.
#[derive(Debug, Drop)]
pub enum InsertRefusal<T> {
    /// There was no memory.
    NoMemory(T),
    /// Each serial has been given.
    Spent(T),
}

/// Why no room was made.
#[derive(Clone, Copy, PartialEq, Eq, Debug)]
pub enum ReserveRefusal {
    /// There was no memory.
    NoMemory,
}

/// A pool of values, each named by the serial that it was given when it came in. Serials are given
/// in turn, from 1 on.
///
/// A clause sees the live values as a finite map from serials, with how many serials were made, and
/// how many values can come in before there has to be more memory.
#[derive(Drop)]
pub struct Pool<T> {
    cells: Cells<T>,
    /// The slot of each live value, by its serial.
    table: Table,
    /// The slot that the chain of free cells starts at, where there are any.
    first: u32,
    free: u32,
    live: u32,
    made: u32,
}

impl<T> Model for Pool<T> {
    ghost use Rattle.item_pool.specs.Contents.{Contents, contents, contents_code};

    ghost Value = { Contents T };

    ghost coded = { contents_code T.code };

    ghost use Rattle.std.specs.Prelude.{min};
    ghost use Rattle.item_pool.specs.CellsKept.{live_of};
    ghost use Rattle.item_pool.specs.IsPool.{IsPool};

    ghost view = { λ p. contents (live_of p.cells) p.made (min p.free p.table.sure) };

    ghost invariant = { λ p. IsPool p };
}

/// Whether the item's slot is the right one.
#[inline]
fn is_there<T>(cells: &Cells<T>, len: u32, it: Item) -> bool
    requires { len ≡ length cells.now }
    ensures { IsTrue result
        ↔ (it.slot < length cells.now)
        × ((cell_at cells.now it.slot).number ≡ it.serial)
        × IsSome (cell_at cells.now it.slot).value }
{
    if it.slot < len {
        let cell = cells.get(it.slot);
        cell.number == it.serial && cell.value.is_some()
    } else {
        false
    }
}

/// The slot of a live value. Where the item's slot is the right one, the table isn't asked.
#[inline]
fn find<T>(cells: &Cells<T>, table: &Table, len: u32, it: Item) -> Option<u32>
    requires len { len ≡ length cells.now }
    requires listed { (i s : ℕ) (x : T)
        → IsLive (cell_at cells.now) i s x
        → slot_of table.now s ≡ Some i }
    ensures { result ≡ slot_of table.now it.serial }
{
    if is_there(cells, len, it) {
        Some(it.slot)
    } else {
        table.get(it.serial)
    }
}

/// The cell of a live value, likewise. Where the item's slot is the right one, its place is worked
/// out only once.
#[inline]
fn look<'a, T>(cells: &'a Cells<T>, table: &Table, len: u32, it: Item) -> Option<&'a Cell<T>>
    requires len { len ≡ length cells.now }
    requires within { (s i : ℕ) → slot_of table.now s ≡ Some i → i < length cells.now }
    requires listed { (i s : ℕ) (x : T)
        → IsLive (cell_at cells.now) i s x
        → slot_of table.now s ≡ Some i }
    ensures { MatchOption result (slot_of table.now it.serial ≡ None) (λ cell.
        (i : ℕ) × (slot_of table.now it.serial ≡ Some i) × (cell.now ≡ cell_at cells.now i)) }
{
    if is_there(cells, len, it) {
        return Some(cells.get(it.slot));
    }
    match table.get(it.serial) {
        Some(slot) => Some(cells.get(slot)),
        None => None,
    }
}

/// Why no value has the serial, where none has.
fn why_gone(made: u32, serial: u32) -> Gone
    ensures { WhyGone made serial result }
{
    if serial == 0 || made < serial {
        Gone::Unknown
    } else {
        Gone::Dead
    }
}

/// Puts a value into a free cell, and answers what the cell was linked to.
fn occupy<T>(cells: &mut Cells<T>, slot: u32, serial: u32, value: T) -> u32
    requires slot { slot < length cells.old }
    requires free { (cell_at cells.old slot).value ≡ None }
    ensures cells { let link = (cell_at cells.old slot).link in
        cells.new
        ≡ slice_set cells.old slot
        (record { number = serial; link = link; value = Some value }) }
    ensures link { result ≡ (cell_at cells.old slot).link }
{
    let cell = cells.get_mut(slot);
    cell.number = serial;
    match mem::replace(&mut cell.value, Some(value)) {
        None => cell.link,
        Some(_) => unreachable!(),
    }
}

/// Takes the value out of a live cell, and puts the cell in front of a chain, whose length is then
/// `number`.
fn vacate<T>(cells: &mut Cells<T>, slot: u32, number: u32, link: u32) -> T
    requires slot { slot < length cells.old }
    requires live { IsSome (cell_at cells.old slot).value }
    ensures cells { cells.new
        ≡ slice_set cells.old slot (record { number = number; link = link; value = None }) }
    ensures value { (cell_at cells.old slot).value ≡ Some result }
{
    let cell = cells.get_mut(slot);
    cell.number = number;
    cell.link = link;
    match cell.value.take() {
        Some(value) => value,
        None => unreachable!(),
    }
}

/// Adds free cells until there are at least `n`, or answers that there is no memory. The live cells
/// are as before.
fn add_cells<T>(
    cells: &mut Cells<T>,
    first: &mut u32,
    free: &mut u32,
    live: u32,
    n: u32,
) -> Result<(), ReserveRefusal>
    requires chain { IsChain (cell_at cells.old) (length cells.old) first.old free.old }
    requires total { free.old + live ≡ length cells.old }
    requires few { (n ≤ MOST_SERIALS) × (live ≤ MOST_SERIALS) × (length cells.old < 2 ^ 27) }
    ensures chain { IsChain (cell_at cells.new) (length cells.new) first.new free.new }
    ensures total { (free.new + live ≡ length cells.new) × (length cells.new < 2 ^ 27) }
    ensures live { IsGrown cells.old cells.new }
    ensures more { free.old ≤ free.new }
    ensures ok { OnOk result (n ≤ free.new) }
    ensures succeeds { n ≤ free.old → IsOk result }
{
    while *free < n {
        let len = *free + live;
        match cells.grow(len, *free, *first) {
            Ok(()) => {
                *first = len;
                *free += len + FIRST_BLOCK;
            }
            Err(_) => return Err(ReserveRefusal::NoMemory),
        }
    }
    Ok(())
}

impl<T> Pool<T> {
    ghost use Rattle.item_pool.specs.ValueLent.{lends_value};

    /// A pool of no values, which takes no memory.
    pub fn new(alloc: Global) -> Pool<T>
        ensures { result ≡ contents map.empty 0 0 }
    {
        Pool::behind(alloc, 0)
    }

    /// A pool of no values whose first `made` serials were given, at most `MOST_SERIALS`. It takes
    /// no memory.
    pub fn behind(alloc: Global, made: u32) -> Pool<T>
        requires { made ≤ MOST_SERIALS }
        ensures { result ≡ contents map.empty made 0 }
    {
        Pool {
            cells: Cells::new(alloc),
            table: Table::new(alloc, made + 1),
            first: 0,
            free: 0,
            live: 0,
            made,
        }
    }

    /// Makes room for `n` values more, of which none is then refused. `n` is at most
    /// `MOST_SERIALS`.
    ///
    /// # Errors
    ///
    /// `NoMemory` where there is no memory, which isn't so where there is room for `n` already. The
    /// values are as before, and there is no less room.
    pub fn reserve(&mut self, n: u32) -> Result<(), ReserveRefusal>
        requires { n ≤ MOST_SERIALS }
        ensures kept { IsAsBefore self.old self.new }
        ensures ok { OnOk result (n ≤ self.new.spare) }
        ensures succeeds { n ≤ self.old.spare → IsOk result }
    {
        add_cells(
            &mut self.cells,
            &mut self.first,
            &mut self.free,
            self.live,
            n,
        )?;
        match self.table.reserve(n, self.free + self.live) {
            Ok(()) => Ok(()),
            Err(_) => Err(ReserveRefusal::NoMemory),
        }
    }

    /// Takes a value in under the next serial.
    ///
    /// # Errors
    ///
    /// `Spent` exactly where `MOST_SERIALS` serials were given, and `NoMemory` where there is no
    /// memory, which isn't so where there is room to spare. The value comes back, and the others
    /// are as before.
    pub fn insert(&mut self, value: T) -> Result<Item, InsertRefusal<T>>
        ensures ok { IfOk result (λ it. Inserts self.old self.new it value) }
        ensures err { IfErr result (λ why. Refuses self.old self.new value why) }
    {
        if self.made() == MOST_SERIALS {
            return Err(InsertRefusal::Spent(value));
        }
        if self.spare() == 0 && self.reserve(1).is_err() {
            return Err(InsertRefusal::NoMemory(value));
        }
        Ok(self.insert_reserved(value))
    }

    /// Takes a value in under the next serial, in room that there is. It can't be refused.
    pub fn insert_reserved(&mut self, value: T) -> Item
        requires spare { 0 < self.old.spare }
        requires made { self.old.made < MOST_SERIALS }
        ensures { Inserts self.old self.new result value }
    {
        let slot = self.first;
        let serial = self.made + 1;
        let next = occupy(&mut self.cells, slot, serial, value);
        self.table.insert(slot);
        self.first = next;
        self.free -= 1;
        self.live += 1;
        self.made = serial;
        Item { slot, serial }
    }

    /// The value of an item.
    ///
    /// # Errors
    ///
    /// `Dead` where the serial is from 1 to the number made and isn't live, and `Unknown` where it
    /// is 0 or above.
    #[inline]
    pub fn get(&self, it: Item) -> Result<&T, Gone>
        ensures { MatchResult result (λ v. Holds self.now it.serial v.now)
            (λ why. Lacks self.now it.serial why) }
    {
        match look(&self.cells, &self.table, self.free + self.live, it) {
            Some(cell) => match cell.value.as_ref() {
                Some(value) => Ok(value),
                None => unreachable!(),
            },
            None => Err(why_gone(self.made, it.serial)),
        }
    }

    /// The value of an item, to be written to.
    ///
    /// # Errors
    ///
    /// As those of `get`.
    #[inline]
    pub fn get_mut(&mut self, it: Item) -> Result<&mut T, Gone>
        ensures* writes_back { sem 𝓛 (lends_value T.row self.entry it.serial result) }
        ensures value { MatchResult result (λ v. Holds self.old it.serial v.now)
            (λ why. Lacks self.old it.serial why) }
    {
        match find(&self.cells, &self.table, self.free + self.live, it) {
            Some(slot) => {
                let cell = self.cells.get_mut(slot);
                match cell.value.as_mut() {
                    Some(value) => Ok(value),
                    None => unreachable!(),
                }
            }
            None => Err(why_gone(self.made, it.serial)),
        }
    }

    /// Takes a value out. No value is ever given its serial again.
    ///
    /// # Errors
    ///
    /// As those of `get`. The pool is then as it was.
    pub fn remove(&mut self, it: Item) -> Result<T, Gone>
        ensures { MatchResult result (λ v. Removes self.old self.new it.serial v)
            (λ why. Lacks self.old it.serial why × (self.new ≡ self.old)) }
    {
        match find(&self.cells, &self.table, self.free + self.live, it) {
            Some(slot) => {
                let value = vacate(&mut self.cells, slot, self.free + 1, self.first);
                self.table.remove(it.serial);
                self.first = slot;
                self.free += 1;
                self.live -= 1;
                Ok(value)
            }
            None => Err(why_gone(self.made, it.serial)),
        }
    }

    /// The item of a live serial.
    ///
    /// # Errors
    ///
    /// As those of `get`.
    pub fn item(&self, serial: u32) -> Result<Item, Gone>
        ensures { MatchResult result (λ it. (it.serial ≡ serial) × HasLive self.now serial)
            (λ why. Lacks self.now serial why) }
    {
        match self.table.get(serial) {
            Some(slot) => Ok(Item { slot, serial }),
            None => Err(why_gone(self.made, serial)),
        }
    }

    /// How many values there are.
    #[inline]
    pub fn len(&self) -> u32
        ensures len { result ≡ map.len self.now.live }
        ensures few { result ≤ self.now.made }
        ensures within { IsWithin self.now }
    {
        self.live
    }

    /// How many serials were given, which is also the last one.
    #[inline]
    pub fn made(&self) -> u32
        ensures made { result ≡ self.now.made }
        ensures within { IsWithin self.now }
    {
        self.made
    }

    /// How many values can come in with no new memory.
    #[inline]
    pub fn spare(&self) -> u32
        ensures { result ≡ self.now.spare }
    {
        self.table.sure().min(self.free)
    }
}
