//! Dense rows of values by number.
ghost use Rattle.std.specs.Prelude.{◌≡◌, ℕ, ◌<◌, ◌≢◌, length, MatchOption, None, Some, IfOk, OnOk, IsSome};
ghost use Rattle.std.specs.FinMap as map;
ghost use Rattle.node_maps.specs.PrivateRow.{number_at};

use graph_state::Item;
use leda_base::NoMemory;
use std::alloc::Global;
use std::marker::Model;

/// The value of the element with the number. No element has the number 0, which says that the entry
/// is vacant.
#[derive(Clone, Copy)]
pub struct Entry {
    pub number: u32,
    pub value: i64,
}

/// Values by number, in one row. A value lies where its element lies in the pool of the graph, by
/// the slot of its item, so that it is found at the first look. No answer depends on the slot:
/// where a place is taken by another number the value lies behind all others, and where the look
/// finds another number the row is searched.
#[derive(Drop)]
pub struct ValueRow {
    entries: Vec<Entry>,
}

impl Model for ValueRow {
    ghost use Rattle.std.specs.Prelude.{ℤ};
    ghost use Rattle.std.specs.Coded.{coded_ℕ, coded_ℤ};
    ghost use Rattle.std.specs.Ordering.{nat_cmp};
    ghost use Rattle.std.specs.FinMap as map;
    ghost use Rattle.node_maps.specs.PrivateRow.{values_of, AreApart};

    ghost Value = { map.FinMap nat_cmp ℤ };

    ghost coded = { map.code coded_ℕ coded_ℤ };

    ghost view = { λ row. values_of row.entries.items };

    ghost invariant = { λ row. AreApart row.entries.items };
}

/// Where the value of the item's number lies, if it has one.
#[inline]
fn place_of(entries: &[Entry], item: Item) -> Option<usize>
    ensures { MatchOption result
        ((k : ℕ) → k < length entries.now → number_at entries.now k ≢ item.serial)
        (λ place. (place < length entries.now) × (number_at entries.now place ≡ item.serial)) }
{
    let slot = item.slot as usize;
    if slot < entries.len() && entries[slot].number == item.serial {
        return Some(slot);
    }
    search(entries, item.serial)
}

/// The first place of the number.
fn search(entries: &[Entry], number: u32) -> Option<usize>
    ensures { MatchOption result
        ((k : ℕ) → k < length entries.now → number_at entries.now k ≢ number)
        (λ place. (place < length entries.now) × (number_at entries.now place ≡ number)) }
{
    for (place, entry) in entries.iter().enumerate() {
        if entry.number == number {
            return Some(place);
        }
    }
    None
}

impl ValueRow {
    /// A row of no values, with so many places.
    pub fn with_places(alloc: Global, count: usize) -> Result<ValueRow, NoMemory>
        ensures { IfOk result (λ row. row ≡ map.empty) }
    {
        let vacant = Entry {
            number: 0,
            value: 0,
        };
        Ok(ValueRow {
            entries: vec![in alloc; vacant; count]?,
        })
    }

    /// Takes in the value of a number that has none.
    pub fn insert(&mut self, item: Item, value: i64) -> Result<(), NoMemory>
        requires number { 0 < item.serial }
        requires fresh { map.get self.old item.serial ≡ None }
        ensures { OnOk result (self.new ≡ map.insert self.old item.serial value) }
    {
        let entry = Entry {
            number: item.serial,
            value,
        };
        let slot = item.slot as usize;
        if slot < self.entries.len() && self.entries[slot].number == 0 {
            self.entries[slot] = entry;
            return Ok(());
        }
        self.entries.push(entry)?;
        Ok(())
    }

    /// The value of the item's number.
    #[inline]
    pub fn get(&self, item: Item) -> Option<i64>
        requires { 0 < item.serial }
        ensures { result ≡ map.get self.now item.serial }
    {
        let entries = self.entries.as_slice();
        match place_of(entries, item) {
            Some(place) => Some(entries[place].value),
            None => None,
        }
    }

    /// Gives another value to a number that has one.
    #[inline]
    pub fn set(&mut self, item: Item, value: i64)
        requires number { 0 < item.serial }
        requires there { IsSome (map.get self.old item.serial) }
        ensures { self.new ≡ map.insert self.old item.serial value }
    {
        let Some(place) = place_of(self.entries.as_slice(), item) else {
            unreachable!()
        };
        self.entries[place].value = value;
    }
}
