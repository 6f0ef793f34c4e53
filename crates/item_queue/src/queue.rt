//! The queue.
ghost use Rattle.std.specs.Prelude.{◌≡◌, ℕ, ◌+◌, ◌<◌, ◌≤◌, ◌<ℤ◌, ◌≤ℤ◌, length, OnOk, OnErr, IfOk, IfErr, IsOk, MatchOption, MatchResult};
ghost use Rattle.std.specs.FinMap as map;
ghost use Rattle.item_queue.specs.Heap.{IsRated};
ghost use Rattle.item_queue.specs.Contents.{Queued, queued, Holds, Lacks, HoldsPriority, HoldsInformation, ChangesInformation, IsLeastItem, IsAsBefore, Inserts, Refuses, RemovesItem};

use crate::heap::Heap;
use crate::node::{Entry, Node, items_of, sorted};
use item_pool::{Gone, InsertRefusal, Item, MOST_SERIALS, Pool};
use leda_base::{NoMemory, Row};
use std::alloc::Global;
use std::marker::Model;
use std::mem;

/// Why a priority wasn't decreased.
#[derive(Clone, Copy, PartialEq, Eq, Debug)]
pub enum DecreaseRefusal {
    /// There is no such item.
    Gone(Gone),
    /// The new priority is above the present one, which is here.
    Larger(i64),
}

/// A queue of values by priority. Each item has a priority and an information.
///
/// A clause sees the priority and the information of each item by its serial, how many serials were
/// made, and how many items can come in before there has to be more memory. Of two items of one
/// priority the one of the lesser serial goes first.
#[derive(Drop)]
pub struct Queue<I> {
    heap: Heap,
    pool: Pool<Entry<I>>,
}

impl<I> Model for Queue<I> {
    ghost use Rattle.item_queue.specs.Contents.{Queued, queued_code};

    ghost Value = { Queued I };

    ghost coded = { queued_code I.code };

    ghost use Rattle.item_queue.specs.IsQueue.{seen, IsQueue};

    ghost view = { λ q. seen q };

    ghost invariant = { λ q. IsQueue q };
}

impl<I: Drop> Queue<I> {
    ghost use Rattle.item_queue.specs.Decreases.{Decreases, RefusesDecrease, RemovesLeast};
    ghost use Rattle.item_queue.specs.Listing.{serials_of, IsListing};

    /// An empty queue, which takes no memory.
    pub fn new(alloc: Global) -> Queue<I>
        ensures { result ≡ queued map.empty 0 0 }
    {
        Queue {
            heap: Heap::new(alloc),
            pool: Pool::new(alloc),
        }
    }

    /// Makes room for `n` items more, of which none is then refused. `n` is at most 16,777,215.
    ///
    /// # Errors
    ///
    /// `NoMemory` where there is no memory, which isn't so where there is room for `n` already. The
    /// items are as before, and there is no less room.
    pub fn reserve(&mut self, n: u32) -> Result<(), NoMemory>
        requires { n ≤ MOST_SERIALS }
        ensures kept { IsAsBefore self.old self.new }
        ensures ok { OnOk result (n ≤ self.new.spare) }
        ensures succeeds { n ≤ self.old.spare → IsOk result }
    {
        if self.heap.reserve(n).is_err() || self.pool.reserve(n).is_err() {
            return Err(NoMemory);
        }
        Ok(())
    }

    /// Takes a value in under the next serial, with the priority `p`, in room that there is. It
    /// can't be refused. The work is logarithmic in the number of items.
    pub fn insert_reserved(&mut self, p: i64, i: I) -> Item
        requires spare { 0 < self.old.spare }
        requires made { self.old.made < MOST_SERIALS }
        ensures { Inserts self.old self.new result p i }
    {
        let handle = self.heap.next_handle();
        let item = self.pool.insert_reserved(Entry {
            handle,
            priority: p,
            inf: i,
        });
        self.heap.insert(Node {
            priority: p,
            item,
            handle,
        });
        item
    }

    /// Takes a value in under the next serial, with the priority `p`. The work is logarithmic in
    /// the number of items.
    ///
    /// # Errors
    ///
    /// `Spent` exactly where 16,777,215 serials were made, and `NoMemory` where there is no memory,
    /// which isn't so where there is room to spare. The value comes back, and the others are as
    /// before.
    pub fn insert(&mut self, p: i64, i: I) -> Result<Item, InsertRefusal<I>>
        ensures ok { IfOk result (λ it. Inserts self.old self.new it p i) }
        ensures err { IfErr result (λ why. Refuses self.old self.new i why) }
    {
        if self.made() == MOST_SERIALS {
            return Err(InsertRefusal::Spent(i));
        }
        if self.spare() == 0 && self.reserve(1).is_err() {
            return Err(InsertRefusal::NoMemory(i));
        }
        Ok(self.insert_reserved(p, i))
    }

    /// The item of the least priority, and of these the one of the least serial. None exactly where
    /// there are no items.
    #[inline]
    pub fn find_min(&self) -> Option<Item>
        ensures { MatchOption result (self.now.live ≡ map.empty) (λ it.
            IsLeastItem self.now it.serial) }
    {
        if self.heap.len == 0 {
            return None;
        }
        Some(self.heap.nodes.as_slice()[0].item)
    }

    /// The priority of an item.
    ///
    /// # Errors
    ///
    /// `Dead` where the serial is from 1 to the number made and has no item, and `Unknown` where it
    /// is 0 or above.
    pub fn prio(&self, it: Item) -> Result<i64, Gone>
        ensures { MatchResult result (λ p. HoldsPriority self.now it.serial p)
            (λ why. Lacks self.now it.serial why) }
    {
        match self.pool.get(it) {
            Ok(entry) => Ok(entry.priority),
            Err(gone) => Err(gone),
        }
    }

    /// The information of an item.
    ///
    /// # Errors
    ///
    /// As those of `prio`.
    pub fn inf(&self, it: Item) -> Result<&I, Gone>
        ensures { MatchResult result (λ x. HoldsInformation self.now it.serial x.now)
            (λ why. Lacks self.now it.serial why) }
    {
        match self.pool.get(it) {
            Ok(entry) => Ok(&entry.inf),
            Err(gone) => Err(gone),
        }
    }

    /// Replaces the information of an item, and answers the old one. It takes no memory.
    ///
    /// # Errors
    ///
    /// As those of `prio`. The queue is then as it was, and `i` is dropped.
    pub fn change_inf(&mut self, it: Item, i: I) -> Result<I, Gone>
        ensures { MatchResult result (λ old. ChangesInformation self.old self.new it.serial old i)
            (λ why. Lacks self.old it.serial why × (self.new ≡ self.old)) }
    {
        let entry = self.pool.get_mut(it)?;
        Ok(mem::replace(&mut entry.inf, i))
    }

    /// Gives an item a priority that is at most its own. The work is logarithmic in the number of
    /// items.
    ///
    /// # Errors
    ///
    /// `Gone` as the errors of `prio`, and `Larger` with the present priority exactly where `p` is
    /// above it. The queue is then as it was.
    pub fn decrease_p(&mut self, it: Item, p: i64) -> Result<(), DecreaseRefusal>
        ensures { MatchResult result (λ _. Decreases self.old self.new it.serial p)
            (λ why. RefusesDecrease self.old it.serial p why × (self.new ≡ self.old)) }
    {
        let (handle, priority) = match self.pool.get(it) {
            Ok(entry) => (entry.handle, entry.priority),
            Err(gone) => return Err(DecreaseRefusal::Gone(gone)),
        };
        if priority < p {
            return Err(DecreaseRefusal::Larger(priority));
        }
        let place = self.heap.place_of(handle);
        self.heap.lower(place, p);
        rate(&mut self.pool, it, p);
        Ok(())
    }

    /// Takes the item out that `find_min` gives, and answers its priority and its information. The
    /// work is logarithmic in the number of items. None exactly where there are no items.
    pub fn del_min(&mut self) -> Option<(i64, I)>
        ensures { MatchOption result ((self.old.live ≡ map.empty) × (self.new ≡ self.old)) (λ r.
            RemovesLeast self.old self.new r.0 r.1) }
    {
        if self.heap.len == 0 {
            return None;
        }
        let node = self.heap.take_at(0);
        match self.pool.remove(node.item) {
            Ok(
                Entry {
                    handle: _,
                    priority,
                    inf,
                },
            ) => Some((priority, inf)),
            Err(_) => unreachable!(),
        }
    }

    /// Takes an item out, and answers its information. The work is logarithmic in the number of
    /// items.
    ///
    /// # Errors
    ///
    /// As those of `prio`. The queue is then as it was.
    pub fn del_item(&mut self, it: Item) -> Result<I, Gone>
        ensures { MatchResult result (λ x. RemovesItem self.old self.new it.serial x)
            (λ why. Lacks self.old it.serial why × (self.new ≡ self.old)) }
    {
        let Entry {
            handle,
            priority: _,
            inf,
        } = self.pool.remove(it)?;
        let place = self.heap.place_of(handle);
        let _node = self.heap.take_at(place);
        Ok(inf)
    }

    /// The items in the order in which `del_min` would take them out. The work is that of a sort.
    ///
    /// # Errors
    ///
    /// `NoMemory` where there is no memory for the row.
    pub fn items(&self, alloc: Global) -> Result<Row<Item>, NoMemory>
        ensures { IfOk result (λ row. IsListing self.now (serials_of row)) }
    {
        let nodes = sorted(self.heap.live(), alloc)?;
        let items = items_of(nodes.as_slice(), alloc)?;
        Ok(Row::from_vec(items))
    }

    /// How many items there are.
    #[inline]
    pub fn len(&self) -> u32
        ensures { result ≡ map.len self.now.live }
    {
        self.pool.len()
    }

    /// How many serials were given, which is also the last one.
    #[inline]
    pub fn made(&self) -> u32
        ensures made { result ≡ self.now.made }
        ensures most { result ≤ MOST_SERIALS }
    {
        self.pool.made()
    }

    /// How many items can come in with no new memory.
    #[inline]
    pub fn spare(&self) -> u32
        ensures { result ≡ self.now.spare }
    {
        let nodes = self.heap.room();
        let values = self.pool.spare();
        if nodes < values as usize {
            nodes as u32
        } else {
            values
        }
    }
}

/// Writes a priority into an entry.
fn rate<I>(pool: &mut Pool<Entry<I>>, item: Item, priority: i64)
    ensures { IsRated pool.old pool.new item.serial priority }
{
    if let Ok(entry) = pool.get_mut(item) {
        entry.priority = priority;
    }
}
