//! The dictionary: a pool of entries, and a tree from keys to serials.
ghost use Rattle.std.specs.Prelude.{◌≡◌, ℕ, ℤ, Some, MatchOption, MatchResult};
ghost use Rattle.std.specs.FinMap as map;
ghost use Rattle.item_dict.specs.Contents.{contents, HasKey, HasInf, IsAbsent, Lacks, AreApart, IsWithin, Changes, Adds, Inserts, Refuses, Removes};
ghost use Rattle.item_dict.specs.Order.{IsLeast, IsGreatest, IsNextAfter, IsNextBefore, IsLastUpTo, IsFirstFrom};
ghost use Rattle.item_dict.specs.Index.{pair, IsNamed};

use item_pool::{Gone, InsertRefusal, Item, MOST_SERIALS, Pool};
use std::alloc::Global;
use std::collections::BTreeMap;
use std::marker::Model;
use std::mem;
use std::ops::Bound;

/// An entry of a dictionary.
#[derive(Drop)]
pub struct Entry<I> {
    /// The key, which no other entry of the dictionary has.
    pub key: i64,
    /// The information.
    pub inf: I,
}

/// A dictionary from `i64` keys, in the order of integers, to information of the type `I`.
#[derive(Drop)]
pub struct Dict<I> {
    pool: Pool<Entry<I>>,
    /// The serial of each key's entry.
    tree: BTreeMap<i64, u32>,
}

impl<I> Model for Dict<I> {
    ghost use Rattle.item_dict.specs.Contents.{Contents, contents_code};

    ghost Value = { Contents I };

    ghost coded = { contents_code I.code };

    ghost use Rattle.item_dict.specs.Index.{seen, IsDict};

    ghost view = { λ d. seen d };

    ghost invariant = { λ d. IsDict d };
}

/// The item of a live serial.
fn live_item<I>(pool: &Pool<Entry<I>>, serial: u32) -> Item
    requires { (k : ℤ) × (x : I) × (map.get pool.now.live serial ≡ Some (pair k x)) }
    ensures { result.serial ≡ serial }
{
    match pool.item(serial) {
        Ok(it) => it,
        Err(_) => unreachable!(),
    }
}

/// The serial of the least key above `k`.
fn next_above(tree: &BTreeMap<i64, u32>, k: i64) -> Option<u32>
    ensures { MatchOption result (IsLastUpTo (IsNamed tree.now) k) (λ s.
        (j : ℤ) × IsNextAfter (IsNamed tree.now) k s j) }
{
    match tree.range((Bound::Excluded(k), Bound::Unbounded)).next() {
        Some((_, serial)) => Some(*serial),
        None => None,
    }
}

/// The serial of the greatest key below `k`.
fn next_below(tree: &BTreeMap<i64, u32>, k: i64) -> Option<u32>
    ensures { MatchOption result (IsFirstFrom (IsNamed tree.now) k) (λ s.
        (j : ℤ) × IsNextBefore (IsNamed tree.now) k s j) }
{
    match tree
        .range((Bound::Unbounded, Bound::Excluded(k)))
        .next_back()
    {
        Some((_, serial)) => Some(*serial),
        None => None,
    }
}

impl<I: Drop> Dict<I> {
    /// A dictionary of no entries, which takes no memory.
    pub fn new(alloc: Global) -> Dict<I>
        ensures { result ≡ contents map.empty 0 }
    {
        Dict {
            pool: Pool::new(alloc),
            tree: BTreeMap::new(alloc),
        }
    }

    /// How many entries there are. No two keys have one item, and each item was made.
    pub fn len(&self) -> u32
        ensures len { result ≡ map.len self.now.triples }
        ensures apart { AreApart self.now }
        ensures within { IsWithin self.now }
    {
        self.pool.len()
    }

    /// The item of a key, and none exactly where the key is absent.
    pub fn lookup(&self, k: i64) -> Option<Item>
        ensures { MatchOption result (IsAbsent self.now k) (λ it. HasKey self.now it.serial k) }
    {
        match self.tree.get(&k) {
            Some(serial) => Some(live_item(&self.pool, *serial)),
            None => None,
        }
    }

    /// The key of an item.
    ///
    /// # Errors
    ///
    /// `Dead` where the serial is from 1 to the number made and isn't live, and `Unknown` where it
    /// is 0 or above.
    pub fn key(&self, it: Item) -> Result<i64, Gone>
        ensures { MatchResult result (λ k. HasKey self.now it.serial k)
            (λ why. Lacks self.now it.serial why) }
    {
        match self.pool.get(it) {
            Ok(entry) => Ok(entry.key),
            Err(why) => Err(why),
        }
    }

    /// The information of an item.
    ///
    /// # Errors
    ///
    /// As those of `key`.
    pub fn inf(&self, it: Item) -> Result<&I, Gone>
        ensures { MatchResult result (λ x. HasInf self.now it.serial x.now)
            (λ why. Lacks self.now it.serial why) }
    {
        match self.pool.get(it) {
            Ok(entry) => Ok(&entry.inf),
            Err(why) => Err(why),
        }
    }

    /// The item of the least key, and none exactly where there are no entries.
    pub fn min(&self) -> Option<Item>
        ensures { MatchOption result (self.now.triples ≡ map.empty) (λ it.
            (k : ℤ) × IsLeast (HasKey self.now) it.serial k) }
    {
        match self.tree.first_key_value() {
            Some((_, serial)) => Some(live_item(&self.pool, *serial)),
            None => None,
        }
    }

    /// The item of the greatest key, and none exactly where there are no entries.
    pub fn max(&self) -> Option<Item>
        ensures { MatchOption result (self.now.triples ≡ map.empty) (λ it.
            (k : ℤ) × IsGreatest (HasKey self.now) it.serial k) }
    {
        match self.tree.last_key_value() {
            Some((_, serial)) => Some(live_item(&self.pool, *serial)),
            None => None,
        }
    }

    /// Replaces the information of an item, and answers the old one.
    ///
    /// # Errors
    ///
    /// As those of `key`. All is then as it was.
    pub fn change_inf(&mut self, it: Item, i: I) -> Result<I, Gone>
        ensures { MatchResult result (λ old. (k : ℤ) × Changes self.old self.new it.serial k i old)
            (λ why. Lacks self.old it.serial why × (self.new ≡ self.old)) }
    {
        let entry = self.pool.get_mut(it)?;
        Ok(mem::replace(&mut entry.inf, i))
    }

    /// Takes in an entry of an absent key, under the next serial.
    fn add(&mut self, k: i64, i: I) -> Result<Item, InsertRefusal<I>>
        requires { IsAbsent self.old k }
        ensures { MatchResult result (λ it. Adds self.old self.new k i it.serial)
            (λ why. Refuses self.old self.new k i why) }
    {
        let made = self.pool.made();
        if made == MOST_SERIALS {
            return Err(InsertRefusal::Spent(i));
        }
        if self.pool.reserve(1).is_err() {
            return Err(InsertRefusal::NoMemory(i));
        }
        match self.tree.insert(k, made + 1) {
            Ok(_) => Ok(self.pool.insert_reserved(Entry { key: k, inf: i })),
            Err(_) => Err(InsertRefusal::NoMemory(i)),
        }
    }

    /// Inserts a key with its information. A key that is present keeps its item, has the new
    /// information from then on, takes no memory and is never refused.
    ///
    /// # Errors
    ///
    /// For an absent key alone: `Spent` exactly where 16,777,215 items were made, and `NoMemory`
    /// where there is no memory. The information comes back, and all is as it was.
    pub fn insert(&mut self, k: i64, i: I) -> Result<Item, InsertRefusal<I>>
        ensures { MatchResult result (λ it. Inserts self.old self.new k i it.serial)
            (λ why. Refuses self.old self.new k i why) }
    {
        match self.lookup(k) {
            Some(it) => match self.change_inf(it, i) {
                Ok(_old) => Ok(it),
                Err(_) => unreachable!(),
            },
            None => self.add(k, i),
        }
    }

    /// Removes the entry of a key, and answers its information, and none exactly where the key is
    /// absent. It takes no memory.
    pub fn del(&mut self, k: i64) -> Option<I>
        ensures { MatchOption result (IsAbsent self.old k × (self.new ≡ self.old)) (λ x.
            (s : ℕ) × Removes self.old self.new s k x) }
    {
        match self.tree.remove(&k) {
            Some(serial) => match self.pool.remove(Item { slot: 0, serial }) {
                Ok(Entry { key: _, inf }) => Some(inf),
                Err(_) => unreachable!(),
            },
            None => None,
        }
    }

    /// Removes the entry of an item, and answers its information. It takes no memory.
    ///
    /// # Errors
    ///
    /// As those of `key`. All is then as it was.
    pub fn del_item(&mut self, it: Item) -> Result<I, Gone>
        ensures { MatchResult result (λ x. (k : ℤ) × Removes self.old self.new it.serial k x)
            (λ why. Lacks self.old it.serial why × (self.new ≡ self.old)) }
    {
        match self.pool.remove(it) {
            Ok(Entry { key, inf }) => {
                let _serial = self.tree.remove(&key);
                Ok(inf)
            }
            Err(why) => Err(why),
        }
    }

    /// The item of the next greater key, and none exactly where there is none.
    ///
    /// # Errors
    ///
    /// As those of `key`.
    pub fn succ(&self, it: Item) -> Result<Option<Item>, Gone>
        ensures { MatchResult result
            (λ next.
            (k : ℤ)
            × HasKey self.now it.serial k
            × MatchOption next (IsLastUpTo (HasKey self.now) k) (λ n.
            (j : ℤ) × IsNextAfter (HasKey self.now) k n.serial j))
            (λ why. Lacks self.now it.serial why) }
    {
        match self.pool.get(it) {
            Ok(entry) => match next_above(&self.tree, entry.key) {
                Some(serial) => Ok(Some(live_item(&self.pool, serial))),
                None => Ok(None),
            },
            Err(why) => Err(why),
        }
    }

    /// The item of the next smaller key, and none exactly where there is none.
    ///
    /// # Errors
    ///
    /// As those of `key`.
    pub fn pred(&self, it: Item) -> Result<Option<Item>, Gone>
        ensures { MatchResult result
            (λ next.
            (k : ℤ)
            × HasKey self.now it.serial k
            × MatchOption next (IsFirstFrom (HasKey self.now) k) (λ n.
            (j : ℤ) × IsNextBefore (HasKey self.now) k n.serial j))
            (λ why. Lacks self.now it.serial why) }
    {
        match self.pool.get(it) {
            Ok(entry) => match next_below(&self.tree, entry.key) {
                Some(serial) => Ok(Some(live_item(&self.pool, serial))),
                None => Ok(None),
            },
            Err(why) => Err(why),
        }
    }
}
