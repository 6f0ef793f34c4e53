//! The list: a chain, and the direction in which it is read.
ghost use Rattle.std.specs.Prelude.{◌≡◌, ◌+◌, List, [], ◌∷◌, ◌++◌, length, reverse, IfOk, IfErr, MatchResult};
ghost use Rattle.item_ring.specs.RingLists.{front, back};
ghost use Rattle.item_list.specs.Items.{items, serials, serial_of, pairs_before, pairs_behind, Holds, HasItem, Lacks, AreItems, Enters, Returns, ReturnsBeside, Removes, Assigns, MovesToFront, MovesToRear, IsBehind, IsBefore, IsCyclicBehind, IsCyclicBefore};
ghost use Rattle.item_list.specs.Sides.{with_at, end_of, pairs_beside, MovesTo, IsBeside, IsCyclicBeside};

use crate::chain::Chain;
use crate::node::BesideRefusal;
use crate::side::Side;
use item_pool::{Gone, InsertRefusal, Item};
use std::alloc::Global;
use std::marker::Model;

/// A list of values. Each has an item, by which it is found in constant time wherever it stands.
///
/// A clause sees the values in their order, each with its serial, and how many serials were made.
#[derive(Drop)]
pub struct List<E> {
    chain: Chain<E>,
    /// Whether the chain is read from the rear to the front.
    is_turned: bool,
}

impl<E> Model for List<E> {
    ghost use Rattle.item_list.specs.Items.{Items, items_code};

    ghost Value = { Items E };

    ghost coded = { items_code E.code };

    ghost use Rattle.item_list.specs.Reads.{list_of};

    ghost view = { λ a. list_of a };
}

impl<E: Drop> List<E> {
    /// A list of no values, which takes no memory.
    pub fn new(alloc: Global) -> List<E>
        ensures { result ≡ items [] 0 }
    {
        List {
            chain: Chain::new(alloc),
            is_turned: false,
        }
    }

    /// Puts a value at the front.
    ///
    /// # Errors
    ///
    /// `Spent` exactly where 16,777,215 items were made, and `NoMemory` where there is no memory.
    /// The value comes back, and the list is as before.
    pub fn push(&mut self, v: E) -> Result<Item, InsertRefusal<E>>
        ensures ok { IfOk result (λ it.
            Enters self.old self.new it ((self.old.made + 1, v) ∷ self.old.pairs)) }
        ensures err { IfErr result (λ why. Returns self.old v why × (self.new ≡ self.old)) }
    {
        self.put(Side::Front, v)
    }

    /// Puts a value at the rear.
    ///
    /// # Errors
    ///
    /// As those of `push`.
    pub fn append(&mut self, v: E) -> Result<Item, InsertRefusal<E>>
        ensures ok { IfOk result (λ it.
            Enters self.old self.new it (self.old.pairs ++ (self.old.made + 1, v) ∷ [])) }
        ensures err { IfErr result (λ why. Returns self.old v why × (self.new ≡ self.old)) }
    {
        self.put(Side::Rear, v)
    }

    /// Puts a value right before an item.
    ///
    /// # Errors
    ///
    /// `Gone` where the item isn't in the list, as of `del_item`. Else `Spent` exactly where
    /// 16,777,215 items were made, and `NoMemory` where there is no memory. The value comes back,
    /// and the list is as before.
    pub fn insert_before(&mut self, at: Item, v: E) -> Result<Item, BesideRefusal<E>>
        ensures ok { IfOk result (λ it.
            HasItem self.old at.serial
            × Enters self.old self.new it
            (pairs_before at.serial (self.old.made + 1, v) self.old.pairs)) }
        ensures err { IfErr result (λ why.
            ReturnsBeside self.old at.serial v why × (self.new ≡ self.old)) }
    {
        self.put_beside(Side::Front, at, v)
    }

    /// Puts a value right behind an item.
    ///
    /// # Errors
    ///
    /// As those of `insert_before`.
    pub fn insert_behind(&mut self, at: Item, v: E) -> Result<Item, BesideRefusal<E>>
        ensures ok { IfOk result (λ it.
            HasItem self.old at.serial
            × Enters self.old self.new it
            (pairs_behind at.serial (self.old.made + 1, v) self.old.pairs)) }
        ensures err { IfErr result (λ why.
            ReturnsBeside self.old at.serial v why × (self.new ≡ self.old)) }
    {
        self.put_beside(Side::Rear, at, v)
    }

    /// Takes a value out. Its serial isn't given again.
    ///
    /// # Errors
    ///
    /// `Dead` where the serial is from 1 to the number made and isn't in the list, and `Unknown`
    /// where it is 0 or above. The list is then as it was.
    pub fn del_item(&mut self, it: Item) -> Result<E, Gone>
        ensures { MatchResult result (λ v. Removes self.old self.new it.serial v)
            (λ why. Lacks self.old it.serial why × (self.new ≡ self.old)) }
    {
        self.chain.del_item(it)
    }

    /// The value of an item.
    ///
    /// # Errors
    ///
    /// As those of `del_item`.
    pub fn contents(&self, it: Item) -> Result<&E, Gone>
        ensures { MatchResult result (λ v. Holds self.now it.serial v.now)
            (λ why. Lacks self.now it.serial why) }
    {
        self.chain.contents(it)
    }

    /// Gives an item another value. The old one comes back.
    ///
    /// # Errors
    ///
    /// As those of `del_item`.
    pub fn assign(&mut self, it: Item, v: E) -> Result<E, Gone>
        ensures { MatchResult result (λ old. Assigns self.old self.new it.serial old v)
            (λ why. Lacks self.old it.serial why × (self.new ≡ self.old)) }
    {
        self.chain.assign(it, v)
    }

    /// The first item, and none exactly where the list is empty.
    pub fn first(&self) -> Option<Item>
        ensures { serial_of result ≡ front (serials self.now.pairs) }
    {
        self.end_item(Side::Front)
    }

    /// The last item, and none exactly where the list is empty.
    pub fn last(&self) -> Option<Item>
        ensures { serial_of result ≡ back (serials self.now.pairs) }
    {
        self.end_item(Side::Rear)
    }

    /// The item behind, and none exactly where the item is the last.
    ///
    /// # Errors
    ///
    /// As those of `del_item`.
    pub fn succ(&self, it: Item) -> Result<Option<Item>, Gone>
        ensures { MatchResult result (λ r. IsBehind self.now it.serial r)
            (λ why. Lacks self.now it.serial why) }
    {
        self.item_beside(Side::Rear, it)
    }

    /// The item before, and none exactly where the item is the first.
    ///
    /// # Errors
    ///
    /// As those of `del_item`.
    pub fn pred(&self, it: Item) -> Result<Option<Item>, Gone>
        ensures { MatchResult result (λ r. IsBefore self.now it.serial r)
            (λ why. Lacks self.now it.serial why) }
    {
        self.item_beside(Side::Front, it)
    }

    /// The item behind, and the first behind the last.
    ///
    /// # Errors
    ///
    /// As those of `del_item`.
    pub fn cyclic_succ(&self, it: Item) -> Result<Item, Gone>
        ensures { MatchResult result (λ r. IsCyclicBehind self.now it.serial r)
            (λ why. Lacks self.now it.serial why) }
    {
        self.item_round(Side::Rear, it)
    }

    /// The item before, and the last before the first.
    ///
    /// # Errors
    ///
    /// As those of `del_item`.
    pub fn cyclic_pred(&self, it: Item) -> Result<Item, Gone>
        ensures { MatchResult result (λ r. IsCyclicBefore self.now it.serial r)
            (λ why. Lacks self.now it.serial why) }
    {
        self.item_round(Side::Front, it)
    }

    /// Moves an item before all others.
    ///
    /// # Errors
    ///
    /// As those of `del_item`.
    pub fn move_to_front(&mut self, it: Item) -> Result<(), Gone>
        ensures { MatchResult result (λ _. MovesToFront self.old self.new it.serial)
            (λ why. Lacks self.old it.serial why × (self.new ≡ self.old)) }
    {
        self.move_to(Side::Front, it)
    }

    /// Moves an item behind all others.
    ///
    /// # Errors
    ///
    /// As those of `del_item`.
    pub fn move_to_rear(&mut self, it: Item) -> Result<(), Gone>
        ensures { MatchResult result (λ _. MovesToRear self.old self.new it.serial)
            (λ why. Lacks self.old it.serial why × (self.new ≡ self.old)) }
    {
        self.move_to(Side::Rear, it)
    }

    /// Turns the order round. Each item keeps its value.
    ///
    /// It takes constant time, as every other call does.
    pub fn reverse_items(&mut self)
        ensures { self.new ≡ items (reverse self.old.pairs) self.old.made }
    {
        self.is_turned = !self.is_turned;
    }

    /// How many values there are.
    pub fn len(&self) -> u32
        ensures len { result ≡ length self.now.pairs }
        ensures whole { AreItems self.now }
    {
        self.chain.len()
    }
}

/// A call towards either side is one towards a side of the chain.
impl<E: Drop> List<E> {
    fn put(&mut self, side: Side, v: E) -> Result<Item, InsertRefusal<E>>
        ensures ok { IfOk result (λ it.
            Enters self.old self.new it (with_at side (self.old.made + 1, v) self.old.pairs)) }
        ensures err { IfErr result (λ why. Returns self.old v why × (self.new ≡ self.old)) }
    {
        self.chain.put(side.of_chain(self.is_turned), v)
    }

    fn put_beside(&mut self, side: Side, at: Item, v: E) -> Result<Item, BesideRefusal<E>>
        ensures ok { IfOk result (λ it.
            HasItem self.old at.serial
            × Enters self.old self.new it
            (pairs_beside side at.serial (self.old.made + 1, v) self.old.pairs)) }
        ensures err { IfErr result (λ why.
            ReturnsBeside self.old at.serial v why × (self.new ≡ self.old)) }
    {
        self.chain.put_beside(side.of_chain(self.is_turned), at, v)
    }

    fn end_item(&self, side: Side) -> Option<Item>
        ensures { serial_of result ≡ end_of side (serials self.now.pairs) }
    {
        self.chain.end_item(side.of_chain(self.is_turned))
    }

    fn item_beside(&self, side: Side, it: Item) -> Result<Option<Item>, Gone>
        ensures { MatchResult result (IsBeside side self.now it.serial) (Lacks self.now it.serial) }
    {
        self.chain.item_beside(side.of_chain(self.is_turned), it)
    }

    fn item_round(&self, side: Side, it: Item) -> Result<Item, Gone>
        ensures { MatchResult result (IsCyclicBeside side self.now it.serial)
            (Lacks self.now it.serial) }
    {
        self.chain.item_round(side.of_chain(self.is_turned), it)
    }

    fn move_to(&mut self, side: Side, it: Item) -> Result<(), Gone>
        ensures { MatchResult result (λ _. MovesTo side self.old self.new it.serial)
            (λ why. Lacks self.old it.serial why × (self.new ≡ self.old)) }
    {
        self.chain.move_to(side.of_chain(self.is_turned), it)
    }
}
