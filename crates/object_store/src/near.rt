//! Which items stand at the ends of containers, and beside other items.
ghost use Rattle.std.specs.Prelude.{◌≡◌, Some, None, MatchResult, option_and_then};
ghost use Rattle.item_ring.specs.RingLists.{IsDistinct};
ghost use Rattle.item_list.specs.Items.{serials, serial_of};
ghost use Rattle.object_store.specs.declared.object.Object.TheVariants as held;
ghost use Rattle.object_store.specs.Inner.{inner};
ghost use Rattle.object_store.specs.Kept.{HasAt};
ghost use Rattle.object_store.specs.Near.{near_sought, near_of, number_at, CanFind, IsItem, IsKeyed, IsNumber};

use crate::object::{Entry, Object};
use crate::slots::Named;
use item_dict::Dict;
use item_list::List;
use item_pool::{Gone, Item};

/// An item that is sought in an object of a name.
#[derive(Clone, Copy, Debug, PartialEq, Eq)]
pub enum Sought {
    /// The first item of a list, or that of the least key of a dictionary.
    First,
    /// The last item of a list, or that of the greatest key of a dictionary.
    Last,
    /// The item of a key of a dictionary.
    WithKey(i64),
    /// The item of a queue that goes first.
    Least,
}

/// A neighbour of an item.
#[derive(Clone, Copy, Debug, PartialEq, Eq)]
pub enum Neighbour {
    /// The item right behind.
    Succ,
    /// The item right before.
    Pred,
    /// The item right behind, where the first stands behind the last.
    CyclicSucc,
    /// The item right before, where the last stands before the first.
    CyclicPred,
}

/// An item by where it stands.
#[derive(Clone, Copy, Debug, PartialEq, Eq)]
pub(crate) enum Near {
    First,
    Last,
    WithKey(i64),
    Least,
    Behind(Item),
    Before(Item),
    RoundBehind(Item),
    RoundBefore(Item),
}

impl Neighbour {
    /// This neighbour of an item.
    pub(crate) fn of(self, item: Item) -> Near
        ensures { result ≡ near_of self item }
    {
        match self {
            Neighbour::Succ => Near::Behind(item),
            Neighbour::Pred => Near::Before(item),
            Neighbour::CyclicSucc => Near::RoundBehind(item),
            Neighbour::CyclicPred => Near::RoundBefore(item),
        }
    }
}

impl Sought {
    /// Where the item stands.
    pub(crate) fn near(self) -> Near
        ensures { result ≡ near_sought self }
    {
        match self {
            Sought::First => Near::First,
            Sought::Last => Near::Last,
            Sought::WithKey(key) => Near::WithKey(key),
            Sought::Least => Near::Least,
        }
    }
}

impl Object {
    /// The number of the item that stands there, if there is one.
    pub(crate) fn number(&self, near: Near) -> Option<u32>
        requires { CanFind near self.now }
        ensures { IsNumber near self.now result }
    {
        match self {
            Object::List(list) => self.number_of(item_in(list, near)),
            Object::Dict(dict) => self.number_of(item_by_key(dict, near)),
            Object::Queue(queue) => self.number_of(queue.find_min()),
            Object::Values(_) => None,
        }
    }

    /// The number of an item that may be none.
    fn number_of(&self, item: Option<Item>) -> Option<u32>
        requires { IsDistinct (serials (inner self.now)) }
        ensures { result ≡ option_and_then (number_at (inner self.now)) (serial_of item) }
    {
        match item {
            Some(item) => match self.entry(item) {
                Ok(entry) => Some(entry.number),
                Err(_) => None,
            },
            None => None,
        }
    }

    /// The entry of an item.
    fn entry(&self, item: Item) -> Result<&Entry, Gone>
        requires { IsDistinct (serials (inner self.now)) }
        ensures { MatchResult result
            (λ entry. number_at (inner self.now) item.serial ≡ Some entry.now.number)
            (λ why. number_at (inner self.now) item.serial ≡ None) }
    {
        match self {
            Object::List(list) => list.contents(item),
            Object::Dict(dict) => dict.inf(item),
            Object::Queue(queue) => queue.inf(item),
            Object::Values(_) => Err(Gone::Unknown),
        }
    }
}

/// The item of a list that stands there, if there is one.
fn item_in(list: &List<Entry>, near: Near) -> Option<Item>
    requires { CanFind near (held.List list.now) }
    ensures { IsItem near list.now result }
{
    match near {
        Near::First => list.first(),
        Near::Last => list.last(),
        Near::Behind(item) => match list.succ(item) {
            Ok(near) => near,
            Err(_) => unreachable!(),
        },
        Near::Before(item) => match list.pred(item) {
            Ok(near) => near,
            Err(_) => unreachable!(),
        },
        Near::RoundBehind(item) => match list.cyclic_succ(item) {
            Ok(near) => Some(near),
            Err(_) => unreachable!(),
        },
        Near::RoundBefore(item) => match list.cyclic_pred(item) {
            Ok(near) => Some(near),
            Err(_) => unreachable!(),
        },
        Near::WithKey(_) | Near::Least => unreachable!(),
    }
}

/// The item of a dictionary that stands there in the order of the keys, if there is one.
fn item_by_key(dict: &Dict<Entry>, near: Near) -> Option<Item>
    requires { CanFind near (held.Dict dict.now) }
    ensures { IsKeyed near dict.now result }
{
    match near {
        Near::First => dict.min(),
        Near::Last => dict.max(),
        Near::WithKey(key) => dict.lookup(key),
        Near::Behind(item) => match dict.succ(item) {
            Ok(near) => near,
            Err(_) => unreachable!(),
        },
        Near::Before(item) => match dict.pred(item) {
            Ok(near) => near,
            Err(_) => unreachable!(),
        },
        Near::RoundBehind(_) | Near::RoundBefore(_) | Near::Least => unreachable!(),
    }
}

/// The number of the item that stands there in the object at a place, if there is one.
pub(crate) fn number_at_place(slots: &[Option<Named>], slot: usize, near: Near) -> Option<u32>
    requires { HasAt slots.now slot (CanFind near) }
    ensures { HasAt slots.now slot (λ o. IsNumber near o result) }
{
    match &slots[slot] {
        Some(named) => named.object.number(near),
        None => unreachable!(),
    }
}
