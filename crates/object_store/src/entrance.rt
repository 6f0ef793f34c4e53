//! How items come into containers.
ghost use Rattle.std.specs.Prelude.{◌≡◌, ◌+◌, ◌∷◌, ◌<◌, IfOk, IfErr, OnErr};
ghost use Rattle.item_pool.specs.declared.pool.TheConstants.{MOST_SERIALS};
ghost use Rattle.item_list.specs.Items.{Enters as ListEnters, Returns, ReturnsBeside};
ghost use Rattle.item_dict.specs.Contents.{IsAbsent, Adds as DictAdds};
ghost use Rattle.item_queue.specs.Contents.{IsAsBefore, Inserts as QueueInserts};
ghost use Rattle.object_store.specs.Inner.{made_in};
ghost use Rattle.object_store.specs.Entrance.{spotted, at_end, beside, values_of, IsThere, Fits, Enters, IsLike};

use crate::object::{Entry, Object};
use item_dict::Dict;
use item_list::{BesideRefusal, List};
use item_pool::{InsertRefusal, Item};
use item_queue::Queue;
use leda_base::NoMemory;

/// Where an item comes into its container.
#[derive(Clone, Copy, Debug, PartialEq, Eq)]
pub(crate) enum Entrance {
    /// At a spot of a list.
    At(Spot),
    /// Under a key that no item of a dictionary has.
    Key(i64),
    /// Into a queue, with a priority.
    Priority(i64),
}

/// Where an item comes into a list.
#[derive(Clone, Copy, Debug, PartialEq, Eq)]
pub(crate) enum Spot {
    /// Before all items.
    Front,
    /// Behind all items.
    Rear,
    /// Right before an item.
    Before(Item),
    /// Right behind an item.
    Behind(Item),
}

/// A side of an item of a list.
#[derive(Clone, Copy, Debug, PartialEq, Eq)]
pub enum Side {
    Before,
    Behind,
}

/// An end of a list.
#[derive(Clone, Copy, Debug, PartialEq, Eq)]
pub enum End {
    Front,
    Rear,
}

impl Side {
    /// The entrance on this side of an item.
    pub(crate) fn entrance(self, item: Item) -> Entrance
        ensures { result ≡ beside self item }
    {
        match self {
            Side::Before => Entrance::At(Spot::Before(item)),
            Side::Behind => Entrance::At(Spot::Behind(item)),
        }
    }
}

impl End {
    /// The entrance at this end.
    pub(crate) fn entrance(self) -> Entrance
        ensures { result ≡ at_end self }
    {
        match self {
            End::Front => Entrance::At(Spot::Front),
            End::Rear => Entrance::At(Spot::Rear),
        }
    }
}

impl Object {
    /// Takes an item in.
    pub(crate) fn enter(&mut self, entrance: Entrance, entry: Entry) -> Result<Item, NoMemory>
        requires fits { Fits entrance self.old }
        requires room { made_in self.old < MOST_SERIALS }
        ensures ok { IfOk result (λ it. Enters entrance self.old self.new it.serial
            (entry.number, values_of entrance entry.value)) }
        ensures err { OnErr result (IsLike self.old self.new) }
    {
        match self {
            Object::List(list) => match entrance {
                Entrance::At(spot) => enter_list(list, spot, entry),
                Entrance::Key(_) | Entrance::Priority(_) => unreachable!(),
            },
            Object::Dict(dict) => match entrance {
                Entrance::Key(key) => enter_dict(dict, key, entry),
                Entrance::At(_) | Entrance::Priority(_) => unreachable!(),
            },
            Object::Queue(queue) => match entrance {
                Entrance::Priority(priority) => enter_queue(queue, priority, entry),
                Entrance::At(_) | Entrance::Key(_) => unreachable!(),
            },
            Object::Values(_) => unreachable!(),
        }
    }
}

/// Takes a value into a list.
fn enter_list(list: &mut List<Entry>, spot: Spot, entry: Entry) -> Result<Item, NoMemory>
    requires there { IsThere spot list.old.pairs }
    requires room { list.old.made < MOST_SERIALS }
    ensures ok { IfOk result (λ it. ListEnters list.old list.new it
        (spotted spot (list.old.made + 1, entry) list.old.pairs)) }
    ensures err { OnErr result (list.new ≡ list.old) }
{
    match spot {
        Spot::Front => match list.push(entry) {
            Ok(item) => Ok(item),
            Err(InsertRefusal::NoMemory(_)) => Err(NoMemory),
            Err(InsertRefusal::Spent(_)) => unreachable!(),
        },
        Spot::Rear => match list.append(entry) {
            Ok(item) => Ok(item),
            Err(InsertRefusal::NoMemory(_)) => Err(NoMemory),
            Err(InsertRefusal::Spent(_)) => unreachable!(),
        },
        Spot::Before(at) => match list.insert_before(at, entry) {
            Ok(item) => Ok(item),
            Err(BesideRefusal::NoMemory(_)) => Err(NoMemory),
            Err(BesideRefusal::Spent(_) | BesideRefusal::Gone(..)) => unreachable!(),
        },
        Spot::Behind(at) => match list.insert_behind(at, entry) {
            Ok(item) => Ok(item),
            Err(BesideRefusal::NoMemory(_)) => Err(NoMemory),
            Err(BesideRefusal::Spent(_) | BesideRefusal::Gone(..)) => unreachable!(),
        },
    }
}

/// Takes an information into a dictionary, under a key that no item has.
fn enter_dict(dict: &mut Dict<Entry>, key: i64, entry: Entry) -> Result<Item, NoMemory>
    requires absent { IsAbsent dict.old key }
    requires room { dict.old.made < MOST_SERIALS }
    ensures ok { IfOk result (λ it. DictAdds dict.old dict.new key entry it.serial) }
    ensures err { OnErr result (dict.new ≡ dict.old) }
{
    match dict.insert(key, entry) {
        Ok(item) => Ok(item),
        Err(InsertRefusal::NoMemory(_)) => Err(NoMemory),
        Err(InsertRefusal::Spent(_)) => unreachable!(),
    }
}

/// Takes an information into a queue, with a priority.
fn enter_queue(queue: &mut Queue<Entry>, priority: i64, entry: Entry) -> Result<Item, NoMemory>
    requires room { queue.old.made < MOST_SERIALS }
    ensures ok { IfOk result (λ it. QueueInserts queue.old queue.new it priority entry) }
    ensures err { OnErr result (IsAsBefore queue.old queue.new) }
{
    match queue.insert(priority, entry) {
        Ok(item) => Ok(item),
        Err(InsertRefusal::NoMemory(_)) => Err(NoMemory),
        Err(InsertRefusal::Spent(_)) => unreachable!(),
    }
}
