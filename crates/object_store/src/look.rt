//! What is read of objects and of their items.
ghost use Rattle.std.specs.Prelude.{◌≡◌, ⊤, length};
ghost use Rattle.object_store.specs.declared.object.Object.TheVariants as held;
ghost use Rattle.object_store.specs.Inner.{cells_in};
ghost use Rattle.object_store.specs.Kept.{HasAt};
ghost use Rattle.object_store.specs.Look.{IsRead, CanRead};

use crate::object::{Entry, Object};
use crate::objects::Place;
use crate::part::Reading;
use crate::slots::Named;
use item_dict::Dict;
use item_pool::Item;
use item_queue::Queue;

impl Object {
    /// What is read of an item.
    pub(crate) fn read(&self, what: Reading, item: Item) -> i64
        requires { CanRead what item.serial self.now }
        ensures { IsRead what item.serial self.now result }
    {
        match self {
            Object::List(list) => match list.contents(item) {
                Ok(entry) => entry.value,
                Err(_) => unreachable!(),
            },
            Object::Dict(dict) => read_dict(dict, what, item),
            Object::Queue(queue) => read_queue(queue, what, item),
            Object::Values(_) => unreachable!(),
        }
    }
}

fn read_dict(dict: &Dict<Entry>, what: Reading, item: Item) -> i64
    requires { CanRead what item.serial (held.Dict dict.now) }
    ensures { IsRead what item.serial (held.Dict dict.now) result }
{
    match what {
        Reading::Information => match dict.inf(item) {
            Ok(entry) => entry.value,
            Err(_) => unreachable!(),
        },
        Reading::Contents | Reading::Key | Reading::Priority => match dict.key(item) {
            Ok(key) => key,
            Err(_) => unreachable!(),
        },
    }
}

fn read_queue(queue: &Queue<Entry>, what: Reading, item: Item) -> i64
    requires { CanRead what item.serial (held.Queue queue.now) }
    ensures { IsRead what item.serial (held.Queue queue.now) result }
{
    match what {
        Reading::Information => match queue.inf(item) {
            Ok(entry) => entry.value,
            Err(_) => unreachable!(),
        },
        Reading::Contents | Reading::Key | Reading::Priority => match queue.prio(item) {
            Ok(priority) => priority,
            Err(_) => unreachable!(),
        },
    }
}

/// What is read of the item at a place.
pub(crate) fn read_at(slots: &[Option<Named>], place: Place, what: Reading) -> i64
    requires { HasAt slots.now place.slot (CanRead what place.item.serial) }
    ensures { HasAt slots.now place.slot (λ o. IsRead what place.item.serial o result) }
{
    match &slots[place.slot] {
        Some(named) => named.object.read(what, place.item),
        None => unreachable!(),
    }
}

/// How many items the object at a place has.
pub(crate) fn len_at(slots: &[Option<Named>], slot: usize) -> u32
    requires { HasAt slots.now slot (λ o. ⊤) }
    ensures { HasAt slots.now slot (λ o. result ≡ length (cells_in o)) }
{
    match &slots[slot] {
        Some(named) => named.object.len(),
        None => unreachable!(),
    }
}
