//! How containers change that keep their items.
ghost use Rattle.object_store.specs.declared.change.Change.TheVariants as changes;
ghost use Rattle.object_store.specs.declared.object.Object.TheVariants as held;
ghost use Rattle.object_store.specs.Change.{Allows, IsChanged};

use crate::entrance::End;
use crate::object::{Entry, Object};
use item_dict::Dict;
use item_list::List;
use item_pool::Item;
use item_queue::Queue;

/// What changes in a container that keeps its items.
#[derive(Clone, Copy, Debug, PartialEq, Eq)]
pub(crate) enum Change {
    /// An item of a list has another value, or an item of another container another information.
    Write(Item, Entry),
    /// An item of a list stands at an end.
    Move(Item, End),
    /// A list is turned round.
    Turn,
    /// An item of a queue has a priority that isn't above its own.
    Lower(Item, i64),
}

impl Object {
    /// Changes, and keeps the items.
    pub(crate) fn change(&mut self, change: Change)
        requires { Allows change self.old }
        ensures { IsChanged change self.old self.new }
    {
        match self {
            Object::List(list) => change_list(list, change),
            Object::Dict(dict) => change_dict(dict, change),
            Object::Queue(queue) => change_queue(queue, change),
            Object::Values(_) => unreachable!(),
        }
    }
}

fn change_list(list: &mut List<Entry>, change: Change)
    requires { Allows change (held.List list.old) }
    ensures { IsChanged change (held.List list.old) (held.List list.new) }
{
    match change {
        Change::Write(item, entry) => match list.assign(item, entry) {
            Ok(_) => {}
            Err(_) => unreachable!(),
        },
        Change::Move(item, end) => move_item(list, item, end),
        Change::Turn => list.reverse_items(),
        Change::Lower(..) => unreachable!(),
    }
}

fn move_item(list: &mut List<Entry>, item: Item, end: End)
    requires { Allows (changes.Move item end) (held.List list.old) }
    ensures { IsChanged (changes.Move item end) (held.List list.old) (held.List list.new) }
{
    match end {
        End::Front => match list.move_to_front(item) {
            Ok(()) => {}
            Err(_) => unreachable!(),
        },
        End::Rear => match list.move_to_rear(item) {
            Ok(()) => {}
            Err(_) => unreachable!(),
        },
    }
}

fn change_dict(dict: &mut Dict<Entry>, change: Change)
    requires { Allows change (held.Dict dict.old) }
    ensures { IsChanged change (held.Dict dict.old) (held.Dict dict.new) }
{
    match change {
        Change::Write(item, entry) => match dict.change_inf(item, entry) {
            Ok(_) => {}
            Err(_) => unreachable!(),
        },
        Change::Move(..) | Change::Turn | Change::Lower(..) => unreachable!(),
    }
}

fn change_queue(queue: &mut Queue<Entry>, change: Change)
    requires { Allows change (held.Queue queue.old) }
    ensures { IsChanged change (held.Queue queue.old) (held.Queue queue.new) }
{
    match change {
        Change::Write(item, entry) => match queue.change_inf(item, entry) {
            Ok(_) => {}
            Err(_) => unreachable!(),
        },
        Change::Lower(item, priority) => match queue.decrease_p(item, priority) {
            Ok(()) => {}
            Err(_) => unreachable!(),
        },
        Change::Move(..) | Change::Turn => unreachable!(),
    }
}
