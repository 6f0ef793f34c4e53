//! An object: a container, whose items know their numbers, or an array or a map.
ghost use Rattle.std.specs.Prelude.{◌≡◌, [], None, true, length};
ghost use Rattle.object_store.specs.Inner.{kind_of, cells_in, inner, made_in, values_in};
ghost use Rattle.script_text.specs.declared.form.Kinds.TheVariants.{Container};
ghost use Rattle.object_store.specs.Views.{is_of};
ghost use Rattle.object_store.specs.Entrance.{HasIt, Leaves};

use crate::kind::ObjectKind;
use crate::values::Values;
use item_dict::Dict;
use item_list::List;
use item_pool::Item;
use item_queue::Queue;
use std::alloc::Global;

/// What an item holds: its number, and its value or its information.
#[derive(Clone, Copy, Debug, PartialEq, Eq)]
pub(crate) struct Entry {
    pub(crate) number: u32,
    pub(crate) value: i64,
}

/// An object.
#[derive(Drop)]
pub(crate) enum Object {
    List(List<Entry>),
    Dict(Dict<Entry>),
    Queue(Queue<Entry>),
    Values(Values),
}

impl Object {
    /// A container of the kind without items. It takes no memory.
    pub(crate) fn new(alloc: Global, kind: ObjectKind) -> Object
        requires { is_of Container kind ≡ true }
        ensures kind { kind_of result ≡ kind }
        ensures values { values_in result ≡ None }
        ensures empty { inner result ≡ [] }
        ensures start { made_in result ≡ 0 }
    {
        match kind {
            ObjectKind::List => Object::List(List::new(alloc)),
            ObjectKind::Dict => Object::Dict(Dict::new(alloc)),
            ObjectKind::Queue => Object::Queue(Queue::new(alloc)),
            ObjectKind::Array(_) | ObjectKind::Map(_) => unreachable!(),
        }
    }

    pub(crate) fn kind(&self) -> ObjectKind
        ensures { result ≡ kind_of self.now }
    {
        match self {
            Object::List(_) => ObjectKind::List,
            Object::Dict(_) => ObjectKind::Dict,
            Object::Queue(_) => ObjectKind::Queue,
            Object::Values(values) => values.kind(),
        }
    }

    /// Takes an item out.
    pub(crate) fn leave(&mut self, item: Item)
        requires { HasIt item.serial self.old }
        ensures { Leaves item.serial self.old self.new }
    {
        match self {
            Object::List(list) => match list.del_item(item) {
                Ok(_) => {}
                Err(_) => unreachable!(),
            },
            Object::Dict(dict) => match dict.del_item(item) {
                Ok(_) => {}
                Err(_) => unreachable!(),
            },
            Object::Queue(queue) => match queue.del_item(item) {
                Ok(_) => {}
                Err(_) => unreachable!(),
            },
            Object::Values(_) => unreachable!(),
        }
    }

    /// How many items there are.
    pub(crate) fn len(&self) -> u32
        ensures { result ≡ length (cells_in self.now) }
    {
        match self {
            Object::List(list) => list.len(),
            Object::Dict(dict) => dict.len(),
            Object::Queue(queue) => queue.len(),
            Object::Values(_) => 0,
        }
    }
}
