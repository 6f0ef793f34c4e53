//! Commands on arrays and maps.
ghost use Rattle.std.specs.Prelude.{◌≡◌, ◌⊎◌, Some, true, [], ◌∷◌, IfOk, IfErr, OnOk, OnErr};
ghost use Rattle.script_text.specs.declared.word.ValueWord.TheVariants as words;
ghost use Rattle.script_text.specs.declared.word.Word.TheVariants as commands;
ghost use Rattle.script_text.specs.Table.{forms_of, may_lack_memory, IsWhole};
ghost use Rattle.reply_text.specs.Outcome.{LacksMemory};
ghost use Rattle.reply_text.specs.Text.{IsNamed, IsShort};
ghost use Rattle.object_store.specs.declared.object.Object.TheVariants as held;
ghost use Rattle.object_store.specs.Elements.{IsElement, Names, IsLiveElement, element_sort, element_number, element_kinds};
ghost use Rattle.object_store.specs.Inner.{seen};
ghost use Rattle.object_store.specs.Kept.{HasAt, Replaces, state_of, IsKept};
ghost use Rattle.object_store.specs.Making.{MakesValues, MakesArray, IsLabelRefused};
ghost use Rattle.object_store.specs.Met.{AreMet};
ghost use Rattle.object_store.specs.Served.{AllServe, AreLive, Serves};
ghost use Rattle.object_store.specs.Serving.{CanTell, Tells, IsGiven, Untold};
ghost use Rattle.object_store.specs.Values.{ValuesDone, IsNew, IsOfLabels, gets, sets};
ghost use Rattle.object_store.specs.Views.{has_object as has};

use crate::object::Object;
use crate::objects::{Objects, Place};
use crate::slots::{Named, slot_of};
use crate::values::{GraphElement, SetRefusal, SortValues, Values};
use graph_core::Graph;
use item_pool::Pool;
use leda_base::NoMemory;
use node_maps::{EdgeArray, EdgeMap, LabelRefusal, NodeArray, NodeMap};
use reply_text::{Refusal, Reply, ReplyLine};
use script_text::{Arg, ValueWord};
use std::alloc::Global;

impl Objects {
    /// A command on arrays and maps that nothing stands in the way of: it does what its row says,
    /// or is answered by want of memory, where it may be, and all is then as it was.
    ///
    /// Each array that there is has to serve the graph, as it does the graph that it was made of
    /// and each later state of that one; those that come in do.
    pub fn apply_table(&mut self, g: &Graph, word: ValueWord, args: &[Arg]) -> Reply
        requires whole { IsWhole (record { word = commands.Value word; args = args.now }) }
        requires met { AreMet self.old (forms_of (commands.Value word)) args.now }
        requires live { AreLive g.now args.now }
        requires serve { AllServe g.now self.old }
        ensures does { LacksMemory (may_lack_memory (commands.Value word)) self.old result self.new
            ⊎ ValuesDone word args.now g.now self.old result self.new }
        ensures serve { AllServe g.now self.new }
        ensures named { IsNamed result }
        ensures short { IsShort result }
    {
        match word {
            ValueWord::Get => self.get_by(g, args),
            ValueWord::Set => self.set_by(g, args),
            ValueWord::MakeNodeArray
            | ValueWord::MakeEdgeArray
            | ValueWord::MakeNodeMap
            | ValueWord::MakeEdgeMap => self.make_by(g, word, args),
        }
    }

    /// A command that makes an array or a map.
    fn make_by(&mut self, g: &Graph, word: ValueWord, args: &[Arg]) -> Reply
        requires whole { IsWhole (record { word = commands.Value word; args = args.now }) }
        requires met { AreMet self.old (forms_of (commands.Value word)) args.now }
        requires makes { MakesValues word }
        requires serve { AllServe g.now self.old }
        ensures does { LacksMemory true self.old result self.new
            ⊎ ValuesDone word args.now g.now self.old result self.new }
        ensures serve { AllServe g.now self.new }
        ensures named { IsNamed result }
        ensures short { IsShort result }
    {
        match args {
            [Arg::Name(name), Arg::Num(value)] => match made_with(self.alloc, g, word, *value) {
                Ok(values) => self.come_in(name.as_slice(), Object::Values(values)),
                Err(NoMemory) => Reply::Refused(Refusal::Memory),
            },
            [Arg::Name(name), Arg::Labels] => match made_of_labels(self.alloc, g, word) {
                Ok(values) => self.come_in(name.as_slice(), Object::Values(values)),
                Err(LabelRefusal::Label(item)) => Reply::Refused(Refusal::Label(item)),
                Err(LabelRefusal::NoMemory) => Reply::Refused(Refusal::Memory),
            },
            _ => unreachable!(),
        }
    }

    /// The command `get`.
    fn get_by(&self, g: &Graph, args: &[Arg]) -> Reply
        requires whole { IsWhole (record { word = commands.Value words.Get; args = args.now }) }
        requires met { AreMet self.now (forms_of (commands.Value words.Get)) args.now }
        requires live { AreLive g.now args.now }
        requires serve { AllServe g.now self.now }
        ensures does { ValuesDone words.Get args.now g.now self.now result self.now }
        ensures named { IsNamed result }
        ensures short { IsShort result }
    {
        match args {
            [Arg::Name(name), element] => self.get(g, name.as_slice(), found(g, element)),
            _ => unreachable!(),
        }
    }

    /// The command `set`.
    fn set_by(&mut self, g: &Graph, args: &[Arg]) -> Reply
        requires whole { IsWhole (record { word = commands.Value words.Set; args = args.now }) }
        requires met { AreMet self.old (forms_of (commands.Value words.Set)) args.now }
        requires live { AreLive g.now args.now }
        requires serve { AllServe g.now self.old }
        ensures does { LacksMemory true self.old result self.new
            ⊎ ValuesDone words.Set args.now g.now self.old result self.new }
        ensures serve { AllServe g.now self.new }
        ensures named { IsNamed result }
        ensures short { IsShort result }
    {
        match args {
            [Arg::Name(name), element, Arg::Num(value)] => {
                self.set(g, name.as_slice(), found(g, element), *value)
            }
            _ => unreachable!(),
        }
    }

    /// `get X v` and `get X e`: the value of an element.
    fn get(&self, g: &Graph, name: &[u8], element: GraphElement) -> Reply
        requires there { has self.now (element_kinds element) name.now ≡ true }
        requires live { IsLiveElement g.now element }
        requires serve { AllServe g.now self.now }
        ensures leads { gets (element_sort element) name.now (element_number element) self.now
            ≡ Some (self.now, result) }
        ensures named { IsNamed result }
        ensures short { IsShort result }
    {
        let slots = self.slots.as_slice();
        let Some(slot) = slot_of(slots, name) else {
            unreachable!()
        };
        match value_at(slots, slot, g, element) {
            Some(value) => Reply::Line(ReplyLine::Num(value)),
            None => Reply::Refused(Refusal::Covered(element.name())),
        }
    }

    /// `set X v x` and `set X e x`: gives an element another value.
    fn set(&mut self, g: &Graph, name: &[u8], element: GraphElement, value: i64) -> Reply
        requires there { has self.old (element_kinds element) name.now ≡ true }
        requires live { IsLiveElement g.now element }
        requires serve { AllServe g.now self.old }
        ensures leads { LacksMemory true self.old result self.new
            ⊎ (sets (element_sort element) name.now (element_number element) value self.old
            ≡ Some (self.new, result)) }
        ensures serve { AllServe g.now self.new }
        ensures named { IsNamed result }
        ensures short { IsShort result }
    {
        set_in(
            self.slots.as_mut_slice(),
            &self.cells,
            name,
            g,
            element,
            value,
        )
    }
}

/// Gives an element another value in the array or the map of the name.
fn set_in(
    slots: &mut [Option<Named>],
    cells: &Pool<Place>,
    name: &[u8],
    g: &Graph,
    element: GraphElement,
    value: i64,
) -> Reply
    requires kept { IsKept slots.old cells.now }
    requires there { has (state_of slots.old cells.now) (element_kinds element) name.now ≡ true }
    requires live { IsLiveElement g.now element }
    requires serve { AllServe g.now (state_of slots.old cells.now) }
    ensures kept { IsKept slots.new cells.now }
    ensures leads { let s = state_of slots.old cells.now in
        let t = state_of slots.new cells.now in LacksMemory true s result t
        ⊎ (sets (element_sort element) name.now (element_number element) value s
        ≡ Some (t, result)) }
    ensures serve { AllServe g.now (state_of slots.new cells.now) }
    ensures named { IsNamed result }
    ensures short { IsShort result }
{
    let Some(slot) = slot_of(slots, name) else {
        unreachable!()
    };
    match set_at(slots, slot, g, element, value) {
        Ok(()) => Reply::Line(ReplyLine::Empty),
        Err(SetRefusal::NotCovered) => Reply::Refused(Refusal::Covered(element.name())),
        Err(SetRefusal::NoMemory) => Reply::Refused(Refusal::Memory),
    }
}

/// The value of an element in the array or the map at a place.
fn value_at(slots: &[Option<Named>], slot: usize, g: &Graph, element: GraphElement) -> Option<i64>
    requires there { HasAt slots.now slot (CanTell g.now element) }
    requires live { IsLiveElement g.now element }
    ensures { HasAt slots.now slot (λ o. Tells element o result) }
{
    match &slots[slot] {
        Some(named) => named.object.value(g, element),
        None => unreachable!(),
    }
}

/// Gives an element another value in the array or the map at a place.
fn set_at(
    slots: &mut [Option<Named>],
    slot: usize,
    g: &Graph,
    element: GraphElement,
    value: i64,
) -> Result<(), SetRefusal>
    requires there { HasAt slots.old slot (CanTell g.now element) }
    requires live { IsLiveElement g.now element }
    ensures ok { OnOk result (Replaces slots.old slots.new slot (IsGiven element value)) }
    ensures err { IfErr result (λ why. HasAt slots.old slot (λ o. Untold element o why)) }
    ensures same { OnErr result (slots.new ≡ slots.old) }
{
    match &mut slots[slot] {
        Some(named) => named.object.set_value(g, element, value),
        None => unreachable!(),
    }
}

/// The element that an argument names.
fn found(g: &Graph, arg: &Arg) -> GraphElement
    requires element { IsElement arg.now }
    requires live { AreLive g.now (arg.now ∷ []) }
    ensures named { Names arg.now result }
    ensures live { IsLiveElement g.now result }
{
    match arg {
        Arg::Node(number) => match g.node_item(*number) {
            Ok(node) => GraphElement::Node(node),
            Err(_) => unreachable!(),
        },
        Arg::Edge(number) => match g.edge_item(*number) {
            Ok(edge) => GraphElement::Edge(edge),
            Err(_) => unreachable!(),
        },
        _ => unreachable!(),
    }
}

/// A new array or map with the value for each element.
fn made_with(alloc: Global, g: &Graph, word: ValueWord, value: i64) -> Result<Values, NoMemory>
    requires { MakesValues word }
    ensures new { IfOk result (λ v. IsNew word value g.now (seen (held.Values v))) }
    ensures serves { IfOk result (λ v. Serves g.now (seen (held.Values v))) }
{
    match word {
        ValueWord::MakeNodeArray => Ok(Values::Nodes(SortValues::Array(NodeArray::make(
            alloc, g, value,
        )?))),
        ValueWord::MakeEdgeArray => Ok(Values::Edges(SortValues::Array(EdgeArray::make(
            alloc, g, value,
        )?))),
        ValueWord::MakeNodeMap => Ok(Values::Nodes(SortValues::Map(NodeMap::make(alloc, value)))),
        ValueWord::MakeEdgeMap => Ok(Values::Edges(SortValues::Map(EdgeMap::make(alloc, value)))),
        ValueWord::Get | ValueWord::Set => unreachable!(),
    }
}

/// A new array of the integers that the labels write.
fn made_of_labels(alloc: Global, g: &Graph, word: ValueWord) -> Result<Values, LabelRefusal>
    requires { MakesArray word }
    ensures new { IfOk result (λ v. IsOfLabels word g.now (seen (held.Values v))) }
    ensures serves { IfOk result (λ v. Serves g.now (seen (held.Values v))) }
    ensures err { IfErr result (IsLabelRefused word g.now) }
{
    match word {
        ValueWord::MakeNodeArray => Ok(Values::Nodes(SortValues::Array(NodeArray::from_labels(
            alloc, g,
        )?))),
        ValueWord::MakeEdgeArray => Ok(Values::Edges(SortValues::Array(EdgeArray::from_labels(
            alloc, g,
        )?))),
        _ => unreachable!(),
    }
}
