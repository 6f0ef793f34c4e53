//! Arrays.
ghost use Rattle.std.specs.Prelude.{◌≡◌, ℕ, ◌^◌, ◌<◌, ◌≤◌, Some, map, OnOk, OnErr, IfOk, IfErr, IsTrue, ◌↔◌, MatchResult};
ghost use Rattle.std.specs.FinMap as finmap;
ghost use Rattle.graph_state.specs.Names.{Has, IsOnce};
ghost use Rattle.node_maps.specs.Contents.{array_contents, IsTable, IsServed, IsCovered, RefusesValue};
ghost use Rattle.node_maps.specs.Labels.{Reads, RefusesLabels};

use crate::item::{GraphItem, all_items, see_live};
use crate::labels::write_labels;
use crate::row::ValueRow;
use graph_core::Graph;
use graph_state::{EdgeItem, Gone, ItemName, NodeItem};
use leda_base::NoMemory;
use std::alloc::Global;
use std::marker::{Model, PhantomData};

/// Why no array was made of the labels.
#[derive(Clone, Copy, Debug, PartialEq, Eq)]
pub enum LabelRefusal {
    /// The label of the element writes no i64.
    Label(ItemName),
    /// There was no memory.
    NoMemory,
}

/// Why an array has no value of an item.
#[derive(Clone, Copy, Debug, PartialEq, Eq)]
pub enum ValueRefusal {
    /// The item is dead, or was never made.
    Gone(Gone),
    /// The item is live, and was made after the array.
    NotCovered,
}

impl From<Gone> for ValueRefusal {
    ghost use Rattle.std.specs.Prelude.{◌≡◌};
    ghost use Rattle.node_maps.specs.Refused.{gone_value};

    ghost from_gives = { λ why refusal. refusal ≡ gone_value why };

    fn from(why: Gone) -> ValueRefusal {
        ValueRefusal::Gone(why)
    }
}

impl From<NoMemory> for LabelRefusal {
    ghost use Rattle.std.specs.Prelude.{◌≡◌};
    ghost use Rattle.node_maps.specs.Refused.{no_memory};

    ghost from_gives = { λ _ refusal. refusal ≡ no_memory };

    fn from(_: NoMemory) -> LabelRefusal {
        LabelRefusal::NoMemory
    }
}

/// A value for each element of one sort that was live when the array was made.
///
/// Contracts see how many elements had been made then, and the values by number.
#[derive(Drop)]
pub struct ElementArray<E: GraphItem> {
    made: u32,
    row: ValueRow,
    sort: PhantomData<E>,
}

impl<E: GraphItem> Model for ElementArray<E> {
    ghost use Rattle.node_maps.specs.Contents.{ArrayContents, array_contents, array_code};

    ghost Value = { ArrayContents };

    ghost coded = { array_code };

    ghost view = { λ a. array_contents a.made a.row };
}

/// An array over nodes.
pub type NodeArray = ElementArray<NodeItem>;

/// An array over edges.
pub type EdgeArray = ElementArray<EdgeItem>;

/// How many places a row has to have so that each of the items has its own.
fn count_places<E: GraphItem>(items: &[E]) -> usize
    ensures { result ≤ 2 ^ 32 }
{
    let mut count = 0;
    for v in items {
        count = count.max(v.item().slot as usize + 1);
    }
    count
}

/// A row with the value for each of the items.
fn filled<E: GraphItem>(alloc: Global, items: &[E], value: i64) -> Result<ValueRow, NoMemory>
    requires given { (n : ℕ) → Has n (map E.number items.now) → 0 < n }
    requires once { IsOnce (map E.number items.now) }
    ensures { IfOk result (λ row. IsTable row (map E.number items.now) (λ _ x. x ≡ value)) }
{
    let mut row = ValueRow::with_places(alloc, count_places(items))?;
    for v in items {
        row.insert(v.item(), value)?;
    }
    Ok(row)
}

/// Whether each of the items that an array covers has a value in its row.
fn has_each<E: GraphItem>(row: &ValueRow, made: u32, items: &[E]) -> bool
    requires given { (n : ℕ) → Has n (map E.number items.now) → 0 < n }
    ensures { IsTrue result
        ↔ IsServed (array_contents made row.now) (map E.number items.now) }
{
    for v in items {
        let item = v.item();
        if item.serial <= made && row.get(item).is_none() {
            return false;
        }
    }
    true
}

impl<E: GraphItem> ElementArray<E> {
    ghost use Rattle.node_maps.specs.Contents.{with_value};

    /// An array with the value for each live element, hidden ones too.
    ///
    /// # Errors
    ///
    /// `NoMemory` where there is no memory.
    pub fn make(alloc: Global, g: &Graph, value: i64) -> Result<ElementArray<E>, NoMemory>
        ensures made { IfOk result (λ a. a.made ≡ E.made g.now) }
        ensures values { IfOk result
            (λ a. IsTable a.values (E.live g.now) (λ _ x. x ≡ value)) }
        ensures served { IfOk result (λ a. IsServed a (E.live g.now)) }
    {
        let items = all_items::<E>(alloc, g)?;
        let row = filled(alloc, items.as_slice(), value)?;
        Ok(ElementArray {
            made: E::made_in(g),
            row,
            sort: PhantomData,
        })
    }

    /// An array with the i64 that its label writes for each live element, hidden ones too.
    ///
    /// # Errors
    ///
    /// `Label` with the first element of the list, hidden ones included, whose label writes no i64,
    /// and `NoMemory` where there is no memory.
    pub fn from_labels(alloc: Global, g: &Graph) -> Result<ElementArray<E>, LabelRefusal>
        ensures made { IfOk result (λ a. a.made ≡ E.made g.now) }
        ensures values { IfOk result
            (λ a. IsTable a.values (E.live g.now) (λ n. Reads (E.label g.now n))) }
        ensures served { IfOk result (λ a. IsServed a (E.live g.now)) }
        ensures err { IfErr result (RefusesLabels (E.live g.now) (E.label g.now) E.name) }
    {
        let items = all_items::<E>(alloc, g)?;
        let slice = items.as_slice();
        let mut row = filled(alloc, slice, 0)?;
        write_labels(g, slice, &mut row)?;
        Ok(ElementArray {
            made: E::made_in(g),
            row,
            sort: PhantomData,
        })
    }

    /// Whether every live element that the array covers has a value in it, which `get` and `set`
    /// need. An array serves the graph that it was made of, and each later state of that graph, so
    /// nobody has to ask who keeps to one graph. It takes time linear in the live elements.
    ///
    /// # Errors
    ///
    /// `NoMemory` where there is no memory.
    pub fn serves(&self, alloc: Global, g: &Graph) -> Result<bool, NoMemory>
        ensures { IfOk result (λ yes. IsTrue yes ↔ IsServed self.now (E.live g.now)) }
    {
        let items = all_items::<E>(alloc, g)?;
        Ok(has_each(&self.row, self.made, items.as_slice()))
    }

    /// The value of an element, hidden or not.
    ///
    /// # Errors
    ///
    /// `Gone` where the element is dead or unknown, and `NotCovered` where it is live and was made
    /// after the array.
    #[inline]
    pub fn get(&self, g: &Graph, v: E) -> Result<i64, ValueRefusal>
        requires { IsServed self.now (E.live g.now) }
        ensures { MatchResult result
            (λ x. IsCovered self.now (E.live g.now) (E.number v)
            × (finmap.get self.now.values (E.number v) ≡ Some x))
            (RefusesValue self.now (E.live g.now) (E.made g.now) (E.number v)) }
    {
        self.see_covered(g, v)?;
        match self.row.get(v.item()) {
            Some(value) => Ok(value),
            None => unreachable!(),
        }
    }

    /// Gives an element, hidden or not, another value. It takes no memory.
    ///
    /// # Errors
    ///
    /// As those of `get`. The array is then as it was.
    #[inline]
    pub fn set(&mut self, g: &Graph, v: E, value: i64) -> Result<(), ValueRefusal>
        requires { IsServed self.old (E.live g.now) }
        ensures covered { OnOk result (IsCovered self.old (E.live g.now) (E.number v)) }
        ensures ok { OnOk result (self.new ≡ with_value (E.number v) value self.old) }
        ensures err { IfErr result
            (RefusesValue self.old (E.live g.now) (E.made g.now) (E.number v)) }
        ensures same { OnErr result (self.new ≡ self.old) }
        ensures served { IsServed self.new (E.live g.now) }
    {
        self.see_covered(g, v)?;
        self.row.set(v.item(), value);
        Ok(())
    }

    /// Refuses an item that isn't live, or that the array doesn't cover.
    #[inline]
    fn see_covered(&self, g: &Graph, v: E) -> Result<(), ValueRefusal>
        ensures given { OnOk result (0 < E.number v) }
        ensures covered { MatchResult result
            (λ _. IsCovered self.now (E.live g.now) (E.number v))
            (RefusesValue self.now (E.live g.now) (E.made g.now) (E.number v)) }
    {
        see_live(g, v)?;
        if v.item().serial > self.made {
            return Err(ValueRefusal::NotCovered);
        }
        Ok(())
    }
}
