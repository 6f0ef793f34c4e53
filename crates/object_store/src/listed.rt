//! The values that arrays and maps have for items of the graph, one by one.
ghost use Rattle.std.specs.Prelude.{◌≡◌, ℕ, Some, false, map, MatchOption, MatchResult};
ghost use Rattle.graph_state.specs.Names.{Has};
ghost use Rattle.object_store.specs.declared.kind.Sort.{Sort};
ghost use Rattle.object_store.specs.declared.kind.Sort.TheVariants as sorts;
ghost use Rattle.object_store.specs.declared.object.Object.TheVariants as held;
ghost use Rattle.object_store.specs.Inner.{seen, sort_values};
ghost use Rattle.object_store.specs.Listed.{kinds_over, AreValues, ListsValues, RefusesElements, RefusesValues};
ghost use Rattle.object_store.specs.Served.{AllServe};
ghost use Rattle.object_store.specs.Serving.{IsServing};
ghost use Rattle.object_store.specs.Views.{has_object as has, object_at};

use crate::object::Object;
use crate::objects::Objects;
use crate::slots::slot_of;
use crate::values::{SortValues, Values};
use graph_core::Graph;
use graph_state::{EdgeItem, ItemName, NodeItem};
use leda_base::{NoMemory, Row};
use node_maps::GraphItem;
use std::alloc::Global;

/// Why the values of items weren't given.
#[derive(Clone, Copy, Debug, PartialEq, Eq)]
pub enum ValuesRefusal {
    /// No array and no map over items of the sort has the name.
    Object,
    /// The array was made before the item.
    Covered(ItemName),
    /// There was no memory.
    NoMemory,
}

impl From<NoMemory> for ValuesRefusal {
    ghost use Rattle.std.specs.Prelude.{◌≡◌};
    ghost use Rattle.object_store.specs.declared.listed.ValuesRefusal.TheVariants as refusals;

    ghost from_gives = { λ _ refusal. refusal ≡ refusals.NoMemory };

    fn from(_: NoMemory) -> ValuesRefusal {
        ValuesRefusal::NoMemory
    }
}

impl Objects {
    /// The values that the array or the map of the name has for nodes, in their order. Each is one
    /// look into it.
    ///
    /// Each array that there is has to serve the graph.
    ///
    /// # Errors
    ///
    /// `Object` exactly where no array and no map over nodes has the name, `Covered` with the first
    /// of the nodes that an array doesn't cover, and `NoMemory`.
    pub fn node_values(
        &self,
        alloc: Global,
        g: &Graph,
        name: &[u8],
        items: &[NodeItem],
    ) -> Result<Row<i64>, ValuesRefusal>
        requires live { (n : ℕ) → Has n (map (λ v. v.0.serial) items.now) → Has n g.now.nodes }
        requires serve { AllServe g.now self.now }
        ensures { MatchResult result
            (ListsValues self.now sorts.Nodes name.now (map (λ v. v.0.serial) items.now))
            (RefusesValues self.now sorts.Nodes name.now (map (λ v. v.0.serial) items.now)) }
    {
        let Some(values) = self.values_named(name) else {
            return Err(ValuesRefusal::Object);
        };
        match values {
            Values::Nodes(values) => values_of(values, alloc, g, items),
            Values::Edges(_) => Err(ValuesRefusal::Object),
        }
    }

    /// The values that the array or the map of the name has for edges, likewise.
    ///
    /// # Errors
    ///
    /// As those of `node_values`.
    pub fn edge_values(
        &self,
        alloc: Global,
        g: &Graph,
        name: &[u8],
        items: &[EdgeItem],
    ) -> Result<Row<i64>, ValuesRefusal>
        requires live { (n : ℕ) → Has n (map (λ e. e.0.serial) items.now) → Has n g.now.edges }
        requires serve { AllServe g.now self.now }
        ensures { MatchResult result
            (ListsValues self.now sorts.Edges name.now (map (λ e. e.0.serial) items.now))
            (RefusesValues self.now sorts.Edges name.now (map (λ e. e.0.serial) items.now)) }
    {
        let Some(values) = self.values_named(name) else {
            return Err(ValuesRefusal::Object);
        };
        match values {
            Values::Edges(values) => values_of(values, alloc, g, items),
            Values::Nodes(_) => Err(ValuesRefusal::Object),
        }
    }

    /// The array or the map of the name.
    fn values_named(&self, name: &[u8]) -> Option<&Values>
        ensures { MatchOption result
            ((sort : Sort) → has self.now (kinds_over sort) name.now ≡ false)
            (λ values. object_at self.now name.now ≡ Some (seen (held.Values values.now))) }
    {
        match slot_of(self.slots.as_slice(), name) {
            Some(slot) => match &self.slots[slot] {
                Some(named) => match &named.object {
                    Object::Values(values) => Some(values),
                    _ => None,
                },
                None => unreachable!(),
            },
            None => None,
        }
    }
}

/// The values of the items, up to the first that isn't covered.
fn values_of<E: GraphItem>(
    values: &SortValues<E>,
    alloc: Global,
    g: &Graph,
    items: &[E],
) -> Result<Row<i64>, ValuesRefusal>
    requires live { (n : ℕ) → Has n (map E.number items.now) → Has n (E.live g.now) }
    requires serves { IsServing (sort_values values.now) (E.live g.now) }
    ensures { MatchResult result
        (AreValues (sort_values values.now) (map E.number items.now))
        (RefusesElements (sort_values values.now) (map E.number items.now) E.name) }
{
    let mut row = Row::new(alloc);
    for v in items {
        match values.get(g, *v) {
            Some(value) => row.push(value)?,
            None => return Err(ValuesRefusal::Covered(v.name())),
        }
    }
    Ok(row)
}
