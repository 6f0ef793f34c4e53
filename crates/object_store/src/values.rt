//! Arrays and maps over the elements of the graph.
ghost use Rattle.std.specs.Prelude.{◌≡◌, true, IfErr, OnOk, OnErr};
ghost use Rattle.graph_state.specs.Names.{Has};
ghost use Rattle.object_store.specs.declared.kind.Sort.{Sort};
ghost use Rattle.object_store.specs.Elements.{element_kinds, element_sort, element_number, IsLiveElement};
ghost use Rattle.object_store.specs.Inner.{kind_of_values, kind_of_sort, sort_values, valuation};
ghost use Rattle.object_store.specs.Serving.{IsServing, IsTold, IsSet, IsUnset, CanTell, Tells, IsGiven, Untold};
ghost use Rattle.object_store.specs.Values.{elements, name_of};
ghost use Rattle.object_store.specs.Views.{is_of};

use crate::kind::{ObjectKind, Sort};
use crate::object::Object;
use graph_core::Graph;
use graph_state::{EdgeItem, ItemName, NodeItem};
use node_maps::{ElementArray, ElementMap, GraphItem, MapRefusal, ValueRefusal};

/// An array or a map over the elements of one sort.
#[derive(Drop)]
pub(crate) enum SortValues<E: GraphItem> {
    Array(ElementArray<E>),
    Map(ElementMap<E>),
}

/// An array or a map.
#[derive(Drop)]
pub(crate) enum Values {
    Nodes(SortValues<NodeItem>),
    Edges(SortValues<EdgeItem>),
}

/// A live element of the graph.
#[derive(Clone, Copy, Debug, PartialEq, Eq)]
pub(crate) enum GraphElement {
    Node(NodeItem),
    Edge(EdgeItem),
}

impl GraphElement {
    /// What the element is called.
    pub(crate) fn name(self) -> ItemName
        ensures { result ≡ name_of (element_sort self) (element_number self) }
    {
        match self {
            GraphElement::Node(node) => ItemName::Node(node.0.serial),
            GraphElement::Edge(edge) => ItemName::Edge(edge.0.serial),
        }
    }
}

/// Why an element wasn't given a value.
#[derive(Clone, Copy, Debug, PartialEq, Eq)]
pub(crate) enum SetRefusal {
    /// The array was made before the element.
    NotCovered,
    NoMemory,
}

impl Object {
    /// The value of a live element in an array or a map over its sort, and none exactly where an
    /// array doesn't cover it.
    pub(crate) fn value(&self, g: &Graph, element: GraphElement) -> Option<i64>
        requires can { CanTell g.now element self.now }
        requires live { IsLiveElement g.now element }
        ensures { Tells element self.now result }
    {
        match self {
            Object::Values(values) => values.get(g, element),
            Object::List(_) | Object::Dict(_) | Object::Queue(_) => unreachable!(),
        }
    }

    /// Gives a live element another value in an array or a map over its sort.
    ///
    /// # Errors
    ///
    /// `NotCovered` exactly where an array doesn't cover it, and `NoMemory`. All is then as it was.
    pub(crate) fn set_value(
        &mut self,
        g: &Graph,
        element: GraphElement,
        value: i64,
    ) -> Result<(), SetRefusal>
        requires can { CanTell g.now element self.old }
        requires live { IsLiveElement g.now element }
        ensures ok { OnOk result (IsGiven element value self.old self.new) }
        ensures err { IfErr result (Untold element self.old) }
        ensures same { OnErr result (self.new ≡ self.old) }
    {
        match self {
            Object::Values(values) => values.set(g, element, value),
            Object::List(_) | Object::Dict(_) | Object::Queue(_) => unreachable!(),
        }
    }
}

impl Values {
    pub(crate) fn kind(&self) -> ObjectKind
        ensures { result ≡ kind_of_values self.now }
    {
        match self {
            Values::Nodes(SortValues::Array(_)) => ObjectKind::Array(Sort::Nodes),
            Values::Nodes(SortValues::Map(_)) => ObjectKind::Map(Sort::Nodes),
            Values::Edges(SortValues::Array(_)) => ObjectKind::Array(Sort::Edges),
            Values::Edges(SortValues::Map(_)) => ObjectKind::Map(Sort::Edges),
        }
    }

    /// The value of a live element of the sort, and none exactly where an array doesn't cover it.
    pub(crate) fn get(&self, g: &Graph, element: GraphElement) -> Option<i64>
        requires sort { is_of (element_kinds element) (kind_of_values self.now) ≡ true }
        requires live { IsLiveElement g.now element }
        requires serves { IsServing (valuation self.now) (elements (element_sort element) g.now) }
        ensures { IsTold (valuation self.now) (element_number element) result }
    {
        match (self, element) {
            (Values::Nodes(values), GraphElement::Node(node)) => values.get(g, node),
            (Values::Edges(values), GraphElement::Edge(edge)) => values.get(g, edge),
            _ => unreachable!(),
        }
    }

    /// Gives a live element of the sort another value.
    ///
    /// # Errors
    ///
    /// `NotCovered` exactly where an array doesn't cover it, and `NoMemory`. All is then as it was.
    pub(crate) fn set(
        &mut self,
        g: &Graph,
        element: GraphElement,
        value: i64,
    ) -> Result<(), SetRefusal>
        requires sort { is_of (element_kinds element) (kind_of_values self.old) ≡ true }
        requires live { IsLiveElement g.now element }
        requires serves { IsServing (valuation self.old) (elements (element_sort element) g.now) }
        ensures ok { OnOk result (IsSet (valuation self.old) (valuation self.new)
            (element_number element) value) }
        ensures kind { kind_of_values self.new ≡ kind_of_values self.old }
        ensures err { IfErr result (IsUnset (valuation self.old) (element_number element)) }
        ensures same { OnErr result (self.new ≡ self.old) }
    {
        match self {
            Values::Nodes(values) => match element {
                GraphElement::Node(node) => values.set(g, node, value),
                GraphElement::Edge(_) => unreachable!(),
            },
            Values::Edges(values) => match element {
                GraphElement::Edge(edge) => values.set(g, edge, value),
                GraphElement::Node(_) => unreachable!(),
            },
        }
    }
}

impl<E: GraphItem> SortValues<E> {
    /// The value of a live element, and none exactly where an array doesn't cover it.
    pub(crate) fn get(&self, g: &Graph, v: E) -> Option<i64>
        requires live { Has (E.number v) (E.live g.now) }
        requires serves { IsServing (sort_values self.now) (E.live g.now) }
        ensures { IsTold (sort_values self.now) (E.number v) result }
    {
        match self {
            SortValues::Array(array) => match array.get(g, v) {
                Ok(value) => Some(value),
                Err(ValueRefusal::NotCovered) => None,
                Err(ValueRefusal::Gone(_)) => unreachable!(),
            },
            SortValues::Map(map) => match map.get(g, v) {
                Ok(value) => Some(value),
                Err(_) => unreachable!(),
            },
        }
    }

    /// Gives a live element another value.
    ///
    /// # Errors
    ///
    /// `NotCovered` exactly where an array doesn't cover it, and `NoMemory`. All is then as it was.
    pub(crate) fn set(&mut self, g: &Graph, v: E, value: i64) -> Result<(), SetRefusal>
        requires live { Has (E.number v) (E.live g.now) }
        requires serves { IsServing (sort_values self.old) (E.live g.now) }
        ensures ok { OnOk result (IsSet (sort_values self.old) (sort_values self.new)
            (E.number v) value) }
        ensures kind { (sort : Sort) → kind_of_sort sort self.new ≡ kind_of_sort sort self.old }
        ensures err { IfErr result (IsUnset (sort_values self.old) (E.number v)) }
        ensures same { OnErr result (self.new ≡ self.old) }
    {
        match self {
            SortValues::Array(array) => match array.set(g, v, value) {
                Ok(()) => Ok(()),
                Err(ValueRefusal::NotCovered) => Err(SetRefusal::NotCovered),
                Err(ValueRefusal::Gone(_)) => unreachable!(),
            },
            SortValues::Map(map) => match map.set(g, v, value) {
                Ok(()) => Ok(()),
                Err(MapRefusal::NoMemory) => Err(SetRefusal::NoMemory),
                Err(MapRefusal::Gone(_)) => unreachable!(),
            },
        }
    }
}
