//! Maps.
ghost use Rattle.std.specs.Prelude.{◌≡◌, OnOk, OnErr, IfErr, MatchResult};
ghost use Rattle.graph_state.specs.Names.{Has};
ghost use Rattle.node_maps.specs.Contents.{IsGone, empty_map, value_in, RefusesChange};

use crate::item::{GraphItem, see_live};
use graph_core::Graph;
use graph_state::{EdgeItem, Gone, NodeItem};
use std::alloc::Global;
use std::collections::HashMap;
use std::marker::{Model, PhantomData};

/// Why a map doesn't take a value.
#[derive(Clone, Copy, Debug, PartialEq, Eq)]
pub enum MapRefusal {
    /// The item is dead, or was never made.
    Gone(Gone),
    /// There was no memory.
    NoMemory,
}

impl From<Gone> for MapRefusal {
    ghost use Rattle.std.specs.Prelude.{◌≡◌};
    ghost use Rattle.node_maps.specs.Refused.{gone_change};

    ghost from_gives = { λ why refusal. refusal ≡ gone_change why };

    fn from(why: Gone) -> MapRefusal {
        MapRefusal::Gone(why)
    }
}

/// A value for each element of one sort, the default where none was set.
///
/// Contracts see the default, and the values that were set by number.
#[derive(Drop)]
pub struct ElementMap<E: GraphItem> {
    default: i64,
    values: HashMap<u32, i64>,
    sort: PhantomData<E>,
}

impl<E: GraphItem> Model for ElementMap<E> {
    ghost use Rattle.node_maps.specs.Contents.{MapContents, map_contents, map_code};
    ghost use Rattle.node_maps.specs.PrivateTable.{values_set};

    ghost Value = { MapContents };

    ghost coded = { map_code };

    ghost view = { λ m. map_contents m.default (values_set m.values.entries) };
}

/// A map over nodes.
pub type NodeMap = ElementMap<NodeItem>;

/// A map over edges.
pub type EdgeMap = ElementMap<EdgeItem>;

impl<E: GraphItem> ElementMap<E> {
    ghost use Rattle.node_maps.specs.Contents.{with_set};

    /// A map with the default for each element. It takes no memory.
    pub fn make(alloc: Global, value: i64) -> ElementMap<E>
        ensures { result ≡ empty_map value }
    {
        ElementMap {
            default: value,
            values: HashMap::new(alloc),
            sort: PhantomData,
        }
    }

    /// The value of an element, hidden or not.
    ///
    /// # Errors
    ///
    /// `Dead` or `Unknown` where the element is.
    #[inline]
    pub fn get(&self, g: &Graph, v: E) -> Result<i64, Gone>
        ensures { MatchResult result
            (λ x. Has (E.number v) (E.live g.now) × (x ≡ value_in self.now (E.number v)))
            (IsGone (E.live g.now) (E.made g.now) (E.number v)) }
    {
        see_live(g, v)?;
        match self.values.get(&v.item().serial) {
            Some(value) => Ok(*value),
            None => Ok(self.default),
        }
    }

    /// Gives an element, hidden or not, another value.
    ///
    /// # Errors
    ///
    /// `Gone` where the element is dead or unknown, and `NoMemory` where there is no memory, which
    /// isn't so where its value was set before. The map is then as it was.
    #[inline]
    pub fn set(&mut self, g: &Graph, v: E, value: i64) -> Result<(), MapRefusal>
        ensures live { OnOk result (Has (E.number v) (E.live g.now)) }
        ensures ok { OnOk result (self.new ≡ with_set (E.number v) value self.old) }
        ensures err { IfErr result
            (RefusesChange self.old (E.live g.now) (E.made g.now) (E.number v)) }
        ensures same { OnErr result (self.new ≡ self.old) }
    {
        see_live(g, v)?;
        let Ok(_) = self.values.insert(v.item().serial, value) else {
            return Err(MapRefusal::NoMemory);
        };
        Ok(())
    }
}
