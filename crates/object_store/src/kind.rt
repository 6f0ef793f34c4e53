//! The kinds of objects.
ghost use Rattle.std.specs.Prelude.{◌≡◌};
ghost use Rattle.object_store.specs.Views.{is_of as the_kinds};

use script_text::Kinds;

/// A sort of elements of the graph.
#[derive(Clone, Copy, Debug, PartialEq, Eq)]
pub enum Sort {
    Nodes,
    Edges,
}

/// What an object is.
#[derive(Clone, Copy, Debug, PartialEq, Eq)]
pub enum ObjectKind {
    List,
    Dict,
    Queue,
    /// An array over the elements of a sort.
    Array(Sort),
    /// A map over them.
    Map(Sort),
}

impl ObjectKind {
    /// Whether an object of this kind is one of these.
    pub(crate) fn is_of(self, kinds: Kinds) -> bool
        ensures { result ≡ the_kinds kinds self }
    {
        match self {
            ObjectKind::List => matches!(
                kinds,
                Kinds::List | Kinds::ListOrDict | Kinds::Container | Kinds::Any
            ),
            ObjectKind::Dict => matches!(
                kinds,
                Kinds::Dict | Kinds::ListOrDict | Kinds::DictOrQueue | Kinds::Container | Kinds::Any
            ),
            ObjectKind::Queue => matches!(
                kinds,
                Kinds::Queue | Kinds::DictOrQueue | Kinds::Container | Kinds::Any
            ),
            ObjectKind::Array(Sort::Nodes) | ObjectKind::Map(Sort::Nodes) => {
                matches!(kinds, Kinds::NodeValues | Kinds::Any)
            }
            ObjectKind::Array(Sort::Edges) | ObjectKind::Map(Sort::Edges) => {
                matches!(kinds, Kinds::EdgeValues | Kinds::Any)
            }
        }
    }
}
