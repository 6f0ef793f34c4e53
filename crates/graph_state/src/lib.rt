//! The state of a graph, and what each edit makes of it.
//!
//! `specs/` has the definitions, in the field's terms and with no word of how a graph is kept:
//! `State.antt` the state and its visible part, `Names.antt` the lists of a graph and what stands
//! in them, `Formed.antt` well-formed states, `Edits.antt` each edit as a function from state to
//! state, `Turned.antt` what lists and elements are called where every edge goes the other way,
//! `Refusals.antt` when an edit or a look is refused. The code is the types that these definitions
//! and the calls on a graph name.
#![tactic(auto)]

mod item;
mod kind;
mod name;
mod refusal;

pub use graph_defs::Dart;
pub use item::{EdgeItem, NodeItem};
pub use item_pool::{Gone, Item};
pub use kind::{Kind, Side};
pub use leda_base::ItemName;
pub use name::{Element, ListName};
pub use refusal::{EditRefusal, LookRefusal};
