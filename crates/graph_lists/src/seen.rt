//! What contracts see of the lists.
ghost use Rattle.std.specs.Prelude.{◌≡◌};
ghost use Rattle.graph_lists.specs.Named.{Named};

use crate::token::{Hook, ListHead};
use graph_state::{Element, ListName, Side};
use leda_base::Seen;
use std::marker::Model;

/// The type of what is seen of the lists, `Named`. No value of it is made.
#[derive(Drop)]
pub(crate) struct NamedView {}

impl Model for NamedView {
    ghost use Rattle.graph_lists.specs.Named.{Named, named_code, nothing_named};

    ghost Value = { Named };

    ghost coded = { named_code };

    ghost view = { λ _. nothing_named };
}

/// From here on `to` is seen. The names are those that `to` may be made of.
pub(crate) fn show(seen: &mut Seen<NamedView>, list: ListName, x: Element, beside: Element)
    ghost to: { Named }
    ensures { seen.new.view ≡ to }
{
    seen.becomes();
}

/// Likewise, where a list comes.
pub(crate) fn show_list(seen: &mut Seen<NamedView>, list: ListName, head: &ListHead)
    ghost to: { Named }
    ensures { seen.new.view ≡ to }
{
    seen.becomes();
}

/// Likewise, where an element comes.
pub(crate) fn show_element(seen: &mut Seen<NamedView>, x: Element, hook: &Hook)
    ghost to: { Named }
    ensures { seen.new.view ≡ to }
{
    seen.becomes();
}

/// Likewise, where an element shows from here on, or doesn't.
pub(crate) fn show_mark(seen: &mut Seen<NamedView>, x: Element, shows: bool)
    ghost to: { Named }
    ensures { seen.new.view ≡ to }
{
    seen.becomes();
}

/// Likewise, where an element comes next to another one.
pub(crate) fn show_beside(seen: &mut Seen<NamedView>, side: Side, x: Element, beside: Element)
    ghost to: { Named }
    ensures { seen.new.view ≡ to }
{
    seen.becomes();
}

/// Likewise, where names change. The flag is one that `to` may be made of.
pub(crate) fn show_turn(seen: &mut Seen<NamedView>, directed: bool)
    ghost to: { Named }
    ensures { seen.new.view ≡ to }
{
    seen.becomes();
}
