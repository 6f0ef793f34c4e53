//! What contracts see of the rings.
ghost use Rattle.std.specs.Prelude.{◌≡◌};
ghost use Rattle.item_ring.specs.View.{View};

use leda_base::Seen;
use std::marker::Model;

/// The type of what is seen of the rings, `View`. No value of it is made.
#[derive(Drop)]
pub(crate) struct RingView {}

impl Model for RingView {
    ghost use Rattle.item_ring.specs.View.{View, view_code, nothing_seen};

    ghost Value = { View };

    ghost coded = { view_code };

    ghost view = { λ _. nothing_seen };
}

/// From here on `to` is seen. The numbers are those that `to` may be made of.
pub(crate) fn show(seen: &mut Seen<RingView>, ring: u32, member: u32, other: u32)
    ghost to: { View }
    ensures { seen.new.view ≡ to }
{
    seen.becomes();
}
