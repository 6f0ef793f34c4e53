//! What holds of every net, by functions that do nothing: each contract is the law.
ghost use Rattle.blossom_search.specs.Closed.{ClosedSetsGiveCovers, StemEndsAreNotLabelled1};
ghost use Rattle.blossom_search.specs.Growth.{StemsAugment, StemsFlower, StemsGrow};

/// The labels of closed sets are a cover of the matching's size, so that the matching is a largest
/// one: where no path from a free node goes on to a new node, the search may end. The two sets may
/// overlap.
pub fn closed_sets_give_covers()
    ensures { ClosedSetsGiveCovers }
{}

/// Where a matching and a cover have one size, a node at the end of a simple alternating path of
/// even length from a free node isn't labelled 1. So a cover of a contracted net can be lifted.
pub fn stem_ends_are_not_labelled_1()
    ensures { StemEndsAreNotLabelled1 }
{}

/// One arc more at the end of a stem gives a longer stem, an augmenting path, or a blossom with its
/// stem: by what its other end is.
pub fn stems_go_on()
    ensures grow { StemsGrow }
    ensures augment { StemsAugment }
    ensures flower { StemsFlower }
{}
