//! What answers show: laws over the definitions, each the contract of a function with an empty
//! body.
ghost use Rattle.graph_defs.specs.Cost.{ReducedIsCheapest, ReducedIsCheapestOfItsValue, SetExcludesFlows};
ghost use Rattle.graph_defs.specs.Flow.{CutsBoundFlows, YesGivesGreatest};
ghost use Rattle.graph_defs.specs.Matching.{CoversBoundMatchings, YesGivesLargest};
ghost use Rattle.graph_defs.specs.Shortest.{ShortestGivesLeastWeights, YesGivesLeastWeights};
ghost use Rattle.graph_defs.specs.Walk.{ClosedSetExcludesWalks};

/// No walk leads out of a closed set: where a set of nodes with v and without w is left by no arc,
/// there is no walk from v to w.
pub fn closed_set_excludes_walks()
    ensures { ClosedSetExcludesWalks }
{}

/// A right answer on shortest paths tells least weights: of all walks from the source to a finite
/// node none weighs less than its distance, and one weighs just that; walks to a low node weigh
/// less than any number; no walk leads to an unreached node; and every node is one of these.
pub fn shortest_gives_least_weights()
    ensures { ShortestGivesLeastWeights }
{}

/// The same of an answer of which a checker finds that all conditions hold.
pub fn yes_gives_least_weights()
    ensures { YesGivesLeastWeights }
{}

/// No flow has a greater value than a cut has capacity, so a flow and a cut of one value show that
/// the flow is greatest (L. R. Ford and D. R. Fulkerson, Flows in Networks, 1962).
pub fn cuts_bound_flows()
    ensures { CutsBoundFlows }
{}

/// Where a checker finds that all conditions hold of a flow and its cut, no flow has a greater
/// value.
pub fn yes_gives_greatest()
    ensures { YesGivesGreatest }
{}

/// A feasible flow with potentials under which no reduced cost is below 0 where the flow can rise,
/// nor above 0 where it can fall, costs no more than any other feasible flow.
pub fn reduced_is_cheapest()
    ensures { ReducedIsCheapest }
{}

/// The same of a flow from a source to a sink, among the flows of its value.
pub fn reduced_is_cheapest_of_its_value()
    ensures { ReducedIsCheapestOfItsValue }
{}

/// A set of nodes with a surplus, out of which less can flow than has to, excludes every feasible
/// flow.
pub fn set_excludes_flows()
    ensures { SetExcludesFlows }
{}

/// No matching has more edges than the size of an odd-set cover (J. Edmonds, Paths, trees, and
/// flowers, 1965), so a matching and a cover of one size show that it is largest.
pub fn covers_bound_matchings()
    ensures { CoversBoundMatchings }
{}

/// Where a checker finds that all conditions hold of a matching and its cover, no matching of the
/// net has more edges.
pub fn yes_gives_largest()
    ensures { YesGivesLargest }
{}
