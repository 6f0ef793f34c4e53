//! What a checker says of an answer.

/// The conditions that checkers test.
#[derive(Clone, Copy, Debug, PartialEq, Eq)]
pub enum Cond {
    /// An item that the answer names is no longer visible.
    Gone,
    /// A visible node has no value in the answer.
    Missing,
    /// A number is out of range, or a row has another length than it should.
    Range,
    /// A node doesn't stand once among the finite, the low and the unreached ones.
    Once,
    /// The source isn't the first finite node with distance 0 and without an arc, nor low with no
    /// finite node.
    Source,
    /// A finite node isn't reached by its arc from an earlier one, at the difference of their
    /// distances.
    TightNode,
    /// A seed isn't a walk to a closed walk of negative weight.
    Seed,
    /// A low node lacks its reason.
    Low,
    /// An arc is shorter than the difference of the distances of its ends.
    Shorter,
    /// An arc leads from a node that is reached to one that isn't, or from a low node to a finite
    /// one.
    Leaves,
    /// A flow isn't within the bounds of its arc.
    Bounds,
    /// At a node, less or more leaves than should.
    Balance,
    /// A cut lacks the source, or has the sink.
    Cut,
    /// The value told isn't that of the flow, or isn't the capacity of the cut.
    Value,
    /// A reduced cost doesn't fit the flow of its arc.
    Reduced,
    /// The cost told isn't that of the flow.
    Cost,
    /// The bounds and supplies don't exclude a feasible flow.
    SetSum,
    /// A chosen edge is a loop.
    SelfLoop,
    /// A node is the end of two chosen edges.
    Shared,
    /// An edge isn't covered by the labels of its ends.
    Label,
    /// The size of a cover isn't the number of chosen edges.
    Size,
    /// A potential is below 0.
    Pot,
    /// The potentials of an edge's ends don't dominate its weight.
    Dominates,
    /// The potentials of a chosen edge's ends aren't its weight.
    TightArc,
    /// A free node has a potential other than 0, or there is a free node where none may be.
    Free,
    /// The weight told isn't that of the chosen edges.
    Weight,
    /// A set has nodes of both sides, or as many neighbours as members.
    Hall,
    /// The darts of an edge don't stand once each at its ends.
    Darts,
    /// The genus isn't 0, or the number of face cycles is another one.
    Genus,
    /// The paths aren't a subdivision of the graph that is named.
    Subdivision,
}

/// Whether an answer meets all conditions of its checker, or which it breaks first, and where.
#[derive(Clone, Copy, Debug, PartialEq, Eq)]
pub enum Verdict {
    Yes,
    /// The first condition that is broken, in the checker's order, and its first place: the number
    /// of a node, an arc or a seed, or 0 where the condition has no place.
    No { cond: Cond, place: u32 },
}
