//! The words of commands.

/// The word of a command that changes the graph.
#[derive(Clone, Copy, Debug, PartialEq, Eq)]
pub enum EditWord {
    Node,
    Edge,
    EdgeBefore,
    EdgeBehind,
    DelEdge,
    DelNode,
    RevEdge,
    MoveEdge,
    RevAll,
    MakeUndirected,
    MakeDirected,
    Clear,
    SetLabel,
    SetReversal,
    MakeMap,
    HideEdge,
    HideNode,
    RestoreEdge,
    RestoreNode,
    RestoreAll,
}

/// The word of a command that looks at the graph.
#[derive(Clone, Copy, Debug, PartialEq, Eq)]
pub enum LookWord {
    Count,
    Nodes,
    Edges,
    OutEdges,
    InEdges,
    FirstAdj,
    LastAdj,
    AdjSucc,
    AdjPred,
    CyclicAdjSucc,
    CyclicAdjPred,
    Source,
    Target,
    Reversal,
    FaceSucc,
    GetLabel,
}

/// The word of a command that reads or writes a file.
#[derive(Clone, Copy, Debug, PartialEq, Eq)]
pub enum FileWord {
    Load,
    Save,
}

/// The word of a command on an object or on one of its items.
#[derive(Clone, Copy, Debug, PartialEq, Eq)]
pub enum ObjectWord {
    MakeList,
    MakeDict,
    MakeQueue,
    DropObject,
    Size,
    Items,
    Push,
    Append,
    InsertBefore,
    InsertBehind,
    Contents,
    Assign,
    First,
    Last,
    Succ,
    Pred,
    CyclicSucc,
    CyclicPred,
    MoveToFront,
    MoveToRear,
    ReverseItems,
    DictInsert,
    Lookup,
    Del,
    Key,
    QueueInsert,
    FindMin,
    DelMin,
    Prio,
    Decrease,
    Inf,
    ChangeInf,
    DelItem,
}

/// The word of a command on an array or a map over the nodes or the edges of the graph.
#[derive(Clone, Copy, Debug, PartialEq, Eq)]
pub enum ValueWord {
    MakeNodeArray,
    MakeEdgeArray,
    MakeNodeMap,
    MakeEdgeMap,
    Get,
    Set,
}

/// The word of a command that asks about the graph.
#[derive(Clone, Copy, Debug, PartialEq, Eq)]
pub enum QueryWord {
    Reach,
    Sp,
    Dijkstra,
    Maxflow,
    Matching,
    Check,
}

/// A command word.
#[derive(Clone, Copy, Debug, PartialEq, Eq)]
pub enum Word {
    Edit(EditWord),
    Look(LookWord),
    File(FileWord),
    Object(ObjectWord),
    Value(ValueWord),
    Query(QueryWord),
}
