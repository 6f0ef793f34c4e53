//! The table of commands: how each is spelled, its word, what it asks of its arguments, its memory.
ghost use Rattle.std.specs.Prelude.{◌≡◌, ◌&&◌, bytes_eq, find, map, option_map};
ghost use Rattle.script_text.specs.Borrowed.{entry_seen, token_seen};
ghost use Rattle.script_text.specs.Table.{table, entry_of as the_entry, may_begin};

use crate::argument::Misfit;
use crate::form::{Form, Kinds, Sight, read_arg};
use crate::token::Token;
use crate::word::{EditWord, FileWord, LookWord, ObjectWord, QueryWord, ValueWord, Word};

/// Whether running a command takes memory, so that it may be answered by want of memory.
#[derive(Clone, Copy, Debug, PartialEq, Eq)]
pub(crate) enum Memory {
    NotTaken,
    /// It may be taken. The reply fits the room that is there from the start.
    Taken,
    /// It may be taken, for the text of the reply too, which may be of any length.
    TakenByReply,
}

/// A row of the table: the spelling, the word, the forms of the arguments in order, and the memory.
///
/// A tuple, since a clause can't cite a constant of a struct with references.
pub(crate) type Entry = (&'static str, Word, &'static [Form], Memory);

/// How many arguments a row may ask for.
pub(crate) const FORM_LIMIT: usize = 4;

const NODE: Form = Form::Node(Sight::Visible);

const EDGE: Form = Form::Edge(Sight::Visible);

const LIVE_NODE: Form = Form::Node(Sight::Live);

const LIVE_EDGE: Form = Form::Edge(Sight::Live);

const ELEMENT: Form = Form::Element(Sight::Visible);

const LIVE: Form = Form::Element(Sight::Live);

const LABEL: Form = Form::OptionalLabel;

const NEW_LABEL: Form = Form::Label;

const FILE: Form = Form::File;

const NEW_NAME: Form = Form::NewName;

const OBJECT: Form = Form::Object(Kinds::Any);

const CONTAINER: Form = Form::Object(Kinds::Container);

const LIST: Form = Form::Object(Kinds::List);

const ORDERED: Form = Form::Object(Kinds::ListOrDict);

const DICT: Form = Form::Object(Kinds::Dict);

const QUEUE: Form = Form::Object(Kinds::Queue);

const VALUES: Form = Form::Object(Kinds::ElementValues);

const EDGE_VALUES: Form = Form::Object(Kinds::EdgeValues);

const CELL: Form = Form::Cell(Kinds::Container);

const LIST_CELL: Form = Form::Cell(Kinds::List);

const ORDERED_CELL: Form = Form::Cell(Kinds::ListOrDict);

const DICT_CELL: Form = Form::Cell(Kinds::Dict);

const QUEUE_CELL: Form = Form::Cell(Kinds::Queue);

const INFORMED_CELL: Form = Form::Cell(Kinds::DictOrQueue);

const NUM: Form = Form::Num;

const NUMBERS: Form = Form::NumOrLabels;

const KEPT: Form = Form::Kept;

/// Writes the rows of a table, one a line: the spelling, the word, what is asked of each argument,
/// and the memory.
macro_rules! rows {
    ($($spelling:literal $kind:ident($word:expr) [$($form:expr),*] $memory:ident;)*) => {
        [$(($spelling, Word::$kind($word), &[$($form),*], Memory::$memory)),*]
    };
}

#[cfg(test)]
pub(crate) use rows;

/// The table. All that is said of a command before it runs is said here.
pub(crate) const TABLE: [Entry; 83] = rows! {
    "node"            Edit(EditWord::Node)             [LABEL]              Taken;
    "edge"            Edit(EditWord::Edge)             [NODE, NODE, LABEL]  Taken;
    "edge_before"     Edit(EditWord::EdgeBefore)       [EDGE, NODE, LABEL]  Taken;
    "edge_behind"     Edit(EditWord::EdgeBehind)       [EDGE, NODE, LABEL]  Taken;
    "del_edge"        Edit(EditWord::DelEdge)          [EDGE]               NotTaken;
    "del_node"        Edit(EditWord::DelNode)          [NODE]               NotTaken;
    "rev_edge"        Edit(EditWord::RevEdge)          [EDGE]               NotTaken;
    "move_edge"       Edit(EditWord::MoveEdge)         [EDGE, NODE, NODE]   NotTaken;
    "clear"           Edit(EditWord::Clear)            []                   NotTaken;
    "rev_all"         Edit(EditWord::RevAll)           []                   NotTaken;
    "make_undirected" Edit(EditWord::MakeUndirected)   []                   NotTaken;
    "make_directed"   Edit(EditWord::MakeDirected)     []                   NotTaken;
    "label"           Edit(EditWord::SetLabel)         [ELEMENT, NEW_LABEL] Taken;
    "set_reversal"    Edit(EditWord::SetReversal)      [EDGE, EDGE]         NotTaken;
    "make_map"        Edit(EditWord::MakeMap)          []                   NotTaken;
    "hide_edge"       Edit(EditWord::HideEdge)         [LIVE_EDGE]          NotTaken;
    "hide_node"       Edit(EditWord::HideNode)         [LIVE_NODE]          NotTaken;
    "restore_node"    Edit(EditWord::RestoreNode)      [LIVE_NODE]          NotTaken;
    "restore_all"     Edit(EditWord::RestoreAll)       []                   NotTaken;
    "restore_edge"    Edit(EditWord::RestoreEdge)      [LIVE_EDGE]          NotTaken;
    "load"            File(FileWord::Load)             [FILE]               Taken;
    "save"            File(FileWord::Save)             [FILE]               Taken;
    "count"           Look(LookWord::Count)            []                   NotTaken;
    "nodes"           Look(LookWord::Nodes)            []                   TakenByReply;
    "edges"           Look(LookWord::Edges)            []                   TakenByReply;
    "out"             Look(LookWord::OutEdges)         [NODE]               TakenByReply;
    "in"              Look(LookWord::InEdges)          [NODE]               TakenByReply;
    "first_adj"       Look(LookWord::FirstAdj)         [NODE]               NotTaken;
    "last_adj"        Look(LookWord::LastAdj)          [NODE]               NotTaken;
    "adj_succ"        Look(LookWord::AdjSucc)          [EDGE]               NotTaken;
    "adj_pred"        Look(LookWord::AdjPred)          [EDGE]               NotTaken;
    "cyclic_adj_succ" Look(LookWord::CyclicAdjSucc)    [EDGE]               NotTaken;
    "cyclic_adj_pred" Look(LookWord::CyclicAdjPred)    [EDGE]               NotTaken;
    "source"          Look(LookWord::Source)           [EDGE]               NotTaken;
    "target"          Look(LookWord::Target)           [EDGE]               NotTaken;
    "reversal"        Look(LookWord::Reversal)         [EDGE]               NotTaken;
    "face_succ"       Look(LookWord::FaceSucc)         [EDGE]               NotTaken;
    "get_label"       Look(LookWord::GetLabel)         [ELEMENT]            TakenByReply;
    "list"            Object(ObjectWord::MakeList)     [NEW_NAME]           Taken;
    "dict"            Object(ObjectWord::MakeDict)     [NEW_NAME]           Taken;
    "queue"           Object(ObjectWord::MakeQueue)    [NEW_NAME]           Taken;
    "drop"            Object(ObjectWord::DropObject)   [OBJECT]             NotTaken;
    "size"            Object(ObjectWord::Size)         [CONTAINER]          NotTaken;
    "items"           Object(ObjectWord::Items)        [CONTAINER]          TakenByReply;
    "push"            Object(ObjectWord::Push)         [LIST, NUM]          Taken;
    "append"          Object(ObjectWord::Append)       [LIST, NUM]          Taken;
    "insert_before"   Object(ObjectWord::InsertBefore) [LIST_CELL, NUM]     Taken;
    "insert_behind"   Object(ObjectWord::InsertBehind) [LIST_CELL, NUM]     Taken;
    "contents"        Object(ObjectWord::Contents)     [LIST_CELL]          NotTaken;
    "assign"          Object(ObjectWord::Assign)       [LIST_CELL, NUM]     NotTaken;
    "first"           Object(ObjectWord::First)        [ORDERED]            NotTaken;
    "last"            Object(ObjectWord::Last)         [ORDERED]            NotTaken;
    "succ"            Object(ObjectWord::Succ)         [ORDERED_CELL]       NotTaken;
    "pred"            Object(ObjectWord::Pred)         [ORDERED_CELL]       NotTaken;
    "cyclic_succ"     Object(ObjectWord::CyclicSucc)   [LIST_CELL]          NotTaken;
    "cyclic_pred"     Object(ObjectWord::CyclicPred)   [LIST_CELL]          NotTaken;
    "move_to_front"   Object(ObjectWord::MoveToFront)  [LIST_CELL]          NotTaken;
    "move_to_rear"    Object(ObjectWord::MoveToRear)   [LIST_CELL]          NotTaken;
    "reverse_items"   Object(ObjectWord::ReverseItems) [LIST]               NotTaken;
    "dict_insert"     Object(ObjectWord::DictInsert)   [DICT, NUM, NUM]     Taken;
    "lookup"          Object(ObjectWord::Lookup)       [DICT, NUM]          NotTaken;
    "del"             Object(ObjectWord::Del)          [DICT, NUM]          NotTaken;
    "key"             Object(ObjectWord::Key)          [DICT_CELL]          NotTaken;
    "queue_insert"    Object(ObjectWord::QueueInsert)  [QUEUE, NUM, NUM]    Taken;
    "find_min"        Object(ObjectWord::FindMin)      [QUEUE]              NotTaken;
    "del_min"         Object(ObjectWord::DelMin)       [QUEUE]              NotTaken;
    "prio"            Object(ObjectWord::Prio)         [QUEUE_CELL]         NotTaken;
    "decrease"        Object(ObjectWord::Decrease)     [QUEUE_CELL, NUM]    NotTaken;
    "inf"             Object(ObjectWord::Inf)          [INFORMED_CELL]      NotTaken;
    "change_inf"      Object(ObjectWord::ChangeInf)    [INFORMED_CELL, NUM] NotTaken;
    "del_item"        Object(ObjectWord::DelItem)      [CELL]               NotTaken;
    "node_array"      Value(ValueWord::MakeNodeArray)  [NEW_NAME, NUMBERS]  Taken;
    "edge_array"      Value(ValueWord::MakeEdgeArray)  [NEW_NAME, NUMBERS]  Taken;
    "node_map"        Value(ValueWord::MakeNodeMap)    [NEW_NAME, NUM]      Taken;
    "edge_map"        Value(ValueWord::MakeEdgeMap)    [NEW_NAME, NUM]      Taken;
    "get"             Value(ValueWord::Get)            [VALUES, LIVE]       NotTaken;
    "set"             Value(ValueWord::Set)            [VALUES, LIVE, NUM]  Taken;
    "reach"           Query(QueryWord::Reach)          [NODE, NODE]         TakenByReply;
    "sp"              Query(QueryWord::Sp)             [NODE, EDGE_VALUES]  TakenByReply;
    "dijkstra"        Query(QueryWord::Dijkstra)       [NODE, EDGE_VALUES]  TakenByReply;
    "maxflow"         Query(QueryWord::Maxflow)        [NODE, NODE, EDGE_VALUES] TakenByReply;
    "matching"        Query(QueryWord::Matching)       []                   TakenByReply;
    "check"           Query(QueryWord::Check)          [KEPT]               TakenByReply;
};

/// The rows of the table.
pub(crate) fn table() -> &'static [Entry]
    ensures { map entry_seen result.now ≡ table }
{
    &TABLE
}

/// Whether the arguments of these forms may begin with the token.
fn may_begin(forms: &[Form], next: Option<Token<'_>>) -> bool
    ensures { result ≡ may_begin forms.now (option_map token_seen next.entry) }
{
    match (forms, next) {
        ([form, ..], Some(token)) => read_arg(*form, token) != Err(Misfit::OtherForm),
        _ => true,
    }
}

/// The row that a line's first token and the next one choose.
pub(crate) fn entry_of(rows: &[Entry], spelling: &[u8], next: Option<Token<'_>>) -> Option<Entry>
    ensures { option_map entry_seen result
        ≡ the_entry (map entry_seen rows.now) spelling.now (option_map token_seen next.entry) }
{
    match first_begun(rows, spelling, next) {
        Some(entry) => Some(entry),
        None => first_spelled(rows, spelling),
    }
}

/// The first row of this spelling whose arguments may begin with the token.
fn first_begun(rows: &[Entry], spelling: &[u8], next: Option<Token<'_>>) -> Option<Entry>
    ensures { result ≡ find (λ entry. bytes_eq entry.0.now spelling.now
        && may_begin entry.2.now (option_map token_seen next.entry)) rows.now }
{
    rows.iter()
        .find(|entry| entry.0.as_bytes() == spelling && may_begin(entry.2, next))
        .copied()
}

/// The first row of this spelling.
fn first_spelled(rows: &[Entry], spelling: &[u8]) -> Option<Entry>
    ensures { result ≡ find (λ entry. bytes_eq entry.0.now spelling.now) rows.now }
{
    rows.iter()
        .find(|entry| entry.0.as_bytes() == spelling)
        .copied()
}

#[cfg(test)]
mod tests;
