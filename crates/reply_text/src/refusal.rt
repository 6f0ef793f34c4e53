//! Why a line was refused, and the words that say it.
ghost use Rattle.std.specs.Prelude.{◌≡◌, ◌≤◌, length};
ghost use Rattle.reply_text.specs.Refusals.{reason, subject, IsRefusalNamed};
ghost use Rattle.reply_text.specs.Appending.{subject_words, IsSubjectShort};

use graph_defs::{Kept, TextKind};
use leda_base::{ItemName, NoMemory, Row};

/// Why a line was refused.
#[derive(Drop)]
pub enum Refusal {
    /// The line has more than 65,536 bytes.
    LongLine,
    /// The line is no command: the column, from 1, of the first byte at fault.
    Syntax(u32),
    /// A number is out of range: the column, from 1, at which it begins.
    Number(u32),
    /// No object of a kind that the command takes has the name, or the item's container is of
    /// another kind.
    Object(ObjectName),
    /// No item of this name was ever made.
    Unknown(ItemName),
    /// The item is no longer there.
    Dead(ItemName),
    /// The item isn't visible.
    Hidden(ItemName),
    /// The item isn't hidden.
    NotHidden(ItemName),
    /// The graph is undirected.
    Undirected,
    /// An object has the name already.
    Taken(Row<u8>),
    /// The array was made before the item.
    Covered(ItemName),
    /// The item's label is no number.
    Label(ItemName),
    /// The edges don't run between the same nodes in opposite directions.
    Opposite,
    /// The edge has no reversal.
    Reversal(u32),
    /// The new priority is above the present one, which is this.
    Larger(i64),
    /// The source and the sink are one node.
    Same,
    /// The edge has a negative cost or capacity.
    Negative(u32),
    /// The edge has a lower bound above its upper one.
    Crossed(u32),
    /// The supplies don't add up to 0 but to this.
    Unbalanced(i128),
    /// The node has both an entering and a leaving edge.
    Mixed(u32),
    /// The graph has as many nodes as it may have.
    FullNodes,
    /// The graph has as many edges as it may have.
    FullEdges,
    /// The containers have as many items as they may have.
    FullItems,
    /// There are as many objects as there may be.
    FullObjects,
    /// All numbers of items of the sort were given.
    Spent,
    /// The graph is too large for the query.
    Size,
    /// A sum of weights is too large for the query.
    Bound,
    /// No file has the name.
    Absent,
    /// The file is too long.
    Big,
    /// The text of a file is no graph: what is wrong, and in which line, from 1.
    File(TextKind, u32),
    /// The store of files failed.
    Store,
    /// Memory was wanted and not there.
    Memory,
}

impl From<NoMemory> for Refusal {
    ghost use Rattle.std.specs.Prelude.{◌≡◌};
    ghost use Rattle.reply_text.specs.declared.refusal.Refusal.TheVariants as refusals;

    ghost from_gives = { λ _ refusal. refusal ≡ refusals.Memory };

    fn from(_: NoMemory) -> Refusal {
        Refusal::Memory
    }
}

/// What a refusal calls an object by.
#[derive(Drop)]
pub enum ObjectName {
    Name(Row<u8>),
    /// An item of a container of another kind.
    Cell(u32),
    /// The sort of answers of which none is kept.
    Kept(Kept),
}

/// What a refusal is about.
#[derive(Clone, Copy)]
pub(crate) enum Subject<'a> {
    Nothing,
    Word(&'a [u8]),
    Item(ItemName),
    Number(i128),
    /// What is wrong with a text, and in which line.
    Text(TextKind, u32),
}

impl Refusal {
    /// The word that says why.
    pub(crate) fn reason(&self) -> &'static [u8]
        ensures word { result.now ≡ reason self.now }
        ensures short { length result.now ≤ 10 }
    {
        match self {
            Refusal::LongLine => b"line",
            Refusal::Syntax(_) => b"syntax",
            Refusal::Number(_) => b"number",
            Refusal::Object(_) => b"object",
            Refusal::Unknown(_) => b"unknown",
            Refusal::Dead(_) => b"dead",
            Refusal::Hidden(_) => b"hidden",
            Refusal::NotHidden(_) => b"not_hidden",
            Refusal::Undirected => b"undirected",
            Refusal::Taken(_) => b"taken",
            Refusal::Covered(_) => b"covered",
            Refusal::Label(_) => b"label",
            Refusal::Opposite => b"opposite",
            Refusal::Reversal(_) => b"reversal",
            Refusal::Larger(_) => b"larger",
            Refusal::Same => b"same",
            Refusal::Negative(_) => b"negative",
            Refusal::Crossed(_) => b"crossed",
            Refusal::Unbalanced(_) => b"unbalanced",
            Refusal::Mixed(_) => b"mixed",
            Refusal::FullNodes | Refusal::FullEdges | Refusal::FullItems | Refusal::FullObjects =>
                b"full",
            Refusal::Spent => b"spent",
            Refusal::Size => b"size",
            Refusal::Bound => b"bound",
            Refusal::Absent => b"absent",
            Refusal::Big => b"big",
            Refusal::File(..) => b"file",
            Refusal::Store => b"store",
            Refusal::Memory => b"memory",
        }
    }

    /// What the refusal is about.
    pub(crate) fn subject(&self) -> Subject<'_>
        requires { IsRefusalNamed self.now }
        ensures words { subject_words result ≡ subject self.now }
        ensures short { IsSubjectShort result }
    {
        match self {
            Refusal::Syntax(column) => Subject::Number(i128::from(*column)),
            Refusal::Number(column) => Subject::Number(i128::from(*column)),
            Refusal::Object(ObjectName::Name(name)) => Subject::Word(name.as_slice()),
            Refusal::Object(ObjectName::Cell(number)) => Subject::Item(ItemName::Cell(*number)),
            Refusal::Object(ObjectName::Kept(kept)) => Subject::Word(kept.word()),
            Refusal::Unknown(name) => Subject::Item(*name),
            Refusal::Dead(name) => Subject::Item(*name),
            Refusal::Hidden(name) => Subject::Item(*name),
            Refusal::NotHidden(name) => Subject::Item(*name),
            Refusal::Taken(name) => Subject::Word(name.as_slice()),
            Refusal::Covered(name) => Subject::Item(*name),
            Refusal::Label(name) => Subject::Item(*name),
            Refusal::Reversal(edge) => Subject::Item(ItemName::Edge(*edge)),
            Refusal::Larger(priority) => Subject::Number(i128::from(*priority)),
            Refusal::Negative(edge) => Subject::Item(ItemName::Edge(*edge)),
            Refusal::Crossed(edge) => Subject::Item(ItemName::Edge(*edge)),
            Refusal::Unbalanced(sum) => Subject::Number(*sum),
            Refusal::Mixed(node) => Subject::Item(ItemName::Node(*node)),
            Refusal::FullNodes => Subject::Word(b"nodes"),
            Refusal::FullEdges => Subject::Word(b"edges"),
            Refusal::FullItems => Subject::Word(b"items"),
            Refusal::FullObjects => Subject::Word(b"objects"),
            Refusal::File(kind, line) => Subject::Text(*kind, *line),
            _ => Subject::Nothing,
        }
    }
}
