//! The forms of arguments, and how a token is read as an argument.
ghost use Rattle.std.specs.Prelude.{◌≡◌, ok_or};
ghost use Rattle.script_text.specs.declared.argument.Misfit.TheVariants as misfits;
ghost use Rattle.script_text.specs.Borrowed.{read_seen, token_seen};
ghost use Rattle.script_text.specs.Form.{read_arg as the_arg, number_arg, left_out as the_left_out, takes_rest as the_rest};
ghost use Rattle.leda_base.specs.Decimal.{integer_of};

use crate::argument::{ArgRef, Misfit};
use crate::text::{is_file, is_name, label_of, mode_of, read_item, sort_of};
use crate::token::Token;
use leda_base::{NumFault, read_i64};

/// What a node or an edge that is named has to be.
#[derive(Clone, Copy, Debug, PartialEq, Eq)]
pub enum Sight {
    /// Live, and not hidden.
    Visible,
    /// Live; it may be hidden.
    Live,
}

/// Which objects a command takes, named by themselves or by one of their items.
#[derive(Clone, Copy, Debug, PartialEq, Eq)]
pub enum Kinds {
    List,
    Dict,
    Queue,
    ListOrDict,
    DictOrQueue,
    /// A list, a dictionary or a queue.
    Container,
    /// An array or a map of nodes.
    NodeValues,
    /// An array or a map of edges.
    EdgeValues,
    /// An array or a map of the sort of the node or edge that is named next.
    ElementValues,
    Any,
}

/// What a command asks of an argument.
#[derive(Clone, Copy, Debug, PartialEq, Eq)]
pub enum Form {
    /// The name of a node: `n`, and then its number.
    Node(Sight),
    /// The name of an edge: `e`, and then its number.
    Edge(Sight),
    /// The name of a node or of an edge.
    Element(Sight),
    /// The name of an item of a container of these kinds: `i`, and then its number.
    Cell(Kinds),
    /// The name of an object of these kinds.
    Object(Kinds),
    /// A name for a new object.
    NewName,
    /// A number of 64 bits.
    Num,
    /// A number of 64 bits, or the word `labels`.
    NumOrLabels,
    /// A label between `|{` and `}|`, which is all that is left of the line.
    Label,
    /// A label that may be left out, and is then empty.
    OptionalLabel,
    /// The name of a file.
    File,
    Mode,
    Kept,
}

impl Form {
    /// Whether an argument of the form is all that is left of the line.
    pub(crate) fn takes_rest(self) -> bool
        ensures { result ≡ the_rest self }
    {
        matches!(self, Form::Label | Form::OptionalLabel)
    }
}

/// The argument of this form that a token is.
pub(crate) fn read_arg<'a>(form: Form, token: Token<'a>) -> Result<ArgRef<'a>, Misfit>
    ensures { read_seen result ≡ the_arg form (token_seen token.entry) }
{
    let Token { bytes, tail, .. } = token;
    match form {
        Form::Node(_) => Ok(ArgRef::Node(found(read_item(b'n', bytes))?)),
        Form::Edge(_) => Ok(ArgRef::Edge(found(read_item(b'e', bytes))?)),
        Form::Element(_) => match read_item(b'n', bytes) {
            Some(number) => Ok(ArgRef::Node(number)),
            None => Ok(ArgRef::Edge(found(read_item(b'e', bytes))?)),
        },
        Form::Cell(_) => Ok(ArgRef::Cell(found(read_item(b'i', bytes))?)),
        Form::Object(_) | Form::NewName if is_name(bytes) => Ok(ArgRef::Name(bytes)),
        Form::Num => read_number(bytes),
        Form::NumOrLabels if bytes == b"labels".as_slice() => Ok(ArgRef::Labels),
        Form::NumOrLabels => read_number(bytes),
        Form::Label | Form::OptionalLabel => Ok(ArgRef::Label(found(label_of(tail))?)),
        Form::File if is_file(bytes) => Ok(ArgRef::File(bytes)),
        Form::Mode => Ok(ArgRef::Mode(found(mode_of(bytes))?)),
        Form::Kept => Ok(ArgRef::Kept(found(sort_of(bytes))?)),
        Form::Object(_) | Form::NewName | Form::File => Err(Misfit::OtherForm),
    }
}

/// The argument of this form where the line has no token for it.
pub(crate) fn left_out(form: Form) -> Result<ArgRef<'static>, Misfit>
    ensures { read_seen result ≡ the_left_out form }
{
    match form {
        Form::OptionalLabel => Ok(ArgRef::Label(&[])),
        _ => Err(Misfit::OtherForm),
    }
}

fn found<T>(part: Option<T>) -> Result<T, Misfit>
    ensures { result ≡ ok_or part misfits.OtherForm }
{
    part.ok_or(Misfit::OtherForm)
}

fn read_number(bytes: &[u8]) -> Result<ArgRef<'static>, Misfit>
    ensures { read_seen result ≡ number_arg (integer_of bytes.now) }
{
    match read_i64(bytes) {
        Ok(value) => Ok(ArgRef::Num(value)),
        Err(NumFault::NotNumber) => Err(Misfit::OtherForm),
        Err(NumFault::OutOfRange) => Err(Misfit::OutOfRange),
    }
}
