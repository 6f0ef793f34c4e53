//! What stands in the way of a command, by the forms of its arguments, in one order for all.
ghost use Rattle.std.specs.Prelude.{◌≡◌, List, None, option_map, IfSome};
ghost use Rattle.std.specs.Bool.{OnTrue};
ghost use Rattle.std.specs.List.{AllZip};
ghost use Rattle.script_text.specs.declared.argument.Arg.{Arg as TheArg};
ghost use Rattle.script_text.specs.declared.argument.Arg.TheVariants as args;
ghost use Rattle.script_text.specs.Form.{keeps_bytes, IsOfForm};
ghost use Rattle.script_text.specs.Table.{keeps_any};
ghost use Rattle.object_store.specs.Met.{asked};
ghost use Rattle.console_state.specs.Order.{item_of as the_item, absent_object, gone_item, stray_cell, asks_visible, hidden_item, taken_name, refusal_by, leftmost, asks_directed, wrong_kind, refusal_among};
ghost use Rattle.console_state.specs.Views.{standing};
ghost use Rattle.console_state.specs.Clear.{StandsFor, IsClear, AreClear};
ghost use Rattle.console_state.specs.Obstacles.{refusal_of, IsNameOf};

use crate::session::Session;
use leda_base::ItemName;
use script_text::{Arg, Form, Kinds, LookWord, QueryWord, Sight, Word};

/// How an item stands.
#[derive(Clone, Copy, Debug, PartialEq, Eq)]
pub(crate) enum Standing {
    /// No item of the name was ever made.
    Unknown,
    /// It was deleted.
    Dead,
    Hidden,
    Visible,
}

/// By what an argument is refused, in the order in which that is looked for.
#[derive(Clone, Copy, Debug, PartialEq, Eq)]
pub(crate) enum Rule {
    /// No object of the kinds that are asked for has the name.
    Absent,
    /// The item is unknown or dead.
    Gone,
    /// The item is one of a container of another kind.
    Stray,
    /// The item has to be visible, and is hidden.
    Hidden,
    /// An object has the name that a new one is to get.
    Taken,
}

/// What stands in the way of a command.
#[derive(Clone, Copy)]
pub(crate) enum Obstacle<'a> {
    Absent(&'a [u8]),
    Unknown(ItemName),
    Dead(ItemName),
    Stray(u32),
    Hidden(ItemName),
    Undirected,
    Taken(&'a [u8]),
}

impl Session {
    /// What comes first in the way of a command, before the conditions that it has of its own.
    pub(crate) fn first_obstacle<'a>(
        &self,
        word: Word,
        forms: &[Form],
        args: &'a [Arg],
    ) -> Option<Obstacle<'a>>
        requires { AllZip IsOfForm args.now forms.now }
        ensures first { option_map refusal_of result
            ≡ refusal_among self.now word forms.now args.now }
        ensures names { IfSome result (IsNameOf (keeps_any forms.now)) }
    {
        if self.is_free(word, forms, args) {
            None
        } else {
            self.search_obstacle(word, forms, args)
        }
    }

    /// Whether one look at each argument shows that nothing is in the way of the command.
    fn is_free(&self, word: Word, forms: &[Form], args: &[Arg]) -> bool
        ensures { OnTrue result (refusal_among self.now word forms.now args.now ≡ None) }
    {
        self.wrong_kind(word).is_none() && self.are_clear(forms, args)
    }

    /// Whether one look at each of the arguments shows that no rule refuses any of them.
    fn are_clear(&self, forms: &[Form], args: &[Arg]) -> bool
        ensures { OnTrue result (AreClear self.now forms.now args.now) }
    {
        match (forms, args) {
            ([form, forms @ ..], [arg, later @ ..]) => {
                self.is_clear(*form, arg, later) && self.are_clear(forms, later)
            }
            _ => true,
        }
    }

    /// Whether one look at the argument, which comes before others, shows that no rule refuses
    /// anything of it.
    fn is_clear(&self, form: Form, arg: &Arg, later: &[Arg]) -> bool
        ensures { OnTrue result (IsClear self.now form arg.now later.now) }
    {
        match arg {
            Arg::Node(number) => self.stands_so(form, ItemName::Node(*number)),
            Arg::Edge(number) => self.stands_so(form, ItemName::Edge(*number)),
            Arg::Cell(number) => self.is_held(form, *number),
            Arg::Name(name) => self.is_named_so(form, name.as_slice(), later),
            Arg::Num(_)
            | Arg::Label(_)
            | Arg::Labels
            | Arg::File(_)
            | Arg::Mode(_)
            | Arg::Kept(_) => true,
        }
    }

    /// Whether the item is one of a container as the form asks. It is then there, and visible.
    fn is_held(&self, form: Form, number: u32) -> bool
        ensures { (later : List TheArg)
            → OnTrue result (IsClear self.now form (args.Cell number) later) }
    {
        match form {
            Form::Cell(kinds) => self.holds_cell(kinds, number),
            _ => false,
        }
    }

    /// Whether an object of the kinds that are asked for has the name, or none has it where it is
    /// to be new.
    fn is_named_so(&self, form: Form, name: &[u8], later: &[Arg]) -> bool
        ensures { OnTrue result (IsClear self.now form (args.Name name.now) later.now) }
    {
        match form {
            Form::Object(kinds) => self.has_object(asked(kinds, later), name),
            Form::NewName => !self.has_object(Kinds::Any, name),
            _ => true,
        }
    }

    /// Whether the item stands as the form asks.
    fn stands_so(&self, form: Form, item: ItemName) -> bool
        ensures { OnTrue result (StandsFor form (standing self.now item)) }
    {
        match self.standing(item) {
            Standing::Visible => true,
            Standing::Hidden => !asks_visible(form),
            Standing::Unknown | Standing::Dead => false,
        }
    }

    /// What comes first in the way of a command, by one rule after the other.
    fn search_obstacle<'a>(
        &self,
        word: Word,
        forms: &[Form],
        args: &'a [Arg],
    ) -> Option<Obstacle<'a>>
        requires { AllZip IsOfForm args.now forms.now }
        ensures first { option_map refusal_of result
            ≡ refusal_among self.now word forms.now args.now }
        ensures names { IfSome result (IsNameOf (keeps_any forms.now)) }
    {
        let absent = self.leftmost(Rule::Absent, forms, args);
        let gone = self.leftmost(Rule::Gone, forms, args);
        let stray = self.leftmost(Rule::Stray, forms, args);
        let hidden = self.leftmost(Rule::Hidden, forms, args);
        let kind = self.wrong_kind(word);
        let taken = self.leftmost(Rule::Taken, forms, args);
        absent.or(gone).or(stray).or(hidden).or(kind).or(taken)
    }

    /// What a rule finds at the leftmost argument at which it finds something.
    fn leftmost<'a>(&self, rule: Rule, forms: &[Form], args: &'a [Arg]) -> Option<Obstacle<'a>>
        requires { AllZip IsOfForm args.now forms.now }
        ensures first { option_map refusal_of result ≡ leftmost self.now rule forms.now args.now }
        ensures names { IfSome result (IsNameOf (keeps_any forms.now)) }
    {
        match (forms, args) {
            ([form, forms @ ..], [arg, later @ ..]) => {
                match self.obstacle_by(rule, *form, arg, later) {
                    Some(obstacle) => Some(obstacle),
                    None => self.leftmost(rule, forms, later),
                }
            }
            _ => None,
        }
    }

    /// What a rule finds at an argument, which comes before others.
    fn obstacle_by<'a>(
        &self,
        rule: Rule,
        form: Form,
        arg: &'a Arg,
        later: &[Arg],
    ) -> Option<Obstacle<'a>>
        requires { IsOfForm arg.now form }
        ensures first { option_map refusal_of result
            ≡ refusal_by self.now rule form arg.now later.now }
        ensures names { IfSome result (IsNameOf (keeps_bytes form)) }
    {
        match rule {
            Rule::Absent => self.absent_object(form, arg, later),
            Rule::Gone => self.gone_item(arg),
            Rule::Stray => self.stray_cell(form, arg),
            Rule::Hidden => self.hidden_item(form, arg),
            Rule::Taken => self.taken_name(form, arg),
        }
    }

    fn absent_object<'a>(&self, form: Form, arg: &'a Arg, later: &[Arg]) -> Option<Obstacle<'a>>
        requires { IsOfForm arg.now form }
        ensures first { option_map refusal_of result
            ≡ absent_object self.now form arg.now later.now }
        ensures names { IfSome result (IsNameOf (keeps_bytes form)) }
    {
        match (form, arg) {
            (Form::Object(kinds), Arg::Name(name)) => {
                let name = name.as_slice();
                (!self.has_object(asked(kinds, later), name)).then_some(Obstacle::Absent(name))
            }
            _ => None,
        }
    }

    fn gone_item(&self, arg: &Arg) -> Option<Obstacle<'static>>
        ensures { option_map refusal_of result ≡ gone_item self.now arg.now }
    {
        let item = item_of(arg)?;
        match self.standing(item) {
            Standing::Unknown => Some(Obstacle::Unknown(item)),
            Standing::Dead => Some(Obstacle::Dead(item)),
            Standing::Hidden | Standing::Visible => None,
        }
    }

    fn stray_cell(&self, form: Form, arg: &Arg) -> Option<Obstacle<'static>>
        ensures { option_map refusal_of result ≡ stray_cell self.now form arg.now }
    {
        match (form, arg) {
            (Form::Cell(kinds), Arg::Cell(number)) => {
                (!self.holds_cell(kinds, *number)).then_some(Obstacle::Stray(*number))
            }
            _ => None,
        }
    }

    fn hidden_item(&self, form: Form, arg: &Arg) -> Option<Obstacle<'static>>
        ensures { option_map refusal_of result ≡ hidden_item self.now form arg.now }
    {
        if !asks_visible(form) {
            return None;
        }
        let item = item_of(arg)?;
        (self.standing(item) == Standing::Hidden).then_some(Obstacle::Hidden(item))
    }

    fn taken_name<'a>(&self, form: Form, arg: &'a Arg) -> Option<Obstacle<'a>>
        requires { IsOfForm arg.now form }
        ensures first { option_map refusal_of result ≡ taken_name self.now form arg.now }
        ensures names { IfSome result (IsNameOf (keeps_bytes form)) }
    {
        match (form, arg) {
            (Form::NewName, Arg::Name(name)) => {
                let name = name.as_slice();
                self.has_object(Kinds::Any, name)
                    .then_some(Obstacle::Taken(name))
            }
            _ => None,
        }
    }

    fn wrong_kind(&self, word: Word) -> Option<Obstacle<'static>>
        ensures { option_map refusal_of result ≡ wrong_kind self.now word }
    {
        (asks_directed(word) && !self.is_directed()).then_some(Obstacle::Undirected)
    }
}

/// The kinds that are asked for: where these are those of values of the next argument, by what that
/// is.
fn asked(kinds: Kinds, later: &[Arg]) -> Kinds
    ensures { result ≡ asked kinds later.now }
{
    match (kinds, later) {
        (Kinds::ElementValues, [Arg::Node(_), ..]) => Kinds::NodeValues,
        (Kinds::ElementValues, [Arg::Edge(_), ..]) => Kinds::EdgeValues,
        _ => kinds,
    }
}

/// The item that an argument names.
fn item_of(arg: &Arg) -> Option<ItemName>
    ensures { result ≡ the_item arg.now }
{
    match arg {
        Arg::Node(number) => Some(ItemName::Node(*number)),
        Arg::Edge(number) => Some(ItemName::Edge(*number)),
        Arg::Cell(number) => Some(ItemName::Cell(*number)),
        _ => None,
    }
}

fn asks_visible(form: Form) -> bool
    ensures { result ≡ asks_visible form }
{
    matches!(
        form,
        Form::Node(Sight::Visible) | Form::Edge(Sight::Visible) | Form::Element(Sight::Visible)
    )
}

fn asks_directed(word: Word) -> bool
    ensures { result ≡ asks_directed word }
{
    match word {
        Word::Look(LookWord::InEdges | LookWord::FaceSucc)
        | Word::Query(
            QueryWord::Reach | QueryWord::Sp | QueryWord::Dijkstra | QueryWord::Maxflow,
        ) => true,
        Word::Edit(_)
        | Word::Look(_)
        | Word::File(_)
        | Word::Object(_)
        | Word::Value(_)
        | Word::Query(QueryWord::Matching | QueryWord::Check) => false,
    }
}
