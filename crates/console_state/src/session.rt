//! A session: its state, and the commands on it.
ghost use Rattle.std.specs.Prelude.{◌≡◌, ◌⊎◌, Some, None, true, [], ◌∷◌, IfOk, OnErr};
ghost use Rattle.leda_edge.specs.Stored.{stored, StaysStored};
ghost use Rattle.script_text.specs.declared.word.Word.TheVariants as words;
ghost use Rattle.script_text.specs.Table.{forms_of, may_lack_memory, IsWhole};
ghost use Rattle.object_store.specs.Met.{AreMet as ObjectsAreMet};
ghost use Rattle.object_store.specs.Served.{AreLive};
ghost use Rattle.object_store.specs.Values.{ValuesDone};
ghost use Rattle.reply_text.specs.Text.{IsNamed, IsShort};
ghost use Rattle.reply_text.specs.Outcome.{LacksMemory, IsQuiet};
ghost use Rattle.console_state.specs.State.{empty};
ghost use Rattle.console_state.specs.Views.{standing, stands, has_object, holds_cell, is_directed};
ghost use Rattle.console_state.specs.Clear.{AreMet, IsOfKind};
ghost use Rattle.console_state.specs.Obstacles.{refusal_of, HasName};
ghost use Rattle.console_state.specs.Keeping.{IsToKeep};
ghost use Rattle.console_state.specs.Refused.{standing_of};
ghost use Rattle.console_state.specs.Step.{edited, looked, objects_changed, with_kept, Step, IsQuietStep};

use crate::graph::edit;
use crate::look::look;
use crate::order::{Obstacle, Standing};
use graph_core::{Gone, Graph, Kind};
use hide_restore::Shown;
use kept_answers::KeptAnswers;
use leda_base::{ItemName, NoMemory, Row};
use leda_edge::Store;
use object_store::Objects;
use reply_text::{ObjectName, Refusal, Reply};
use script_text::{Arg, Command, EditWord, Kinds, LookWord, ObjectWord, ValueWord, Word};
use std::alloc::Global;
use std::marker::Model;

/// The state of a session.
#[derive(Drop)]
pub struct Session {
    pub(crate) alloc: Global,
    pub(crate) graph: Graph,
    pub(crate) objects: Objects,
    pub(crate) kept: KeptAnswers,
    /// The net of the visible graph, from a query to the next edit.
    pub(crate) shown: Option<Shown>,
}

impl Model for Session {
    ghost use Rattle.console_state.specs.State.{State, session_code};
    ghost use Rattle.console_state.specs.Shown.{IsSound};

    ghost Value = { State };

    ghost coded = { session_code };

    ghost view = { λ a. record { graph = a.graph; objects = a.objects; kept = a.kept } };

    ghost invariant = { λ a. IsSound a.graph a.objects a.shown };
}

impl Session {
    /// A session with an empty directed graph, no objects, and nothing kept. It takes no memory.
    pub fn new(alloc: Global) -> Session
        ensures { result ≡ empty }
    {
        Session {
            alloc,
            graph: Graph::new(alloc, Kind::Directed),
            objects: Objects::new(alloc),
            kept: KeptAnswers {
                sp: None,
                flow: None,
                matching: None,
            },
            shown: None,
        }
    }

    /// Runs one command, which has the arguments that its word takes.
    ///
    /// A refusal leaves the session and the files as they were. Behind it `keep` makes the
    /// command's step whole.
    pub fn apply<F: Store>(&mut self, command: &Command, files: &mut F) -> Reply
        requires { IsWhole command.now }
        ensures step { Step self.old (stored (F.files files.old) (F.faults files.old))
            command.now result (with_kept command.now result self.new)
            (stored (F.files files.new) (F.faults files.new)) }
        ensures store { StaysStored (stored (F.files files.old) (F.faults files.old))
            (stored (F.files files.new) (F.faults files.new)) }
        // What the reply numbers has a name.
        ensures named { IsNamed result }
        // What is to be kept can be.
        ensures keepable { IsToKeep command.now result }
        // A reply of any length may be want of memory in its place, since nothing has changed.
        ensures quiet { IsQuietStep self.old (stored (F.files files.old) (F.faults files.old))
            command.now result self.new (stored (F.files files.new) (F.faults files.new)) }
    {
        if let Some(obstacle) = self.first_obstacle(
            command.word(),
            command.forms(),
            command.args(),
        ) {
            return Reply::Refused(self.refusal_of(obstacle).unwrap_or(Refusal::Memory));
        }
        match command.word() {
            Word::Edit(word) => self.edit(word, command.args()),
            Word::Look(word) => self.look(word, command.args()),
            Word::File(word) => self.exchange(word, command.args(), files),
            Word::Object(word) => self.change_objects(word, command.args()),
            Word::Value(word) => self.change_values(word, command.args()),
            Word::Query(word) => self.query(word, command.args()),
        }
    }

    /// An edit that nothing stands in the way of.
    fn edit(&mut self, word: EditWord, args: &[Arg]) -> Reply
        requires whole { IsWhole (record { word = Word.Edit word; args = args.now }) }
        requires met { AreMet self.old.graph (forms_of (Word.Edit word)) args.now }
        ensures does { LacksMemory (may_lack_memory (Word.Edit word)) self.old result self.new
            ⊎ (edited word args.now self.old ≡ Some (self.new, result)) }
        ensures named { IsNamed result }
        ensures short { IsShort result }
    {
        self.shown = None;
        edit(self.alloc, &mut self.graph, word, args)
    }

    /// The reply to a look that nothing stands in the way of.
    fn look(&self, word: LookWord, args: &[Arg]) -> Reply
        requires whole { IsWhole (record { word = Word.Look word; args = args.now }) }
        requires met { AreMet self.now.graph (forms_of (Word.Look word)) args.now }
        requires kind { IsOfKind self.now.graph (Word.Look word) }
        ensures does { LacksMemory (may_lack_memory (Word.Look word)) self.now result self.now
            ⊎ (looked word args.now self.now ≡ Some (self.now, result)) }
        ensures named { IsNamed result }
        ensures quiet { IsQuiet (may_lack_memory (Word.Look word)) self.now result self.now }
    {
        match look(self.alloc, &self.graph, word, args) {
            Ok(line) => Reply::Line(line),
            Err(refusal) => Reply::Refused(refusal),
        }
    }

    /// A command on objects that nothing stands in the way of.
    fn change_objects(&mut self, word: ObjectWord, args: &[Arg]) -> Reply
        requires whole { IsWhole (record { word = Word.Object word; args = args.now }) }
        requires met { ObjectsAreMet self.old.objects (forms_of (Word.Object word)) args.now }
        ensures does { LacksMemory (may_lack_memory (Word.Object word)) self.old result self.new
            ⊎ (objects_changed word args.now self.old ≡ Some (self.new, result)) }
        ensures named { IsNamed result }
        ensures quiet { IsQuiet (may_lack_memory (Word.Object word)) self.old result self.new }
    {
        self.objects.apply(word, args)
    }

    /// A command on arrays and maps that nothing stands in the way of.
    fn change_values(&mut self, word: ValueWord, args: &[Arg]) -> Reply
        requires whole { IsWhole (record { word = Word.Value word; args = args.now }) }
        requires met { ObjectsAreMet self.old.objects (forms_of (Word.Value word)) args.now }
        requires live { AreLive self.old.graph args.now }
        ensures does { LacksMemory (may_lack_memory (Word.Value word)) self.old result self.new
            ⊎ ValuesDone word args.now self.old.graph self.old.objects result self.new.objects }
        ensures graph { self.new.graph ≡ self.old.graph }
        ensures kept { self.new.kept ≡ self.old.kept }
        ensures named { IsNamed result }
        ensures short { IsShort result }
    {
        self.objects.apply_table(&self.graph, word, args)
    }

    /// The refusal that tells what stands in a command's way.
    ///
    /// # Errors
    /// `NoMemory`, only where the refusal has a name.
    fn refusal_of(&self, obstacle: Obstacle<'_>) -> Result<Refusal, NoMemory>
        ensures ok { IfOk result (λ refusal. refusal ≡ refusal_of obstacle.entry) }
        ensures err { OnErr result (HasName obstacle.entry) }
    {
        match obstacle {
            Obstacle::Absent(name) => {
                let name = Row::from_slice(self.alloc, name)?;
                Ok(Refusal::Object(ObjectName::Name(name)))
            }
            Obstacle::Unknown(item) => Ok(Refusal::Unknown(item)),
            Obstacle::Dead(item) => Ok(Refusal::Dead(item)),
            Obstacle::Stray(number) => Ok(Refusal::Object(ObjectName::Cell(number))),
            Obstacle::Hidden(item) => Ok(Refusal::Hidden(item)),
            Obstacle::Undirected => Ok(Refusal::Undirected),
            Obstacle::Taken(name) => Ok(Refusal::Taken(Row::from_slice(self.alloc, name)?)),
        }
    }

    /// How an item stands.
    pub(crate) fn standing(&self, item: ItemName) -> Standing
        ensures { result ≡ standing self.now item }
    {
        match item {
            ItemName::Node(number) => match self.graph.node_item(number) {
                Ok(_) => seen_if(!self.graph.is_hidden(item)),
                Err(why) => gone(why),
            },
            ItemName::Edge(number) => match self.graph.edge_item(number) {
                Ok(edge) => seen_if(self.graph.source(edge).is_ok()),
                Err(why) => gone(why),
            },
            ItemName::Cell(number) => match self.objects.find_cell(number) {
                Ok(()) => Standing::Visible,
                Err(why) => gone(why),
            },
        }
    }

    /// Whether an object of these kinds has the name.
    pub(crate) fn has_object(&self, kinds: Kinds, name: &[u8]) -> bool
        ensures { result ≡ has_object self.now kinds name.now }
    {
        self.objects.has_object(kinds, name)
    }

    /// Whether the item is one of a container of these kinds.
    pub(crate) fn holds_cell(&self, kinds: Kinds, number: u32) -> bool
        ensures { result ≡ holds_cell self.now kinds number }
    {
        self.objects.holds_cell(kinds, number)
    }

    pub(crate) fn is_directed(&self) -> bool
        ensures { result ≡ is_directed self.now }
    {
        self.graph.kind() == Kind::Directed
    }
}

/// How an item stands that is there.
fn seen_if(shows: bool) -> Standing
    ensures { result ≡ stands true shows true }
{
    if shows {
        Standing::Visible
    } else {
        Standing::Hidden
    }
}

/// How an item stands that isn't there.
fn gone(why: Gone) -> Standing
    ensures { result ≡ standing_of why }
{
    match why {
        Gone::Dead => Standing::Dead,
        Gone::Unknown => Standing::Unknown,
    }
}
