//! Commands that load the graph from a file, or save it to one.
ghost use Rattle.std.specs.Prelude.{◌≡◌, ◌⊎◌, ◌≤◌, length, IsTrue, IfOk};
ghost use Rattle.graph_defs.specs.Plain.{IsPlainGraph};
ghost use Rattle.graph_text.specs.Written.{text_of};
ghost use Rattle.hide_restore.specs.Canon.{plain_of};
ghost use Rattle.leda_edge.specs.Stored.{stored, StaysStored};
ghost use Rattle.script_text.specs.declared.word.Word.TheVariants as words;
ghost use Rattle.script_text.specs.Table.{IsWhole};
ghost use Rattle.script_text.specs.Text.{is_file};
ghost use Rattle.reply_text.specs.Text.{IsNamed, IsShort};
ghost use Rattle.console_state.specs.Files.{with_plain, ReadsText, WantsMemory, Loads, SavesTo, Exchanges};
ghost use Rattle.console_state.specs.Refused.{load_refusal};

use crate::session::Session;
use graph_core::EditRefusal;
use graph_defs::PlainGraph;
use graph_text::{TEXT_LIMIT, TextRefusal, read, write};
use hide_restore::plain;
use leda_base::NoMemory;
use leda_edge::{LoadFault, SaveFault, Store};
use reply_text::{Refusal, Reply, ReplyLine};
use script_text::{Arg, FileWord};

impl Session {
    /// A command on a file that nothing stands in the way of.
    pub(crate) fn exchange<F: Store>(
        &mut self,
        word: FileWord,
        args: &[Arg],
        files: &mut F,
    ) -> Reply
        requires whole { IsWhole (record { word = words.File word; args = args.now }) }
        ensures does { Exchanges word args.now
            self.old (stored (F.files files.old) (F.faults files.old)) result
            self.new (stored (F.files files.new) (F.faults files.new)) }
        ensures store { StaysStored (stored (F.files files.old) (F.faults files.old))
            (stored (F.files files.new) (F.faults files.new)) }
        ensures named { IsNamed result }
        ensures short { IsShort result }
    {
        let [Arg::File(name)] = args else {
            // A whole command has the argument above.
            unreachable!()
        };
        match word {
            FileWord::Load => self.load(text_of_name(name.as_slice()), files),
            FileWord::Save => self.save(text_of_name(name.as_slice()), files),
        }
    }

    /// The graph of a file takes the place of the session's.
    fn load<F: Store>(&mut self, name: &str, files: &mut F) -> Reply
        ensures does { Loads name.now
            self.old (stored (F.files files.old) (F.faults files.old)) result
            self.new (stored (F.files files.new) (F.faults files.new)) }
        ensures store { StaysStored (stored (F.files files.old) (F.faults files.old))
            (stored (F.files files.new) (F.faults files.new)) }
        ensures named { IsNamed result }
        ensures short { IsShort result }
    {
        match files.load(self.alloc, name, TEXT_LIMIT) {
            Ok(text) => self.read_text(text.as_slice()),
            Err(fault) => Reply::Refused(load_refusal(fault)),
        }
    }

    /// The visible graph is saved to a file.
    fn save<F: Store>(&self, name: &str, files: &mut F) -> Reply
        ensures does { SavesTo name.now
            self.now (stored (F.files files.old) (F.faults files.old)) result
            self.now (stored (F.files files.new) (F.faults files.new)) }
        ensures store { StaysStored (stored (F.files files.old) (F.faults files.old))
            (stored (F.files files.new) (F.faults files.new)) }
        ensures named { IsNamed result }
        ensures short { IsShort result }
    {
        let Ok(text) = self.text() else {
            return Reply::Refused(Refusal::Memory);
        };
        match files.save(self.alloc, name, text.as_slice()) {
            Ok(()) => {
                Reply::Line(ReplyLine::Two(self.graph.count_nodes(), self.graph.count_edges()))
            }
            Err(SaveFault::Failed) => Reply::Refused(Refusal::Store),
            Err(SaveFault::NoMemory) => Reply::Refused(Refusal::Memory),
        }
    }

    /// The text of the visible graph.
    ///
    /// # Errors
    /// `NoMemory` where there is no memory for it.
    fn text(&self) -> Result<Vec<u8>, NoMemory>
        ensures { IfOk result (λ text. text.items ≡ text_of (plain_of self.now.graph)) }
    {
        write(self.alloc, &plain(self.alloc, &self.graph)?)
    }

    /// The graph that a text stands for takes the place of the session's.
    fn read_text(&mut self, text: &[u8]) -> Reply
        requires { length text.now ≤ TEXT_LIMIT }
        ensures does { ReadsText text.now self.old (self.new, result) }
        ensures named { IsNamed result }
        ensures short { IsShort result }
    {
        match read(self.alloc, text) {
            Ok(plain) => self.replace(plain),
            Err(TextRefusal::At(kind, line)) => Reply::Refused(Refusal::File(kind, line)),
            Err(TextRefusal::NoMemory) => Reply::Refused(Refusal::Memory),
        }
    }

    /// A plain graph takes the place of the session's graph.
    fn replace(&mut self, plain: PlainGraph) -> Reply
        requires { IsPlainGraph plain }
        ensures does { ((self.new, result) ≡ with_plain plain self.old)
            ⊎ WantsMemory self.old (self.new, result) }
        ensures named { IsNamed result }
        ensures short { IsShort result }
    {
        let nodes = plain.nodes.as_slice().len() as u32;
        let edges = plain.edges.as_slice().len() as u32;
        self.shown = None;
        match self.graph.replace(plain) {
            Ok(()) => Reply::Line(ReplyLine::Two(nodes, edges)),
            Err(EditRefusal::Spent) => Reply::Refused(Refusal::Spent),
            Err(EditRefusal::NoMemory) => Reply::Refused(Refusal::Memory),
            Err(
                EditRefusal::Gone(..)
                | EditRefusal::Hidden(_)
                | EditRefusal::FullNodes
                | EditRefusal::FullEdges,
            ) => unreachable!(),
        }
    }
}

/// The name of a file as text: its bytes are ASCII.
#[tactic(auto, using(crate::proofs::FileNames::is_text))]
fn text_of_name(name: &[u8]) -> &str
    requires { IsTrue (is_file name.now) }
    ensures { result.now ≡ name.now }
{
    let Ok(name) = str::from_utf8(name) else {
        unreachable!()
    };
    name
}

/// Why a file isn't loaded, as it is replied.
fn load_refusal(fault: LoadFault) -> Refusal
    ensures { result ≡ load_refusal fault }
{
    match fault {
        LoadFault::Absent => Refusal::Absent,
        LoadFault::TooBig => Refusal::Big,
        LoadFault::Failed => Refusal::Store,
        LoadFault::NoMemory => Refusal::Memory,
    }
}
