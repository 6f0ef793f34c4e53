//! The queries, and the checks of answers that are kept.
ghost use Rattle.std.specs.Prelude.{◌≡◌, ◌⊎◌, ◌<◌, Some, None, true, [], ◌∷◌, length, slice_index, IfOk};
ghost use Rattle.leda_base.specs.declared.ItemName.TheVariants as items;
ghost use Rattle.leda_base.specs.Name.{IsShortName};
ghost use Rattle.graph_state.specs.Refusals.{AreVisible};
ghost use Rattle.script_text.specs.declared.argument.Arg.TheVariants as args;
ghost use Rattle.script_text.specs.declared.form.Kinds.TheVariants as kinds;
ghost use Rattle.script_text.specs.declared.word.QueryWord.TheVariants as queries;
ghost use Rattle.script_text.specs.declared.word.Word.TheVariants as words;
ghost use Rattle.script_text.specs.Table.{forms_of, may_lack_memory, IsWhole};
ghost use Rattle.object_store.specs.Met.{AreMet as ObjectsAreMet};
ghost use Rattle.graph_defs.specs.declared.query.Kept.TheVariants as sorts;
ghost use Rattle.reply_text.specs.declared.refusal.ObjectName.TheVariants as objects;
ghost use Rattle.reply_text.specs.declared.refusal.Refusal.TheVariants as refusals;
ghost use Rattle.reply_text.specs.declared.reply.Reply.TheVariants as replies;
ghost use Rattle.reply_text.specs.Text.{IsNamed};
ghost use Rattle.reply_text.specs.Outcome.{LacksMemory, IsQuiet};
ghost use Rattle.kept_answers.specs.Shown.{IsShown};
ghost use Rattle.console_state.specs.Clear.{AreMet};
ghost use Rattle.console_state.specs.Costs.{costs, uncovered};
ghost use Rattle.console_state.specs.Keeping.{IsToKeep};
ghost use Rattle.console_state.specs.Paths.{word_of};
ghost use Rattle.console_state.specs.Query.{unpriced, Answers};
ghost use Rattle.console_state.specs.Told.{TellsOf, IsUnlessRefused, reply_of};
ghost use Rattle.console_state.specs.Views.{edge_names, has_object};

use crate::names::named;
use crate::paths::PathSearch;
use crate::session::Session;
use flow_preflow::{FlowRefusal, preflow};
use graph_defs::Kept;
use graph_search::reach;
use hide_restore::{Shown, net};
use kept_answers::{KeptFlow, KeptPaths};
use leda_base::{NoMemory, Row};
use match_search::max_matching;
use object_store::ValuesRefusal;
use reply_text::{Answer, Named, ObjectName, Refusal, Reply};
use script_text::{Arg, Kinds, QueryWord};
use sp_search::SpRefusal;

impl Session {
    /// The reply to a query that nothing stands in the way of.
    pub(crate) fn query(&mut self, word: QueryWord, args: &[Arg]) -> Reply
        requires whole { IsWhole (record { word = words.Query word; args = args.now }) }
        requires met { AreMet self.old.graph (forms_of (words.Query word)) args.now }
        requires objects { ObjectsAreMet self.old.objects (forms_of (words.Query word)) args.now }
        ensures state { self.new ≡ self.old }
        ensures replies { LacksMemory (may_lack_memory (words.Query word)) self.old result self.old
            ⊎ Answers word args.now self.old result }
        ensures named { IsNamed result }
        ensures keepable { IsToKeep (record { word = words.Query word; args = args.now }) result }
        ensures quiet { IsQuiet (may_lack_memory (words.Query word)) self.old result self.old }
    {
        let Ok(shown) = self.take_shown() else {
            return Reply::Refused(Refusal::Memory);
        };
        let reply = self.answer(&shown, word, args);
        self.shown = Some(shown);
        reply
    }

    /// The net of the visible graph, which the session keeps no more.
    ///
    /// # Errors
    /// `NoMemory`, only where it had to be made.
    fn take_shown(&mut self) -> Result<Shown, NoMemory>
        ensures state { self.new ≡ self.old }
        ensures shown { IfOk result (IsShown self.old.graph) }
    {
        match self.shown.take() {
            Some(shown) => Ok(shown),
            None => net(self.alloc, &self.graph),
        }
    }

    /// The reply to a query, which is asked of the net.
    fn answer(&self, shown: &Shown, word: QueryWord, args: &[Arg]) -> Reply
        requires shown { IsShown self.now.graph shown.now }
        requires whole { IsWhole (record { word = words.Query word; args = args.now }) }
        requires met { AreMet self.now.graph (forms_of (words.Query word)) args.now }
        requires objects { ObjectsAreMet self.now.objects (forms_of (words.Query word)) args.now }
        ensures replies { LacksMemory (may_lack_memory (words.Query word)) self.now result self.now
            ⊎ Answers word args.now self.now result }
        ensures named { IsNamed result }
        ensures keepable { IsToKeep (record { word = words.Query word; args = args.now }) result }
        ensures quiet { IsQuiet (may_lack_memory (words.Query word)) self.now result self.now }
    {
        match (word, args) {
            (QueryWord::Reach, [Arg::Node(from), Arg::Node(to)]) => self.reach(shown, *from, *to),
            (QueryWord::Sp, [Arg::Node(source), Arg::Name(costs)]) => {
                self.paths(shown, PathSearch::Sp, *source, costs.as_slice())
            }
            (QueryWord::Dijkstra, [Arg::Node(source), Arg::Name(costs)]) => {
                self.paths(shown, PathSearch::Dijkstra, *source, costs.as_slice())
            }
            (QueryWord::Maxflow, [Arg::Node(source), Arg::Node(sink), Arg::Name(capacities)]) => {
                self.flow(shown, *source, *sink, capacities.as_slice())
            }
            (QueryWord::Matching, []) => self.matching(shown),
            (QueryWord::Check, [Arg::Kept(sort)]) => self.check(shown, *sort),
            _ => unreachable!(),
        }
    }

    fn reach(&self, shown: &Shown, from: u32, to: u32) -> Reply
        requires shown { IsShown self.now.graph shown.now }
        requires from { AreVisible self.now.graph (items.Node from ∷ []) }
        requires to { AreVisible self.now.graph (items.Node to ∷ []) }
        ensures replies { LacksMemory true self.now result self.now
            ⊎ Answers queries.Reach (args.Node from ∷ args.Node to ∷ []) self.now result }
        ensures named { IsNamed result }
    {
        let (Some(from), Some(to)) = (shown.places.place(from), shown.places.place(to)) else {
            unreachable!()
        };
        match reach(self.alloc, &shown.net, from, to) {
            Ok(answer) => self.told(shown, Answer::Reach(answer)),
            Err(NoMemory) => Reply::Refused(Refusal::Memory),
        }
    }

    /// The distances of all nodes from the source, by the costs that the object of the name has.
    fn paths(&self, shown: &Shown, search: PathSearch, source: u32, name: &[u8]) -> Reply
        requires shown { IsShown self.now.graph shown.now }
        requires source { AreVisible self.now.graph (items.Node source ∷ []) }
        requires costs { has_object self.now kinds.EdgeValues name.now ≡ true }
        ensures replies { LacksMemory true self.now result self.now
            ⊎ Answers (word_of search) (args.Node source ∷ args.Name name.now ∷ [])
            self.now result }
        ensures named { IsNamed result }
    {
        let Some(source) = shown.places.place(source) else {
            unreachable!()
        };
        let costs = match self.costs(shown, name) {
            Ok(costs) => costs,
            Err(refusal) => return Reply::Refused(refusal),
        };
        match search.answer(self.alloc, &shown.net, source, costs.as_slice()) {
            Ok(answer) => self.told(shown, Answer::Sp(answer)),
            Err(SpRefusal::Negative(arc)) => Reply::Refused(self.negative(shown, arc)),
            Err(SpRefusal::Bound) => Reply::Refused(Refusal::Bound),
            Err(SpRefusal::NoMemory) => Reply::Refused(Refusal::Memory),
        }
    }

    /// The costs of the visible edges, by the array or the map of the name.
    ///
    /// # Errors
    /// The refusal: `Covered` with the first edge that isn't covered, and `Memory`.
    fn costs(&self, shown: &Shown, name: &[u8]) -> Result<Row<i64>, Refusal>
        requires shown { IsShown self.now.graph shown.now }
        requires costs { has_object self.now kinds.EdgeValues name.now ≡ true }
        ensures { IsUnlessRefused (uncovered self.now name.now) (costs self.now name.now) result }
    {
        match self
            .objects
            .edge_values(self.alloc, &self.graph, name, shown.edges.as_slice())
        {
            Ok(costs) => Ok(costs),
            Err(ValuesRefusal::Covered(edge)) => Err(Refusal::Covered(edge)),
            Err(ValuesRefusal::NoMemory) => Err(Refusal::Memory),
            Err(ValuesRefusal::Object) => unreachable!(),
        }
    }

    /// A maximum flow, by the capacities that the object of the name has.
    fn flow(&self, shown: &Shown, source: u32, sink: u32, name: &[u8]) -> Reply
        requires shown { IsShown self.now.graph shown.now }
        requires source { AreVisible self.now.graph (items.Node source ∷ []) }
        requires sink { AreVisible self.now.graph (items.Node sink ∷ []) }
        requires capacities { has_object self.now kinds.EdgeValues name.now ≡ true }
        requires short { IsShortName name.now }
        ensures replies { LacksMemory true self.now result self.now
            ⊎ Answers queries.Maxflow
            (args.Node source ∷ args.Node sink ∷ args.Name name.now ∷ []) self.now result }
        ensures named { IsNamed result }
        ensures keepable { IsToKeep (record {
          word = words.Query queries.Maxflow;
          args = args.Node source ∷ args.Node sink ∷ args.Name name.now ∷ [];
        }) result }
    {
        let (Some(from), Some(to)) = (shown.places.place(source), shown.places.place(sink)) else {
            unreachable!()
        };
        let capacities = match self.costs(shown, name) {
            Ok(capacities) => capacities,
            Err(refusal) => return Reply::Refused(refusal),
        };
        // Asked for what it promises beside the count: that the lists are formed, so names differ.
        let _made = self.graph.made_nodes();
        let mut steps = 0;
        match preflow(
            self.alloc,
            &shown.net,
            from,
            to,
            capacities.as_slice(),
            &mut steps,
        ) {
            Ok(answer) => self.told(shown, Answer::Flow(answer)),
            Err(FlowRefusal::Same) => Reply::Refused(Refusal::Same),
            Err(FlowRefusal::Negative(arc)) => Reply::Refused(self.negative(shown, arc)),
            Err(FlowRefusal::Bound) => Reply::Refused(Refusal::Bound),
            Err(FlowRefusal::NoMemory) => Reply::Refused(Refusal::Memory),
        }
    }

    /// The edge of the arc has a cost below 0.
    fn negative(&self, shown: &Shown, arc: u32) -> Refusal
        requires shown { IsShown self.now.graph shown.now }
        requires arc { arc < length shown.now.net.arcs }
        ensures { result ≡ refusals.Negative (slice_index (edge_names self.now) arc) }
    {
        Refusal::Negative(shown.edges.as_slice()[arc as usize].0.serial)
    }

    fn matching(&self, shown: &Shown) -> Reply
        requires { IsShown self.now.graph shown.now }
        ensures replies { LacksMemory true self.now result self.now
            ⊎ Answers queries.Matching [] self.now result }
        ensures named { IsNamed result }
        ensures keepable { IsToKeep
            (record { word = words.Query queries.Matching; args = [] }) result }
    {
        // Asked for what it promises beside the count: that the lists are formed, so names differ.
        let _made = self.graph.made_nodes();
        match max_matching(self.alloc, &shown.net) {
            Ok(answer) => self.told(shown, Answer::Matching(answer)),
            Err(NoMemory) => Reply::Refused(Refusal::Memory),
        }
    }

    /// The answer, with the names of what it numbers.
    fn told(&self, shown: &Shown, answer: Answer) -> Reply
        requires { IsShown self.now.graph shown.now }
        ensures { TellsOf self.now answer result }
    {
        match named(self.alloc, shown, answer) {
            Ok(named) => Reply::Query(named),
            Err(NoMemory) => Reply::Refused(Refusal::Memory),
        }
    }

    /// The verdict on the answer of the sort that is kept.
    fn check(&self, shown: &Shown, sort: Kept) -> Reply
        requires { IsShown self.now.graph shown.now }
        ensures replies { LacksMemory true self.now result self.now
            ⊎ Answers queries.Check (args.Kept sort ∷ []) self.now result }
        ensures named { IsNamed result }
    {
        match (sort, &self.kept.sp, &self.kept.flow, &self.kept.matching) {
            (Kept::Sp, Some(kept), _, _) => self.check_paths(shown, kept),
            (Kept::Maxflow, _, Some(kept), _) => self.check_flow(shown, kept),
            (Kept::Matching, _, _, Some(kept)) => {
                verdict(kept.check(self.alloc, &self.graph, shown))
            }
            _ => Reply::Refused(Refusal::Object(ObjectName::Kept(sort))),
        }
    }

    /// The verdict on an answer to `sp` or `dijkstra`, by the costs as they are now.
    fn check_paths(&self, shown: &Shown, kept: &KeptPaths) -> Reply
        requires shown { IsShown self.now.graph shown.now }
        requires kept { self.now.kept.sp ≡ Some kept.now }
        ensures replies { LacksMemory true self.now result self.now
            ⊎ Answers queries.Check (args.Kept sorts.Sp ∷ []) self.now result }
        ensures named { IsNamed result }
    {
        match self.costs_now(shown, kept.costs()) {
            Ok(costs) => verdict(kept.check(self.alloc, &self.graph, shown, costs.as_slice())),
            Err(refusal) => Reply::Refused(refusal),
        }
    }

    /// The verdict on an answer to `maxflow`, by the capacities as they are now.
    fn check_flow(&self, shown: &Shown, kept: &KeptFlow) -> Reply
        requires shown { IsShown self.now.graph shown.now }
        requires kept { self.now.kept.flow ≡ Some kept.now }
        ensures replies { LacksMemory true self.now result self.now
            ⊎ Answers queries.Check (args.Kept sorts.Maxflow ∷ []) self.now result }
        ensures named { IsNamed result }
    {
        match self.costs_now(shown, kept.capacities()) {
            Ok(capacities) => {
                verdict(kept.check(self.alloc, &self.graph, shown, capacities.as_slice()))
            }
            Err(refusal) => Reply::Refused(refusal),
        }
    }

    /// The costs or capacities of the visible edges as they are now, by the name of the object that
    /// an answer was told by.
    ///
    /// # Errors
    /// The refusal: `Object` where no object has the name, `Undirected`, and those of `costs`.
    fn costs_now(&self, shown: &Shown, name: &[u8]) -> Result<Row<i64>, Refusal>
        requires { IsShown self.now.graph shown.now }
        ensures { IsUnlessRefused (unpriced self.now name.now) (costs self.now name.now) result }
    {
        if !self.has_object(Kinds::EdgeValues, name) {
            return Err(self.missing(name));
        }
        if !self.is_directed() {
            return Err(Refusal::Undirected);
        }
        self.costs(shown, name)
    }

    /// No object has the name.
    fn missing(&self, name: &[u8]) -> Refusal
        ensures { (result ≡ refusals.Memory)
            ⊎ (result ≡ refusals.Object (objects.Name name.now)) }
    {
        match Row::from_slice(self.alloc, name) {
            Ok(name) => Refusal::Object(ObjectName::Name(name)),
            Err(NoMemory) => Refusal::Memory,
        }
    }
}

/// The verdict, or want of memory.
fn verdict(verdict: Result<Named, NoMemory>) -> Reply
    ensures { result ≡ reply_of verdict }
{
    match verdict {
        Ok(named) => Reply::Query(named),
        Err(NoMemory) => Reply::Refused(Refusal::Memory),
    }
}
