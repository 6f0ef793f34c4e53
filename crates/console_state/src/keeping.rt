//! Which answers a session keeps.
ghost use Rattle.std.specs.Prelude.{◌≡◌};
ghost use Rattle.reply_text.specs.declared.reply.Answer.TheVariants as answers;
ghost use Rattle.console_state.specs.Keeping.{ArePathsOf, IsFlowOf, IsKeptSo, IsToKeep};
ghost use Rattle.console_state.specs.Step.{with_paths, with_flow, with_answer, with_kept};

use crate::session::Session;
use graph_defs::{FlowAnswer, SpAnswer};
use kept_answers::{KeptFlow, KeptMatching, KeptPaths};
use leda_base::Row;
use reply_text::{Answer, Named, Reply};
use script_text::{Arg, Command, QueryWord, Word};
use smallvec::SmallVec;
use std::alloc::Global;

impl Session {
    /// Keeps the answer to a query, so that it can be checked later. It takes no memory.
    ///
    /// An answer to `reach` isn't kept, nor is a verdict.
    pub fn keep(&mut self, command: Command, reply: Reply)
        requires { IsToKeep command reply }
        ensures { self.new ≡ with_kept command reply self.old }
    {
        match reply {
            Reply::Query(named) => self.keep_named(command, named),
            Reply::Line(_) | Reply::Refused(_) => {}
        }
    }

    fn keep_named(&mut self, command: Command, named: Named)
        requires { IsKeptSo named.answer command.word command.args named.nodes named.edges }
        ensures { self.new ≡ with_answer named.answer command.word command.args named self.old }
    {
        let Named {
            nodes,
            edges,
            answer,
        } = named;
        match answer {
            Answer::Sp(answer) => match command.word() {
                Word::Query(QueryWord::Sp | QueryWord::Dijkstra) => {
                    self.keep_paths(command.into_args(), nodes, edges, answer);
                }
                Word::Query(
                    QueryWord::Reach | QueryWord::Maxflow | QueryWord::Matching | QueryWord::Check,
                )
                | Word::Edit(_)
                | Word::Look(_)
                | Word::File(_)
                | Word::Object(_)
                | Word::Value(_) => {}
            },
            Answer::Flow(answer) => match command.word() {
                Word::Query(QueryWord::Maxflow) => {
                    self.keep_flow(command.into_args(), nodes, edges, answer);
                }
                Word::Query(
                    QueryWord::Reach
                    | QueryWord::Sp
                    | QueryWord::Dijkstra
                    | QueryWord::Matching
                    | QueryWord::Check,
                )
                | Word::Edit(_)
                | Word::Look(_)
                | Word::File(_)
                | Word::Object(_)
                | Word::Value(_) => {}
            },
            Answer::Matching(answer) => match command.word() {
                Word::Query(QueryWord::Matching) => {
                    self.kept.matching = Some(KeptMatching::new(nodes, edges, answer));
                }
                Word::Query(
                    QueryWord::Reach
                    | QueryWord::Sp
                    | QueryWord::Dijkstra
                    | QueryWord::Maxflow
                    | QueryWord::Check,
                )
                | Word::Edit(_)
                | Word::Look(_)
                | Word::File(_)
                | Word::Object(_)
                | Word::Value(_) => {}
            },
            Answer::Reach(_) | Answer::Verdict(_) => {}
        }
    }

    fn keep_paths(
        &mut self,
        mut args: SmallVec<Arg, 8, Global>,
        nodes: Row<u32>,
        edges: Row<u32>,
        answer: SpAnswer,
    )
        requires { ArePathsOf args.items }
        ensures { self.new ≡ with_paths args.items
            (record { nodes = nodes; edges = edges; answer = answers.Sp answer }) answer self.old }
    {
        let [Arg::Node(source), Arg::Name(_)] = args.as_slice() else {
            return;
        };
        let source = *source;
        if let Some(Arg::Name(costs)) = args.pop() {
            self.kept.sp = Some(KeptPaths::new(source, costs, nodes, edges, answer));
        }
    }

    fn keep_flow(
        &mut self,
        mut args: SmallVec<Arg, 8, Global>,
        nodes: Row<u32>,
        edges: Row<u32>,
        answer: FlowAnswer,
    )
        requires { IsFlowOf args.items edges answer }
        ensures { self.new ≡ with_flow args.items
            (record { nodes = nodes; edges = edges; answer = answers.Flow answer }) answer self.old }
    {
        let [Arg::Node(source), Arg::Node(sink), Arg::Name(_)] = args.as_slice() else {
            return;
        };
        let (source, sink) = (*source, *sink);
        if let Some(Arg::Name(capacities)) = args.pop() {
            self.kept.flow = Some(KeptFlow::new(source, sink, capacities, nodes, edges, answer));
        }
    }
}
