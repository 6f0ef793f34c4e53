//! Replies as bytes.
ghost use Rattle.std.specs.Prelude.{◌≡◌, ◌+◌, ◌≤◌, ◌++◌, vec_len, vec_capacity, IsOk, OnOk, OnErr};
ghost use Rattle.std.specs.List.{flat_map};
ghost use Rattle.reply_text.specs.Words.{line_words, reach_words};
ghost use Rattle.reply_text.specs.Refusals.{refusal_words, IsRefusalNamed};
ghost use Rattle.reply_text.specs.Text.{success, refusal_line, answer_lines, match_lines, words_text, line_text, reply_text, IsReachNamed, IsMatchNamed, IsAnswerNamed, IsNamed, IsShortLine, IsShort};
ghost use Rattle.reply_text.specs.Appending.{Appends, TakesRoom};

use crate::appending::{
    append, append_cells, append_item, append_items, append_label, append_number, append_subject,
    append_word,
};
use crate::flow::append_flow;
use crate::line::{append_counts, append_line_at, append_line_labelled};
use crate::refusal::Refusal;
use crate::reply::{Answer, Reply, ReplyLine};
use crate::shortest::append_sp;
use crate::verdict::append_verdict;
use graph_defs::{MatchAnswer, Reach};
use leda_base::NoMemory;
use std::alloc::AllocError;

/// How many bytes hold the text of a refusal, and of the line of an edit.
pub const SHORT_REPLY: usize = 64;

/// Appends the text of a reply.
///
/// Where [`SHORT_REPLY`] bytes are free, a refusal and the line of an edit cannot be refused.
pub fn put_reply(to: &mut Vec<u8>, reply: &Reply) -> Result<(), NoMemory>
    requires { IsNamed reply.now }
    ensures text { OnOk result (to.new.items ≡ to.old.items ++ reply_text reply.now) }
    ensures refused { OnErr result (to.new.items ≡ to.old.items) }
    ensures room { IsShort reply.now → vec_len to.old + SHORT_REPLY ≤ vec_capacity to.old
        → IsOk result }
    ensures capacity { vec_capacity to.old ≤ vec_capacity to.new }
{
    let start = to.len();
    match append_reply(to, reply) {
        Ok(()) => Ok(()),
        Err(_) => {
            to.truncate(start);
            Err(NoMemory)
        }
    }
}

fn append_reply(to: &mut Vec<u8>, reply: &Reply) -> Result<(), AllocError>
    requires { IsNamed reply.now }
    ensures text { Appends (reply_text reply.now) to.old to.new result }
    ensures room { IsShort reply.now → TakesRoom SHORT_REPLY to.old to.new result }
{
    match reply {
        Reply::Line(line) => append_success(to, line),
        Reply::Query(named) => append_answer(
            to,
            named.nodes.as_slice(),
            named.edges.as_slice(),
            &named.answer,
        ),
        Reply::Refused(refusal) => append_refusal(to, refusal),
    }
}

fn append_success(to: &mut Vec<u8>, line: &ReplyLine) -> Result<(), AllocError>
    ensures text { Appends (line_text (success (line_words line.now))) to.old to.new result }
    ensures room { IsShortLine line.now → TakesRoom SHORT_REPLY to.old to.new result }
{
    append(to, b"=")?;
    append_line_words(to, line)?;
    append(to, b"\n")
}

fn append_line_words(to: &mut Vec<u8>, line: &ReplyLine) -> Result<(), AllocError>
    ensures text { Appends (words_text (line_words line.now)) to.old to.new result }
    ensures room { IsShortLine line.now → TakesRoom 41 to.old to.new result }
{
    match line {
        ReplyLine::Empty => Ok(()),
        ReplyLine::Nil => append_word(to, b"nil"),
        ReplyLine::Num(number) => append_number(to, *number),
        ReplyLine::Two(nodes, edges) => {
            append_number(to, *nodes)?;
            append_number(to, *edges)
        }
        ReplyLine::Name(name) => append_item(to, *name),
        ReplyLine::Names(names) => append_items(to, names.as_slice()),
        ReplyLine::Cells(cells) => append_cells(to, cells.as_slice()),
        ReplyLine::Label(label) => append_label(to, label.as_slice()),
    }
}

fn append_refusal(to: &mut Vec<u8>, refusal: &Refusal) -> Result<(), AllocError>
    requires { IsRefusalNamed refusal.now }
    ensures text { Appends (line_text (refusal_line refusal.now)) to.old to.new result }
    ensures room { TakesRoom SHORT_REPLY to.old to.new result }
{
    append(to, b"!")?;
    append_refusal_words(to, refusal)?;
    append(to, b"\n")
}

fn append_refusal_words(to: &mut Vec<u8>, refusal: &Refusal) -> Result<(), AllocError>
    requires { IsRefusalNamed refusal.now }
    ensures text { Appends (words_text (refusal_words refusal.now)) to.old to.new result }
    ensures room { TakesRoom 52 to.old to.new result }
{
    append_word(to, refusal.reason())?;
    append_subject(to, refusal.subject())
}

fn append_answer(
    to: &mut Vec<u8>,
    nodes: &[u32],
    edges: &[u32],
    answer: &Answer,
) -> Result<(), AllocError>
    requires { IsAnswerNamed nodes.now edges.now answer.now }
    ensures { Appends (flat_map line_text (answer_lines nodes.now edges.now answer.now))
        to.old to.new result }
{
    match answer {
        Answer::Reach(reach) => append_reach(to, nodes, edges, reach),
        Answer::Sp(shortest) => append_sp(to, nodes, edges, shortest),
        Answer::Flow(flow) => append_flow(to, nodes, edges, flow),
        Answer::Matching(matching) => append_matching(to, nodes, edges, matching),
        Answer::Verdict(verdict) => append_verdict(to, nodes, edges, *verdict),
    }
}

fn append_matching(
    to: &mut Vec<u8>,
    nodes: &[u32],
    edges: &[u32],
    matching: &MatchAnswer,
) -> Result<(), AllocError>
    requires { IsMatchNamed nodes.now edges.now matching.now }
    ensures { Appends (flat_map line_text (match_lines nodes.now edges.now matching.now))
        to.old to.new result }
{
    let chosen = matching.edges.as_slice();
    append_counts(to, b"matching", &[chosen.len()])?;
    append_line_at(to, b"+", b"match", b"e", edges, chosen)?;
    append_line_labelled(to, b"+", b"cover", b"n", nodes, matching.cover.as_slice())
}

fn append_reach(
    to: &mut Vec<u8>,
    nodes: &[u32],
    edges: &[u32],
    reach: &Reach,
) -> Result<(), AllocError>
    requires { IsReachNamed nodes.now edges.now reach.now }
    ensures { Appends (line_text (success (reach_words nodes.now edges.now reach.now)))
        to.old to.new result }
{
    match reach {
        Reach::Walk(arcs) => append_line_at(to, b"=", b"walk", b"e", edges, arcs.as_slice()),
        Reach::Closed(set) => append_line_at(to, b"=", b"closed", b"n", nodes, set.as_slice()),
    }
}
