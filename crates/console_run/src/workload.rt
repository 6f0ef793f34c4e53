//! The lines of the workload: a graph that is drawn from a seed, and queries on it.
//!
//! The draws are of Knuth's linear congruential generator for MMIX (The Art of Computer
//! Programming, volume 2, section 3.3.4), of whose numbers the upper 31 bits are taken.
ghost use Rattle.std.specs.Prelude.{◌≡◌, ℕ, ◌+◌, ◌<◌, ◌≤◌, ◌++◌, [], length, codes, decimal, get_or, true, false, vec_len, vec_capacity};
ghost use Rattle.console_run.specs.declared.workload.TheConstants.{LAST_COUNT, LINE_COUNT, LINE_ROOM};
ghost use Rattle.console_run.specs.Workload.{drawn, edge_text, last_lines, next_number, silent};
ghost use Rattle.console_run.specs.Generated.{IsDrawn, IsLine, line_at};

use itoa::Buffer;

/// How many lines the workload has.
pub(crate) const LINE_COUNT: u32 = NODE_COUNT + EDGE_COUNT + LAST_COUNT;

/// How many lines make nodes.
const NODE_COUNT: u32 = 400;

/// How many lines make edges.
const EDGE_COUNT: u32 = 1_600;

/// How many lines stand behind those.
const LAST_COUNT: u32 = 10;

/// As many bytes as no line has more than.
pub(crate) const LINE_ROOM: usize = 64;

/// The generator, at the number of the last draw.
#[derive(Drop)]
pub(crate) struct Generator {
    number: u64,
}

impl Generator {
    /// The generator before its first draw.
    #[tactic(auto, unfolding(crate::specs::Workload::number_after))]
    pub(crate) fn new(seed: u32) -> Generator
        ensures { IsDrawn seed 0 result.number }
    {
        Generator {
            number: seed as u64,
        }
    }

    /// The next draw: a number below the bound.
    fn draw(&mut self, bound: u32) -> u32
        requires { 0 < bound }
        ensures number { self.new.number ≡ next_number self.old.number }
        ensures value { result ≡ drawn self.new.number bound }
        ensures below { result < bound }
    {
        self.number = self
            .number
            .wrapping_mul(6_364_136_223_846_793_005)
            .wrapping_add(1_442_695_040_888_963_407);
        ((self.number >> 33) % bound as u64) as u32
    }

    /// Puts the line with the number `at`, from 0, into the empty buffer.
    ///
    /// Whether it is a query.
    pub(crate) fn put_line(&mut self, at: u32, to: &mut Vec<u8>) -> bool
        requires at { at < LINE_COUNT }
        requires empty { to.old.items ≡ [] }
        requires room { LINE_ROOM ≤ vec_capacity to.old }
        ensures line { (seed : ℕ) → IsDrawn seed at self.old.number
            → IsLine (line_at seed at) to.new.items result }
        ensures drawn { (seed : ℕ) → IsDrawn seed at self.old.number
            → IsDrawn seed (at + 1) self.new.number }
        ensures capacity { vec_capacity to.old ≤ vec_capacity to.new }
        ensures short { vec_len to.new ≤ LINE_ROOM }
    {
        if at < NODE_COUNT {
            append(to, b"node");
            false
        } else if at < NODE_COUNT + EDGE_COUNT {
            self.put_edge(to);
            false
        } else {
            self.put_last(at - (NODE_COUNT + EDGE_COUNT), to)
        }
    }

    /// Puts a line that makes an edge.
    fn put_edge(&mut self, to: &mut Vec<u8>)
        requires empty { to.old.items ≡ [] }
        requires room { LINE_ROOM ≤ vec_capacity to.old }
        ensures text { to.new.items
            ≡ edge_text (drawn (next_number self.old.number) 400 + 1)
            (drawn (next_number (next_number self.old.number)) 400 + 1)
            (drawn self.new.number 1000) }
        ensures number { self.new.number
            ≡ next_number (next_number (next_number self.old.number)) }
        ensures capacity { vec_capacity to.old ≤ vec_capacity to.new }
        ensures short { vec_len to.new ≤ LINE_ROOM }
    {
        let source = self.draw(400) + 1;
        let target = self.draw(400) + 1;
        let label = self.draw(1_000);
        append(to, b"edge n");
        append_number(to, source);
        append(to, b" n");
        append_number(to, target);
        append(to, b" |{");
        append_number(to, label);
        append(to, b"}|");
    }

    /// Puts the line with the number `at`, from 0, of those behind the edges.
    ///
    /// Whether it is a query.
    fn put_last(&mut self, at: u32, to: &mut Vec<u8>) -> bool
        requires at { at < LAST_COUNT }
        requires empty { to.old.items ≡ [] }
        requires room { LINE_ROOM ≤ vec_capacity to.old }
        ensures line { IsLine (get_or (last_lines (drawn (next_number self.old.number) 398 + 3)) at
            (silent [])) to.new.items result }
        ensures number { at < 2 → self.new.number ≡ self.old.number }
        ensures capacity { vec_capacity to.old ≤ vec_capacity to.new }
        ensures short { vec_len to.new ≤ LINE_ROOM }
    {
        match at {
            0 => put_silent(to, b"edge_array c labels"),
            1 => put_silent(to, b"edge_map one 1"),
            2 => self.put_hiding(to),
            3 => put_query(to, b"reach n1 n2"),
            4 => put_query(to, b"sp n1 c"),
            5 => put_query(to, b"dijkstra n1 c"),
            6 => put_query(to, b"maxflow n1 n2 c"),
            7 => put_query(to, b"matching"),
            8 => put_silent(to, b"restore_all"),
            _ => put_query(to, b"matching"),
        }
    }

    /// Puts the line that hides a node.
    fn put_hiding(&mut self, to: &mut Vec<u8>) -> bool
        requires empty { to.old.items ≡ [] }
        requires room { LINE_ROOM ≤ vec_capacity to.old }
        ensures text { to.new.items
            ≡ codes "hide_node n" ++ decimal (drawn (next_number self.old.number) 398 + 3) }
        ensures silent { result ≡ false }
        ensures capacity { vec_capacity to.old ≤ vec_capacity to.new }
        ensures short { vec_len to.new ≤ LINE_ROOM }
    {
        let node = self.draw(398) + 3;
        append(to, b"hide_node n");
        append_number(to, node);
        false
    }
}

/// Puts a query.
fn put_query(to: &mut Vec<u8>, text: &[u8]) -> bool
    requires empty { to.old.items ≡ [] }
    requires short { length text.now ≤ LINE_ROOM }
    requires room { LINE_ROOM ≤ vec_capacity to.old }
    ensures text { to.new.items ≡ text.now }
    ensures query { result ≡ true }
    ensures capacity { vec_capacity to.old ≤ vec_capacity to.new }
    ensures short { vec_len to.new ≤ LINE_ROOM }
{
    append(to, text);
    true
}

/// Puts a line that is no query.
fn put_silent(to: &mut Vec<u8>, text: &[u8]) -> bool
    requires empty { to.old.items ≡ [] }
    requires short { length text.now ≤ LINE_ROOM }
    requires room { LINE_ROOM ≤ vec_capacity to.old }
    ensures text { to.new.items ≡ text.now }
    ensures silent { result ≡ false }
    ensures capacity { vec_capacity to.old ≤ vec_capacity to.new }
    ensures short { vec_len to.new ≤ LINE_ROOM }
{
    append(to, text);
    false
}

/// Appends bytes for which there is room.
pub(crate) fn append(to: &mut Vec<u8>, bytes: &[u8])
    requires room { vec_len to.old + length bytes.now ≤ vec_capacity to.old }
    ensures text { to.new.items ≡ to.old.items ++ bytes.now }
    ensures len { vec_len to.new ≡ vec_len to.old + length bytes.now }
    ensures capacity { vec_capacity to.old ≤ vec_capacity to.new }
{
    let _ = to.extend_from_slice(bytes);
}

/// Appends a number for which there is room.
pub(crate) fn append_number(to: &mut Vec<u8>, number: u32)
    requires room { vec_len to.old + 10 ≤ vec_capacity to.old }
    ensures text { to.new.items ≡ to.old.items ++ decimal number }
    ensures short { vec_len to.new ≤ vec_len to.old + 10 }
    ensures capacity { vec_capacity to.old ≤ vec_capacity to.new }
{
    append(to, Buffer::new().format(number).as_bytes());
}
