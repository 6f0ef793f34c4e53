//! Tests of every form of argument, by a table of their own.
use super::*;
use crate::form::{Kinds, Sight};
use crate::table::{Memory, rows};
use crate::word::{QueryWord, Word};
use graph_defs::{Kept, Mode};
use std::alloc::AllocError;
use std::process::Abort;
use std::test::Fail;

const NODE: Form = Form::Node(Sight::Visible);

const EDGE: Form = Form::Edge(Sight::Visible);

const ELEMENT: Form = Form::Element(Sight::Live);

const ARRAY: Form = Form::Object(Kinds::EdgeValues);

/// A row for each form, and rows in which forms meet. One spelling has two rows.
const ROWS: [Entry; 18] = rows! {
    "count"       Query(QueryWord::Reach)  []                                        NotTaken;
    "del_node"    Query(QueryWord::Reach)  [NODE]                                    NotTaken;
    "join"        Query(QueryWord::Reach)  [NODE, EDGE]                              NotTaken;
    "get_label"   Query(QueryWord::Reach)  [ELEMENT]                                 NotTaken;
    "key"         Query(QueryWord::Reach)  [Form::Cell(Kinds::Dict)]                 NotTaken;
    "size"        Query(QueryWord::Reach)  [Form::Object(Kinds::Container)]          NotTaken;
    "push"        Query(QueryWord::Reach)  [Form::Object(Kinds::List), Form::Num]    Taken;
    "one"         Query(QueryWord::Reach)  [Form::Num]                               NotTaken;
    "three"       Query(QueryWord::Reach)  [Form::Num, Form::Num, Form::Num]         NotTaken;
    "node_array"  Query(QueryWord::Reach)  [Form::NewName, Form::NumOrLabels]        Taken;
    "label"       Query(QueryWord::Reach)  [ELEMENT, Form::Label]                    Taken;
    "node"        Query(QueryWord::Reach)  [Form::OptionalLabel]                     Taken;
    "edge"        Query(QueryWord::Reach)  [NODE, Form::OptionalLabel]               Taken;
    "load"        Query(QueryWord::Reach)  [Form::File]                              Taken;
    "mode"        Query(QueryWord::Reach)  [Form::Mode]                              NotTaken;
    "check"       Query(QueryWord::Reach)  [Form::Kept]                              TakenByReply;
    "assign"      Query(QueryWord::Reach)  [Form::Cell(Kinds::List), Form::Num]      NotTaken;
    "assign"      Query(QueryWord::Reach)  [ARRAY, Form::Mode]                       TakenByReply;
};

#[test]
fn faults_stand_at_their_columns(rt: HostRuntime) {
    let cases = [
        // Nothing, a token too many, a missing argument.
        ("counts", LineRefusal::Syntax(1)),
        ("Count", LineRefusal::Syntax(1)),
        ("  foo n1", LineRefusal::Syntax(3)),
        ("count\u{b}", LineRefusal::Syntax(1)),
        ("count n1", LineRefusal::Syntax(7)),
        ("count #", LineRefusal::Syntax(7)),
        ("del_node", LineRefusal::Syntax(9)),
        ("join \t ", LineRefusal::Syntax(5)),
        (" join n1 \r", LineRefusal::Syntax(9)),
        ("join n1 e1 e1", LineRefusal::Syntax(12)),
        ("push", LineRefusal::Syntax(5)),
        ("three 1 2 \t", LineRefusal::Syntax(10)),
        // Names of items.
        ("del_node n0", LineRefusal::Syntax(10)),
        ("del_node n01", LineRefusal::Syntax(10)),
        ("del_node n", LineRefusal::Syntax(10)),
        ("del_node n1x", LineRefusal::Syntax(10)),
        ("del_node n4294967296", LineRefusal::Syntax(10)),
        ("del_node n10000000000", LineRefusal::Syntax(10)),
        ("del_node e1", LineRefusal::Syntax(10)),
        ("join e1 n1", LineRefusal::Syntax(6)),
        ("join n1 n-2", LineRefusal::Syntax(9)),
        ("get_label i1", LineRefusal::Syntax(11)),
        ("key n1", LineRefusal::Syntax(5)),
        // Names of objects.
        ("size n1", LineRefusal::Syntax(6)),
        ("size e1", LineRefusal::Syntax(6)),
        ("size i4294967295", LineRefusal::Syntax(6)),
        ("size 1a", LineRefusal::Syntax(6)),
        ("size a-b", LineRefusal::Syntax(6)),
        (
            "size abcdefghijklmnopqrstuvwxyz0123456",
            LineRefusal::Syntax(6),
        ),
        // Numbers: each syntax fault comes before each number out of range.
        ("push l 9223372036854775808", LineRefusal::Number(8)),
        ("push l -9223372036854775809", LineRefusal::Number(8)),
        ("push l +1", LineRefusal::Syntax(8)),
        ("push l -", LineRefusal::Syntax(8)),
        ("push l labels", LineRefusal::Syntax(8)),
        (
            "three 1 9223372036854775808 99999999999999999999",
            LineRefusal::Number(9),
        ),
        ("three 9223372036854775808 2 x", LineRefusal::Syntax(29)),
        ("three 9223372036854775808 2", LineRefusal::Syntax(28)),
        (
            "node_array a 9223372036854775808 zz",
            LineRefusal::Syntax(34),
        ),
        ("node_array n7 9223372036854775808", LineRefusal::Syntax(12)),
        ("node_array a label", LineRefusal::Syntax(14)),
        // Labels.
        ("label n1", LineRefusal::Syntax(9)),
        ("label n1 |{}", LineRefusal::Syntax(10)),
        ("label n1 |{|", LineRefusal::Syntax(10)),
        ("label n1 {}|", LineRefusal::Syntax(10)),
        ("label n1 |{a}| x", LineRefusal::Syntax(10)),
        ("label x |{a}|", LineRefusal::Syntax(7)),
        ("node a |{a}|", LineRefusal::Syntax(6)),
        ("edge |{a}|", LineRefusal::Syntax(6)),
        // Files, modes and sorts.
        ("load", LineRefusal::Syntax(5)),
        ("load a b", LineRefusal::Syntax(8)),
        ("load \u{e9}", LineRefusal::Syntax(6)),
        ("mode Max", LineRefusal::Syntax(6)),
        ("mode perfect", LineRefusal::Syntax(6)),
        ("check dijkstra", LineRefusal::Syntax(7)),
        // Two rows of one spelling.
        ("assign", LineRefusal::Syntax(7)),
        ("assign 1", LineRefusal::Syntax(8)),
        ("assign i1 max", LineRefusal::Syntax(11)),
        ("assign c 1", LineRefusal::Syntax(10)),
        ("assign i1 9223372036854775808", LineRefusal::Number(11)),
    ];
    for (line, fault) in cases {
        let refusal = read_line(rt.alloc(), &ROWS, line.as_bytes()).err();
        assert_eq!(rt; refusal, Some(fault), "at {line:?}");
    }
}

fn assert_args(rt: &impl Abort, alloc: Global, line: &[u8], args: &[ArgRef<'_>]) {
    match read_line(alloc, &ROWS, line) {
        Ok(Some(reading)) => assert_eq!(rt; reading.args.as_slice(), args, "at {line:?}"),
        _ => panic!(rt; "no arguments at {line:?}"),
    }
}

#[test]
fn arguments_are_read_by_their_forms(rt: HostRuntime) {
    let alloc = rt.alloc();
    assert_args(&rt, alloc, b"\t count \r", &[]);
    let items = [ArgRef::Node(4_294_967_295), ArgRef::Edge(1_000_000_000)];
    assert_args(&rt, alloc, b" join\tn4294967295 \r e1000000000\r", &items);
    assert_args(&rt, alloc, b"get_label n7", &[ArgRef::Node(7)]);
    assert_args(&rt, alloc, b"get_label e3", &[ArgRef::Edge(3)]);
    assert_args(&rt, alloc, b"key i5", &[ArgRef::Cell(5)]);
    assert_args(
        &rt,
        alloc,
        b"node_array a -7",
        &[ArgRef::Name(b"a"), ArgRef::Num(-7)],
    );
    assert_args(
        &rt,
        alloc,
        b"node_array labels labels",
        &[ArgRef::Name(b"labels"), ArgRef::Labels],
    );
    assert_args(&rt, alloc, b"load ../a~!", &[ArgRef::File(b"../a~!")]);
    assert_args(&rt, alloc, b"check planar", &[ArgRef::Kept(Kept::Planar)]);
    assert_args(
        &rt,
        alloc,
        b"assign i1 5",
        &[ArgRef::Cell(1), ArgRef::Num(5)],
    );
    let query = [ArgRef::Name(b"i4294967296"), ArgRef::Mode(Mode::PerfectMin)];
    assert_args(&rt, alloc, b"assign i4294967296 perfect_min", &query);
}

#[test]
fn labels_reach_to_the_end_of_the_line(rt: HostRuntime) {
    let alloc = rt.alloc();
    assert_args(&rt, alloc, b"node", &[ArgRef::Label(b"")]);
    assert_args(&rt, alloc, b"node |{}|", &[ArgRef::Label(b"")]);
    assert_args(
        &rt,
        alloc,
        b"edge n1 |{x  y}|",
        &[ArgRef::Node(1), ArgRef::Label(b"x  y")],
    );
    assert_args(
        &rt,
        alloc,
        b"label n1 |{a}| }| \t",
        &[ArgRef::Node(1), ArgRef::Label(b"a}| ")],
    );
    assert_args(
        &rt,
        alloc,
        b"label e1 |{|}|",
        &[ArgRef::Edge(1), ArgRef::Label(b"|")],
    );
    let bytes = [ArgRef::Edge(1), ArgRef::Label(b"\0\xff |{")];
    assert_args(&rt, alloc, b"label e1  |{\0\xff |{}|\r", &bytes);
}

#[test]
fn names_that_are_almost_those_of_items_are_names(rt: HostRuntime) {
    let cases = [
        ("size n0", "n0"),
        ("size n01", "n01"),
        ("size e4294967296", "e4294967296"),
        ("size i12345678901", "i12345678901"),
        ("size _", "_"),
        ("size labels", "labels"),
        (
            "size abcdefghijklmnopqrstuvwxyz_12345",
            "abcdefghijklmnopqrstuvwxyz_12345",
        ),
    ];
    for (line, name) in cases {
        assert_args(
            &rt,
            rt.alloc(),
            line.as_bytes(),
            &[ArgRef::Name(name.as_bytes())],
        );
    }
}

#[test]
fn numbers_have_64_bits(rt: HostRuntime) {
    let cases = [
        ("one -0", 0),
        ("one -007", -7),
        ("one -9223372036854775808", i64::MIN),
        (
            "one 000000000000000000000000000000000000000000009223372036854775807",
            i64::MAX,
        ),
    ];
    for (line, value) in cases {
        assert_args(&rt, rt.alloc(), line.as_bytes(), &[ArgRef::Num(value)]);
    }
}

/// The line that has so many bytes between these two texts.
fn filled(alloc: Global, front: &[u8], count: usize, back: &[u8]) -> Result<Vec<u8>, AllocError> {
    let mut line = front.to_vec(alloc)?;
    line.extend_from_slice(vec![in alloc; b'x'; count]?.as_slice())?;
    line.extend_from_slice(back)?;
    Ok(line)
}

#[test]
fn labels_and_files_have_limits(rt: HostRuntime) -> Result<(), Fail> {
    let cases = [
        ("node |{", 60_000, "}|", None),
        ("node |{", 60_001, "}|", Some(LineRefusal::Syntax(6))),
        ("load ", 255, " \t", None),
        ("load ", 256, " \t", Some(LineRefusal::Syntax(6))),
        ("size ", 32, "", None),
        ("size ", 33, "", Some(LineRefusal::Syntax(6))),
    ];
    for (front, count, back, fault) in cases {
        let line = filled(rt.alloc(), front.as_bytes(), count, back.as_bytes())?;
        let refusal = read_line(rt.alloc(), &ROWS, &line).err();
        assert_eq!(rt; refusal, fault, "at {count} bytes behind {front}");
    }
    Ok(())
}

#[test]
fn arguments_get_bytes_of_their_own(rt: HostRuntime) -> Result<(), Fail> {
    let refs = [
        ArgRef::Name(b"ab"),
        ArgRef::Label(b""),
        ArgRef::File(b"/f"),
        ArgRef::Node(7),
    ];
    match own_args(rt.alloc(), &refs)?.as_slice() {
        [Arg::Name(name), Arg::Label(label), Arg::File(file), last] => {
            assert_eq!(rt; name.as_slice(), b"ab".as_slice());
            assert_eq!(rt; label.as_slice(), b"".as_slice());
            assert_eq!(rt; file.as_slice(), b"/f".as_slice());
            assert!(rt; matches!(last, Arg::Node(7)));
        }
        _ => panic!(rt; "other arguments"),
    }
    Ok(())
}

#[test]
fn arguments_without_bytes_stay_as_they_are(rt: HostRuntime) -> Result<(), Fail> {
    let refs = [ArgRef::Num(-1), ArgRef::Labels, ArgRef::Kept(Kept::Mcf)];
    let owned = own_args(rt.alloc(), &refs)?;
    assert!(rt;
        matches!(
            owned.as_slice(),
            [Arg::Num(-1), Arg::Labels, Arg::Kept(Kept::Mcf)]
        )
    );
    Ok(())
}
