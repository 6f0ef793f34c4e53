//! The text of each reply, as the manual has it.
ghost use Rattle.reply_text.specs.Refusals.{IsRefusalNamed};
ghost use Rattle.reply_text.specs.Shortest.{IsSpNamed};
ghost use Rattle.reply_text.specs.Text.{IsNamed};
ghost use Rattle.reply_text.specs.Verdicts.{IsVerdictNamed};
ghost use Rattle.graph_defs.specs.declared.verdict.Verdict.TheVariants.{No};
ghost use Rattle.std.specs.Prelude.{◌≡◌, [], ◌∷◌};

use crate::{Answer, CellShow, Named, ObjectName, Refusal, Reply, ReplyLine, put_reply};
use graph_defs::{
    Cond, Finite, FlowAnswer, Kept, Low, MatchAnswer, Reach, Seed, SpAnswer, TextKind, Verdict, Why,
};
use leda_base::{ItemName, NoMemory, Row};
use std::alloc::Global;
use std::process::Abort;
use std::test::Fail;

fn text_of(alloc: Global, reply: &Reply) -> Result<Vec<u8>, NoMemory>
    requires { IsNamed reply.now }
{
    let mut to = Vec::new(alloc);
    put_reply(&mut to, reply)?;
    Ok(to)
}

fn line_of(alloc: Global, line: ReplyLine) -> Result<Vec<u8>, NoMemory> {
    text_of(alloc, &Reply::Line(line))
}

#[test]
fn each_success_has_its_words(rt: HostRuntime) -> Result<(), Fail> {
    let alloc = rt.alloc();
    let names = [ItemName::Edge(1), ItemName::Edge(2)].to_vec(alloc)?;
    let label = b"a}|b".to_vec(alloc)?;
    let mut cells = Row::new(alloc);
    for (number, values) in [(2, [-1, 5]), (1, [7, 2])] {
        let values = Row::from_vec(values.to_vec(alloc)?);
        cells.push(CellShow { number, values })?;
    }
    for (line, text) in [
        (ReplyLine::Empty, "=\n"),
        (ReplyLine::Nil, "= nil\n"),
        (ReplyLine::Num(i64::MIN), "= -9223372036854775808\n"),
        (ReplyLine::Two(2, 4_294_967_295), "= 2 4294967295\n"),
        (ReplyLine::Name(ItemName::Cell(5)), "= i5\n"),
        (ReplyLine::Names(Row::new(alloc)), "=\n"),
        (ReplyLine::Names(Row::from_vec(names)), "= e1 e2\n"),
        (ReplyLine::Label(Row::from_vec(label)), "= |{a}|b}|\n"),
        (ReplyLine::Cells(cells), "= i2:-1:5 i1:7:2\n"),
    ] {
        assert_eq!(rt; line_of(alloc, line)?.as_slice(), text.as_bytes());
    }
    Ok(())
}

#[test]
fn each_answer_has_its_lines(rt: HostRuntime) -> Result<(), Fail> {
    let alloc = rt.alloc();
    let nodes = Row::from_vec([4, 9].to_vec(alloc)?);
    let edges = Row::from_vec([3].to_vec(alloc)?);
    let arcs = Row::from_vec([0, 0].to_vec(alloc)?);
    let walk = Named {
        nodes,
        edges,
        answer: Answer::Reach(Reach::Walk(arcs)),
    };
    assert_eq!(rt;
        text_of(alloc, &Reply::Query(walk))?.as_slice(),
        b"= walk e3 e3\n".as_slice()
    );
    Ok(())
}

#[test]
fn a_matching_has_its_size_its_edges_and_its_labels(rt: HostRuntime) -> Result<(), Fail> {
    let alloc = rt.alloc();
    let matching = Named {
        nodes: Row::from_vec([4, 9].to_vec(alloc)?),
        edges: Row::from_vec([3, 8].to_vec(alloc)?),
        answer: Answer::Matching(MatchAnswer {
            edges: Row::from_vec([1].to_vec(alloc)?),
            cover: Row::from_vec([1, 0].to_vec(alloc)?),
        }),
    };
    assert_eq!(rt;
        text_of(alloc, &Reply::Query(matching))?.as_slice(),
        b"= matching 1\n+ match e8\n+ cover n4:1 n9:0\n".as_slice()
    );
    Ok(())
}

#[test]
fn a_flow_has_its_value_what_the_edges_carry_and_its_cut(rt: HostRuntime) -> Result<(), Fail> {
    let alloc = rt.alloc();
    let flow = Named {
        nodes: Row::from_vec([4, 9].to_vec(alloc)?),
        edges: Row::from_vec([3, 8, 1].to_vec(alloc)?),
        answer: Answer::Flow(FlowAnswer {
            flow: Row::from_vec([3, 0, 4_611_686_018_427_387_900].to_vec(alloc)?),
            value: 4_611_686_018_427_387_903,
            cut: Row::from_vec([1].to_vec(alloc)?),
        }),
    };
    let text = "= maxflow 4611686018427387903\n+ flow e3:3 e1:4611686018427387900\n+ cut n9\n";
    assert_eq!(rt;
        text_of(alloc, &Reply::Query(flow))?.as_slice(),
        text.as_bytes()
    );
    Ok(())
}

/// Fails where the answer on a net of the nodes n1 to n6 and the edges e1 to e5 isn't written as
/// this text.
fn tells(rt: &impl Abort, alloc: Global, answer: SpAnswer, text: &str) -> Result<(), Fail>
    requires { IsSpNamed (1 ∷ 2 ∷ 3 ∷ 4 ∷ 5 ∷ 6 ∷ []) (1 ∷ 2 ∷ 3 ∷ 4 ∷ 5 ∷ []) answer }
{
    let named = Named {
        nodes: Row::from_slice(alloc, &[1, 2, 3, 4, 5, 6])?,
        edges: Row::from_slice(alloc, &[1, 2, 3, 4, 5])?,
        answer: Answer::Sp(answer),
    };
    let written = text_of(alloc, &Reply::Query(named))?;
    assert_eq!(rt; written.as_slice(), text.as_bytes());
    Ok(())
}

fn at(node: u32, dist: i64, pred: Option<u32>) -> Finite
    ensures { result ≡ (record { node = node; dist = dist; pred = pred }) }
{
    Finite { node, dist, pred }
}

#[test]
fn shortest_paths_have_a_line_for_each_node_and_each_seed(rt: HostRuntime) -> Result<(), Fail> {
    let alloc = rt.alloc();
    let mut seeds = Row::new(alloc);
    seeds.push(Seed {
        start: 0,
        walk: Row::from_slice(alloc, &[0])?,
        cycle: Row::from_slice(alloc, &[1, 2])?,
    })?;
    let low = [
        Low {
            node: 1,
            why: Why::Seed(0),
        },
        Low {
            node: 2,
            why: Why::Seed(0),
        },
        Low {
            node: 3,
            why: Why::Arc(3),
        },
    ];
    let answer = SpAnswer {
        finite: Row::from_slice(alloc, &[at(0, 0, None), at(4, 5, Some(4))])?,
        seeds,
        low: Row::from_slice(alloc, &low)?,
        unreached: Row::from_slice(alloc, &[5])?,
    };
    let text = "= sp 2 3 1\n+ finite n1 0 -\n+ finite n5 5 e5\n+ seed n1 : e1 : e2 e3\n\
        + -inf n2 seed 1\n+ -inf n3 seed 1\n+ -inf n4 e4\n+ inf n6\n";
    tells(&rt, alloc, answer, text)
}

#[test]
fn unreached_nodes_come_last(rt: HostRuntime) -> Result<(), Fail> {
    let alloc = rt.alloc();
    let finite = [at(0, 0, None), at(1, 0, Some(0)), at(2, 0, Some(1))];
    let answer = SpAnswer {
        finite: Row::from_slice(alloc, &finite)?,
        seeds: Row::new(alloc),
        low: Row::new(alloc),
        unreached: Row::from_slice(alloc, &[3, 4])?,
    };
    let text = "= sp 3 0 2\n+ finite n1 0 -\n+ finite n2 0 e1\n+ finite n3 0 e2\n\
        + inf n4\n+ inf n5\n";
    tells(&rt, alloc, answer, text)
}

#[test]
fn distances_are_signed(rt: HostRuntime) -> Result<(), Fail> {
    let alloc = rt.alloc();
    let finite = [
        at(0, 0, None),
        at(1, -1, Some(0)),
        at(2, i64::MIN, Some(1)),
        at(3, 4_611_686_018_427_387_903, Some(2)),
    ];
    let answer = SpAnswer {
        finite: Row::from_slice(alloc, &finite)?,
        seeds: Row::new(alloc),
        low: Row::new(alloc),
        unreached: Row::new(alloc),
    };
    let text = "= sp 4 0 0\n+ finite n1 0 -\n+ finite n2 -1 e1\n\
        + finite n3 -9223372036854775808 e2\n+ finite n4 4611686018427387903 e3\n";
    tells(&rt, alloc, answer, text)
}

#[test]
fn a_source_on_a_negative_cycle_has_an_empty_walk(rt: HostRuntime) -> Result<(), Fail> {
    let alloc = rt.alloc();
    let mut seeds = Row::new(alloc);
    seeds.push(Seed {
        start: 0,
        walk: Row::new(alloc),
        cycle: Row::from_slice(alloc, &[2, 3])?,
    })?;
    let answer = SpAnswer {
        finite: Row::new(alloc),
        seeds,
        low: Row::from_slice(
            alloc,
            &[Low {
                node: 0,
                why: Why::Seed(0),
            }],
        )?,
        unreached: Row::new(alloc),
    };
    let text = "= sp 0 1 0\n+ seed n1 : : e3 e4\n+ -inf n1 seed 1\n";
    tells(&rt, alloc, answer, text)
}

/// Fails where the verdict on a net of the nodes n4 and n9 and the edges e3 and e8 isn't written as
/// this text.
fn says(rt: &impl Abort, alloc: Global, verdict: Verdict, text: &str) -> Result<(), Fail>
    requires { IsVerdictNamed (4 ∷ 9 ∷ []) (3 ∷ 8 ∷ []) verdict }
{
    let named = Named {
        nodes: Row::from_vec([4, 9].to_vec(alloc)?),
        edges: Row::from_vec([3, 8].to_vec(alloc)?),
        answer: Answer::Verdict(verdict),
    };
    let written = text_of(alloc, &Reply::Query(named))?;
    assert_eq!(rt; written.as_slice(), text.as_bytes());
    Ok(())
}

fn no(cond: Cond, place: u32) -> Verdict
    ensures { result ≡ No cond place }
{
    Verdict::No { cond, place }
}

#[test]
fn a_verdict_names_what_is_broken_and_where(rt: HostRuntime) -> Result<(), Fail> {
    let alloc = rt.alloc();
    says(&rt, alloc, Verdict::Yes, "= yes\n")?;
    says(&rt, alloc, no(Cond::SelfLoop, 1), "= no loop e8\n")?;
    says(&rt, alloc, no(Cond::Shared, 0), "= no shared n4\n")?;
    says(&rt, alloc, no(Cond::Size, 0), "= no size\n")?;
    says(&rt, alloc, no(Cond::Seed, 0), "= no seed 1\n")?;
    let gone = Named {
        nodes: Row::new(alloc),
        edges: Row::from_vec([8].to_vec(alloc)?),
        answer: Answer::Verdict(no(Cond::Gone, 0)),
    };
    assert_eq!(rt;
        text_of(alloc, &Reply::Query(gone))?.as_slice(),
        b"= no gone e8\n".as_slice()
    );
    Ok(())
}

/// Fails where the refusal isn't written as this text.
fn refuses(rt: &impl Abort, alloc: Global, refusal: Refusal, text: &str) -> Result<(), Fail>
    requires { IsRefusalNamed refusal }
{
    let written = text_of(alloc, &Reply::Refused(refusal))?;
    assert_eq!(rt; written.as_slice(), text.as_bytes());
    Ok(())
}

#[test]
fn each_refusal_of_a_command_has_its_words(rt: HostRuntime) -> Result<(), Fail> {
    let alloc = rt.alloc();
    refuses(&rt, alloc, Refusal::LongLine, "! line\n")?;
    refuses(&rt, alloc, Refusal::Syntax(5), "! syntax 5\n")?;
    refuses(&rt, alloc, Refusal::Number(8), "! number 8\n")?;
    refuses(
        &rt,
        alloc,
        Refusal::Object(ObjectName::Cell(5)),
        "! object i5\n",
    )?;
    refuses(
        &rt,
        alloc,
        Refusal::Object(ObjectName::Kept(Kept::Sp)),
        "! object sp\n",
    )?;
    let name = Row::from_vec(b"zest".to_vec(alloc)?);
    refuses(
        &rt,
        alloc,
        Refusal::Object(ObjectName::Name(name)),
        "! object zest\n",
    )?;
    let name = Row::from_vec(b"zest".to_vec(alloc)?);
    refuses(&rt, alloc, Refusal::Taken(name), "! taken zest\n")?;
    refuses(&rt, alloc, Refusal::FullNodes, "! full nodes\n")?;
    refuses(&rt, alloc, Refusal::FullEdges, "! full edges\n")?;
    refuses(&rt, alloc, Refusal::FullItems, "! full items\n")?;
    refuses(&rt, alloc, Refusal::FullObjects, "! full objects\n")?;
    refuses(&rt, alloc, Refusal::Spent, "! spent\n")?;
    refuses(&rt, alloc, Refusal::Size, "! size\n")?;
    refuses(&rt, alloc, Refusal::Bound, "! bound\n")?;
    refuses(&rt, alloc, Refusal::Absent, "! absent\n")?;
    refuses(&rt, alloc, Refusal::Big, "! big\n")?;
    refuses(
        &rt,
        alloc,
        Refusal::File(TextKind::Truncated, 10),
        "! file truncated 10\n",
    )?;
    refuses(&rt, alloc, Refusal::Store, "! store\n")?;
    refuses(&rt, alloc, Refusal::Memory, "! memory\n")
}

#[test]
fn each_refusal_of_an_item_has_its_words(rt: HostRuntime) -> Result<(), Fail> {
    let alloc = rt.alloc();
    refuses(
        &rt,
        alloc,
        Refusal::Unknown(ItemName::Node(3)),
        "! unknown n3\n",
    )?;
    refuses(&rt, alloc, Refusal::Dead(ItemName::Edge(1)), "! dead e1\n")?;
    refuses(
        &rt,
        alloc,
        Refusal::Hidden(ItemName::Node(1)),
        "! hidden n1\n",
    )?;
    refuses(
        &rt,
        alloc,
        Refusal::NotHidden(ItemName::Edge(1)),
        "! not_hidden e1\n",
    )?;
    refuses(&rt, alloc, Refusal::Undirected, "! undirected\n")?;
    refuses(
        &rt,
        alloc,
        Refusal::Covered(ItemName::Node(2)),
        "! covered n2\n",
    )?;
    refuses(
        &rt,
        alloc,
        Refusal::Label(ItemName::Edge(4)),
        "! label e4\n",
    )?;
    refuses(&rt, alloc, Refusal::Opposite, "! opposite\n")?;
    refuses(&rt, alloc, Refusal::Reversal(3), "! reversal e3\n")?;
    refuses(&rt, alloc, Refusal::Larger(-5), "! larger -5\n")?;
    refuses(&rt, alloc, Refusal::Same, "! same\n")?;
    refuses(&rt, alloc, Refusal::Negative(1), "! negative e1\n")?;
    refuses(&rt, alloc, Refusal::Crossed(1), "! crossed e1\n")?;
    let sum = "! unbalanced -170141183460469231731687303715884105728\n";
    refuses(&rt, alloc, Refusal::Unbalanced(i128::MIN), sum)?;
    refuses(&rt, alloc, Refusal::Mixed(1), "! mixed n1\n")
}
