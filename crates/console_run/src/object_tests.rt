//! What commands on objects are answered, on small scripts.

use crate::Status;
use crate::tests::{answers, run_of};
use std::test::Fail;

#[test]
fn answers_commands_on_objects(rt: HostRuntime) -> Result<(), Fail> {
    let rows = [
        (
            "list l\nappend l 4\npush l 3\ninsert_behind i1 9\nitems l\ndel_item i1\nsucc i2\nsucc i3\n\
             contents i1\nassign i3 -7\nitems l\nlist k\nitems k\n",
            "=\n= i1\n= i2\n= i3\n= i2:3 i1:4 i3:9\n=\n= i3\n= nil\n! dead i1\n=\n= i2:3 i3:-7\n=\n=\n",
        ),
        (
            "queue q\nqueue_insert q 5 50\ndecrease i1 9\ndecrease i1 2\nitems q\nfind_min q\n\
             del_min q\nprio i1\nqueue_insert q 5 1\nqueue_insert q 2 2\nqueue_insert q 5 3\n\
             queue_insert q -2 4\nitems q\nitems i2\n",
            "=\n= i1\n! larger 5\n=\n= i1:2:50\n= i1\n= 2\n! dead i1\n= i2\n= i3\n= i4\n= i5\n\
             = i5:-2:4 i3:2:2 i2:5:1 i4:5:3\n! syntax 7\n",
        ),
        (
            "dict d\ndict_insert d 7 1\ndict_insert d 7 2\ndict_insert d -1 5\nfirst d\nlookup d 8\n\
             items d\npush d 4\ncontents i1\n",
            "=\n= i1\n= i1\n= i2\n= i2\n= nil\n= i2:-1:5 i1:7:2\n! object d\n! object i1\n",
        ),
        (
            "push\npush l 9223372036854775808\nnode_array a 9223372036854775808 zz\ndel_node n0\n",
            "! syntax 5\n! number 8\n! syntax 34\n! syntax 10\n",
        ),
    ];
    answers(&rt, &rt, &rows)
}

#[test]
fn answers_commands_on_arrays_and_maps(rt: HostRuntime) -> Result<(), Fail> {
    let rows = [
        (
            "node\nnode_array a 5\nnode\nget a n1\nget a n2\nnode_map m 7\nset m n2 -3\nget m n2\n\
             node_array a 1\ndrop a\nget a n1\n",
            "= n1\n=\n= n2\n= 5\n! covered n2\n=\n=\n= -3\n! taken a\n=\n! object a\n",
        ),
        // The first label that writes no number of 64 bits is named, behind a name that is taken.
        (
            "node |{4}|\nnode |{-7}|\nnode |{x}|\nnode_array a labels\nlabel n3 |{9223372036854775807}|\n\
             node_array a labels\nget a n2\nget a n3\nnode |{9223372036854775808}|\nnode\n\
             node_array a labels\nnode_array b labels\nget b n1\nedge n1 n2 |{8}|\nedge n1 n2\n\
             edge_array c labels\ndel_edge e2\nedge_array c labels\nget c e1\n",
            "= n1\n= n2\n= n3\n! label n3\n=\n=\n= -7\n= 9223372036854775807\n= n4\n= n5\n! taken a\n\
             ! label n4\n! object b\n= e1\n= e2\n! label e2\n=\n=\n= 8\n",
        ),
        // What is hidden has values as what is visible.
        (
            "node\nnode\nedge n1 n2 |{5}|\nhide_edge e1\nhide_node n2\nedge_array c labels\nget c e1\n\
             set c e1 8\nnode_map m 3\nget m n2\nset m n2 4\nget m n1\nrestore_all\nget c e1\nget m n2\n",
            "= n1\n= n2\n= e1\n=\n=\n=\n= 5\n=\n=\n= 3\n=\n= 3\n=\n= 8\n= 4\n",
        ),
        // What is dead has none, and what is new is in no array.
        (
            "node\nnode\nnode\nnode_array a 1\nset a n3 6\ndel_node n2\nget a n2\nset a n2 5\nget a n4\n\
             node\nget a n4\nset a n4 2\nget a n3\nrev_all\nmake_undirected\nget a n1\nclear\nget a n3\n\
             node\nget a n5\nnode_array b 2\nget b n5\nnode_map m 7\nget m n5\ndel_node n5\nget m n5\n\
             get b n5\nset m n5 1\n",
            "= n1\n= n2\n= n3\n=\n=\n=\n! dead n2\n! dead n2\n! unknown n4\n= n4\n! covered n4\n\
             ! covered n4\n= 6\n=\n=\n= 1\n=\n! dead n3\n= n5\n! covered n5\n=\n= 2\n=\n= 7\n=\n\
             ! dead n5\n! dead n5\n! dead n5\n",
        ),
        // An array or a map is one of nodes or one of edges, and no container.
        (
            "node\nnode\nedge n1 n2\nnode_array a 1\nedge_map m 2\nget a e1\nset m n1 4\nget m e1\nsize a\n\
             push a 1\nitems m\nlist l\nget l n1\nget k n9\nget a n9\nset a n1 x\nset a n1\ndrop a\n\
             edge_array a -3\nget a e1\nset a e1 -9223372036854775808\nget a e1\nget m e1\n",
            "= n1\n= n2\n= e1\n=\n=\n! object a\n! object m\n= 2\n! object a\n! object a\n! object m\n=\n\
             ! object l\n! object k\n! unknown n9\n! syntax 10\n! syntax 9\n=\n=\n= -3\n=\n\
             = -9223372036854775808\n= 2\n",
        ),
    ];
    answers(&rt, &rt, &rows)
}

#[test]
fn there_are_at_most_a_hundred_objects(rt: HostRuntime) -> Result<(), Fail> {
    let mut script = String::new(rt.alloc());
    for k in 1..101_u32 {
        script.push_str(&format!(in rt.alloc(); "list a{k}\n")?)?;
    }
    script.push_str(
        "list b\nnode_map b 1\nnode_array b labels\nnode\nnode_array b labels\nnode_array b 1\n\
         list a7\ndrop a7\nnode_array b 1\nlist a7\n",
    )?;
    let (ended, sink) = run_of(&rt, &script, 4096)?;
    assert_eq!(rt; ended, Status::Done);
    assert!(rt; sink.bytes().starts_with(b"=\n=\n=\n"));
    assert!(rt;
        sink.bytes().ends_with(
            b"=\n! full objects\n! full objects\n! full objects\n= n1\n! label n1\n! full objects\n\
              ! taken a7\n=\n=\n! full objects\n"
        )
    );
    // A hundred replies of two bytes, and those behind them.
    assert_eq!(rt; sink.bytes().len(), 200 + 5 * 15 + 5 + 11 + 11 + 4);
    Ok(())
}
