//! What queries are answered, on small scripts.

use crate::tests::answers;
use std::test::Fail;

// Of several answers that are right, these are the ones that the searches find.
#[test]
fn answers_queries_for_matchings(rt: HostRuntime) -> Result<(), Fail> {
    let rows = [
        // A graph without edges, and one without nodes.
        (
            "matching\nnode\nnode\nmatching\nmatching n1\nmatchings\n",
            "= matching 0\n+ match\n+ cover\n= n1\n= n2\n= matching 0\n+ match\n\
             + cover n1:0 n2:0\n! syntax 10\n! syntax 1\n",
        ),
        // An odd cycle.
        (
            "node\nnode\nnode\nnode\nnode\nedge n1 n2\nedge n2 n3\nedge n3 n4\nedge n4 n5\n\
             edge n5 n1\nmatching\n",
            "= n1\n= n2\n= n3\n= n4\n= n5\n= e1\n= e2\n= e3\n= e4\n= e5\n= matching 2\n\
             + match e2 e5\n+ cover n1:3 n2:3 n3:3 n4:3 n5:3\n",
        ),
        // Two triangles and an edge between them.
        (
            "node\nnode\nnode\nnode\nnode\nnode\nedge n1 n2\nedge n2 n3\nedge n3 n1\n\
             edge n4 n5\nedge n5 n6\nedge n6 n4\nedge n3 n4\nmatching\n",
            "= n1\n= n2\n= n3\n= n4\n= n5\n= n6\n= e1\n= e2\n= e3\n= e4\n= e5\n= e6\n= e7\n\
             = matching 3\n+ match e1 e5 e7\n+ cover n1:1 n2:2 n3:2 n4:2 n5:2 n6:2\n",
        ),
        // A triangle and a cycle of five nodes that share a node; a loop.
        (
            "node\nnode\nnode\nnode\nnode\nnode\nnode\nnode\nedge n1 n2\nedge n2 n3\n\
             edge n3 n1\nedge n3 n4\nedge n4 n5\nedge n5 n6\nedge n6 n7\nedge n7 n1\n\
             edge n5 n8\nedge n8 n8\nmatching\n",
            "= n1\n= n2\n= n3\n= n4\n= n5\n= n6\n= n7\n= n8\n= e1\n= e2\n= e3\n= e4\n= e5\n\
             = e6\n= e7\n= e8\n= e9\n= e10\n= matching 4\n+ match e1 e4 e7 e9\n\
             + cover n1:1 n2:2 n3:2 n4:2 n5:2 n6:2 n7:2 n8:2\n",
        ),
        // What is hidden is left out.
        (
            "node\nnode\nnode\nnode\nedge n1 n2\nedge n2 n3\nedge n3 n4\nhide_node n2\n\
             matching\nhide_edge e3\nmatching\nrestore_all\nmatching\n",
            "= n1\n= n2\n= n3\n= n4\n= e1\n= e2\n= e3\n=\n= matching 1\n+ match e3\n\
             + cover n1:0 n3:1 n4:2\n=\n= matching 0\n+ match\n+ cover n1:0 n3:0 n4:0\n=\n\
             = matching 2\n+ match e1 e3\n+ cover n1:1 n2:2 n3:2 n4:2\n",
        ),
        // An undirected graph with a loop and parallel edges.
        (
            "make_undirected\nnode\nnode\nnode\nedge n1 n1\nedge n1 n2\nedge n2 n1\n\
             edge n2 n3\nmatching\n",
            "=\n= n1\n= n2\n= n3\n= e1\n= e2\n= e3\n= e4\n= matching 1\n+ match e4\n\
             + cover n1:0 n2:1 n3:0\n",
        ),
    ];
    answers(&rt, &rt, &rows)
}

// A kept answer is checked of the graph as it is then.
#[test]
fn checks_the_last_matching(rt: HostRuntime) -> Result<(), Fail> {
    let rows = [
        (
            "node\nnode\nnode\nnode\nnode\nnode\nedge n1 n2\nedge n2 n3\nedge n3 n1\n\
             edge n4 n5\nedge n5 n6\nedge n6 n4\nedge n3 n4\ncheck matching\nmatching\n\
             check matching\nhide_edge e7\ncheck matching\nrestore_edge e7\nnode\n\
             check matching\ncheck sp\ncheck\ncheck reach\n",
            "= n1\n= n2\n= n3\n= n4\n= n5\n= n6\n= e1\n= e2\n= e3\n= e4\n= e5\n= e6\n= e7\n\
             ! object matching\n= matching 3\n+ match e1 e5 e7\n\
             + cover n1:1 n2:2 n3:2 n4:2 n5:2 n6:2\n= yes\n=\n= no gone e7\n=\n= n7\n\
             = no missing n7\n! object sp\n! syntax 6\n! syntax 7\n",
        ),
        (
            "node\nnode\nnode\nedge n2 n3\nmatching\nedge n1 n3\ncheck matching\n",
            "= n1\n= n2\n= n3\n= e1\n= matching 1\n+ match e1\n+ cover n1:0 n2:1 n3:2\n= e2\n\
             = no label e2\n",
        ),
        // Each other condition, by edits that neither take away nor add an item.
        (
            "node\nnode\nnode\nnode\nedge n1 n2\nedge n3 n4\nmatching\nmove_edge e2 n3 n3\n\
             check matching\nmove_edge e2 n2 n3\ncheck matching\nmove_edge e2 n4 n3\n\
             check matching\nhide_node n1\ncheck matching\nclear\ncheck matching\nmatching\n\
             check matching\n",
            "= n1\n= n2\n= n3\n= n4\n= e1\n= e2\n= matching 2\n+ match e1 e2\n\
             + cover n1:1 n2:2 n3:2 n4:2\n=\n= no loop e2\n=\n= no shared n2\n=\n= yes\n=\n\
             = no gone e1\n=\n= no gone e1\n= matching 0\n+ match\n+ cover\n= yes\n",
        ),
    ];
    answers(&rt, &rt, &rows)
}

// A negative cycle that is reached, one of weight 0, an isolated node, sums at the bound.
#[test]
fn answers_queries_for_shortest_paths(rt: HostRuntime) -> Result<(), Fail> {
    let rows = [
        (
            "node\nnode\nnode\nnode\nnode\nnode\nedge n1 n2 |{1}|\nedge n2 n3 |{-2}|\n\
             edge n3 n2 |{1}|\nedge n3 n4 |{0}|\nedge n1 n5 |{5}|\nedge_array c labels\nsp n1 c\n\
             check sp\n",
            "= n1\n= n2\n= n3\n= n4\n= n5\n= n6\n= e1\n= e2\n= e3\n= e4\n= e5\n=\n= sp 2 3 1\n\
             + finite n1 0 -\n+ finite n5 5 e5\n+ seed n1 : e1 : e2 e3\n+ -inf n2 seed 1\n\
             + -inf n3 seed 1\n+ -inf n4 e4\n+ inf n6\n= yes\n",
        ),
        (
            "node\nnode\nnode\nnode\nnode\nedge n1 n2 |{0}|\nedge n2 n3 |{0}|\n\
             edge n3 n2 |{0}|\nedge n4 n5 |{0}|\nedge n5 n4 |{0}|\nedge_array c labels\n\
             sp n1 c\n",
            "= n1\n= n2\n= n3\n= n4\n= n5\n= e1\n= e2\n= e3\n= e4\n= e5\n=\n= sp 3 0 2\n\
             + finite n1 0 -\n+ finite n2 0 e1\n+ finite n3 0 e2\n+ inf n4\n+ inf n5\n",
        ),
        (
            "node\nnode\nedge n1 n2 |{4611686018427387903}|\nedge_array c labels\nsp n1 c\n\
             edge n1 n2 |{1}|\nsp n1 c\nedge_array d labels\nsp n1 d\ndijkstra n1 d\n",
            "= n1\n= n2\n= e1\n=\n= sp 2 0 0\n+ finite n1 0 -\n\
             + finite n2 4611686018427387903 e1\n= e2\n! covered e2\n=\n! bound\n! bound\n",
        ),
        (
            "node\nnode\nedge n1 n2 |{-1}|\nedge_array c labels\ndijkstra n1 c\nsp n1 c\n\
             set c e1 0\ndijkstra n1 c\n",
            "= n1\n= n2\n= e1\n=\n! negative e1\n= sp 2 0 0\n+ finite n1 0 -\n\
             + finite n2 -1 e1\n=\n= sp 2 0 0\n+ finite n1 0 -\n+ finite n2 0 e1\n",
        ),
        // The leftmost object or item, a hidden source, an undirected graph, a map.
        (
            "node\nnode\nedge n1 n2\nnode_map b 1\nedge_map c 3\nsp n3 c\nsp n3 x\nsp n1 b\n\
             hide_node n1\nsp n1 c\nrestore_node n1\nmake_undirected\nsp n1 c\nsp n1 x\n\
             make_directed\nsp n2 c\n",
            "= n1\n= n2\n= e1\n=\n=\n! unknown n3\n! object x\n! object b\n=\n! hidden n1\n=\n=\n\
             ! undirected\n! object x\n=\n= sp 1 0 1\n+ finite n2 0 -\n+ inf n1\n",
        ),
    ];
    answers(&rt, &rt, &rows)
}

// Costs and the graph change, and objects go, between an answer and its check.
#[test]
fn checks_the_last_shortest_paths(rt: HostRuntime) -> Result<(), Fail> {
    let rows = [
        (
            "node\nnode\nedge n1 n2 |{3}|\nedge_array c labels\ncheck sp\nsp n1 c\ncheck sp\n\
             set c e1 2\ncheck sp\nedge n1 n2\ncheck sp\ndel_edge e2\nnode\ncheck sp\n",
            "= n1\n= n2\n= e1\n=\n! object sp\n= sp 2 0 0\n+ finite n1 0 -\n+ finite n2 3 e1\n\
             = yes\n=\n= no tight n2\n= e2\n! covered e2\n=\n= n3\n= no missing n3\n",
        ),
        // The source, an edge of a line, a node without an edge; another arc that is shorter.
        (
            "node\nnode\nnode\nedge n1 n2\nedge_map c 2\ndijkstra n1 c\nedge n1 n2\ncheck sp\n\
             set c e2 1\ncheck sp\nset c e2 2\nedge n2 n3\ncheck sp\nhide_edge e3\nhide_edge e1\n\
             check sp\nhide_node n3\ncheck sp\nhide_node n1\ncheck sp\nrestore_all\n\
             del_edge e3\ncheck sp\ndel_node n3\ncheck sp\n",
            "= n1\n= n2\n= n3\n= e1\n=\n= sp 2 0 1\n+ finite n1 0 -\n+ finite n2 2 e1\n+ inf n3\n\
             = e2\n= yes\n=\n= no shorter e2\n=\n= e3\n= no leaves e3\n=\n=\n= no gone e1\n=\n\
             = no gone e1\n=\n= no gone n1\n=\n=\n= yes\n=\n= no gone n3\n",
        ),
        // The object that had the costs is dropped, and another has its name.
        (
            "node\nedge_map c 2\nsp n1 c\ncheck sp\ndrop c\ncheck sp\nlist c\ncheck sp\ndrop c\n\
             make_undirected\ncheck sp\nedge_map c 2\ncheck sp\nmake_directed\ncheck sp\n\
             edge n1 n1\ncheck sp\nset c e1 -1\ncheck sp\nsp n1 c\ncheck sp\n",
            "= n1\n=\n= sp 1 0 0\n+ finite n1 0 -\n= yes\n=\n! object c\n=\n! object c\n=\n=\n\
             ! object c\n=\n! undirected\n=\n= yes\n= e1\n= yes\n=\n= no shorter e1\n\
             = sp 0 1 0\n+ seed n1 : : e1\n+ -inf n1 seed 1\n= yes\n",
        ),
    ];
    answers(&rt, &rt, &rows)
}

// Flows and cuts that are the only ones, so that no search finds others.
#[test]
fn answers_queries_for_flows(rt: HostRuntime) -> Result<(), Fail> {
    let rows = [
        // Arcs into the source and out of the sink, parallel ones, one without room.
        (
            "node\nnode\nnode\nedge n1 n2 |{2}|\nedge n2 n3 |{3}|\nedge n2 n1 |{5}|\n\
             edge n3 n2 |{4}|\nedge n1 n3 |{0}|\nedge n2 n2 |{5}|\nedge_array c labels\n\
             maxflow n1 n3 c\nmaxflow n3 n1 c\ncheck maxflow\n",
            "= n1\n= n2\n= n3\n= e1\n= e2\n= e3\n= e4\n= e5\n= e6\n=\n= maxflow 2\n\
             + flow e1:2 e2:2\n+ cut n1\n= maxflow 4\n+ flow e3:4 e4:4\n+ cut n3\n\
             = yes\n",
        ),
        // Refusals in their order.
        (
            "make_undirected\nnode\nnode\nedge n1 n2 |{-1}|\nmaxflow n1 n1 c\n\
             edge_array c labels\nmaxflow n1 n1 c\nmake_directed\nedge n2 n1\n\
             maxflow n1 n1 c\nhide_edge e2\nmaxflow n1 n1 c\nmaxflow n1 n2 c\n\
             maxflow n1 n3 c\nmaxflow n1 c\ncheck maxflow\n",
            "=\n= n1\n= n2\n= e1\n! object c\n=\n! undirected\n=\n= e2\n! covered e2\n=\n\
             ! same\n! negative e1\n! unknown n3\n! syntax 12\n! object maxflow\n",
        ),
        // Sums of just the bound and of one more.
        (
            "node\nnode\nedge n1 n2 |{4611686018427387902}|\nedge n1 n2 |{1}|\n\
             edge_array c labels\nmaxflow n1 n2 c\nset c e2 2\nmaxflow n1 n2 c\n\
             check maxflow\n",
            "= n1\n= n2\n= e1\n= e2\n=\n= maxflow 4611686018427387903\n\
             + flow e1:4611686018427387902 e2:1\n+ cut n1\n=\n! bound\n= no value\n",
        ),
    ];
    answers(&rt, &rt, &rows)
}

// The capacities that count are those of the object of the name as it is then.
#[test]
fn checks_the_last_flow(rt: HostRuntime) -> Result<(), Fail> {
    let rows = [(
        "node\nnode\nnode\nedge n1 n2 |{3}|\nedge n2 n3 |{2}|\nedge_array c labels\n\
         maxflow n1 n3 c\ncheck maxflow\nset c e2 1\ncheck maxflow\nset c e2 3\n\
         check maxflow\nset c e2 2\nnode\ncheck maxflow\nmove_edge e2 n1 n3\n\
         check maxflow\nmove_edge e2 n2 n3\nedge n1 n3\ncheck maxflow\nhide_edge e3\n\
         check maxflow\nhide_edge e1\ncheck maxflow\nhide_node n3\ncheck maxflow\n\
         hide_node n1\ncheck maxflow\nrestore_all\nmake_undirected\ncheck maxflow\n\
         drop c\ncheck maxflow\nedge_map c 7\nmake_directed\ncheck maxflow\n",
        "= n1\n= n2\n= n3\n= e1\n= e2\n=\n= maxflow 2\n+ flow e1:2 e2:2\n+ cut n1 n2\n\
         = yes\n=\n= no bounds e2\n=\n= no value\n=\n= n4\n= yes\n=\n= no balance n2\n=\n\
         = e3\n! covered e3\n=\n= yes\n=\n= no gone e1\n=\n= no gone n3\n=\n= no gone n1\n\
         =\n=\n! undirected\n=\n! object c\n=\n=\n= no value\n",
    )];
    answers(&rt, &rt, &rows)
}
