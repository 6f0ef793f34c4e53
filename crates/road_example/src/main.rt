//! The library without its console: a map of roads, one of which is closed, the shortest ways from
//! the harbour, and a check of the answer.
#![tactic(auto)]

ghost use Rattle.std.specs.Prelude.{IfSome};
ghost use Rattle.graph_state.specs.Formed.{IsLabel};

use anyhow::{Context, bail};
use graph_core::{EdgeItem, Graph, Kind, NodeItem};
use graph_defs::{Finite, Net, SpAnswer, Verdict};
use hide_restore::{Shown, hide_edge, net};
use leda_base::{LABEL_LIMIT, Row, is_one_line, read_i64};
use sp_check::check_sp;
use sp_fast::shortest;
use std::alloc::Global;

/// A label, if the text is one: a line of at most 60,000 bytes. None also where there is no memory.
fn label(alloc: Global, text: &str) -> Option<Row<u8>>
    ensures { IfSome result IsLabel }
{
    let bytes = text.as_bytes();
    if bytes.len() > LABEL_LIMIT {
        return None;
    }
    if !is_one_line(bytes) {
        return None;
    }
    match Row::from_slice(alloc, bytes) {
        Ok(row) => Some(row),
        Err(_) => None,
    }
}

/// A place of the map. Its name is its node's label.
fn place(map: &mut Graph, alloc: Global, name: &str) -> anyhow::Result<NodeItem> {
    let name = label(alloc, name).context("no label")?;
    map.new_node(name).ok().context("the map is full")
}

/// A road from one place to another. How many minutes it takes is its edge's label.
fn road(
    map: &mut Graph,
    alloc: Global,
    from: NodeItem,
    to: NodeItem,
    minutes: &str,
) -> anyhow::Result<EdgeItem> {
    let minutes = label(alloc, minutes).context("no label")?;
    map.new_edge(from, to, minutes)
        .ok()
        .context("the map is full")
}

/// The minutes that each open road takes, in the order of the net's arcs.
fn minutes_of(alloc: Global, map: &Graph, shown: &Shown) -> anyhow::Result<Vec<i64>> {
    let mut minutes = Vec::new(alloc);
    for road in shown.edges.as_slice() {
        let label = map.edge_label(*road).ok().context("a road is closed")?;
        minutes.push(read_i64(label).ok().context("no number of minutes")?)?;
    }
    Ok(minutes)
}

/// The shortest ways from a node of the net, if the minutes are those of its arcs.
fn shortest_ways(
    alloc: Global,
    net: &Net,
    source: u32,
    minutes: &[i64],
) -> anyhow::Result<SpAnswer> {
    if !net.is_valid() || source >= net.n || minutes.len() != net.arcs.as_slice().len() {
        bail!("the net isn't that of the map");
    }
    let Ok(answer) = shortest(alloc, net, source, minutes) else {
        bail!("the minutes are too many");
    };
    let Ok(Verdict::Yes) = check_sp(alloc, net, source, minutes, &answer) else {
        bail!("the answer is wrong");
    };
    Ok(answer)
}

/// Prints how long it takes to each place.
fn print_ways(
    rt: &HostRuntime,
    map: &Graph,
    places: &[NodeItem],
    ways: &[Finite],
) -> anyhow::Result<()> {
    for way in ways {
        let place = places.get(way.node as usize).context("a place")?;
        let name = map.node_label(*place).ok().context("a place is hidden")?;
        let name = str::from_utf8(name).ok().context("a name isn't text")?;
        println!(rt; "{name}: {} minutes", way.dist)?;
    }
    Ok(())
}

/// Asks for the shortest ways from a place along the roads that are open, and prints them.
fn tell(rt: &HostRuntime, map: &Graph, from: NodeItem) -> anyhow::Result<()> {
    let shown = net(rt.alloc(), map).ok().context("no memory")?;
    let minutes = minutes_of(rt.alloc(), map, &shown)?;
    let source = shown
        .places
        .place(from.0.serial)
        .context("the place is hidden")?;
    let answer = shortest_ways(rt.alloc(), &shown.net, source, minutes.as_slice())?;
    print_ways(rt, map, shown.nodes.as_slice(), answer.finite.as_slice())?;
    println!(rt;
        "places without a way: {}",
        answer.unreached.as_slice().len()
    )?;
    Ok(())
}

/// The places and the roads. The harbour, and the road from the bridge to the market.
fn fill(map: &mut Graph, alloc: Global) -> anyhow::Result<(NodeItem, EdgeItem)> {
    let harbour = place(map, alloc, "harbour")?;
    let bridge = place(map, alloc, "bridge")?;
    let market = place(map, alloc, "market")?;
    place(map, alloc, "quarry")?;
    road(map, alloc, harbour, bridge, "4")?;
    let over_the_bridge = road(map, alloc, bridge, market, "3")?;
    road(map, alloc, harbour, market, "12")?;
    Ok((harbour, over_the_bridge))
}

fn main(rt: HostRuntime) -> anyhow::Result<()> {
    let mut map = Graph::new(rt.alloc(), Kind::Directed);
    let (harbour, over_the_bridge) = fill(&mut map, rt.alloc())?;
    tell(&rt, &map, harbour)?;
    println!(rt; "the road over the bridge is closed")?;
    let Ok(()) = hide_edge(&mut map, over_the_bridge) else {
        bail!("it is closed already");
    };
    tell(&rt, &map, harbour)
}
