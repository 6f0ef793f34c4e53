//! Tags of nodes, which fall along arcs.
ghost use Rattle.std.specs.Prelude.{◌≡◌, ℕ, ◌<◌, ◌*◌, ◌^◌, ◌+ℤ◌, ◌<ℤ◌, length, IfOk, MatchBool};
ghost use Rattle.graph_defs.specs.Net.{source, target};
ghost use Rattle.sp_search.specs.Tags.{far, stretch, length_of, label_of, IsPriced, IsTagged, AreAbove, HasFallen, HasStayed, IsLess, AreSettled};
ghost use Rattle.sp_search.specs.Wide.{IsWide};

use graph_defs::Net;
use leda_base::NoMemory;
use std::alloc::Global;

/// The label of a node to which no walk is known.
pub const FAR: i128 = 100_000_000_000_000_000_000_000_000_000_000;

/// What is known of a node: a label that is no less than the length of some walk, and the walk's
/// last arc.
#[derive(Clone, Copy)]
pub struct Tag {
    pub label: i128,
    pub by: Option<u32>,
}

/// The node where an arc begins.
pub fn source_of(net: &Net, arc: u32) -> u32
    requires wide { IsWide net.now }
    requires arc { arc < length net.now.arcs }
    ensures is { result ≡ source net.now arc }
    ensures node { result < net.now.n }
{
    net.arcs.as_slice()[arc as usize].0
}

/// The node where it ends.
pub fn target_of(net: &Net, arc: u32) -> u32
    requires wide { IsWide net.now }
    requires arc { arc < length net.now.arcs }
    ensures is { result ≡ target net.now arc }
    ensures node { result < net.now.n }
{
    net.arcs.as_slice()[arc as usize].1
}

/// The tags before the first round: only the source has one, unless it is shut.
pub fn first_tags(
    alloc: Global,
    net: &Net,
    s: u32,
    cost: &[i64],
    shut: &[bool],
) -> Result<Vec<Tag>, NoMemory>
    requires s { s < net.now.n }
    requires shut { length shut.now ≡ net.now.n }
    ensures { IfOk result (λ tags. IsTagged net.now s cost.now shut.now tags.items) }
{
    let unknown = Tag {
        label: FAR,
        by: None,
    };
    let mut tags = vec![in alloc; unknown; net.n as usize]?;
    if !shut[s as usize] {
        tags[s as usize] = Tag { label: 0, by: None };
    }
    Ok(tags)
}

/// Lets labels fall along each arc once, but none of a node that is shut. Whether one did.
///
/// R. Bellman's and L. R. Ford's rounds (1956 to 1958).
pub fn round(net: &Net, cost: &[i64], shut: &[bool], tags: &mut Vec<Tag>) -> bool
    requires priced { IsPriced net.now cost.now }
    requires shut { length shut.now ≡ net.now.n }
    requires tags { length tags.old.items ≡ net.now.n }
    requires above { AreAbove tags.old.items (10 ^ 31) }
    ensures tagged { (s : ℕ) → IsTagged net.now s cost.now shut.now tags.old.items
        → IsTagged net.now s cost.now shut.now tags.new.items }
    ensures falls { MatchBool result (IsLess tags.old.items tags.new.items)
        (AreSettled net.now cost.now shut.now (length net.now.arcs) tags.old.items tags.new.items) }
{
    let mut falls = false;
    for arc in 0..net.arcs.as_slice().len() {
        if relax(net, cost, shut, tags, arc as u32) {
            falls = true;
        }
    }
    falls
}

// Lets the label of an arc's target fall. Whether it did.
fn relax(net: &Net, cost: &[i64], shut: &[bool], tags: &mut Vec<Tag>, arc: u32) -> bool
    requires priced { IsPriced net.now cost.now }
    requires arc { arc < length net.now.arcs }
    requires shut { length shut.now ≡ net.now.n }
    requires tags { length tags.old.items ≡ net.now.n }
    requires above { AreAbove tags.old.items (9 * 10 ^ 31) }
    ensures { MatchBool result
        (HasFallen net.now cost.now shut.now arc tags.old.items tags.new.items)
        (HasStayed net.now cost.now shut.now arc tags.old.items tags.new.items) }
{
    let to = target_of(net, arc);
    if label_at(tags.as_slice(), source_of(net, arc)) >= FAR || shut[to as usize] {
        return false;
    }
    let label = label_along(net, cost, tags.as_slice(), arc);
    if label >= label_at(tags.as_slice(), to) {
        return false;
    }
    tags[to as usize] = Tag {
        label,
        by: Some(arc),
    };
    true
}

// The label of a node.
fn label_at(tags: &[Tag], node: u32) -> i128
    requires { node < length tags.now }
    ensures { result ≡ label_of tags.now node }
{
    tags[node as usize].label
}

// The label that an arc gives to its target.
fn label_along(net: &Net, cost: &[i64], tags: &[Tag], arc: u32) -> i128
    requires priced { IsPriced net.now cost.now }
    requires arc { arc < length net.now.arcs }
    requires tags { length tags.now ≡ net.now.n }
    requires above { AreAbove tags.now (9 * 10 ^ 31) }
    requires begins { label_of tags.now (source net.now arc) <ℤ far }
    ensures { result ≡ (label_of tags.now (source net.now arc) +ℤ length_of cost.now arc) }
{
    label_at(tags, source_of(net, arc)) + stretched(cost[arc as usize])
}

// The length of an arc of this cost.
fn stretched(cost: i64) -> i128
    ensures { result ≡ stretch cost }
{
    i128::from(cost) * 131_072 + 1
}
