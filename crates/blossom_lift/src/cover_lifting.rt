//! A cover of a contracted net brought back to the larger one.
ghost use Rattle.std.specs.Prelude.{◌≡◌, ◌≢◌, ◌<◌, ◌≤◌, length, map, slice_index, All, IfOk};
ghost use Rattle.graph_defs.specs.declared.net.TheConstants.{NODE_LIMIT};
ghost use Rattle.graph_defs.specs.Matching.{IsOddSetCover};
ghost use Rattle.graph_defs.specs.Net.{IsValid};
ghost use Rattle.blossom_lift.specs.Contraction.{IsLevel, IsLiftedCover};
ghost use Rattle.blossom_lift.specs.Passes.{label_of, IsFitLabel};

use crate::level::Level;
use crate::marks::unused_label;
use graph_defs::Net;
use leda_base::{NoMemory, Row};
use match_core::Blossom;
use std::alloc::Global;

/// A cover of the larger net for one of the smaller net in which the hub isn't labelled 1, where
/// `contract` gives the smaller net for the same net and blossom. The nodes outside keep their
/// labels, and those of the blossom have the hub's, or a new one where the hub is labelled 0. So
/// its size is greater by half of one less than the blossom's number of nodes. In time and memory
/// linear in the nodes.
///
/// # Errors
/// `NoMemory` where the room isn't given.
pub fn lift_cover(
    alloc: Global,
    net: &Net,
    b: &Blossom,
    small: &Level,
    cover: &[u32],
) -> Result<Row<u32>, NoMemory>
    requires valid { IsValid net.now }
    requires level { IsLevel net.now b.now small.now }
    requires cover { IsOddSetCover small.now.net cover.now }
    requires hub { slice_index cover.now small.now.hub ≢ 1 }
    ensures { IfOk result (λ lifted. IsLiftedCover net.now b.now cover.now lifted) }
{
    let label = label_for(alloc, cover, small.hub)?;
    labels(alloc, cover, small.image.as_slice(), small.hub, label)
}

// The hub's label, or a new one where that is 0.
fn label_for(alloc: Global, cover: &[u32], hub: u32) -> Result<u32, NoMemory>
    requires few { length cover.now ≤ NODE_LIMIT }
    requires hub { hub < length cover.now }
    requires apart { slice_index cover.now hub ≢ 1 }
    ensures { IfOk result (λ label. IsFitLabel cover.now hub label) }
{
    let label = cover[hub as usize];
    if label >= 2 {
        return Ok(label);
    }
    unused_label(alloc, cover)
}

// The label of each node: that of its image, and at the hub this label.
fn labels(
    alloc: Global,
    cover: &[u32],
    images: &[u32],
    hub: u32,
    label: u32,
) -> Result<Row<u32>, NoMemory>
    requires { All (λ image. image < length cover.now) images.now }
    ensures { IfOk result (λ lifted. lifted ≡ map (label_of cover.now hub label) images.now) }
{
    let mut lifted = Row::new(alloc);
    for image in images {
        lifted.push(label_at(cover, hub, label, *image))?;
    }
    Ok(lifted)
}

fn label_at(cover: &[u32], hub: u32, label: u32, image: u32) -> u32
    requires { image < length cover.now }
    ensures { result ≡ label_of cover.now hub label image }
{
    if image == hub {
        label
    } else {
        cover[image as usize]
    }
}
