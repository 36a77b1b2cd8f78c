//! Lists on the arithmetic of the tree families.

ghost use Rattle.std.specs.Prelude.{◌≡◌, ◌%◌, ◌^◌, ◌≤◌};
ghost use Rattle.storage_merkle.specs.Shape.{size, max_leaves};
ghost use Rattle.storage_bitmap.specs.Chunks.{IsChunkSize};

use replay_columns::answers::{Answer, or_word, tell_next};
use replay_columns::columns::{Fault, List, parse};
use std::alloc::Global;
use storage_current::qmdb::current::grafting::{
    chunk_aligned_inactive_peaks, exact_inactive, graftable_chunks, grafted_to_ops_pos,
    ops_to_grafted_pos,
};
use storage_current::qmdb::current::proof::required_chunks;
use storage_merkle::merkle::family::{leaves_within, node_at, power};
use storage_merkle::merkle::{
    ElementPlan, Family, Graftable, Location, MAX_LEAVES, Position, RangePlan,
};

/// Returns the number of nodes over the most leaves.
fn most_nodes<F: Graftable>() -> u64
    ensures { result ≡ size F.shape max_leaves }
{
    F::nodes_over(MAX_LEAVES)
}

/// `leaves`: the number of nodes, the peaks' heights and positions, and the positions to pin.
pub fn families<F: Graftable>(
    alloc: Global,
    columns: &[&str],
    out: &mut String,
) -> Result<(), Fault> {
    let leaves: u64 = parse(alloc, columns)?;
    if leaves > MAX_LEAVES {
        return Err(Fault::Malformed);
    }
    let peaks = peaks::<F>(alloc, leaves)?;
    let pins = pins::<F>(alloc, leaves)?;
    (F::nodes_over(leaves), peaks, pins).tell(out)
}

/// Returns the peaks' heights and positions.
fn peaks<F: Graftable>(alloc: Global, leaves: u64) -> Result<(List<u64>, List<Position<F>>), Fault>
    requires { leaves ≤ max_leaves }
{
    let mut heights = Vec::new(alloc);
    let mut positions = Vec::new(alloc);
    for (position, height) in F::peaks(Position::new(F::nodes_over(leaves))) {
        heights.push(height as u64)?;
        positions.push(position)?;
    }
    Ok((List(heights), List(positions)))
}

/// Returns the positions to pin.
fn pins<F: Graftable>(alloc: Global, leaves: u64) -> Result<List<Position<F>>, Fault>
    requires { leaves ≤ max_leaves }
{
    let mut pins = Vec::new(alloc);
    for position in F::nodes_to_pin(Location::new(leaves)) {
        pins.push(position)?;
    }
    Ok(List(pins))
}

/// `nodes`: of how many leaves this is the number of nodes.
pub fn sizes<F: Graftable>(alloc: Global, columns: &[&str], out: &mut String) -> Result<(), Fault> {
    let nodes: u64 = parse(alloc, columns)?;
    if nodes > most_nodes::<F>() {
        return Err(Fault::Malformed);
    }
    let leaves = leaves_within::<F>(nodes);
    (F::nodes_over(leaves) == nodes).then_some(leaves).tell(out)
}

/// `first_leaf height`: the position of this node, at how many leaves it comes, and its children.
pub fn nodes<F: Graftable>(alloc: Global, columns: &[&str], out: &mut String) -> Result<(), Fault> {
    let (first, height): (u64, u64) = parse(alloc, columns)?;
    if height > 61 || first > MAX_LEAVES || !first.is_multiple_of(1 << height) {
        return Err(Fault::Malformed);
    }
    node::<F>(first, height as u32, out)
}

fn node<F: Graftable>(first: u64, height: u32, out: &mut String) -> Result<(), Fault>
    requires aligned { first % 2 ^ height ≡ 0 }
    requires early { first ≤ max_leaves }
    requires low { height ≤ 61 }
{
    let position = F::subtree_root_position(Location::new(first), height);
    if position.as_u64() > most_nodes::<F>() {
        return Err(Fault::Malformed);
    }
    if height == 0 {
        return (position, F::birth(first, height), "- -").tell(out);
    }
    let children = F::children(position, height);
    (position, F::peak_birth_size(position, height), children).tell(out)
}

/// `position`: the height of the node there, its children, its first leaf, and at how many leaves it comes; or `leaf`.
pub fn around<F: Graftable>(
    alloc: Global,
    columns: &[&str],
    out: &mut String,
) -> Result<(), Fault> {
    let position: Position<F> = parse(alloc, columns)?;
    if position.as_u64() > most_nodes::<F>() {
        return Err(Fault::Malformed);
    }
    let (_, height) = node_at::<F>(position.as_u64());
    if height == 0 {
        return "leaf".tell(out);
    }
    let children = F::children(position, height);
    let first = F::leftmost_leaf(position, height);
    let birth = F::peak_birth_size(position, height);
    (height as u64, children, first, birth).tell(out)
}

/// `leaves height`: how many chunks are graftable.
pub fn graftable<F: Graftable>(
    alloc: Global,
    columns: &[&str],
    out: &mut String,
) -> Result<(), Fault> {
    let (leaves, height): (u64, u64) = parse(alloc, columns)?;
    if height < 1 || height > 62 {
        return Err(Fault::Malformed);
    }
    graftable_chunks::<F>(leaves, height as u32).tell(out)
}

/// `height position`: the operations position of a grafted one, and what that is mapped back to.
pub fn maps<F: Graftable>(alloc: Global, columns: &[&str], out: &mut String) -> Result<(), Fault> {
    let (height, position): (u64, u64) = parse(alloc, columns)?;
    if height < 1 || height > 62 || position > most_nodes::<F>() {
        return Err(Fault::Malformed);
    }
    map::<F>(position, height as u32, out)
}

fn map<F: Graftable>(position: u64, height: u32, out: &mut String) -> Result<(), Fault>
    requires low { 1 ≤ height }
    requires high { height ≤ 62 }
    requires valid { position ≤ size F.shape max_leaves }
{
    let (first, own) = node_at::<F>(position);
    if own + height > 62 {
        return Err(Fault::Malformed);
    }
    let own = own + height;
    let Some(first) = first.checked_mul(power(height)) else {
        return Err(Fault::Malformed);
    };
    let latest = power(own).saturating_mul(2).saturating_add(first);
    if latest > 2 * MAX_LEAVES || F::birth(first, own) > MAX_LEAVES {
        return Err(Fault::Malformed);
    }
    let above = grafted_to_ops_pos::<F>(Position::new(position), height);
    let below = ops_to_grafted_pos::<F>(above, height);
    (above, below).tell(out)
}

/// `leaves floor height`: how many leading peaks end at or before the floor, and how many up to the last that ends on a multiple of
/// two to the height.
pub fn inactive<F: Graftable>(
    alloc: Global,
    columns: &[&str],
    out: &mut String,
) -> Result<(), Fault> {
    let (leaves, floor, height): (u64, u64, u64) = parse(alloc, columns)?;
    if leaves > MAX_LEAVES || height > 62 {
        return Err(Fault::Malformed);
    }
    let exact = exact_inactive::<F>(leaves, floor);
    let aligned = chunk_aligned_inactive_peaks::<F>(leaves, floor, height as u32);
    (exact, aligned).tell(out)
}

/// `leaves location`: the positions that the plan of this location has, or its refusal.
pub fn elements<F: Family>(alloc: Global, columns: &[&str], out: &mut String) -> Result<(), Fault> {
    let (leaves, location): (Location<F>, Location<F>) = parse(alloc, columns)?;
    match ElementPlan::new(alloc, leaves, location) {
        Ok(plan) => {
            let plan: RangePlan<F> = plan.into();
            plan.tell(out)
        }
        Err(error) => error.tell(out),
    }
}

/// `leaves start end`: the positions that the plan of this range has, or its refusal.
pub fn plans<F: Family>(alloc: Global, columns: &[&str], out: &mut String) -> Result<(), Fault> {
    let (leaves, start, end): (Location<F>, Location<F>, Location<F>) = parse(alloc, columns)?;
    RangePlan::new(alloc, leaves, start..end).tell(out)
}

/// `leaves bits pruned location`: the chunks that are read for a proof, of one operation or, where the location is `-`, of none; or
/// the refusal.
pub fn required<F: Graftable, const N: usize>(
    alloc: Global,
    columns: &[&str],
    out: &mut String,
) -> Result<(), Fault>
    requires { IsChunkSize N }
{
    let (leaves, bits, pruned, location): (Location<F>, u64, u64, Option<Location<F>>) = parse(
        alloc, columns,
    )?;
    match required_chunks::<F, N>(leaves, bits, pruned, location) {
        Ok(chunks) => {
            let start = out.len();
            for chunk in chunks {
                tell_next(out, start, ',', &chunk)?;
            }
            or_word(out, start, "none")
        }
        Err(error) => error.tell(out),
    }
}
