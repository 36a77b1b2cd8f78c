//! Lists on trees in memory.

use replay_columns::answers::{Answer, At, or_word, tell_next};
use replay_columns::columns::{
    Digests, Fault, Hex, List, bytes, digests_between, halves, number, or_fault, parse, placed,
};
use std::alloc::Global;
use storage_codec::digest::{Digest, Hasher};
use storage_merkle::merkle::hasher::Standard;
use storage_merkle::merkle::mem::Mem;
use storage_merkle::merkle::{Bagging, Family, Location, Position, Storage};

/// `bagging boundary digests`: how many nodes the tree has whose leaves before the boundary are forgotten, its root, and what
/// adding a leaf of no bytes answers; or the refusal.
pub fn mem_init<F: Family, H: Hasher>(
    alloc: Global,
    columns: &[&str],
    out: &mut String,
) -> Result<(), Fault> {
    let (bagging, boundary, pinned): (Bagging, Location<F>, Digests<H::Digest>) = parse(
        alloc, columns,
    )?;
    match Mem::init(alloc, boundary, &pinned.0) {
        Ok(mut tree) => tell_begun(&Standard::<H>::new(bagging), &mut tree, out),
        Err(error) => error.tell(out),
    }
}

/// Adds how many nodes a tree has, its root, and what adding a leaf of no bytes answers; or the root's refusal.
fn tell_begun<F: Family, H: Hasher>(
    hasher: &Standard<H>,
    tree: &mut Mem<F, H::Digest>,
    out: &mut String,
) -> Result<(), Fault> {
    let root = match tree.root(hasher, 0) {
        Ok(root) => root,
        Err(error) => return error.tell(out),
    };
    let size = tree.size();
    let added = match tree.add(hasher, &[]) {
        Ok(()) => Ok("ok"),
        Err(error) => Err(error),
    };
    At(size, At(Hex(root), added)).tell(out)
}

/// `bagging calls`: the places of the refused calls on a tree in memory and their refusals, and what stands after the last call:
/// how many leaves and nodes there are, the root with none of the peaks inactive, with one, and so on up to the refusal, and
/// the digests at all positions and at the next two.
pub fn mems<F: Family, H: Hasher>(
    alloc: Global,
    columns: &[&str],
    out: &mut String,
) -> Result<(), Fault> {
    let (bagging, calls): (Bagging, List<String>) = parse(alloc, columns)?;
    let hasher = Standard::<H>::new(bagging);
    let mut tree = Mem::<F, _>::new(alloc);
    tell_refusals(alloc, &hasher, &mut tree, &calls.0, out)?;
    tell_grown(&hasher, &mut tree, out)
}

/// Makes calls, and adds the places of the refused ones and their refusals.
fn tell_refusals<F: Family, H: Hasher>(
    alloc: Global,
    hasher: &Standard<H>,
    tree: &mut Mem<F, H::Digest>,
    calls: &[String],
    out: &mut String,
) -> Result<(), Fault> {
    let start = out.len();
    let mut place: u64 = 0;
    for call in calls {
        called(alloc, hasher, tree, call.as_str(), place, start, out)?;
        place = place.saturating_add(1);
    }
    or_word(out, start, "none")
}

/// Makes a call: `a:ELEMENT` adds a leaf, `u:LOCATION=DIGEST/..` changes leaves, `x:LOCATION` forgets those before it, and
/// `init:BOUNDARY:DIGESTS` takes another tree, whose leaves are all forgotten. Adds the call's place and its refusal, if
/// there is one, behind a comma where something stands behind the first `start` bytes.
fn called<F: Family, H: Hasher>(
    alloc: Global,
    hasher: &Standard<H>,
    tree: &mut Mem<F, H::Digest>,
    call: &str,
    place: u64,
    start: usize,
    out: &mut String,
) -> Result<(), Fault> {
    let (verb, rest) = halves(call, ':')?;
    let answer = match verb {
        "a" => tree.add(hasher, &bytes(alloc, rest)?),
        "u" => {
            let updates: Vec<(Location<F>, H::Digest)> = placed(alloc, rest)?;
            tree.update_leaves(hasher, &updates)
        }
        "x" => tree.prune(Location::new(number(rest)?)),
        "init" => return taken(alloc, tree, rest, place, start, out),
        _ => return Err(Fault::Malformed),
    };
    match answer {
        Ok(()) => Ok(()),
        Err(error) => tell_next(out, start, ',', &At(place, error)),
    }
}

/// Takes the tree of `BOUNDARY:DIGESTS` in place of this one.
fn taken<F: Family, D: Digest>(
    alloc: Global,
    tree: &mut Mem<F, D>,
    parts: &str,
    place: u64,
    start: usize,
    out: &mut String,
) -> Result<(), Fault> {
    let (boundary, pinned) = halves(parts, ':')?;
    let boundary = Location::new(number(boundary)?);
    let pinned: Vec<D> = digests_between(alloc, pinned, '/')?;
    match Mem::init(alloc, boundary, &pinned) {
        Ok(other) => {
            *tree = other;
            Ok(())
        }
        Err(error) => tell_next(out, start, ',', &At(place, error)),
    }
}

/// Adds, with a blank before them, how many leaves and nodes a tree has, its roots, and the digests at all positions
/// and at the next two.
fn tell_grown<F: Family, H: Hasher>(
    hasher: &Standard<H>,
    tree: &mut Mem<F, H::Digest>,
    out: &mut String,
) -> Result<(), Fault> {
    let (leaves, size) = (tree.leaves(), tree.size());
    write!(out, " {leaves} {size} ")?;
    tell_roots(hasher, tree, out)?;
    out.push(' ')?;
    tell_served(tree, size.as_u64().saturating_add(2), out)
}

/// Adds the digests at so many positions, as the tree serves them.
fn tell_served<F: Family, D: Digest>(
    tree: &mut Mem<F, D>,
    count: u64,
    out: &mut String,
) -> Result<(), Fault> {
    let start = out.len();
    for place in 0..count {
        let node = or_fault(Storage::<F>::get_node(tree, Position::new(place)))?;
        tell_next(out, start, ',', &At(place, node.map(Hex)))?;
    }
    or_word(out, start, "none")
}

/// Adds the roots with none of the peaks inactive, with one, and so on up to the refusal.
fn tell_roots<F: Family, H: Hasher>(
    hasher: &Standard<H>,
    tree: &Mem<F, H::Digest>,
    out: &mut String,
) -> Result<(), Fault> {
    let start = out.len();
    for inactive in 0..=u64::BITS {
        let root = tree.root(hasher, inactive as usize);
        let is_last = root.is_err();
        tell_next(out, start, ',', &At(inactive as u64, root.map(Hex)))?;
        if is_last {
            break;
        }
    }
    or_word(out, start, "none")
}
