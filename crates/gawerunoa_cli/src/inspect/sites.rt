//! What each digest of an operation proof is of: a node beside the way from the location up to its peak, a peak, or a fold of peaks.

use crate::agreed::Family;
use crate::inspect::fields::Fields;
use crate::inspect::path::{NoPath, Piece};
use crate::inspect::tree::{Node, peaks_of};
use std::alloc::{AllocError, Global};

/// The most leaves that a tree may have.
const MOST_LEAVES: u64 = 1 << 62;

/// What stands beside the way from a location to the root of its tree.
#[derive(Drop)]
pub(super) struct Sites {
    /// The peak over the location.
    pub peak: Node,
    /// The siblings of the nodes over it, from the leaf's on.
    pub siblings: Vec<Beside>,
    /// The peaks, or folds of them, that its peak is folded with, in their order.
    pub folds: Vec<Beside>,
}

/// What stands beside the way.
#[derive(Drop)]
pub(super) struct Beside {
    /// Whether it is to the left.
    pub is_left: bool,
    /// What the proof has of it.
    pub piece: Piece,
}

/// The digests of a proof that are still to be used.
#[derive(Drop)]
struct Queue<'q, 'p> {
    alloc: Global,
    digests: &'q [&'p [u8]],
    used: usize,
}

impl Queue<'_, '_> {
    /// Returns the digest `further` behind the next one, of what is called `name`.
    fn look(&self, further: usize, name: String) -> Result<Piece, NoPath> {
        let index = self.used.saturating_add(further);
        let Some(digest) = self.digests.get(index) else {
            return Err(NoPath::Unfit("there are fewer digests than the path has"));
        };
        let number = index.saturating_add(1);
        let label = format!(in self.alloc; "digest {number}")?;
        Ok(Piece::new(self.alloc, label, name, digest)?)
    }

    /// Takes the next digest, of what is called `name`, which is on this side.
    fn next(&mut self, is_left: bool, name: String) -> Result<Beside, NoPath> {
        let piece = self.look(0, name)?;
        self.used = self.used.saturating_add(1);
        Ok(Beside { is_left, piece })
    }
}

/// Returns what stands beside the way of a proof.
pub(super) fn sites_of(
    alloc: Global,
    family: Family,
    fields: &Fields<'_>,
) -> Result<Sites, NoPath> {
    let peaks = peaks_of(alloc, family, fields.leaves)?;
    let Some((place, peak)) = peak_over(&peaks, fields) else {
        return Err(NoPath::Unfit("the location is not below the leaves"));
    };
    if fields.inactive > peaks.len() as u64 {
        return Err(NoPath::Unfit("there are more inactive peaks than peaks"));
    }
    let mut queue = Queue {
        alloc,
        digests: &fields.digests,
        used: 0,
    };
    let folds = folds_of(alloc, &peaks, place, fields.inactive as usize, &mut queue)?;
    let siblings = siblings_of(alloc, family, peak, fields.location, &queue)?;
    if queue.used.saturating_add(siblings.len()) < fields.digests.len() {
        return Err(NoPath::Unfit("there are more digests than the path has"));
    }
    Ok(Sites {
        peak,
        siblings,
        folds,
    })
}

/// Returns the peak over the location, and its place among the peaks; none where there are not so many leaves, or too many.
fn peak_over(peaks: &[Node], fields: &Fields<'_>) -> Option<(usize, Node)> {
    if fields.leaves > MOST_LEAVES {
        return None;
    }
    let place = peaks.iter().position(|it| it.covers(fields.location))?;
    let peak = peaks.get(place).copied()?;
    Some((place, peak))
}

/// Returns what the peak at `place` is folded with, where the first `inactive` peaks are inactive: an inactive one first with those
/// before it, an active one first with those behind it.
fn folds_of(
    alloc: Global,
    peaks: &[Node],
    place: usize,
    inactive: usize,
    queue: &mut Queue<'_, '_>,
) -> Result<Vec<Beside>, NoPath> {
    let mut lefts = lefts_of(alloc, peaks, inactive.min(place), place, queue)?;
    let mut rights = rights_of(alloc, peaks, place, inactive, queue)?;
    if place < inactive {
        lefts.append(&mut rights)?;
        return Ok(lefts);
    }
    lefts.reverse();
    rights.append(&mut lefts)?;
    Ok(rights)
}

/// Returns the fold of the first `before` peaks, and the peaks behind it that stand before `place`.
fn lefts_of(
    alloc: Global,
    peaks: &[Node],
    before: usize,
    place: usize,
    queue: &mut Queue<'_, '_>,
) -> Result<Vec<Beside>, NoPath> {
    let mut lefts = Vec::new(alloc);
    if before > 0 {
        let name = format!(in alloc; "fold of the first {before} peaks")?;
        lefts.push(queue.next(true, name)?)?;
    }
    for peak in peaks.get(before..place).unwrap_or(&[]) {
        lefts.push(queue.next(true, over(alloc, "peak, ", *peak)?)?)?;
    }
    Ok(lefts)
}

/// Returns the inactive peaks behind `place`, and the fold of the peaks behind these.
fn rights_of(
    alloc: Global,
    peaks: &[Node],
    place: usize,
    inactive: usize,
    queue: &mut Queue<'_, '_>,
) -> Result<Vec<Beside>, NoPath> {
    let first = place.saturating_add(1);
    let behind = inactive.max(first);
    let mut rights = Vec::new(alloc);
    for peak in peaks.get(first..behind).unwrap_or(&[]) {
        rights.push(queue.next(false, over(alloc, "peak, ", *peak)?)?)?;
    }
    let left = peaks.len().saturating_sub(behind);
    if left > 0 {
        let name = format!(in alloc; "fold of the last {left} peaks")?;
        rights.push(queue.next(false, name)?)?;
    }
    Ok(rights)
}

/// Returns the siblings on the way from a location up to its peak. Their digests stand in the order of their positions.
fn siblings_of(
    alloc: Global,
    family: Family,
    peak: Node,
    location: u64,
    queue: &Queue<'_, '_>,
) -> Result<Vec<Beside>, NoPath> {
    let positions = positions_of(alloc, family, peak, location)?;
    let mut siblings = Vec::new(alloc);
    for height in 0..peak.height {
        let node = sibling(peak, location, height);
        let position = node.position(family);
        let earlier = positions.iter().filter(|it| **it < position).count();
        siblings.push(Beside {
            is_left: node.first < location && !node.covers(location),
            piece: queue.look(earlier, over(alloc, "", node)?)?,
        })?;
    }
    Ok(siblings)
}

/// Returns the positions of these siblings.
fn positions_of(
    alloc: Global,
    family: Family,
    peak: Node,
    location: u64,
) -> Result<Vec<u64>, AllocError> {
    let mut positions = Vec::new(alloc);
    for height in 0..peak.height {
        positions.push(sibling(peak, location, height).position(family))?;
    }
    Ok(positions)
}

/// Returns the sibling of the node of height `height` over a location.
fn sibling(peak: Node, location: u64, height: u32) -> Node {
    let parent = peak.at(location, height.saturating_add(1));
    peak.at(location, height).sibling(parent)
}

/// Returns `name`, and the locations that a node is over.
pub(super) fn over(alloc: Global, name: &str, node: Node) -> Result<String, AllocError> {
    let (first, last) = (node.first, node.end().saturating_sub(1));
    if first == last {
        format!(in alloc; "{name}location {first}")
    } else {
        format!(in alloc; "{name}locations {first} to {last}")
    }
}
