//! The path of a check: the strings that it hashes, from what is claimed up to the root.

ghost use Rattle.std.specs.Prelude.{◌<◌};

use crate::agreed::{Agreed, Family};
use crate::inspect::fields::Fields;
use crate::inspect::sites::{Beside, Sites, over, sites_of};
use crate::inspect::tree::Node;
use std::alloc::{AllocError, AllocFailed, Global};

/// Why a proof has no path.
#[derive(Clone, Copy)]
pub(crate) enum NoPath {
    /// Its numbers do not fit together.
    Unfit(&'static str),
    /// Out of memory.
    Memory,
}

impl From<AllocError> for NoPath {
    fn from(_error: AllocError) -> Self {
        NoPath::Memory
    }
}

impl<T: Drop> From<AllocFailed<T>> for NoPath {
    fn from(_error: AllocFailed<T>) -> Self {
        NoPath::Memory
    }
}

/// The strings that a check hashes.
#[derive(Drop)]
pub(crate) struct Path {
    /// Those on the way from what is claimed up to the root, in their order.
    pub steps: Vec<Step>,
    /// Which slot the digest of the chunk is compared with, if it is with one.
    pub compared: Option<&'static str>,
}

/// A string that is hashed on the way.
#[derive(Drop)]
pub(crate) struct Step {
    /// What its digest is.
    pub name: &'static str,
    /// Which one that is; empty where there is no other.
    pub detail: String,
    /// The parts of the string, in their order.
    pub parts: Vec<Part>,
}

/// A part of a string that is hashed.
#[derive(Drop)]
pub(crate) enum Part {
    /// The digest of the string before; of the first the operation.
    Before,
    /// A number in eight bytes, the highest first.
    Number(u64),
    /// The byte of the family, and 01, by which active peaks are folded from the right.
    Family(Family),
    /// The numbers of the leaves and of the inactive peaks, each in eight bytes.
    Counts(u64, u64),
    /// What the proof has.
    Piece(Piece),
}

/// What a proof has of a string.
#[derive(Drop)]
pub(crate) struct Piece {
    /// What it is called in a string.
    pub label: String,
    /// What it is of.
    pub name: String,
    /// Its first bytes.
    pub detail: String,
}

impl Piece {
    /// Returns the piece that has these bytes.
    pub fn new(
        alloc: Global,
        label: String,
        name: String,
        bytes: &[u8],
    ) -> Result<Piece, AllocError> {
        Ok(Piece {
            label,
            name,
            detail: shortened(alloc, bytes)?,
        })
    }

    /// Returns the piece that is called `name`, also in a string.
    fn named(alloc: Global, name: &'static str, bytes: &[u8]) -> Result<Piece, AllocError> {
        let label = String::from_str(alloc, name)?;
        Piece::new(alloc, label, String::from_str(alloc, name)?, bytes)
    }
}

/// Returns the first eight of `bytes` in hexadecimal, and dots where there are more.
fn shortened(alloc: Global, bytes: &[u8]) -> Result<String, AllocError> {
    match bytes.get(..8) {
        Some(first) if bytes.len() > 8 => {
            let digits = hex::encode(alloc, first)?;
            format!(in alloc; "{digits}..")
        }
        _ => hex::encode(alloc, bytes),
    }
}

/// Where the chunk of a location is hashed.
#[derive(Clone, Copy)]
enum ChunkPlace {
    /// Over the node of this height.
    Node(u32),
    /// In a slot of the root.
    Slot(&'static str),
}

/// Returns the strings that the check of an operation hashes whose proof has these fields.
pub(super) fn path_of(alloc: Global, agreed: Agreed, fields: &Fields<'_>) -> Result<Path, NoPath> {
    let sites = sites_of(alloc, agreed.family, fields)?;
    let (grafted, compared) = match chunk_place(agreed, fields) {
        ChunkPlace::Node(height) => (Some(height), None),
        ChunkPlace::Slot(slot) => (None, Some(slot)),
    };
    let steps = steps_of(alloc, agreed, fields, sites, grafted)?;
    Ok(Path { steps, compared })
}

/// Returns the strings up to the root, where the chunk is hashed over the node of height `grafted`, if over one.
fn steps_of(
    alloc: Global,
    agreed: Agreed,
    fields: &Fields<'_>,
    sites: Sites,
    grafted: Option<u32>,
) -> Result<Vec<Step>, AllocError> {
    let mut steps = Vec::new(alloc);
    // a chunk of zeros leaves its node as it is
    let is_zero = fields.chunk.iter().all(|byte| *byte == 0);
    let grafted = if is_zero { None } else { grafted };
    let Sites {
        peak,
        siblings,
        folds,
    } = sites;
    add_nodes(alloc, agreed, fields, peak, siblings, grafted, &mut steps)?;
    for fold in folds {
        let parts = beside_it(alloc, fold)?;
        add(alloc, "fold of peaks", None, parts, &mut steps)?;
    }
    add_grafted_root(alloc, agreed, fields, &mut steps)?;
    add_root(alloc, agreed, fields, &mut steps)?;
    Ok(steps)
}

/// Adds the leaf, and the nodes up to the peak, with the chunk over that of height `grafted`.
fn add_nodes(
    alloc: Global,
    agreed: Agreed,
    fields: &Fields<'_>,
    peak: Node,
    siblings: Vec<Beside>,
    grafted: Option<u32>,
    steps: &mut Vec<Step>,
) -> Result<(), AllocError> {
    let mut siblings = siblings.into_iter();
    for height in 0..=peak.height {
        let node = peak.at(fields.location, height);
        let beside = if height == 0 { None } else { siblings.next() };
        add_node(alloc, agreed.family, node, beside, steps)?;
        if grafted == Some(height) {
            add_chunk(alloc, agreed, fields, node, steps)?;
        }
    }
    Ok(())
}

/// Adds the leaf, or the node of a digest and what stands beside it.
fn add_node(
    alloc: Global,
    family: Family,
    node: Node,
    beside: Option<Beside>,
    steps: &mut Vec<Step>,
) -> Result<(), AllocError> {
    let mut parts = Vec::new(alloc);
    parts.push(Part::Number(node.position(family)))?;
    let name = match beside {
        Some(beside) => {
            let mut both = beside_it(alloc, beside)?;
            parts.append(&mut both)?;
            "node"
        }
        None => {
            parts.push(Part::Before)?;
            "leaf"
        }
    };
    add(alloc, name, Some(node), parts, steps)
}

/// Adds the node with its chunk.
fn add_chunk(
    alloc: Global,
    agreed: Agreed,
    fields: &Fields<'_>,
    node: Node,
    steps: &mut Vec<Step>,
) -> Result<(), AllocError> {
    let chunk = Beside {
        is_left: true,
        piece: chunk_piece(alloc, agreed, fields)?,
    };
    let parts = beside_it(alloc, chunk)?;
    add(alloc, "node with its chunk", Some(node), parts, steps)
}

/// Adds a string.
fn add(
    alloc: Global,
    name: &'static str,
    node: Option<Node>,
    parts: Vec<Part>,
    steps: &mut Vec<Step>,
) -> Result<(), AllocError> {
    let detail = match node {
        Some(node) => over(alloc, "", node)?,
        None => String::new(alloc),
    };
    steps.push(Step {
        name,
        detail,
        parts,
    })?;
    Ok(())
}

/// Returns the digest of the string before, and what stands on its left or its right.
fn beside_it(alloc: Global, beside: Beside) -> Result<Vec<Part>, AllocError> {
    let piece = Part::Piece(beside.piece);
    let (first, second) = if beside.is_left {
        (piece, Part::Before)
    } else {
        (Part::Before, piece)
    };
    let mut parts = Vec::new(alloc);
    parts.push(first)?;
    parts.push(second)?;
    Ok(parts)
}

/// Adds the root of the tree over the operations with their chunks.
fn add_grafted_root(
    alloc: Global,
    agreed: Agreed,
    fields: &Fields<'_>,
    steps: &mut Vec<Step>,
) -> Result<(), AllocError> {
    let mut parts = Vec::new(alloc);
    parts.push(Part::Family(agreed.family))?;
    parts.push(Part::Counts(fields.leaves, fields.inactive))?;
    parts.push(Part::Before)?;
    add(alloc, "grafted root", None, parts, steps)
}

/// Adds the root.
fn add_root(
    alloc: Global,
    agreed: Agreed,
    fields: &Fields<'_>,
    steps: &mut Vec<Step>,
) -> Result<(), AllocError> {
    let ops_root = Beside {
        is_left: true,
        piece: Piece::named(alloc, "operations root", fields.ops_root)?,
    };
    let mut parts = beside_it(alloc, ops_root)?;
    if let Some(pending) = fields.pending {
        let piece = Piece::named(alloc, "pending chunk", pending)?;
        parts.push(Part::Piece(piece))?;
    }
    if let Some(partial) = fields.partial {
        let piece = Piece::named(alloc, "partial chunk", partial)?;
        parts.push(Part::Number(fields.leaves % bits_of(agreed)))?;
        parts.push(Part::Piece(piece))?;
    }
    add(alloc, "root", None, parts, steps)
}

/// Returns the piece that the chunk of the location is.
fn chunk_piece(alloc: Global, agreed: Agreed, fields: &Fields<'_>) -> Result<Piece, AllocError> {
    let bits = bits_of(agreed);
    let (number, bit) = (fields.location / bits, fields.location % bits);
    let is = if is_set(fields.chunk, bit) {
        "is"
    } else {
        "is not"
    };
    Ok(Piece {
        label: String::from_str(alloc, "chunk")?,
        name: format!(in alloc; "chunk {number}")?,
        detail: format!(in alloc; "bit {bit} {is} set")?,
    })
}

/// Returns whether a bit of a chunk is set.
fn is_set(chunk: &[u8], bit: u64) -> bool {
    let byte = chunk.get((bit / 8) as usize).copied().unwrap_or(0);
    byte >> (bit % 8) as u32 & 1 == 1
}

/// Returns how many operations a chunk is over.
fn bits_of(agreed: Agreed) -> u64
    ensures { 0 < result }
{
    (agreed.chunk as u64).saturating_mul(8).max(1)
}

/// Returns where the chunk of the location is hashed.
fn chunk_place(agreed: Agreed, fields: &Fields<'_>) -> ChunkPlace {
    let bits = bits_of(agreed);
    let birth = match agreed.family {
        Family::Mmr => bits,
        Family::Mmb => (bits / 2).saturating_mul(3).saturating_sub(1),
    };
    let index = fields.location / bits;
    if fields.leaves >= birth && index <= (fields.leaves - birth) / bits {
        ChunkPlace::Node(bits.trailing_zeros())
    } else if index < fields.leaves / bits {
        ChunkPlace::Slot("pending chunk")
    } else {
        ChunkPlace::Slot("partial chunk")
    }
}
