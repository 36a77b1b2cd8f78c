//! Lists on what is written of single places of trees.

use replay_columns::answers::{Answer, Unblanked};
use replay_columns::columns::{Fault, Hex, parse};
use std::alloc::Global;
use storage_codec::codec::{Encode, EncodeSize};
use storage_codec::digest::Hasher;
use storage_merkle::merkle::{Graftable, Location, Position};

/// `number`: the text of this location, that of this position in four columns, the bytes of the location, and their number.
pub fn places<F: Graftable>(
    alloc: Global,
    columns: &[&str],
    out: &mut String,
) -> Result<(), Fault> {
    let location: Location<F> = parse(alloc, columns)?;
    let position = Position::<F>::new(location.as_u64());
    let written = location.encode(alloc)?;
    let aligned = format!(in alloc; "{position:>4}")?;
    let aligned = Unblanked(aligned.as_str());
    (location, aligned, written, location.encode_size()).tell(out)
}

/// `digest`: what the slot of a pending chunk is written as that has this digest, or none for `-`, and how many bytes these are.
pub fn slots<F: Graftable, H: Hasher>(
    alloc: Global,
    columns: &[&str],
    out: &mut String,
) -> Result<(), Fault> {
    let slot: Option<Hex<H::Digest>> = parse(alloc, columns)?;
    let slot = match slot {
        Some(Hex(digest)) => Some(digest),
        None => None,
    };
    let mut written = Vec::new(alloc);
    F::write_pending(&slot, &mut written)?;
    (written, F::pending_size(&slot)).tell(out)
}

/// `bytes`: the digest in the slot in front, or `-` for none, and how many bytes are left; or the refusal.
pub fn slots_read<F: Graftable, H: Hasher>(
    alloc: Global,
    columns: &[&str],
    out: &mut String,
) -> Result<(), Fault> {
    let input: Vec<u8> = parse(alloc, columns)?;
    let mut left = input.as_slice();
    let slot: Option<H::Digest> = match F::read_pending(alloc, &mut left) {
        Ok(slot) => slot,
        Err(error) => return error.tell(out),
    };
    (slot.map(Hex), left.len()).tell(out)
}
