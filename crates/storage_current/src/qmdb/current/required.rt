//! Which chunks are read to make a proof.

ghost use Rattle.std.specs.Prelude.{◌≡◌, ◌↔◌, ℕ, ◌+◌, ◌-◌, ◌*◌, ◌/◌, ◌%◌, ◌^◌, ◌<◌, ◌≤◌, ◌++◌, List, length, option_to_list, if◌then◌else◌, None, Some, IfOk, IfErr, OnOk, MatchOption};
ghost use Rattle.std.specs.Iterator.{YieldsFirst, item_count};
ghost use Rattle.std.specs.List.{Contains};
ghost use Rattle.std.specs.List.Sorted.{IsStrictlyIncreasing};
ghost use Rattle.storage_bitmap.specs.Chunks.{IsChunkSize};
ghost use Rattle.storage_current.specs.Required.{AreConsistent, IsRequired, IsThere, IsUntold};
ghost use Rattle.storage_current.specs.Snapshots.{grafting_of};

use crate::qmdb::current::grafting;
use std::iter::FusedIterator;
use std::marker::Model;
use storage_merkle::merkle::{self, Graftable, Location};
use storage_ops::qmdb::Error;

/// The indices of the chunks that are read to make a proof, increasing and each once: at most three. It ends, and
/// allocates nothing.
#[derive(Drop)]
pub struct RequiredChunks {
    queried: Option<u64>,
    pending: Option<u64>,
    partial: Option<u64>,
}

impl Model for RequiredChunks {
    ghost use Rattle.std.specs.Prelude.{ℕ, List, ◌++◌, option_to_list};

    ghost Value = { List ℕ };

    ghost view = { λ s.
        option_to_list s.queried ++ (option_to_list s.pending ++ option_to_list s.partial) };
}

impl Iterator for RequiredChunks {
    type Item = u64;

    ghost next_gives = { YieldsFirst (λ rest. rest) };

    ghost remaining = { item_count (λ rest. rest) };

    fn next(&mut self) -> Option<u64> {
        if let Some(chunk) = self.queried.take() {
            return Some(chunk);
        }
        if let Some(chunk) = self.pending.take() {
            return Some(chunk);
        }
        self.partial.take()
    }
}

impl FusedIterator for RequiredChunks {}

/// Returns the chunks of `N` bytes that are read to make a proof, in a snapshot of `ops_leaves` operations and
/// `bitmap_len` bits of which `pruned_chunks` chunks are pruned: the partial chunk, the pending chunk, and for the
/// proof of the operation at `location` the chunk of its bit. Allocates nothing.
///
/// # Errors
///
/// The first of: `DataCorrupted` if more than one complete chunk is not graftable, or one that is not graftable is
/// pruned; `RangeOutOfBounds(location)` if it is at or past `ops_leaves` or `bitmap_len`; `OperationPruned(location)`
/// if its chunk is pruned.
pub fn required_chunks<F: Graftable, const N: usize>(
    ops_leaves: Location<F>,
    bitmap_len: u64,
    pruned_chunks: u64,
    location: Option<Location<F>>,
) -> Result<RequiredChunks, Error<F>>
    requires { IsChunkSize N }
    ensures chunks { let g = grafting_of F.shape N in
        IfOk result (λ chunks. (j : ℕ)
        → (Contains chunks j ↔ IsRequired g ops_leaves bitmap_len location j)) }
    ensures rising { IfOk result (λ chunks. IsStrictlyIncreasing chunks) }
    ensures few { IfOk result (λ chunks. length chunks ≤ 3) }
    ensures consistent { let g = grafting_of F.shape N in
        OnOk result (AreConsistent g ops_leaves bitmap_len pruned_chunks) }
    ensures there { let g = grafting_of F.shape N in
        OnOk result (MatchOption location (Unit {0})
        (IsThere g ops_leaves bitmap_len pruned_chunks)) }
    ensures why { let g = grafting_of F.shape N in
        IfErr result (IsUntold g ops_leaves bitmap_len pruned_chunks location) }
{
    let height = grafting::height::<N>();
    let leaves = ops_leaves.as_u64();
    let complete = bitmap_len >> height;
    let graftable = grafting::graftable_chunks::<F>(leaves, height).min(complete);
    if complete - graftable > 1 || pruned_chunks > graftable {
        return Err(Error::DataCorrupted("more than one pending chunk, or pruned too far"));
    }
    let queried = match location {
        None => None,
        Some(loc) => {
            let index = loc.as_u64();
            if index >= leaves || index >= bitmap_len {
                return Err(Error::Merkle(merkle::Error::RangeOutOfBounds(loc)));
            }
            let chunk = index >> height;
            if chunk < pruned_chunks {
                return Err(Error::OperationPruned(loc));
            }
            present(chunk < graftable, chunk)
        }
    };
    Ok(RequiredChunks {
        queried,
        pending: present(graftable < complete, graftable),
        partial: present(bitmap_len % grafting::power(height) != 0, complete),
    })
}

/// `chunk`, where `is_there`; else none.
fn present(is_there: bool, chunk: u64) -> Option<u64>
    ensures { result ≡ (if is_there then Some chunk else None) }
{
    if is_there { Some(chunk) } else { None }
}
