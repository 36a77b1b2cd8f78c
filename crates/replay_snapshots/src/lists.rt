//! The lists by their names, for each family, each digest function and each size of a chunk.

ghost use Rattle.std.specs.Prelude.{◌≤◌};
ghost use Rattle.storage_bitmap.specs.Chunks.{IsChunkSize};

use crate::kept::{Asked, Kept};
use crate::{checks, keys, snapshots, stores};
use commonware_storage::codec::FixedBytes;
use commonware_storage::digest::{Digest, Hasher};
use commonware_storage::merkle::{Graftable, mmb, mmr};
use replay_columns::columns::{Fault, List, number, parse};
use std::alloc::Global;

/// Returns the answer of a list of that name, whose first columns are the family and the size of a chunk, with the
/// digests of `H`, which have `D` bytes.
pub fn answer<H: Hasher<Digest = FixedBytes<D>>, const D: usize>(
    alloc: Global,
    list: &str,
    columns: &[&str],
    out: &mut String,
) -> Result<(), Fault>
where
    FixedBytes<D>: Digest,
    requires small { D ≤ 64 }
{
    let [family, chunk_size, columns @ ..] = columns else {
        return Err(Fault::Malformed);
    };
    match *family {
        "mmr" => over::<mmr::Family, H, D>(alloc, list, *chunk_size, columns, out),
        "mmb" => over::<mmb::Family, H, D>(alloc, list, *chunk_size, columns, out),
        _ => Err(Fault::Malformed),
    }
}

fn over<F: Graftable, H: Hasher<Digest = FixedBytes<D>>, const D: usize>(
    alloc: Global,
    list: &str,
    chunk_size: &str,
    columns: &[&str],
    out: &mut String,
) -> Result<(), Fault>
where
    FixedBytes<D>: Digest,
    requires small { D ≤ 64 }
{
    match list {
        "exclusions"
        | "golden_keys"
        | "key_values"
        | "operation_checks"
        | "ranges_checks"
        | "texts" => of_bytes::<F, H>(alloc, list, number(chunk_size)? as usize, columns, out),
        _ => match chunk_size {
            "1" => of_snapshot::<F, H, D, 1>(alloc, list, columns, out),
            "2" => of_snapshot::<F, H, D, 2>(alloc, list, columns, out),
            "4" => of_snapshot::<F, H, D, 4>(alloc, list, columns, out),
            "32" => of_snapshot::<F, H, D, 32>(alloc, list, columns, out),
            _ => Err(Fault::Malformed),
        },
    }
}

/// Returns the answer of a list on checks of bytes, whose chunks may be said to have any size.
fn of_bytes<F: Graftable, H: Hasher>(
    alloc: Global,
    list: &str,
    chunk_size: usize,
    columns: &[&str],
    out: &mut String,
) -> Result<(), Fault> {
    match list {
        "operation_checks" => checks::operation_checks::<F, H>(alloc, chunk_size, columns, out),
        "ranges_checks" => checks::ranges_checks::<F, H>(alloc, chunk_size, columns, out),
        "texts" => checks::texts::<F, H>(alloc, chunk_size, columns, out),
        _ => keys::answer::<F, H>(alloc, list, chunk_size, columns, out),
    }
}

/// Returns the answer of a list on a snapshot, whose next columns are its floor, its activity bits as digits and its
/// operations.
fn of_snapshot<F: Graftable, H: Hasher<Digest = FixedBytes<D>>, const D: usize, const N: usize>(
    alloc: Global,
    list: &str,
    columns: &[&str],
    out: &mut String,
) -> Result<(), Fault>
where
    FixedBytes<D>: Digest,
    requires chunk { IsChunkSize N }
    requires small { D ≤ 64 }
{
    let [floor, bits, operations, columns @ ..] = columns else {
        return Err(Fault::Malformed);
    };
    let (floor, bits, List(operations)): (u64, String, List<Vec<u8>>) = parse(
        alloc,
        &[*floor, *bits, *operations],
    )?;
    let kept = Kept::<F, H, N>::of(alloc, floor, bits, operations)?;
    of_kept(alloc, &kept, list, columns, out)
}

/// Returns the answer of a list on a snapshot that is there.
fn of_kept<S: Asked>(
    alloc: Global,
    kept: &S,
    list: &str,
    columns: &[&str],
    out: &mut String,
) -> Result<(), Fault> {
    match list {
        "golden" => snapshots::golden(alloc, kept, columns, out),
        "ranges" => snapshots::ranges(alloc, kept, columns, out),
        "each_operation" => snapshots::each_operation(alloc, kept, out),
        "each_range" => snapshots::each_range(alloc, kept, out),
        "keyed" => snapshots::keyed(alloc, kept, columns, out),
        "combined" => stores::combined(alloc, kept, columns, out),
        "combined_asked" => stores::combined_asked(alloc, kept, columns, out),
        "combined_marks" => stores::combined_marks(alloc, kept, columns, out),
        "combined_ranges" => stores::combined_ranges(alloc, kept, columns, out),
        "combined_reads" => stores::combined_reads(alloc, kept, out),
        "combined_views" => stores::combined_views(alloc, kept, out),
        "fetched_ranges" => stores::fetched_ranges(alloc, kept, columns, out),
        _ => Err(Fault::Malformed),
    }
}
