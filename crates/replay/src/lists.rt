//! One function for each list.

ghost use Rattle.std.specs.Prelude.{◌≤◌};
ghost use Rattle.storage_bitmap.specs.Chunks.{IsChunkSize};

mod errors;
mod program;

use commonware_storage::codec::FixedBytes;
use commonware_storage::digest::{Digest, Hasher, Sha256, Sha512};
use commonware_storage::merkle::{Graftable, mmb, mmr};
use replay_columns::columns::Fault;
use replay_snapshots::lists;
use replay_trees::{
    bitmaps, both_chunks, checks, codecs, extracted, grafted_trees, key_proofs, mems, operations,
    places, stores, trees, values, verifiers, witnesses,
};
use std::alloc::Global;

/// Returns the text of a case. Where it is worked by hand, the row's name, a colon and a blank stand before it.
fn without_row_name(line: &str) -> &str {
    line.split_once(": ").map_or(line, |(_, case)| case)
}

/// Returns the answer to a line: the list's name, then the columns of the case, with blanks between them. The digests
/// of a list are those of SHA-256, but of SHA-512 where `sha512` stands before its name.
pub fn answer(alloc: Global, line: &str, out: &mut String) -> Result<(), Fault> {
    let columns: Vec<&str> = without_row_name(line).split(' ').collect(alloc)?;
    match columns.as_slice() {
        ["sha512", list, columns @ ..] => over::<Sha512, 64>(alloc, *list, columns, out),
        [list, columns @ ..] => over::<Sha256, 32>(alloc, *list, columns, out),
        [] => Err(Fault::Malformed),
    }
}

/// Returns the answer of a list of that name, with the digests of `H`, which have `D` bytes.
fn over<H: Hasher<Digest = FixedBytes<D>>, const D: usize>(
    alloc: Global,
    list: &str,
    columns: &[&str],
    out: &mut String,
) -> Result<(), Fault>
where
    FixedBytes<D>: Digest,
    requires small { D ≤ 64 }
{
    match list {
        "bitmaps"
        | "bitmaps_checks"
        | "bitmaps_init"
        | "bitmaps_read"
        | "bitmaps_served"
        | "bitmaps_verified" => bitmaps::answer::<H, D>(alloc, list, columns, out),
        "combined"
        | "combined_asked"
        | "combined_marks"
        | "combined_ranges"
        | "combined_reads"
        | "combined_views"
        | "each_operation"
        | "each_range"
        | "exclusions"
        | "fetched_ranges"
        | "golden"
        | "golden_keys"
        | "key_values"
        | "keyed"
        | "operation_checks"
        | "ranges"
        | "ranges_checks"
        | "texts" => lists::answer::<H, D>(alloc, list, columns, out),
        _ => of_values::<H>(alloc, list, columns, out),
    }
}

/// Returns the answer of a list on values, operations or the program, or of another one.
fn of_values<H: Hasher>(
    alloc: Global,
    list: &str,
    columns: &[&str],
    out: &mut String,
) -> Result<(), Fault> {
    match list {
        "asked" | "equal" | "operations" | "valued" | "written" => {
            operations::answer(alloc, list, columns, out)
        }
        "cuts" => values::cuts(alloc, columns, out),
        "db" => program::db(alloc, columns, out),
        "errors" => errors::errors(alloc, columns, out),
        "filled" => codecs::filled::<H>(alloc, columns, out),
        "golden_hash" => codecs::golden_hash::<H>(alloc, columns, out),
        "runs" => program::runs(alloc, columns, out),
        "values" => values::values(alloc, columns, out),
        "varints" => codecs::varints(alloc, columns, out),
        _ => by_family::<H>(alloc, list, columns, out),
    }
}

/// Returns the answer of a list whose first column is the family.
fn by_family<H: Hasher>(
    alloc: Global,
    list: &str,
    columns: &[&str],
    out: &mut String,
) -> Result<(), Fault> {
    match columns {
        ["mmr", columns @ ..] => of_shapes::<mmr::Family, H>(alloc, list, columns, out),
        ["mmb", columns @ ..] => of_shapes::<mmb::Family, H>(alloc, list, columns, out),
        _ => Err(Fault::Malformed),
    }
}

/// Returns the answer of a list on the arithmetic of a family, or of another one.
fn of_shapes<F: Graftable, H: Hasher>(
    alloc: Global,
    list: &str,
    columns: &[&str],
    out: &mut String,
) -> Result<(), Fault> {
    match list {
        "around" => trees::around::<F>(alloc, columns, out),
        "elements" => trees::elements::<F>(alloc, columns, out),
        "families" => trees::families::<F>(alloc, columns, out),
        "graftable" => trees::graftable::<F>(alloc, columns, out),
        "inactive" => trees::inactive::<F>(alloc, columns, out),
        "maps" => trees::maps::<F>(alloc, columns, out),
        "nodes" => trees::nodes::<F>(alloc, columns, out),
        "places" => places::places::<F>(alloc, columns, out),
        "plans" => trees::plans::<F>(alloc, columns, out),
        "ranges_extracted" | "required" => by_chunk::<F, H>(alloc, list, columns, out),
        "sizes" => trees::sizes::<F>(alloc, columns, out),
        _ => of_proofs::<F, H>(alloc, list, columns, out),
    }
}

/// Returns the answer of a list on trees and their proofs.
fn of_proofs<F: Graftable, H: Hasher>(
    alloc: Global,
    list: &str,
    columns: &[&str],
    out: &mut String,
) -> Result<(), Fault> {
    match list {
        "both_chunks" => both_chunks::both_chunks::<F, H>(alloc, columns, out),
        "built" => stores::built::<F, H>(alloc, columns, out),
        "element_checks" => checks::element_checks::<F, H>(alloc, columns, out),
        "extracted" => extracted::extracted::<F, H>(alloc, columns, out),
        "grafted_trees" => grafted_trees::grafted_trees::<F, H>(alloc, columns, out),
        "key_proofs" => key_proofs::key_proofs::<F, H>(alloc, columns, out),
        "mem_init" => mems::mem_init::<F, H>(alloc, columns, out),
        "mems" => mems::mems::<F, H>(alloc, columns, out),
        "multi_checks" => checks::multi_checks::<F, H>(alloc, columns, out),
        "pinned_checks" => checks::pinned_checks::<F, H>(alloc, columns, out),
        "plain_checks" => checks::plain_checks::<F, H>(alloc, columns, out),
        "plain_operations" => checks::plain_operations::<F, H>(alloc, columns, out),
        "program_checks" => program::program_checks::<F, H>(alloc, columns, out),
        "slots" => places::slots::<F, H>(alloc, columns, out),
        "slots_read" => places::slots_read::<F, H>(alloc, columns, out),
        "stores" => stores::stores::<F, H>(alloc, columns, out),
        "verifiers" => verifiers::verifiers::<F, H>(alloc, columns, out),
        "witnesses" => witnesses::witnesses::<F, H>(alloc, columns, out),
        _ => Err(Fault::Malformed),
    }
}

/// Returns the answer of a list on chunks whose size is the first column.
fn by_chunk<F: Graftable, H: Hasher>(
    alloc: Global,
    list: &str,
    columns: &[&str],
    out: &mut String,
) -> Result<(), Fault> {
    match columns {
        ["1", columns @ ..] => of_chunk::<F, H, 1>(alloc, list, columns, out),
        ["2", columns @ ..] => of_chunk::<F, H, 2>(alloc, list, columns, out),
        ["4", columns @ ..] => of_chunk::<F, H, 4>(alloc, list, columns, out),
        ["32", columns @ ..] => of_chunk::<F, H, 32>(alloc, list, columns, out),
        _ => Err(Fault::Malformed),
    }
}

fn of_chunk<F: Graftable, H: Hasher, const N: usize>(
    alloc: Global,
    list: &str,
    columns: &[&str],
    out: &mut String,
) -> Result<(), Fault>
    requires { IsChunkSize N }
{
    match list {
        "required" => trees::required::<F, N>(alloc, columns, out),
        _ => extracted::ranges_extracted::<F, H, N>(alloc, columns, out),
    }
}
