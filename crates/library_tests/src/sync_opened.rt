//! Openings from a server: each is accepted under the canonical root, and is read again as it is written. Copies that begin where they do,
//! and the last check of their pins.

use crate::snapshots::{node_at, ops_root_of, root_of};
use crate::stops::{is_refused, some, there};
use crate::sync_calls::finish;
use crate::sync_served::{FAULT, Log, log_of, prune, server_of, take_pages};
use std::alloc::Global;
use std::process::Abort;
use storage_bitmap::bitmap::Readable as _;
use storage_codec::codec::{Decode, Encode, Error};
use storage_codec::digest::{DigestOf, Sha256};
use storage_current::qmdb::current::Tail;
use storage_merkle::merkle::{Graftable, Location, mmb, mmr};
use storage_sync::sync::{Limits, Opening, Replica, Server, Sync, Unanswered, Unfounded};

pub type Told<F> = Opening<F, DigestOf<Sha256>>;

/// Room for the openings of these tests.
const LIMITS: Limits = Limits {
    max_ops: 1,
    max_operation_len: 8,
    max_digests: 16,
};

/// Returns what `server` answers for a copy that begins at `begin`.
pub fn opening<F: Graftable>(
    rt: &impl Abort,
    alloc: Global,
    server: &Server<F, Sha256, 1>,
    log: &mut Log,
    begin: u64,
) -> Result<Told<F>, Unanswered> {
    assert!(rt; log.failures < u64::MAX);
    server.opening(alloc, log, Location::new(begin))
}

/// Asserts that `server` opens no copy at `begin`, by the name `why`.
fn assert_unopened<F: Graftable>(
    rt: &impl Abort,
    alloc: Global,
    server: &Server<F, Sha256, 1>,
    mut log: Log,
    begin: u64,
    why: Unanswered,
) {
    is_refused(rt, &opening(rt, alloc, server, &mut log, begin), &why);
}

/// Returns whether `told` is accepted under the canonical root `root`.
fn is_accepted_under<F: Graftable>(
    rt: &impl Abort,
    alloc: Global,
    told: &Told<F>,
    root: &DigestOf<Sha256>,
) -> bool {
    some(rt, told.is_accepted::<Sha256, 1>(alloc, root))
}

/// Returns whether `told` is accepted under the canonical root of `server`, and under no other.
fn is_accepted<F: Graftable>(
    rt: &impl Abort,
    alloc: Global,
    server: &Server<F, Sha256, 1>,
    told: &Told<F>,
) -> bool {
    assert!(rt; !is_accepted_under(rt, alloc, told, &ops_root_of(&server.snapshot)));
    is_accepted_under(rt, alloc, told, &root_of(&server.snapshot))
}

/// Reads the opening that `written` is, within `limits`.
fn read<F: Graftable>(alloc: Global, written: &[u8], limits: &Limits) -> Result<Told<F>, Error> {
    Told::decode_cfg(alloc, written, limits)
}

/// Asserts that `told` is read again as it is written, within limits that admit it, and not within others.
fn assert_read_again<F: Graftable>(rt: &impl Abort, alloc: Global, told: &Told<F>) {
    let written = some(rt, told.encode(alloc));
    let again = some(rt, read::<F>(alloc, &written, &LIMITS));
    let again = some(rt, again.encode(alloc));
    assert!(rt; again.as_slice() == written.as_slice());
    let short = Limits {
        max_operation_len: 7,
        ..LIMITS
    };
    let longer = read::<F>(alloc, &written, &short);
    is_refused(rt, &longer, &Error::InvalidLength(8));
}

/// Asserts that `server`, which has nineteen operations, opens no copy where it cannot, and from no log that has not what is needed.
fn assert_refusals<F: Graftable>(rt: &impl Abort, alloc: Global, server: &Server<F, Sha256, 1>) {
    let refusals = [
        (0, 19, 1, 24, Unanswered::OutOfBounds),
        (0, 19, 1, 9, Unanswered::NotAtChunk),
        (9, 19, 1, 8, Unanswered::Pruned),
        (0, 8, 1, 8, Unanswered::Corrupted),
        (0, 19, 0, 8, Unanswered::Log(FAULT)),
    ];
    for (first, past, left, begin, why) in refusals {
        let log = log_of(first, past, left);
        assert_unopened(rt, alloc, server, log, begin, why);
    }
}

/// Asserts what `server` tells a copy that begins behind the first chunk, over which the node is at `position`.
fn assert_opening<F: Graftable>(
    rt: &impl Abort,
    alloc: Global,
    server: &Server<F, Sha256, 1>,
    position: u64,
) {
    let told = some(rt, opening(rt, alloc, server, &mut log_of(0, 19, 1), 8));
    assert!(rt; told.begin.as_u64() == 8 && told.operations.len() == 1);
    assert!(rt; is_accepted(rt, alloc, server, &told));
    let pin = node_at(rt, &server.snapshot, position);
    assert!(rt; told.over_chunks.as_slice() == [pin].as_slice());
    assert_read_again(rt, alloc, &told);
    drop(told);
}

/// Opens a copy behind the first chunk of nineteen operations, over which the node is at `position`.
fn open<F: Graftable>(rt: &impl Abort, alloc: Global, position: u64) {
    let mut server = server_of::<F, 1>(rt, alloc, 19);
    assert_opening(rt, alloc, &server, position);
    assert_refusals(rt, alloc, &server);
    prune(rt, &mut server);
    assert_unopened(rt, alloc, &server, log_of(0, 19, 1), 0, Unanswered::Pruned);
    drop(server);
}

/// Returns a copy that is to begin at `begin`, if one can, with pages of at most `max_ops` operations.
fn started<F: Graftable>(
    alloc: Global,
    server: &Server<F, Sha256, 1>,
    begin: u64,
    max_ops: u64,
) -> Option<Sync<F, Sha256, 1>> {
    let limits = Limits { max_ops, ..LIMITS };
    let root = root_of(&server.snapshot);
    Sync::starting_at(alloc, root, limits, Location::new(begin))
}

/// Returns the copy that begins with `told`, with pages of a chunk.
fn begun<F: Graftable>(
    rt: &impl Abort,
    alloc: Global,
    server: &Server<F, Sha256, 1>,
    told: &Told<F>,
) -> Sync<F, Sha256, 1> {
    let limits = Limits {
        max_ops: 8,
        ..LIMITS
    };
    let root = root_of(&server.snapshot);
    let begun = some(rt, Sync::from_opening(alloc, root, limits, told));
    there(rt, begun, "an opening is refused")
}

/// Asserts that no copy begins with pages of less than a chunk, or where no chunk begins.
fn assert_not_started<F: Graftable>(rt: &impl Abort, alloc: Global, server: &Server<F, Sha256, 1>) {
    assert!(rt; started(alloc, server, 8, 7).is_none());
    assert!(rt; started(alloc, server, 9, 8).is_none());
}

/// Asserts that `copy` has the operations behind the first `chunks` chunks, of nineteen, and their bits.
fn assert_tail(rt: &impl Abort, copy: &Replica<DigestOf<Sha256>, 1>, chunks: u64) {
    assert!(rt; chunks < 3 && copy.status.pruned_chunks() as u64 == chunks);
    let begin = 8 * chunks;
    assert!(rt; copy.operations.len() as u64 == 19 - begin && copy.status.len() == 19);
    for location in begin..19 {
        let index = (location - begin) as usize;
        assert!(rt; index < copy.operations.len());
        assert!(rt; copy.operations[index].as_slice() == location.to_be_bytes().as_slice());
        assert!(rt; copy.status.get_bit(location) == (location % 3 == 0));
    }
}

/// Takes a copy of what `server` has of nineteen operations from where `told` begins on, in `pages` pages of a chunk each.
pub fn copy_from<F: Graftable>(
    rt: &impl Abort,
    alloc: Global,
    server: &Server<F, Sha256, 1>,
    log: &mut Log,
    told: &Told<F>,
    pages: u64,
) -> Replica<DigestOf<Sha256>, 1> {
    let mut sync = begun(rt, alloc, server, told);
    take_pages(rt, alloc, server, log, &mut sync, pages);
    finish(rt, sync)
}

/// Returns the trees of `copy`, which began with `told`, with the inactivity floor `floor`.
fn trees<F: Graftable>(
    alloc: Global,
    copy: &Replica<DigestOf<Sha256>, 1>,
    told: &Told<F>,
    floor: u64,
) -> Result<Tail<F, Sha256>, Unfounded> {
    copy.to_tail::<F, Sha256>(alloc, told, Location::new(floor))
}

/// Asserts that `copy` has trees with the floor `floor` and the pins of `told`, with which it began, and none with another pin over
/// the chunks, or from where it did not begin on.
fn assert_pinned<F: Graftable>(
    rt: &impl Abort,
    alloc: Global,
    copy: &Replica<DigestOf<Sha256>, 1>,
    mut told: Told<F>,
    floor: u64,
) {
    let found = some(rt, trees(alloc, copy, &told, floor));
    assert!(rt; found.operations.leaves().as_u64() == 19);
    drop(found);
    is_refused(
        rt,
        &trees(alloc, copy, &told, 20),
        &Unfounded::FloorPastTheEnd,
    );
    assert!(rt; told.over_chunks.len() == 1);
    told.over_chunks = some(rt, Vec::from_slice(alloc, &[told.ops_root]));
    is_refused(
        rt,
        &trees(alloc, copy, &told, floor),
        &Unfounded::OtherRoots,
    );
    told.begin = Location::new(0);
    is_refused(rt, &trees(alloc, copy, &told, floor), &Unfounded::Malformed);
    drop(told);
}

/// Takes a copy of a snapshot of nineteen operations behind its first `chunks` chunks, and asserts what it has.
fn copy_tail<F: Graftable>(rt: &impl Abort, alloc: Global, chunks: u64, pages: u64) {
    let server = server_of::<F, 1>(rt, alloc, 19);
    assert_not_started(rt, alloc, &server);
    assert!(rt; chunks < 3);
    let mut log = log_of(8 * chunks, 19, 12);
    let told = some(rt, opening(rt, alloc, &server, &mut log, 8 * chunks));
    let copy = copy_from(rt, alloc, &server, &mut log, &told, pages);
    assert!(rt; copy.ops_root == ops_root_of(&server.snapshot));
    assert_tail(rt, &copy, chunks);
    assert_pinned(rt, alloc, &copy, told, server.floor.as_u64());
    drop(copy);
    drop(server);
}

// the positions of the node over the first eight operations are worked by hand
#[test]
fn range_opened(rt: HostRuntime) {
    open::<mmr::Family>(&rt, rt.alloc(), 14);
    let server = server_of::<mmr::Family, 1>(&rt, rt.alloc(), 19);
    let told = opening(&rt, rt.alloc(), &server, &mut log_of(0, 19, 1), 16);
    let told = some(&rt, told);
    assert!(rt; told.over_chunks.len() == 1 && is_accepted(&rt, rt.alloc(), &server, &told));
    drop(told);
    drop(server);
}

#[test]
fn range_copied_from_an_opening(rt: HostRuntime) {
    copy_tail::<mmr::Family>(&rt, rt.alloc(), 2, 1);
}

#[test]
fn belt_copied_from_an_opening(rt: HostRuntime) {
    copy_tail::<mmb::Family>(&rt, rt.alloc(), 1, 2);
}

// over nineteen operations the belt has no node over the first sixteen, which the tree over their chunks has
#[test]
fn belt_opened(rt: HostRuntime) {
    open::<mmb::Family>(&rt, rt.alloc(), 18);
    let server = server_of::<mmb::Family, 1>(&rt, rt.alloc(), 19);
    let log = log_of(0, 19, 1);
    assert_unopened(&rt, rt.alloc(), &server, log, 16, Unanswered::NotAtChunk);
}
