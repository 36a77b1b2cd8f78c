//! Copies that begin at a location go on as snapshots: these have the roots and nodes of the whole one, and serve its pages.

use crate::snapshots::{node_at, ops_root_of, root_of};
use crate::stops::{done, is_refused, some, there};
use crate::sync_opened::{Told, copy_from, opening};
use crate::sync_served::{Log, log_of, page_of, request, server_of};
use std::alloc::Global;
use std::process::Abort;
use storage_bitmap::bitmap::Readable as _;
use storage_codec::codec::Encode;
use storage_codec::digest::{DigestOf, Sha256};
use storage_current::qmdb::current::SnapshotTail;
use storage_merkle::merkle::{Graftable, Location, Position, mmb, mmr};
use storage_ops::qmdb::Error;
use storage_sync::sync::{Page, Replica, Request, Server, TailServer, Unanswered, Unfounded};

type Kept<F> = SnapshotTail<F, Sha256, 1>;

/// Returns what `copy`, which began with `told`, goes on as with the canonical root `root`.
fn gone_on<F: Graftable>(
    alloc: Global,
    copy: &Replica<DigestOf<Sha256>, 1>,
    told: &Told<F>,
    floor: u64,
    root: &DigestOf<Sha256>,
) -> Result<Kept<F>, Unfounded> {
    copy.to_snapshot_tail::<F, Sha256>(alloc, told, Location::new(floor), root)
}

/// Returns the canonical root that the witness of `kept` gives.
fn witnessed<F: Graftable>(kept: &Kept<F>) -> DigestOf<Sha256> {
    kept.witness().root::<Sha256>(&kept.ops_root())
}

/// Asserts that `kept` has the roots, the floor and as many bits as the snapshot of `server`.
fn assert_roots<F: Graftable>(rt: &impl Abort, server: &Server<F, Sha256, 1>, kept: &Kept<F>) {
    let root = root_of(&server.snapshot);
    assert!(rt; kept.root() == root && kept.ops_root() == ops_root_of(&server.snapshot));
    assert!(rt; witnessed(kept) == root);
    assert!(rt; kept.floor().as_u64() == server.floor.as_u64() && kept.status().len() == 19);
}

/// Returns the digest that `kept` has at `position`.
fn node_left<F: Graftable>(rt: &impl Abort, kept: &Kept<F>, position: u64) -> DigestOf<Sha256> {
    there(rt, kept.get_node(Position::new(position)), "no node")
}

/// Returns what `server` answers to `request`.
fn answer<F: Graftable>(
    rt: &impl Abort,
    alloc: Global,
    server: &TailServer<F, Sha256, 1>,
    log: &mut Log,
    request: Request<F>,
) -> Result<Page<F, DigestOf<Sha256>>, Unanswered> {
    assert!(rt; log.failures < u64::MAX);
    server.answer(alloc, log, request)
}

/// Asserts that `tail` answers for the chunk that begins at `start` what `server` does, to the byte.
fn assert_same_page<F: Graftable>(
    rt: &impl Abort,
    alloc: Global,
    server: &Server<F, Sha256, 1>,
    tail: &TailServer<F, Sha256, 1>,
    start: u64,
) {
    let mut log = log_of(0, 19, u64::MAX);
    let whole = page_of(rt, alloc, server, &mut log, request(start, 8));
    let page = some(rt, answer(rt, alloc, tail, &mut log, request(start, 8)));
    let page = some(rt, page.encode(alloc));
    assert!(rt; page.as_slice() == whole.as_slice());
}

/// Asserts that `tail` does not answer for the chunk that begins at `start`, by the name `why`.
fn assert_unanswered<F: Graftable>(
    rt: &impl Abort,
    alloc: Global,
    tail: &TailServer<F, Sha256, 1>,
    start: u64,
    why: Unanswered,
) {
    let mut log = log_of(0, 19, u64::MAX);
    is_refused(
        rt,
        &answer(rt, alloc, tail, &mut log, request(start, 8)),
        &why,
    );
}

/// Prunes `kept` at `location`.
fn prune<F: Graftable>(kept: &mut Kept<F>, location: u64) -> Result<(), Error<F>> {
    kept.prune(Location::new(location))
}

/// Asserts what `tail` serves of nineteen operations, behind the chunk or the two of them that it is told of by a pin: the pages that
/// `server` has, also once it has forgotten what ends at its floor.
fn assert_serves<F: Graftable>(
    rt: &impl Abort,
    alloc: Global,
    server: &Server<F, Sha256, 1>,
    mut tail: TailServer<F, Sha256, 1>,
    begin: u64,
) {
    assert_same_page(rt, alloc, server, &tail, begin);
    assert_same_page(rt, alloc, server, &tail, 16);
    assert_unanswered(rt, alloc, &tail, 0, Unanswered::Pruned);
    assert_unanswered(rt, alloc, &tail, 24, Unanswered::OutOfBounds);
    assert!(rt; prune(&mut tail.snapshot, 18).is_err());
    done(rt, &prune(&mut tail.snapshot, 16));
    assert_same_page(rt, alloc, server, &tail, 16);
    drop(tail);
}

/// Takes a copy of a snapshot of nineteen operations behind its first `chunks` chunks, in `pages` pages, and goes on with it. The view has
/// the pin over them at `position`.
fn go_on<F: Graftable>(rt: &impl Abort, alloc: Global, chunks: u64, pages: u64, position: u64) {
    assert!(rt; 0 < chunks && chunks < 3);
    let server = server_of::<F, 1>(rt, alloc, 19);
    let begin = 8 * chunks;
    let mut log = log_of(begin, 19, 12);
    let told = some(rt, opening(rt, alloc, &server, &mut log, begin));
    let copy = copy_from(rt, alloc, &server, &mut log, &told, pages);
    let root = root_of(&server.snapshot);
    let floor = server.floor.as_u64();
    let other = gone_on(alloc, &copy, &told, floor, &copy.ops_root);
    is_refused(rt, &other, &Unfounded::OtherRoots);
    drop(other);
    let kept = some(rt, gone_on(alloc, &copy, &told, floor, &root));
    assert_roots(rt, &server, &kept);
    assert!(rt; node_left(rt, &kept, position) == node_at(rt, &server.snapshot, position));
    assert_serves(rt, alloc, &server, TailServer { snapshot: kept }, begin);
    drop(copy);
    drop(told);
    drop(server);
}

// over sixteen operations the range has a node of height four at position thirty, over the first eight the belt has one at eighteen
#[test]
fn range_goes_on_behind_pins(rt: HostRuntime) {
    go_on::<mmr::Family>(&rt, rt.alloc(), 2, 1, 30);
}

#[test]
fn belt_goes_on_behind_pins(rt: HostRuntime) {
    go_on::<mmb::Family>(&rt, rt.alloc(), 1, 2, 18);
}
