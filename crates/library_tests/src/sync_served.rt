//! Copies of snapshots from a server: asker and server together.

ghost use Rattle.std.specs.Prelude.{◌≡◌, ◌+◌, ◌<◌, ◌^◌, map, IfOk};
ghost use Rattle.std.specs.Int.{to_be_bytes, w64};
ghost use Rattle.storage_bitmap.specs.Chunks.{IsChunkSize};

use crate::snapshots::{self, made, ops_root_of, root_of};
use crate::stops::{done, is_refused, some, there};
use crate::sync_calls::{begin, finish, take, wanted};
use crate::sync_copies::{assert_changes_refused, assert_refused};
use std::alloc::{AllocError, Global};
use std::ops::Range;
use std::process::Abort;
use storage_bitmap::bitmap::{Prunable, Readable as _};
use storage_codec::codec::Encode;
use storage_codec::digest::{DigestOf, Sha256};
use storage_current::qmdb::current::{Contiguous, LogError, Snapshot};
use storage_merkle::merkle::{Graftable, Location, MAX_LEAVES, mmb, mmr};
use storage_sync::sync::{Limits, Page, Replica, Request, Server, Sync, Unanswered, Unfounded};

/// The code that the log fails with.
pub const FAULT: u32 = 9;

/// A log whose operation at each location is the location, in eight bytes. Once all operations that it has left are read
/// it fails.
#[derive(Drop)]
pub struct Log {
    first: u64,
    past: u64,
    left: u64,
    pub failures: u64,
}

impl Contiguous for Log {
    type Item = Vec<u8>;

    ghost text = { λ item. item.items };

    ghost item = { λ s l. to_be_bytes w64 l };

    ghost first = { λ s. s.first };

    ghost past = { λ s. s.past };

    ghost failed = { λ s. s.failures };

    ghost may_fail = { λ s _ code. code ≡ 9 };

    fn failures(&self) -> u64 {
        self.failures
    }

    fn bounds(&self) -> Range<u64> {
        self.first..self.past
    }

    fn read_many(&mut self, alloc: Global, locations: &[u64]) -> Result<Vec<Vec<u8>>, LogError> {
        let count = locations.len() as u64;
        if self.left < count {
            self.failures += 1;
            return Err(LogError::Fault(FAULT));
        }
        self.left -= count;
        match operations_at(alloc, locations) {
            Ok(operations) => Ok(operations),
            Err(_) => Err(LogError::Memory),
        }
    }
}

/// Returns the operations at `locations`.
fn operations_at(alloc: Global, locations: &[u64]) -> Result<Vec<Vec<u8>>, AllocError>
    ensures { IfOk result (λ v. map (λ o. o.items) v.items ≡ map (to_be_bytes w64) locations.now) }
{
    let mut operations = Vec::new(alloc);
    for location in locations {
        operations.push(Vec::from_slice(alloc, &location.to_be_bytes())?)?;
    }
    Ok(operations)
}

/// Returns how many operations the snapshot has: three complete chunks of them, and three more.
fn count<const N: usize>() -> u64
    requires { IsChunkSize N }
    ensures { result + 1 < 2 ^ 64 }
{
    24 * N as u64 + 3
}

/// Returns its inactivity floor: in the third chunk.
fn floor<const N: usize>() -> u64
    requires { IsChunkSize N }
{
    16 * N as u64 + 1
}

/// Returns the snapshot of the first `count` operations of the log, of which each third is active.
fn snapshot_of<F: Graftable, const N: usize>(
    rt: &impl Abort,
    alloc: Global,
    count: u64,
) -> Snapshot<F, Sha256, N>
    requires { IsChunkSize N }
{
    let mut locations = Vec::new(alloc);
    let mut bits = Prunable::new(alloc);
    for location in 0..count {
        assert!(rt; bits.len() < MAX_LEAVES);
        some(rt, bits.push(location % 3 == 0));
        some(rt, locations.push(location));
    }
    let operations = some(rt, operations_at(alloc, &locations));
    made(rt, alloc, &operations, bits, floor::<N>())
}

/// Returns the server of that snapshot.
pub fn server_of<F: Graftable, const N: usize>(
    rt: &impl Abort,
    alloc: Global,
    count: u64,
) -> Server<F, Sha256, N>
    requires { IsChunkSize N }
{
    Server {
        snapshot: snapshot_of::<F, N>(rt, alloc, count),
        floor: Location::new(floor::<N>()),
    }
}

/// Returns the log of the operations from `first` to before `past`, of which `left` are read.
pub fn log_of(first: u64, past: u64, left: u64) -> Log
    ensures { result.failures ≡ 0 }
{
    Log {
        first,
        past,
        left,
        failures: 0,
    }
}

/// Returns what is asked for.
pub fn request<F>(start: u64, max_ops: u64) -> Request<F> {
    Request {
        start_loc: Location::new(start),
        max_ops,
    }
}

/// Returns what `server` answers to `request`.
fn answer<F: Graftable, const N: usize>(
    rt: &impl Abort,
    alloc: Global,
    server: &Server<F, Sha256, N>,
    log: &mut Log,
    request: Request<F>,
) -> Result<Page<F, DigestOf<Sha256>>, Unanswered> {
    assert!(rt; log.failures < u64::MAX);
    server.answer(alloc, log, request)
}

/// Returns the answer of `server` to `request`, as it is written.
pub fn page_of<F: Graftable, const N: usize>(
    rt: &impl Abort,
    alloc: Global,
    server: &Server<F, Sha256, N>,
    log: &mut Log,
    request: Request<F>,
) -> Vec<u8> {
    let page = some(rt, answer(rt, alloc, server, log, request));
    some(rt, page.encode(alloc))
}

/// Asserts that `server` does not answer, by the name `why`.
fn assert_unanswered<F: Graftable, const N: usize>(
    rt: &impl Abort,
    alloc: Global,
    server: &Server<F, Sha256, N>,
    log: &mut Log,
    request: Request<F>,
    why: Unanswered,
) {
    is_refused(rt, &answer(rt, alloc, server, log, request), &why);
}

/// Takes what `server` answers to what is wanted, `pages` times. Each answer comes after changed ones, and once more when it
/// is taken.
pub fn take_pages<F: Graftable, const N: usize>(
    rt: &impl Abort,
    alloc: Global,
    server: &Server<F, Sha256, N>,
    log: &mut Log,
    sync: &mut Sync<F, Sha256, N>,
    pages: u64,
) {
    for _ in 0..pages {
        let request = there(rt, wanted(sync), "nothing is wanted");
        let mut page = page_of(rt, alloc, server, log, request);
        assert_changes_refused(rt, alloc, sync, &mut page, 211);
        take(rt, alloc, sync, &page);
        assert_refused(rt, alloc, sync, &page, None);
    }
}

/// Asserts that `server`, of which nothing is pruned, names what is wrong with requests and with its log.
fn assert_refusals<F: Graftable, const N: usize>(
    rt: &impl Abort,
    alloc: Global,
    server: &Server<F, Sha256, N>,
)
    requires { IsChunkSize N }
{
    let count = count::<N>();
    let chunk = 8 * N as u64;
    let mut log = log_of(0, count, 0);
    let past = request(count, chunk);
    assert_unanswered(rt, alloc, server, &mut log, past, Unanswered::OutOfBounds);
    let inside = request(1, chunk);
    assert_unanswered(rt, alloc, server, &mut log, inside, Unanswered::NotAtChunk);
    let few = request(0, chunk - 1);
    assert_unanswered(rt, alloc, server, &mut log, few, Unanswered::TooFew);
    let none = request(3 * chunk, 0);
    assert_unanswered(rt, alloc, server, &mut log, none, Unanswered::TooFew);
    let failed = request(0, chunk);
    assert_unanswered(rt, alloc, server, &mut log, failed, Unanswered::Log(FAULT));
    let mut later = log_of(1, count, count);
    let early = request(0, chunk);
    assert_unanswered(rt, alloc, server, &mut later, early, Unanswered::Pruned);
    let mut short = log_of(0, chunk - 1, count);
    let long = request(0, chunk);
    assert_unanswered(rt, alloc, server, &mut short, long, Unanswered::Corrupted);
}

/// Asserts how many operations and chunks the answer to `request` has.
fn assert_answered<F: Graftable, const N: usize>(
    rt: &impl Abort,
    alloc: Global,
    server: &Server<F, Sha256, N>,
    request: Request<F>,
    operations: u64,
    chunks: u64,
)
    requires { IsChunkSize N }
{
    let mut log = log_of(0, count::<N>(), u64::MAX);
    let page = some(rt, answer(rt, alloc, server, &mut log, request));
    assert!(rt; page.operations.len() as u64 == operations && page.chunks.len() as u64 == chunks);
}

/// Returns how much of the snapshot a copy takes at a time: a chunk of operations, and no more than seven beside it.
fn limits<const N: usize>() -> Limits
    requires { IsChunkSize N }
{
    Limits {
        max_ops: 8 * N as u64 + 7,
        max_operation_len: 8,
        max_digests: 64,
    }
}

/// Prunes the snapshot of `server` at its floor, where its third chunk begins.
pub fn prune<F: Graftable, const N: usize>(rt: &impl Abort, server: &mut Server<F, Sha256, N>) {
    let floor = server.floor.as_u64();
    done(rt, &snapshots::prune(&mut server.snapshot, floor));
    assert!(rt; server.snapshot.status().pruned_chunks() == 2);
}

/// Prunes the snapshot of `server`, and asserts that it answers for its third chunk as before, and for the others no more.
fn prune_meanwhile<F: Graftable, const N: usize>(
    rt: &impl Abort,
    alloc: Global,
    server: &mut Server<F, Sha256, N>,
    log: &mut Log,
)
    requires { IsChunkSize N }
{
    let chunk = 8 * N as u64;
    let third = page_of(rt, alloc, server, log, request(2 * chunk, chunk));
    prune(rt, server);
    for start in [0, chunk] {
        let gone = request(start, chunk);
        assert_unanswered(rt, alloc, server, log, gone, Unanswered::Pruned);
    }
    let again = page_of(rt, alloc, server, log, request(2 * chunk, chunk));
    assert!(rt; again.as_slice() == third.as_slice());
}

/// Asserts what `server`, of which nothing is pruned, refuses, and how much it answers at once.
fn assert_answers<F: Graftable, const N: usize>(
    rt: &impl Abort,
    alloc: Global,
    server: &Server<F, Sha256, N>,
)
    requires { IsChunkSize N }
{
    assert_refusals(rt, alloc, server);
    let chunk = 8 * N as u64;
    let whole = request(0, 2 * chunk + 7);
    assert_answered(rt, alloc, server, whole, 2 * chunk, 2);
    let rest = request(chunk, count::<N>());
    assert_answered(rt, alloc, server, rest, 2 * chunk + 3, 3);
}

/// Returns a copy of the snapshot of a server, which prunes it while the copy is taken.
fn copied_meanwhile<F: Graftable, const N: usize>(
    rt: &impl Abort,
    alloc: Global,
    server: &mut Server<F, Sha256, N>,
) -> Replica<DigestOf<Sha256>, N>
    requires { IsChunkSize N }
{
    let mut sync = begin::<F, N>(rt, alloc, root_of(&server.snapshot), limits::<N>());
    let mut log = log_of(0, count::<N>(), u64::MAX);
    take_pages(rt, alloc, server, &mut log, &mut sync, 2);
    prune_meanwhile(rt, alloc, server, &mut log);
    take_pages(rt, alloc, server, &mut log, &mut sync, 2);
    assert!(rt; wanted(&sync).is_none());
    finish(rt, sync)
}

/// Takes a copy of a snapshot from a server, which prunes it while the copy is taken, and goes on with it.
fn copy_from_server<F: Graftable, const N: usize>(rt: &impl Abort, alloc: Global)
    requires { IsChunkSize N }
{
    let mut server = server_of::<F, N>(rt, alloc, count::<N>());
    assert_answers(rt, alloc, &server);
    let copy = copied_meanwhile(rt, alloc, &mut server);
    assert_goes_on(rt, alloc, copy, &server.snapshot);
    drop(server);
}

/// Opens the snapshot of a copy.
fn to_snapshot<F: Graftable, const N: usize>(
    alloc: Global,
    copy: &Replica<DigestOf<Sha256>, N>,
    floor: u64,
    root: &DigestOf<Sha256>,
) -> Result<Snapshot<F, Sha256, N>, Unfounded> {
    copy.to_snapshot::<F, Sha256>(alloc, Location::new(floor), root)
}

/// Asserts that `copy` has the `count` operations and the operations root of `snapshot`.
fn assert_copy<F: Graftable, const N: usize>(
    rt: &impl Abort,
    copy: &Replica<DigestOf<Sha256>, N>,
    snapshot: &Snapshot<F, Sha256, N>,
    count: u64,
) {
    assert!(rt; copy.operations.len() as u64 == count && copy.ops_root == ops_root_of(snapshot));
}

/// Returns the snapshot of `copy` with the floor of that whose canonical root is `root`, and asserts that with another floor it is none
/// with that root.
fn founded<F: Graftable, const N: usize>(
    rt: &impl Abort,
    alloc: Global,
    copy: &Replica<DigestOf<Sha256>, N>,
    root: DigestOf<Sha256>,
) -> Snapshot<F, Sha256, N>
    requires { IsChunkSize N }
{
    let past = count::<N>() + 1;
    assert_unfounded::<F, N>(rt, alloc, copy, past, root, Unfounded::FloorPastTheEnd);
    assert_unfounded::<F, N>(rt, alloc, copy, 0, root, Unfounded::OtherRoots);
    let snapshot = some(rt, to_snapshot::<F, N>(alloc, copy, floor::<N>(), &root));
    assert!(rt; root_of(&snapshot) == root && snapshot.status().len() == count::<N>());
    snapshot
}

/// Returns `copy` without its operations.
fn without_operations<const N: usize>(
    alloc: Global,
    copy: Replica<DigestOf<Sha256>, N>,
) -> Replica<DigestOf<Sha256>, N> {
    let Replica {
        status,
        ops_root,
        ..
    } = copy;
    Replica {
        operations: Vec::new(alloc),
        status,
        ops_root,
    }
}

/// Asserts that `copy` has all operations of `snapshot`, and that with its floor, and no other, they are a snapshot with its
/// roots. That one grows, and a copy of it is taken.
fn assert_goes_on<F: Graftable, const N: usize>(
    rt: &impl Abort,
    alloc: Global,
    copy: Replica<DigestOf<Sha256>, N>,
    snapshot: &Snapshot<F, Sha256, N>,
)
    requires { IsChunkSize N }
{
    assert_copy(rt, &copy, snapshot, count::<N>());
    let root = root_of(snapshot);
    serve_again::<F, N>(rt, alloc, founded(rt, alloc, &copy, root));
    let short = without_operations(alloc, copy);
    assert_unfounded::<F, N>(rt, alloc, &short, 0, root, Unfounded::Malformed);
}

/// Appends the next operation of the log to `snapshot`, which has those before it.
fn append<F: Graftable, const N: usize>(
    rt: &impl Abort,
    alloc: Global,
    snapshot: &mut Snapshot<F, Sha256, N>,
)
    requires { IsChunkSize N }
{
    let next = some(rt, operations_at(alloc, &[count::<N>()]));
    let clear: [Location<F>; 0] = [];
    let grown = snapshots::extend(alloc, snapshot, &next, &[true], &clear, floor::<N>());
    done(rt, &grown);
}

/// Returns a copy of the `count` operations of a server in four pages.
fn copied<F: Graftable, const N: usize>(
    rt: &impl Abort,
    alloc: Global,
    server: &Server<F, Sha256, N>,
    count: u64,
) -> Replica<DigestOf<Sha256>, N>
    requires { IsChunkSize N }
{
    let mut sync = begin::<F, N>(rt, alloc, root_of(&server.snapshot), limits::<N>());
    let mut log = log_of(0, count, u64::MAX);
    take_pages(rt, alloc, server, &mut log, &mut sync, 4);
    assert!(rt; wanted(&sync).is_none());
    finish(rt, sync)
}

/// Asserts that `snapshot` is that of the first `count` operations of the log, and so is a copy of it from a server.
fn assert_served<F: Graftable, const N: usize>(
    rt: &impl Abort,
    alloc: Global,
    snapshot: Snapshot<F, Sha256, N>,
    count: u64,
)
    requires { IsChunkSize N }
{
    let whole = snapshot_of::<F, N>(rt, alloc, count);
    assert!(rt; root_of(&snapshot) == root_of(&whole));
    let floor = Location::new(floor::<N>());
    let server = Server { snapshot, floor };
    let copy = copied(rt, alloc, &server, count);
    assert_copy(rt, &copy, &whole, count);
    drop(copy);
    drop(server);
    drop(whole);
}

/// Appends the next operation of the log to `snapshot`, which has those before it, and takes a copy of it from a server.
fn serve_again<F: Graftable, const N: usize>(
    rt: &impl Abort,
    alloc: Global,
    mut snapshot: Snapshot<F, Sha256, N>,
)
    requires { IsChunkSize N }
{
    append(rt, alloc, &mut snapshot);
    assert_served(rt, alloc, snapshot, count::<N>() + 1);
}

/// Asserts that with `floor` the copy is no snapshot with the canonical root `root`, by the name `why`.
fn assert_unfounded<F: Graftable, const N: usize>(
    rt: &impl Abort,
    alloc: Global,
    copy: &Replica<DigestOf<Sha256>, N>,
    floor: u64,
    root: DigestOf<Sha256>,
    why: Unfounded,
) {
    is_refused(rt, &to_snapshot::<F, N>(alloc, copy, floor, &root), &why);
}

/// Returns the snapshot of no operations.
fn nothing<F: Graftable>(rt: &impl Abort, alloc: Global) -> Snapshot<F, Sha256, 1> {
    let none: [[u8; 0]; 0] = [];
    made(rt, alloc, &none, Prunable::new(alloc), 0)
}

/// Returns the snapshot of no operations if `root` is its canonical root.
fn of_nothing<F: Graftable>(
    rt: &impl Abort,
    alloc: Global,
    root: DigestOf<Sha256>,
) -> Option<Snapshot<F, Sha256, 1>> {
    some(rt, Sync::of_nothing(alloc, &root))
}

/// Asserts that `known` is the snapshot of no operations, as `nothing` is.
fn assert_nothing<F: Graftable>(
    rt: &impl Abort,
    known: &Snapshot<F, Sha256, 1>,
    nothing: &Snapshot<F, Sha256, 1>,
) {
    assert!(rt; known.status().len() == 0 && ops_root_of(known) == ops_root_of(nothing));
}

/// Asserts that the snapshot of no operations is known by its root.
fn nothing_is_known<F: Graftable>(rt: &impl Abort, alloc: Global) {
    let nothing = nothing::<F>(rt, alloc);
    let known = of_nothing::<F>(rt, alloc, root_of(&nothing));
    let known = there(rt, known, "the root of nothing");
    assert_nothing(rt, &known, &nothing);
    drop(known);
    drop(nothing);
}

/// Asserts that the snapshot of no operations is known by its root, and no other is.
fn nothing_known<F: Graftable>(rt: &impl Abort, alloc: Global) {
    nothing_is_known::<F>(rt, alloc);
    let other = snapshot_of::<F, 1>(rt, alloc, count::<1>());
    let known = of_nothing::<F>(rt, alloc, root_of(&other));
    assert!(rt; known.is_none());
    drop(known);
    drop(other);
}

#[test]
fn nothing_known_in_a_range(rt: HostRuntime) {
    nothing_known::<mmr::Family>(&rt, rt.alloc());
}

#[test]
fn nothing_known_in_a_belt(rt: HostRuntime) {
    nothing_known::<mmb::Family>(&rt, rt.alloc());
}

#[test]
fn range_copied_from_a_server(rt: HostRuntime) {
    copy_from_server::<mmr::Family, 1>(&rt, rt.alloc());
    copy_from_server::<mmr::Family, 4>(&rt, rt.alloc());
    copy_from_server::<mmr::Family, 32>(&rt, rt.alloc());
}

#[test]
fn belt_copied_from_a_server(rt: HostRuntime) {
    copy_from_server::<mmb::Family, 1>(&rt, rt.alloc());
    copy_from_server::<mmb::Family, 4>(&rt, rt.alloc());
    copy_from_server::<mmb::Family, 32>(&rt, rt.alloc());
}
