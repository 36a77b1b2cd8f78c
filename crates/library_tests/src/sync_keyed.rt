//! A keyed database from strangers: a copy of one is taken page by page, and opened by the root alone.

use crate::database_calls::{open_trusted, page};
use crate::opened::{are_alike, copies, first_of};
use crate::small::{Database, Digest, log, root, two_commits};
use crate::stops::{self, some, there};
use crate::sync_calls::{begin, finish, take, wanted};
use bytes::Bytes;
use std::alloc::Global;
use std::process::Abort;
use storage_codec::codec::Encode;
use storage_db::db::{OpenError, TrustError};
use storage_merkle::merkle::{Graftable, Location, mmb, mmr};
use storage_sync::sync::{Limits, Page, Request};

/// One chunk a page.
const LIMITS: Limits = Limits {
    max_ops: 8,
    max_operation_len: 18,
    max_digests: 16,
};

/// Returns copies of `chunks`.
fn shared(rt: &impl Abort, alloc: Global, chunks: &[[u8; 1]]) -> Vec<Bytes> {
    let mut all = Vec::new(alloc);
    for chunk in chunks {
        let copy = some(rt, Bytes::copy_from_slice(alloc, chunk.as_slice()));
        some(rt, all.push(copy));
    }
    all
}

/// Returns the page of the log of `database` that answers `request`, as it is written.
fn page_of<F: Graftable>(
    rt: &impl Abort,
    alloc: Global,
    database: &Database<F>,
    request: Request<F>,
) -> Vec<u8> {
    assert!(rt; request.max_ops > 0);
    let answer = page(database, request.start_loc, request.max_ops);
    let (proof, operations, touched) = some(rt, answer);
    let message = Page {
        proof,
        operations: copies(rt, alloc, operations),
        chunks: shared(rt, alloc, &touched),
    };
    some(rt, message.encode(alloc))
}

/// Returns the operations of a copy of `database`, which has two chunks of them, by the root of its last commit.
fn copy_of<F: Graftable>(
    rt: &impl Abort,
    alloc: Global,
    database: &Database<F>,
    root: Digest,
) -> Vec<Vec<u8>> {
    let mut sync = begin::<F, 1>(rt, alloc, root, LIMITS);
    for _ in 0..2 {
        let request = there(rt, wanted(&sync), "nothing is wanted");
        let page = page_of(rt, alloc, database, request);
        take(rt, alloc, &mut sync, &page);
    }
    finish(rt, sync).operations
}

/// Opens the database of `operations` by the root of its last commit.
fn opened<F: Graftable>(
    alloc: Global,
    operations: Vec<Vec<u8>>,
    root: &Digest,
) -> Result<Database<F>, TrustError<F>> {
    open_trusted(alloc, operations, root, &())
}

/// Asserts that the first `count` operations are not opened by `root`, for the reason `why`.
fn is_refused<F: Graftable>(
    rt: &impl Abort,
    alloc: Global,
    database: &Database<F>,
    count: usize,
    root: &Digest,
    why: TrustError<F>,
) {
    let first = first_of(rt, alloc, log(database), count);
    stops::is_refused(rt, &opened(alloc, first, root), &why);
}

/// Opens the copy of a database by its root, and asserts that both tell the same; that fewer operations are not opened by
/// that root, those up to the first commit because of their root.
fn opened_by_root<F: Graftable>(rt: &impl Abort, alloc: Global) {
    let database = two_commits::<F>(rt, alloc);
    let root = root(rt, &database);
    let operations = copy_of(rt, alloc, &database, root);
    let copy = some(rt, opened(alloc, operations, &root));
    are_alike(rt, alloc, &database, &copy);
    fewer_are_refused(rt, alloc, &database, &root);
    drop(database);
    drop(copy);
}

/// Asserts that fewer operations of `database` are not opened by `root`.
fn fewer_are_refused<F: Graftable>(
    rt: &impl Abort,
    alloc: Global,
    database: &Database<F>,
    root: &Digest,
) {
    is_refused(rt, alloc, database, 0, root, TrustError::OtherRoot);
    is_refused(rt, alloc, database, 8, root, TrustError::OtherRoot);
    let unfinished = OpenError::NotALog(Location::new(12));
    is_refused(rt, alloc, database, 12, root, TrustError::Open(unfinished));
}

#[test]
fn range_opened_by_its_root(rt: HostRuntime) {
    opened_by_root::<mmr::Family>(&rt, rt.alloc());
}

#[test]
fn belt_opened_by_its_root(rt: HostRuntime) {
    opened_by_root::<mmb::Family>(&rt, rt.alloc());
}
