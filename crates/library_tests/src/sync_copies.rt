//! A copy of a snapshot whose pages come from a peer that lies: each lie is refused, and the copy is whole in the end.

use crate::snapshots::{COUNT, ops_root_of, range_proof, root_of, snapshot_of};
use crate::stops::{out_of_memory, some, there};
use crate::sync_calls::{begin, finish, take, take_or_refuse, wanted};
use bytes::Bytes;
use std::alloc::Global;
use std::process::Abort;
use storage_bitmap::bitmap::Readable as _;
use storage_codec::codec::{Decode, Encode, Error};
use storage_codec::digest::{DigestOf, Sha256};
use storage_current::qmdb::current::Snapshot;
use storage_merkle::merkle::{Graftable, Location, mmb, mmr};
use storage_sync::sync::{Limits, Page, Refusal, Replica, Request, Sync};

/// One chunk a page.
const LIMITS: Limits = Limits {
    max_ops: 8,
    max_operation_len: 2,
    max_digests: 16,
};

/// Returns the bytes of the chunk number `index` of `snapshot`.
fn chunk_at<F: Graftable>(
    rt: &impl Abort,
    alloc: Global,
    snapshot: &Snapshot<F, Sha256, 1>,
    index: usize,
) -> Bytes {
    let status = snapshot.status();
    assert!(rt; status.pruned_chunks() == 0 && status.len() == COUNT && index < 4);
    let chunk = status.get_chunk(index);
    some(rt, Bytes::copy_from_slice(alloc, chunk.as_slice()))
}

/// Returns the page of the operations of `snapshot` from `start` on, of at most eight, as it is written.
fn page_of<F: Graftable>(
    rt: &impl Abort,
    alloc: Global,
    snapshot: &Snapshot<F, Sha256, 1>,
    start: u64,
) -> Vec<u8> {
    assert!(rt; start < COUNT && start % 8 == 0);
    let end = (start + 8).min(COUNT);
    let range = Location::new(start)..Location::new(end);
    let mut page = Page {
        proof: range_proof(rt, alloc, snapshot, range),
        operations: Vec::new(alloc),
        chunks: Vec::new(alloc),
    };
    for location in start as u8..end as u8 {
        let operation = some(rt, Vec::from_slice(alloc, &[location]));
        some(rt, page.operations.push(operation));
    }
    let chunk = chunk_at(rt, alloc, snapshot, start as usize / 8);
    some(rt, page.chunks.push(chunk));
    some(rt, page.encode(alloc))
}

/// Asserts that `page` is refused, by `refusal` if one is named.
pub fn assert_refused<F: Graftable, const N: usize>(
    rt: &impl Abort,
    alloc: Global,
    sync: &mut Sync<F, Sha256, N>,
    page: &[u8],
    refusal: Option<Refusal>,
) {
    match take_or_refuse(alloc, sync, page) {
        Ok(()) => panic!(rt; "a lie is taken"),
        Err(Refusal::Memory) => out_of_memory(rt),
        Err(why) => assert!(rt; refusal.is_none() || refusal == Some(why)),
    }
}

/// Asserts that `page` is refused once a byte at a multiple of `apart` is another, cut there, and with a byte more.
pub fn assert_changes_refused<F: Graftable, const N: usize>(
    rt: &impl Abort,
    alloc: Global,
    sync: &mut Sync<F, Sha256, N>,
    page: &mut Vec<u8>,
    apart: usize,
) {
    for index in 0..page.len() {
        assert!(rt; index < page.len() && apart > 0);
        if index % apart == 0 {
            let byte = page[index];
            page[index] = byte ^ 1;
            assert_refused(rt, alloc, sync, page, None);
            page[index] = byte ^ 128;
            assert_refused(rt, alloc, sync, page, None);
            page[index] = byte;
            assert_refused(rt, alloc, sync, &page[..index], Some(Refusal::NotAPage));
        }
    }
    some(rt, page.push(0));
    assert_refused(rt, alloc, sync, page, Some(Refusal::NotAPage));
    let _ = page.pop();
}

/// Takes the page of the chunk number `round`, once the pages of the others, that of another snapshot, and ones that are
/// changed were refused; and then not again.
fn take_after_lies<F: Graftable>(
    rt: &impl Abort,
    alloc: Global,
    sync: &mut Sync<F, Sha256, 1>,
    snapshot: &Snapshot<F, Sha256, 1>,
    other: &Snapshot<F, Sha256, 1>,
    round: u64,
) {
    assert!(rt; round < 4);
    for another in 0..4 {
        if another != round {
            let page = page_of(rt, alloc, snapshot, 8 * another);
            assert_refused(rt, alloc, sync, &page, None);
        }
    }
    let page = page_of(rt, alloc, other, 8 * round);
    assert_refused(rt, alloc, sync, &page, Some(Refusal::NotProved));
    let mut page = page_of(rt, alloc, snapshot, 8 * round);
    assert_changes_refused(rt, alloc, sync, &mut page, 1);
    take(rt, alloc, sync, &page);
    assert_refused(rt, alloc, sync, &page, None);
}

/// Takes each page, which is wanted before, after lies.
fn take_all<F: Graftable>(
    rt: &impl Abort,
    alloc: Global,
    sync: &mut Sync<F, Sha256, 1>,
    snapshot: &Snapshot<F, Sha256, 1>,
    other: &Snapshot<F, Sha256, 1>,
) {
    for round in 0..4 {
        let request = Request {
            start_loc: Location::new(8 * round),
            max_ops: 8,
        };
        assert!(rt; wanted(sync) == Some(request));
        take_after_lies(rt, alloc, sync, snapshot, other, round);
    }
    assert!(rt; wanted(sync).is_none());
}

/// Takes a copy of a snapshot, of which each page comes after lies.
fn copy_from_a_liar<F: Graftable>(rt: &impl Abort, alloc: Global) {
    let snapshot = snapshot_of::<F>(rt, alloc, 3);
    let other = snapshot_of::<F>(rt, alloc, 2);
    let mut sync = begin::<F, 1>(rt, alloc, root_of(&snapshot), LIMITS);
    take_all(rt, alloc, &mut sync, &snapshot, &other);
    assert_whole(rt, sync, &snapshot);
    drop(snapshot);
    drop(other);
}

/// Asserts that `sync` has all operations and bits, and the operations root of `snapshot`.
fn assert_whole<F: Graftable>(
    rt: &impl Abort,
    sync: Sync<F, Sha256, 1>,
    snapshot: &Snapshot<F, Sha256, 1>,
) {
    let copy = finish(rt, sync);
    assert!(rt; copy.operations.len() as u64 == COUNT && copy.status.len() == COUNT);
    assert!(rt; copy.ops_root == ops_root_of(snapshot));
    for location in 0..COUNT as u8 {
        assert_has(rt, &copy, location);
    }
}

/// Asserts that `copy` has the operation and the bit at `location`.
fn assert_has(rt: &impl Abort, copy: &Replica<DigestOf<Sha256>, 1>, location: u8) {
    let operation = there(rt, copy.operations.get(location as usize), "no operation");
    assert!(rt; operation.as_slice() == [location].as_slice());
    assert!(rt; copy.status.pruned_chunks() == 0 && (location as u64) < copy.status.len());
    assert!(rt; copy.status.get_bit(location as u64) == (location % 3 == 0));
}

#[test]
fn range_copied_from_a_liar(rt: HostRuntime) {
    copy_from_a_liar::<mmr::Family>(&rt, rt.alloc());
}

#[test]
fn belt_copied_from_a_liar(rt: HostRuntime) {
    copy_from_a_liar::<mmb::Family>(&rt, rt.alloc());
}

/// Asserts that a copy within limits that admit no byte of an operation refuses `page`, and is not done.
fn refuses_too_much(rt: &impl Abort, alloc: Global, root: DigestOf<Sha256>, page: &[u8]) {
    let short = Limits {
        max_operation_len: 0,
        ..LIMITS
    };
    let mut sync = begin::<mmr::Family, 1>(rt, alloc, root, short);
    assert_refused(rt, alloc, &mut sync, page, Some(Refusal::TooMuch));
    assert!(rt; sync.done().is_err());
}

/// Returns whether limits with so many operations a page admit a copy.
fn admits_a_chunk(alloc: Global, root: DigestOf<Sha256>, max_ops: u64) -> bool {
    let limits = Limits { max_ops, ..LIMITS };
    Sync::<mmr::Family, Sha256, 1>::new(alloc, root, limits).is_some()
}

#[test]
fn page_past_the_limits(rt: HostRuntime) {
    let snapshot = snapshot_of::<mmr::Family>(&rt, rt.alloc(), 3);
    let page = page_of(&rt, rt.alloc(), &snapshot, 0);
    refuses_too_much(&rt, rt.alloc(), root_of(&snapshot), &page);
    assert!(rt; !admits_a_chunk(rt.alloc(), root_of(&snapshot), 7));
    assert!(rt; admits_a_chunk(rt.alloc(), root_of(&snapshot), 8));
}

/// Reads the request that `written` is, of at most `most` operations.
fn read_within(alloc: Global, written: &[u8], most: u64) -> Result<Request<mmr::Family>, Error> {
    Request::decode_cfg(alloc, written, &most)
}

// a varint of one byte each: 5, and 300 as 172, 2
#[test]
fn request_written_and_read(rt: HostRuntime) {
    let request = Request::<mmr::Family> {
        start_loc: Location::new(5),
        max_ops: 300,
    };
    let bytes = some(&rt, request.encode(rt.alloc()));
    assert!(rt; bytes.as_slice() == [5, 172, 2].as_slice());
    assert!(rt; read_within(rt.alloc(), &bytes, 300) == Ok(request));
    let longer = read_within(rt.alloc(), &bytes, 299);
    assert!(rt; longer == Err(Error::InvalidLength(300)));
    let none = read_within(rt.alloc(), &[5, 0], 299);
    assert!(rt; none == Err(Error::InvalidLength(0)));
}
