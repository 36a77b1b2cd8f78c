//! The one who asks: a copy of the snapshot under a root, from peers that are not trusted.

ghost use Rattle.storage_bitmap.specs.Chunks.{IsChunkSize};

use crate::answer::Answer;
use crate::fault::Fault;
use crate::mistake::{Mistake, NO_OUTPUT, REFUSED};
use crate::source::Source;
use crate::sync::asked::{Ask, Names};
use crate::sync::fault::{Broken, Why};
use crate::sync::peers::{Ends, Peer, Peers};
use crate::sync::rows::{unwritten, write_rows};
use commonware_storage::qmdb::sync::{Limits, Refusal, Replica, Sync, Unfounded};
use std::alloc::{AllocError, Global};
use std::fs;
use std::io::{ErrorKind, Read, Write};
use std::rt::Files;
use storage_bitmap::bitmap::Prunable;
use storage_codec::codec::Encode;
use storage_codec::digest::{Digest, Hasher};
use storage_current::qmdb::current::Snapshot;
use storage_merkle::merkle::{Graftable, Location};

/// Returns the file that the copy goes to, made anew; none where that is standard output.
pub(crate) fn file_of<'a, R: Files>(
    files: &R,
    ask: &Ask<'a>,
) -> Result<Option<R::File>, Fault<'a>> {
    match ask.copy {
        Source::File(name) => Ok(Some(created(files, name)?)),
        Source::Standard if ask.peers.is_empty() => Err(Fault::Question(Mistake::Other(NO_OUTPUT))),
        Source::Standard => Ok(None),
    }
}

/// Returns the file with this name, made anew.
fn created<'a, R: Files>(files: &R, name: &'a str) -> Result<R::File, Fault<'a>> {
    match fs::create(files, name) {
        Ok(file) => Ok(file),
        Err(error) => Err(unwritten(Source::File(name), error)),
    }
}

/// Returns the peers, in their order; standard input and output are those of the one where none is named.
pub(crate) fn peers_of<'a, R: Files>(
    alloc: Global,
    files: &R,
    ask: &Ask<'a>,
) -> Result<Peers<'a, R::File>, Fault<'a>> {
    let mut peers = Peers::new(alloc);
    for names in &ask.peers {
        peers.add(peer_of(files, *names)?)?;
    }
    if ask.peers.is_empty() {
        peers.add(Peer::new("standard input", None))?;
    }
    Ok(peers)
}

/// Returns the peer with these files. The one for requests is opened first, then that for pages.
fn peer_of<'a, R: Files>(files: &R, names: Names<'a>) -> Result<Peer<'a, R::File>, Fault<'a>> {
    let requests = created(files, names.requests)?;
    match fs::open(files, names.pages) {
        Ok(pages) => Ok(Peer::new(names.pages, Some(Ends { requests, pages }))),
        Err(error) => Err(Fault::unread(Source::File(names.pages), error)),
    }
}

/// Returns the root that `ask` trusts.
fn root_of<'a, D: Digest>(alloc: Global, ask: &Ask<'a>) -> Result<D, Fault<'a>> {
    match D::decode(alloc, ask.root.bytes()) {
        Ok(root) => Ok(root),
        Err(_) => Err(Fault::Question(Mistake::Other(REFUSED))),
    }
}

/// Returns the snapshot of no operations, if it is the one that is asked for.
pub(crate) fn nothing<'a, F: Graftable, D: Digest, H: Hasher<Digest = D>, const N: usize>(
    alloc: Global,
    ask: &Ask<'a>,
) -> Result<Option<Snapshot<F, H, N>>, Fault<'a>>
    requires { IsChunkSize N }
{
    let root = root_of::<D>(alloc, ask)?;
    match Sync::<F, H, N>::of_nothing(alloc, &root) {
        Ok(snapshot) => Ok(snapshot),
        Err(_) => Err(Fault::Memory),
    }
}

/// Returns what asks for the snapshot, of which there is nothing yet.
pub(crate) fn begun<'a, F: Graftable, D: Digest, H: Hasher<Digest = D>, const N: usize>(
    alloc: Global,
    ask: &Ask<'a>,
) -> Result<Sync<F, H, N>, Fault<'a>>
    requires { IsChunkSize N }
{
    let root = root_of::<D>(alloc, ask)?;
    match Sync::new(alloc, root, ask.limits) {
        Some(sync) => Ok(sync),
        None => Err(Fault::Question(Mistake::Few {
            most: ask.limits.max_ops,
            chunk: 8 * N as u64,
        })),
    }
}

/// Returns the copy of `snapshot`, which has no operations.
pub(crate) fn copy_of_nothing<F: Graftable, D: Digest, H: Hasher<Digest = D>, const N: usize>(
    alloc: Global,
    snapshot: Snapshot<F, H, N>,
) -> Replica<D, N> {
    Replica {
        operations: Vec::new(alloc),
        status: Prunable::new(alloc),
        ops_root: snapshot.ops_root(),
    }
}

/// Returns the copy that `sync` asks for, once pages of the peers, which are asked in turn, have all of it.
pub(crate) fn all_of<
    'a,
    F: Graftable,
    H: Hasher,
    T: Read + Write + Drop,
    I: Read,
    O: Write,
    const N: usize,
>(
    alloc: Global,
    mut sync: Sync<F, H, N>,
    limits: &Limits,
    peers: &mut Peers<'a, T>,
    input: &mut I,
    output: &mut O,
) -> Result<Replica<H::Digest, N>, Fault<'a>> {
    take_all(alloc, limits, &mut sync, peers, input, output)?;
    match sync.done() {
        Ok(copy) => Ok(copy),
        Err(_) => Err(Fault::Memory),
    }
}

/// Takes pages of the peers until all is there.
fn take_all<'a, F: Graftable, H: Hasher, T: Read + Write + Drop, I: Read, O: Write, const N: usize>(
    alloc: Global,
    limits: &Limits,
    sync: &mut Sync<F, H, N>,
    peers: &mut Peers<'a, T>,
    input: &mut I,
    output: &mut O,
) -> Result<(), Fault<'a>> {
    let most = most_bytes(limits, H::Digest::size(), N);
    let mut page = Vec::new(alloc);
    for _ in 0..u64::MAX {
        let Some(request) = sync.next() else {
            break;
        };
        let Some(mut peer) = peers.next() else {
            return Err(Fault::Memory);
        };
        let request = request.encode(alloc)?;
        let answer = peer.ask(input, output, &request, most, &mut page);
        take_next(alloc, sync, peers, peer, answer, &page)?;
    }
    Ok(())
}

/// Takes `page`, the answer of `peer`. A peer whose page is refused, or did not come, is asked no more.
fn take_next<'a, F: Graftable, H: Hasher, T: Read + Write + Drop, const N: usize>(
    alloc: Global,
    sync: &mut Sync<F, H, N>,
    peers: &mut Peers<'a, T>,
    mut peer: Peer<'a, T>,
    answer: Result<(), Broken>,
    page: &[u8],
) -> Result<(), Fault<'a>> {
    let why = match answer {
        Ok(()) => match taken(alloc, sync, page) {
            Ok(()) => {
                peer.taken = peer.taken.saturating_add(1);
                peers.add(peer)?;
                return Ok(());
            }
            Err(Refusal::Memory) => return Err(Fault::Memory),
            Err(refusal) => Why::Refused(refusal),
        },
        Err(Broken::Unread(error)) if error.kind() == ErrorKind::OutOfMemory => {
            return Err(Fault::Memory);
        }
        Err(broken) => Why::Broken(broken),
    };
    peers.drop_out(peer.dropped(why))
}

/// Takes `page`, or tells why not.
fn taken<F: Graftable, H: Hasher, const N: usize>(
    alloc: Global,
    sync: &mut Sync<F, H, N>,
    page: &[u8],
) -> Result<(), Refusal> {
    match sync.take(alloc, page) {
        Ok(()) => Ok(()),
        Err(refusal) => Err(refusal),
    }
}

/// Returns how many bytes a page within `limits` has at most, where a digest has `digest` bytes and a chunk `chunk`.
fn most_bytes(limits: &Limits, digest: usize, chunk: usize) -> u64 {
    // with each item a number before it, of at most ten bytes, and three digests and five numbers more
    let item = |bytes: usize| (bytes as u64).saturating_add(10);
    let digests = (limits.max_digests as u64)
        .saturating_add(8)
        .saturating_mul(item(digest));
    let operations = limits
        .max_ops
        .saturating_mul(item(limits.max_operation_len));
    let chunks = (limits.max_ops / 8).saturating_add(chunk as u64);
    digests.saturating_add(operations).saturating_add(chunks)
}

/// Returns the snapshot that the copy is with the floor that is told, if one is: it has the root.
pub(crate) fn found<'a, F: Graftable, D: Digest, H: Hasher<Digest = D>, const N: usize>(
    alloc: Global,
    ask: &Ask<'a>,
    copy: &Replica<D, N>,
) -> Result<Option<Snapshot<F, H, N>>, Fault<'a>> {
    let Some(floor) = ask.floor else {
        return Ok(None);
    };
    let root = root_of::<D>(alloc, ask)?;
    match copy.to_snapshot::<F, H>(alloc, Location::new(floor), &root) {
        Ok(snapshot) => Ok(Some(snapshot)),
        Err(unfounded) => Err(fault_of(unfounded, floor, copy.operations.len() as u64)),
    }
}

/// Returns the fault where a copy of `count` operations with the floor `floor` is no snapshot with the root.
fn fault_of(unfounded: Unfounded, floor: u64, count: u64) -> Fault<'static> {
    match unfounded {
        Unfounded::FloorPastTheEnd => Fault::Question(Mistake::Floor { floor, count }),
        Unfounded::OtherRoots => Fault::Question(Mistake::OtherRoot(floor)),
        Unfounded::Malformed => Fault::Question(Mistake::Other(REFUSED)),
        Unfounded::Memory => Fault::Memory,
    }
}

/// Writes `copy` to `file`, or to `output` where there is none, and returns the lines about it where standard output has nothing
/// else. Fails before that where memory ran out, and after it where the copy is not `found` to have the root.
pub(crate) fn finished<
    'a,
    F: Graftable,
    H: Hasher,
    T: Read + Write + Drop,
    O: Write,
    const N: usize,
>(
    alloc: Global,
    ask: &Ask<'a>,
    peers: &Peers<'a, T>,
    copy: &Replica<H::Digest, N>,
    found: Result<Option<Snapshot<F, H, N>>, Fault<'a>>,
    file: Option<T>,
    output: &mut O,
) -> Result<Answer, Fault<'a>> {
    if let Err(Fault::Memory) = found {
        return Err(Fault::Memory);
    }
    let is_told = file.is_some() && !ask.peers.is_empty();
    match file {
        Some(file) => write_rows(alloc, copy, ask.copy, file)?,
        None => write_rows(alloc, copy, ask.copy, output)?,
    }
    found?;
    if !is_told {
        return Ok(Answer::nothing(alloc));
    }
    let text = told(alloc, peers, copy.operations.len(), ask.floor)?;
    Ok(Answer { text, status: 0 })
}

/// Returns the lines about a copy of `count` operations: whose pages were taken, and what its root says of the floor.
fn told<T: Drop>(
    alloc: Global,
    peers: &Peers<'_, T>,
    count: usize,
    floor: Option<u64>,
) -> Result<String, AllocError> {
    let floor = match floor {
        None => format!(in alloc; "not told: the root has it through the inactive peaks alone")?,
        Some(floor) => format!(in alloc; "{floor}: with it the copy has the root")?,
    };
    let peers = peers.told(alloc)?;
    format!(in alloc; "{peers}copied: {count} operations\nfloor: {floor}\n")
}
