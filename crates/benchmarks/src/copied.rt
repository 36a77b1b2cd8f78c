//! Pages of a snapshot from a server in the same program. The words are what is done with each page (`served`, `kept` or `copied`), the
//! family, how many operations there are, how many a page has at most, and the location of the first one that is asked for. An operation is
//! its number, in eight bytes. All are active, the floor is half their number, chunks have 32 bytes, and digests are those of SHA-256.
//!
//! With `served` each page is made, written and let go; with `kept` its operations and bits are kept as they are; with `copied` it is
//! read and taken by one who trusts the canonical root alone, and who begins with an opening where the first operation is not asked for.
//! The answer is the canonical root, and how many operations came.

ghost use Rattle.std.specs.Prelude.{◌≡◌, map, IfOk};
ghost use Rattle.std.specs.Int.{to_be_bytes, w64};

use crate::columns::{Fault, number};
use crate::extended::bits;
use commonware_storage::bitmap::{Prunable, Readable};
use commonware_storage::codec::Encode;
use commonware_storage::digest::{DigestOf, Sha256};
use commonware_storage::merkle::{Graftable, Location, MAX_LEAVES, mmb, mmr};
use commonware_storage::qmdb::Error;
use commonware_storage::qmdb::current::{Contiguous, LogError, OperationTree, Snapshot};
use commonware_storage::qmdb::sync::{
    Limits, Opening, Page, Refusal, Request, Server, Sync, Unanswered,
};
use std::alloc::{AllocError, Global};
use std::ops::Range;

/// The size of a chunk, in bytes.
const N: usize = 32;

/// The pages that are asked for: of the operations from `begin` to before `past`, with at most `max_ops` of them.
#[derive(Clone, Copy)]
struct Pages {
    begin: u64,
    past: u64,
    max_ops: u64,
}

/// The operations before `past`.
#[derive(Drop)]
struct Log {
    past: u64,
}

impl Contiguous for Log {
    type Item = Vec<u8>;

    ghost text = { λ item. item.items };

    ghost item = { λ s l. to_be_bytes w64 l };

    ghost first = { λ s. 0 };

    ghost past = { λ s. s.past };

    ghost failed = { λ s. 0 };

    ghost may_fail = { λ s _ code. ⊥ };

    fn failures(&self) -> u64 {
        0
    }

    fn bounds(&self) -> Range<u64> {
        0..self.past
    }

    fn read_many(&mut self, alloc: Global, locations: &[u64]) -> Result<Vec<Vec<u8>>, LogError> {
        match operations_at(alloc, locations) {
            Ok(operations) => Ok(operations),
            Err(_) => Err(LogError::Memory),
        }
    }
}

/// Returns the operations at `locations`.
fn operations_at(alloc: Global, locations: &[u64]) -> Result<Vec<Vec<u8>>, AllocError>
    ensures { IfOk result (λ v. map (λ o. o.items) v.items ≡ map (to_be_bytes w64) locations.now) }
{
    let mut operations = Vec::new(alloc);
    for location in locations {
        operations.push(Vec::from_slice(alloc, &location.to_be_bytes())?)?;
    }
    Ok(operations)
}

/// Returns the tree over `count` operations.
fn tree<F: Graftable>(alloc: Global, count: u64) -> Result<OperationTree<F, Sha256>, Fault> {
    let mut tree = OperationTree::new(alloc);
    for location in 0..count {
        if tree.add(&location.to_be_bytes()).is_err() {
            return Err(Fault::Memory);
        }
    }
    Ok(tree)
}

/// Returns the server of the snapshot of `count` operations.
fn server<F: Graftable>(alloc: Global, count: u64) -> Result<Server<F, Sha256, N>, Fault> {
    let floor = Location::new(count / 2);
    let (tree, bits) = (tree(alloc, count)?, bits(alloc, count)?);
    match Snapshot::of_tree(alloc, tree, bits, floor) {
        Ok(snapshot) => Ok(Server { snapshot, floor }),
        Err(Error::Memory) => Err(Fault::Memory),
        Err(_) => Err(Fault::Malformed),
    }
}

/// Returns the log of all operations of `server`.
fn log_of<F: Graftable>(server: &Server<F, Sha256, N>) -> Log {
    Log {
        past: server.snapshot.status().len(),
    }
}

/// Returns the fault of a request that is not answered.
fn unanswered(why: Unanswered) -> Fault {
    match why {
        Unanswered::Memory => Fault::Memory,
        _ => Fault::Malformed,
    }
}

/// Returns the page that `server` answers to `request`.
fn page<F: Graftable>(
    alloc: Global,
    server: &Server<F, Sha256, N>,
    request: Request<F>,
) -> Result<Page<F, DigestOf<Sha256>>, Fault> {
    let mut log = log_of(server);
    match server.answer(alloc, &mut log, request) {
        Ok(page) => Ok(page),
        Err(why) => Err(unanswered(why)),
    }
}

/// Returns the opening that `server` answers of a copy that begins at `begin`.
fn opening<F: Graftable>(
    alloc: Global,
    server: &Server<F, Sha256, N>,
    begin: u64,
) -> Result<Opening<F, DigestOf<Sha256>>, Fault> {
    let mut log = log_of(server);
    match server.opening(alloc, &mut log, Location::new(begin)) {
        Ok(opening) => Ok(opening),
        Err(why) => Err(unanswered(why)),
    }
}

/// What is kept of pages as it is.
#[derive(Drop)]
struct Kept {
    operations: Vec<Vec<u8>>,
    status: Prunable<N>,
}

/// Appends `count` bits to `status`, which are all set.
fn append_bits(alloc: Global, status: &mut Prunable<N>, count: usize) -> Result<(), Fault> {
    let bits = vec![in alloc; true; count]?;
    if status.len().saturating_add(count as u64) > MAX_LEAVES {
        return Err(Fault::Memory);
    }
    Ok(status.append(&bits)?)
}

/// Adds what `page` has to `kept`.
fn keep<F: Graftable>(
    alloc: Global,
    kept: &mut Kept,
    page: Page<F, DigestOf<Sha256>>,
) -> Result<(), Fault> {
    let mut operations = page.operations;
    append_bits(alloc, &mut kept.status, operations.len())?;
    Ok(kept.operations.append(&mut operations)?)
}

/// Makes each of `pages` of the snapshot of `server`, and keeps what it has if that is said. Returns how many operations came.
fn served<F: Graftable>(
    alloc: Global,
    server: &Server<F, Sha256, N>,
    pages: Pages,
    is_kept: bool,
) -> Result<u64, Fault> {
    let mut kept = Kept {
        operations: Vec::new(alloc),
        status: Prunable::new(alloc),
    };
    let mut next = pages.begin;
    // a page has an operation or more
    for _ in pages.begin..pages.past {
        if next >= pages.past {
            break;
        }
        let request = Request {
            start_loc: Location::new(next),
            max_ops: pages.max_ops,
        };
        let page = page(alloc, server, request)?;
        let written = page.encode(alloc)?;
        drop(written);
        next = next.saturating_add(page.operations.len() as u64);
        if is_kept {
            keep(alloc, &mut kept, page)?;
        }
    }
    Ok(next.saturating_sub(pages.begin))
}

/// Returns the copy of what the snapshots with the canonical root `root` have from where `opening` begins on.
fn begin_at<F: Graftable>(
    alloc: Global,
    root: DigestOf<Sha256>,
    limits: Limits,
    opening: &Opening<F, DigestOf<Sha256>>,
) -> Result<Sync<F, Sha256, N>, Fault> {
    Sync::from_opening(alloc, root, limits, opening)?.ok_or(Fault::Malformed)
}

/// Begins a copy of the snapshot of `server`, by `pages`.
fn begin<F: Graftable>(
    alloc: Global,
    server: &Server<F, Sha256, N>,
    pages: Pages,
) -> Result<Sync<F, Sha256, N>, Fault> {
    let limits = Limits {
        max_ops: pages.max_ops,
        max_operation_len: 8,
        max_digests: 192,
    };
    let root = server.snapshot.root();
    if pages.begin == 0 {
        return Sync::new(alloc, root, limits).ok_or(Fault::Malformed);
    }
    let opening = opening(alloc, server, pages.begin)?;
    begin_at(alloc, root, limits, &opening)
}

/// Returns what `sync` wants next; nothing if it has all.
fn next<F: Graftable>(sync: &Sync<F, Sha256, N>) -> Option<Request<F>> {
    sync.next()
}

/// Takes `page`.
fn take<F: Graftable>(
    alloc: Global,
    sync: &mut Sync<F, Sha256, N>,
    page: &[u8],
) -> Result<(), Fault> {
    match sync.take(alloc, page) {
        Ok(()) => Ok(()),
        Err(Refusal::Memory) => Err(Fault::Memory),
        Err(_) => Err(Fault::Malformed),
    }
}

/// Returns how many operations the copy has.
fn finish<F: Graftable>(sync: Sync<F, Sha256, N>) -> Result<u64, Fault> {
    match sync.done() {
        Ok(copy) => Ok(copy.operations.len() as u64),
        Err(_) => Err(Fault::Malformed),
    }
}

/// Copies the snapshot of `server` by `pages`. Returns how many operations the copy has.
fn copied<F: Graftable>(
    alloc: Global,
    server: &Server<F, Sha256, N>,
    pages: Pages,
) -> Result<u64, Fault> {
    let mut sync = begin(alloc, server, pages)?;
    // a page has an operation or more
    for _ in pages.begin..pages.past {
        let Some(request) = next(&sync) else {
            break;
        };
        let page = page(alloc, server, request)?.encode(alloc)?;
        take(alloc, &mut sync, &page)?;
    }
    finish(sync)
}

/// Returns how many operations come from `server` by `pages`.
fn came<F: Graftable>(
    alloc: Global,
    server: &Server<F, Sha256, N>,
    work: &str,
    pages: Pages,
) -> Result<u64, Fault> {
    match work {
        "served" => served(alloc, server, pages, false),
        "kept" => served(alloc, server, pages, true),
        "copied" => copied(alloc, server, pages),
        _ => Err(Fault::Malformed),
    }
}

/// Returns the line to print for `pages` of a snapshot of the family `F`.
fn report<F: Graftable>(alloc: Global, work: &str, pages: Pages) -> Result<String, Fault> {
    let server = server::<F>(alloc, pages.past)?;
    let root = hex::encode(alloc, server.snapshot.root().bytes)?;
    let came = came(alloc, &server, work, pages)?;
    drop(server);
    Ok(format!(in alloc; "{root} {came}")?)
}

/// Returns the line to print for `words`: the family, how many operations there are, how many a page has at most, and where they begin.
pub fn reply(alloc: Global, work: &str, words: &[&str]) -> Result<String, Fault> {
    let [family, past, max_ops, begin] = words else {
        return Err(Fault::Malformed);
    };
    let pages = Pages {
        begin: number(*begin)?,
        past: number(*past)?,
        max_ops: number(*max_ops)?,
    };
    match *family {
        "mmr" => report::<mmr::Family>(alloc, work, pages),
        "mmb" => report::<mmb::Family>(alloc, work, pages),
        _ => Err(Fault::Malformed),
    }
}
