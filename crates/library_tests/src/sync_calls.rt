//! The calls of a copy. Each stands in a function of its own, without a contract, so that a test which makes many of them has none of
//! their clauses to carry. A call that is refused ends the test.

ghost use Rattle.storage_bitmap.specs.Chunks.{IsChunkSize};

use crate::stops::{some, there};
use std::alloc::Global;
use std::process::Abort;
use storage_codec::digest::{DigestOf, Sha256};
use storage_merkle::merkle::Graftable;
use storage_sync::sync::{Limits, Refusal, Replica, Request, Sync};

/// Begins a copy of the snapshot whose canonical root is `root`, within limits that admit a chunk.
pub fn begin<F: Graftable, const N: usize>(
    rt: &impl Abort,
    alloc: Global,
    root: DigestOf<Sha256>,
    limits: Limits,
) -> Sync<F, Sha256, N>
    requires { IsChunkSize N }
{
    there(
        rt,
        Sync::new(alloc, root, limits),
        "the limits admit a chunk",
    )
}

/// Returns what `sync` wants next; nothing if it has all.
pub fn wanted<F: Graftable, const N: usize>(sync: &Sync<F, Sha256, N>) -> Option<Request<F>> {
    sync.next()
}

/// Takes `page`, or refuses it.
pub fn take_or_refuse<F: Graftable, const N: usize>(
    alloc: Global,
    sync: &mut Sync<F, Sha256, N>,
    page: &[u8],
) -> Result<(), Refusal> {
    sync.take(alloc, page)
}

/// Takes `page`, which is the one that is wanted.
pub fn take<F: Graftable, const N: usize>(
    rt: &impl Abort,
    alloc: Global,
    sync: &mut Sync<F, Sha256, N>,
    page: &[u8],
) {
    some(rt, take_or_refuse(alloc, sync, page))
}

/// Returns the copy, of which nothing is wanted any more.
pub fn finish<F: Graftable, const N: usize>(
    rt: &impl Abort,
    sync: Sync<F, Sha256, N>,
) -> Replica<DigestOf<Sha256>, N> {
    match sync.done() {
        Ok(copy) => copy,
        Err(_) => panic!(rt; "not done"),
    }
}
