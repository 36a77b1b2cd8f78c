//! The one who serves: pages of the operations in a file, for the requests on standard input.

ghost use Rattle.storage_bitmap.specs.Chunks.{IsChunkSize};

use crate::answer::Answer;
use crate::fault::Fault;
use crate::lines::read_kept;
use crate::mistake::{Mistake, TWICE};
use crate::request::Snapshot;
use crate::source::Source;
use crate::sync::fault::{Broken, SyncFault, Unserved};
use crate::sync::log::Log;
use crate::sync::message::{receive, send};
use commonware_storage::qmdb::sync::{Request, Server, Unanswered};
use std::alloc::Global;
use std::fs;
use std::io::{ErrorKind, Read, Write};
use std::rt::Files;
use storage_codec::codec::{Decode, Encode};
use storage_codec::digest::Hasher;
use storage_merkle::merkle::{Graftable, Location};

/// How many bytes a request has at most: a location has 9, and a number of operations 10.
const MOST_BYTES: u64 = 19;

/// Reads the operations of `snapshot` into `log`, and returns the server of them.
pub(crate) fn server_of<'a, F: Graftable, H: Hasher, R: Files, const N: usize>(
    alloc: Global,
    files: &R,
    snapshot: &Snapshot<'a>,
    log: &mut Log,
) -> Result<Server<F, H, N>, Fault<'a>>
    requires { IsChunkSize N }
{
    let source = snapshot.operations;
    let Source::File(name) = source else {
        return Err(Fault::Question(Mistake::Other(TWICE)));
    };
    let file = match fs::open(files, name) {
        Ok(file) => file,
        Err(error) => return Err(Fault::unread(source, error)),
    };
    let operations = read_kept::<F, H, R::File, Log>(alloc, source, file, log)?;
    let (floor, count) = (snapshot.floor, operations.count());
    if floor > count {
        return Err(Fault::Question(Mistake::Floor { floor, count }));
    }
    Ok(Server {
        snapshot: operations.snapshot::<N>(alloc, floor)?,
        floor: Location::new(floor),
    })
}

/// Answers the requests of `input` on `output`, until `input` ends, and then nothing more.
pub(crate) fn serve<'a, F: Graftable, H: Hasher, I: Read, O: Write, const N: usize>(
    alloc: Global,
    server: Result<Server<F, H, N>, Fault<'a>>,
    log: &mut Log,
    input: &mut I,
    output: &mut O,
) -> Result<Answer, Fault<'a>> {
    let server = server?;
    let mut message = Vec::new(alloc);
    for number in 1..u64::MAX {
        let page = match receive(input, MOST_BYTES, &mut message) {
            Ok(()) => page_for(alloc, &server, log, &message),
            Err(Broken::Ended) => return Ok(Answer::nothing(alloc)),
            Err(broken) => Err(Unserved::Broken(broken)),
        };
        let page = match page {
            Ok(page) => page,
            Err(why) => return Err(unserved(number, why)),
        };
        if let Err(Broken::Unwritten(error)) = send(output, &page) {
            return Err(Fault::Unwritten(error));
        }
    }
    Err(Fault::Memory)
}

/// Returns the page for the request that `message` is, as it is written.
fn page_for<F: Graftable, H: Hasher, const N: usize>(
    alloc: Global,
    server: &Server<F, H, N>,
    log: &mut Log,
    message: &[u8],
) -> Result<Vec<u8>, Unserved> {
    let Ok(request) = Request::<F>::decode_cfg(alloc, message, &u64::MAX) else {
        return Err(Unserved::NotARequest);
    };
    match server.answer(alloc, log, request) {
        Ok(page) => match page.encode(alloc) {
            Ok(page) => Ok(page),
            Err(_) => Err(Unserved::Unanswered(Unanswered::Memory)),
        },
        Err(why) => Err(Unserved::Unanswered(why)),
    }
}

/// Returns the fault where the request `number` is not answered.
fn unserved(number: u64, why: Unserved) -> Fault<'static> {
    match why {
        Unserved::Unanswered(Unanswered::Memory) => Fault::Memory,
        Unserved::Broken(Broken::Unread(error)) if error.kind() == ErrorKind::OutOfMemory => {
            Fault::Memory
        }
        why => Fault::Sync(SyncFault::Request { number, why }),
    }
}
