//! Work over what is agreed of a snapshot: a family, a digest function and a size of a chunk. Each combination is code of its own.

ghost use Rattle.storage_bitmap.specs.Chunks.{IsChunkSize};

use crate::agreed::{Family, Function};
use crate::answer::{Answer, MOST_CHUNK, read, told};
use crate::fault::Fault;
use crate::mistake::Mistake;
use crate::request::{Format, Snapshot};
use crate::sync::ask::{
    all_of, begun, copy_of_nothing, file_of, finished, found, nothing, peers_of,
};
use crate::sync::asked::{Ask, Part};
use crate::sync::log::Log;
use crate::sync::serve::{serve, server_of};
use std::alloc::Global;
use std::io::{Read, Write};
use std::rt::Files;
use storage_codec::digest::{Sha256, Sha512};
use storage_merkle::merkle::{mmb, mmr};

/// The greatest number of bytes of a chunk of what is copied; the other is 1.
const MOST_COPIED: usize = 32;

/// Returns the canonical root of `snapshot`, and the proof of the operation at the location `at`, where one is named.
pub(crate) fn shown_over<'a, R: Files, I: Read + Drop>(
    alloc: Global,
    files: &R,
    snapshot: &Snapshot<'a>,
    at: Option<u64>,
    format: Format,
    input: I,
) -> Result<Answer, Fault<'a>> {
    match snapshot.agreed.chunk {
        1 => shown_in::<R, I, 1>(alloc, files, snapshot, at, format, input),
        2 => shown_in::<R, I, 2>(alloc, files, snapshot, at, format, input),
        4 => shown_in::<R, I, 4>(alloc, files, snapshot, at, format, input),
        8 => shown_in::<R, I, 8>(alloc, files, snapshot, at, format, input),
        16 => shown_in::<R, I, 16>(alloc, files, snapshot, at, format, input),
        32 => shown_in::<R, I, 32>(alloc, files, snapshot, at, format, input),
        64 => shown_in::<R, I, 64>(alloc, files, snapshot, at, format, input),
        128 => shown_in::<R, I, 128>(alloc, files, snapshot, at, format, input),
        256 => shown_in::<R, I, 256>(alloc, files, snapshot, at, format, input),
        512 => shown_in::<R, I, 512>(alloc, files, snapshot, at, format, input),
        1024 => shown_in::<R, I, 1024>(alloc, files, snapshot, at, format, input),
        2048 => shown_in::<R, I, 2048>(alloc, files, snapshot, at, format, input),
        4096 => shown_in::<R, I, 4096>(alloc, files, snapshot, at, format, input),
        chunk => Err(Fault::Question(Mistake::Size {
            chunk: chunk as u64,
            most: MOST_CHUNK,
        })),
    }
}

/// Returns the same over chunks of `N` bytes.
fn shown_in<'a, R: Files, I: Read + Drop, const N: usize>(
    alloc: Global,
    files: &R,
    snapshot: &Snapshot<'a>,
    at: Option<u64>,
    format: Format,
    input: I,
) -> Result<Answer, Fault<'a>>
    requires { IsChunkSize N }
{
    match (snapshot.agreed.family, snapshot.agreed.function) {
        (Family::Mmr, Function::Sha256) => {
            let shown = read::<mmr::Family, Sha256, R, I, N>(alloc, files, snapshot, at, input);
            told(alloc, format, shown)
        }
        (Family::Mmr, Function::Sha512) => {
            let shown = read::<mmr::Family, Sha512, R, I, N>(alloc, files, snapshot, at, input);
            told(alloc, format, shown)
        }
        (Family::Mmb, Function::Sha256) => {
            let shown = read::<mmb::Family, Sha256, R, I, N>(alloc, files, snapshot, at, input);
            told(alloc, format, shown)
        }
        (Family::Mmb, Function::Sha512) => {
            let shown = read::<mmb::Family, Sha512, R, I, N>(alloc, files, snapshot, at, input);
            told(alloc, format, shown)
        }
    }
}

/// Plays `part` of a copy over standard input and output.
pub(crate) fn copied_over<'a, R: Files, I: Read, O: Write>(
    alloc: Global,
    files: &R,
    part: &Part<'a>,
    input: &mut I,
    output: &mut O,
) -> Result<Answer, Fault<'a>> {
    match part.agreed().chunk {
        1 => copied_in::<R, I, O, 1>(alloc, files, part, input, output),
        MOST_COPIED => copied_in::<R, I, O, 32>(alloc, files, part, input, output),
        chunk => Err(Fault::Question(Mistake::Size {
            chunk: chunk as u64,
            most: MOST_COPIED,
        })),
    }
}

/// Plays the same over chunks of `N` bytes.
fn copied_in<'a, R: Files, I: Read, O: Write, const N: usize>(
    alloc: Global,
    files: &R,
    part: &Part<'a>,
    input: &mut I,
    output: &mut O,
) -> Result<Answer, Fault<'a>>
    requires { IsChunkSize N }
{
    match part {
        Part::Serve(snapshot) => served::<R, I, O, N>(alloc, files, snapshot, input, output),
        Part::Ask(ask) => asked::<R, I, O, N>(alloc, files, ask, input, output),
    }
}

/// Serves pages of `snapshot`, for the requests on `input`.
fn served<'a, R: Files, I: Read, O: Write, const N: usize>(
    alloc: Global,
    files: &R,
    snapshot: &Snapshot<'a>,
    input: &mut I,
    output: &mut O,
) -> Result<Answer, Fault<'a>>
    requires { IsChunkSize N }
{
    let mut log = Log::new(alloc);
    match (snapshot.agreed.family, snapshot.agreed.function) {
        (Family::Mmr, Function::Sha256) => {
            let server = server_of::<mmr::Family, Sha256, R, N>(alloc, files, snapshot, &mut log);
            serve(alloc, server, &mut log, input, output)
        }
        (Family::Mmr, Function::Sha512) => {
            let server = server_of::<mmr::Family, Sha512, R, N>(alloc, files, snapshot, &mut log);
            serve(alloc, server, &mut log, input, output)
        }
        (Family::Mmb, Function::Sha256) => {
            let server = server_of::<mmb::Family, Sha256, R, N>(alloc, files, snapshot, &mut log);
            serve(alloc, server, &mut log, input, output)
        }
        (Family::Mmb, Function::Sha512) => {
            let server = server_of::<mmb::Family, Sha512, R, N>(alloc, files, snapshot, &mut log);
            serve(alloc, server, &mut log, input, output)
        }
    }
}

/// Copies what `ask` asks for, and returns the lines about the copy, where standard output has nothing else.
fn asked<'a, R: Files, I: Read, O: Write, const N: usize>(
    alloc: Global,
    files: &R,
    ask: &Ask<'a>,
    input: &mut I,
    output: &mut O,
) -> Result<Answer, Fault<'a>>
    requires { IsChunkSize N }
{
    let mut peers = peers_of(alloc, files, ask)?;
    let file = file_of(files, ask)?;
    macro_rules! copied_by {
        ($family:ty, $hasher:ty) => {{
            let copy = match nothing::<$family, _, $hasher, N>(alloc, ask)? {
                Some(snapshot) => copy_of_nothing(alloc, snapshot),
                None => {
                    let sync = begun::<$family, _, $hasher, N>(alloc, ask)?;
                    all_of(alloc, sync, &ask.limits, &mut peers, input, output)?
                }
            };
            let found = found::<$family, _, $hasher, N>(alloc, ask, &copy);
            finished(alloc, ask, &peers, &copy, found, file, output)
        }};
    }
    match (ask.agreed.family, ask.agreed.function) {
        (Family::Mmr, Function::Sha256) => copied_by!(mmr::Family, Sha256),
        (Family::Mmr, Function::Sha512) => copied_by!(mmr::Family, Sha512),
        (Family::Mmb, Function::Sha256) => copied_by!(mmb::Family, Sha256),
        (Family::Mmb, Function::Sha512) => copied_by!(mmb::Family, Sha512),
    }
}
