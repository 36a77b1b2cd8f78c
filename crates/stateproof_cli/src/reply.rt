//! What the program answers.

ghost use Rattle.std.specs.Prelude.{◌≤◌};
ghost use Rattle.storage_bitmap.specs.Chunks.{IsChunkSize};

use crate::database::answers;
use crate::lines::Operations;
use crate::script::steps;
use crate::{Action, Chunk, Command, Fault, Tree};
use commonware_storage::light::{TextError, check_text};
use std::alloc::Global;
use std::io::{self, Read};
use storage_bitmap::bitmap::Prunable;
use storage_codec::codec::{Encode, FixedBytes};
use storage_codec::digest::Sha256;
use storage_current::qmdb::current::Snapshot;
use storage_current::qmdb::current::proof::constant::OperationProof;
use storage_merkle::merkle::{ElementPlan, Graftable, Location, mmb, mmr};

/// What the program writes, and its exit status.
#[derive(Drop)]
pub(crate) struct Reply {
    /// What is written on standard output.
    pub text: String,
    /// The exit status: 0, or 1 for a no.
    pub status: u8,
    ghost answers: { status ≤ 1 },
}

impl Reply {
    /// Returns the reply to the arguments `words` and the input. The input is read where the words are good.
    pub(crate) fn of<R: Read + Drop>(
        alloc: Global,
        words: &[String],
        input: R,
    ) -> Result<Reply, Fault> {
        let Some(command) = Command::parse(words) else {
            return Err(Fault::Usage);
        };
        match command.tree {
            Tree::Mmr => over_tree::<mmr::Family, R>(alloc, &command, input),
            Tree::Mmb => over_tree::<mmb::Family, R>(alloc, &command, input),
        }
    }
}

/// Returns all of `input` as text.
fn text_of<R: Read + Drop>(alloc: Global, input: R) -> Result<String, Fault> {
    io::read_to_string(alloc, input).map_err(|error| Fault::of_input(&error))
}

/// Returns the reply to `command`, which names the chunk size, over trees of the family `F`.
fn over_tree<F: Graftable, R: Read + Drop>(
    alloc: Global,
    command: &Command,
    input: R,
) -> Result<Reply, Fault> {
    match command.chunk {
        Chunk::One => over_chunk::<F, R, 1>(alloc, &command.action, input),
        Chunk::ThirtyTwo => over_chunk::<F, R, 32>(alloc, &command.action, input),
    }
}

/// Returns the reply to `action`, over trees of the family `F` and chunks of `N` bytes.
fn over_chunk<F: Graftable, R: Read + Drop, const N: usize>(
    alloc: Global,
    action: &Action,
    input: R,
) -> Result<Reply, Fault>
    requires { IsChunkSize N }
{
    match action {
        Action::Root { floor } => root::<F, R, N>(alloc, input, *floor),
        Action::Prove { floor, location } => prove::<F, R, N>(alloc, input, *floor, *location),
        Action::Check { root, location } => {
            let text = text_of(alloc, input)?;
            check::<F>(alloc, text.as_str(), N, root, *location)
        }
        Action::Database => database::<F, R, N>(alloc, input),
    }
}

/// Returns the canonical root of the operations on the lines of `input`, with the floor `floor`.
fn root<F: Graftable, R: Read + Drop, const N: usize>(
    alloc: Global,
    input: R,
    floor: u64,
) -> Result<Reply, Fault>
    requires { IsChunkSize N }
{
    let operations = Operations::<N>::read(alloc, input)?;
    let snapshot = operations.snapshot::<F>(alloc, floor)?;
    let root = hex::encode(alloc, snapshot.root().bytes)?;
    Ok(Reply {
        text: format!(in alloc; "{root}\n")?,
        status: 0,
    })
}

/// Returns the canonical root of the operations on the lines of `input`, with the floor `floor`, and the proof of the
/// one at `location`.
fn prove<F: Graftable, R: Read + Drop, const N: usize>(
    alloc: Global,
    input: R,
    floor: u64,
    location: u64,
) -> Result<Reply, Fault>
    requires { IsChunkSize N }
{
    let operations = Operations::<N>::read(alloc, input)?;
    let plan = operations.plan::<F>(alloc, location)?;
    let snapshot = operations.snapshot::<F>(alloc, floor)?;
    root_and_proof(alloc, &snapshot, plan, floor)
}

/// Returns the canonical root of `snapshot`, which has the floor `floor`, and the proof of the operation that `plan` is
/// for.
fn root_and_proof<F: Graftable, const N: usize>(
    alloc: Global,
    snapshot: &Snapshot<F, Sha256, N>,
    plan: ElementPlan<F>,
    floor: u64,
) -> Result<Reply, Fault>
    requires { IsChunkSize N }
{
    let proof = proof_of(alloc, snapshot, plan, floor)?.encode(alloc)?;
    let proof = hex::encode(alloc, proof)?;
    let root = hex::encode(alloc, snapshot.root().bytes)?;
    Ok(Reply {
        text: format!(in alloc; "{root}\n{proof}\n")?,
        status: 0,
    })
}

/// Returns the proof of the operation that `plan` is for, of `snapshot`, which has the floor `floor`.
fn proof_of<F: Graftable, const N: usize>(
    alloc: Global,
    snapshot: &Snapshot<F, Sha256, N>,
    plan: ElementPlan<F>,
    floor: u64,
) -> Result<OperationProof<F, FixedBytes<32>, N>, Fault> {
    let get_node = |position| snapshot.get_node(position);
    let floor = Location::new(floor);
    let ops_root = snapshot.ops_root();
    let status = snapshot.status();
    match OperationProof::build::<Sha256, Prunable<N>, _>(
        alloc, status, plan, get_node, floor, ops_root,
    ) {
        Ok(proof) => Ok(proof),
        Err(error) => Err(Fault::of_snapshot(&error)),
    }
}

/// Returns whether the proof on the second line of `text` shows the operation on the first one at `location`, under the
/// root `root`.
fn check<F: Graftable>(
    alloc: Global,
    text: &str,
    chunk_size: usize,
    root: &FixedBytes<32>,
    location: u64,
) -> Result<Reply, Fault> {
    let mut lines = text.split_terminator('\n');
    let operation = lines.next().ok_or(Fault::Line(1))?;
    let proof = lines.next();
    let loc = Location::<F>::new(location);
    let text = proof.unwrap_or("");
    let answer = check_text::<F, Sha256>(alloc, text, chunk_size, loc, operation, root);
    let yes = answer.map_err(|error| match error {
        TextError::Operation => Fault::Line(1),
        TextError::Proof => Fault::Line(2),
        TextError::Memory => Fault::Memory,
    })?;
    if proof.is_none() {
        return Err(Fault::Line(2));
    }
    if lines.next().is_some() {
        return Err(Fault::Line(3));
    }
    let (word, status) = if yes { ("yes", 0) } else { ("no", 1) };
    Ok(Reply {
        text: format!(in alloc; "{word}\n")?,
        status,
    })
}

/// Returns what a database answers to the steps on the lines of `input`. All are read before the first one is taken.
fn database<F: Graftable, R: Read + Drop, const N: usize>(
    alloc: Global,
    input: R,
) -> Result<Reply, Fault>
    requires { IsChunkSize N }
{
    let steps = steps(alloc, input)?;
    let text = answers::<F, N>(alloc, &steps)?;
    Ok(Reply { text, status: 0 })
}
