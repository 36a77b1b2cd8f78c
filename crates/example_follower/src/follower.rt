//! The snapshot of a log as far as it was read, and the proofs from it.

use crate::line::Line;
use anyhow::{Result, bail};
use commonware_storage::bitmap::{Prunable, Readable};
use commonware_storage::codec::Encode;
use commonware_storage::digest::Sha256;
use commonware_storage::merkle::mmb::Family;
use commonware_storage::merkle::{ElementPlan, Location, RangePlan};
use commonware_storage::qmdb::current::Snapshot;
use commonware_storage::qmdb::current::proof::RangeProof;
use commonware_storage::qmdb::current::proof::constant::OperationProof;
use std::alloc::Global;

/// The bytes of a chunk of activity bits.
const CHUNK: usize = 32;

/// How many operations have their bits in one chunk.
const WIDTH: u64 = 256;

/// What the log says of a batch before it ends.
#[derive(Drop)]
struct Batch {
    operations: Vec<Vec<u8>>,
    bits: Vec<bool>,
    cleared: Vec<Location<Family>>,
}

impl Batch {
    /// Returns a batch of which nothing was read.
    fn new(alloc: Global) -> Batch {
        Batch {
            operations: Vec::new(alloc),
            bits: Vec::new(alloc),
            cleared: Vec::new(alloc),
        }
    }
}

/// Follows a log: the snapshot at the end of its last whole batch, and the batch that is being read. It keeps no operation of
/// earlier batches.
#[derive(Drop)]
pub(crate) struct Follower {
    alloc: Global,
    snapshot: Snapshot<Family, Sha256, CHUNK>,
    floor: Location<Family>,
    batch: Batch,
}

impl Follower {
    /// Starts at the beginning of a log.
    pub(crate) fn new(alloc: Global) -> Result<Follower> {
        let none: &[Vec<u8>] = &[];
        let floor = Location::new(0);
        let Ok(snapshot) = Snapshot::new(alloc, none, Prunable::new(alloc), floor) else {
            bail!("out of memory");
        };
        Ok(Follower {
            alloc,
            snapshot,
            floor,
            batch: Batch::new(alloc),
        })
    }

    /// Takes up a line. The answer is a line at the end of a batch and for a question, and none for the others.
    pub(crate) fn answer(&mut self, line: Line<'_>) -> Result<Option<String>> {
        match line {
            Line::Operation { operation, active } => {
                let operation = hex::decode(self.alloc, operation)?;
                self.batch.operations.push(operation)?;
                self.batch.bits.push(active)?;
                Ok(None)
            }
            Line::Clear { location } => {
                self.batch.cleared.push(Location::new(location))?;
                Ok(None)
            }
            Line::End { floor } => {
                self.extend(Location::new(floor))?;
                Ok(Some(self.root()?))
            }
            Line::Prove { location } => Ok(Some(self.operation(location)?)),
            Line::ProveRange { start, end } => Ok(Some(self.range(start, end)?)),
        }
    }

    /// Extends the snapshot by the batch, and begins the next one.
    fn extend(&mut self, floor: Location<Family>) -> Result<()> {
        let Batch {
            operations,
            bits,
            cleared,
        } = &self.batch;
        let done = self
            .snapshot
            .extend(self.alloc, operations, bits, cleared, floor);
        if let Err(error) = done {
            bail!("{error}");
        }
        self.floor = floor;
        self.batch = Batch::new(self.alloc);
        Ok(())
    }

    /// Writes `root ROOT`, the root that a client trusts.
    fn root(&self) -> Result<String> {
        let root = hex::encode(self.alloc, self.snapshot.root().bytes)?;
        Ok(format!(in self.alloc; "root {root}")?)
    }

    /// Returns how many operations the snapshot has.
    fn leaves(&self) -> Location<Family> {
        Location::new(self.snapshot.status().len())
    }

    /// Writes `operation LOCATION PROOF`.
    fn operation(&self, location: u64) -> Result<String> {
        let plan = match ElementPlan::new(self.alloc, self.leaves(), Location::new(location)) {
            Ok(plan) => plan,
            Err(error) => bail!("{error}"),
        };
        let proof = OperationProof::build::<Sha256, Prunable<CHUNK>, _>(
            self.alloc,
            self.snapshot.status(),
            plan,
            |position| self.snapshot.get_node(position),
            self.floor,
            self.snapshot.ops_root(),
        );
        let Ok(proof) = proof else {
            bail!("out of memory");
        };
        let proof = hex::encode(self.alloc, proof.encode(self.alloc)?)?;
        Ok(format!(in self.alloc; "operation {location} {proof}")?)
    }

    /// Writes `range START END CHUNKS PROOF`: CHUNKS are the chunks that have a bit of one of these operations, joined.
    fn range(&self, start: u64, end: u64) -> Result<String> {
        let range = Location::new(start)..Location::new(end);
        let plan = match RangePlan::new(self.alloc, self.leaves(), range) {
            Ok(plan) => plan,
            Err(error) => bail!("{error}"),
        };
        let proof = RangeProof::build::<Sha256, Prunable<CHUNK>, _, CHUNK>(
            self.alloc,
            self.snapshot.status(),
            plan,
            |position| self.snapshot.get_node(position),
            self.floor,
            self.snapshot.ops_root(),
        );
        let Ok(proof) = proof else {
            bail!("out of memory");
        };
        let proof = hex::encode(self.alloc, proof.encode(self.alloc)?)?;
        let chunks = hex::encode(self.alloc, self.chunks(start, end)?)?;
        Ok(format!(in self.alloc; "range {start} {end} {chunks} {proof}")?)
    }

    /// Returns the chunks that have the bit of an operation from `start` to before `end`, joined.
    fn chunks(&self, start: u64, end: u64) -> Result<Vec<u8>> {
        let status = self.snapshot.status();
        let mut chunks = Vec::new(self.alloc);
        for index in start / WIDTH..end.div_ceil(WIDTH) {
            let first = index.saturating_mul(WIDTH);
            if first >= status.len() || index < status.pruned_chunks() as u64 {
                bail!("no such operations");
            }
            chunks.extend_from_slice(&status.get_chunk(index as usize))?;
        }
        Ok(chunks)
    }
}
