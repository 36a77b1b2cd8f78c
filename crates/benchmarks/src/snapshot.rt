//! A snapshot of many operations under SHA-512, and a proof from it. The words are what is made (`root` or `prove`), the
//! number of operations, and how many bytes each has, at least 8; 18 where that is not said. Their tree is an MMR, chunks have
//! 32 bytes, two in three are active, and the floor is half their number.
//!
//! The answer is the canonical root, and with `prove` the bytes of the proof of the last operation.

use crate::columns::{Fault, number};
use commonware_storage::bitmap::{Prunable, Readable};
use commonware_storage::codec::Encode;
use commonware_storage::digest::Sha512;
use commonware_storage::merkle::mmr::Family;
use commonware_storage::merkle::{ElementPlan, Location, MAX_LEAVES};
use commonware_storage::qmdb::current::proof::constant::OperationProof;
use commonware_storage::qmdb::current::{OperationTree, Snapshot};
use std::alloc::Global;

/// The bytes of an operation where their number is not said.
const LENGTH: usize = 18;

/// Returns the tree over `count` operations of `length` bytes: the number of each, and a byte that fills it up.
fn tree(alloc: Global, count: u64, length: usize) -> Result<OperationTree<Family, Sha512>, Fault> {
    let mut operation = vec![in alloc; 0xd2u8; length]?;
    let mut tree = OperationTree::new(alloc);
    for index in 0..count {
        let Some(number) = operation.first_chunk_mut::<8>() else {
            return Err(Fault::Malformed);
        };
        *number = index.to_be_bytes();
        if tree.add(&operation).is_err() {
            return Err(Fault::Memory);
        }
    }
    Ok(tree)
}

/// `count` bits, of which two in three are set.
fn bits(alloc: Global, count: u64) -> Result<Prunable<32>, Fault> {
    let mut bits = Prunable::new(alloc);
    for index in 0..count {
        if bits.len() >= MAX_LEAVES || bits.push(index % 3 < 2).is_err() {
            return Err(Fault::Memory);
        }
    }
    Ok(bits)
}

/// Returns the plan of a proof of the operation at `location` of `leaves`.
fn plan(alloc: Global, leaves: u64, location: u64) -> Result<ElementPlan<Family>, Fault> {
    match ElementPlan::new(alloc, Location::new(leaves), Location::new(location)) {
        Ok(plan) => Ok(plan),
        Err(_) => Err(Fault::Malformed),
    }
}

/// Returns the snapshot's proof of the operation at `location`, in hexadecimal.
fn proof(
    alloc: Global,
    snapshot: &Snapshot<Family, Sha512, 32>,
    floor: u64,
    location: u64,
) -> Result<String, Fault> {
    let plan = plan(alloc, snapshot.status().len(), location)?;
    let proof = OperationProof::build::<Sha512, Prunable<32>, _>(
        alloc,
        snapshot.status(),
        plan,
        |position| snapshot.get_node(position),
        Location::new(floor),
        snapshot.ops_root(),
    );
    match proof {
        Ok(proof) => Ok(hex::encode(alloc, proof.encode(alloc)?)?),
        Err(_) => Err(Fault::Malformed),
    }
}

/// Returns the lines to print of `snapshot`, whose floor is `floor`: its root, and with `prove` its proof of the
/// operation at `location`.
fn told(
    alloc: Global,
    work: &str,
    snapshot: &Snapshot<Family, Sha512, 32>,
    floor: u64,
    location: u64,
) -> Result<String, Fault> {
    let root = hex::encode(alloc, snapshot.root().bytes)?;
    if work == "root" {
        return Ok(root);
    }
    let proof = proof(alloc, snapshot, floor, location)?;
    Ok(format!(in alloc; "{root}\n{proof}")?)
}

/// Returns the lines to print for `count` operations of `length` bytes.
fn report(alloc: Global, work: &str, count: u64, length: usize) -> Result<String, Fault> {
    let floor = count / 2;
    let bits = bits(alloc, count)?;
    let tree = tree(alloc, count, length)?;
    match Snapshot::of_tree(alloc, tree, bits, Location::new(floor)) {
        Ok(snapshot) => told(alloc, work, &snapshot, floor, count.saturating_sub(1)),
        Err(_) => Err(Fault::Memory),
    }
}

/// Returns the lines to print for `words`: what is made, of how many operations, and how many bytes each has if not
/// `LENGTH`.
pub fn reply(alloc: Global, words: &[&str]) -> Result<String, Fault> {
    match words {
        [work, count] => report(alloc, *work, number(*count)?, LENGTH),
        [work, count, length] => {
            let (count, length) = (number(*count)?, number(*length)?);
            report(alloc, *work, count, length as usize)
        }
        _ => Err(Fault::Malformed),
    }
}
