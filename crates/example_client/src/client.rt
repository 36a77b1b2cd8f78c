//! The checks of what a server answers.

use anyhow::{Context, Result};
use commonware_storage::codec::{FixedBytes, RangeCfg};
use commonware_storage::digest::Sha256;
use commonware_storage::light::{check_absence, check_value};
use commonware_storage::merkle::mmb::Family;
use commonware_storage::qmdb::any::VariableEncoding;
use std::alloc::Global;

type Root = FixedBytes<32>;

/// The bytes of a chunk of activity bits. It must be the server's, as the family, the digest function and the encoding.
const CHUNK: usize = 32;

/// How values are encoded: with any length.
type Value = VariableEncoding<Vec<u8>>;

/// What readers of keys and values are told: the lengths that they admit, in bytes.
const CFG: (RangeCfg, ()) = (RangeCfg { min: 0, max: 1024 }, ());

/// Returns whether `proof` shows that the key of `claim`, `KEY VALUE`, has this value in the database with the root
/// `root`.
pub(crate) fn has_value(alloc: Global, claim: &str, proof: &[u8], root: &Root) -> Result<bool> {
    let (key, value) = claim.split_once(' ').context("no value")?;
    let key = key.as_bytes().to_vec(alloc)?;
    let value = value.as_bytes().to_vec(alloc)?;
    Ok(check_value::<Family, Sha256, _, Value>(alloc, proof, CHUNK, &CFG, key, value, root)?)
}

/// Returns whether `proof` shows that `key` has no value in the database with the root `root`.
pub(crate) fn is_absent(alloc: Global, key: &str, proof: &[u8], root: &Root) -> Result<bool> {
    let key = key.as_bytes().to_vec(alloc)?;
    // an absence is shown by an update, with its key and value, or by a commit, with its value
    let cfgs = ((CFG, CFG), CFG);
    Ok(check_absence::<Family, Sha256, _, Value>(alloc, proof, CHUNK, &cfgs, &key, root)?)
}
