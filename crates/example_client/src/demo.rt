//! Checks of an operation, of a value of eight bytes and of a range: all of the snapshot of `./demo`.

use crate::root_of;
use anyhow::{Result, bail};
use commonware_storage::codec::FixedBytes;
use commonware_storage::digest::Sha256;
use commonware_storage::light::{MAX_DIGESTS, check_operation, check_range, check_value};
use commonware_storage::merkle::Location;
use commonware_storage::merkle::mmr::Family;
use commonware_storage::qmdb::any::FixedEncoding;
use std::alloc::Global;

/// The canonical root of eight updates, of which that at location 3 alone is active.
const ROOT: &str = "157b0c513ca1eb207e2085404d92e38a0c6a9b8b2f50a5d115dce7c3dac0fcf1";

/// The bytes of a chunk of activity bits.
const CHUNK: usize = 1;

/// How values are encoded: each in eight bytes.
type Value = FixedEncoding<u64>;

/// The update of the key 6 to the value 3, with the next key, 8: tag, key, value, next key, zeros.
const UPDATE: [u8; 18] = [0xd2, 0, 0, 0, 6, 0, 0, 0, 0, 0, 0, 0, 3, 0, 0, 0, 8, 0];

/// Returns whether `proof` shows what `asked` names: `operation`, `value` or `range`. Running out of memory is an
/// error, and so is another word.
pub(crate) fn answer(alloc: Global, asked: &str, proof: &[u8]) -> Result<bool> {
    let root = &root_of(ROOT)?;
    let (bytes, at) = ([0, 0, 0, 6], Location::new(3));
    let key = FixedBytes { bytes };
    let yes = match asked {
        // does the update stand at location 3, and is it active?
        "operation" => check_operation::<Family, Sha256>(alloc, proof, CHUNK, at, &UPDATE, root)?,
        // does the key 6 have the value 3?
        "value" => check_value::<Family, Sha256, _, Value>(alloc, proof, CHUNK, &(), key, 3, root)?,
        // does the update stand at location 3, and are these the activity bits of its chunk?
        "range" => {
            let (updates, bits): (&[&[u8]], &[&[u8]]) = (&[&UPDATE], &[&[0b1000]]);
            check_range::<Family, Sha256>(
                alloc,
                proof,
                CHUNK,
                MAX_DIGESTS,
                at,
                updates,
                bits,
                root,
            )?
        }
        _ => bail!("no such question"),
    };
    Ok(yes)
}
