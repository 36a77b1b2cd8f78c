//! The list on witnesses of the operations root.

use replay_columns::answers::Answer;
use replay_columns::columns::{Fault, Hex, Label, parse};
use std::alloc::Global;
use storage_codec::codec::{Decode, Encode};
use storage_codec::digest::Hasher;
use storage_current::qmdb::current::proof::OpsRootWitness;
use storage_merkle::merkle::Graftable;

/// `witness ops_root root label`: whether the operations root is that of the snapshot with that root, by a copy of the
/// witness, which is written as it was read; or why that is none. The label says how the case was made.
pub fn witnesses<F: Graftable, H: Hasher>(
    alloc: Global,
    columns: &[&str],
    out: &mut String,
) -> Result<(), Fault> {
    let (witness, Hex(ops_root), Hex(root), _): (Vec<u8>, Hex<H::Digest>, Hex<H::Digest>, Label) =
        parse(alloc, columns)?;
    let read = match OpsRootWitness::<F, H::Digest>::decode_cfg(alloc, witness.as_slice(), &()) {
        Ok(read) => read,
        Err(error) => return error.tell(out),
    };
    let copy = read.clone()?;
    if copy != read || copy.encode(alloc)? != witness {
        return Err(Fault::Differs);
    }
    copy.verify::<H>(&ops_root, &root).tell(out)
}
