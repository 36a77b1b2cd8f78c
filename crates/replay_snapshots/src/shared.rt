//! What a client answers by both calls, of a proof that is a slice and of one that is shared bytes.

use bytes::Bytes;
use commonware_storage::codec::Read;
use commonware_storage::digest::{Digest, Hasher};
use commonware_storage::light::{
    check_absence, check_absence_shared, check_operation, check_operation_shared, check_value,
    check_value_shared,
};
use commonware_storage::merkle::{Graftable, Location};
use commonware_storage::qmdb::any::operation::OperationCodec;
use commonware_storage::qmdb::any::operation::update::Ordered;
use commonware_storage::qmdb::current::ordered::UpdateCodec;
use commonware_storage::qmdb::operation::Key;
use replay_columns::answers::agreed;
use replay_columns::columns::Fault;
use std::alloc::Global;

/// The bytes of a proof, the size of its chunk, and the root that it is checked against.
#[derive(Drop)]
pub struct Given<D> {
    pub proof: Vec<u8>,
    pub chunk_size: usize,
    pub root: D,
}

impl<D: Digest> Given<D> {
    /// Returns whether they prove the operation at a location.
    pub fn shows_operation<F: Graftable, H: Hasher<Digest = D>>(
        &self,
        alloc: Global,
        loc: Location<F>,
        operation: &[u8],
    ) -> Result<bool, Fault> {
        let (proof, size, root) = (&self.proof, self.chunk_size, &self.root);
        let yes = check_operation::<F, H>(alloc, proof, size, loc, operation, root)?;
        let proof = Bytes::copy_from_slice(alloc, proof)?;
        let other = check_operation_shared::<F, H>(alloc, proof, size, loc, operation, root)?;
        agreed(yes, other)
    }

    /// Returns whether they prove that a key has a value. Key and value are given for each call.
    pub fn shows_value<
        F: Graftable,
        H: Hasher<Digest = D>,
        K: Key,
        V: OperationCodec<F, Ordered<K, V>>,
    >(
        &self,
        alloc: Global,
        cfg: &K::Cfg,
        first: (K, V::Value),
        second: (K, V::Value),
    ) -> Result<bool, Fault> {
        let (proof, size, root) = (&self.proof, self.chunk_size, &self.root);
        let (key, value) = first;
        let yes = check_value::<F, H, K, V>(alloc, proof, size, cfg, key, value, root)?;
        let proof = Bytes::copy_from_slice(alloc, proof)?;
        let (key, value) = second;
        let other = check_value_shared::<F, H, K, V>(alloc, proof, size, cfg, key, value, root)?;
        agreed(yes, other)
    }

    /// Returns whether they prove that a key has no value.
    pub fn shows_absence<
        F: Graftable,
        H: Hasher<Digest = D>,
        K: Key,
        V: OperationCodec<F, Ordered<K, V>> + UpdateCodec<K>,
    >(
        &self,
        alloc: Global,
        cfgs: &(<V as UpdateCodec<K>>::UpdateCfg, <V::Value as Read>::Cfg),
        key: &K,
    ) -> Result<bool, Fault> {
        let (proof, size, root) = (&self.proof, self.chunk_size, &self.root);
        let yes = check_absence::<F, H, K, V>(alloc, proof, size, cfgs, key, root)?;
        let proof = Bytes::copy_from_slice(alloc, proof)?;
        let other = check_absence_shared::<F, H, K, V>(alloc, proof, size, cfgs, key, root)?;
        agreed(yes, other)
    }
}
