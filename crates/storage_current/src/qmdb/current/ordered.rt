//! Proofs of the value of a key, and that a key has none, over operations whose updates name the next key.

mod check;
mod codec;
mod copies;
mod exclusion;
mod key_value;
mod span;
mod update_codec;

pub use exclusion::ExclusionProof;
pub use key_value::KeyValueProof;
pub use update_codec::UpdateCodec;

/// Proofs over chunks of a size that is known when the program is compiled.
pub mod constant {
    /// A proof of the value of a key, over a chunk of `N` bytes.
    pub type KeyValueProof<F, K, D, const N: usize> = crate::qmdb::current::ordered::KeyValueProof<
        F,
        K,
        D,
        [u8; N],
    >;

    /// A proof that a key has no value, over a chunk of `N` bytes.
    pub type ExclusionProof<F, K, V, D, const N: usize> =
        crate::qmdb::current::ordered::ExclusionProof<F, K, V, D, [u8; N]>;
}

/// Proofs over chunks of a size that is known at run time.
pub mod dynamic {
    /// A proof of the value of a key, over a chunk that is shared bytes.
    pub type KeyValueProof<F, K, D> = crate::qmdb::current::ordered::KeyValueProof<
        F,
        K,
        D,
        bytes::Bytes,
    >;

    /// A proof that a key has no value, over a chunk that is shared bytes.
    pub type ExclusionProof<F, K, V, D> = crate::qmdb::current::ordered::ExclusionProof<
        F,
        K,
        V,
        D,
        bytes::Bytes,
    >;
}

/// The proofs under the path that they have in the Rust crate.
pub mod proof {
    pub use crate::qmdb::current::ordered::{ExclusionProof, KeyValueProof, constant, dynamic};
}
