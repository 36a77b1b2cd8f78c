//! Digests read through a bound, zeros that fill up an encoding, and what an update keeps.

use crate::stops::some;
use storage_codec::codec::util::{byte, ensure_zeros, put_zeros};
use storage_codec::codec::{Error, U64};
use storage_codec::digest::{Digest, DigestOf, Hasher, Sha256, Sha512};
use storage_ops::qmdb::any::operation::{Update, update};
use storage_ops::qmdb::any::value::VariableEncoding;

#[test]
fn whole_digest_read(rt: HostRuntime) {
    let read = DigestOf::<Sha256>::decode(rt.alloc(), [1; 32].as_slice());
    assert!(rt; read == Ok(Sha256::fill(1)));
    let read = DigestOf::<Sha512>::decode(rt.alloc(), [1; 64].as_slice());
    assert!(rt; read == Ok(Sha512::fill(1)));
    let read = DigestOf::<Sha256>::decode(rt.alloc(), [1; 33].as_slice());
    assert!(rt; read == Err(Error::ExtraData(1)));
}

#[test]
fn zeros_read_where_written(rt: HostRuntime) {
    let mut filled = some(&rt, vec![in rt.alloc(); 7u8]);
    some(&rt, put_zeros(&mut filled, 3));
    assert!(rt; filled.as_slice() == [7, 0, 0, 0].as_slice());

    let mut left = filled.as_slice();
    assert!(rt; byte(&mut left) == Ok(7));
    assert!(rt; ensure_zeros(&mut left, 2).is_ok());
    assert!(rt; left == [0].as_slice());
    let refused = ensure_zeros(&mut filled.as_slice(), 1);
    assert!(rt; refused == Err(Error::Invalid("fixed operation", "nonzero padding")));
}

#[test]
fn next_key_kept(rt: HostRuntime) {
    let update = update::Ordered::<U64, VariableEncoding<Vec<u8>>> {
        key: U64::new(7),
        value: Vec::new(rt.alloc()),
        next_key: U64::new(8),
    };
    let kept = <update::Ordered<U64, VariableEncoding<Vec<u8>>> as Update>::cached(|| &update);
    assert!(rt; some(&rt, kept) == U64::new(8));
}

#[test]
fn nothing_kept(rt: HostRuntime) {
    let value = Vec::new(rt.alloc());
    let update = update::Unordered::<U64, VariableEncoding<Vec<u8>>>(U64::new(7), value);
    let kept = <update::Unordered<U64, VariableEncoding<Vec<u8>>> as Update>::cached(|| &update);
    some(&rt, kept);
}
