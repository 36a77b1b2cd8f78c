//! Proofs of a database, which a client checks from their bytes.

use commonware_storage::codec::{Encode, FixedBytes};
use commonware_storage::db::Ordered;
use commonware_storage::digest::Sha256;
use commonware_storage::laws::databases::{
    proved_absences_are_accepted, proved_values_are_accepted,
};
use commonware_storage::light::{check_absence, check_value};
use commonware_storage::merkle::mmr::Family;
use commonware_storage::qmdb::any::FixedEncoding;
use std::alloc::Global;
use std::test::Fail;
use storage_codec::NoMemory;

type Key = FixedBytes<4>;

type Digest = FixedBytes<32>;

type Value = FixedEncoding<u64>;

type Database = Ordered<Family, Sha256, Key, Value, 1>;

/// Returns the key of a number.
fn key(number: u8) -> Key {
    FixedBytes {
        bytes: [0, 0, 0, number],
    }
}

/// Returns a database that has committed the value 7 of the key 5, and 8 of 9.
fn two_keys(alloc: Global) -> Result<Database, Fail> {
    let mut database = Database::new(alloc);
    database.commit(None)?;
    database.put(key(5), 7)?;
    database.put(key(9), 8)?;
    database.commit(None)?;
    Ok(database)
}

/// Returns whether a client that trusts `root` takes from `proof` that the key of `number` has the value `value`.
fn shows_value(
    alloc: Global,
    proof: &[u8],
    number: u8,
    value: u64,
    root: &Digest,
) -> Result<bool, NoMemory> {
    check_value::<Family, Sha256, Key, Value>(alloc, proof, 1, &(), key(number), value, root)
}

/// Returns whether it takes from `proof` that the key of `number` has no value.
fn shows_absence(alloc: Global, proof: &[u8], number: u8, root: &Digest) -> Result<bool, NoMemory> {
    check_absence::<Family, Sha256, Key, Value>(alloc, proof, 1, &((), ()), &key(number), root)
}

/// Returns the canonical root, and the value of the key of `number` with the bytes of its proof.
fn value_proved(
    alloc: Global,
    database: &Database,
    number: u8,
) -> Result<(Option<Digest>, u64, Vec<u8>), Fail> {
    let (value, proof) = database.prove_value(&key(number))?;
    Ok((database.root(), value, proof.encode(alloc)?))
}

/// Returns the canonical root, and the bytes of the proof that the key of `number` has no value.
fn absence_proved(
    alloc: Global,
    database: &Database,
    number: u8,
) -> Result<(Option<Digest>, Vec<u8>), Fail> {
    let proof = database.prove_absence(&key(number))?;
    Ok((database.root(), proof.encode(alloc)?))
}

#[test]
fn database_value_in_bytes(rt: HostRuntime) -> Result<(), Fail> {
    let alloc = rt.alloc();
    let (root, value, bytes) = value_proved(alloc, &two_keys(alloc)?, 5)?;
    let Some(root) = root else {
        panic!(rt; "no root");
    };
    assert_eq!(rt; value, 7);
    assert_eq!(rt; bytes.len(), 170);
    assert!(rt; shows_value(alloc, &bytes, 5, 7, &root)?);
    assert!(rt; !shows_value(alloc, &bytes, 5, 8, &root)?);
    assert!(rt; !shows_value(alloc, &bytes, 9, 7, &root)?);
    Ok(())
}

#[test]
fn database_absence_in_bytes(rt: HostRuntime) -> Result<(), Fail> {
    let alloc = rt.alloc();
    let (root, bytes) = absence_proved(alloc, &two_keys(alloc)?, 7)?;
    let Some(root) = root else {
        panic!(rt; "no root");
    };
    assert_eq!(rt; bytes.len(), 183);
    assert!(rt; shows_absence(alloc, &bytes, 7, &root)?);
    assert!(rt; shows_absence(alloc, &bytes, 6, &root)?);
    assert!(rt; !shows_absence(alloc, &bytes, 9, &root)?);
    assert!(rt; !shows_absence(alloc, &bytes, 4, &root)?);
    Ok(())
}

#[test]
fn own_proofs_are_accepted(rt: HostRuntime) -> Result<(), Fail> {
    let alloc = rt.alloc();
    let database = two_keys(alloc)?;
    let value = proved_values_are_accepted(alloc, &database, key(9), &())?;
    let absence = proved_absences_are_accepted(alloc, &database, &key(1), &((), ()))?;
    assert!(rt; value && absence);
    Ok(())
}
