//! Databases whose commands are made again where memory is refused to them: a refused command leaves everything as it was, so that the
//! second one gives what the first would have given. `tools/refused_memory.py` refuses each request of these tests in turn.

use crate::database::{ByNumber, Told, next_number, of_number, see};
use crate::definitions::strings;
use crate::stops::there;
use std::alloc::Global;
use std::process::Abort;
use storage_codec::codec::FixedBytes;
use storage_codec::digest::{Digest, Sha256, Sha512};
use storage_db::db::Ordered;
use storage_merkle::merkle::{mmb, mmr};
use storage_ops::qmdb::any::FixedEncoding;

type Database<F, H> = Ordered<F, H, FixedBytes<4>, FixedEncoding<u64>, 1>;

/// Gives `key` the value `value`, and again if memory is refused.
fn give<D: ByNumber>(rt: &impl Abort, alloc: Global, database: &mut D, key: u64, value: u64) {
    let (its_key, its_value) = (of_number(rt, alloc, key), of_number(rt, alloc, value));
    let mut told = database.give(its_key, its_value);
    if let Told::OutOfMemory = told {
        let (its_key, its_value) = (of_number(rt, alloc, key), of_number(rt, alloc, value));
        told = database.give(its_key, its_value);
    }
    see(rt, told, true);
}

/// Takes `key` away, and again if memory is refused.
fn take<D: ByNumber>(rt: &impl Abort, alloc: Global, database: &mut D, key: u64) {
    let key = of_number::<D::Key>(rt, alloc, key);
    let had = database.now(&key).is_some();
    let mut told = database.take(&key);
    if let Told::OutOfMemory = told {
        told = database.take(&key);
    }
    see(rt, told, had);
}

/// Commits, and again if memory is refused.
fn commit<D: ByNumber>(rt: &impl Abort, database: &mut D) {
    let mut told = database.end(None);
    if let Told::OutOfMemory = told {
        told = database.end(None);
    }
    see(rt, told, true);
}

/// Does what the number `draw` says with one of four keys.
fn step<D: ByNumber>(rt: &impl Abort, alloc: Global, database: &mut D, draw: u64) {
    let key = (draw >> 56) % 4;
    match (draw >> 40) % 8 {
        0 => commit(rt, database),
        1 | 2 => take(rt, alloc, database, key),
        _ => give(rt, alloc, database, key, draw),
    }
}

/// Returns the database after sixty commands and a commit has the root `root`, in hexadecimal, and proves it of each
/// key.
fn run<D: ByNumber + Drop>(rt: &impl Abort, alloc: Global, root: &str)
    requires { D.is_sized }
{
    let mut database = D::empty(alloc);
    let mut draw = 58;
    for _ in 0..60u64 {
        draw = next_number(draw);
        step(rt, alloc, &mut database, draw);
    }
    commit(rt, &mut database);
    let found = there(rt, database.last_root(), "no root");
    let right = strings(rt, alloc, root);
    assert!(rt; right.len() == 1);
    assert!(rt; found.bytes() == right[0].as_slice());
    for number in 0..4u64 {
        let key = of_number::<D::Key>(rt, alloc, number);
        let is_absent = database.then(&key).is_none();
        see(
            rt,
            database.proves_absence(alloc, &key, is_absent, &found),
            true,
        );
    }
}

// the roots are from tools/database.py, which makes each snapshot anew

#[test]
fn commands_made_again_over_a_range(rt: HostRuntime) {
    run::<Database<mmr::Family, Sha256>>(
        &rt,
        rt.alloc(),
        "7a8f39e55128f38b7646b9873f449fea00c25dd0a77cfa0a4ee420efdad45fc3",
    );
}

#[test]
fn commands_made_again_over_a_belt(rt: HostRuntime) {
    run::<Database<mmb::Family, Sha256>>(
        &rt,
        rt.alloc(),
        "89f811827194930c2b958431de58c6adbacedf547c3de054e788056b90d79a34",
    );
}

#[test]
fn commands_made_again_over_a_range_of_long_digests(rt: HostRuntime) {
    run::<Database<mmr::Family, Sha512>>(
        &rt,
        rt.alloc(),
        "278be07c6cf0a6801fe03d4741098097373ab0df94aa913ef93673eed425b9c18e03a5e1cf23c50097619b28c196d09aabedf946b16b0ba6acedfebc5f7e796c",
    );
}

#[test]
fn commands_made_again_over_a_belt_of_long_digests(rt: HostRuntime) {
    run::<Database<mmb::Family, Sha512>>(
        &rt,
        rt.alloc(),
        "e8d4a4a43879812b12fb1a850c0f4fbe2a28812d8ddfecb72e08e35b86e578398b6a23e0bfd82d627701d395b05179d2a79787756f4e02df484337e83372d29e",
    );
}
