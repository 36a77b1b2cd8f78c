//! Databases beside a plain map, and the root of a commit that has a value.

ghost use Rattle.storage_bitmap.specs.Chunks.{IsChunkSize};

use crate::stops::{out_of_memory, some, there};
use std::alloc::{AllocError, Global};
use std::process::Abort;
use storage_codec::codec::FixedBytes;
use storage_codec::digest::{Digest, Hasher, Sha256, Sha512};
use storage_current::qmdb::current::ordered::constant::{ExclusionProof, KeyValueProof};
use storage_db::db::{Error, Ordered, OrderedCodec};
use storage_merkle::merkle::{Family, Graftable, mmb, mmr};
use storage_ops::qmdb::any::{FixedEncoding, VariableEncoding};
use storage_ops::qmdb::operation::Key;

/// A key or a value for each number, and for no other number below 2^32, or below 256 in one byte, the same one.
pub trait Numbered: PartialEq + Sized {
    /// Returns that of `number`.
    fn numbered(alloc: Global, number: u64) -> Result<Self, AllocError>;
}

impl Numbered for u64 {
    fn numbered(_alloc: Global, number: u64) -> Result<u64, AllocError> {
        Ok(number)
    }
}

impl Numbered for FixedBytes<1> {
    fn numbered(_alloc: Global, number: u64) -> Result<FixedBytes<1>, AllocError> {
        let [.., last] = number.to_be_bytes();
        Ok(FixedBytes { bytes: [last] })
    }
}

impl Numbered for FixedBytes<4> {
    fn numbered(_alloc: Global, number: u64) -> Result<FixedBytes<4>, AllocError> {
        let [_, _, _, _, first, second, third, last] = number.to_be_bytes();
        Ok(FixedBytes {
            bytes: [first, second, third, last],
        })
    }
}

impl Numbered for Vec<u8> {
    fn numbered(alloc: Global, number: u64) -> Result<Vec<u8>, AllocError> {
        if number == 0 {
            return Ok(Vec::new(alloc));
        }
        Ok(format!(in alloc; "{number}")?.into_bytes())
    }
}

/// What a database answers.
#[derive(Clone, Copy, Drop)]
pub enum Told {
    Yes,
    No,
    /// It is out of memory.
    OutOfMemory,
    /// It refuses what is right.
    Refused,
}

impl Told {
    fn of(yes: bool) -> Told {
        if yes { Told::Yes } else { Told::No }
    }

    fn of_error<F: Family>(error: &Error<F>) -> Told {
        match error {
            Error::Memory => Told::OutOfMemory,
            _ => Told::Refused,
        }
    }

    /// What is told where a key is said to have no value, which is right or not.
    fn of_absence<F: Family>(error: &Error<F>, right: bool) -> Told {
        match error {
            Error::Absent => Told::of(right),
            error => Told::of_error(error),
        }
    }

    /// What is told where a key is said to have a value, which is right or not.
    fn of_presence<F: Family>(error: &Error<F>, right: bool) -> Told {
        match error {
            Error::Present => Told::of(right),
            error => Told::of_error(error),
        }
    }
}

/// A plain map: at each key's number the number of its value, now and at the last commit.
#[derive(Drop)]
struct Plain {
    now: [Option<u64>; 256],
    committed: [Option<u64>; 256],
}

/// Returns the next of some numbers that look random, the high bits most.
pub fn next_number(number: u64) -> u64 {
    number
        .wrapping_mul(6_364_136_223_846_793_005)
        .wrapping_add(1_442_695_040_888_963_407)
}

/// A database whose keys and values are those of numbers.
pub trait ByNumber: Sized {
    /// Its keys.
    type Key: Numbered + Drop;

    /// Its values.
    type Value: Numbered + Drop;

    /// Its canonical roots.
    type Root: Digest;

    /// Whether its chunks have a size that a chunk may have.
    ghost is_sized: { Type 0 };

    /// One without operations.
    fn empty(alloc: Global) -> Self
        requires { Self.is_sized };

    /// Gives `key` the value `value`.
    fn give(&mut self, key: Self::Key, value: Self::Value) -> Told;

    /// Takes `key` away; whether it had a value.
    fn take(&mut self, key: &Self::Key) -> Told;

    /// Commits with this value, or none.
    fn end(&mut self, value: Option<Self::Value>) -> Told;

    /// Returns the value of `key` now.
    fn now(&self, key: &Self::Key) -> Option<&Self::Value>;

    /// Returns the value of `key` at the last commit.
    fn then(&self, key: &Self::Key) -> Option<&Self::Value>;

    /// Returns how many keys have a value now.
    fn count(&self) -> usize;

    /// Returns the floor of the last commit.
    fn last_floor(&self) -> Option<u64>;

    /// Returns the value of the last commit.
    fn last_value(&self) -> Option<&Self::Value>;

    /// Returns the canonical root of the last commit.
    fn last_root(&self) -> Option<Self::Root>;

    /// Returns whether it answers rightly what value `key` had at the last commit: by that and a proof, which is
    /// accepted, or that it had none.
    fn proves_value(
        &self,
        alloc: Global,
        key: Self::Key,
        right: Option<&Self::Value>,
        root: &Self::Root,
    ) -> Told
        requires { Self.is_sized };

    /// Returns whether it answers rightly if `key` had no value at the last commit: by a proof, which is accepted, or
    /// that it had one.
    fn proves_absence(
        &self,
        alloc: Global,
        key: &Self::Key,
        is_absent: bool,
        root: &Self::Root,
    ) -> Told
        requires { Self.is_sized };
}

impl<F: Graftable, H: Hasher, K: Key + Numbered, V: OrderedCodec<F, K>, const N: usize> ByNumber
    for Ordered<F, H, K, V, N>
where
    V::Value: Numbered,
{
    type Key = K;

    type Value = V::Value;

    type Root = H::Digest;

    ghost is_sized = { IsChunkSize N };

    fn empty(alloc: Global) -> Self {
        Ordered::new(alloc)
    }

    fn give(&mut self, key: K, value: V::Value) -> Told {
        match self.put(key, value) {
            Ok(()) => Told::Yes,
            Err(error) => Told::of_error(&error),
        }
    }

    fn take(&mut self, key: &K) -> Told {
        match self.delete(key) {
            Ok(was) => Told::of(was),
            Err(error) => Told::of_error(&error),
        }
    }

    fn end(&mut self, value: Option<V::Value>) -> Told {
        match self.commit(value) {
            Ok(()) => Told::Yes,
            Err(error) => Told::of_error(&error),
        }
    }

    fn now(&self, key: &K) -> Option<&V::Value> {
        self.get(key)
    }

    fn then(&self, key: &K) -> Option<&V::Value> {
        self.get_committed(key)
    }

    fn count(&self) -> usize {
        self.len()
    }

    fn last_floor(&self) -> Option<u64> {
        match self.floor() {
            Some(floor) => Some(floor.as_u64()),
            None => None,
        }
    }

    fn last_value(&self) -> Option<&V::Value> {
        self.metadata()
    }

    fn last_root(&self) -> Option<H::Digest> {
        self.root()
    }

    fn proves_value(
        &self,
        alloc: Global,
        key: K,
        right: Option<&V::Value>,
        root: &H::Digest,
    ) -> Told {
        match self.prove_value(&key) {
            Ok((found, proof)) => {
                has_value::<F, H, K, V, N>(alloc, proof, key, found, right, root)
            }
            Err(error) => {
                drop(key);
                Told::of_absence(&error, right.is_none())
            }
        }
    }

    fn proves_absence(&self, alloc: Global, key: &K, is_absent: bool, root: &H::Digest) -> Told {
        match self.prove_absence(key) {
            Ok(proof) => has_no_value::<F, H, K, V, N>(alloc, &proof, key, is_absent, root),
            Err(error) => Told::of_presence(&error, !is_absent),
        }
    }
}

/// Returns whether `value` is `right`, and `proof` is accepted as one that `key` has it.
fn has_value<F: Graftable, H: Hasher, K: Key, V: OrderedCodec<F, K>, const N: usize>(
    alloc: Global,
    proof: KeyValueProof<F, K, H::Digest, N>,
    key: K,
    value: V::Value,
    right: Option<&V::Value>,
    root: &H::Digest,
) -> Told
where
    V::Value: Numbered,
{
    let is_right = is_same(Some(&value), right);
    match proof.verify::<H, V>(alloc, key, value, root) {
        Ok(yes) => Told::of(yes && is_right),
        Err(_) => Told::OutOfMemory,
    }
}

/// Returns whether `key` is absent, and `proof` is accepted as one that it is.
fn has_no_value<F: Graftable, H: Hasher, K: Key, V: OrderedCodec<F, K>, const N: usize>(
    alloc: Global,
    proof: &ExclusionProof<F, K, V, H::Digest, N>,
    key: &K,
    is_absent: bool,
    root: &H::Digest,
) -> Told {
    match proof.verify::<H>(alloc, key, root) {
        Ok(yes) => Told::of(yes && is_absent),
        Err(_) => Told::OutOfMemory,
    }
}

/// Returns whether two values are the same one, or both none.
fn is_same<T: PartialEq>(left: Option<&T>, right: Option<&T>) -> bool {
    match (left, right) {
        (Some(left), Some(right)) => *left == *right,
        (None, None) => true,
        _ => false,
    }
}

/// Returns the key or the value of `number`.
pub fn of_number<T: Numbered>(rt: &impl Abort, alloc: Global, number: u64) -> T {
    some(rt, T::numbered(alloc, number))
}

/// Returns the value of a number, if there is one.
fn of_option<T: Numbered>(rt: &impl Abort, alloc: Global, number: Option<u64>) -> Option<T> {
    match number {
        Some(number) => Some(of_number(rt, alloc, number)),
        None => None,
    }
}

/// Returns whether `told` is yes. Ends the test if memory is refused to it, or what is right.
pub fn is_yes(rt: &impl Abort, told: Told) -> bool {
    match told {
        Told::Yes => true,
        Told::No => false,
        Told::OutOfMemory => out_of_memory(rt),
        Told::Refused => panic!(rt; "refused"),
    }
}

/// Ends the test if memory is refused to it, or if `told` is not what is right.
pub fn see(rt: &impl Abort, told: Told, right: bool) {
    assert!(rt; is_yes(rt, told) == right);
}

/// Returns the database has what the map has at the number `key`, now and at the last commit.
fn compare<D: ByNumber>(rt: &impl Abort, alloc: Global, database: &D, plain: &Plain, key: u8) {
    let now = of_option::<D::Value>(rt, alloc, plain.now[key as usize]);
    let then = of_option::<D::Value>(rt, alloc, plain.committed[key as usize]);
    let key = of_number::<D::Key>(rt, alloc, u64::from(key));
    assert!(rt; is_same(database.now(&key), now.as_ref()));
    assert!(rt; is_same(database.then(&key), then.as_ref()));
}

/// Asserts that two databases tell the same of now and of the last commit, each of the keys of the numbers below sixteen.
pub fn tell_alike<D: ByNumber>(rt: &impl Abort, alloc: Global, one: &D, other: &D) {
    assert!(rt; one.count() == other.count());
    tell_alike_of_the_last(rt, one, other);
    for number in 0..16u64 {
        let key = of_number::<D::Key>(rt, alloc, number);
        assert!(rt; is_same(one.now(&key), other.now(&key)));
        assert!(rt; is_same(one.then(&key), other.then(&key)));
    }
}

/// Asserts that two databases tell the same root, floor and value of the last commit.
fn tell_alike_of_the_last<D: ByNumber>(rt: &impl Abort, one: &D, other: &D) {
    assert!(rt; is_same(one.last_root().as_ref(), other.last_root().as_ref()));
    assert!(rt; is_same(one.last_floor().as_ref(), other.last_floor().as_ref()));
    assert!(rt; is_same(one.last_value(), other.last_value()));
}

/// Returns a put or a deletion at the number `key`, as `draw` says: both answer alike.
fn change<D: ByNumber>(
    rt: &impl Abort,
    alloc: Global,
    database: &mut D,
    plain: &mut Plain,
    key: u8,
    draw: u64,
) {
    let its_key = of_number::<D::Key>(rt, alloc, u64::from(key));
    if (draw >> 33) % 2 == 0 {
        let value = of_number::<D::Value>(rt, alloc, draw);
        see(rt, database.give(its_key, value), true);
        plain.now[key as usize] = Some(draw);
    } else {
        let was = plain.now[key as usize].is_some();
        see(rt, database.take(&its_key), was);
        plain.now[key as usize] = None;
    }
}

/// Returns the database proves what the map had at the last commit at the number `key`.
fn prove<D: ByNumber>(
    rt: &impl Abort,
    alloc: Global,
    database: &D,
    plain: &Plain,
    key: u8,
    root: &D::Root,
)
    requires { D.is_sized }
{
    let value = of_option::<D::Value>(rt, alloc, plain.committed[key as usize]);
    let key = of_number::<D::Key>(rt, alloc, u64::from(key));
    see(
        rt,
        database.proves_absence(alloc, &key, value.is_none(), root),
        true,
    );
    see(
        rt,
        database.proves_value(alloc, key, value.as_ref(), root),
        true,
    );
}

/// Returns the database proves what the map had at the last commit at eight numbers from `first` on, around past
/// `last`.
fn prove_eight<D: ByNumber>(
    rt: &impl Abort,
    alloc: Global,
    database: &D,
    plain: &Plain,
    first: u8,
    last: u8,
)
    requires { D.is_sized }
{
    let root = there(rt, database.last_root(), "no root");
    for step in 0..8u8 {
        prove(
            rt,
            alloc,
            database,
            plain,
            first.wrapping_add(step) & last,
            &root,
        );
    }
}

/// Returns a commit with the value of `draw`, or none. Proofs are compared before and after it, and then all keys up to
/// `last`.
fn commit_and_compare<D: ByNumber>(
    rt: &impl Abort,
    alloc: Global,
    database: &mut D,
    plain: &mut Plain,
    last: u8,
    draw: u64,
)
    requires { D.is_sized }
{
    let [_, before, after, ..] = draw.to_be_bytes();
    prove_eight(rt, alloc, database, plain, before, last);
    let value = if (draw >> 33) % 2 == 0 {
        Some(draw)
    } else {
        None
    };
    see(rt, database.end(of_option(rt, alloc, value)), true);
    plain.committed = plain.now;
    prove_eight(rt, alloc, database, plain, after, last);
    for key in 0..=last {
        compare(rt, alloc, database, plain, key);
    }
}

/// Returns the command after `count` others over the keys up to `last`, all of whose bits are set: a put or a deletion,
/// or two in `count` times a commit. Two keys are compared after it.
fn step<D: ByNumber>(
    rt: &impl Abort,
    alloc: Global,
    database: &mut D,
    plain: &mut Plain,
    last: u8,
    count: u64,
    draw: u64,
)
    requires { D.is_sized }
{
    let [first, second, ..] = draw.to_be_bytes();
    let key = first & last;
    match (draw >> 33).checked_rem(count) {
        Some(0..2) => commit_and_compare(rt, alloc, database, plain, last, draw),
        _ => change(rt, alloc, database, plain, key, draw),
    }
    compare(rt, alloc, database, plain, key);
    compare(rt, alloc, database, plain, second & last);
}

/// Returns a commit and 2,500 commands, which `seed` settles, of a database without operations, beside a plain map.
fn run<D: ByNumber + Drop>(rt: &impl Abort, alloc: Global, seed: u64, last: u8)
    requires { D.is_sized }
{
    let mut plain = Plain {
        now: [None; 256],
        committed: [None; 256],
    };
    let mut database = D::empty(alloc);
    see(rt, database.end(None), true);
    let mut draw = seed;
    for count in 1..2_501u64 {
        draw = next_number(draw);
        step(rt, alloc, &mut database, &mut plain, last, count, draw);
    }
}

/// Four keys of one size over an MMR.
fn few_keys_of_one_size(rt: &impl Abort, alloc: Global) {
    run::<Ordered<mmr::Family, Sha256, FixedBytes<4>, FixedEncoding<u64>, 1>>(rt, alloc, 78, 3);
}

/// 256 keys of any size over an MMR.
fn many_keys_of_any_size(rt: &impl Abort, alloc: Global) {
    run::<Ordered<mmr::Family, Sha512, Vec<u8>, VariableEncoding<Vec<u8>>, 2>>(rt, alloc, 346, 255);
}

/// Four keys of any size over an MMB.
fn few_keys_of_any_size(rt: &impl Abort, alloc: Global) {
    run::<Ordered<mmb::Family, Sha256, Vec<u8>, VariableEncoding<Vec<u8>>, 1>>(rt, alloc, 213, 3);
}

/// 256 keys of one size over an MMB.
fn many_keys_of_one_size(rt: &impl Abort, alloc: Global) {
    run::<Ordered<mmb::Family, Sha512, FixedBytes<4>, FixedEncoding<u64>, 2>>(rt, alloc, 121, 255);
}

#[test]
fn ten_thousand_commands(rt: HostRuntime) {
    few_keys_of_one_size(&rt, rt.alloc());
    many_keys_of_any_size(&rt, rt.alloc());
    few_keys_of_any_size(&rt, rt.alloc());
    many_keys_of_one_size(&rt, rt.alloc());
}

/// Puts the key and the value of numbers.
fn put<D: ByNumber>(rt: &impl Abort, alloc: Global, database: &mut D, key: u64, value: u64) {
    let value = of_number::<D::Value>(rt, alloc, value);
    see(rt, database.give(of_number(rt, alloc, key), value), true);
}

/// So many keys have a value, and the last commit has this floor and this value.
fn tells<D: ByNumber>(
    rt: &impl Abort,
    alloc: Global,
    database: &D,
    count: usize,
    floor: Option<u64>,
    value: Option<u64>,
) {
    let value = of_option::<D::Value>(rt, alloc, value);
    assert!(rt; database.count() == count);
    assert!(rt; is_same(database.last_floor().as_ref(), floor.as_ref()));
    assert!(rt; is_same(database.last_value(), value.as_ref()));
}

/// Returns a database without operations in which the keys 5 and 9 are put and committed.
fn two_keys<D: ByNumber + Drop>(rt: &impl Abort, alloc: Global) -> D
    requires { D.is_sized }
{
    let mut database = D::empty(alloc);
    tells(rt, alloc, &database, 0, None, None);
    see(rt, database.end(None), true);
    tells(rt, alloc, &database, 0, Some(0), None);
    put(rt, alloc, &mut database, 5, 7);
    put(rt, alloc, &mut database, 9, 8);
    see(rt, database.end(None), true);
    tells(rt, alloc, &database, 2, Some(2), None);
    database
}

/// And then 9 is deleted, and the value 1 committed.
fn one_key_deleted<D: ByNumber + Drop>(rt: &impl Abort, alloc: Global) -> D
    requires { D.is_sized }
{
    let mut database = two_keys::<D>(rt, alloc);
    see(rt, database.take(&of_number(rt, alloc, 9)), true);
    see(rt, database.take(&of_number(rt, alloc, 9)), false);
    see(rt, database.end(Some(of_number(rt, alloc, 1))), true);
    tells(rt, alloc, &database, 1, Some(6), Some(1));
    database
}

/// Returns the root of the commit with the value 1.
fn root_with_value<D: ByNumber + Drop>(rt: &impl Abort, alloc: Global) -> Option<D::Root>
    requires { D.is_sized }
{
    one_key_deleted::<D>(rt, alloc).last_root()
}

/// Returns the key 5 has the value of `now`, and had that of `then` at the last commit.
fn five_has<D: ByNumber>(
    rt: &impl Abort,
    alloc: Global,
    database: &D,
    now: Option<u64>,
    then: Option<u64>,
) {
    let five = of_number::<D::Key>(rt, alloc, 5);
    let now = of_option::<D::Value>(rt, alloc, now);
    let then = of_option::<D::Value>(rt, alloc, then);
    assert!(rt; is_same(database.now(&five), now.as_ref()));
    assert!(rt; is_same(database.then(&five), then.as_ref()));
}

/// Returns the last key, 5, is deleted: until the next commit it has the value 7 at the last one.
fn emptied<D: ByNumber + Drop>(rt: &impl Abort, alloc: Global)
    requires { D.is_sized }
{
    let mut database = one_key_deleted::<D>(rt, alloc);
    five_has(rt, alloc, &database, Some(7), Some(7));
    see(rt, database.take(&of_number(rt, alloc, 5)), true);
    five_has(rt, alloc, &database, None, Some(7));
    see(rt, database.end(None), true);
    five_has(rt, alloc, &database, None, None);
    tells(rt, alloc, &database, 0, Some(9), None);
}

#[test]
fn database_emptied(rt: HostRuntime) {
    let alloc = rt.alloc();
    emptied::<Ordered<mmr::Family, Sha256, FixedBytes<4>, FixedEncoding<u64>, 1>>(&rt, alloc);
    emptied::<Ordered<mmb::Family, Sha256, FixedBytes<4>, FixedEncoding<u64>, 1>>(&rt, alloc);
}

// what is expected is from an independent program
#[test]
fn value_of_a_commit(rt: HostRuntime) {
    let root = [
        0x37, 0xac, 0x85, 0xec, 0x76, 0x14, 0xc0, 0x48, 0x07, 0xf3, 0x50, 0xbf, 0xa6, 0x71, 0xba,
        0x16, 0x8e, 0xb6, 0x9a, 0xc1, 0xaa, 0xeb, 0x9d, 0x0a, 0xdc, 0xcf, 0x70, 0x5b, 0x99, 0x26,
        0x28, 0x93,
    ];
    let found = root_with_value::<
        Ordered<mmr::Family, Sha256, FixedBytes<4>, FixedEncoding<u64>, 1>,
    >(&rt, rt.alloc());
    assert!(rt; found == Some(FixedBytes { bytes: root }));
}
