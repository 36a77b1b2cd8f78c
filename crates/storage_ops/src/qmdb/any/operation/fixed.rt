//! Operations that are filled up with zeros to one size.

ghost use Rattle.std.specs.Prelude.{◌≡◌, ◌≤◌, ◌+◌, ◌-◌, ◌*◌, ◌^◌, ◌<◌, ℕ, List, ◌∷◌, ◌++◌, length, replicate, option_map, max, Ok, OnOk, OnErr};
ghost use Rattle.std.specs.Int.{w64, to_be_bytes};
ghost use Rattle.storage_codec.specs.Codec.{Gives};
ghost use Rattle.storage_codec.specs.Parts.{AppendsStart, IsEnding, size_of};
ghost use Rattle.storage_merkle.specs.Shape.{max_leaves};
ghost use Rattle.storage_ops.specs.Operations.{OperationView, operation_map, parts, is_admitted};
ghost use Rattle.storage_ops.specs.Laws.Updates.{ordered_sized, ordered_back, unordered_sized, unordered_back};
ghost use Rattle.storage_ops.specs.Updates.{ordered_at, unordered_at};
ghost use Rattle.storage_ops.specs.Laws.Operations.{operation_same};
ghost use Rattle.storage_ops.specs.Laws.OperationParts.{fixed_parts};
ghost use Rattle.storage_ops.specs.Laws.Fixed.{fixed_operation_again, fixed_operation_sized};
ghost use Rattle.storage_ops.specs.Laws.FixedBack.{fixed_operation_back, fixed_one};
ghost use Rattle.storage_ops.specs.Fixed.{fixed_size, presence_text, fixed_operation_text, commit_payload_at, fixed_payload_at, fixed_operation_at};

use crate::qmdb::any::operation::update::{FixedUpdate, Ordered, Unordered, Update};
use crate::qmdb::any::operation::{
    COMMIT_CONTEXT, DELETE_CONTEXT, Operation, OperationCodec, UPDATE_CONTEXT, write_tagged,
};
use crate::qmdb::any::value::{FixedEncoding, FixedValue};
use crate::qmdb::operation::Key;
use crate::qmdb::operation::commit::{read_floor, read_presence, write_commit_fixed};
use std::alloc::Global;
use storage_codec::NoMemory;
use storage_codec::codec::util::{byte, ensure_zeros, put_zeros};
use storage_codec::codec::{
    Buf, Canonical, EncodeSize, Error, FixedSize, Read, Small, Write, small_size,
};
use storage_merkle::merkle::{Family, Location};

/// Returns how many bytes an operation has, over keys of `key` bytes, updates of `update` bytes and values of `value`
/// bytes.
fn total_size(key: usize, update: usize, value: usize) -> usize
    requires key { key ≤ 2 ^ 32 }
    requires update { update ≤ 3 * 2 ^ 32 }
    requires value { value ≤ 2 ^ 32 }
    ensures value { result ≡ fixed_size key update value }
    ensures delete { 1 + key ≤ result }
    ensures update { 1 + update ≤ result }
    ensures commit { 10 + value ≤ result }
{
    (1 + update).max(1 + 1 + value + 8).max(1 + key)
}

/// Returns how many bytes an update of type `S` has.
fn update_size<S: FixedUpdate>() -> usize
    ensures value { result ≡ S.size }
    ensures few { S.size ≤ 3 * 2 ^ 32 }
{
    S::fixed_size()
}

/// Appends to `out` the byte `tag`, what `value` is written as, and then `n` zeros.
#[tactic(auto, using(storage_codec::specs::Laws::Parts::starts_then, storage_codec::specs::Laws::Parts::starts_first))]
fn write_padded<T: Write>(tag: u8, value: &T, n: usize, out: &mut Vec<u8>) -> Result<(), NoMemory>
    ensures ok { OnOk result
        (out.new.items ≡ out.old.items ++ ((tag ∷ T.text value.now) ++ replicate n 0)) }
    ensures err { OnErr result (AppendsStart out.old.items out.new.items
        ((tag ∷ T.text value.now) ++ replicate n 0)) }
{
    write_tagged(tag, value, out)?;
    put_zeros(out, n)?;
    Ok(())
}

/// Appends to `out` the value of a commit, or none, if a value has `size` bytes, its floor, and then `n` zeros.
#[tactic(auto, using(storage_codec::specs::Laws::Parts::starts_then, storage_codec::specs::Laws::Parts::starts_first))]
fn write_commit_padded<F: Family, V: Write>(
    value: &Option<V>,
    floor: Location<F>,
    size: usize,
    n: usize,
    out: &mut Vec<u8>,
) -> Result<(), NoMemory>
    ensures ok { OnOk result (out.new.items ≡ out.old.items ++ (presence_text size
        (option_map V.text value.now) ++ to_be_bytes w64 floor ++ replicate n 0)) }
    ensures err { OnErr result (AppendsStart out.old.items out.new.items (presence_text size
        (option_map V.text value.now) ++ to_be_bytes w64 floor ++ replicate n 0)) }
{
    write_commit_fixed(value, floor, size, out)?;
    put_zeros(out, n)?;
    Ok(())
}

/// Reads the value, or none, and the floor of a commit from the front of `buf`.
#[tactic(auto, using(storage_codec::specs::Laws::Parts::ends_then))]
fn read_commit<F: Family, V: FixedValue, S: FixedUpdate + Update<Value = V>, B: Buf>(
    alloc: Global,
    buf: &mut B,
) -> Result<Operation<F, S>, Error>
    ensures gives { Gives (λ x. operation_map S.Key.view S.view V.view (parts x)) result
        (B.unread buf.new) (commit_payload_at (V.parse tt) V.size (B.unread buf.old)) }
    ensures ends { IsEnding (B.unread buf.old) (B.unread buf.new) }
{
    let value = read_presence(alloc, buf)?;
    let floor = read_floor(alloc, buf)?;
    Ok(Operation::CommitFloor(value, Location::new(floor)))
}

/// Reads what follows the tag `tag` from the front of `buf`.
#[tactic(auto, using(storage_codec::specs::Laws::Parts::ends_then))]
fn read_payload<F: Family, V: FixedValue, S: FixedUpdate + Update<Value = V>, B: Buf>(
    alloc: Global,
    buf: &mut B,
    tag: u8,
) -> Result<Operation<F, S>, Error>
where
    S::Key: Small + Read<Cfg = ()>,
    ensures gives { Gives (λ x. operation_map S.Key.view S.view V.view (parts x)) result
        (B.unread buf.new) (fixed_payload_at (S.Key.parse tt) (S.parse tt)
        (V.parse tt) S.Key.size S.size V.size tag (B.unread buf.old)) }
    ensures ends { IsEnding (B.unread buf.old) (B.unread buf.new) }
{
    let key = small_size::<S::Key>();
    let update = update_size::<S>();
    let value = small_size::<V>();
    let total = total_size(key, update, value);
    match tag {
        DELETE_CONTEXT => {
            let key = S::Key::read_cfg(alloc, buf, &())?;
            ensure_zeros(buf, total - (1 + small_size::<S::Key>()))?;
            Ok(Operation::Delete(key))
        }
        UPDATE_CONTEXT => {
            let payload = S::read_cfg(alloc, buf, &())?;
            ensure_zeros(buf, total - (1 + update))?;
            Ok(Operation::Update(payload))
        }
        COMMIT_CONTEXT => {
            let commit = read_commit(alloc, buf)?;
            ensure_zeros(buf, total - (10 + value))?;
            Ok(commit)
        }
        other => Err(Error::InvalidEnum(other)),
    }
}

impl<
    F: Family,
    V: FixedValue,
    S: FixedUpdate + Update<Value = V, ValueEncoding = FixedEncoding<V>>,
> OperationCodec<F, S> for FixedEncoding<V>
where
    S::Key: Small + Read<Cfg = ()>,
{
    type ReadCfg = ();

    ghost operation_text = { fixed_operation_text S.Key.size S.size V.size };

    ghost View = { OperationView S.Key.View S.View V.View };

    ghost operation_view = { operation_map S.Key.view S.view V.view };

    ghost operation_admits = { λ _.
        is_admitted (S.Key.admits tt) (S.admits tt) (V.admits tt) (λ n. n ≤ max_leaves) };

    ghost operation_fits = { λ _.
        is_admitted (S.Key.admits tt) (S.admits tt) (V.admits tt) (λ n. n < 2 ^ 64) };

    ghost operation_parse = { λ _.
        fixed_operation_at (S.Key.parse tt) (S.parse tt) (V.parse tt) S.Key.size S.size V.size };

    #[tactic(auto, using(storage_codec::specs::Laws::Parts::starts_cons, storage_codec::specs::Laws::Parts::starts_none))]
    fn write_operation(operation: &Operation<F, S>, out: &mut Vec<u8>) -> Result<(), NoMemory> {
        let key = small_size::<S::Key>();
        let update = update_size::<S>();
        let value = small_size::<V>();
        let total = total_size(key, update, value);
        match operation {
            Operation::Delete(k) => write_padded(DELETE_CONTEXT, k, total - (1 + key), out),
            Operation::Update(payload) => {
                write_padded(UPDATE_CONTEXT, payload, total - (1 + update), out)
            }
            Operation::CommitFloor(metadata, floor) => {
                out.push(COMMIT_CONTEXT)?;
                write_commit_padded(metadata, *floor, value, total - (10 + value), out)
            }
        }
    }

    #[tactic(auto, using(storage_codec::specs::Laws::Parts::ends_then, storage_codec::specs::Laws::Parts::ends_same))]
    fn read_operation<B: Buf>(
        alloc: Global,
        buf: &mut B,
        _cfg: &(),
    ) -> Result<Operation<F, S>, Error> {
        let total = total_size(
            small_size::<S::Key>(),
            update_size::<S>(),
            small_size::<V>(),
        );
        if buf.remaining() < total {
            return Err(Error::EndOfBuffer);
        }
        let tag = byte(buf)?;
        read_payload(alloc, buf, tag)
    }

    ghost operation_again = { λ _ op rest h.
        fixed_operation_again S.Key.text S.text V.text S.Key.view S.view V.view (S.Key.parse tt) (S.parse tt)
        (V.parse tt) (S.Key.admits tt) (S.admits tt) (V.admits tt) S.Key.size S.size V.size
        (record { again = S.Key.again tt }) (record { again = S.again tt })
        (record { again = V.again tt }) S.Key.sized S.sized V.sized op rest h };

    ghost operation_one = { λ _ x y p q e.
        operation_same S.Key.view S.view V.view S.seen S.same_seen x y (fixed_one S.Key.text S.text
        V.text S.Key.view S.view V.view (S.Key.parse tt) (S.parse tt) (V.parse tt) (S.Key.admits tt)
        (S.admits tt) (V.admits tt) S.Key.size S.size V.size (record { again = S.Key.again tt })
        (record { again = S.again tt }) (record { again = V.again tt }) x y p q e) };

    ghost operation_parts = { λ x y p q e.
        fixed_parts S.Key.text S.text V.text S.Key.size S.size V.size V.sized x y p q e };

    ghost operation_same = { operation_same S.Key.view S.view V.view S.seen S.same_seen };
}

/// Returns how many bytes each value of the type `T` is written as.
fn size_of_all<T: FixedSize>() -> Option<u64>
    ensures { (x : T) → result ≡ size_of (length (T.text x)) }
{
    Some(T::fixed_size() as u64)
}

impl<F: Family, K: Key + Small + Read<Cfg = ()>, V: FixedValue> FixedSize
    for Operation<F, Ordered<K, FixedEncoding<V>>> {
    ghost size = { fixed_size K.size (K.size + V.size + K.size) V.size };

    fn fixed_size() -> usize {
        total_size(
            small_size::<K>(),
            update_size::<Ordered<K, FixedEncoding<V>>>(),
            small_size::<V>(),
        )
    }

    ghost sized = { λ x.
        fixed_operation_sized K.text (λ u. K.text u.key ++ V.text u.value ++ K.text u.next_key) V.text K.size
        (K.size + V.size + K.size) V.size K.sized (λ u. ordered_sized K.text V.text K.size V.size
        K.sized V.sized u.key u.value u.next_key) V.sized (parts x) };
}

impl<F: Family, K: Key + Small + Read<Cfg = ()>, V: FixedValue> EncodeSize
    for Operation<F, Ordered<K, FixedEncoding<V>>> {
    fn encode_size(&self) -> Option<u64> {
        size_of_all::<Operation<F, Ordered<K, FixedEncoding<V>>>>()
    }
}

impl<F: Family, K: Key + Canonical + Small + Read<Cfg = ()>, V: FixedValue + Canonical> Canonical
    for Operation<F, Ordered<K, FixedEncoding<V>>> {
    ghost back = { λ _ bytes x rest fits e. fixed_operation_back K.text (λ u. K.text u.key ++ V.text u.value
        ++ K.text u.next_key) V.text K.view (λ u. (K.view u.key, V.view u.value, K.view u.next_key))
        V.view (K.parse tt) (ordered_at (K.parse tt) (V.parse tt)) (V.parse tt) K.size
        (K.size + V.size + K.size) V.size (record { back = K.back tt })
        (record {
          back = λ b u r f p. ordered_back K.text V.text K.view V.view (K.parse tt)
              (V.parse tt) (record { back = K.back tt }) (record { back = V.back tt }) b u.key u.value
              u.next_key r f p;
        }) (record { back = V.back tt }) bytes (parts x) rest fits e };
}

impl<F: Family, K: Key + Small + Read<Cfg = ()>, V: FixedValue> FixedSize
    for Operation<F, Unordered<K, FixedEncoding<V>>> {
    ghost size = { fixed_size K.size (K.size + V.size) V.size };

    fn fixed_size() -> usize {
        total_size(
            small_size::<K>(),
            update_size::<Unordered<K, FixedEncoding<V>>>(),
            small_size::<V>(),
        )
    }

    ghost sized = { λ x. fixed_operation_sized K.text (λ u. K.text u.0 ++ V.text u.1) V.text K.size
        (K.size + V.size) V.size K.sized (λ u. unordered_sized K.text V.text K.size V.size K.sized
        V.sized u.0 u.1) V.sized (parts x) };
}

impl<F: Family, K: Key + Small + Read<Cfg = ()>, V: FixedValue> EncodeSize
    for Operation<F, Unordered<K, FixedEncoding<V>>> {
    fn encode_size(&self) -> Option<u64> {
        size_of_all::<Operation<F, Unordered<K, FixedEncoding<V>>>>()
    }
}

impl<F: Family, K: Key + Canonical + Small + Read<Cfg = ()>, V: FixedValue + Canonical> Canonical
    for Operation<F, Unordered<K, FixedEncoding<V>>> {
    ghost back = { λ _ bytes x rest fits e.
        fixed_operation_back K.text (λ u. K.text u.0 ++ V.text u.1) V.text K.view
        (λ u. (K.view u.0, V.view u.1)) V.view (K.parse tt) (unordered_at (K.parse tt) (V.parse tt))
        (V.parse tt) K.size (K.size + V.size) V.size (record { back = K.back tt })
        (record {
          back = λ b u r f p. unordered_back K.text V.text K.view V.view (K.parse tt)
              (V.parse tt) (record { back = K.back tt }) (record { back = V.back tt }) b u.0 u.1 r f p;
        })
        (record { back = V.back tt }) bytes (parts x) rest fits e };
}
