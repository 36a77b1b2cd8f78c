//! Operations as long as their parts.

ghost use Rattle.std.specs.Prelude.{◌≡◌, ◌≤◌, ◌<◌, ◌+◌, ◌^◌, ℕ, List, ◌++◌, length, Ok, OnOk, OnErr};
ghost use Rattle.storage_codec.specs.Codec.{Gives};
ghost use Rattle.storage_codec.specs.Parts.{AppendsStart, IsEnding, size_of};
ghost use Rattle.storage_merkle.specs.Shape.{max_leaves};
ghost use Rattle.storage_ops.specs.Operations.{OperationView, operation_map, parts, is_admitted};
ghost use Rattle.storage_ops.specs.Laws.Operations.{operation_same};
ghost use Rattle.storage_ops.specs.Laws.OperationParts.{variable_parts};
ghost use Rattle.storage_ops.specs.Updates.{ordered_at, unordered_at};
ghost use Rattle.storage_ops.specs.Laws.Updates.{ordered_back, unordered_back};
ghost use Rattle.storage_ops.specs.Variable.{variable_operation_text, variable_commit_at, variable_operation_at};
ghost use Rattle.storage_ops.specs.Laws.Variable.{variable_again, variable_back, variable_one};

use crate::qmdb::any::operation::update::{CodecUpdate, Ordered, Unordered, Update};
use crate::qmdb::any::operation::{
    COMMIT_CONTEXT, DELETE_CONTEXT, Operation, OperationCodec, UPDATE_CONTEXT, write_tagged,
};
use crate::qmdb::any::value::{VariableEncoding, VariableValue};
use crate::qmdb::operation::Key;
use crate::qmdb::operation::commit::{commit_variable_size, write_commit_variable};
use std::alloc::Global;
use storage_codec::NoMemory;
use storage_codec::codec::util::byte;
use storage_codec::codec::{Buf, Canonical, EncodeSize, Error, Read, Write};
use storage_merkle::merkle::{Family, Location};

/// Reads the value, or none, and the floor of a commit from the front of `buf`; the value's reader is told `cfg`.
#[tactic(auto, using(storage_codec::specs::Laws::Parts::ends_then))]
fn read_commit<F: Family, V: VariableValue, S: CodecUpdate + Update<Value = V>, B: Buf>(
    alloc: Global,
    buf: &mut B,
    cfg: &V::Cfg,
) -> Result<Operation<F, S>, Error>
    ensures gives { Gives (λ x. operation_map S.Key.view S.view V.view (parts x)) result
        (B.unread buf.new) (variable_commit_at (V.parse cfg.now) (B.unread buf.old)) }
    ensures ends { IsEnding (B.unread buf.old) (B.unread buf.new) }
{
    let value = Option::<V>::read_cfg(alloc, buf, cfg)?;
    match Location::<F>::read_cfg(alloc, buf, &()) {
        Ok(floor) => Ok(Operation::CommitFloor(value, floor)),
        Err(error) => Err(error),
    }
}

/// Returns how many bytes `operation` is written as; none if that is no `u64`.
#[tactic(auto, using(std::proofs::lemmas::Grind::common_steps))]
fn variable_size<F: Family, S: Update>(operation: &Operation<F, S>) -> Option<u64>
    ensures { result ≡ size_of (length (variable_operation_text
        (operation_map S.Key.text S.text S.Value.text (parts operation.now)))) }
{
    let payload = match operation {
        Operation::Delete(key) => key.encode_size(),
        Operation::Update(update) => update.encode_size(),
        Operation::CommitFloor(value, floor) => commit_variable_size(value, *floor),
    };
    payload?.checked_add(1)
}

impl<
    F: Family,
    V: VariableValue,
    S: CodecUpdate
        + Update<Value = V, ValueEncoding = VariableEncoding<V>>
        + Read<Cfg = (<S::Key as Read>::Cfg, <V as Read>::Cfg)>,
> OperationCodec<F, S> for VariableEncoding<V> {
    type ReadCfg = (<S::Key as Read>::Cfg, <V as Read>::Cfg);

    ghost operation_text = { variable_operation_text };

    ghost View = { OperationView S.Key.View S.View V.View };

    ghost operation_view = { operation_map S.Key.view S.view V.view };

    ghost operation_admits = { λ cfg.
        is_admitted (S.Key.admits cfg.0) (S.admits cfg) (V.admits cfg.1) (λ n. n ≤ max_leaves) };

    ghost operation_fits = { λ cfg.
        is_admitted (S.Key.admits cfg.0) (S.admits cfg) (V.admits cfg.1) (λ n. n < 2 ^ 64) };

    ghost operation_parse = { λ cfg.
        variable_operation_at (S.Key.parse cfg.0) (S.parse cfg) (V.parse cfg.1) };

    #[tactic(auto, using(storage_codec::specs::Laws::Parts::starts_cons, storage_codec::specs::Laws::Parts::starts_none))]
    fn write_operation(operation: &Operation<F, S>, out: &mut Vec<u8>) -> Result<(), NoMemory> {
        match operation {
            Operation::Delete(key) => write_tagged(DELETE_CONTEXT, key, out),
            Operation::Update(payload) => write_tagged(UPDATE_CONTEXT, payload, out),
            Operation::CommitFloor(metadata, floor) => {
                out.push(COMMIT_CONTEXT)?;
                write_commit_variable(metadata, *floor, out)
            }
        }
    }

    #[tactic(auto, using(storage_codec::specs::Laws::Parts::ends_then, storage_codec::specs::Laws::Parts::ends_same))]
    fn read_operation<B: Buf>(
        alloc: Global,
        buf: &mut B,
        cfg: &(<S::Key as Read>::Cfg, <V as Read>::Cfg),
    ) -> Result<Operation<F, S>, Error> {
        match byte(buf)? {
            DELETE_CONTEXT => Ok(Operation::Delete(S::Key::read_cfg(alloc, buf, &cfg.0)?)),
            UPDATE_CONTEXT => Ok(Operation::Update(S::read_cfg(alloc, buf, cfg)?)),
            COMMIT_CONTEXT => read_commit(alloc, buf, &cfg.1),
            other => Err(Error::InvalidEnum(other)),
        }
    }

    ghost operation_again = { λ cfg op rest h. variable_again S.Key.text S.text V.text S.Key.view
        S.view V.view (S.Key.parse cfg.0) (S.parse cfg) (V.parse cfg.1) (S.Key.admits cfg.0)
        (S.admits cfg) (V.admits cfg.1) (record { again = S.Key.again cfg.0 })
        (record { again = S.again cfg }) (record { again = V.again cfg.1 }) op rest h };

    ghost operation_one = { λ cfg x y p q e.
        operation_same S.Key.view S.view V.view S.seen S.same_seen x y (variable_one S.Key.text
        S.text V.text S.Key.view S.view V.view (S.Key.parse cfg.0) (S.parse cfg) (V.parse cfg.1)
        (S.Key.admits cfg.0) (S.admits cfg) (V.admits cfg.1) (record { again = S.Key.again cfg.0 })
        (record { again = S.again cfg }) (record { again = V.again cfg.1 }) x y p q e) };

    ghost operation_parts = { λ x y p q e.
        variable_parts S.Key.text S.text V.text V.view V.prefix_free x y e };

    ghost operation_same = { operation_same S.Key.view S.view V.view S.seen S.same_seen };
}

impl<F: Family, K: Key, V: VariableValue> EncodeSize
    for Operation<F, Ordered<K, VariableEncoding<V>>> {
    fn encode_size(&self) -> Option<u64> {
        variable_size::<F, Ordered<K, VariableEncoding<V>>>(self)
    }
}

impl<F: Family, K: Key, V: VariableValue> EncodeSize
    for Operation<F, Unordered<K, VariableEncoding<V>>> {
    fn encode_size(&self) -> Option<u64> {
        variable_size::<F, Unordered<K, VariableEncoding<V>>>(self)
    }
}

impl<F: Family, K: Key + Canonical, V: VariableValue + Canonical> Canonical
    for Operation<F, Ordered<K, VariableEncoding<V>>> {
    ghost back = { λ cfg bytes x rest fits e.
        variable_back K.text (λ u. K.text u.key ++ V.text u.value ++ K.text u.next_key) V.text
        K.view (λ u. (K.view u.key, V.view u.value, K.view u.next_key)) V.view (K.parse cfg.0)
        (ordered_at (K.parse cfg.0) (V.parse cfg.1)) (V.parse cfg.1)
        (record { back = K.back cfg.0 }) (record {
          back = λ b u r f p. ordered_back K.text V.text
              K.view V.view (K.parse cfg.0) (V.parse cfg.1) (record { back = K.back cfg.0 })
              (record { back = V.back cfg.1 }) b u.key u.value u.next_key r f p;
        })
        (record { back = V.back cfg.1 }) bytes (parts x) rest fits e };
}

impl<F: Family, K: Key + Canonical, V: VariableValue + Canonical> Canonical
    for Operation<F, Unordered<K, VariableEncoding<V>>> {
    ghost back = { λ cfg bytes x rest fits e. variable_back K.text (λ u. K.text u.0 ++ V.text u.1)
        V.text K.view (λ u. (K.view u.0, V.view u.1)) V.view (K.parse cfg.0) (unordered_at
        (K.parse cfg.0) (V.parse cfg.1)) (V.parse cfg.1) (record { back = K.back cfg.0 })
        (record {
          back = λ b u r f p. unordered_back K.text V.text K.view V.view (K.parse cfg.0)
              (V.parse cfg.1) (record { back = K.back cfg.0 }) (record { back = V.back cfg.1 }) b u.0 u.1
              r f p;
        }) (record { back = V.back cfg.1 }) bytes (parts x) rest fits e };
}
