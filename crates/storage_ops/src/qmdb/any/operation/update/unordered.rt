//! Updates that name no other key.

ghost use Rattle.std.specs.Prelude.{◌≡◌, ℕ, List, ◌+◌, ◌++◌, false, IfOk, OnOk, OnErr};
ghost use Rattle.storage_codec.specs.Codec.{Gives};
ghost use Rattle.storage_codec.specs.Parts.{AppendsStart, IsEnding};
ghost use Rattle.hex.specs.Hex.{encode_lower};
ghost use Rattle.storage_ops.specs.Shown.{shown_unordered};
ghost use Rattle.storage_ops.specs.Updates.{unordered_at};
ghost use Rattle.storage_ops.specs.Laws.Updates.{unordered_again, unordered_back, unordered_sized, two_small};

use crate::qmdb::any::operation::display::{hex_of_bytes, hex_of_value};
use crate::qmdb::any::operation::update::{
    CodecUpdate, FixedUpdate, Update as UpdateTrait, sealed, sum_of_sizes, write_pair,
};
use crate::qmdb::any::value::{
    FixedEncoding, FixedValue, ValueEncoding, VariableEncoding, VariableValue,
};
use crate::qmdb::operation::Key;
use std::alloc::Global;
use std::fmt;
use std::ops::Deref;
use storage_codec::NoMemory;
use storage_codec::codec::{
    Buf, Canonical, Codec, EncodeSize, Error, FixedSize, Read, Small, Write, small_size,
};

/// An update of a key's value, as (key, value).
#[derive(Drop)]
#[derive_where(Debug; V::Value)]
#[derive_where(PartialEq; V::Value)]
#[derive_where(Eq; V::Value)]
pub struct Update<K: Key, V: ValueEncoding>(pub K, pub V::Value);

impl<K: Key, V: ValueEncoding> Update<K, V> {
    /// Returns a copy of this update, which is seen and written as it. Running out of memory is an error.
    pub fn clone(&self) -> Result<Update<K, V>, NoMemory>
        ensures seen { IfOk result (λ u. ◌≡◌ {A = K.View × V.Value.View}
            (K.view u.0, V.Value.view u.1) (K.view self.now.0, V.Value.view self.now.1)) }
        ensures text { IfOk result (λ u.
            K.text u.0 ++ V.Value.text u.1 ≡ K.text self.now.0 ++ V.Value.text self.now.1) }
    {
        Ok(Update(self.0.clone()?, self.1.clone()?))
    }
}

impl<K: Key, V: ValueEncoding> sealed::Sealed for Update<K, V> {}

impl<K: Key, V: ValueEncoding> UpdateTrait for Update<K, V> {
    type Key = K;

    type Value = V::Value;

    type ValueEncoding = V;

    ghost Seen = { K.View × V.Value.View };

    ghost seen = { λ u. (K.view u.0, V.Value.view u.1) };

    ghost key_of = { λ u. u.0 };

    ghost value_of = { λ u. u.1 };

    fn key(&self) -> &K {
        &self.0
    }

    fn into_key(self) -> K {
        self.0
    }

    fn value(&self) -> &V::Value {
        &self.1
    }

    fn into_value(self) -> V::Value {
        self.1
    }

    type Cached = ();

    ghost is_cached = { λ _ _. Unit {0} };

    ghost depends = { false };

    fn cached<R: Deref<Target = Self> + Drop, C: FnOnce() -> R + Drop>(
        _update: C,
    ) -> Result<(), NoMemory> {
        Ok(())
    }

    ghost shown = { λ u.
        shown_unordered (encode_lower (K.bytes_of u.0)) (encode_lower (V.Value.text u.1)) };

    fn fmt<W: fmt::Write>(&self, alloc: Global, f: &mut fmt::Formatter<W>) -> fmt::Result {
        let key = hex_of_bytes(alloc, self.0.bytes())?;
        let value = hex_of_value(alloc, &self.1)?;
        write!(f, "[key:{key} value:{value}]")
    }

    fn clone(&self) -> Result<Update<K, V>, NoMemory> {
        self.clone()
    }
}

impl<K: Key, V: ValueEncoding> Write for Update<K, V> {
    ghost text = { λ u. K.text u.0 ++ V.Value.text u.1 };

    #[tactic(auto, using(storage_codec::specs::Laws::Parts::starts_then, storage_codec::specs::Laws::Parts::starts_first))]
    fn write(&self, out: &mut Vec<u8>) -> Result<(), NoMemory> {
        write_pair(&self.0, &self.1, out)
    }
}

/// Reads the key and the value, one after the other, from the front of `buf`, whose readers are told `key` and
/// `value`. Refuses as the first of them that does.
#[tactic(auto, using(storage_codec::specs::Laws::Parts::ends_then))]
fn read<K: Key, V: ValueEncoding, B: Buf>(
    alloc: Global,
    buf: &mut B,
    key: &K::Cfg,
    value: &<V::Value as Read>::Cfg,
) -> Result<Update<K, V>, Error>
    ensures gives { Gives (λ u. (K.view u.0, V.Value.view u.1)) result (B.unread buf.new)
        (unordered_at (K.parse key.now) (V.Value.parse value.now) (B.unread buf.old)) }
    ensures ends { IsEnding (B.unread buf.old) (B.unread buf.new) }
{
    let read_key = K::read_cfg(alloc, buf, key)?;
    let read_value = V::Value::read_cfg(alloc, buf, value)?;
    Ok(Update(read_key, read_value))
}

impl<K: Key + Small + Read<Cfg = ()>, V: FixedValue> FixedSize for Update<K, FixedEncoding<V>> {
    ghost size = { K.size + V.size };

    fn fixed_size() -> usize {
        small_size::<K>() + small_size::<V>()
    }

    ghost sized = { λ u. unordered_sized K.text V.text K.size V.size K.sized V.sized u.0 u.1 };
}

impl<K: Key + Read<Cfg = ()>, V: FixedValue> Read for Update<K, FixedEncoding<V>> {
    type Cfg = ();

    ghost View = { K.View × V.View };

    ghost view = { λ u. (K.view u.0, V.view u.1) };

    ghost admits = { λ _ u. K.admits tt u.0 × V.admits tt u.1 };

    ghost parse = { λ _. unordered_at (K.parse tt) (V.parse tt) };

    fn read_cfg<B: Buf>(
        alloc: Global,
        buf: &mut B,
        _cfg: &(),
    ) -> Result<Update<K, FixedEncoding<V>>, Error> {
        read(alloc, buf, &(), &())
    }
}

impl<K: Key, V: ValueEncoding> EncodeSize for Update<K, V> {
    #[tactic(auto, using(std::proofs::lemmas::Grind::common_steps))]
    fn encode_size(&self) -> Option<u64> {
        sum_of_sizes(self.0.encode_size(), self.1.encode_size())
    }
}

impl<K: Key, V: VariableValue> Read for Update<K, VariableEncoding<V>> {
    type Cfg = (K::Cfg, V::Cfg);

    ghost View = { K.View × V.View };

    ghost view = { λ u. (K.view u.0, V.view u.1) };

    ghost admits = { λ cfg u. K.admits cfg.0 u.0 × V.admits cfg.1 u.1 };

    ghost parse = { λ cfg. unordered_at (K.parse cfg.0) (V.parse cfg.1) };

    fn read_cfg<B: Buf>(
        alloc: Global,
        buf: &mut B,
        cfg: &(K::Cfg, V::Cfg),
    ) -> Result<Update<K, VariableEncoding<V>>, Error> {
        read(alloc, buf, &cfg.0, &cfg.1)
    }
}

impl<K: Key + Read<Cfg = ()>, V: FixedValue> Codec for Update<K, FixedEncoding<V>> {
    ghost again = { λ _ u rest h. unordered_again K.text V.text K.view V.view (K.parse tt)
        (V.parse tt) (K.admits tt) (V.admits tt) (record { again = K.again tt })
        (record { again = V.again tt }) u.0 u.1 rest h };
}

impl<K: Key, V: VariableValue> Codec for Update<K, VariableEncoding<V>> {
    ghost again = { λ cfg u rest h. unordered_again K.text V.text K.view V.view (K.parse cfg.0)
        (V.parse cfg.1) (K.admits cfg.0) (V.admits cfg.1) (record { again = K.again cfg.0 })
        (record { again = V.again cfg.1 }) u.0 u.1 rest h };
}

impl<K: Key + Canonical + Read<Cfg = ()>, V: FixedValue + Canonical> Canonical
    for Update<K, FixedEncoding<V>> {
    ghost back = { λ _ bytes u rest fits e.
        unordered_back K.text V.text K.view V.view (K.parse tt) (V.parse tt)
        (record { back = K.back tt }) (record { back = V.back tt }) bytes u.0 u.1 rest fits e };
}

impl<K: Key + Canonical, V: VariableValue + Canonical> Canonical
    for Update<K, VariableEncoding<V>> {
    ghost back = { λ cfg bytes u rest fits e. unordered_back K.text V.text K.view V.view
        (K.parse cfg.0) (V.parse cfg.1) (record { back = K.back cfg.0 })
        (record { back = V.back cfg.1 }) bytes u.0 u.1 rest fits e };
}

impl<K: Key + Read<Cfg = ()>, V: FixedValue> CodecUpdate for Update<K, FixedEncoding<V>> {
    ghost same_seen = { λ x y e. e };
}

impl<K: Key, V: VariableValue> CodecUpdate for Update<K, VariableEncoding<V>> {
    ghost same_seen = { λ x y e. e };
}

impl<K: Key + Small + Read<Cfg = ()>, V: FixedValue> FixedUpdate for Update<K, FixedEncoding<V>> {
    ghost few = { two_small K.size V.size K.small V.small };
}
