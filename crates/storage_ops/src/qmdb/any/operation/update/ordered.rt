//! Updates that name the next key.

ghost use Rattle.std.specs.Prelude.{◌≡◌, ℕ, List, ◌+◌, ◌++◌, true, IfOk, OnOk, OnErr};
ghost use Rattle.storage_codec.specs.Codec.{Gives};
ghost use Rattle.storage_codec.specs.Parts.{AppendsStart, IsEnding};
ghost use Rattle.hex.specs.Hex.{encode_lower};
ghost use Rattle.storage_ops.specs.Shown.{shown_ordered};
ghost use Rattle.storage_ops.specs.Updates.{ordered_at};
ghost use Rattle.storage_ops.specs.Laws.Updates.{ordered_again, ordered_back, ordered_sized, three_small};

use crate::qmdb::any::operation::display::{hex_of_bytes, hex_of_value};
use crate::qmdb::any::operation::update::{
    CodecUpdate, FixedUpdate, Update as UpdateTrait, sealed, sum_of_sizes, write_pair,
};
use crate::qmdb::any::value::{
    FixedEncoding, FixedValue, ValueEncoding, VariableEncoding, VariableValue,
};
use crate::qmdb::operation::Key;
use std::alloc::Global;
use std::fmt;
use std::ops::Deref;
use storage_codec::NoMemory;
use storage_codec::codec::{
    Buf, Canonical, Codec, EncodeSize, Error, FixedSize, Read, Small, Write, small_size,
};

/// An update that names the next key.
#[derive(Drop)]
#[derive_where(Debug; V::Value)]
#[derive_where(PartialEq; V::Value)]
#[derive_where(Eq; V::Value)]
pub struct Update<K: Key, V: ValueEncoding> {
    /// The key that gets the value.
    pub key: K,
    /// The value that the key gets.
    pub value: V::Value,
    /// The next greater active key; that of the greatest key is the least one.
    pub next_key: K,
}

impl<K: Key, V: ValueEncoding> Update<K, V> {
    /// Returns a copy of this update, which is seen and written as it. Running out of memory is an error.
    pub fn clone(&self) -> Result<Update<K, V>, NoMemory>
        ensures seen { IfOk result (λ u. ◌≡◌ {A = K.View × V.Value.View × K.View}
            (K.view u.key, V.Value.view u.value, K.view u.next_key)
            (K.view self.now.key, V.Value.view self.now.value, K.view self.now.next_key)) }
        ensures text { IfOk result (λ u. K.text u.key ++ V.Value.text u.value ++ K.text u.next_key
            ≡ K.text self.now.key ++ V.Value.text self.now.value ++ K.text self.now.next_key) }
    {
        Ok(Update {
            key: self.key.clone()?,
            value: self.value.clone()?,
            next_key: self.next_key.clone()?,
        })
    }
}

impl<K: Key, V: ValueEncoding> sealed::Sealed for Update<K, V> {}

impl<K: Key, V: ValueEncoding> UpdateTrait for Update<K, V> {
    type Key = K;

    type Value = V::Value;

    type ValueEncoding = V;

    ghost Seen = { K.View × V.Value.View × K.View };

    ghost seen = { λ u. (K.view u.key, V.Value.view u.value, K.view u.next_key) };

    ghost key_of = { λ u. u.key };

    ghost value_of = { λ u. u.value };

    fn key(&self) -> &K {
        &self.key
    }

    fn into_key(self) -> K {
        self.key
    }

    fn value(&self) -> &V::Value {
        &self.value
    }

    fn into_value(self) -> V::Value {
        self.value
    }

    type Cached = K;

    ghost is_cached = { λ u c. (K.view c ≡ K.view u.next_key) × (K.text c ≡ K.text u.next_key) };

    ghost depends = { true };

    fn cached<R: Deref<Target = Self> + Drop, C: FnOnce() -> R + Drop>(
        update: C,
    ) -> Result<K, NoMemory> {
        let update = update();
        Ok(update.deref().next_key.clone()?)
    }

    ghost shown = { λ u. shown_ordered (encode_lower (K.bytes_of u.key))
        (encode_lower (K.bytes_of u.next_key)) (encode_lower (V.Value.text u.value)) };

    fn fmt<W: fmt::Write>(&self, alloc: Global, f: &mut fmt::Formatter<W>) -> fmt::Result {
        let key = hex_of_bytes(alloc, self.key.bytes())?;
        let next_key = hex_of_bytes(alloc, self.next_key.bytes())?;
        let value = hex_of_value(alloc, &self.value)?;
        write!(f, "[key:{key} next_key:{next_key} value:{value}]")
    }

    fn clone(&self) -> Result<Update<K, V>, NoMemory> {
        self.clone()
    }
}

impl<K: Key, V: ValueEncoding> Write for Update<K, V> {
    ghost text = { λ u. K.text u.key ++ V.Value.text u.value ++ K.text u.next_key };

    #[tactic(auto, using(storage_codec::specs::Laws::Parts::starts_then, storage_codec::specs::Laws::Parts::starts_first))]
    fn write(&self, out: &mut Vec<u8>) -> Result<(), NoMemory> {
        write_pair(&self.key, &self.value, out)?;
        self.next_key.write(out)?;
        Ok(())
    }
}

/// Reads the key, the value and the next key, one after another, from the front of `buf`; the reader of a key is told
/// `key`, that of the value `value`. Refuses as the first of them that does.
#[tactic(auto, using(storage_codec::specs::Laws::Parts::ends_then))]
fn read<K: Key, V: ValueEncoding, B: Buf>(
    alloc: Global,
    buf: &mut B,
    key: &K::Cfg,
    value: &<V::Value as Read>::Cfg,
) -> Result<Update<K, V>, Error>
    ensures gives { Gives (λ u. (K.view u.key, V.Value.view u.value, K.view u.next_key)) result
        (B.unread buf.new)
        (ordered_at (K.parse key.now) (V.Value.parse value.now) (B.unread buf.old)) }
    ensures ends { IsEnding (B.unread buf.old) (B.unread buf.new) }
{
    let read_key = K::read_cfg(alloc, buf, key)?;
    let read_value = V::Value::read_cfg(alloc, buf, value)?;
    let next_key = K::read_cfg(alloc, buf, key)?;
    Ok(Update {
        key: read_key,
        value: read_value,
        next_key,
    })
}

impl<K: Key + Small + Read<Cfg = ()>, V: FixedValue> FixedSize for Update<K, FixedEncoding<V>> {
    ghost size = { K.size + V.size + K.size };

    fn fixed_size() -> usize {
        let key = small_size::<K>();
        key + small_size::<V>() + key
    }

    ghost sized = { λ u.
        ordered_sized K.text V.text K.size V.size K.sized V.sized u.key u.value u.next_key };
}

impl<K: Key + Read<Cfg = ()>, V: FixedValue> Read for Update<K, FixedEncoding<V>> {
    type Cfg = ();

    ghost View = { K.View × V.View × K.View };

    ghost view = { λ u. (K.view u.key, V.view u.value, K.view u.next_key) };

    ghost admits = { λ _ u. K.admits tt u.key × V.admits tt u.value × K.admits tt u.next_key };

    ghost parse = { λ _. ordered_at (K.parse tt) (V.parse tt) };

    fn read_cfg<B: Buf>(
        alloc: Global,
        buf: &mut B,
        _cfg: &(),
    ) -> Result<Update<K, FixedEncoding<V>>, Error> {
        read(alloc, buf, &(), &())
    }
}

impl<K: Key, V: ValueEncoding> EncodeSize for Update<K, V> {
    #[tactic(auto, using(std::proofs::lemmas::Grind::common_steps))]
    fn encode_size(&self) -> Option<u64> {
        let pair = sum_of_sizes(self.key.encode_size(), self.value.encode_size());
        sum_of_sizes(pair, self.next_key.encode_size())
    }
}

impl<K: Key, V: VariableValue> Read for Update<K, VariableEncoding<V>> {
    type Cfg = (K::Cfg, V::Cfg);

    ghost View = { K.View × V.View × K.View };

    ghost view = { λ u. (K.view u.key, V.view u.value, K.view u.next_key) };

    ghost admits = { λ cfg u.
        K.admits cfg.0 u.key × V.admits cfg.1 u.value × K.admits cfg.0 u.next_key };

    ghost parse = { λ cfg. ordered_at (K.parse cfg.0) (V.parse cfg.1) };

    fn read_cfg<B: Buf>(
        alloc: Global,
        buf: &mut B,
        cfg: &(K::Cfg, V::Cfg),
    ) -> Result<Update<K, VariableEncoding<V>>, Error> {
        read(alloc, buf, &cfg.0, &cfg.1)
    }
}

impl<K: Key + Read<Cfg = ()>, V: FixedValue> Codec for Update<K, FixedEncoding<V>> {
    ghost again = { λ _ u rest h. ordered_again K.text V.text K.view V.view (K.parse tt)
        (V.parse tt) (K.admits tt) (V.admits tt) (record { again = K.again tt })
        (record { again = V.again tt }) u.key u.value u.next_key rest h };
}

impl<K: Key, V: VariableValue> Codec for Update<K, VariableEncoding<V>> {
    ghost again = { λ cfg u rest h. ordered_again K.text V.text K.view V.view (K.parse cfg.0)
        (V.parse cfg.1) (K.admits cfg.0) (V.admits cfg.1) (record { again = K.again cfg.0 })
        (record { again = V.again cfg.1 }) u.key u.value u.next_key rest h };
}

impl<K: Key + Canonical + Read<Cfg = ()>, V: FixedValue + Canonical> Canonical
    for Update<K, FixedEncoding<V>> {
    ghost back = { λ _ bytes u rest fits e. ordered_back K.text V.text K.view V.view (K.parse tt)
        (V.parse tt) (record { back = K.back tt })
        (record { back = V.back tt }) bytes u.key u.value u.next_key rest fits e };
}

impl<K: Key + Canonical, V: VariableValue + Canonical> Canonical
    for Update<K, VariableEncoding<V>> {
    ghost back = { λ cfg bytes u rest fits e. ordered_back K.text V.text K.view V.view
        (K.parse cfg.0) (V.parse cfg.1) (record { back = K.back cfg.0 })
        (record { back = V.back cfg.1 }) bytes u.key u.value u.next_key rest fits e };
}

impl<K: Key + Read<Cfg = ()>, V: FixedValue> CodecUpdate for Update<K, FixedEncoding<V>> {
    ghost same_seen = { λ x y e. e };
}

impl<K: Key, V: VariableValue> CodecUpdate for Update<K, VariableEncoding<V>> {
    ghost same_seen = { λ x y e. e };
}

impl<K: Key + Small + Read<Cfg = ()>, V: FixedValue> FixedUpdate for Update<K, FixedEncoding<V>> {
    ghost few = { three_small K.size V.size K.small V.small };
}
