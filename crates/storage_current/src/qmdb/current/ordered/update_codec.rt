//! How updates that name the next key are read.

ghost use Rattle.std.specs.Prelude.{◌≡◌};
ghost use Rattle.storage_codec.specs.Codec.{Gives};
ghost use Rattle.storage_codec.specs.Parts.{IsEnding};
ghost use Rattle.storage_ops.specs.Updates.{ordered_at};

use std::alloc::Global;
use storage_codec::codec::{Buf, Error, Read};
use storage_ops::qmdb::any::operation::update::Ordered;
use storage_ops::qmdb::any::value::{
    FixedEncoding, FixedValue, ValueEncoding, VariableEncoding, VariableValue,
};
use storage_ops::qmdb::operation::Key;

/// How updates that name the next key are read, for one encoding of values.
pub trait UpdateCodec<K: Key>: ValueEncoding {
    /// What the reader of an update is told.
    type UpdateCfg;

    /// What the reader of the keys is told.
    ghost key_cfg: { Self.UpdateCfg → K.Cfg };

    /// What the reader of the value is told.
    ghost value_cfg: { Self.UpdateCfg → Self.Value.Cfg };

    /// Reads an update, its key, value and next key, from the front of `buf`. Refuses as the readers of these do, in
    /// this order; then `buf` is at an ending of what it held.
    fn read_update<B: Buf>(
        alloc: Global,
        buf: &mut B,
        cfg: &Self::UpdateCfg,
    ) -> Result<Ordered<K, Self>, Error>
    where
        Self: Sized,
        ensures gives { Gives (λ u. (K.view u.key, Self.Value.view u.value, K.view u.next_key))
            result (B.unread buf.new) (ordered_at (K.parse (key_cfg cfg.now))
            (Self.Value.parse (value_cfg cfg.now)) (B.unread buf.old)) }
        ensures ends { IsEnding (B.unread buf.old) (B.unread buf.new) };
}

impl<K: Key + Read<Cfg = ()>, V: FixedValue> UpdateCodec<K> for FixedEncoding<V> {
    type UpdateCfg = ();

    ghost key_cfg = { λ _. tt };

    ghost value_cfg = { λ _. tt };

    fn read_update<B: Buf>(
        alloc: Global,
        buf: &mut B,
        cfg: &(),
    ) -> Result<Ordered<K, FixedEncoding<V>>, Error> {
        Ordered::<K, FixedEncoding<V>>::read_cfg(alloc, buf, cfg)
    }
}

impl<K: Key, V: VariableValue> UpdateCodec<K> for VariableEncoding<V> {
    type UpdateCfg = (<K as Read>::Cfg, <V as Read>::Cfg);

    ghost key_cfg = { λ cfg. cfg.0 };

    ghost value_cfg = { λ cfg. cfg.1 };

    fn read_update<B: Buf>(
        alloc: Global,
        buf: &mut B,
        cfg: &(<K as Read>::Cfg, <V as Read>::Cfg),
    ) -> Result<Ordered<K, VariableEncoding<V>>, Error> {
        Ordered::<K, VariableEncoding<V>>::read_cfg(alloc, buf, cfg)
    }
}
