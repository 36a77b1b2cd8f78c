//! Operations: updates, deletions and commits.

ghost use Rattle.std.specs.Prelude.{◌≡◌, ◌<◌, ◌^◌, ℕ, List, Ok, ◌∷◌, ◌++◌, IfOk, IfSome, OnOk, OnErr};
ghost use Rattle.storage_codec.specs.Codec.{Answer, Gives};
ghost use Rattle.storage_codec.specs.Parts.{AppendsStart, IsEnding};
ghost use Rattle.storage_ops.specs.Operations.{OperationView, operation_map, parts, operation_key, operation_floor, is_update, is_delete, is_commit};

mod display;
pub(crate) mod fixed;
pub mod update;
pub(crate) mod variable;

use crate::qmdb::any::value::ValueEncoding;
use crate::qmdb::operation;
pub use display::Displayed;
use std::alloc::Global;
use storage_codec::NoMemory;
use storage_codec::codec::{Buf, Codec, Error, Read, Write};
use storage_merkle::merkle::{Family, Location};
pub use update::Update;

/// Operations whose updates name the next key.
pub type Ordered<F, K, V> = Operation<F, update::Ordered<K, V>>;

/// Operations whose updates name no other key.
pub type Unordered<F, K, V> = Operation<F, update::Unordered<K, V>>;

/// The tag of a deletion.
pub const DELETE_CONTEXT: u8 = 0xD1;

/// The tag of an update.
pub const UPDATE_CONTEXT: u8 = 0xD2;

/// The tag of a commit.
pub const COMMIT_CONTEXT: u8 = 0xD3;

/// An operation of a database.
#[derive(Drop)]
#[derive_where(Debug; S, S::Value)]
#[derive_where(PartialEq; S, S::Value)]
pub enum Operation<F: Family, S: Update> {
    /// The key is removed.
    Delete(S::Key),
    /// The key gets a value.
    Update(S),
    /// A commit: its value, if it has one, and its floor, the location below which no operation is active.
    CommitFloor(Option<S::Value>, Location<F>),
}

/// How the operations over one encoding of values are written and read.
pub trait OperationCodec<F: Family, S: Update>: ValueEncoding {
    /// What the reader of an operation is told.
    type ReadCfg;

    /// The bytes of an operation, from those of its parts.
    ghost operation_text: { OperationView (List ℕ) (List ℕ) (List ℕ) → List ℕ };

    /// What is seen of an operation.
    ghost View: { Type 0 };

    /// What is seen of this operation.
    ghost operation_view: { OperationView S.Key S S.Value → View };

    /// The operation is one of the type, and the configuration admits it.
    ghost operation_admits: { Self.ReadCfg → OperationView S.Key S S.Value → Type 0 };

    /// The configuration admits the parts, and a floor is a `u64`, though it may be past those that are read.
    ghost operation_fits: { Self.ReadCfg → OperationView S.Key S S.Value → Type 0 };

    /// What reading answers for these bytes.
    ghost operation_parse: { Self.ReadCfg → List ℕ → Answer View };

    /// Appends to `out` the bytes of `operation`. `NoMemory` if `out` was refused a growth; then it holds its old bytes
    /// and a beginning of these.
    fn write_operation(operation: &Operation<F, S>, out: &mut Vec<u8>) -> Result<(), NoMemory>
        ensures ok { OnOk result (out.new.items ≡ out.old.items ++ operation_text
            (operation_map S.Key.text S.text S.Value.text (parts operation.now))) }
        ensures err { OnErr result (AppendsStart out.old.items out.new.items (operation_text
            (operation_map S.Key.text S.text S.Value.text (parts operation.now)))) };

    /// Reads an operation from the front of `buf`. After a refusal `buf` is at an ending of what it held.
    ///
    /// # Errors
    ///
    /// The first of: `EndOfBuffer` if the tag is missing, or a fixed operation has not all its bytes; `InvalidEnum`
    /// with a tag that no operation has; what the parts are refused for, one after the other; of a fixed operation
    /// `Invalid` if the bytes that fill it up are not zero. A floor past 2^62 is `Invalid`. `Memory` may come if a part
    /// takes memory.
    fn read_operation<B: Buf>(
        alloc: Global,
        buf: &mut B,
        cfg: &Self::ReadCfg,
    ) -> Result<Operation<F, S>, Error>
        ensures gives { Gives (λ x. operation_view (parts x)) result (B.unread buf.new)
            (operation_parse cfg.now (B.unread buf.old)) }
        ensures ends { IsEnding (B.unread buf.old) (B.unread buf.new) };

    /// What was written is read again, and what follows is left.
    ghost operation_again: { (cfg : Self.ReadCfg) (op : OperationView S.Key S S.Value) (rest : List ℕ) → Self.operation_admits cfg op → Self.operation_parse cfg (Self.operation_text (operation_map S.Key.text S.text S.Value.text op) ++ rest) ≡ Ok (Self.operation_view op, rest) };

    /// Equal encodings are of operations that are seen as equal.
    ghost operation_one: { (cfg : Self.ReadCfg) (x y : OperationView S.Key S S.Value) → Self.operation_fits cfg x → Self.operation_fits cfg y → Self.operation_text (operation_map S.Key.text S.text S.Value.text x) ≡ Self.operation_text (operation_map S.Key.text S.text S.Value.text y) → operation_map S.Key.view S.seen S.Value.view x ≡ operation_map S.Key.view S.seen S.Value.view y };

    /// Equal encodings have equal parts, where a commit's floor is a `u64`.
    ghost operation_parts: { (x y : OperationView S.Key S S.Value) → IfSome (operation_floor x) (λ n. n < 2 ^ 64) → IfSome (operation_floor y) (λ n. n < 2 ^ 64) → Self.operation_text (operation_map S.Key.text S.text S.Value.text x) ≡ Self.operation_text (operation_map S.Key.text S.text S.Value.text y) → operation_map S.Key.text S.text S.Value.text x ≡ operation_map S.Key.text S.text S.Value.text y };

    /// Operations that are seen as equal have parts that are seen as equal.
    ghost operation_same: { (x y : OperationView S.Key S S.Value) → Self.operation_view x ≡ Self.operation_view y → operation_map S.Key.view S.seen S.Value.view x ≡ operation_map S.Key.view S.seen S.Value.view y };
}

/// Appends to `out` the byte `tag`, and then what `value` is written as.
#[tactic(auto, using(storage_codec::specs::Laws::Parts::starts_cons, storage_codec::specs::Laws::Parts::starts_none))]
fn write_tagged<T: Write>(tag: u8, value: &T, out: &mut Vec<u8>) -> Result<(), NoMemory>
    ensures ok { OnOk result (out.new.items ≡ out.old.items ++ tag ∷ T.text value.now) }
    ensures err { OnErr result (AppendsStart out.old.items out.new.items
        (tag ∷ T.text value.now)) }
{
    out.push(tag)?;
    value.write(out)
}

impl<F: Family, S: Update> Write for Operation<F, S>
where
    S::ValueEncoding: OperationCodec<F, S>,
{
    ghost text = { λ x.
        S.ValueEncoding.operation_text (operation_map S.Key.text S.text S.Value.text (parts x)) };

    fn write(&self, out: &mut Vec<u8>) -> Result<(), NoMemory> {
        S::ValueEncoding::write_operation(self, out)
    }
}

impl<F: Family, S: Update> Read for Operation<F, S>
where
    S::ValueEncoding: OperationCodec<F, S>,
{
    type Cfg = <S::ValueEncoding as OperationCodec<F, S>>::ReadCfg;

    ghost View = { S.ValueEncoding.View };

    ghost view = { λ x. S.ValueEncoding.operation_view (parts x) };

    ghost admits = { λ cfg x. S.ValueEncoding.operation_admits cfg (parts x) };

    ghost parse = { S.ValueEncoding.operation_parse };

    fn read_cfg<B: Buf>(
        alloc: Global,
        buf: &mut B,
        cfg: &<S::ValueEncoding as OperationCodec<F, S>>::ReadCfg,
    ) -> Result<Operation<F, S>, Error> {
        S::ValueEncoding::read_operation(alloc, buf, cfg)
    }
}

impl<F: Family, S: Update> Codec for Operation<F, S>
where
    S::ValueEncoding: OperationCodec<F, S>,
{
    ghost again = { λ cfg x rest h. S.ValueEncoding.operation_again cfg (parts x) rest h };
}

impl<F: Family, S: Update> Operation<F, S> {
    /// Returns a copy of this operation, which is seen and written as it. Running out of memory is an error.
    pub fn clone(&self) -> Result<Self, NoMemory>
        ensures seen { IfOk result (λ x. operation_map S.Key.view S.seen S.Value.view (parts x)
            ≡ operation_map S.Key.view S.seen S.Value.view (parts self.now)) }
        ensures text { IfOk result (λ x. operation_map S.Key.text S.text S.Value.text (parts x)
            ≡ operation_map S.Key.text S.text S.Value.text (parts self.now)) }
    {
        Ok(match self {
            Operation::Delete(key) => Operation::Delete(key.clone()?),
            Operation::Update(update) => Operation::Update(Update::clone(update)?),
            Operation::CommitFloor(Some(value), floor) => {
                Operation::CommitFloor(Some(value.clone()?), *floor)
            }
            Operation::CommitFloor(None, floor) => Operation::CommitFloor(None, *floor),
        })
    }
}

impl<F: Family, S: Update> operation::Floored<F> for Operation<F, S> {
    ghost floor = { λ x. operation_floor (parts x) };

    fn has_floor(&self) -> Option<Location<F>> {
        match self {
            Operation::CommitFloor(_, floor) => Some(*floor),
            _ => None,
        }
    }
}

impl<F: Family, S: Update> operation::Operation<F> for Operation<F, S> {
    type Key = S::Key;

    ghost key_of = { λ x. operation_key S.key_of (parts x) };

    ghost updates = { λ x. is_update (parts x) };

    ghost deletes = { λ x. is_delete (parts x) };

    fn key(&self) -> Option<&S::Key> {
        match self {
            Operation::Delete(key) => Some(key),
            Operation::Update(update) => Some(update.key()),
            Operation::CommitFloor(_, _) => None,
        }
    }

    fn into_key(self) -> Option<S::Key> {
        match self {
            Operation::Delete(key) => Some(key),
            Operation::Update(update) => Some(update.into_key()),
            Operation::CommitFloor(_, _) => None,
        }
    }

    fn is_update(&self) -> bool {
        matches!(self, Operation::Update(_))
    }

    fn is_delete(&self) -> bool {
        matches!(self, Operation::Delete(_))
    }
}

impl<F: Family, S: Update> operation::Committable for Operation<F, S> {
    ghost commits = { λ x. is_commit (parts x) };

    fn is_commit(&self) -> bool {
        matches!(self, Operation::CommitFloor(_, _))
    }
}
