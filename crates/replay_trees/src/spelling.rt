//! How keys, values and operations are spelled in the lists.

use replay_columns::answers::{Answer, At, Lent};
use replay_columns::columns::{Fault, array, bytes, halves, number};
use std::alloc::Global;
use storage_codec::codec::{FixedBytes, U64};
use storage_merkle::merkle::{Location, mmr};
use storage_ops::qmdb::any::operation::{Operation, Update, update};
use storage_ops::qmdb::any::value::ValueEncoding;
use storage_ops::qmdb::operation::Key;

/// What a spelling in a list is read as.
pub trait Parse: Sized {
    /// Returns the value of a spelling.
    fn parse(alloc: Global, text: &str) -> Result<Self, Fault>;
}

/// A value that is spelled in a list.
pub trait Spell: Parse {
    /// Adds its spelling at the end of a text.
    fn spell(&self, out: &mut String) -> Result<(), Fault>;
}

impl<const N: usize> Parse for FixedBytes<N> {
    fn parse(_alloc: Global, text: &str) -> Result<FixedBytes<N>, Fault> {
        if N > 1 << 32 {
            return Err(Fault::Malformed);
        }
        Ok(FixedBytes {
            bytes: array(text)?,
        })
    }
}

impl Parse for U64 {
    fn parse(_alloc: Global, text: &str) -> Result<U64, Fault> {
        Ok(U64(FixedBytes {
            bytes: array(text)?,
        }))
    }
}

impl Parse for u64 {
    fn parse(_alloc: Global, text: &str) -> Result<u64, Fault> {
        Ok(u64::from_be_bytes(array(text)?))
    }
}

impl Spell for u64 {
    fn spell(&self, out: &mut String) -> Result<(), Fault> {
        self.to_be_bytes().tell(out)
    }
}

impl Parse for Vec<u8> {
    fn parse(alloc: Global, text: &str) -> Result<Vec<u8>, Fault> {
        bytes(alloc, text)
    }
}

impl Spell for Vec<u8> {
    fn spell(&self, out: &mut String) -> Result<(), Fault> {
        self.tell(out)
    }
}

impl<K: Key + Parse, V: ValueEncoding> Parse for update::Ordered<K, V>
where
    V::Value: Spell,
{
    fn parse(alloc: Global, text: &str) -> Result<update::Ordered<K, V>, Fault> {
        let (key, rest) = halves(text, ':')?;
        let (value, next_key) = halves(rest, ':')?;
        Ok(update::Ordered {
            key: K::parse(alloc, key)?,
            value: V::Value::parse(alloc, value)?,
            next_key: K::parse(alloc, next_key)?,
        })
    }
}

impl<K: Key + Parse, V: ValueEncoding> Spell for update::Ordered<K, V>
where
    V::Value: Spell,
{
    fn spell(&self, out: &mut String) -> Result<(), Fault> {
        Lent(self.key.bytes()).tell(out)?;
        out.push(':')?;
        self.value.spell(out)?;
        out.push(':')?;
        Lent(self.next_key.bytes()).tell(out)
    }
}

impl<K: Key + Parse, V: ValueEncoding> Parse for update::Unordered<K, V>
where
    V::Value: Spell,
{
    fn parse(alloc: Global, text: &str) -> Result<update::Unordered<K, V>, Fault> {
        let (key, value) = halves(text, ':')?;
        Ok(update::Unordered(K::parse(alloc, key)?, V::Value::parse(alloc, value)?))
    }
}

impl<K: Key + Parse, V: ValueEncoding> Spell for update::Unordered<K, V>
where
    V::Value: Spell,
{
    fn spell(&self, out: &mut String) -> Result<(), Fault> {
        Lent(self.0.bytes()).tell(out)?;
        out.push(':')?;
        self.1.spell(out)
    }
}

/// Returns the value of a commit and its floor; `none` is no value.
fn parse_commit<V: Parse>(alloc: Global, text: &str) -> Result<(Option<V>, u64), Fault> {
    let (value, floor) = halves(text, ':')?;
    let floor = number(floor)?;
    match value {
        "none" => Ok((None, floor)),
        value => Ok((Some(V::parse(alloc, value)?), floor)),
    }
}

impl<S: Update + Spell> Parse for Operation<mmr::Family, S>
where
    S::Key: Parse,
    S::Value: Spell,
{
    fn parse(alloc: Global, text: &str) -> Result<Operation<mmr::Family, S>, Fault> {
        let (kind, rest) = halves(text, ':')?;
        match kind {
            "delete" => Ok(Operation::Delete(S::Key::parse(alloc, rest)?)),
            "update" => Ok(Operation::Update(S::parse(alloc, rest)?)),
            "commit" => {
                let (value, floor) = parse_commit(alloc, rest)?;
                Ok(Operation::CommitFloor(value, Location::new(floor)))
            }
            _ => Err(Fault::Malformed),
        }
    }
}

impl<S: Update + Spell> Spell for Operation<mmr::Family, S>
where
    S::Key: Parse,
    S::Value: Spell,
{
    fn spell(&self, out: &mut String) -> Result<(), Fault> {
        match self {
            Operation::Delete(key) => At("delete", Lent(key.bytes())).tell(out),
            Operation::Update(update) => {
                out.push_str("update:")?;
                update.spell(out)
            }
            Operation::CommitFloor(value, floor) => spell_commit(
                out,
                value.as_ref(),
                floor.as_u64(),
            ),
        }
    }
}

/// Adds the value of a commit, `none` for none, and its floor.
fn spell_commit<V: Spell>(out: &mut String, value: Option<&V>, floor: u64) -> Result<(), Fault> {
    out.push_str("commit:")?;
    match value {
        Some(value) => value.spell(out)?,
        None => out.push_str("none")?,
    }
    Ok(write!(out, ":{floor}")?)
}

/// An operation that is displayed.
pub trait Show {
    /// Returns its text.
    fn show(&self, alloc: Global) -> Result<String, Fault>;
}

impl<S: Update> Show for Operation<mmr::Family, S> {
    fn show(&self, alloc: Global) -> Result<String, Fault> {
        Ok(self.display(alloc).to_string(alloc)?)
    }
}
