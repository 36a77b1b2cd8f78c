//! Nodes of a tree that keeps some of them: as they are kept, or hashed from those below.

ghost use Rattle.std.specs.Prelude.{◌≡◌, ◌+◌, ◌%◌, ◌^◌, ◌<◌, ◌≤◌, ◌↔◌, IsTrue, option_map};
ghost use Rattle.storage_merkle.specs.Hashing.{join_digest};
ghost use Rattle.storage_current.specs.GraftedTrees.{IsCoverable, IsKeptIn, TakesMade, rebuilt};

use crate::qmdb::current::grafting::power;
use storage_merkle::merkle::hasher::Hasher;
use storage_merkle::merkle::{Family, Position, Readable};

/// Returns the digest of the node of height `height` over the leaves from `first` on, as far as it can be had from the
/// nodes that `tree` keeps: the one that is kept, or else hashed from those of its children, where both can be had.
/// Where it cannot be had nothing is hashed, and else each node once that is not kept. Allocates nothing.
pub(crate) fn node_of<F: Family, R: Readable<Family = F>, H: Hasher<F, Digest = R::Digest>>(
    tree: &R,
    hasher: &H,
    first: u64,
    height: u32,
) -> Option<R::Digest>
    requires high { height ≤ 62 }
    requires aligned { first % 2 ^ height ≡ 0 }
    requires fits { F.shape.position first height < 2 ^ 64 }
    requires takes { TakesMade (IsKeptIn F.shape (R.node tree.now))
        (λ a k. H.takes hasher.now (F.shape.position a k)) height first }
    ensures { option_map R.Digest.text result ≡ rebuilt F.shape
        (join_digest H.hash_of (H.layout hasher.now) (H.chunk hasher.now))
        (λ p. option_map R.Digest.text (R.node tree.now p)) height first }
{
    let kept = tree.get_node(Position::new(F::position(first, height)));
    if kept.is_some() {
        return kept;
    }
    if !is_coverable::<F, R>(tree, first, height) {
        return None;
    }
    rebuild(tree, hasher, first, height)
}

/// Returns whether the node of height `height` over the leaves from `first` on is kept by `tree`, or is no leaf and
/// both its children are coverable in their turn. Hashes nothing.
fn is_coverable<F: Family, R: Readable<Family = F>>(tree: &R, first: u64, height: u32) -> bool
    requires high { height ≤ 62 }
    requires aligned { first % 2 ^ height ≡ 0 }
    requires fits { F.shape.position first height < 2 ^ 64 }
    ensures { IsTrue result ↔ IsCoverable (IsKeptIn F.shape (R.node tree.now)) 0 height first }
{
    let position = Position::new(F::position(first, height));
    if tree.get_node(position).is_some() {
        return true;
    }
    if height == 0 {
        return false;
    }
    if !is_coverable::<F, R>(tree, first, height - 1) {
        return false;
    }
    is_coverable::<F, R>(tree, first + power(height - 1), height - 1)
}

/// Returns the digest of the node of height `height` over the leaves from `first` on: the one that is kept, or else
/// hashed from those of its children. Callers ask only if it can be had, so that no hash is in vain.
fn rebuild<F: Family, R: Readable<Family = F>, H: Hasher<F, Digest = R::Digest>>(
    tree: &R,
    hasher: &H,
    first: u64,
    height: u32,
) -> Option<R::Digest>
    requires high { height ≤ 62 }
    requires aligned { first % 2 ^ height ≡ 0 }
    requires fits { F.shape.position first height < 2 ^ 64 }
    requires takes { TakesMade (IsKeptIn F.shape (R.node tree.now))
        (λ a k. H.takes hasher.now (F.shape.position a k)) height first }
    ensures { option_map R.Digest.text result ≡ rebuilt F.shape
        (join_digest H.hash_of (H.layout hasher.now) (H.chunk hasher.now))
        (λ p. option_map R.Digest.text (R.node tree.now p)) height first }
{
    let position = Position::new(F::position(first, height));
    let kept = tree.get_node(position);
    if kept.is_some() || height == 0 {
        return kept;
    }
    let left = rebuild(tree, hasher, first, height - 1)?;
    let right = rebuild(tree, hasher, first + power(height - 1), height - 1)?;
    Some(hasher.node_digest_over(first, height, &left, &right))
}
