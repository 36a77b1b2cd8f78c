//! A tree over chunks and a tree over the operations, read as one.
//!
//! ```text
//! height of a position         taken from
//! below G                      the tree over the operations
//! G and above                  the tree over chunks: as it is kept, or hashed from its nodes below
//! ```
//!
//! A pruned tree over chunks keeps no inner node, so that such a node is hashed from the leaves below it. Nothing is hashed
//! for a node that cannot be had, because the nodes below are looked up first.

ghost use Rattle.std.specs.Prelude.{◌≡◌, ℕ, ◌+◌, ◌%◌, ◌^◌, ◌<◌, ◌≤◌, ◌∷◌, ◌⊎◌, ◌↔◌, [], List, length, map, IfOk, MatchOption, MatchResult, Err, Some, None, Option};
ghost use Rattle.std.specs.List.{All};
ghost use Rattle.storage_merkle.specs.Plans.{IsFirstAbsent, IsFirstFault};
ghost use Rattle.storage_merkle.specs.Nodes.{CoversSame};
ghost use Rattle.storage_merkle.specs.Shape.{size, max_leaves};
ghost use Rattle.storage_current.specs.Combined.{IsOfOperations, joined};
ghost use Rattle.storage_current.specs.GraftedTrees.{regrafted};
ghost use Rattle.storage_current.specs.Splits.{IsLook, IsSplit, filled, gaps};
ghost use Rattle.storage_current.specs.declared.qmdb.current.grafting.storage.Look.TheVariants.{Below};

use crate::qmdb::current::grafting::GraftedHasher;
use crate::qmdb::current::grafting::rebuild::node_of;
use std::alloc::{AllocError, Global};
use std::marker::PhantomData;
use storage_codec::digest::{Digest, Hasher};
use storage_merkle::merkle::family::node_at;
use storage_merkle::merkle::hasher::Standard;
use storage_merkle::merkle::{self, Error, Graftable, Position, Readable};
use storage_ops::qmdb;

/// A tree over the operations and a tree over their chunks as one tree: below the height of a chunk's node it has the
/// operations' nodes, at and above it those of the tree over chunks. A node above that height which the tree over chunks
/// does not keep is hashed from its children, where both can be had.
#[derive(Drop)]
pub struct Storage<'a, F, H, R, S> {
    grafted_tree: &'a R,
    height: u32,
    ops_tree: &'a mut S,
    family: PhantomData<F>,
    function: PhantomData<H>,
    ghost low: { 1 ≤ height },
}

impl<
    'a,
    F: Graftable,
    H: Hasher,
    R: Readable<Family = F, Digest = H::Digest>,
    S: merkle::Storage<F, Digest = H::Digest>,
> Storage<'a, F, H, R, S> {
    /// `grafted_tree`, a tree over chunks whose leaves are nodes of height `height` in the tree over the operations, and
    /// `ops_tree`, that tree, as one.
    pub fn new(grafted_tree: &'a R, height: u32, ops_tree: &'a mut S) -> Self
        requires { 1 ≤ height }
        ensures grafted { result.grafted_tree.now ≡ grafted_tree.now }
        ensures height { result.height ≡ height }
        ensures operations { result.ops_tree.now ≡ ops_tree.old }
        ensures same_reference { result.ops_tree.ghost_name ≡ ops_tree.entry.ghost_name }
    {
        Storage {
            grafted_tree,
            height,
            ops_tree,
            family: PhantomData,
            function: PhantomData,
        }
    }
}

impl<
    F: Graftable,
    H: Hasher,
    R: Readable<Family = F, Digest = H::Digest>,
    S: merkle::Storage<F, Digest = H::Digest>,
> merkle::Storage<F> for Storage<'_, F, H, R, S> {
    type Digest = H::Digest;

    ghost nodes = { λ s. S.nodes s.ops_tree.now };

    ghost node = { λ s. joined F.shape s.height (S.nodes s.ops_tree.now)
        (regrafted H.digest_of H.Digest.text F.shape s.height
        (R.node s.grafted_tree.now))
        (S.node s.ops_tree.now) };

    ghost failed = { λ s. S.failed s.ops_tree.now };

    ghost may_fail = { λ s p code. IsOfOperations F.shape s.height (S.nodes s.ops_tree.now) p
        × S.may_fail s.ops_tree.now p code };

    fn size(&self) -> Position<F> {
        self.ops_tree.size()
    }

    fn failures(&self) -> u64 {
        self.ops_tree.failures()
    }

    fn get_node(&mut self, position: Position<F>) -> Result<Option<H::Digest>, Error<F>>
        requires { S.failed self.old.ops_tree.now + 1 < 2 ^ 64 }
        ensures answer { MatchResult result
            (λ d. d ≡ joined F.shape self.old.height (S.nodes self.old.ops_tree.now)
            (regrafted H.digest_of H.Digest.text F.shape self.old.height
            (R.node self.old.grafted_tree.now)) (S.node self.old.ops_tree.now) position) (λ e.
            ((code : ℕ) × (e ≡ Error.Source code)) ⊎ (e ≡ Error.Memory)) }
        ensures fault { (code : ℕ) → result ≡ Err (Error.Source code)
            → IsOfOperations F.shape self.old.height (S.nodes self.old.ops_tree.now) position
            × S.may_fail self.old.ops_tree.now position code }
        ensures failure { ((code : ℕ) × (result ≡ Err (Error.Source code)))
            ↔ (S.failed self.new.ops_tree.now ≡ S.failed self.old.ops_tree.now + 1) }
        ensures count { (S.failed self.new.ops_tree.now ≡ S.failed self.old.ops_tree.now)
            ⊎ (S.failed self.new.ops_tree.now ≡ S.failed self.old.ops_tree.now + 1) }
        ensures same_size { S.nodes self.new.ops_tree.now ≡ S.nodes self.old.ops_tree.now }
        ensures same { (p : ℕ) → joined F.shape self.new.height (S.nodes self.new.ops_tree.now)
            (regrafted H.digest_of H.Digest.text F.shape self.new.height
            (R.node self.new.grafted_tree.now)) (S.node self.new.ops_tree.now) p
            ≡ joined F.shape self.old.height (S.nodes self.old.ops_tree.now)
            (regrafted H.digest_of H.Digest.text F.shape self.old.height
            (R.node self.old.grafted_tree.now)) (S.node self.old.ops_tree.now) p }
        ensures same_reference { self.new.ops_tree.ghost_name ≡ self.old.ops_tree.ghost_name }
    {
        match look_up::<F, H, R>(
            self.grafted_tree,
            self.height,
            self.ops_tree.size(),
            position,
        ) {
            Look::Absent => Ok(None),
            Look::Below => self.ops_tree.get_node(position),
            Look::Found(digest) => Ok(Some(digest)),
        }
    }

    fn get_nodes(
        &mut self,
        alloc: Global,
        positions: &[Position<F>],
    ) -> Result<Vec<H::Digest>, Error<F>>
        requires { S.failed self.old.ops_tree.now + 1 < 2 ^ 64 }
        ensures answers { let node = joined F.shape self.old.height (S.nodes self.old.ops_tree.now)
            (regrafted H.digest_of H.Digest.text F.shape self.old.height
            (R.node self.old.grafted_tree.now)) (S.node self.old.ops_tree.now) in
            MatchResult result (λ v. map Some v.items ≡ map node positions.now) (λ e. ((p : ℕ)
            × (e ≡ Error.ElementPruned p) × IsFirstAbsent (λ q a. a ≡ node q) positions.now p)
            ⊎ (((code : ℕ) × (e ≡ Error.Source code)) ⊎ (e ≡ Error.Memory))) }
        ensures fault { let node = joined F.shape self.old.height (S.nodes self.old.ops_tree.now)
            (regrafted H.digest_of H.Digest.text F.shape self.old.height
            (R.node self.old.grafted_tree.now)) (S.node self.old.ops_tree.now) in
            (code : ℕ) → result ≡ Err (Error.Source code) → IsFirstFault (λ q a. a ≡ node q)
            (λ p c. IsOfOperations F.shape self.old.height (S.nodes self.old.ops_tree.now) p
            × S.may_fail self.old.ops_tree.now p c) positions.now code }
        ensures failure { ((code : ℕ) × (result ≡ Err (Error.Source code)))
            ↔ (S.failed self.new.ops_tree.now ≡ S.failed self.old.ops_tree.now + 1) }
        ensures count { (S.failed self.new.ops_tree.now ≡ S.failed self.old.ops_tree.now)
            ⊎ (S.failed self.new.ops_tree.now ≡ S.failed self.old.ops_tree.now + 1) }
        ensures same_size { S.nodes self.new.ops_tree.now ≡ S.nodes self.old.ops_tree.now }
        ensures same { (p : ℕ) → joined F.shape self.new.height (S.nodes self.new.ops_tree.now)
            (regrafted H.digest_of H.Digest.text F.shape self.new.height
            (R.node self.new.grafted_tree.now)) (S.node self.new.ops_tree.now) p
            ≡ joined F.shape self.old.height (S.nodes self.old.ops_tree.now)
            (regrafted H.digest_of H.Digest.text F.shape self.old.height
            (R.node self.old.grafted_tree.now)) (S.node self.old.ops_tree.now) p }
        ensures same_reference { self.new.ops_tree.ghost_name ≡ self.old.ops_tree.ghost_name }
    {
        let size = self.ops_tree.size();
        let found = find_all::<F, H, R>(alloc, self.grafted_tree, self.height, size, positions)?;
        let read = match read_all::<F, S>(alloc, self.ops_tree, &found.below) {
            Ok(read) => read,
            Err(error) => return Err(error),
        };
        if let Some(position) = found.missing {
            return Err(Error::ElementPruned(position));
        }
        Ok(fill(alloc, &found.nodes, &read)?)
    }
}

/// What the combined tree has at a position, as far as it is known without a read of the operations' nodes.
#[derive(Clone, Copy, Drop)]
pub(crate) enum Look<D> {
    /// No node.
    Absent,
    /// A node of the tree over the operations, which has to be read.
    Below,
    /// A node of the tree over chunks, with its digest.
    Found(D),
}

/// Returns what the combined tree of `nodes` nodes has at `position`.
pub(crate) fn look_up<F: Graftable, H: Hasher, R: Readable<Family = F, Digest = H::Digest>>(
    grafted_tree: &R,
    height: u32,
    nodes: Position<F>,
    position: Position<F>,
) -> Look<H::Digest>
    requires { 1 ≤ height }
    ensures look { (operations : ℕ → Option H.Digest) → IsLook (joined F.shape height nodes
        (regrafted H.digest_of H.Digest.text F.shape height
        (R.node grafted_tree.now)) operations) operations position result }
    ensures below { result ≡ Below → IsOfOperations F.shape height nodes position }
{
    if position.as_u64() >= nodes.as_u64() || !position.is_valid() {
        return Look::Absent;
    }
    let (first, own) = node_at::<F>(position.as_u64());
    if own < height {
        return Look::Below;
    }
    match grafted_digest::<F, H, R>(grafted_tree, height, first, own) {
        None => Look::Absent,
        Some(digest) => Look::Found(digest),
    }
}

/// Returns the digest that can be had, from those that `grafted_tree` keeps, of the node of height `own` over the
/// operations from `first` on, where the chunks' nodes have the height `height`.
fn grafted_digest<F: Graftable, H: Hasher, R: Readable<Family = F, Digest = H::Digest>>(
    grafted_tree: &R,
    height: u32,
    first: u64,
    own: u32,
) -> Option<H::Digest>
    requires low { 1 ≤ height }
    requires above { height ≤ own }
    requires aligned { first % 2 ^ own ≡ 0 }
    requires valid { F.shape.position first own ≤ size F.shape max_leaves }
    ensures { (q : ℕ) → CoversSame F.shape height q (F.shape.position first own)
        → result ≡ regrafted H.digest_of H.Digest.text F.shape height (R.node grafted_tree.now) q }
{
    let hasher = GraftedHasher::<F, Standard<H>>::new(qmdb::hasher::<H>(), height);
    node_of(grafted_tree, &hasher, first >> height, own - height)
}

/// What the tree over chunks has at some positions: the digests, with none in the places of the operations' nodes, whose
/// positions stand in `below`; and the first position that has no node, where the list ends.
#[derive(Drop)]
struct Finds<F, D> {
    nodes: Vec<Option<D>>,
    below: Vec<Position<F>>,
    missing: Option<Position<F>>,
}

/// Returns what the combined tree of `size` nodes has at `positions`, up to the first one that has no node.
fn find_all<F: Graftable, H: Hasher, R: Readable<Family = F, Digest = H::Digest>>(
    alloc: Global,
    grafted_tree: &R,
    height: u32,
    size: Position<F>,
    positions: &[Position<F>],
) -> Result<Finds<F, H::Digest>, AllocError>
    requires { 1 ≤ height }
    ensures found { IfOk result (λ finds. (operations : ℕ → Option H.Digest)
        → let node = joined F.shape height size
        (regrafted H.digest_of H.Digest.text F.shape height
        (R.node grafted_tree.now)) operations in
        (rest : List ℕ) × IsSplit node operations rest finds.nodes.items positions.now
        finds.below.items × MatchOption finds.missing (rest ≡ []) (λ p.
        (more : List ℕ) × (rest ≡ p ∷ more) × (node p ≡ None))) }
    ensures below { IfOk result (λ finds. All (IsOfOperations F.shape height size)
        finds.below.items) }
{
    let mut nodes = Vec::with_capacity(alloc, positions.len())?;
    let mut below = Vec::new(alloc);
    let mut missing = None;
    let mut left = positions;
    while let Some((position, rest)) = left.split_first() {
        match look_up::<F, H, R>(grafted_tree, height, size, *position) {
            Look::Absent => {
                missing = Some(*position);
                break;
            }
            Look::Below => {
                below.push(*position)?;
                nodes.push(None)?;
            }
            Look::Found(digest) => nodes.push(Some(digest))?,
        }
        left = rest;
    }
    Ok(Finds {
        nodes,
        below,
        missing,
    })
}

/// Returns the digests that `store` has at `positions`, in their order. It is not asked if there are none.
///
/// # Errors
///
/// Those of the store's `get_nodes`; `Memory`.
fn read_all<F: Graftable, S: merkle::Storage<F>>(
    alloc: Global,
    store: &mut S,
    positions: &[Position<F>],
) -> Result<Vec<S::Digest>, Error<F>>
    requires { S.failed store.old + 1 < 2 ^ 64 }
    ensures answers { MatchResult result (λ v. map Some v.items
        ≡ map (S.node store.old) positions.now) (λ e. ((p : ℕ) × (e ≡ Error.ElementPruned p)
        × IsFirstAbsent (λ q a. a ≡ S.node store.old q) positions.now p)
        ⊎ (((code : ℕ) × (e ≡ Error.Source code)) ⊎ (e ≡ Error.Memory))) }
    ensures fault { (code : ℕ) → result ≡ Err (Error.Source code)
        → IsFirstFault (λ q a. a ≡ S.node store.old q) (S.may_fail store.old) positions.now code }
    ensures failure { ((code : ℕ) × (result ≡ Err (Error.Source code)))
        ↔ (S.failed store.new ≡ S.failed store.old + 1) }
    ensures count { (S.failed store.new ≡ S.failed store.old)
        ⊎ (S.failed store.new ≡ S.failed store.old + 1) }
    ensures same_size { S.nodes store.new ≡ S.nodes store.old }
    ensures same { (p : ℕ) → S.node store.new p ≡ S.node store.old p }
{
    if positions.is_empty() {
        return Ok(Vec::new(alloc));
    }
    store.get_nodes(alloc, positions)
}

/// Returns the digests of `nodes`, with those of `read`, in their order, in the places of none.
fn fill<D: Digest>(alloc: Global, nodes: &[Option<D>], read: &[D]) -> Result<Vec<D>, AllocError>
    requires { gaps nodes.now ≤ length read.now }
    ensures { IfOk result (λ v. v.items ≡ filled nodes.now read.now) }
{
    let mut digests = Vec::with_capacity(alloc, nodes.len())?;
    let mut left = nodes;
    let mut unused = read;
    while let Some((node, rest)) = left.split_first() {
        let digest = match node {
            Some(digest) => *digest,
            None => {
                let (first, more) = unused.split_first().unwrap();
                unused = more;
                *first
            }
        };
        digests.push(digest)?;
        left = rest;
    }
    Ok(digests)
}
