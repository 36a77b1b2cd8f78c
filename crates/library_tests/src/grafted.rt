//! Trees over chunks: prunings made again where memory is refused to them, chunks appended, and calls that hash nothing.

ghost use Rattle.std.specs.Prelude.{◌<◌, ◌≤◌};

use crate::stops::{done, some};
use std::process::Abort;
use storage_codec::codec::FixedBytes;
use storage_codec::digest::{Hasher, Sha256};
use storage_current::laws::combined::nodes_over_chunks_are_taken;
use storage_current::qmdb::current::grafting::{GraftedHasher, GraftedTree};
use storage_merkle::merkle::hasher::Standard;
use storage_merkle::merkle::mem::Mem;
use storage_merkle::merkle::{Bagging, Error, Graftable, Location, Position, mmb};

type Digest = FixedBytes<32>;

type Tree = GraftedTree<mmb::Family, Digest>;

/// The height of a node over as many operations as a chunk of one byte has bits.
pub const HEIGHT: u32 = 3;

/// Forgets the first `chunks` chunks of `tree`, which are over nodes of height `height`, once.
fn prune_once<F: Graftable, H: Hasher>(
    tree: &mut GraftedTree<F, H::Digest>,
    height: u32,
    chunks: u64,
) -> Result<(), Error<F>>
    requires low { 1 ≤ height }
    requires high { height ≤ 8 }
    requires few { chunks ≤ 1000 }
{
    nodes_over_chunks_are_taken::<F, Standard<H>>();
    let hasher = GraftedHasher::new(Standard::<H>::new(Bagging::BackwardFold), height);
    tree.prune(&hasher, chunks)
}

/// Forgets the first `chunks` chunks of `tree`.
fn prune(rt: &impl Abort, tree: &mut Tree, chunks: u64)
    requires { chunks ≤ 1000 }
{
    let mut pruned = prune_once::<mmb::Family, Sha256>(tree, HEIGHT, chunks);
    if pruned.is_err() {
        pruned = prune_once::<mmb::Family, Sha256>(tree, HEIGHT, chunks);
    }
    done(rt, &pruned);
}

/// Appends the leaf whose digest is `digest` to `tree`, a tree in memory over chunks, and then gives the leaves of `updates` their
/// new digests.
pub fn append<F: Graftable, H: Hasher>(
    tree: &mut Mem<F, H::Digest>,
    height: u32,
    digest: H::Digest,
    updates: &[(Location<F>, H::Digest)],
) -> Result<(), Error<F>>
    requires low { 1 ≤ height }
    requires high { height ≤ 8 }
    requires few { tree.old.leaves < 1000 }
{
    nodes_over_chunks_are_taken::<F, Standard<H>>();
    let hasher = GraftedHasher::new(Standard::<H>::new(Bagging::BackwardFold), height);
    if let Err(error) = tree.add_leaf(&hasher, digest) {
        return Err(error);
    }
    tree.update_leaves(&hasher, updates)
}

/// Returns whether the nodes of `tree` are these, by their positions.
fn has_nodes(tree: &Tree, nodes: &[Option<Digest>]) -> bool {
    let mut place = 0u64;
    let mut same = true;
    for node in nodes {
        same = same && tree.get_node(Position::new(place)) == *node;
        place = place.wrapping_add(1);
    }
    same
}

/// Returns the digest of a leaf.
fn leaf(byte: u8) -> Digest {
    FixedBytes { bytes: [byte; 32] }
}

/// Returns the digests of the nodes over the first two chunks, over the next two and over all four, whose leaves are
/// `leaf(1)` to `leaf(4)`: from an independent program, which hashes each node with its position over the operations.
fn nodes_over_chunks() -> [Digest; 3] {
    [
        FixedBytes {
            bytes: [
                0x40, 0x16, 0xb8, 0x4f, 0xbc, 0xb3, 0x41, 0x48, 0x0b, 0x06, 0x2b, 0x2d, 0x09, 0xdf,
                0x34, 0x71, 0xe1, 0xaf, 0x9e, 0xb0, 0x80, 0xac, 0x54, 0x6d, 0x68, 0x23, 0x6f, 0x40,
                0x5a, 0xa3, 0xfc, 0xd2,
            ],
        },
        FixedBytes {
            bytes: [
                0x2a, 0x11, 0xda, 0x4f, 0x3b, 0x21, 0x4c, 0x06, 0x59, 0xa8, 0xd5, 0xdf, 0xe7, 0x4a,
                0x06, 0x62, 0x53, 0xfd, 0x63, 0xdf, 0xc4, 0x5a, 0x7c, 0x1f, 0xd2, 0xe8, 0x75, 0xce,
                0x04, 0x67, 0x13, 0xac,
            ],
        },
        FixedBytes {
            bytes: [
                0xc5, 0xae, 0xeb, 0x7f, 0x31, 0x43, 0x7e, 0x08, 0xd5, 0xba, 0xe2, 0xbc, 0x8c, 0x61,
                0x41, 0xc6, 0xdb, 0x68, 0x8f, 0x4b, 0x27, 0x84, 0x96, 0x6a, 0xb6, 0x4b, 0xf1, 0x42,
                0xfa, 0x91, 0x05, 0xb6,
            ],
        },
    ]
}

#[test]
fn grafted_pruning_made_again(rt: HostRuntime) {
    let [first, second, four] = nodes_over_chunks();
    let [third, fourth, fifth] = [Some(leaf(3)), Some(leaf(4)), Some(leaf(5))];

    let leaves = Vec::from_slice(rt.alloc(), &[1, 2, 3, 4, 5].map(leaf));
    let mut tree = Tree::new(rt.alloc(), some(&rt, leaves));
    let (first, second, four) = (Some(first), Some(second), Some(four));
    let prunings = [
        (2, [None, None, first, third, fourth, None, fifth, None]),
        (4, [None, None, first, None, None, second, fifth, None]),
        (5, [None, None, None, None, None, None, fifth, four]),
    ];
    for (chunks, kept) in prunings {
        assert!(rt; chunks <= 1000);
        prune(&rt, &mut tree, chunks);
        assert!(rt; has_nodes(&tree, &kept));
    }
    assert!(rt; tree.leaves() == Location::new(5));
}

/// More chunks than a hasher over chunks can hash the nodes of: the operations below them are past the limit of leaves.
const HUGE: u64 = 1 << 60;

#[test]
fn pruned_already(rt: HostRuntime) {
    let made = Tree::init(rt.alloc(), HUGE, &[leaf(6); 60], Vec::new(rt.alloc()));
    let mut tree = some(&rt, made);
    prune(&rt, &mut tree, 5);
    assert!(rt; tree.pruned_chunks() == HUGE);
    assert!(rt; tree.leaves() == Location::new(HUGE));
}

#[test]
fn no_leaves_updated(rt: HostRuntime) {
    let made = Mem::<mmb::Family, _>::init(rt.alloc(), Location::new(HUGE), &[leaf(6); 60]);
    let mut tree = some(&rt, made);
    let hasher = GraftedHasher::new(Standard::<Sha256>::new(Bagging::BackwardFold), HEIGHT);
    done(&rt, &tree.update_leaves(&hasher, &[]));
    assert!(rt; tree.leaves() == Location::new(HUGE));
    assert!(rt; tree.pinned_nodes() == [leaf(6); 60].as_slice());
}

/// Appends a leaf to `tree`, which gets the digest `digest` then.
fn append_and_update(rt: &impl Abort, tree: &mut Mem<mmb::Family, Digest>, digest: Digest) {
    assert!(rt; tree.leaves().as_u64() < 1000);
    let updates = [(tree.leaves(), digest)];
    let grown = append::<mmb::Family, Sha256>(tree, HEIGHT, leaf(9), &updates);
    done(rt, &grown);
}

#[test]
fn chunks_appended(rt: HostRuntime) {
    let [first, second, four] = nodes_over_chunks();
    let mut tree = Mem::new(rt.alloc());
    for byte in [1, 2, 3, 4, 5] {
        append_and_update(&rt, &mut tree, leaf(byte));
    }
    assert!(rt; tree.get_node(Position::new(2)) == Some(first));
    assert!(rt; tree.get_node(Position::new(5)) == Some(second));
    assert!(rt; tree.get_node(Position::new(7)) == Some(four));
}
