//! Calls that are made again where memory is refused to them: a refused call leaves everything as it was, as its contract says, so
//! that the second one gives what the first would have given. Where memory is found none is made again; `tools/refused_memory.py`
//! refuses each request of these tests in turn. Within the room that a tree has, no call needs to be made again.

ghost use Rattle.std.specs.Prelude.{◌+◌, ◌≤◌};
ghost use Rattle.storage_merkle.specs.Shape.{max_leaves};

use crate::stops::{done, out_of_memory, some};
use std::alloc::Global;
use std::process::Abort;
use storage_bitmap::bitmap::authenticated::{
    BitMap, MerkleizedBitMap, PrunedState, UnmerkleizedBitMap,
};
use storage_bitmap::bitmap::{Prunable, Readable};
use storage_codec::codec::{FixedBytes, Write};
use storage_codec::digest::Sha256;
use storage_merkle::merkle::hasher::Standard;
use storage_merkle::merkle::mem::Mem;
use storage_merkle::merkle::{Bagging, Location, MAX_LEAVES, Position, mmb};

type Digest = FixedBytes<32>;

#[test]
fn push_made_again(rt: HostRuntime) {
    // the last byte after each bit, where every third one is set
    let last = [
        1, 1, 1, 9, 9, 9, 73, 73, 0, 2, 2, 2, 18, 18, 18, 146, 0, 0, 4, 4,
    ];
    let mut bits = Prunable::new(rt.alloc());
    for byte in last {
        assert!(rt; bits.len() < MAX_LEAVES);
        let bit = bits.len() % 3 == 0;
        if bits.push(bit).is_err() {
            some(&rt, bits.push(bit));
        }
        assert!(rt; bits.last_chunk() == Some(&[byte]));
    }
    assert!(rt; bits.len() == 20);
}

#[test]
fn append_made_again(rt: HostRuntime) {
    let parts: [(&[bool], u8); 4] = [
        (&[true, false, true], 0b101),
        (&[], 0b101),
        (&[false, true, true, false, true], 0b1011_0101),
        (
            &[
                true, true, false, false, false, false, false, false, false, true,
            ],
            0b10,
        ),
    ];
    let mut bits = Prunable::<1>::new(rt.alloc());
    for (part, last) in parts {
        assert!(rt; bits.len() <= 8);
        assert!(rt; part.len() <= 10);
        if bits.append(part).is_err() {
            some(&rt, bits.append(part));
        }
        assert!(rt; bits.last_chunk() == Some(&[last]));
    }
    assert!(rt; bits.len() == 18);
}

/// Appends a bit to `bitmap` for each of `digits`.
fn push_all(rt: &impl Abort, bitmap: &mut UnmerkleizedBitMap<Digest, 1>, digits: &[u8]) {
    for digit in digits {
        let bit = *digit == b'1';
        assert!(rt; bitmap.len() < MAX_LEAVES);
        if bitmap.push(bit).is_err() {
            done(rt, &bitmap.push(bit));
        }
    }
}

/// Sets the bit number `bit` of `bitmap` to `value`.
fn set(rt: &impl Abort, bitmap: &mut UnmerkleizedBitMap<Digest, 1>, bit: u64, value: bool) {
    assert!(rt; bitmap.pruned_bits() <= bit && bit < bitmap.len());
    if bitmap.set_bit(bit, value).is_err() {
        done(rt, &bitmap.set_bit(bit, value));
    }
}

/// Returns the bitmap with a bit more for each of `digits`, of which some are changed then. Of one whose root is
/// refused nothing is left.
fn grown(
    rt: &impl Abort,
    bitmap: MerkleizedBitMap<Digest, 1>,
    hasher: &Standard<Sha256>,
    digits: &[u8],
    changes: &[(u64, bool)],
) -> MerkleizedBitMap<Digest, 1> {
    let mut bitmap = bitmap.into_dirty();
    push_all(rt, &mut bitmap, digits);
    for (bit, value) in changes {
        set(rt, &mut bitmap, *bit, *value);
    }
    some(rt, bitmap.merkleize(hasher))
}

/// Returns a bitmap of 31 bits, of which some were changed.
fn thirty_one_bits(
    rt: &impl Abort,
    alloc: Global,
    hasher: &Standard<Sha256>,
) -> MerkleizedBitMap<Digest, 1> {
    let none = PrunedState {
        pruned_chunks: 0,
        pinned: Vec::new(alloc),
    };
    let bitmap = some(rt, BitMap::init(alloc, hasher, none));
    let bitmap = grown(rt, bitmap, hasher, b"0100000001", &[]);
    let bitmap = grown(rt, bitmap, hasher, b"011011", &[(11, true), (14, false)]);
    grown(rt, bitmap, hasher, b"010111100000011", &[(12, false)])
}

/// Forgets the chunks of `bitmap` below that of the bit number `bit`.
fn prune(rt: &impl Abort, bitmap: &mut MerkleizedBitMap<Digest, 1>, bit: u64) {
    assert!(rt; bit <= bitmap.len());
    if bitmap.prune_to_bit(bit).is_err() {
        done(rt, &bitmap.prune_to_bit(bit));
    }
}

// what is expected is from an independent program over the whole list of bits
#[test]
fn bitmap_calls_made_again(rt: HostRuntime) {
    let root = FixedBytes {
        bytes: [
            0x5e, 0x35, 0x22, 0xa5, 0x11, 0x9b, 0x4e, 0x03, 0x3f, 0xe0, 0xd6, 0xf8, 0x3c, 0x70,
            0xdd, 0x15, 0x3f, 0x61, 0x18, 0xe4, 0xe2, 0xd1, 0xc3, 0xb9, 0x6d, 0x40, 0x01, 0x2b,
            0x4f, 0x6c, 0x42, 0xb0,
        ],
    };
    let hasher = Standard::<Sha256>::new(Bagging::BackwardFold);
    let mut bitmap = thirty_one_bits(&rt, rt.alloc(), &hasher);
    prune(&rt, &mut bitmap, 29);
    assert!(rt; bitmap.len() == 31);
    assert!(rt; bitmap.pruned_bits() == 24);
    assert!(rt; bitmap.size().as_u64() == 4);
    assert!(rt; bitmap.last_chunk() == (&[0x60], 7));
    assert!(rt; bitmap.root() == root);
    drop(bitmap);
}

/// Appends the leaf of `element` to `tree`.
fn add(
    rt: &impl Abort,
    tree: &mut Mem<mmb::Family, Digest>,
    hasher: &Standard<Sha256>,
    element: &[u8],
) {
    if tree.add(hasher, element).is_err() {
        done(rt, &tree.add(hasher, element));
    }
}

/// Gives the leaves of `updates` their new digests.
fn update(
    rt: &impl Abort,
    tree: &mut Mem<mmb::Family, Digest>,
    hasher: &Standard<Sha256>,
    updates: &[(Location<mmb::Family>, Digest)],
) {
    if tree.update_leaves(hasher, updates).is_err() {
        done(rt, &tree.update_leaves(hasher, updates));
    }
}

/// Forgets the leaves of `tree` below `location`.
fn forget(rt: &impl Abort, tree: &mut Mem<mmb::Family, Digest>, location: u64) {
    if tree.prune(Location::new(location)).is_err() {
        done(rt, &tree.prune(Location::new(location)));
    }
}

/// Appends to `tree` the leaf whose digest is `first` and that of `second`, once there is room for both: then neither is refused.
fn append_two(
    rt: &impl Abort,
    tree: &mut Mem<mmb::Family, Digest>,
    hasher: &Standard<Sha256>,
    first: Digest,
    second: &[u8],
)
    requires { tree.old.leaves + 2 ≤ max_leaves }
{
    let Ok(()) = tree.reserve(2) else {
        out_of_memory(rt)
    };
    match tree.add_leaf(hasher, first) {
        Ok(()) => {}
        Err(_) => unreachable!(),
    }
    match tree.add(hasher, second) {
        Ok(()) => {}
        Err(_) => unreachable!(),
    }
}

/// The elements of a tree.
const ELEMENTS: [&[u8]; 14] = [
    &[0x8e, 0x1c, 0x71],
    &[0xf1, 0x21],
    &[0x7d, 0x7c],
    &[0x79],
    &[0xe1],
    &[],
    &[0xc3, 0xbd],
    &[0x2f, 0xdb, 0xff],
    &[0x81],
    &[0xa3, 0x49],
    &[],
    &[0x8d, 0x6d],
    &[],
    &[],
];

/// Returns the tree over them whose first leaf gets the digest `leaf` then, and which has forgotten nine leaves.
fn updated_tree(
    rt: &impl Abort,
    alloc: Global,
    hasher: &Standard<Sha256>,
    leaf: Digest,
) -> Mem<mmb::Family, Digest> {
    let mut tree = Mem::new(alloc);
    for element in ELEMENTS {
        add(rt, &mut tree, hasher, element);
    }
    update(rt, &mut tree, hasher, &[(Location::new(0), leaf)]);
    assert!(rt; tree.get_node(Position::new(0)) == Some(leaf));
    forget(rt, &mut tree, 9);
    assert!(rt; tree.leaves() == Location::new(14));
    assert!(rt; tree.get_node(Position::new(0)).is_none());
    tree
}

/// Returns the tree over them whose first leaf is appended with the digest `leaf`, within the room for two.
fn appended_tree(
    rt: &impl Abort,
    alloc: Global,
    hasher: &Standard<Sha256>,
    leaf: Digest,
) -> Mem<mmb::Family, Digest> {
    let mut tree = Mem::new(alloc);
    append_two(rt, &mut tree, hasher, leaf, ELEMENTS[1]);
    for element in &ELEMENTS[2..] {
        add(rt, &mut tree, hasher, *element);
    }
    tree
}

// what is expected is from an independent program over the whole list of leaves
#[test]
fn tree_calls_made_again(rt: HostRuntime) {
    let leaf = FixedBytes {
        bytes: [
            0x76, 0xd2, 0x34, 0x9d, 0xf3, 0x55, 0x0b, 0x8d, 0x91, 0x5f, 0x81, 0xf9, 0x40, 0xc5,
            0x02, 0xa7, 0x18, 0xba, 0x6b, 0xdc, 0x77, 0xa2, 0xa4, 0xd8, 0x62, 0x36, 0xa7, 0x80,
            0xd6, 0xfd, 0x58, 0x1d,
        ],
    };
    let root = FixedBytes {
        bytes: [
            0x0e, 0x72, 0x85, 0xec, 0x5b, 0xa7, 0xdd, 0x66, 0xac, 0xd5, 0x9c, 0x25, 0x3c, 0xfd,
            0x7e, 0xc1, 0x07, 0xd0, 0xa5, 0xdf, 0xe4, 0x79, 0x3b, 0x7f, 0x28, 0x1c, 0x27, 0xe5,
            0x36, 0x05, 0x17, 0x67,
        ],
    };
    let hasher = Standard::<Sha256>::new(Bagging::ForwardFold);
    let tree = updated_tree(&rt, rt.alloc(), &hasher, leaf);
    assert!(rt; tree.root(&hasher, 0) == Ok(root));
    drop(tree);
    let other = appended_tree(&rt, rt.alloc(), &hasher, leaf);
    assert!(rt; other.root(&hasher, 0) == Ok(root));
    drop(other);
}

/// Writes `bytes` behind the seven in `written`.
fn write(rt: &impl Abort, bytes: &Vec<u8>, written: &mut Vec<u8>, whole: &[u8]) {
    if bytes.write(written).is_ok() {
        return;
    }
    assert!(rt; !written.is_empty() && whole.starts_with(written));
    written.truncate(1);
    some(rt, bytes.write(written));
}

#[test]
fn write_made_again(rt: HostRuntime) {
    let mut whole = [9; 42];
    whole[0] = 7;
    whole[1] = 40;
    let bytes = some(&rt, vec![in rt.alloc(); 9u8; 40]);
    let mut written = some(&rt, vec![in rt.alloc(); 7u8]);
    write(&rt, &bytes, &mut written, &whole);
    assert!(rt; written.as_slice() == whole.as_slice());
}
