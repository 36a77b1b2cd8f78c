//! Folds of digests, and roots from the digests of peaks.

ghost use Rattle.std.specs.Prelude.{◌≡◌, ◌≤◌, ◌++◌, List, [], length, map, option_map};
ghost use Rattle.storage_codec.specs.Digests.{or_nothing};
ghost use Rattle.storage_merkle.specs.Hashing.{bagged, bagged_peaks, folded_backward, folded_forward, root_of};
ghost use Rattle.storage_merkle.specs.Trees.{root_head, ungrafted};

use storage_codec::digest::{Digest, Hasher, bytes_or_nothing};
use storage_merkle::merkle::{Bagging, Family};

/// `first` and `others` folded from the left.
pub fn fold_forward<H: Hasher>(first: H::Digest, others: &[H::Digest]) -> H::Digest
    ensures { H.Digest.text result
        ≡ folded_forward H.hash_of (H.Digest.text first) (map H.Digest.text others.now) }
{
    match others.split_first() {
        None => first,
        Some((second, rest)) => fold_forward::<H>(fold_two::<H>(&first, second), rest),
    }
}

/// `first` and `others` folded from the right.
pub fn fold_backward<H: Hasher>(first: H::Digest, others: &[H::Digest]) -> H::Digest
    ensures { H.Digest.text result
        ≡ folded_backward H.hash_of (H.Digest.text first) (map H.Digest.text others.now) }
{
    match others.split_first() {
        None => first,
        Some((second, rest)) => {
            let folded = fold_backward::<H>(*second, rest);
            fold_two::<H>(&first, &folded)
        }
    }
}

/// Returns the fold of two items: the digest of `left` and `right`, joined.
fn fold_two<H: Hasher>(left: &H::Digest, right: &H::Digest) -> H::Digest
    ensures { H.Digest.text result ≡ H.hash_of (H.Digest.text left.now ++ H.Digest.text right.now) }
{
    H::hash(&[left.bytes(), right.bytes()])
}

/// Returns `front` folded from the left into one item, and that and `rest` from the right; none if both are empty.
pub fn bag<H: Hasher>(front: &[H::Digest], rest: &[H::Digest]) -> Option<H::Digest>
    ensures { or_nothing (option_map H.Digest.text result)
        ≡ bagged H.hash_of (map H.Digest.text front.now) (map H.Digest.text rest.now) }
{
    match front.split_first() {
        None => {
            let (first, others) = rest.split_first()?;
            Some(fold_backward::<H>(*first, others))
        }
        Some((first, others)) => {
            let folded = fold_forward::<H>(*first, others);
            Some(fold_backward::<H>(folded, rest))
        }
    }
}

/// `peaks`, the digests of peaks of which the first `inactive` are inactive, bagged in the direction `bagging`; none for
/// no peaks.
pub fn bag_peaks<H: Hasher>(
    bagging: Bagging,
    inactive: usize,
    peaks: &[H::Digest],
) -> Option<H::Digest>
    requires { inactive ≤ length peaks.now }
    ensures { or_nothing (option_map H.Digest.text result)
        ≡ bagged_peaks H.hash_of bagging inactive (map H.Digest.text peaks.now) }
{
    match bagging {
        Bagging::ForwardFold => bag::<H>(peaks, &[]),
        Bagging::BackwardFold => {
            let (front, rest) = peaks.split_at(inactive);
            bag::<H>(front, rest)
        }
    }
}

/// Returns the root of the tree over `leaves` leaves whose first `inactive` peaks are inactive: the digest of the bytes
/// of the family and of `bagging`, both numbers in eight bytes, highest first, and `bag`, what the peaks are bagged
/// into.
#[tactic(auto, unfolding(storage_merkle::specs::Calc::be8))]
pub fn root_over<F: Family, H: Hasher>(
    bagging: Bagging,
    leaves: u64,
    inactive: u64,
    bag: Option<H::Digest>,
) -> H::Digest
    ensures { H.Digest.text result ≡ H.hash_of (root_head
        (ungrafted F.shape) bagging leaves inactive ++ or_nothing (option_map H.Digest.text bag)) }
{
    let head = [F::byte(), bagging.byte()];
    let leaves = leaves.to_be_bytes();
    let inactive = inactive.to_be_bytes();
    hash_four::<H>(&head, &leaves, &inactive, bytes_or_nothing(&bag))
}

/// Returns the digest of the four parts, joined.
fn hash_four<H: Hasher>(first: &[u8], second: &[u8], third: &[u8], fourth: &[u8]) -> H::Digest
    ensures { H.Digest.text result
        ≡ H.hash_of (first.now ++ (second.now ++ (third.now ++ fourth.now))) }
{
    H::hash(&[first, second, third, fourth])
}
