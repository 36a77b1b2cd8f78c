//! The shapes of the two tree families, from the binary digits of numbers of leaves.

ghost use Rattle.std.specs.Prelude.{◌≡◌, ℕ, ◌+◌, ◌-◌, ◌*◌, ◌%◌, ◌^◌, ◌<◌, ◌≤◌, ◌++◌, List, [], length, IfOk, OnOk};
ghost use Rattle.storage_merkle.specs.Digits.{digit, floor_log2, highest_from};
ghost use Rattle.storage_merkle.specs.Mmr.{mmr, mmr_digits};
ghost use Rattle.storage_merkle.specs.Mmb.{mmb, mmb_digits};
ghost use Rattle.storage_merkle.specs.Shape.{Shape, size, max_leaves};

use std::alloc::{AllocError, Global};
use storage_merkle::merkle::{Family, mmb, mmr};

/// A family whose shape is computed from binary digits.
pub trait Digits: Family {
    /// Returns the heights of the peaks of the tree over `leaves` leaves, fewer than `2^63`, from the first leaf on.
    /// Fails only if memory runs out.
    fn peak_heights(alloc: Global, leaves: u64) -> Result<Vec<u32>, AllocError>
        requires { leaves < 2 ^ 63 }
        ensures { IfOk result (λ heights. heights.items ≡ Self.shape.peaks leaves) };

    /// Returns the least number of leaves whose tree has the node of height `height` over the leaves from `first` on.
    fn leaves_at_birth(first: u64, height: u32) -> u64
        requires { first + 2 ^ height ≤ max_leaves + 2 ^ 61 }
        ensures { result ≡ Self.shape.birth first height };

    /// Returns the position of the node of height `height` over the leaves from `first` on. Fails only if memory runs
    /// out.
    fn place(alloc: Global, first: u64, height: u32) -> Result<u64, AllocError>
        requires { first + 2 ^ height ≤ max_leaves + 2 ^ 61 }
        ensures { IfOk result (λ place. place ≡ Self.shape.position first height) };
}

/// Returns how many nodes the tree over `leaves` leaves, fewer than `2^63`, has: twice the leaves, less the peaks.
/// Fails only if memory runs out.
pub fn node_count<F: Digits>(alloc: Global, leaves: u64) -> Result<u64, AllocError>
    requires { leaves < 2 ^ 63 }
    ensures { IfOk result (λ count. count ≡ size F.shape leaves) }
{
    Ok(without_peaks(leaves, F::peak_heights(alloc, leaves)?.len()))
}

/// Twice `leaves`, less `peaks`, and 0 if they are more.
fn without_peaks(leaves: u64, peaks: usize) -> u64
    requires { leaves < 2 ^ 63 }
    ensures { result ≡ 2 * leaves - peaks }
{
    (2 * leaves).saturating_sub(peaks as u64)
}

impl Digits for mmr::Family {
    fn peak_heights(alloc: Global, leaves: u64) -> Result<Vec<u32>, AllocError> {
        mmr_heights(alloc, leaves)
    }

    fn leaves_at_birth(first: u64, height: u32) -> u64 {
        first + power(height)
    }

    fn place(alloc: Global, first: u64, height: u32) -> Result<u64, AllocError> {
        let peaks = mmr_heights(alloc, first)?.len();
        Ok((without_peaks(first, peaks) + power(height + 1)).saturating_sub(2))
    }
}

impl Digits for mmb::Family {
    fn peak_heights(alloc: Global, leaves: u64) -> Result<Vec<u32>, AllocError> {
        mmb_heights(alloc, leaves)
    }

    fn leaves_at_birth(first: u64, height: u32) -> u64 {
        if height == 0 {
            first + 1
        } else {
            first + 3 * power(height - 1) - 1
        }
    }

    fn place(alloc: Global, first: u64, height: u32) -> Result<u64, AllocError> {
        if height == 0 {
            let peaks = mmb_heights(alloc, first)?.len();
            return Ok(without_peaks(first, peaks));
        }
        let birth = Self::leaves_at_birth(first, height);
        let peaks = mmb_heights(alloc, birth)?.len();
        Ok(without_peaks(birth, peaks).saturating_sub(1))
    }
}

/// Returns the places of the digits 1 of `leaves`, below `2^63`, in binary, highest first.
fn mmr_heights(alloc: Global, leaves: u64) -> Result<Vec<u32>, AllocError>
    requires { leaves < 2 ^ 63 }
    ensures { IfOk result (λ heights. heights.items ≡ mmr.peaks leaves) }
{
    let mut heights = Vec::new(alloc);
    push_mmr_digits(&mut heights, 63, leaves)?;
    Ok(heights)
}

/// For each place below the highest binary digit of `leaves + 1`, if `leaves` is below `2^63`, highest first: the place
/// and the digit there, added.
fn mmb_heights(alloc: Global, leaves: u64) -> Result<Vec<u32>, AllocError>
    requires { leaves < 2 ^ 63 }
    ensures { IfOk result (λ heights. heights.items ≡ mmb.peaks leaves) }
{
    let mut heights = Vec::new(alloc);
    push_mmb_digits(&mut heights, highest_place(63, leaves + 1), leaves + 1)?;
    Ok(heights)
}

/// Appends to `heights` the places of the digits 1 among the lowest `places` binary digits of `number`, highest first.
fn push_mmr_digits(heights: &mut Vec<u32>, places: u32, number: u64) -> Result<(), AllocError>
    requires { places ≤ 63 }
    ensures { OnOk result (heights.new.items ≡ heights.old.items ++ mmr_digits places number) }
{
    if places == 0 {
        return Ok(());
    }
    if digit(number, places - 1) == 0 {
        return push_mmr_digits(heights, places - 1, number);
    }
    heights.push(places - 1)?;
    push_mmr_digits(heights, places - 1, number)
}

/// Appends to `heights` for each of the lowest `places` places, highest first, the place and the binary digit of
/// `number` there, added.
fn push_mmb_digits(heights: &mut Vec<u32>, places: u32, number: u64) -> Result<(), AllocError>
    requires { places ≤ 63 }
    ensures { OnOk result (heights.new.items ≡ heights.old.items ++ mmb_digits places number) }
{
    if places == 0 {
        return Ok(());
    }
    heights.push(places - 1 + digit(number, places - 1) as u32)?;
    push_mmb_digits(heights, places - 1, number)
}

/// Returns the binary digit of `number` at `place`.
fn digit(number: u64, place: u32) -> u64
    requires { place ≤ 63 }
    ensures value { result ≡ digit number place }
    ensures small { result ≤ 1 }
{
    number / power(place) % 2
}

/// Returns the place of the highest binary digit 1 of `number`, which is not 0; it is at most `place`.
pub(crate) fn highest_place(place: u32, number: u64) -> u32
    requires few { place ≤ 63 }
    requires some { 0 < number }
    requires below { number < 2 * 2 ^ place }
    ensures value { result ≡ floor_log2 number }
    ensures small { result ≤ 63 }
{
    if place == 0 || power(place) <= number {
        return place;
    }
    highest_place(place - 1, number)
}

/// Returns `2^exponent`, for `exponent` of at most 63.
pub fn power(exponent: u32) -> u64
    requires { exponent ≤ 63 }
    ensures { result ≡ 2 ^ exponent }
{
    1 << exponent
}
