//! Which digests a range proof has, in their order.

ghost use Rattle.std.specs.Prelude.{◌≡◌, ℕ, ◌+◌, ◌≤◌, ◌++◌, List, [], Bool, length, map, take, drop, IfOk, OnOk, ◌∷◌, ◌<◌};
ghost use Rattle.storage_merkle.specs.Calc.{back, front};
ghost use Rattle.storage_merkle.specs.RangeProofs.{apart, by_position, leading, not_leading, one_for, place_in, position_of, same_site, sites, sites_in, sites_of, sites_over, trailing, up_to};
ghost use Rattle.storage_merkle.specs.Trees.{Layout, folded, part, unfolded};
ghost use Rattle.storage_merkle.specs.Shape.{max_leaves};
ghost use Rattle.reference.specs.Layouts.{laid_out};
ghost use Rattle.reference.specs.Sites.{site_of};

use crate::node::Node;
use crate::shape::Digits;
use crate::tree::peaks;
use std::alloc::{AllocError, Global};
use storage_merkle::merkle::Bagging;

/// Where a digest of a range proof stands.
#[derive(Clone, Copy, Drop)]
pub enum Site {
    /// The fold from the left of peaks before the range.
    Front,
    /// The fold from the right of peaks past the range.
    Back,
    /// The node of a peak or of a sibling.
    Inner(Node),
}

/// Returns whether the node `place` has no leaf from `low` to before `high`.
pub fn is_apart(low: u64, high: u64, place: Node) -> bool
    ensures { result ≡ apart low high place.first place.height }
{
    place.end() <= low || high <= place.first()
}

/// Which nodes a calculation is given.
pub(crate) trait Cut {
    /// The nodes that are given.
    ghost cut: { Self → ℕ → ℕ → Bool };

    /// Returns whether the node `place` is given.
    fn is_given(&self, place: Node) -> bool
        ensures { result ≡ cut self.now place.first place.height };
}

/// Those with no leaf from `low` to before `high` are given.
#[derive(Clone, Copy, Drop)]
struct Apart {
    low: u64,
    high: u64,
}

impl Cut for Apart {
    ghost cut = { λ s. apart s.low s.high };

    fn is_given(&self, place: Node) -> bool {
        is_apart(self.low, self.high, place)
    }
}

/// Returns whether `left` and `right` are one site.
pub fn is_same(left: Site, right: Site) -> bool
    ensures { result ≡ same_site (site_of left) (site_of right) }
{
    match left {
        Site::Front => matches!(right, Site::Front),
        Site::Back => matches!(right, Site::Back),
        Site::Inner(one) => match right {
            Site::Inner(other) => one.first() == other.first() && one.height() == other.height(),
            _ => false,
        },
    }
}

/// Returns those of `peaks`, of which the first `inactive` are inactive, that are folded from the left under `bagging`,
/// and those that are folded from the right.
pub fn split_folded(bagging: Bagging, inactive: usize, peaks: &[Node]) -> (&[Node], &[Node])
    requires { inactive ≤ length peaks.now }
    ensures left { result.0.now ≡ folded bagging inactive peaks.now }
    ensures right { result.1.now ≡ unfolded bagging inactive peaks.now }
{
    match bagging {
        Bagging::ForwardFold => (peaks, &[]),
        Bagging::BackwardFold => peaks.split_at(inactive),
    }
}

/// Returns those of `peaks` in front that end at or before `low`, and the others.
pub fn split_leading(low: u64, peaks: &[Node]) -> (&[Node], &[Node])
    ensures front { result.0.now ≡ leading low peaks.now }
    ensures others { result.1.now ≡ not_leading low peaks.now }
{
    peaks.split_at(leading_count(low, peaks))
}

/// Returns how many of `peaks` in front end at or before `low`.
fn leading_count(low: u64, peaks: &[Node]) -> usize
    ensures within { result ≤ length peaks.now }
    ensures front { take result peaks.now ≡ leading low peaks.now }
    ensures others { drop result peaks.now ≡ not_leading low peaks.now }
{
    match peaks.split_first() {
        Some((peak, rest)) if peak.end() <= low => 1 + leading_count(low, rest),
        _ => 0,
    }
}

/// Returns those of `peaks` up to the first one that begins at `high` or past it, and the others.
pub fn split_up_to(high: u64, peaks: &[Node]) -> (&[Node], &[Node])
    ensures front { result.0.now ≡ up_to high peaks.now }
    ensures others { result.1.now ≡ trailing high peaks.now }
{
    peaks.split_at(up_to_count(high, peaks))
}

/// Returns how many of `peaks` in front begin before `high`.
fn up_to_count(high: u64, peaks: &[Node]) -> usize
    ensures within { result ≤ length peaks.now }
    ensures front { take result peaks.now ≡ up_to high peaks.now }
    ensures others { drop result peaks.now ≡ trailing high peaks.now }
{
    match peaks.split_first() {
        Some((peak, rest)) if peak.first() < high => 1 + up_to_count(high, rest),
        _ => 0,
    }
}

/// Appends to `sites` the greatest nodes at or inside the node `place` that are given, by their leaves.
fn push_sites<C: Cut>(sites: &mut Vec<Site>, cut: &C, place: Node) -> Result<(), AllocError>
    ensures { OnOk result ((T : Layout) → map site_of sites.new.items
        ≡ map site_of sites.old.items ++ sites_of (part T (C.cut cut.now) place)) }
{
    if cut.is_given(place) {
        sites.push(Site::Inner(place))?;
        return Ok(());
    }
    if place.height() == 0 {
        return Ok(());
    }
    push_sites(sites, cut, place.left())?;
    push_sites(sites, cut, place.right())?;
    Ok(())
}

/// Appends to `sites` the greatest nodes at or inside `peaks` that are given, by their leaves.
pub(crate) fn push_sites_in<C: Cut>(
    sites: &mut Vec<Site>,
    cut: &C,
    peaks: &[Node],
) -> Result<(), AllocError>
    ensures { OnOk result ((T : Layout) → map site_of sites.new.items
        ≡ map site_of sites.old.items ++ sites_in T (C.cut cut.now) peaks.now) }
{
    let Some((peak, rest)) = peaks.split_first() else {
        return Ok(());
    };
    push_sites(sites, cut, *peak)?;
    push_sites_in(sites, cut, rest)?;
    Ok(())
}

/// Returns the position of the node at `site`; 0 for a fold.
fn position_of<F: Digits>(alloc: Global, site: Site) -> Result<u64, AllocError>
    ensures { IfOk result (λ position. (grafted : ℕ → ℕ → Bool)
        → position ≡ position_of (laid_out F.shape grafted) (site_of site)) }
{
    match site {
        Site::Front | Site::Back => Ok(0),
        Site::Inner(place) => F::place(alloc, place.first(), place.height()),
    }
}

/// Appends to `sites` those of `sorted`, which ascend by position, with `site` in its place among them.
fn push_placed<F: Digits>(
    sites: &mut Vec<Site>,
    site: Site,
    sorted: &[Site],
) -> Result<(), AllocError>
    ensures { OnOk result ((grafted : ℕ → ℕ → Bool)
        → map site_of sites.new.items ≡ map site_of sites.old.items
        ++ place_in (laid_out F.shape grafted) (site_of site) (map site_of sorted.now)) }
{
    let Some((first, rest)) = sorted.split_first() else {
        sites.push(site)?;
        return Ok(());
    };
    let alloc = *sites.allocator();
    if position_of::<F>(alloc, site)? <= position_of::<F>(alloc, *first)? {
        sites.push(site)?;
        sites.extend_from_slice(sorted)?;
        return Ok(());
    }
    sites.push(*first)?;
    push_placed::<F>(sites, site, rest)?;
    Ok(())
}

/// Returns the `sites` in ascending order of their positions.
pub(crate) fn by_position<F: Digits>(alloc: Global, sites: &[Site]) -> Result<Vec<Site>, AllocError>
    ensures { IfOk result (λ sorted. (grafted : ℕ → ℕ → Bool) → map site_of sorted.items
        ≡ by_position (laid_out F.shape grafted) (map site_of sites.now)) }
{
    let Some((first, rest)) = sites.split_first() else {
        return Ok(Vec::new(alloc));
    };
    let sorted = by_position::<F>(alloc, rest)?;
    let mut placed = Vec::new(alloc);
    push_placed::<F>(&mut placed, *first, &sorted)?;
    Ok(placed)
}

/// Appends to `sites` the fold before the range, where `peaks`, those in it, are not empty.
fn push_front_fold(sites: &mut Vec<Site>, peaks: &[Node]) -> Result<(), AllocError>
    ensures { OnOk result
        (map site_of sites.new.items ≡ map site_of sites.old.items ++ one_for front peaks.now) }
{
    if !peaks.is_empty() {
        sites.push(Site::Front)?;
    }
    Ok(())
}

/// Appends to `sites` the fold past the range, where `peaks`, those in it, are not empty.
fn push_back_fold(sites: &mut Vec<Site>, peaks: &[Node]) -> Result<(), AllocError>
    ensures { OnOk result
        (map site_of sites.new.items ≡ map site_of sites.old.items ++ one_for back peaks.now) }
{
    if !peaks.is_empty() {
        sites.push(Site::Back)?;
    }
    Ok(())
}

/// Returns the sites of the digests of a proof of the leaves from `low` to before `high`, in the tree over `leaves`
/// leaves whose first `inactive` peaks are inactive, in order: before the range, one fold of the peaks that are folded
/// from the left and each of the others; past it, each of the first and one fold of the others; then the siblings
/// inside the peaks that share a leaf with the range, by position.
pub fn sites<F: Digits>(
    alloc: Global,
    low: u64,
    high: u64,
    bagging: Bagging,
    leaves: u64,
    inactive: usize,
) -> Result<Vec<Site>, AllocError>
    requires few { leaves ≤ max_leaves }
    requires inactive { inactive ≤ length (F.shape.peaks leaves) }
    ensures { IfOk result (λ v. (grafted : ℕ → ℕ → Bool)
        → map site_of v.items ≡ sites (laid_out F.shape grafted) low high bagging leaves inactive) }
{
    let peaks = peaks::<F>(alloc, leaves)?;
    let (left, right) = split_folded(bagging, inactive, &peaks);
    sites_over::<F>(alloc, low, high, left, right)
}

/// Returns the sites of a proof of the leaves from `low` to before `high`, where the peaks `left` are folded from the
/// left and `right` from the right.
fn sites_over<F: Digits>(
    alloc: Global,
    low: u64,
    high: u64,
    left: &[Node],
    right: &[Node],
) -> Result<Vec<Site>, AllocError>
    ensures { IfOk result (λ v. (grafted : ℕ → ℕ → Bool)
        → map site_of v.items ≡ sites_over (laid_out F.shape grafted) low high left.now right.now) }
{
    let (left_front, left_others) = split_leading(low, left);
    let (right_front, right_others) = split_leading(low, right);
    let (left_reached, left_past) = split_up_to(high, left_others);
    let (right_reached, _) = split_up_to(high, right_others);
    let (_, right_past) = split_up_to(high, right);
    let cut = Apart { low, high };
    let mut sites = Vec::new(alloc);
    push_front_fold(&mut sites, left_front)?;
    push_sites_in(&mut sites, &cut, right_front)?;
    push_sites_in(&mut sites, &cut, left_past)?;
    push_back_fold(&mut sites, right_past)?;
    let siblings = siblings::<F>(alloc, low, high, left_reached, right_reached)?;
    sites.extend_from_slice(&siblings)?;
    Ok(sites)
}

/// Returns the siblings of the leaves from `low` to before `high` inside those of the peaks `left` and `right` that
/// have one, by position.
fn siblings<F: Digits>(
    alloc: Global,
    low: u64,
    high: u64,
    left: &[Node],
    right: &[Node],
) -> Result<Vec<Site>, AllocError>
    ensures { IfOk result (λ v. (grafted : ℕ → ℕ → Bool) → map site_of v.items ≡ by_position
        (laid_out F.shape grafted) (sites_in (laid_out F.shape grafted) (apart low high) left.now
        ++ sites_in (laid_out F.shape grafted) (apart low high) right.now)) }
{
    let cut = Apart { low, high };
    let mut siblings = Vec::new(alloc);
    push_sites_in(&mut siblings, &cut, left)?;
    push_sites_in(&mut siblings, &cut, right)?;
    let sorted = by_position::<F>(alloc, &siblings)?;
    Ok(sorted)
}
