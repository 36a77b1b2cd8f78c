//! MMBs: the peaks over `n` leaves are as high as the places below the highest digit of `n + 1` with their digits added.

ghost use Rattle.std.specs.Prelude.{◌≡◌, ◌+◌, ◌-◌, ◌*◌, ◌%◌, ◌^◌, ◌<◌, ◌≤◌, ◌∷◌, true};
ghost use Rattle.std.proofs.lemmas.Bool.{true≢false};
ghost use Rattle.storage_merkle.specs.Shape.{Shape, Laws, size};
ghost use Rattle.storage_merkle.specs.Mmb.{mmb};
ghost use Rattle.storage_merkle.specs.Laws.Mmb.{mmb_laws};
ghost use Rattle.storage_merkle.specs.Nodes.{IsNode};
ghost use Rattle.storage_merkle.specs.Laws.Pace.{mmb_keeps_pace, mmb_stays_within};

use crate::merkle::family::power;

/// The family of MMBs (Merkle mountain belts). The parent over `2^k` leaves is added `2^(k-1) - 1` leaves after the last of
/// them, so that each leaf brings one parent at most. At most one complete chunk is pending.
#[derive(Clone, Copy, Drop)]
pub struct Family;

impl crate::merkle::Family for Family {
    ghost shape = { mmb };

    fn byte() -> u8 {
        1
    }

    fn nodes_over(leaves: u64) -> u64 {
        leaves + (leaves - (leaves + 1).ilog2() as u64)
    }

    fn first_peak(leaves: u64) -> u32 {
        let places = (leaves + 1).ilog2();
        if (leaves + 1) >> (places - 1) >= 3 {
            places
        } else {
            places - 1
        }
    }

    fn birth(first: u64, height: u32) -> u64 {
        if height == 0 {
            first + 1
        } else {
            first + (3 * power(height - 1) - 1)
        }
    }

    fn position(first: u64, height: u32) -> u64 {
        if height == 0 {
            Self::nodes_over(first)
        } else {
            Self::nodes_over(first + (3 * power(height - 1) - 2)) + 1
        }
    }

    fn node_after(leaves: u64, offset: u64) -> (u64, u32) {
        if offset == 0 {
            (leaves, 0)
        } else {
            let below = (leaves + 2).trailing_zeros();
            (leaves + 2 - 3 * power(below), below + 1)
        }
    }

    ghost laws = { mmb_laws };
}

impl crate::merkle::Graftable for Family {
    ghost has_pending = { true };

    fn has_pending() -> bool {
        true
    }

    ghost prompt = { λ absent. absurd (true≢false absent) };

    ghost keeps_pace = { mmb_keeps_pace };

    ghost stays_within = { mmb_stays_within };
}

impl crate::merkle::Countable for Family {
    fn most_leaves() -> u64 {
        9_223_372_036_854_775_839
    }
}
