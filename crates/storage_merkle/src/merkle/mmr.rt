//! Merkle mountain ranges: the peaks over `n` leaves are as high as the places of the 1 digits of `n`.

ghost use Rattle.std.specs.Prelude.{◌≡◌, ◌+◌, ◌-◌, ◌*◌, ◌%◌, ◌^◌, ◌<◌, ◌≤◌, ◌∷◌, false, refl};
ghost use Rattle.storage_merkle.specs.Shape.{Shape, Laws, size};
ghost use Rattle.storage_merkle.specs.Mmr.{mmr};
ghost use Rattle.storage_merkle.specs.Laws.Mmr.{mmr_laws};
ghost use Rattle.storage_merkle.specs.Nodes.{IsNode};
ghost use Rattle.storage_merkle.specs.Laws.Pace.{mmr_keeps_pace, mmr_stays_within};

use crate::merkle::family::power;

/// The family of MMRs (Merkle mountain ranges). A node is added with the last of its leaves, so that each complete chunk
/// lies inside one peak and there is no slot of a pending chunk.
#[derive(Clone, Copy, Drop)]
pub struct Family;

impl crate::merkle::Family for Family {
    ghost shape = { mmr };

    fn byte() -> u8 {
        0
    }

    fn nodes_over(leaves: u64) -> u64 {
        leaves + (leaves - leaves.count_ones() as u64)
    }

    fn first_peak(leaves: u64) -> u32 {
        leaves.ilog2()
    }

    fn birth(first: u64, height: u32) -> u64 {
        first + power(height)
    }

    fn position(first: u64, height: u32) -> u64 {
        Self::nodes_over(first) + 2 * (power(height) - 1)
    }

    fn node_after(leaves: u64, offset: u64) -> (u64, u32) {
        let height = offset as u32;
        (leaves + 1 - power(height), height)
    }

    ghost laws = { mmr_laws };
}

impl crate::merkle::Graftable for Family {
    ghost has_pending = { false };

    fn has_pending() -> bool {
        false
    }

    ghost prompt = { λ _ first height. refl };

    ghost keeps_pace = { mmr_keeps_pace };

    ghost stays_within = { mmr_stays_within };
}

impl crate::merkle::Countable for Family {
    fn most_leaves() -> u64 {
        9_223_372_036_854_775_808
    }
}
