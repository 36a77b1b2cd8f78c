//! Lists of byte strings, handed over as one string and the length of each.

ghost use Rattle.std.specs.Prelude.{◌≡◌, ◌↔◌, IsTrue, IfOk, length, map, sum};
ghost use Rattle.light_questions.specs.ByteStrings.{cut};

use commonware_storage::NoMemory;
use std::alloc::Global;

/// Byte strings, joined, and the length of each.
#[derive(Drop)]
pub struct Joined<'a> {
    /// The strings, one after another.
    pub bytes: &'a [u8],

    /// How many bytes each has.
    pub lengths: &'a [usize],

    /// These are all bytes.
    pub ghost whole: { sum lengths.now ≡ length bytes.now },
}

/// Returns whether the lengths add up to `total`. Allocates nothing.
#[tactic(auto, using(crate::proofs::Pieces::sum_step))]
pub fn adds_up(lengths: &[usize], total: usize) -> bool
    ensures { IsTrue result ↔ (sum lengths.now ≡ total) }
{
    let mut rest = total;
    for length in lengths {
        if *length > rest {
            return false;
        }
        rest -= *length;
    }
    rest == 0
}

/// Returns the strings, each by itself.
#[tactic(auto, using(crate::proofs::Pieces::sum_step, crate::proofs::Pieces::cut_step))]
pub fn cut_up<'a>(alloc: Global, joined: &Joined<'a>) -> Result<Vec<&'a [u8]>, NoMemory>
    ensures { IfOk result (λ strings.
        map (λ s. s.now) strings.items ≡ cut joined.now.lengths.now joined.now.bytes.now) }
{
    let mut strings = Vec::new(alloc);
    let mut rest = joined.bytes;
    for length in joined.lengths {
        let (string, after) = rest.split_at(*length);
        strings.push(string)?;
        rest = after;
    }
    Ok(strings)
}
