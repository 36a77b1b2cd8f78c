//! What the lists on proofs of trees begin with.

use replay_columns::answers::{Answer, At, or_word, tell_next};
use replay_columns::columns::{Column, Columns, Digests, Fault, Hex, List};
use replay_columns::unframed::Unframed;
use std::alloc::Global;
use storage_codec::digest::Digest;
use storage_merkle::merkle::{Error, Family, Location, Position, Proof};

/// A proof, and the elements that it is said to prove.
#[derive(Drop)]
pub struct Claim<F, D> {
    pub proof: Proof<F, D>,
    pub start: Location<F>,
    pub items: Vec<Unframed>,
}

/// `leaves inactive digests start elements`.
impl<F: Family, D: Digest> Column for Claim<F, D> {
    fn read(alloc: Global, columns: &mut Columns<'_>) -> Result<Claim<F, D>, Fault> {
        let (proof, start, items): (Proof<F, D>, Location<F>, List<Unframed>) = Column::read(
            alloc, columns,
        )?;
        Ok(Claim {
            proof,
            start,
            items: items.0,
        })
    }
}

/// Positions and their digests.
#[derive(Drop)]
pub struct Placed<F, D>(pub Vec<(Position<F>, D)>);

/// Commas between them; `none` is none.
impl<F: Family, D: Digest> Answer for Placed<F, D> {
    fn tell(&self, out: &mut String) -> Result<(), Fault> {
        let start = out.len();
        for (position, digest) in &self.0 {
            tell_next(out, start, ',', &At(*position, Hex(*digest)))?;
        }
        or_word(out, start, "none")
    }
}

/// Adds the digests of a proof that a call makes, or its refusal.
pub fn tell_made<F: Family, D: Digest>(
    out: &mut String,
    made: Result<Proof<F, D>, Error<F>>,
) -> Result<(), Fault> {
    match made {
        Ok(proof) => Digests(proof.digests).tell(out),
        Err(refusal) => refusal.tell(out),
    }
}
