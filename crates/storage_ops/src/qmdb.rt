//! Authenticated databases of keys and values: their operations, and checks of proofs over these.

ghost use Rattle.std.specs.Prelude.{◌≡◌};
ghost use Rattle.storage_merkle.specs.declared.merkle.bagging.Bagging.TheVariants.{BackwardFold};

pub mod any;
mod error;
pub mod operation;
pub mod verify;

pub use error::Error;
use storage_merkle::merkle::Bagging;
use storage_merkle::merkle::hasher::Standard;

/// Returns the hasher of database trees: the ordinary one, which folds active peaks from the right.
pub fn hasher<H>() -> Standard<H>
    ensures { result.bagging ≡ BackwardFold }
{
    Standard::new(Bagging::BackwardFold)
}
