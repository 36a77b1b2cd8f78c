//! Why a check of texts has no answer.

ghost use Rattle.std.specs.Prelude.{◌≡◌};
ghost use Rattle.commonware_storage.specs.declared.light.text_error.TextError.TheVariants.{Memory};

use storage_codec::NoMemory;
use thiserror::Error;

/// Why a check of texts has no answer.
#[derive(Clone, Copy, Debug, PartialEq, Eq, Error)]
pub enum TextError {
    /// The operation's text is not hexadecimal, or has an odd number of digits.
    #[error("operation is not hexadecimal")]
    Operation,
    /// The proof's text is not hexadecimal, or has an odd number of digits.
    #[error("proof is not hexadecimal")]
    Proof,
    /// Out of memory.
    #[error("out of memory")]
    Memory,
}

impl From<NoMemory> for TextError {
    ghost from_gives = { λ _ error. error ≡ Memory };

    fn from(_error: NoMemory) -> TextError {
        TextError::Memory
    }
}
