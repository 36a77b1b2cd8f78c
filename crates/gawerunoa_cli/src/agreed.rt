//! What is agreed of a snapshot beforehand, and never read from a proof: the family of its trees, the digest function, and how many
//! bytes a chunk of activity bits has.

use light_questions::agreed::{MMB, MMR, SHA256, SHA512};

/// A family of trees.
#[derive(Clone, Copy)]
pub enum Family {
    /// Merkle mountain ranges.
    Mmr,
    /// Merkle mountain belts.
    Mmb,
}

/// A digest function.
#[derive(Clone, Copy)]
pub enum Function {
    /// SHA-256, with digests of 32 bytes.
    Sha256,
    /// SHA-512, with digests of 64 bytes.
    Sha512,
}

/// What is agreed of a snapshot.
#[derive(Clone, Copy)]
pub struct Agreed {
    /// The family of its trees.
    pub family: Family,
    /// The digest function.
    pub function: Function,
    /// How many bytes a chunk has.
    pub chunk: usize,
}

impl Family {
    /// Returns the family that `word` names.
    pub(crate) fn named(word: &str) -> Option<Family> {
        match word {
            "mmr" => Some(Family::Mmr),
            "mmb" => Some(Family::Mmb),
            _ => None,
        }
    }

    /// Returns its number among the families.
    pub(crate) fn number(self) -> u32 {
        match self {
            Family::Mmr => MMR,
            Family::Mmb => MMB,
        }
    }
}

impl Function {
    /// Returns the digest function that `word` names.
    pub(crate) fn named(word: &str) -> Option<Function> {
        match word {
            "sha256" => Some(Function::Sha256),
            "sha512" => Some(Function::Sha512),
            _ => None,
        }
    }

    /// Returns its number among the digest functions.
    pub(crate) fn number(self) -> u32 {
        match self {
            Function::Sha256 => SHA256,
            Function::Sha512 => SHA512,
        }
    }

    /// Returns its name, as people write it.
    pub(crate) fn name(self) -> &'static str {
        match self {
            Function::Sha256 => "SHA-256",
            Function::Sha512 => "SHA-512",
        }
    }

    /// Returns how many hexadecimal digits a digest has.
    pub(crate) fn digits(self) -> usize {
        match self {
            Function::Sha256 => 64,
            Function::Sha512 => 128,
        }
    }
}
