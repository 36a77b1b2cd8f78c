//! What a call answers.

ghost use Rattle.std.specs.Prelude.{◌≡◌};
ghost use Rattle.light_questions.specs.KeyParts.{code_of, of_check};

use commonware_storage::NoMemory;

/// Yes: what is claimed is true of the snapshot under the root, or two different strings have one digest.
pub const YES: i32 = 1;

/// No.
pub const NO: i32 = 0;

/// Memory ran out. This says nothing of what is claimed.
pub const NO_MEMORY: i32 = -1;

/// The root has another length than the digests of the digest function.
pub const OTHER_ROOT: i32 = -2;

/// There is no such family.
pub const OTHER_FAMILY: i32 = -3;

/// There is no such digest function.
pub const OTHER_HASH: i32 = -4;

/// The lengths of a list of byte strings do not add up to its bytes.
pub const OTHER_LENGTHS: i32 = -5;

/// The key has a length that no key of one size has: these have 4, 8, 20 or 32 bytes.
pub const OTHER_KEY: i32 = -6;

/// The value, or its size, is one that no value of one size has: these have 4, 8, 20 or 32 bytes.
pub const OTHER_VALUE: i32 = -7;

/// There is not one struct of what is agreed, but none or several.
pub const OTHER_AGREED: i32 = -8;

/// There is no such kind of keys.
pub const OTHER_KIND: i32 = -9;

/// There is no such encoding of values, or none for keys of this kind.
pub const OTHER_ENCODING: i32 = -10;

/// Why an answer is neither yes nor no.
#[derive(Clone, Copy, Drop)]
pub enum Fault {
    /// Told as [`NO_MEMORY`].
    Memory,

    /// Told as [`OTHER_ROOT`].
    OtherRoot,

    /// Told as [`OTHER_FAMILY`].
    OtherFamily,

    /// Told as [`OTHER_HASH`].
    OtherHash,

    /// Told as [`OTHER_LENGTHS`].
    OtherLengths,

    /// Told as [`OTHER_KEY`].
    OtherKey,

    /// Told as [`OTHER_VALUE`].
    OtherValue,

    /// Told as [`OTHER_AGREED`].
    OtherAgreed,

    /// Told as [`OTHER_KIND`].
    OtherKind,

    /// Told as [`OTHER_ENCODING`].
    OtherEncoding,
}

/// Returns what an answer is told as.
pub fn told(answer: Result<bool, Fault>) -> i32
    ensures { result ≡ code_of answer }
{
    match answer {
        Ok(true) => YES,
        Ok(false) => NO,
        Err(Fault::Memory) => NO_MEMORY,
        Err(Fault::OtherRoot) => OTHER_ROOT,
        Err(Fault::OtherFamily) => OTHER_FAMILY,
        Err(Fault::OtherHash) => OTHER_HASH,
        Err(Fault::OtherLengths) => OTHER_LENGTHS,
        Err(Fault::OtherKey) => OTHER_KEY,
        Err(Fault::OtherValue) => OTHER_VALUE,
        Err(Fault::OtherAgreed) => OTHER_AGREED,
        Err(Fault::OtherKind) => OTHER_KIND,
        Err(Fault::OtherEncoding) => OTHER_ENCODING,
    }
}

/// Returns a check's answer, as one that could have been a refusal.
pub fn checked(answer: Result<bool, NoMemory>) -> Result<bool, Fault>
    ensures { result ≡ of_check answer }
{
    match answer {
        Ok(accepts) => Ok(accepts),
        Err(NoMemory) => Err(Fault::Memory),
    }
}
