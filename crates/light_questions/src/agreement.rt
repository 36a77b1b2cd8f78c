//! What is agreed of a database, in one struct.

ghost use Rattle.std.specs.Prelude.{◌≡◌, ◌∷◌, [], MatchResult, Ok, Err};
ghost use Rattle.light_questions.specs.Agreement.{AsAgreed, kind_of};
ghost use Rattle.light_questions.specs.KeyParts.{fault_code};

use crate::answer::Fault;

/// All keys have one size, of 4, 8, 20 or 32 bytes, and are written as they are.
pub const ONE_SIZE: u32 = 0;

/// A key has any length, which is written before it.
pub const STRINGS: u32 = 1;

/// A value has any length, which is written before it. An operation is as long as its parts.
pub const VARIABLE: u32 = 0;

/// All values have one size, of 4, 8, 20 or 32 bytes, and are written as they are. An operation is as long as its parts.
pub const SIZED: u32 = 1;

/// As `SIZED`, but zeros fill operations up to one size. Keys have one size.
pub const FIXED: u32 = 2;

/// What a server and its clients have agreed on. It is laid out as C does it.
#[repr(C)]
#[derive(Clone, Copy, Drop)]
pub struct Agreed {
    /// The family, by its number.
    pub family: u32,

    /// The digest function, by its number.
    pub hash: u32,

    /// The kind of the keys: `ONE_SIZE` or `STRINGS`.
    pub keys: u32,

    /// The encoding of the values: `VARIABLE`, `SIZED` or `FIXED`.
    pub values: u32,

    /// How many bytes a chunk of activity bits has.
    pub chunk_size: usize,

    /// The least length of a key in a proof, in bytes, where keys are strings.
    pub min_key_length: usize,

    /// The greatest.
    pub max_key_length: usize,

    /// The least length of a value in an exclusion proof, in bytes. Where values have one size, it is that size.
    pub min_value_length: usize,

    /// The greatest. Where values have one size, it is that size too.
    pub max_value_length: usize,

    /// How many digests a range proof may have.
    pub max_digests: usize,
}

/// What keys and values of a database are.
#[derive(Clone, Copy, Drop)]
pub enum Kind {
    /// Keys of one size, and variable values.
    Variable,

    /// Keys of one size, and sized values.
    Sized,

    /// Keys of one size, and fixed values.
    Fixed,

    /// Strings as keys, and variable values.
    StringVariable,

    /// Strings as keys, and sized values.
    StringSized,
}

/// Returns what is agreed, and the kind of the database: of one struct, whose kind of keys and encoding of values there
/// are.
pub fn agreed_on(agreed: &[Agreed]) -> Result<(Agreed, Kind), Fault>
    ensures { MatchResult result
        (λ it. (agreed.now ≡ it.0 ∷ []) × (kind_of it.0.keys it.0.values ≡ Ok it.1))
        (λ fault. AsAgreed agreed.now (fault_code fault) (λ _ _. ⊥)) }
{
    let [it] = agreed else {
        return Err(Fault::OtherAgreed);
    };
    let kind = kind_in(it)?;
    Ok((*it, kind))
}

/// Returns the kind of a database, by the numbers of its kind of keys and of its encoding of values.
fn kind_in(agreed: &Agreed) -> Result<Kind, Fault>
    ensures { MatchResult result (λ kind. kind_of agreed.now.keys agreed.now.values ≡ Ok kind)
        (λ fault. kind_of agreed.now.keys agreed.now.values ≡ Err (fault_code fault)) }
{
    match (agreed.keys, agreed.values) {
        (ONE_SIZE, VARIABLE) => Ok(Kind::Variable),
        (ONE_SIZE, SIZED) => Ok(Kind::Sized),
        (ONE_SIZE, FIXED) => Ok(Kind::Fixed),
        (STRINGS, VARIABLE) => Ok(Kind::StringVariable),
        (STRINGS, SIZED) => Ok(Kind::StringSized),
        (ONE_SIZE | STRINGS, _) => Err(Fault::OtherEncoding),
        _ => Err(Fault::OtherKind),
    }
}
