//! How answers are told.

use crate::columns::{Digests, Fault, Hex, List};
use std::fmt::Display;
use storage_codec::digest::Digest;
use storage_merkle::merkle::{Family, Location, Position, RangePlan};

/// What an answer tells.
pub trait Answer {
    /// Adds its text at the end of another one.
    fn tell(&self, out: &mut String) -> Result<(), Fault>;
}

/// Returns an answer where another one is the same.
pub fn agreed(yes: bool, other: bool) -> Result<bool, Fault> {
    if yes == other {
        Ok(yes)
    } else {
        Err(Fault::Differs)
    }
}

/// Adds an answer, behind a separator where something stands behind the first `start` bytes.
pub fn tell_next<A: Answer>(
    out: &mut String,
    start: usize,
    separator: char,
    answer: &A,
) -> Result<(), Fault> {
    if out.len() > start {
        out.push(separator)?;
    }
    answer.tell(out)
}

/// Adds a word where nothing stands behind the first `start` bytes.
pub fn or_word(out: &mut String, start: usize, word: &str) -> Result<(), Fault> {
    if out.len() == start {
        out.push_str(word)?;
    }
    Ok(())
}

/// Adds bytes in hexadecimal.
pub fn tell_bytes(out: &mut String, bytes: &[u8]) -> Result<(), Fault> {
    for byte in bytes {
        let byte = *byte;
        write!(out, "{byte:02x}")?;
    }
    Ok(())
}

/// Adds answers with commas between them; `none` is none.
fn tell_all<A: Answer>(out: &mut String, answers: &[A]) -> Result<(), Fault> {
    let start = out.len();
    for answer in answers {
        tell_next(out, start, ',', answer)?;
    }
    or_word(out, start, "none")
}

/// Adds digests with a separator between them, or a word for none.
fn tell_digests<D: Digest>(
    out: &mut String,
    digests: &[D],
    separator: char,
    none: &str,
) -> Result<(), Fault> {
    let start = out.len();
    for digest in digests {
        tell_next(out, start, separator, &Hex(*digest))?;
    }
    or_word(out, start, none)
}

/// Two answers with a colon between them.
#[derive(Drop)]
pub struct At<A, B>(pub A, pub B);

impl<A: Answer, B: Answer> Answer for At<A, B> {
    fn tell(&self, out: &mut String) -> Result<(), Fault> {
        self.0.tell(out)?;
        out.push(':')?;
        self.1.tell(out)
    }
}

/// A text with `_` for each blank, and between lines.
#[derive(Drop)]
pub struct Unblanked<'a>(pub &'a str);

impl Answer for Unblanked<'_> {
    fn tell(&self, out: &mut String) -> Result<(), Fault> {
        for character in self.0.chars() {
            out.push(match character {
                ' ' | '\n' => '_',
                character => character,
            })?;
        }
        Ok(())
    }
}

/// Bytes that are lent, in hexadecimal; `-` is no bytes.
#[derive(Drop)]
pub struct Lent<'a>(pub &'a [u8]);

impl Answer for Lent<'_> {
    fn tell(&self, out: &mut String) -> Result<(), Fault> {
        let start = out.len();
        tell_bytes(out, self.0)?;
        or_word(out, start, "-")
    }
}

/// Digests that are lent, with slashes between them; `-` is none.
#[derive(Drop)]
pub struct Slashed<'a, D>(pub &'a [D]);

impl<D: Digest> Answer for Slashed<'_, D> {
    fn tell(&self, out: &mut String) -> Result<(), Fault> {
        tell_digests(out, self.0, '/', "-")
    }
}

/// Adds what is displayed.
fn tell_displayed<T: Display>(out: &mut String, value: &T) -> Result<(), Fault> {
    Ok(write!(out, "{value}")?)
}

/// `yes` or `no`.
impl Answer for bool {
    fn tell(&self, out: &mut String) -> Result<(), Fault> {
        Ok(out.push_str(if *self { "yes" } else { "no" })?)
    }
}

impl Answer for u64 {
    fn tell(&self, out: &mut String) -> Result<(), Fault> {
        tell_displayed(out, self)
    }
}

impl Answer for usize {
    fn tell(&self, out: &mut String) -> Result<(), Fault> {
        tell_displayed(out, self)
    }
}

impl Answer for &str {
    fn tell(&self, out: &mut String) -> Result<(), Fault> {
        Ok(out.push_str(*self)?)
    }
}

impl<F> Answer for Location<F> {
    fn tell(&self, out: &mut String) -> Result<(), Fault> {
        tell_displayed(out, self)
    }
}

impl<F> Answer for Position<F> {
    fn tell(&self, out: &mut String) -> Result<(), Fault> {
        tell_displayed(out, self)
    }
}

/// Bytes in hexadecimal; `-` is no bytes.
impl Answer for Vec<u8> {
    fn tell(&self, out: &mut String) -> Result<(), Fault> {
        Lent(self).tell(out)
    }
}

impl<const N: usize> Answer for [u8; N] {
    fn tell(&self, out: &mut String) -> Result<(), Fault> {
        tell_bytes(out, self)
    }
}

impl<D: Digest> Answer for Hex<D> {
    fn tell(&self, out: &mut String) -> Result<(), Fault> {
        tell_bytes(out, self.0.bytes())
    }
}

/// Commas between them; `none` is none.
impl<D: Digest> Answer for Digests<D> {
    fn tell(&self, out: &mut String) -> Result<(), Fault> {
        tell_digests(out, &self.0, ',', "none")
    }
}

/// Commas between them; `none` is none.
impl<A: Answer> Answer for List<A> {
    fn tell(&self, out: &mut String) -> Result<(), Fault> {
        tell_all(out, &self.0)
    }
}

/// Its positions with commas between them; `none` is none.
impl<F: Family> Answer for RangePlan<F> {
    fn tell(&self, out: &mut String) -> Result<(), Fault> {
        tell_all(out, self.positions())
    }
}

/// `-` is none.
impl<A: Answer> Answer for Option<A> {
    fn tell(&self, out: &mut String) -> Result<(), Fault> {
        match self {
            Some(answer) => answer.tell(out),
            None => Ok(out.push('-')?),
        }
    }
}

/// What a call gives, or the name of its refusal.
impl<A: Answer, E: Answer> Answer for Result<A, E> {
    fn tell(&self, out: &mut String) -> Result<(), Fault> {
        match self {
            Ok(answer) => answer.tell(out),
            Err(refusal) => refusal.tell(out),
        }
    }
}

impl<A: Answer, B: Answer> Answer for (A, B) {
    fn tell(&self, out: &mut String) -> Result<(), Fault> {
        self.0.tell(out)?;
        out.push(' ')?;
        self.1.tell(out)
    }
}

impl<A: Answer, B: Answer, C: Answer> Answer for (A, B, C) {
    fn tell(&self, out: &mut String) -> Result<(), Fault> {
        self.0.tell(out)?;
        out.push(' ')?;
        self.1.tell(out)?;
        out.push(' ')?;
        self.2.tell(out)
    }
}

impl<A: Answer, B: Answer, C: Answer, D: Answer> Answer for (A, B, C, D) {
    fn tell(&self, out: &mut String) -> Result<(), Fault> {
        self.0.tell(out)?;
        out.push(' ')?;
        self.1.tell(out)?;
        out.push(' ')?;
        self.2.tell(out)?;
        out.push(' ')?;
        self.3.tell(out)
    }
}
