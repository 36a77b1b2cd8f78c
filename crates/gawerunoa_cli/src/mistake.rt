//! What is wrong with a question.

use crate::agreed::Function;
use crate::mark::Mark;
use std::fmt;

/// What is wrong with a question: with the words of a command line, or with the members of an object. Its text says where, and what
/// was expected.
#[derive(Clone, Copy)]
pub enum Mistake<'a> {
    /// An option is not there.
    Missing(&'static str),
    /// An option is there that says nothing beside the others.
    Needless(&'static str),
    /// The word of an option is none that it takes.
    Word {
        /// The option.
        option: &'static str,
        /// Its word.
        word: &'a str,
        /// What was expected.
        expected: &'static str,
    },
    /// A member of an object is of another type.
    Member {
        /// Its name.
        name: &'static str,
        /// What was expected.
        expected: &'static str,
    },
    /// An object has a member of a name that no option has.
    Unknown(&'a str),
    /// A word is no size of a chunk.
    Chunk {
        /// The word.
        word: &'a str,
        /// The greatest size that would do.
        most: usize,
    },
    /// A number is no size of a chunk.
    Size {
        /// The number.
        chunk: u64,
        /// The greatest size that would do.
        most: usize,
    },
    /// A word has not as many digits as a root.
    Root {
        /// The word.
        word: &'a str,
        /// The digest function.
        function: Function,
    },
    /// A word is not hexadecimal.
    Digits {
        /// The option.
        option: &'static str,
        /// Where it is not.
        mark: Mark,
    },
    /// A key, a value or a size of values, of so many bytes, is none where there is one size.
    Sized {
        /// The option.
        option: &'static str,
        /// How many bytes it has.
        size: usize,
    },
    /// The floor is past the operations.
    Floor {
        /// The floor.
        floor: u64,
        /// How many operations there are.
        count: u64,
    },
    /// There is no operation at a location.
    Location {
        /// The location.
        location: u64,
        /// How many operations there are.
        count: u64,
    },
    /// A page may have fewer operations than a chunk has.
    Few {
        /// How many it may have.
        most: u64,
        /// How many a chunk has.
        chunk: u64,
    },
    /// With this floor the copy has another root.
    OtherRoot(u64),
    /// Another one, which its text names.
    Other(&'static str),
}

/// Nothing says which claim is to be checked.
pub(crate) const NO_CLAIM: &str =
    "check: expected `operation`, `range`, `value` or `absence`, or --batch FILE";

/// A line is not an object of JSON.
pub(crate) const NO_OBJECT: &str = "expected an object of JSON";

/// Keys that are strings have no fixed values.
pub(crate) const NO_ENCODING: &str =
    "--values: `fixed` with keys that are strings: expected `variable` or `sized`";

/// Two options both ask for standard input.
pub(crate) const TWICE: &str = "standard input is asked for twice: expected `-` or `@-` once";

/// Of a range no path is drawn.
pub(crate) const NO_PATH: &str =
    "--svg: a range proof tells no path: expected another claim with --shows";

/// Standard output is to have both the requests and the copy.
pub(crate) const NO_OUTPUT: &str =
    "standard output has the requests: expected a file for the copy, or --peer";

/// What is asked is refused for another reason.
pub(crate) const REFUSED: &str = "the question is refused";

const NEEDLESS: &str =
    "not with these keys and values: expected --value-size where values are sized or fixed, else lengths";

/// Returns the mistake where `word` is none of the values that `option` takes.
pub(crate) fn none_of<'a>(option: &'static str, word: &'a str) -> Mistake<'a> {
    Mistake::Word {
        option,
        word,
        expected: "one of its values",
    }
}

impl fmt::Display for Mistake<'_> {
    fn fmt<W: fmt::Write>(&self, f: &mut fmt::Formatter<W>) -> fmt::Result {
        match self {
            Mistake::Missing(option) => write_option(f, option, "not given"),
            Mistake::Needless(option) => write_option(f, option, NEEDLESS),
            Mistake::Word {
                option,
                word,
                expected,
            } => write!(f, "--{option}: `{word}`: expected {expected}"),
            Mistake::Member { name, expected } => write!(f, "{name}: expected {expected}"),
            Mistake::Unknown(name) => write!(f, "{name}: no option has this name"),
            Mistake::Digits { option, mark } => write!(f, "--{option}: {mark}"),
            Mistake::Other(text) => f.write_str(text),
            mistake => mistake.write_number(f),
        }
    }
}

impl Mistake<'_> {
    /// Writes what is wrong with a number.
    fn write_number<W: fmt::Write>(&self, f: &mut fmt::Formatter<W>) -> fmt::Result {
        match self {
            Mistake::Chunk { word, most } => write!(
                f,
                "--chunk: `{word}`: expected a power of two from 1 to {most}"
            ),
            Mistake::Size { chunk, most } => write!(
                f,
                "--chunk: {chunk}: expected a power of two from 1 to {most}"
            ),
            Mistake::Root { word, function } => write_root(f, word.len(), *function),
            Mistake::Sized { option, size } => write!(
                f,
                "--{option}: {size} bytes: expected 4, 8, 20 or 32, where all have one size"
            ),
            mistake => mistake.write_place(f),
        }
    }

    /// Writes what is wrong with a place among the operations.
    fn write_place<W: fmt::Write>(&self, f: &mut fmt::Formatter<W>) -> fmt::Result {
        match self {
            Mistake::Floor { floor, count } => write!(
                f,
                "--floor: {floor} is past the operations, of which there are {count}: expected at most {count}"
            ),
            Mistake::Location { location, count } => write!(
                f,
                "--at: no operation stands at {location}: there are {count}, and the first is at 0"
            ),
            mistake => mistake.write_copy(f),
        }
    }
}

impl Mistake<'_> {
    /// Writes what is wrong with a copy.
    fn write_copy<W: fmt::Write>(&self, f: &mut fmt::Formatter<W>) -> fmt::Result {
        match self {
            Mistake::Few { most, chunk } => write!(
                f,
                "--max-operations: {most}: expected at least {chunk}, as many as a chunk has"
            ),
            Mistake::OtherRoot(floor) => write!(
                f,
                "--floor: {floor}: with it the copy, which is whole, has another root"
            ),
            // the others are written above
            _ => Ok(()),
        }
    }
}

/// Writes what is wrong with an option.
fn write_option<W: fmt::Write>(f: &mut fmt::Formatter<W>, option: &str, says: &str) -> fmt::Result {
    write!(f, "--{option}: {says}")
}

/// Writes that a root of `function` has another number of digits than `found`.
fn write_root<W: fmt::Write>(
    f: &mut fmt::Formatter<W>,
    found: usize,
    function: Function,
) -> fmt::Result {
    let (name, digits) = (function.name(), function.digits());
    write!(
        f,
        "--root: {found} hexadecimal digits: a root of {name} has {digits}"
    )
}
