//! The words of a question by the names of their options: those of a command line, or the members of an object.

use crate::mistake::Mistake;
use crate::source::{Given, Listed, Source};
use crate::words::{chunk_size, number, size_of_chunk};
use clap::ArgMatches;
use serde_json::Value;

/// The words of a question, by the names of their options.
#[derive(Clone, Copy)]
pub(crate) enum Words<'m, 'a> {
    /// Those of a command line.
    Line(&'m ArgMatches<'a>),
    /// The members of an object of JSON.
    Members(&'a Value),
}

impl<'a> Words<'_, 'a> {
    /// Returns whether the option `name` is there.
    pub fn has(self, name: &'static str) -> bool {
        match self {
            Words::Line(matches) => matches.contains_id(name),
            Words::Members(object) => object.get(name).is_some(),
        }
    }

    /// Returns the word of the option `name`.
    pub fn text(self, name: &'static str) -> Result<&'a str, Mistake<'a>> {
        match self {
            Words::Line(matches) => matches.get_str(name).ok_or(Mistake::Missing(name)),
            Words::Members(object) => {
                let expected = "a string";
                let text = member(object, name)?.as_str();
                text.ok_or(Mistake::Member { name, expected })
            }
        }
    }

    /// Returns the number of the option `name`.
    pub fn number(self, name: &'static str) -> Result<u64, Mistake<'a>> {
        match self {
            Words::Line(_) => {
                let word = self.text(name)?;
                number(word).ok_or(Mistake::Word {
                    option: name,
                    word,
                    expected: "a number from 0 to 18446744073709551615, of at most 20 digits",
                })
            }
            Words::Members(object) => {
                let expected = "a number from 0 to 18446744073709551615";
                let number = member(object, name)?.as_u64();
                number.ok_or(Mistake::Member { name, expected })
            }
        }
    }

    /// Returns the size of a chunk, which is at most `most`.
    pub fn chunk(self, most: usize) -> Result<usize, Mistake<'a>> {
        match self {
            Words::Line(_) => {
                let word = self.text("chunk")?;
                chunk_size(word, most).ok_or(Mistake::Chunk { word, most })
            }
            Words::Members(_) => {
                let chunk = self.number("chunk")?;
                size_of_chunk(chunk, most).ok_or(Mistake::Size { chunk, most })
            }
        }
    }

    /// Returns what the option `name` gives in hexadecimal: an object has it itself.
    pub fn given(self, name: &'static str) -> Result<Given<'a>, Mistake<'a>> {
        let word = self.text(name)?;
        match self {
            Words::Line(_) => Ok(Given::named(word)),
            Words::Members(_) => Ok(Given::Digits(word)),
        }
    }

    /// Returns where the strings of the option `name` are.
    pub fn listed(self, name: &'static str) -> Result<Listed<'a>, Mistake<'a>> {
        match self {
            Words::Line(_) => Ok(Listed::In(Source::named(self.text(name)?))),
            Words::Members(object) => match member(object, name)?.as_array() {
                Some(list) => Ok(Listed::Array(name, list.as_slice())),
                None => Err(Mistake::Member {
                    name,
                    expected: "an array of strings",
                }),
            },
        }
    }
}

/// Returns the member `name` of an object.
fn member<'a>(object: &'a Value, name: &'static str) -> Result<&'a Value, Mistake<'a>> {
    object.get(name).ok_or(Mistake::Missing(name))
}
