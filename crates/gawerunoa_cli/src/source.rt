//! Where bytes come from: a file, standard input, or the command line itself.

use serde_json::Value;
use std::fmt;

/// A file, or standard input.
#[derive(Clone, Copy)]
pub enum Source<'a> {
    /// Standard input.
    Standard,
    /// The file with this name.
    File(&'a str),
}

/// What is given in hexadecimal.
#[derive(Clone, Copy)]
pub enum Given<'a> {
    /// On the command line.
    Digits(&'a str),
    /// In a file, or on standard input.
    In(Source<'a>),
}

/// Where strings are that are given one by one.
#[derive(Clone, Copy)]
pub enum Listed<'a> {
    /// On the lines of a file, or of standard input.
    In(Source<'a>),
    /// In an array, which is the member with this name.
    Array(&'static str, &'a [Value]),
}

impl<'a> Source<'a> {
    /// Returns the source that `word` names: `-` is standard input.
    pub(crate) fn named(word: &'a str) -> Source<'a> {
        match word {
            "-" => Source::Standard,
            name => Source::File(name),
        }
    }

    /// Returns whether it is standard input.
    pub(crate) fn is_standard(self) -> bool {
        matches!(self, Source::Standard)
    }
}

impl<'a> Given<'a> {
    /// Returns what `word` gives: the source that is named behind an `@`, and else the digits of the word.
    pub(crate) fn named(word: &'a str) -> Given<'a> {
        match word.strip_prefix('@') {
            Some(name) => Given::In(Source::named(name)),
            None => Given::Digits(word),
        }
    }

    /// Returns whether it is on standard input.
    pub(crate) fn is_standard(self) -> bool {
        match self {
            Given::Digits(_) => false,
            Given::In(source) => source.is_standard(),
        }
    }
}

impl Listed<'_> {
    /// Returns whether they are on standard input.
    pub(crate) fn is_standard(self) -> bool {
        match self {
            Listed::In(source) => source.is_standard(),
            Listed::Array(..) => false,
        }
    }
}

impl fmt::Display for Source<'_> {
    fn fmt<W: fmt::Write>(&self, f: &mut fmt::Formatter<W>) -> fmt::Result {
        match self {
            Source::Standard => f.write_str("standard input"),
            Source::File("") => f.write_str("a file with an empty name"),
            Source::File(name) => f.write_str(name),
        }
    }
}
