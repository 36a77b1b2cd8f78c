//! What is asked for.

use crate::agreed::{Agreed, Family, Function};
use crate::answer::MOST_CHUNK;
use crate::command::command;
use crate::fault::Fault;
use crate::given::Words;
use crate::mark::Mark;
use crate::mistake::{Mistake, NO_CLAIM, NO_ENCODING, NO_PATH, TWICE, none_of};
use crate::source::{Given, Listed, Source};
use crate::sync::asked::Part;
use crate::words::root_of;
use clap::ArgMatches;
use light_questions::agreed::Root;
use light_questions::agreement::{
    Agreed as Database, FIXED, Kind, ONE_SIZE, SIZED, STRINGS, VARIABLE, agreed_on,
};
use std::alloc::Global;

/// The greatest size of a chunk that there is, in bytes.
const MOST: usize = 1 << 59;

/// The most digests that a range proof may have where nothing is said. No tree needs more: it has at most 62 peaks, and a
/// range at most 62 siblings on either side.
pub(crate) const MOST_DIGESTS: usize = 186;

/// What is asked for, and how the answer is written.
#[derive(Drop)]
pub struct Request<'a> {
    /// How the answer is written.
    pub format: Format,
    /// What is asked for.
    pub asked: Asked<'a>,
}

/// How answers are written.
#[derive(Clone, Copy)]
pub enum Format {
    /// Lines with labels, for people.
    Text,
    /// An object of JSON on one line.
    Json,
}

/// What is asked for.
#[derive(Drop)]
pub enum Asked<'a> {
    /// The canonical root of operations, and the proof of the operation at a location, where one is named.
    Show {
        /// The snapshot.
        snapshot: Snapshot<'a>,
        /// The location.
        at: Option<u64>,
    },
    /// Whether a proof shows what is claimed.
    Check(Check<'a>),
    /// The same of each line of a file.
    Batch(Source<'a>),
    /// The fields of a proof.
    Inspect(Inspection<'a>),
    /// A copy, or pages for one.
    Sync(Part<'a>),
}

/// A snapshot of operations that are read.
#[derive(Clone, Copy)]
pub struct Snapshot<'a> {
    /// What is agreed of it.
    pub agreed: Agreed,
    /// Its inactivity floor.
    pub floor: u64,
    /// Where its operations are.
    pub operations: Source<'a>,
}

/// A proof whose fields are asked for.
#[derive(Clone, Copy)]
pub struct Inspection<'a> {
    /// What is agreed of the snapshot.
    pub agreed: Agreed,
    /// What the proof shows.
    pub shows: Shows,
    /// Where it is.
    pub proof: Source<'a>,
    /// The file that its path is drawn into, where one is named.
    pub svg: Option<&'a str>,
}

/// What a proof shows.
#[derive(Clone, Copy)]
pub enum Shows {
    /// An operation.
    Operation,
    /// A range of operations.
    Range,
    /// The value of a key.
    Value,
    /// That a key has no value.
    Absence,
}

/// A claim about a snapshot, and a proof of it.
#[derive(Clone, Copy)]
pub struct Check<'a> {
    /// What is agreed of the database.
    pub database: Database,
    /// The kind of the database.
    pub kind: Kind,
    /// The canonical root.
    pub root: Root,
    /// The claim.
    pub claim: Claimed<'a>,
    /// The proof.
    pub proof: Given<'a>,
}

/// What is claimed, and where its bytes are.
#[derive(Clone, Copy)]
pub enum Claimed<'a> {
    /// That an operation stands at a location, and is active.
    Operation {
        /// The location.
        at: u64,
        /// The operation.
        operation: Given<'a>,
    },
    /// That operations stand from a location on, and which chunks they touch.
    Range {
        /// The location of the first.
        start: u64,
        /// The operations.
        operations: Listed<'a>,
        /// The chunks.
        chunks: Listed<'a>,
    },
    /// That a key has a value.
    Value {
        /// The key.
        key: Given<'a>,
        /// The value.
        value: Given<'a>,
    },
    /// That a key has no value.
    Absence {
        /// The key.
        key: Given<'a>,
    },
}

impl<'a> Request<'a> {
    /// Reads the words of a command line, of which the first is the program's name.
    pub fn parse(alloc: Global, words: &'a [String]) -> Result<Request<'a>, Fault<'a>> {
        match command(alloc)?.try_get_matches_from(words) {
            Ok(matches) => Request::of(alloc, &matches),
            Err(error) => Err(Fault::Words(error)),
        }
    }

    /// Returns what the words of a command line ask for.
    fn of(alloc: Global, matches: &ArgMatches<'a>) -> Result<Request<'a>, Fault<'a>> {
        match matches.subcommand() {
            Some(("sync", matches)) => Ok(Request {
                format: Format::Text,
                asked: Asked::Sync(Part::of(alloc, matches)?),
            }),
            Some((name, matches)) => Ok(Request::named(name, matches)?),
            None => Err(Fault::Question(Mistake::Missing("subcommand"))),
        }
    }

    /// Returns what the words behind the subcommand `name` ask for.
    fn named(name: &str, matches: &ArgMatches<'a>) -> Result<Request<'a>, Mistake<'a>> {
        let (words, format) = (Words::Line(matches), Format::of(matches));
        let asked = match name {
            "root" => Asked::Show {
                snapshot: Snapshot::of(words)?,
                at: None,
            },
            "prove" => Asked::Show {
                snapshot: Snapshot::of(words)?,
                at: Some(words.number("at")?),
            },
            "inspect" => Asked::Inspect(Inspection::of(words)?),
            _ => return Request::of_check(matches),
        };
        Ok(Request { format, asked })
    }

    /// Returns what the words behind `check` ask for.
    fn of_check(matches: &ArgMatches<'a>) -> Result<Request<'a>, Mistake<'a>> {
        match matches.subcommand() {
            Some((claim, matches)) => Ok(Request {
                format: Format::of(matches),
                asked: Asked::Check(Check::of(claim, Words::Line(matches))?),
            }),
            None => match matches.get_str("batch") {
                Some(file) => Ok(Request {
                    format: Format::of(matches),
                    asked: Asked::Batch(Source::named(file)),
                }),
                None => Err(Mistake::Other(NO_CLAIM)),
            },
        }
    }
}

impl Format {
    /// Returns the format that the words ask for.
    fn of(matches: &ArgMatches<'_>) -> Format {
        if matches.get_flag("json") {
            Format::Json
        } else {
            Format::Text
        }
    }
}

impl<'a> Snapshot<'a> {
    /// Returns the snapshot that the words name.
    pub(crate) fn of(words: Words<'_, 'a>) -> Result<Snapshot<'a>, Mistake<'a>> {
        Ok(Snapshot {
            agreed: agreed_of(words, MOST_CHUNK)?,
            floor: words.number("floor")?,
            operations: Source::named(words.text("file")?),
        })
    }
}

impl<'a> Inspection<'a> {
    /// Returns the proof that the words name, and what it shows.
    fn of(words: Words<'_, 'a>) -> Result<Inspection<'a>, Mistake<'a>> {
        let shows = Shows::named(words.text("shows")?);
        let svg = words.text("svg").ok();
        if let (Shows::Range, Some(_)) = (shows, svg) {
            return Err(Mistake::Other(NO_PATH));
        }
        Ok(Inspection {
            agreed: agreed_of(words, MOST)?,
            shows,
            proof: Source::named(words.text("file")?),
            svg,
        })
    }
}

impl Shows {
    /// Returns what `word` names; an operation where it names nothing else.
    fn named(word: &str) -> Shows {
        match word {
            "range" => Shows::Range,
            "value" => Shows::Value,
            "absence" => Shows::Absence,
            _ => Shows::Operation,
        }
    }
}

impl<'a> Check<'a> {
    /// Returns the check of what is called `claim`, and of which the words tell the rest.
    pub(crate) fn of(claim: &str, words: Words<'_, 'a>) -> Result<Check<'a>, Mistake<'a>> {
        let agreed = agreed_of(words, MOST)?;
        let root = root_at(words, agreed.function)?;
        let claim = Claimed::of(claim, words)?;
        let database = claim.database(words, agreed)?;
        let Ok((database, kind)) = agreed_on(&[database]) else {
            return Err(Mistake::Other(NO_ENCODING));
        };
        let proof = words.given("proof")?;
        if claim.reads_twice(proof) {
            return Err(Mistake::Other(TWICE));
        }
        Ok(Check {
            database,
            kind,
            root,
            claim,
            proof,
        })
    }
}

impl<'a> Claimed<'a> {
    /// Returns what is called `claim`, and of which the words tell the rest.
    fn of(claim: &str, words: Words<'_, 'a>) -> Result<Claimed<'a>, Mistake<'a>> {
        match claim {
            "operation" => Ok(Claimed::Operation {
                at: words.number("at")?,
                operation: words.given("operation")?,
            }),
            "range" => Ok(Claimed::Range {
                start: words.number("start")?,
                operations: words.listed("operations")?,
                chunks: words.listed("chunks")?,
            }),
            "value" => Ok(Claimed::Value {
                key: words.given("key")?,
                value: words.given("value")?,
            }),
            "absence" => Ok(Claimed::Absence {
                key: words.given("key")?,
            }),
            _ => Err(Mistake::Other(NO_CLAIM)),
        }
    }

    /// Returns what the words name as agreed of the database that it is claimed of.
    fn database(&self, words: Words<'_, 'a>, agreed: Agreed) -> Result<Database, Mistake<'a>> {
        let database = database_of(&agreed);
        match self {
            Claimed::Operation { .. } => Ok(database),
            Claimed::Range { .. } => Ok(Database {
                max_digests: length_at(words, "max-digests", true, MOST_DIGESTS)?,
                ..database
            }),
            Claimed::Value { .. } => with_keys(words, database),
            Claimed::Absence { .. } => with_values(words, with_keys(words, database)?),
        }
    }

    /// Returns whether standard input is to have two of its parts, or one of them and `proof`.
    fn reads_twice(&self, proof: Given<'a>) -> bool {
        let (first, second) = match self {
            Claimed::Operation { operation, .. } => (operation.is_standard(), false),
            Claimed::Range {
                operations,
                chunks,
                ..
            } => (operations.is_standard(), chunks.is_standard()),
            Claimed::Value { key, value } => (key.is_standard(), value.is_standard()),
            Claimed::Absence { key } => (key.is_standard(), false),
        };
        first && second || (first || second) && proof.is_standard()
    }
}

/// Returns what is agreed of a database of which nothing is asked but operations.
fn database_of(agreed: &Agreed) -> Database {
    Database {
        family: agreed.family.number(),
        hash: agreed.function.number(),
        keys: ONE_SIZE,
        values: VARIABLE,
        chunk_size: agreed.chunk,
        min_key_length: 0,
        max_key_length: usize::MAX,
        min_value_length: 0,
        max_value_length: usize::MAX,
        max_digests: 0,
    }
}

/// Returns the same with the kind of keys, the lengths of keys and the encoding of values that the words name.
fn with_keys<'a>(words: Words<'_, 'a>, database: Database) -> Result<Database, Mistake<'a>> {
    let (keys, values) = (keys_of(words)?, values_of(words)?);
    let strings = keys == STRINGS;
    Ok(Database {
        keys,
        values,
        min_key_length: length_at(words, "min-key-length", strings, 0)?,
        max_key_length: length_at(words, "max-key-length", strings, usize::MAX)?,
        ..database
    })
}

/// Returns the kind of keys that the words name.
fn keys_of<'a>(words: Words<'_, 'a>) -> Result<u32, Mistake<'a>> {
    match words.text("keys")? {
        "one-size" => Ok(ONE_SIZE),
        "strings" => Ok(STRINGS),
        word => Err(none_of("keys", word)),
    }
}

/// Returns the encoding of values that the words name.
fn values_of<'a>(words: Words<'_, 'a>) -> Result<u32, Mistake<'a>> {
    match words.text("values")? {
        "variable" => Ok(VARIABLE),
        "sized" => Ok(SIZED),
        "fixed" => Ok(FIXED),
        word => Err(none_of("values", word)),
    }
}

/// Returns the same with the lengths of values that the words name, or with the one size that they have.
fn with_values<'a>(words: Words<'_, 'a>, database: Database) -> Result<Database, Mistake<'a>> {
    let variable = database.values == VARIABLE;
    let least = length_at(words, "min-value-length", variable, 0)?;
    let most = length_at(words, "max-value-length", variable, usize::MAX)?;
    let size = length_at(words, "value-size", !variable, 0)?;
    if variable {
        return Ok(with_lengths(database, least, most));
    }
    if words.has("value-size") {
        Ok(with_lengths(database, size, size))
    } else {
        Err(Mistake::Missing("value-size"))
    }
}

/// Returns the same with values of at least `least` and at most `most` bytes.
pub(crate) fn with_lengths(database: Database, least: usize, most: usize) -> Database {
    Database {
        min_value_length: least,
        max_value_length: most,
        ..database
    }
}

/// Returns the length that the word of the option `name` writes, and `usual` where there is none. It may be given where it
/// is `asked` for alone.
pub(crate) fn length_at<'a>(
    words: Words<'_, 'a>,
    name: &'static str,
    asked: bool,
    usual: usize,
) -> Result<usize, Mistake<'a>> {
    if !words.has(name) {
        Ok(usual)
    } else if asked {
        Ok(words.number(name)? as usize)
    } else {
        Err(Mistake::Needless(name))
    }
}

/// Returns what the words name as agreed, with a chunk of at most `most` bytes.
pub(crate) fn agreed_of<'a>(words: Words<'_, 'a>, most: usize) -> Result<Agreed, Mistake<'a>> {
    let (family, hash) = (words.text("family")?, hash_of(words)?);
    Ok(Agreed {
        family: Family::named(family).ok_or(none_of("family", family))?,
        function: Function::named(hash).ok_or(none_of("hash", hash))?,
        chunk: words.chunk(most)?,
    })
}

/// Returns the name of the digest function; SHA-256's where the words name none.
fn hash_of<'a>(words: Words<'_, 'a>) -> Result<&'a str, Mistake<'a>> {
    if words.has("hash") {
        words.text("hash")
    } else {
        Ok("sha256")
    }
}

/// Returns the root that is trusted, a digest of `function`.
pub(crate) fn root_at<'a>(words: Words<'_, 'a>, function: Function) -> Result<Root, Mistake<'a>> {
    let word = words.text("root")?;
    match root_of(word, function) {
        Some(root) => Ok(root),
        None => Err(mistake_in_root(word, function)),
    }
}

/// Returns what is wrong with `word`, which is no digest of `function`.
fn mistake_in_root(word: &str, function: Function) -> Mistake<'_> {
    if word.bytes().all(|byte| byte.is_ascii_hexdigit()) {
        return Mistake::Root { word, function };
    }
    Mistake::Digits {
        option: "root",
        mark: Mark::of_digits(word.as_bytes(), 1),
    }
}
