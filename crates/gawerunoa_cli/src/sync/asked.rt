//! What is asked of `sync`.

use crate::agreed::Agreed;
use crate::answer::MOST_CHUNK;
use crate::fault::Fault;
use crate::given::Words;
use crate::mistake::{Mistake, TWICE};
use crate::request::{MOST_DIGESTS, Snapshot, agreed_of, length_at, root_at};
use crate::source::Source;
use clap::ArgMatches;
use commonware_storage::qmdb::sync::Limits;
use light_questions::agreed::Root;
use std::alloc::Global;

/// The most operations of a page where nothing is said: as many as the longest chunk of a snapshot has.
const MOST_OPERATIONS: usize = 8 * MOST_CHUNK;

/// The most bytes of an operation where nothing is said.
const MOST_OPERATION: usize = 65_536;

/// The part that is played.
#[derive(Drop)]
pub enum Part<'a> {
    /// The one who serves this snapshot.
    Serve(Snapshot<'a>),
    /// The one who asks.
    Ask(Ask<'a>),
}

/// What is asked for.
#[derive(Drop)]
pub struct Ask<'a> {
    /// What is agreed of the snapshot.
    pub agreed: Agreed,
    /// Its canonical root.
    pub root: Root,
    /// What a page may have.
    pub limits: Limits,
    /// The floor that the copy is to have the root with, where one is told.
    pub floor: Option<u64>,
    /// The peers; if there are none, standard input and output are those of one.
    pub peers: Vec<Names<'a>>,
    /// Where the copy goes.
    pub copy: Source<'a>,
}

/// The files by which a peer is asked.
#[derive(Clone, Copy)]
pub struct Names<'a> {
    /// The one that requests are written to.
    pub requests: &'a str,
    /// The one that pages are read from.
    pub pages: &'a str,
}

impl<'a> Part<'a> {
    /// Returns what is agreed of the snapshot.
    pub(crate) fn agreed(&self) -> Agreed {
        match self {
            Part::Serve(snapshot) => snapshot.agreed,
            Part::Ask(ask) => ask.agreed,
        }
    }

    /// Returns the part that the words name.
    pub(crate) fn of(alloc: Global, matches: &ArgMatches<'a>) -> Result<Part<'a>, Fault<'a>> {
        match matches.subcommand() {
            Some(("serve", matches)) => { Ok(Part::Serve(served(Words::Line(matches))?)) }
            Some((_, matches)) => Ok(Part::Ask(Ask::of(alloc, matches)?)),
            None => Err(Fault::Question(Mistake::Missing("subcommand"))),
        }
    }
}

impl<'a> Ask<'a> {
    /// Returns what the words ask for.
    fn of(alloc: Global, matches: &ArgMatches<'a>) -> Result<Ask<'a>, Fault<'a>> {
        let words = Words::Line(matches);
        let agreed = agreed_of(words, MOST_CHUNK)?;
        Ok(Ask {
            agreed,
            limits: limits_of(words)?,
            floor: floor_of(words)?,
            root: root_at(words, agreed.function)?,
            peers: peers_of(alloc, matches.get_strs("peer").unwrap_or(&[]))?,
            copy: Source::named(words.text("file")?),
        })
    }
}

/// Returns the snapshot to be served that the words name; its operations must be in a file.
fn served<'a>(words: Words<'_, 'a>) -> Result<Snapshot<'a>, Mistake<'a>> {
    let snapshot = Snapshot::of(words)?;
    if snapshot.operations.is_standard() {
        Err(Mistake::Other(TWICE))
    } else {
        Ok(snapshot)
    }
}

/// Returns what a page may have, as the words name it.
fn limits_of<'a>(words: Words<'_, 'a>) -> Result<Limits, Mistake<'a>> {
    Ok(Limits {
        max_ops: length_at(words, "max-operations", true, MOST_OPERATIONS)? as u64,
        max_operation_len: length_at(words, "max-operation-length", true, MOST_OPERATION)?,
        max_digests: length_at(words, "max-digests", true, MOST_DIGESTS)?,
    })
}

/// Returns the floor that the words name, if they name one.
fn floor_of<'a>(words: Words<'_, 'a>) -> Result<Option<u64>, Mistake<'a>> {
    if words.has("floor") {
        Ok(Some(words.number("floor")?))
    } else {
        Ok(None)
    }
}

/// Returns the files of the peers that `words` name.
fn peers_of<'a>(alloc: Global, words: &[&'a str]) -> Result<Vec<Names<'a>>, Fault<'a>> {
    let mut peers = Vec::new(alloc);
    for word in words {
        peers.push(names_of(word)?)?;
    }
    Ok(peers)
}

/// Returns the files that `word` names.
fn names_of<'a>(word: &'a str) -> Result<Names<'a>, Mistake<'a>> {
    match word.split_once(',') {
        Some((requests, pages)) => Ok(Names { requests, pages }),
        None => Err(Mistake::Word {
            option: "peer",
            word,
            expected: "two files, the one for requests and the one for pages: REQUESTS,PAGES",
        }),
    }
}
