//! Lists on proofs that a store and a log serve, each of which may fail.

use crate::faulty::{ALWAYS, LOG_FAULT, NONE, STORE_FAULT};
use crate::kept::Asked;
use crate::snapshots::Span;
use replay_columns::answers::Answer;
use replay_columns::columns::{Column, Columns, Fault, halves, number, parse};
use std::alloc::Global;

/// More answers of a store, or of a log, than a proof of a case asks for.
const ENOUGH: u32 = 8;

/// More answers of a store than a case asks for.
const MANY: u32 = 1000;

/// What a store is asked for, and a log.
#[derive(Clone, Copy)]
pub enum Wanted {
    /// Each node.
    Nodes,
    /// The proof of the operation at a location.
    Operation(u64),
    /// The proof of the operations from one location to before another.
    Range(u64, u64),
    /// The proof of the operations from a location on, of so many at most, with these from a log.
    WithOperations(u64, u64),
}

/// Where a store has its nodes from.
#[derive(Clone, Copy)]
pub enum Nodes {
    /// The snapshot's grafted view.
    View,
    /// A tree over the chunks, with how many of them are pruned, or one without nodes; and a tree over the operations.
    Trees(Option<u64>),
}

/// What is asked for, and of what.
#[derive(Clone, Copy)]
pub struct Call {
    pub wanted: Wanted,
    pub nodes: Nodes,
    /// How many chunks of the status are pruned.
    pub pruned: u64,
    /// The position that the store lacks.
    pub lacks: u64,
    /// How many nodes the store says to have, where it does not tell the truth.
    pub size: Option<u64>,
    /// The first location that the log holds.
    pub first: u64,
}

impl Call {
    /// Returns what is asked for of these nodes, if no chunk of the status is pruned.
    pub fn of(nodes: Nodes, wanted: Wanted) -> Self {
        Call {
            wanted,
            nodes,
            pruned: 0,
            lacks: NONE,
            size: None,
            first: 0,
        }
    }
}

/// Both trees, where nothing is pruned.
const TREES: Nodes = Nodes::Trees(Some(0));

/// `location pruned grafted absent`.
impl Column for Call {
    fn read(alloc: Global, columns: &mut Columns<'_>) -> Result<Call, Fault> {
        let (location, pruned): (u64, u64) = Column::read(alloc, columns)?;
        let grafted = unless("empty", columns.text()?)?;
        let lacks = unless("none", columns.text()?)?;
        let mut call = Call::of(Nodes::Trees(grafted), Wanted::Operation(location));
        call.pruned = pruned;
        call.lacks = lacks.unwrap_or(NONE);
        Ok(call)
    }
}

/// Returns the number that a text is, if it is not this word.
fn unless(word: &str, text: &str) -> Result<Option<u64>, Fault> {
    if text == word {
        Ok(None)
    } else {
        Ok(Some(number(text)?))
    }
}

/// How many answers a store and a log have left, and the codes that they fail with then.
#[derive(Clone, Copy)]
pub struct Left {
    pub nodes: u64,
    pub items: u64,
    pub codes: (u32, u32),
}

/// More answers than anyone asks for.
pub const ALL: Left = Left {
    nodes: ALWAYS,
    items: ALWAYS,
    codes: (STORE_FAULT, LOG_FAULT),
};

impl Left {
    /// So many answers of the store, with their number as its code, and all of the log.
    fn of_store(nodes: u32) -> Self {
        Left {
            nodes: nodes as u64,
            items: ALWAYS,
            codes: (nodes, LOG_FAULT),
        }
    }
}

/// How often a store was asked and failed, and how often a log failed.
#[derive(Clone, Copy)]
pub struct Counts {
    pub calls: u64,
    pub failures: u64,
    pub log_failures: u64,
}

/// `location pruned grafted absent`: the proof of the operation at the location, or the refusal, where `pruned` chunks of the status and
/// `grafted` chunks of the tree over chunks are pruned, or that tree is `empty`, and the one over the operations lacks a position or
/// `none`.
pub fn combined<S: Asked>(
    alloc: Global,
    kept: &S,
    columns: &[&str],
    out: &mut String,
) -> Result<(), Fault> {
    let call: Call = parse(alloc, columns)?;
    kept.fetch(alloc, &call, ALL, out)?;
    Ok(())
}

/// Returns the same with a last column, how many digests the tree over the operations answers: the proof or the
/// refusal, and how often that tree was asked and failed.
pub fn combined_asked<S: Asked>(
    alloc: Global,
    kept: &S,
    columns: &[&str],
    out: &mut String,
) -> Result<(), Fault> {
    let (call, left): (Call, u64) = parse(alloc, columns)?;
    let left = Left {
        nodes: left,
        items: ALWAYS,
        codes: (STORE_FAULT, LOG_FAULT),
    };
    let asked = kept.fetch(alloc, &call, left, out)?;
    Ok(write!(out, " {} {}", asked.calls, asked.failures)?)
}

/// Returns how many nodes both trees have, where each is that of the snapshot's grafted view, and there are none after
/// them.
pub fn combined_views<S: Asked>(alloc: Global, kept: &S, out: &mut String) -> Result<(), Fault> {
    kept.fetch(alloc, &Call::of(TREES, Wanted::Nodes), ALL, out)?;
    Ok(())
}

/// Where each position is asked for in turn, the first one whose read fails, and how many reads fail, for each number of answers of
/// the tree over the operations from 0 to that with which none fails, `-`. All other reads are answered as by the snapshot's grafted
/// view, and after its nodes there are none.
pub fn combined_reads<S: Asked>(alloc: Global, kept: &S, out: &mut String) -> Result<(), Fault> {
    let call = Call::of(TREES, Wanted::Nodes);
    for left in 0..MANY {
        let mut read = String::new(alloc);
        let counts = kept.fetch(alloc, &call, Left::of_store(left), &mut read)?;
        if counts.failures == 0 {
            break;
        }
        out.push_str(read.as_str())?;
        out.push(',')?;
    }
    Ok(out.push('-')?)
}

/// `start most`: what is told of the proof of the operation at `start`, of the proof of at most `most` operations from there on, and of
/// that proof with the operations from a log: for each number of answers of the tree over the operations from 0 to 7, and at last in
/// it for each of the log, its fault, `s`, that of the log, `l`, or the same as where nothing fails, `=`.
pub fn combined_marks<S: Asked>(
    alloc: Global,
    kept: &S,
    columns: &[&str],
    out: &mut String,
) -> Result<(), Fault> {
    let Span { start, end, count } = parse(alloc, columns)?;
    tell_row(alloc, kept, &Call::of(TREES, Wanted::Operation(start)), out)?;
    out.push(' ')?;
    tell_row(
        alloc,
        kept,
        &Call::of(TREES, Wanted::Range(start, end)),
        out,
    )?;
    out.push(' ')?;
    let call = Call::of(TREES, Wanted::WithOperations(start, count));
    let own = text_of(alloc, kept, &call)?;
    tell_rows(alloc, kept, &call, own.as_str(), None, out)
}

/// Returns what is told where nothing fails.
fn text_of<S: Asked>(alloc: Global, kept: &S, call: &Call) -> Result<String, Fault> {
    let mut text = String::new(alloc);
    kept.fetch(alloc, call, ALL, &mut text)?;
    Ok(text)
}

/// `start most`: the operations that both trees and a log serve, their chunks, and whether the proof is accepted, if it
/// is also the one without operations and the snapshot's own.
pub fn combined_ranges<S: Asked>(
    alloc: Global,
    kept: &S,
    columns: &[&str],
    out: &mut String,
) -> Result<(), Fault> {
    let Span { start, end, count } = parse(alloc, columns)?;
    let own = text_of(
        alloc,
        kept,
        &Call::of(Nodes::View, Wanted::Range(start, end)),
    )?;
    let call = Call::of(TREES, Wanted::Range(start, end));
    if text_of(alloc, kept, &call)? != own {
        return Err(Fault::Differs);
    }
    let with = text_of(
        alloc,
        kept,
        &Call::of(TREES, Wanted::WithOperations(start, count)),
    )?;
    let (proof, parts) = halves(with.as_str(), ' ')?;
    if proof != own.as_str() {
        return Err(Fault::Differs);
    }
    out.push_str(parts)?;
    out.push(' ')?;
    kept.shows_range(alloc, start, end)?.tell(out)
}

/// `pruned nodes first start most`: what is answered where `pruned` chunks of the status are pruned, the store says to
/// have `nodes` nodes, or as many as it has if that is `-`, the log begins at `first`, and at most `most` operations
/// from `start` on are asked for: the proof, the operations and their chunks, or the refusal. Then, for each number of
/// answers of the store from 0 to 7, and in it of the log, what is told: the fault of the store, `s`, that of the log,
/// `l`, or the same, `=`.
pub fn fetched_ranges<S: Asked>(
    alloc: Global,
    kept: &S,
    columns: &[&str],
    out: &mut String,
) -> Result<(), Fault> {
    let (pruned, size, first, (start, most)): (u64, Option<u64>, u64, (u64, u64)) = parse(
        alloc, columns,
    )?;
    let mut call = Call::of(Nodes::View, Wanted::WithOperations(start, most));
    call.pruned = pruned;
    call.size = size;
    call.first = first;
    let own = text_of(alloc, kept, &call)?;
    out.push_str(own.as_str())?;
    out.push(' ')?;
    let codes = Some((STORE_FAULT, LOG_FAULT));
    tell_rows(alloc, kept, &call, own.as_str(), codes, out)
}

/// Adds what is told for each number of answers of the store, with this number as its code.
fn tell_row<S: Asked>(alloc: Global, kept: &S, call: &Call, out: &mut String) -> Result<(), Fault> {
    let own = text_of(alloc, kept, call)?;
    for nodes in 0..ENOUGH {
        out.push(mark(alloc, kept, call, Left::of_store(nodes), own.as_str())?)?;
    }
    Ok(())
}

/// Adds what is told for each number of answers of the store, and in it of the log, if `own` is told with all of
/// them. Where no codes are said both numbers are.
fn tell_rows<S: Asked>(
    alloc: Global,
    kept: &S,
    call: &Call,
    own: &str,
    codes: Option<(u32, u32)>,
    out: &mut String,
) -> Result<(), Fault> {
    for nodes in 0..ENOUGH {
        if nodes > 0 {
            out.push('/')?;
        }
        for items in 0..ENOUGH {
            let left = Left {
                nodes: nodes as u64,
                items: items as u64,
                codes: codes.unwrap_or((nodes, items)),
            };
            out.push(mark(alloc, kept, call, left, own)?)?;
        }
    }
    Ok(())
}

/// `s` if the store's one fault is told, `l` if the log's is, with their codes, `=` where neither failed and the answer
/// is `own`.
fn mark<S: Asked>(
    alloc: Global,
    kept: &S,
    call: &Call,
    left: Left,
    own: &str,
) -> Result<char, Fault> {
    let mut text = String::new(alloc);
    let counts = kept.fetch(alloc, call, left, &mut text)?;
    let (mark, fault) = match (counts.failures, counts.log_failures) {
        (1, 0) => ('s', format!(in alloc; "Q3(E13({}))", left.codes.0)?),
        (0, 1) => ('l', format!(in alloc; "Q4({})", left.codes.1)?),
        (0, 0) if text.as_str() == own => return Ok('='),
        _ => return Err(Fault::Differs),
    };
    if text == fault {
        Ok(mark)
    } else {
        Err(Fault::Differs)
    }
}
