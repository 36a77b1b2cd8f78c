//! Lists on snapshots, their roots, and their own proofs of ranges, of single operations and of what these say of keys.

use crate::kept::{Asked, Key};
use crate::stores::{ALL, Call, Nodes, Wanted};
use replay_columns::answers::Answer;
use replay_columns::columns::{Column, Columns, Fault, number, parse};
use std::alloc::Global;

/// `start count`: locations from `start` to before `end`.
#[derive(Clone, Copy)]
pub struct Span {
    pub start: u64,
    pub count: u64,
    pub end: u64,
}

impl Column for Span {
    fn read(alloc: Global, columns: &mut Columns<'_>) -> Result<Span, Fault> {
        let (start, count): (u64, u64) = Column::read(alloc, columns)?;
        match start.checked_add(count) {
            Some(end) => Ok(Span { start, count, end }),
            None => Err(Fault::Malformed),
        }
    }
}

/// Adds the bytes of a proof from the nodes of the grafted view, behind a blank; `-` for none.
fn tell_own<S: Asked>(
    alloc: Global,
    kept: &S,
    wanted: Option<Wanted>,
    out: &mut String,
) -> Result<(), Fault> {
    out.push(' ')?;
    match wanted {
        Some(wanted) => {
            kept.fetch(alloc, &Call::of(Nodes::View, wanted), ALL, out)?;
            Ok(())
        }
        None => Ok(out.push('-')?),
    }
}

/// `start count`: the canonical root, that of the operations, the grafted root, the witness, the proof of `count`
/// operations from `start` on, `-` if they are none, and that of the operation at `start` if it is the only one, else
/// `-`.
pub fn golden<S: Asked>(
    alloc: Global,
    kept: &S,
    columns: &[&str],
    out: &mut String,
) -> Result<(), Fault> {
    let Span { start, count, end } = parse(alloc, columns)?;
    let range = (count > 0).then_some(Wanted::Range(start, end));
    let operation = (count == 1).then_some(Wanted::Operation(start));
    kept.tell_roots(alloc, out)?;
    tell_own(alloc, kept, range, out)?;
    tell_own(alloc, kept, operation, out)
}

/// `start count`: the proof of `count` operations from `start` on, the canonical root, and what a client answers of them.
pub fn ranges<S: Asked>(
    alloc: Global,
    kept: &S,
    columns: &[&str],
    out: &mut String,
) -> Result<(), Fault> {
    let Span { start, end, .. } = parse(alloc, columns)?;
    let call = Call::of(Nodes::View, Wanted::Range(start, end));
    kept.fetch(alloc, &call, ALL, out)?;
    out.push(' ')?;
    kept.tell_root(out)?;
    out.push(' ')?;
    kept.shows_range(alloc, start, end)?.tell(out)
}

/// Adds a digit for each location, 1 where the snapshot's own proof of the operation there, which is built, written
/// and checked from the bytes, is accepted.
pub fn each_operation<S: Asked>(alloc: Global, kept: &S, out: &mut String) -> Result<(), Fault> {
    for location in 0..kept.count() {
        let yes = kept.shows_operation(alloc, location)?;
        out.push(if yes { '1' } else { '0' })?;
    }
    Ok(())
}

/// Of how many ranges that are not empty the snapshot's own proof, which is built, written and checked from the bytes, is accepted.
pub fn each_range<S: Asked>(alloc: Global, kept: &S, out: &mut String) -> Result<(), Fault> {
    let mut shown: u64 = 0;
    for start in 0..kept.count() {
        for last in start..kept.count() {
            if kept.shows_range(alloc, start, last.saturating_add(1))? {
                shown = shown.saturating_add(1);
            }
        }
    }
    shown.tell(out)
}

/// `location key value`: whether the operation at the location shows that the key, of four bytes, has the value, a
/// number, or none if that is `absent`; and how many bytes the proof has.
pub fn keyed<S: Asked>(
    alloc: Global,
    kept: &S,
    columns: &[&str],
    out: &mut String,
) -> Result<(), Fault> {
    let [columns @ .., value] = columns else {
        return Err(Fault::Malformed);
    };
    let (location, key): (u64, Key) = parse(alloc, columns)?;
    let shown = match *value {
        "absent" => kept.shows_absence(alloc, location, key)?,
        value => kept.shows_value(alloc, location, key, number(value)?)?,
    };
    shown.tell(out)
}
