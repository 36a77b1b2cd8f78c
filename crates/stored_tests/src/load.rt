//! A load of commits on a file, which is opened again and goes on after whatever fails. `tools/failing_files.py` has each call of the
//! system that reads, writes or syncs fail in turn, and kills the load there.

use crate::kept::{Change, Kept, Last, Refusal, close, in_memory, open, open_file};
use std::alloc::Global;
use std::fs::{self, File};
use std::io::{self, Write};
use std::process::Abort;
use std::test::Fail;

const FOLDER: &str = "stored_load";

/// What a killed run left, where a script put it for this one to go on.
const LEFT: &str = "stored_left";

const FILE: &str = "stored_load/a.db";

/// A file with a byte for each commit that was answered.
const ANSWERED: &str = "stored_load/answered";

const COMMITS: usize = 5;

/// How many commits were answered, and the file that tells it to later runs.
#[derive(Drop)]
struct Answered {
    count: usize,
    file: File,
}

/// Makes the changes of a commit, thirty puts and a deletion, and commits.
fn commit<D: Kept>(database: &mut D, number: u8) -> Result<(), Refusal> {
    for it in 0..30u8 {
        let key = it.wrapping_mul(3).wrapping_add(number.wrapping_mul(7)) % 64;
        database.change(Change::Put(key, u64::from(number)))?;
    }
    database.change(Change::Delete(number))?;
    database.change(Change::Commit)?;
    Ok(())
}

/// Adds the root before all commits, and that of each of them, to `roots`.
fn add_roots<D: Kept>(database: &mut D, roots: &mut Vec<Last>) -> Result<(), Fail> {
    roots.push(None)?;
    for number in 0..COMMITS {
        commit(database, number as u8)?;
        roots.push(database.root()?)?;
    }
    Ok(())
}

/// Returns these roots, of a database in memory.
fn roots(alloc: Global) -> Result<Vec<Last>, Fail> {
    let mut roots = Vec::new(alloc);
    let mut database = open(alloc, in_memory(alloc)?)?;
    add_roots(&mut database, &mut roots)?;
    Ok(roots)
}

/// How many commits leave this root. They are those that were answered, or one more.
fn commits_of(rt: &impl Abort, roots: &[Last], answered: usize, root: Last) -> usize {
    let Some(count) = roots.iter().position(|it| *it == root) else {
        panic!(rt; "no commit has this root");
    };
    assert!(rt;
        count.wrapping_sub(answered) < 2,
        "{count} commits where {answered} were answered"
    );
    count
}

/// Asserts that a database which refused a change tells the last commit that was answered, or nothing.
fn tells_answered<D: Kept>(rt: &impl Abort, database: &D, right: Option<&Last>) {
    match database.root() {
        Ok(told) => assert!(rt; right == Some(&told)),
        Err(error) => assert_eq!(rt; error, Refusal::Stopped),
    }
}

/// Sees that a database is at a commit, and goes on to the last one.
fn go_on<D: Kept>(
    rt: &impl Abort,
    database: &mut D,
    roots: &[Last],
    answered: &mut Answered,
) -> Result<(), Refusal> {
    answered.count = commits_of(rt, roots, answered.count, database.root()?);
    for number in answered.count..COMMITS {
        if let Err(error) = commit(database, number as u8) {
            tells_answered(rt, database, roots.get(number));
            return Err(error);
        }
        answered.count = number + 1;
        let _ = answered.file.write_all(b".");
    }
    Ok(())
}

/// Opens the file, goes on, and closes it.
fn attempt(
    files: &HostRuntime,
    rt: &impl Abort,
    roots: &[Last],
    answered: &mut Answered,
) -> Result<(), Refusal> {
    let mut database = open_file(files, FILE)?;
    go_on(rt, &mut database, roots, answered)?;
    close(database)
}

/// Goes on to the last commit, and once more where something fails.
fn go_on_twice(
    files: &HostRuntime,
    rt: &impl Abort,
    roots: &[Last],
    answered: &mut Answered,
) -> Result<(), Refusal> {
    if attempt(files, rt, roots, answered).is_ok() {
        return Ok(());
    }
    attempt(files, rt, roots, answered)
}

/// Makes the folder, of what was left if something was, and tells how many commits were answered.
fn begin(rt: &HostRuntime) -> io::Result<Answered> {
    if fs::exists(rt, FOLDER)? {
        fs::remove_dir_all(rt, FOLDER)?;
    }
    if fs::exists(rt, LEFT)? {
        fs::rename(rt, LEFT, FOLDER)?;
    } else {
        fs::create_dir(rt, FOLDER)?;
    }
    let file = File::options()
        .create(true)
        .append(true)
        .open(rt, ANSWERED)?;
    let count = file.metadata()?.len() as usize;
    Ok(Answered { count, file })
}

#[test]
fn a_load_goes_on_after_what_fails(rt: HostRuntime) -> Result<(), Fail> {
    let roots = roots(rt.alloc())?;
    let mut answered = begin(&rt)?;
    go_on_twice(&rt, &rt, roots.as_slice(), &mut answered)?;
    assert_eq!(rt; answered.count, COMMITS);
    go_on_twice(&rt, &rt, roots.as_slice(), &mut answered)?;
    fs::remove_dir_all(&rt, FOLDER)?;
    Ok(())
}
