//! A stored database that is given commands which look random, and is opened again anywhere among them, beside a plain map.

use crate::kept::{Change, InMemory, Kept, Refusal, committed, connection, in_memory, open, value};
use std::alloc::Global;
use std::process::Abort;
use std::test::Fail;
use storage_codec::codec::FixedBytes;

/// The root after the commands and a commit, from tools/database.py, which makes each snapshot anew.
const ROOT: FixedBytes<32> = FixedBytes {
    bytes: [
        0x94, 0x9d, 0x2f, 0xa0, 0x08, 0x55, 0x47, 0x73, 0x2d, 0x6d, 0xf0, 0xae, 0x39, 0x10, 0xb2,
        0x39, 0x10, 0x26, 0xda, 0x67, 0xd5, 0xfd, 0x77, 0xb7, 0x90, 0x3b, 0x81, 0x6e, 0x60, 0x7c,
        0xee, 0x34,
    ],
};

/// What the keys have, now and at the last commit.
#[derive(Drop)]
struct Plain {
    now: [Option<u64>; 256],
    committed: [Option<u64>; 256],
}

/// Opens a database again: what was put and deleted since the last commit is forgotten, and the root is as it was.
fn open_again(
    rt: &impl Abort,
    alloc: Global,
    database: InMemory,
    plain: &mut Plain,
) -> Result<InMemory, Refusal> {
    let before = database.root()?;
    let database = open(alloc, connection(database))?;
    assert_eq!(rt; database.root()?, before);
    plain.now = plain.committed;
    Ok(database)
}

/// Does what the number `draw` says with a key, and with the plain map: a commit, a deletion or a put.
fn change<D: Kept>(
    rt: &impl Abort,
    database: &mut D,
    plain: &mut Plain,
    key: u8,
    draw: u64,
) -> Result<(), Refusal> {
    match (draw >> 40) % 16 {
        0 => {
            database.change(Change::Commit)?;
            plain.committed = plain.now;
        }
        1..6 => {
            let had = database.change(Change::Delete(key))?;
            assert_eq!(rt; had, plain.now[key as usize].is_some());
            plain.now[key as usize] = None;
        }
        _ => {
            database.change(Change::Put(key, draw))?;
            plain.now[key as usize] = Some(draw);
        }
    }
    Ok(())
}

/// Asserts that the database has what the map has of a key, now and at the last commit.
fn compare(rt: &impl Abort, database: &InMemory, plain: &Plain, key: u8) -> Result<(), Refusal> {
    assert_eq!(rt; value(database, key)?, plain.now[key as usize]);
    assert_eq!(rt; committed(database, key)?, plain.committed[key as usize]);
    Ok(())
}

/// Does what `draw` says with a database and the plain map, and compares two keys.
fn step(
    rt: &impl Abort,
    alloc: Global,
    mut database: InMemory,
    plain: &mut Plain,
    draw: u64,
) -> Result<InMemory, Refusal> {
    let [first, second, what, ..] = draw.to_be_bytes();
    if what % 16 == 1 {
        database = open_again(rt, alloc, database, plain)?;
    } else {
        change(rt, &mut database, plain, first % 8, draw)?;
    }
    compare(rt, &database, plain, first % 8)?;
    compare(rt, &database, plain, second % 8)?;
    Ok(database)
}

/// Gives a database without operations a thousand commands over eight keys, which `draw` settles, and commits.
fn run(
    rt: &impl Abort,
    alloc: Global,
    mut database: InMemory,
    mut draw: u64,
) -> Result<InMemory, Refusal> {
    let mut plain = Plain {
        now: [None; 256],
        committed: [None; 256],
    };
    for _ in 0..1_000u64 {
        draw = draw
            .wrapping_mul(6_364_136_223_846_793_005)
            .wrapping_add(1_442_695_040_888_963_407);
        database = step(rt, alloc, database, &mut plain, draw)?;
    }
    database.change(Change::Commit)?;
    Ok(database)
}

#[test]
fn a_thousand_commands_are_kept(rt: HostRuntime) -> Result<(), Fail> {
    let alloc = rt.alloc();
    let database = open(alloc, in_memory(alloc)?)?;
    let database = run(&rt, alloc, database, 59)?;
    let database = open(alloc, connection(database))?;
    assert_eq!(rt; database.root()?, Some(ROOT));
    Ok(())
}
