//! Long work: what is measured, and checks of what is altered or said to be something else. Each line of standard input is one piece of
//! it: the name of measured work and the words that say more, or the name of a row and a colon, and a case of it. The work is done before
//! the next line is read; for each line the program prints what the work answers.
#![tactic(auto)]

mod bitmap;
mod calls;
mod cases;
mod columns;
mod commands;
mod copied;
mod database;
mod extended;
mod hash;
mod snapshot;

use columns::Fault;
use std::alloc::{AllocError, Global};
use std::io::{self, BufRead, BufReader, BufWriter, ErrorKind, Write};

/// Returns what the work of `words` answers.
fn answer(alloc: Global, words: &[&str]) -> Result<String, Fault> {
    let [work, words @ ..] = words else {
        return Err(Fault::Malformed);
    };
    match *work {
        "hash" => hash::reply(alloc, words),
        "bitmap" => bitmap::reply(alloc, words),
        "snapshot" => snapshot::reply(alloc, words),
        "database" => database::reply(alloc, words),
        "commands" => commands::reply(alloc, words),
        "served" | "kept" | "copied" => copied::reply(alloc, *work, words),
        "extend" | "prove" => extended::reply(alloc, *work, words),
        "check" => cases::check(alloc, words),
        row => cases::reply(alloc, row, words),
    }
}

/// Returns the lines to print for `line`, a line of the input.
fn reply(alloc: Global, line: &str) -> io::Result<String> {
    let words: Vec<&str> = line.split(' ').collect(alloc)?;
    match answer(alloc, &words) {
        Ok(answer) => Ok(answer),
        Err(Fault::Malformed) => Err(io::Error::from(ErrorKind::InvalidInput)),
        Err(Fault::Memory) => Err(io::Error::from(AllocError)),
    }
}

fn main(rt: HostRuntime) -> io::Result<()> {
    let mut out = BufWriter::new(rt.alloc(), io::writer(&rt))?;
    for line in BufReader::new(rt.alloc(), rt.reader())?.lines(rt.alloc()) {
        let line = line?;
        let answer = reply(rt.alloc(), line.as_str())?;
        out.write_all(answer.as_bytes())?;
        out.write_all(b"\n")?;
    }
    out.flush()
}
