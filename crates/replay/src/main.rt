//! Answers each line of the lists on standard input: a list's name and the columns of one case. A case that was worked by hand has
//! its row's name and a colon before them. The other cases were made by an independent program that computes the definitions over
//! whole lists; `stdout` has the answers.
#![tactic(auto)]

mod lists;

use replay_columns::columns::Fault;
use std::alloc::{AllocError, Global};
use std::io;
use std::io::{BufRead, BufReader, BufWriter, Write};

/// Returns the line to print for a line of the lists.
fn reply(alloc: Global, line: &str) -> Result<String, AllocError> {
    let mut answer = String::new(alloc);
    match lists::answer(alloc, line, &mut answer) {
        Ok(()) => Ok(answer),
        Err(Fault::Malformed) => String::from_str(alloc, "malformed"),
        Err(Fault::Differs) => String::from_str(alloc, "differs"),
        Err(Fault::Memory) => Err(AllocError),
    }
}

fn main(rt: HostRuntime) -> io::Result<()> {
    let mut out = BufWriter::new(rt.alloc(), io::writer(&rt))?;
    for line in BufReader::new(rt.alloc(), rt.reader())?.lines(rt.alloc()) {
        let line = line?;
        let answer = reply(rt.alloc(), line.as_str())?;
        out.write_all(answer.as_bytes())?;
        out.write_all(b"\n")?;
    }
    out.flush()
}
