//! A server that follows a log. Each line of the input is one of the log, or a question; a question is answered with a proof that a client can
//! check against the root at the end of the last batch.
#![tactic(auto)]

mod follower;
mod line;

use anyhow::{Context, Result};
use follower::Follower;
use line::Line;
use std::io::{BufRead, BufReader};

fn main(rt: HostRuntime) -> Result<()> {
    let mut follower = Follower::new(rt.alloc())?;
    for line in BufReader::new(rt.alloc(), rt.reader())?.lines(rt.alloc()) {
        let line = line?;
        let line = Line::parse(line.as_str()).context("no line of a log")?;
        if let Some(answer) = follower.answer(line)? {
            println!(rt; "{answer}")?;
        }
    }
    Ok(())
}
