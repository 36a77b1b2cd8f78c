//! A server. It keeps a database of names and values; each line of the input is a command, and a question is answered with a
//! proof that a client can check against the root.
#![tactic(auto)]

mod command;
mod server;

use anyhow::{Context, Result};
use command::Command;
use server::Server;
use std::io::{BufRead, BufReader};

fn main(rt: HostRuntime) -> Result<()> {
    let mut server = Server::new(rt.alloc());
    for line in BufReader::new(rt.alloc(), rt.reader())?.lines(rt.alloc()) {
        let line = line?;
        let command = Command::parse(line.as_str()).context("no such command")?;
        if let Some(answer) = server.answer(command)? {
            println!(rt; "{answer}")?;
        }
    }
    Ok(())
}
