//! Proves that an operation stands in a list of operations and is active, and checks such a proof: `stateproof` over the
//! arguments, standard input, output and error.
#![tactic(auto)]

use stateproof_cli::{Fault, fail, run};
use std::env;
use std::io::{self, ErrorKind};
use std::process::ExitCode;

/// Returns the arguments, the program's own name left out. One that is not UTF-8 is none that the program takes.
fn words(rt: &HostRuntime) -> Result<Vec<String>, Fault> {
    let mut words = Vec::new(rt.alloc());
    for word in env::args(rt).map_err(fault)?.skip(1) {
        words.push(word)?;
    }
    Ok(words)
}

/// Returns the fault where the arguments can't be read.
fn fault(error: io::Error) -> Fault {
    match error.kind() {
        ErrorKind::OutOfMemory => Fault::Memory,
        _ => Fault::Usage,
    }
}

fn main(rt: HostRuntime) -> ExitCode {
    let status = match words(&rt) {
        Ok(words) => run(
            rt.alloc(),
            &words,
            rt.stdin(),
            &mut rt.stdout(),
            &mut rt.stderr(),
        ),
        Err(fault) => fail(fault, &mut rt.stderr()),
    };
    ExitCode::from(status)
}
