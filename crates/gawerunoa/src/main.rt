//! Shows and checks what stands in a snapshot of operations under one root: `gawerunoa` over the arguments, files, standard input,
//! output and error.
#![tactic(auto)]

use gawerunoa_cli::fault::Fault;
use gawerunoa_cli::{fail, run};
use std::env;
use std::io::{self, ErrorKind};
use std::process::ExitCode;

/// Returns the words of the command line, of which the first is the program's name.
fn words(rt: &HostRuntime) -> Result<Vec<String>, Fault<'static>> {
    let mut words = Vec::new(rt.alloc());
    for word in env::args(rt).map_err(fault)? {
        words.push(word)?;
    }
    Ok(words)
}

/// Returns the fault where the words can't be read.
fn fault(error: io::Error) -> Fault<'static> {
    match error.kind() {
        ErrorKind::OutOfMemory => Fault::Memory,
        _ => Fault::NotUtf8,
    }
}

fn main(rt: HostRuntime) -> ExitCode {
    let status = match words(&rt) {
        Ok(words) => run(
            rt.alloc(),
            &rt,
            &words,
            rt.stdin(),
            &mut rt.stdout(),
            &mut rt.stderr(),
        ),
        Err(fault) => fail(&fault, &mut rt.stderr()),
    };
    ExitCode::from(status)
}
