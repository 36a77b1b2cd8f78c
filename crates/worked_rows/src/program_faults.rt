//! Runs of the program whose input or output fails.

use stateproof_cli::run;
use std::alloc::Global;
use std::io::{self, ErrorKind, Read};
use std::test::Fail;
use storage_codec::NoMemory;

/// Returns the words of a command line.
fn words(alloc: Global) -> Result<Vec<String>, Fail> {
    let mut words = Vec::new(alloc);
    for word in ["root", "mmr", "1", "0"] {
        words.push(String::from_str(alloc, word)?)?;
    }
    Ok(words)
}

/// Refuses where a run that ended with status 2 was out of memory, by `errors`, the line that it wrote, or where the vector was
/// that it was written to: then the line is cut short.
fn run_had_memory(errors: &[u8]) -> Result<(), NoMemory> {
    if errors.ends_with(b"\n") && errors != b"stateproof: memory\n".as_slice() {
        Ok(())
    } else {
        Err(NoMemory)
    }
}

/// A reader of which every read fails.
#[derive(Drop)]
struct Unreadable;

impl Read for Unreadable {
    fn read(&mut self, _buf: &mut [u8]) -> io::Result<usize> {
        Err(io::Error::from(ErrorKind::PermissionDenied))
    }
}

#[test]
fn program_unreadable(rt: HostRuntime) -> Result<(), Fail> {
    let alloc = rt.alloc();
    let words = words(alloc)?;
    let mut output = Vec::new(alloc);
    let mut errors = Vec::new(alloc);
    assert_eq!(rt; run(alloc, &words, Unreadable, &mut output, &mut errors), 2);
    assert!(rt; output.is_empty());
    run_had_memory(&errors)?;
    assert_eq!(rt; errors.as_slice(), b"stateproof: input\n".as_slice());
    Ok(())
}

#[test]
fn program_failed_writes(rt: HostRuntime) -> Result<(), Fail> {
    let alloc = rt.alloc();
    let words = words(alloc)?;
    let mut room = [0u8; 10];
    let mut errors = Vec::new(alloc);
    let status = run(
        alloc,
        &words,
        b"1 ab".as_slice(),
        &mut room.as_mut_slice(),
        &mut errors,
    );
    assert_eq!(rt; status, 2);
    if !errors.is_empty() {
        run_had_memory(&errors)?;
    }
    assert!(rt; errors.is_empty());
    let mut output = Vec::new(alloc);
    let status = run(
        alloc,
        &words,
        b"1 a".as_slice(),
        &mut output,
        &mut room.as_mut_slice(),
    );
    assert_eq!(rt; status, 2);
    assert!(rt; output.is_empty());
    Ok(())
}
