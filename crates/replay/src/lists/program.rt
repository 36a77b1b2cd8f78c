//! Lists on the program, databases that it runs among them, and on checks from bytes.

use commonware_storage::digest::Hasher;
use commonware_storage::merkle::{Graftable, Location};
use replay_columns::answers::{Answer, Unblanked};
use replay_columns::columns::{Fault, Hex, Label, List, bytes, parse};
use replay_snapshots::shared::Given;
use stateproof_cli::run;
use std::alloc::Global;

/// What a run wrote, and its status.
#[derive(Drop)]
struct Outcome {
    status: u8,
    output: Vec<u8>,
    errors: Vec<u8>,
}

/// Returns a run over the words of a command line, with commas between them, and an input; `none` is no words. Want of memory
/// is no outcome.
fn outcome_of(alloc: Global, words: &str, input: &[u8]) -> Result<Outcome, Fault> {
    let words: List<String> = parse(alloc, &[words])?;
    let mut output = Vec::new(alloc);
    let mut errors = Vec::new(alloc);
    let status = run(alloc, &words.0, input, &mut output, &mut errors);
    // a vector refuses what is written to it for memory alone, and then the line is cut short
    let wants = !errors.ends_with(b"\n") || errors.as_slice() == b"stateproof: memory\n".as_slice();
    if status == 2 && wants {
        return Err(Fault::Memory);
    }
    Ok(Outcome {
        status,
        output,
        errors,
    })
}

/// `words input`: the status of a run over words with commas between them, `none` for none, and what it writes to its output and as
/// its error, each `-` for nothing.
pub fn runs(alloc: Global, columns: &[&str], out: &mut String) -> Result<(), Fault> {
    let [words, input] = columns else {
        return Err(Fault::Malformed);
    };
    let input = bytes(alloc, *input)?;
    let outcome = outcome_of(alloc, *words, &input)?;
    write!(out, "{} ", outcome.status)?;
    tell_lines(out, &outcome.output)?;
    out.push(' ')?;
    tell_lines(out, &outcome.errors)
}

/// `family chunk script`: the status of a run of `db` over the bytes of the script, and what it writes to its output and as its
/// error, in hexadecimal.
pub fn db(alloc: Global, columns: &[&str], out: &mut String) -> Result<(), Fault> {
    let [family, chunk, script] = columns else {
        return Err(Fault::Malformed);
    };
    let script = bytes(alloc, *script)?;
    let words = format!(in alloc; "db,{},{}", *family, *chunk)?;
    let outcome = outcome_of(alloc, words.as_str(), &script)?;
    write!(out, "{} ", outcome.status)?;
    (outcome.output, outcome.errors).tell(out)
}

/// Adds the lines of a text as a column; `-` for no text.
fn tell_lines(out: &mut String, text: &[u8]) -> Result<(), Fault> {
    match str::from_utf8(text) {
        Ok("") => Ok(out.push('-')?),
        Ok(text) => Unblanked(text.strip_suffix('\n').unwrap_or(text)).tell(out),
        Err(_) => Err(Fault::Malformed),
    }
}

/// `chunk location operation proof root label`: what a client answers, by both calls. The label says how the case was made.
pub fn program_checks<F: Graftable, H: Hasher>(
    alloc: Global,
    columns: &[&str],
    out: &mut String,
) -> Result<(), Fault> {
    let ((chunk_size, loc), (operation, proof), Hex(root), _): (
        (usize, Location<F>),
        (Vec<u8>, Vec<u8>),
        Hex<H::Digest>,
        Label,
    ) = parse(alloc, columns)?;
    let given = Given {
        proof,
        chunk_size,
        root,
    };
    given
        .shows_operation::<F, H>(alloc, loc, &operation)?
        .tell(out)
}
