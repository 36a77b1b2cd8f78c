//! The work of the program `gawerunoa`, over any files, reader and writers: its command line, what it reads, what it answers, and what
//! it says of a fault.
#![tactic(auto)]

ghost use Rattle.std.specs.Prelude.{◌≡◌, ◌<◌, ◌≤◌, IfOk};

pub mod agreed;
mod answer;
mod batch;
pub mod check;
pub mod claim;
mod command;
pub mod fault;
mod given;
mod hexadecimal;
mod inspect;
pub mod lines;
pub mod mark;
pub mod mistake;
pub mod operations;
mod over;
pub mod request;
pub mod shown;
pub mod source;
pub mod strings;
mod svg;
pub mod sync;
pub mod words;

use answer::{checked, print};
use batch::answer_lines;
use fault::Fault;
use inspect::inspected;
use over::{copied_over, shown_over};
use request::{Asked, Format, Request};
use source::Source;
use std::alloc::Global;
use std::fs;
use std::io::{Read, Write};
use std::rt::Files;

/// Runs the program over `words`, of which the first is its name, and answers the exit status: 0 for a yes, for what is
/// done, and for help; 1 for a no; 2 where the question is at fault, 3 where a file is, 4 where memory ran out. With 0
/// and 1 nothing is written to `errors`.
pub fn run<R: Files, I: Read + Drop, O: Write, E: Write>(
    alloc: Global,
    files: &R,
    words: &[String],
    input: I,
    output: &mut O,
    errors: &mut E,
) -> u8
    ensures status { result ≤ 4 }
    ensures answered { result < 2 → errors.new ≡ errors.old }
{
    match answered(alloc, files, words, input, output) {
        Ok(status) => status,
        Err(fault) => fail(&fault, errors),
    }
}

/// Writes the answer to `words` to `output`, and returns its status.
fn answered<'a, R: Files, I: Read + Drop, O: Write>(
    alloc: Global,
    files: &R,
    words: &'a [String],
    input: I,
    output: &mut O,
) -> Result<u8, Fault<'a>>
    ensures { IfOk result (λ status. status ≤ 3) }
{
    match Request::parse(alloc, words) {
        Ok(request) => carried_out(alloc, files, &request, input, output),
        Err(Fault::Words(error)) => helped(alloc, error, output),
        Err(fault) => Err(fault),
    }
}

/// Writes the answer to `request` to `output`, and returns its status.
fn carried_out<'a, R: Files, I: Read + Drop, O: Write>(
    alloc: Global,
    files: &R,
    request: &Request<'a>,
    mut input: I,
    output: &mut O,
) -> Result<u8, Fault<'a>>
    ensures { IfOk result (λ status. status ≤ 3) }
{
    let format = request.format;
    let answer = match &request.asked {
        Asked::Show { snapshot, at } => shown_over(alloc, files, snapshot, *at, format, input),
        Asked::Check(check) => checked(alloc, files, check, format, input),
        Asked::Inspect(inspection) => inspected(alloc, files, inspection, format, &mut input),
        Asked::Sync(part) => copied_over(alloc, files, part, &mut input, output),
        Asked::Batch(source) => {
            return answered_lines(alloc, files, *source, format, &mut input, output);
        }
    };
    match answer {
        Ok(answer) => told(output, answer.text.as_str(), answer.status),
        Err(fault) => Err(fault),
    }
}

/// Writes help, or the version, to `output` where that is what `error` says.
fn helped<'a, O: Write>(alloc: Global, error: clap::Error, output: &mut O) -> Result<u8, Fault<'a>>
    ensures { IfOk result (λ status. status ≡ 0) }
{
    if error.use_stderr() {
        return Err(Fault::Words(error));
    }
    let text = format!(in alloc; "{error}")?;
    told(output, text.as_str(), 0)
}

/// Answers the lines of `source`.
fn answered_lines<'a, R: Files, I: Read, O: Write>(
    alloc: Global,
    files: &R,
    source: Source<'a>,
    format: Format,
    input: &mut I,
    output: &mut O,
) -> Result<u8, Fault<'a>>
    ensures { IfOk result (λ status. status ≤ 3) }
{
    match source {
        Source::Standard => answer_lines(alloc, files, source, format, input, output),
        Source::File(name) => match fs::open(files, name) {
            Ok(mut file) => answer_lines(alloc, files, source, format, &mut file, output),
            Err(error) => Err(Fault::unread(source, error)),
        },
    }
}

/// Writes `text` to `output`, and returns `status`.
fn told<'a, O: Write>(output: &mut O, text: &str, status: u8) -> Result<u8, Fault<'a>>
    ensures { IfOk result (λ told. told ≡ status) }
{
    match print(output, text) {
        Ok(()) => Ok(status),
        Err(error) => Err(Fault::Unwritten(error)),
    }
}

/// Writes what `fault` says to `errors`, and answers its exit status.
pub fn fail<E: Write>(fault: &Fault<'_>, errors: &mut E) -> u8
    ensures least { 2 ≤ result }
    ensures most { result ≤ 4 }
{
    let _ = match fault {
        Fault::Words(error) => write!(errors, "{error}"),
        fault => writeln!(errors, "error: {fault}"),
    };
    fault.blame().status()
}
