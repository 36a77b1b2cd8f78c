//! Answers to the questions on the lines of a file, one after another.

ghost use Rattle.std.specs.Prelude.{◌≤◌, IfOk};

use crate::answer::{Answer, checked, print};
use crate::fault::Fault;
use crate::given::Words;
use crate::lines::{READ_AT_ONCE, advance};
use crate::mistake::{Mistake, NO_OBJECT};
use crate::request::{Check, Format};
use crate::source::Source;
use serde_json::Value;
use std::alloc::{AllocError, Global};
use std::io::{BufReader, Read, Write};
use std::rt::Files;

/// The names that members may have.
static NAMES: [&str; 21] = [
    "check",
    "family",
    "hash",
    "chunk",
    "root",
    "at",
    "operation",
    "start",
    "operations",
    "chunks",
    "max-digests",
    "keys",
    "values",
    "min-key-length",
    "max-key-length",
    "value-size",
    "min-value-length",
    "max-value-length",
    "key",
    "value",
    "proof",
];

/// Answers the questions on the lines of `input`, which is `source`: a line is an object with the words of a check. Writes
/// a line for each to `output`, in their order, and returns the greatest status, which is 3 where a line is at fault.
pub(crate) fn answer_lines<'a, R: Files, I: Read, O: Write>(
    alloc: Global,
    files: &R,
    source: Source<'a>,
    format: Format,
    input: &mut I,
    output: &mut O,
) -> Result<u8, Fault<'a>>
    ensures { IfOk result (λ status. status ≤ 3) }
{
    let Ok(mut input) = BufReader::with_capacity(alloc, READ_AT_ONCE, input) else {
        return Err(Fault::Memory);
    };
    let mut line = Vec::new(alloc);
    let mut status = 0;
    for number in 1..u64::MAX {
        match advance(&mut input, &mut line) {
            Ok(true) => {}
            Ok(false) => return Ok(status),
            Err(error) => return Err(Fault::unread(source, error)),
        }
        let answer = answer_to_line(alloc, files, source, number, &line, format)?;
        if let Err(error) = print(output, answer.text.as_str()) {
            return Err(Fault::Unwritten(error));
        }
        status = status.max(answer.status);
    }
    Err(Fault::Memory)
}

/// Returns the answer to the question on `line`, the line `number` of `source`, or what is at fault with it. Fails where
/// memory runs out.
fn answer_to_line<R: Files>(
    alloc: Global,
    files: &R,
    source: Source<'_>,
    number: u64,
    line: &[u8],
    format: Format,
) -> Result<Answer, AllocError> {
    let value = match Value::from_slice(alloc, line) {
        Ok(value) => value,
        Err(error) if error.is_memory() => return Err(AllocError),
        Err(error) => return at_fault(alloc, source, number, &Fault::Json(error), format),
    };
    match answer_to(alloc, files, &value, format) {
        Ok(answer) => Ok(answer),
        Err(Fault::Memory) => Err(AllocError),
        Err(fault) => at_fault(alloc, source, number, &fault, format),
    }
}

/// Returns the answer to the question that an object of JSON asks.
fn answer_to<'a, R: Files>(
    alloc: Global,
    files: &R,
    value: &'a Value,
    format: Format,
) -> Result<Answer, Fault<'a>> {
    let nothing: &[u8] = &[];
    let check = check_of(value)?;
    checked(alloc, files, &check, format, nothing)
}

/// Returns the check that an object of JSON asks for.
fn check_of<'a>(value: &'a Value) -> Result<Check<'a>, Mistake<'a>> {
    let Some(members) = value.as_object() else {
        return Err(Mistake::Other(NO_OBJECT));
    };
    for (name, _) in members {
        let name = name.as_str();
        if !NAMES.as_slice().contains(&name) {
            return Err(Mistake::Unknown(name));
        }
    }
    let words = Words::Members(value);
    Check::of(words.text("check")?, words)
}

/// Returns the answer where a line is at fault.
fn at_fault(
    alloc: Global,
    source: Source<'_>,
    number: u64,
    fault: &Fault<'_>,
    format: Format,
) -> Result<Answer, AllocError> {
    let says = format!(in alloc; "{source}: line {number}: {fault}")?;
    let text = match format {
        Format::Text => format!(in alloc; "error: {says}\n")?,
        Format::Json => {
            let says = Value::String(says).to_string(alloc)?;
            format!(in alloc; "{{\"error\":{says}}}\n")?
        }
    };
    Ok(Answer { text, status: 3 })
}
