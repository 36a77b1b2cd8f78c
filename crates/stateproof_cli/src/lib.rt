//! The work of the program `stateproof`, over any reader and writers: its arguments and lines, its answers, and the one
//! line that it writes after a fault.
#![tactic(auto)]

ghost use Rattle.std.specs.Prelude.{◌≡◌, ◌<◌, ◌≤◌, ◌⊎◌};

mod command;
mod database;
mod fault;
mod lines;
mod reply;
mod script;

use command::{Action, Chunk, Command, Tree};
pub use fault::Fault;
use reply::Reply;
use std::alloc::Global;
use std::io::{self, Read, Write};

/// Runs the program over `words`, its arguments, and answers the exit status: 0, or 1 for a no. After a fault `output`
/// has nothing, `errors` one line, and the status is 2. After a failed write it is 2 as well, and nothing more is
/// written. So one of the two writers is never written to, and `errors` is not if there is an answer.
pub fn run<R: Read + Drop, O: Write, E: Write>(
    alloc: Global,
    words: &[String],
    input: R,
    output: &mut O,
    errors: &mut E,
) -> u8
    ensures status { result ≤ 2 }
    ensures answered { result < 2 → errors.new ≡ errors.old }
    ensures one { (output.new ≡ output.old) ⊎ (errors.new ≡ errors.old) }
{
    match Reply::of(alloc, words, input) {
        Ok(reply) => match print(output, reply.text.as_str()) {
            Ok(()) => reply.status,
            Err(_) => 2,
        },
        Err(fault) => fail(fault, errors),
    }
}

/// Writes the line of `fault` to `errors`, and answers the exit status, 2.
pub fn fail<E: Write>(fault: Fault, errors: &mut E) -> u8
    ensures { result ≡ 2 }
{
    let _ = writeln!(errors, "{fault}");
    2
}

/// Writes all of `text` to `output`.
fn print<O: Write>(output: &mut O, text: &str) -> io::Result<()> {
    output.write_all(text.as_bytes())?;
    output.flush()
}
