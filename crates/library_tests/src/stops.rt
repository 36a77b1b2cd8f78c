//! How a test ends where a call does not answer what it is to answer.

use std::fmt::Debug;
use std::process::Abort;

/// Ends the test if memory is refused to it.
pub fn out_of_memory(rt: &impl Abort) -> ! {
    panic!(rt; "error: Memory")
}

/// Ends the test by the name of a refusal.
pub fn refused(rt: &impl Abort, refusal: &impl Debug) -> ! {
    panic!(rt; "error: {refusal:?}")
}

/// Returns what `outcome` has. Ends the test by the name of a refusal, which may be want of memory.
pub fn some<T, E: Debug + Drop>(rt: &impl Abort, outcome: Result<T, E>) -> T {
    match outcome {
        Ok(value) => value,
        Err(refusal) => refused(rt, &refusal),
    }
}

/// Returns what there is. Ends the test by `lack` if there is nothing.
pub fn there<T>(rt: &impl Abort, value: Option<T>, lack: &str) -> T {
    match value {
        Some(value) => value,
        None => panic!(rt; "{lack}"),
    }
}

/// Ends the test by the name of a refusal, which may be want of memory.
pub fn done<T, E: Debug>(rt: &impl Abort, outcome: &Result<T, E>) {
    if let Err(refusal) = outcome {
        refused(rt, refusal)
    }
}

/// Asserts that `outcome` is the refusal `why`. Ends the test by the name of another one, which may be want of memory.
pub fn is_refused<T, E: PartialEq + Debug>(rt: &impl Abort, outcome: &Result<T, E>, why: &E) {
    match outcome {
        Ok(_) => panic!(rt; "not refused"),
        Err(refusal) => {
            if *refusal != *why {
                refused(rt, refusal)
            }
        }
    }
}
