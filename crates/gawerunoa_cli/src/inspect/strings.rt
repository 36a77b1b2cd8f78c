//! The strings that a check hashes, line by line.

use crate::agreed::Family;
use crate::inspect::path::{Part, Path, Step};
use crate::request::Format;
use std::alloc::{AllocError, Global};

/// Adds a line for each string of `path` to `text`: its number, its parts, and what its digest is.
pub(super) fn add_strings(
    alloc: Global,
    format: Format,
    path: &Path,
    text: &mut String,
) -> Result<(), AllocError> {
    for (index, step) in path.steps.iter().enumerate() {
        let string = string_of(alloc, index, step)?;
        let gives = given_by(alloc, step)?;
        add_line(alloc, format, index, string.as_str(), gives.as_str(), text)?;
    }
    if let Some(slot) = path.compared {
        let gives = format!(in alloc; "{slot}, in its slot")?;
        add_line(
            alloc,
            format,
            path.steps.len(),
            "chunk",
            gives.as_str(),
            text,
        )?;
    }
    Ok(())
}

/// Returns what the digest of the string of `step` is.
fn given_by(alloc: Global, step: &Step) -> Result<String, AllocError> {
    let (name, detail) = (step.name, step.detail.as_str());
    if detail.is_empty() {
        String::from_str(alloc, name)
    } else {
        format!(in alloc; "{name}, {detail}")
    }
}

/// Adds the line that there are no strings, since `why`.
pub(super) fn add_none(
    alloc: Global,
    format: Format,
    why: &str,
    text: &mut String,
) -> Result<(), AllocError> {
    let line = match format {
        Format::Text => format!(in alloc; "no strings\t\t{why}\n")?,
        Format::Json => format!(in alloc; "{{\"string\":null,\"why\":\"{why}\"}}\n")?,
    };
    text.push_str(line.as_str())
}

/// Adds the line of a string, in front of which `before` others stand.
fn add_line(
    alloc: Global,
    format: Format,
    before: usize,
    string: &str,
    gives: &str,
    text: &mut String,
) -> Result<(), AllocError> {
    let number = before.saturating_add(1);
    let line = match format {
        Format::Text => format!(in alloc; "string {number}\t{string}\t{gives}\n")?,
        Format::Json => format!(in alloc;
            "{{\"string\":{number},\"hashed\":\"{string}\",\"gives\":\"{gives}\"}}\n"
        )?,
    };
    text.push_str(line.as_str())
}

/// Returns the string of `step`, in front of which `before` others stand.
fn string_of(alloc: Global, before: usize, step: &Step) -> Result<String, AllocError> {
    let mut string = String::new(alloc);
    for part in &step.parts {
        if !string.is_empty() {
            string.push_str(" || ")?;
        }
        string.push_str(label_of(alloc, before, part)?.as_str())?;
    }
    Ok(string)
}

/// Returns what a part of a string is called, in front of which `before` others stand.
fn label_of(alloc: Global, before: usize, part: &Part) -> Result<String, AllocError> {
    match part {
        Part::Before if before == 0 => String::from_str(alloc, "operation"),
        Part::Before => format!(in alloc; "string {before}"),
        Part::Number(number) => format!(in alloc; "be8({number})"),
        Part::Family(Family::Mmr) => String::from_str(alloc, "00 || 01"),
        Part::Family(Family::Mmb) => String::from_str(alloc, "01 || 01"),
        Part::Counts(leaves, inactive) => { format!(in alloc; "be8({leaves}) || be8({inactive})") }
        Part::Piece(piece) => piece.label.clone(),
    }
}
