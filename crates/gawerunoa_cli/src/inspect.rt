//! A proof taken apart: which of its bytes are which field, and which strings its check hashes.

mod fields;
pub(crate) mod path;
mod sites;
mod strings;
mod tree;

use crate::answer::Answer;
use crate::fault::{Fault, Misfit};
use crate::hexadecimal::bytes_given;
use crate::inspect::fields::{Cut, Fields, Parts};
use crate::inspect::path::{NoPath, Path, Piece, path_of};
use crate::inspect::strings::{add_none, add_strings};
use crate::request::{Format, Inspection, Shows};
use crate::source::{Given, Source};
use crate::svg::{Beginning, drawn};
use std::alloc::{AllocError, Global};
use std::fs;
use std::io::{self, Read, Write};
use std::rt::Files;

/// Takes the proof of `inspection` apart, and draws its path where a file for that is named.
pub(crate) fn inspected<'a, R: Files, I: Read>(
    alloc: Global,
    files: &R,
    inspection: &Inspection<'a>,
    format: Format,
    input: &mut I,
) -> Result<Answer, Fault<'a>> {
    let given = Given::In(inspection.proof);
    let proof = bytes_given(alloc, files, "file", given, input)?;
    let (mut text, fields) = taken_apart(alloc, inspection, format, &proof)?;
    if !matches!(inspection.shows, Shows::Range) {
        add_path(alloc, files, inspection, format, &fields, &mut text)?;
    }
    Ok(Answer { text, status: 0 })
}

/// Returns a line for each field of `proof`, and the fields.
fn taken_apart<'a, 'p>(
    alloc: Global,
    inspection: &Inspection<'a>,
    format: Format,
    proof: &'p [u8],
) -> Result<(String, Fields<'p>), Fault<'a>> {
    let mut parts = Parts::new(alloc, inspection.agreed, format, proof);
    match parts.fields(inspection.shows) {
        Ok(fields) => Ok((parts.text, fields)),
        Err(Cut::Field(name, expected)) => Err(Fault::Misfit(
            inspection.proof,
            Misfit::Field {
                offset: parts.offset,
                name,
                expected,
            },
        )),
        Err(Cut::Memory) => Err(Fault::Memory),
    }
}

/// Adds the strings that the check of a proof with these fields hashes, and draws its path where a file for that is named.
fn add_path<'a, R: Files>(
    alloc: Global,
    files: &R,
    inspection: &Inspection<'a>,
    format: Format,
    fields: &Fields<'_>,
    text: &mut String,
) -> Result<(), Fault<'a>> {
    match path_of(alloc, inspection.agreed, fields) {
        Ok(path) => {
            add_strings(alloc, format, &path, text)?;
            draw(alloc, files, inspection, &path, fields)
        }
        Err(NoPath::Unfit(why)) if inspection.svg.is_some() => {
            Err(Fault::Misfit(inspection.proof, Misfit::NoPath(why)))
        }
        Err(NoPath::Unfit(why)) => Ok(add_none(alloc, format, why, text)?),
        Err(NoPath::Memory) => Err(Fault::Memory),
    }
}

/// Draws `path`, of a proof with these fields, where a file for that is named.
fn draw<'a, R: Files>(
    alloc: Global,
    files: &R,
    inspection: &Inspection<'a>,
    path: &Path,
    fields: &Fields<'_>,
) -> Result<(), Fault<'a>> {
    let Some(name) = inspection.svg else {
        return Ok(());
    };
    let picture = picture_of(alloc, inspection.shows, path, fields)?;
    match write_file(files, name, picture.as_str()) {
        Ok(()) => Ok(()),
        Err(error) => Err(Fault::unread(Source::File(name), error)),
    }
}

/// Makes the file `name` anew, with `text`.
fn write_file<R: Files>(files: &R, name: &str, text: &str) -> io::Result<()> {
    let mut file = fs::create(files, name)?;
    file.write_all(text.as_bytes())
}

/// Returns the picture of `path`, of a proof with these fields that shows `shows`.
fn picture_of(
    alloc: Global,
    shows: Shows,
    path: &Path,
    fields: &Fields<'_>,
) -> Result<String, AllocError> {
    let beginning = beginning_of(alloc, shows, fields)?;
    drawn(alloc, path, &beginning)
}

/// Returns where the path of a proof with these fields begins, which shows `shows`.
fn beginning_of(alloc: Global, shows: Shows, fields: &Fields<'_>) -> Result<Beginning, AllocError> {
    let (claimed, name) = match (shows, fields.tag) {
        (Shows::Value, _) => ("key and value", "next key"),
        (Shows::Absence, 0) => ("key", "update that spans the key"),
        (Shows::Absence, _) => ("key", "commit at its own floor"),
        _ => return Ok(Beginning::of("operation")),
    };
    let name = String::from_str(alloc, name)?;
    let piece = Piece::new(alloc, String::new(alloc), name, fields.behind)?;
    let mut beginning = Beginning::of(claimed);
    if let Shows::Value = shows {
        beginning.beside = Some(piece);
    } else {
        beginning.between = Some(piece);
    }
    Ok(beginning)
}
