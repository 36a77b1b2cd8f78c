//! The command line of copies: the subcommand `sync`.

use super::{FAMILY, FLOOR, Form, HASH, MAX_DIGESTS, Parameter, ROOT, Subcommand, all};
use clap::Command;
use std::alloc::{AllocError, Global};

const CHUNK: Parameter = Parameter {
    name: "chunk",
    value: "BYTES",
    help: "The bytes of a chunk of activity bits",
    form: Form::Among(&["1", "32"]),
};

const OPERATIONS_FILE: Parameter = Parameter {
    name: "file",
    value: "FILE",
    help: "The operations, a line for each",
    form: Form::Unnamed,
};

const PEER: Parameter = Parameter {
    name: "peer",
    value: "REQUESTS,PAGES",
    help: "A peer, by the file that requests are written to and the one that pages are read from; may be given again",
    form: Form::Many,
};

const MAX_OPERATIONS: Parameter = Parameter {
    name: "max-operations",
    value: "N",
    help: "The most operations of a page, at least as many as a chunk has bits",
    form: Form::Usual("32768"),
};

const MAX_OPERATION: Parameter = Parameter {
    name: "max-operation-length",
    value: "BYTES",
    help: "The most bytes of an operation",
    form: Form::Usual("65536"),
};

const TOLD_FLOOR: Parameter = Parameter {
    name: "floor",
    value: "N",
    help: "Sees that with this inactivity floor the copy has the root",
    form: Form::Free,
};

const COPY: Parameter = Parameter {
    name: "file",
    value: "FILE",
    help: "Where the copy goes, a line for each operation; with --peer `-` is standard output",
    form: Form::Unnamed,
};

const SERVE_EXAMPLE: &str = "\
A line of FILE is an operation: `0` or `1` (active), a blank, the operation in hexadecimal.
Each request on standard input is answered with a page on standard output, until standard input ends.
Each of them stands behind its length, which is eight bytes, the highest first.

Example, for one who asks by two named pipes:
  mkfifo requests pages
  gawerunoa sync serve --family mmr --chunk 1 --floor 0 operations.txt <requests >pages";

const ASK_EXAMPLE: &str = "\
Requests go to the peers in turn; each page is checked against the root. A peer whose page is refused is
asked no more, and its name is told. Without --peer, standard output has the requests for one peer, and
standard input its pages. The labels are `peer`, `refused`, `copied` and `floor`.

A root tells of the floor only which peaks are inactive: with each floor that leaves these as they are
`gawerunoa root` of the copy prints the same root.

Example:
  gawerunoa sync ask --family mmr --chunk 1 --peer requests,pages \\
    --root 5f2e849bde46034529f198d71df7c3baafc1bcb7d79c91a7b5678038b52b24bf copy.txt";

const SERVE_COMMAND: Subcommand = Subcommand {
    name: "serve",
    about: "Serves pages of operations to one who copies them",
    example: SERVE_EXAMPLE,
    parameters: &[FAMILY, HASH, CHUNK, FLOOR, OPERATIONS_FILE],
};

const ASK_COMMAND: Subcommand = Subcommand {
    name: "ask",
    about: "Copies the operations under a root from peers that are not trusted",
    example: ASK_EXAMPLE,
    parameters: &[
        FAMILY,
        HASH,
        CHUNK,
        ROOT,
        PEER,
        MAX_OPERATIONS,
        MAX_OPERATION,
        MAX_DIGESTS,
        TOLD_FLOOR,
        COPY,
    ],
};

/// Returns the subcommand `sync`.
pub(crate) fn sync<'a>(alloc: Global) -> Result<Command<'a>, AllocError> {
    let commands = all(alloc, &[SERVE_COMMAND, ASK_COMMAND])?;
    Command::new(alloc, "sync")
        .about("Copies the operations under a root between strangers")
        .subcommand_required(true)
        .subcommands(commands)
}
