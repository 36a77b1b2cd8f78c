//! The command line: its subcommands and options, and what `--help` says of them.

mod copies;

use clap::{Arg, ArgAction, Command};
use copies::sync;
use std::alloc::{AllocError, Global};

/// A subcommand.
#[derive(Clone, Copy)]
struct Subcommand {
    /// Its name.
    name: &'static str,
    /// What it does.
    about: &'static str,
    /// What stands below its options.
    example: &'static str,
    /// Its options, and its file.
    parameters: &'static [Parameter],
}

/// An option, or the one file that is named without one.
#[derive(Clone, Copy)]
struct Parameter {
    /// Its name, behind `--`.
    name: &'static str,
    /// What its value is called.
    value: &'static str,
    /// What is said of it.
    help: &'static str,
    /// What is given with it.
    form: Form,
}

/// What is given with an option.
#[derive(Clone, Copy)]
enum Form {
    /// A value, and there must be one.
    Needed,
    /// A value, and this one where none is given.
    Usual(&'static str),
    /// One of these values, and there must be one.
    Among(&'static [&'static str]),
    /// One of these values, and this one where none is given.
    UsualAmong(&'static str, &'static [&'static str]),
    /// A value, which may be left out.
    Free,
    /// A value, which may be left out, and may be given again.
    Many,
    /// Nothing.
    Flag,
    /// The value stands without a name.
    Unnamed,
}

const FAMILY: Parameter = Parameter {
    name: "family",
    value: "FAMILY",
    help: "Merkle mountain ranges (mmr) or belts (mmb)",
    form: Form::Among(&["mmr", "mmb"]),
};

const HASH: Parameter = Parameter {
    name: "hash",
    value: "HASH",
    help: "The digest function",
    form: Form::UsualAmong("sha256", &["sha256", "sha512"]),
};

const CHUNK: Parameter = Parameter {
    name: "chunk",
    value: "BYTES",
    help: "The bytes of a chunk of activity bits, a power of two",
    form: Form::Needed,
};

const FLOOR: Parameter = Parameter {
    name: "floor",
    value: "N",
    help: "The inactivity floor: no operation before it is active, as at the last commit",
    form: Form::Needed,
};

const AT: Parameter = Parameter {
    name: "at",
    value: "LOCATION",
    help: "The operation's location, counted from 0",
    form: Form::Needed,
};

const FILE: Parameter = Parameter {
    name: "file",
    value: "FILE",
    help: "The operations, a line for each; `-` is standard input",
    form: Form::Unnamed,
};

const JSON: Parameter = Parameter {
    name: "json",
    value: "",
    help: "Prints an object of JSON on one line, with a member for each label",
    form: Form::Flag,
};

const ROOT: Parameter = Parameter {
    name: "root",
    value: "HEX",
    help: "The canonical root that is trusted",
    form: Form::Needed,
};

const OPERATION: Parameter = Parameter {
    name: "operation",
    value: "GIVEN",
    help: "The operation",
    form: Form::Needed,
};

const PROOF: Parameter = Parameter {
    name: "proof",
    value: "GIVEN",
    help: "The proof, as it is written",
    form: Form::Needed,
};

const START: Parameter = Parameter {
    name: "start",
    value: "LOCATION",
    help: "The location of the first operation, counted from 0",
    form: Form::Needed,
};

const OPERATIONS: Parameter = Parameter {
    name: "operations",
    value: "FILE",
    help: "The operations, a line of hexadecimal for each; `-` is standard input",
    form: Form::Needed,
};

const CHUNKS: Parameter = Parameter {
    name: "chunks",
    value: "FILE",
    help: "The chunks with their activity bits, a line of hexadecimal for each",
    form: Form::Needed,
};

const MAX_DIGESTS: Parameter = Parameter {
    name: "max-digests",
    value: "N",
    help: "The most digests that the proof may have: no tree needs more than 186",
    form: Form::Usual("186"),
};

const KEYS: Parameter = Parameter {
    name: "keys",
    value: "KIND",
    help: "Keys all have one size, of 4, 8, 20 or 32 bytes, or are strings of any length",
    form: Form::Among(&["one-size", "strings"]),
};

const VALUES: Parameter = Parameter {
    name: "values",
    value: "ENCODING",
    help: "Values have any length (variable), or all have one size, of 4, 8, 20 or 32 bytes; with fixed, zeros fill up operations",
    form: Form::Among(&["variable", "sized", "fixed"]),
};

const KEY: Parameter = Parameter {
    name: "key",
    value: "GIVEN",
    help: "The key",
    form: Form::Needed,
};

const VALUE: Parameter = Parameter {
    name: "value",
    value: "GIVEN",
    help: "The value",
    form: Form::Needed,
};

const VALUE_SIZE: Parameter = Parameter {
    name: "value-size",
    value: "BYTES",
    help: "The size of values, where they have one",
    form: Form::Free,
};

const MIN_KEY: Parameter = Parameter {
    name: "min-key-length",
    value: "BYTES",
    help: "The least length of a key in the proof, where keys are strings; 0 if it is left out",
    form: Form::Free,
};

const MAX_KEY: Parameter = Parameter {
    name: "max-key-length",
    value: "BYTES",
    help: "The greatest; any if it is left out",
    form: Form::Free,
};

const MIN_VALUE: Parameter = Parameter {
    name: "min-value-length",
    value: "BYTES",
    help: "The least length of a value in the proof, where values are variable; 0 if it is left out",
    form: Form::Free,
};

const MAX_VALUE: Parameter = Parameter {
    name: "max-value-length",
    value: "BYTES",
    help: "The greatest; any if it is left out",
    form: Form::Free,
};

const BATCH: Parameter = Parameter {
    name: "batch",
    value: "FILE",
    help: "Answers each line of a file, an object of JSON, instead of one claim; `-` is standard input",
    form: Form::Free,
};

const SHOWS: Parameter = Parameter {
    name: "shows",
    value: "CLAIM",
    help: "What the proof shows",
    form: Form::UsualAmong("operation", &["operation", "range", "value", "absence"]),
};

const SVG: Parameter = Parameter {
    name: "svg",
    value: "OUT",
    help: "Draws the path from what is claimed up to the root into a file",
    form: Form::Free,
};

const PROOF_FILE: Parameter = Parameter {
    name: "file",
    value: "FILE",
    help: "The proof, one line of hexadecimal; `-` is standard input",
    form: Form::Unnamed,
};

const ABOUT: &str = "Shows and checks what stands in a snapshot of operations under one root";

const STATUS: &str = "\
Exit status: 0 yes, or done; 1 no; 2 the question is at fault; 3 a file is; 4 out of memory.
Each subcommand has an example: gawerunoa root --help";

const ROOT_EXAMPLE: &str = "\
A line of FILE is an operation: `0` or `1` (active), a blank, the operation in hexadecimal.
The label is `root`.

Example:
  printf '1 ab\\n' | gawerunoa root --family mmr --chunk 1 --floor 0 -";

const PROVE_EXAMPLE: &str = "\
A line of FILE is an operation: `0` or `1` (active), a blank, the operation in hexadecimal.
The labels are `root` and `proof`.

Example:
  printf '1 ab\\n' | gawerunoa prove --family mmr --chunk 1 --floor 0 --at 0 -";

const INSPECT_EXAMPLE: &str = "\
A line is a field of the proof: its offset, its bytes, its name and what it means, with tabs between them.
With --json the members are `offset`, `bytes`, `field` and `meaning`. Nothing is checked but the bytes' form.

Then come the strings that the check hashes, which a range proof does not tell: the number of each, its parts,
and what its digest is; be8 is a number in eight bytes, the highest first. With --json the members are
`string`, `hashed` and `gives`. Where the proof's numbers do not fit together there are none, and the check says no.

Example:
  gawerunoa inspect --family mmr --chunk 1 --svg path.svg proof.hex";

const CHECK_EXAMPLE: &str = "\
A line for --batch is an object whose members are named as the options, with `check` for the claim; numbers
are numbers, what is given in hexadecimal is a string, and `operations` and `chunks` are arrays of strings.
Each is answered with one line, in their order; that of a line at fault begins with `error`, or has that
member. The exit status is the greatest: 3 where a line is at fault.

Example:
  echo '{\"check\":\"operation\",\"family\":\"mmr\",\"chunk\":1,\"at\":0,\"operation\":\"ab\",' \\
    '\"root\":\"5f2e849bde46034529f198d71df7c3baafc1bcb7d79c91a7b5678038b52b24bf\",\"proof\":\"00\"}' |
    gawerunoa check --batch -";

const OPERATION_EXAMPLE: &str = "\
GIVEN is hexadecimal, or `@` and the name of a file that has it; `@-` is standard input.
With --json the members are `answer`, which is `yes` or `no`, and `claim`.

Example, of the operation that `gawerunoa root --help` has:
  gawerunoa check operation --family mmr --chunk 1 --at 0 --operation ab \\
    --root 5f2e849bde46034529f198d71df7c3baafc1bcb7d79c91a7b5678038b52b24bf \\
    --proof @proof.hex";

const RANGE_EXAMPLE: &str = "\
GIVEN is hexadecimal, or `@` and the name of a file that has it; `@-` is standard input.
With --json the members are `answer`, which is `yes` or `no`, and `claim`.

Example:
  gawerunoa check range --family mmr --chunk 1 --start 0 --operations operations.hex \\
    --chunks chunks.hex --proof @proof.hex --root e6a0b4f2cccadef9ae3c00ce4ae558d6d3a93d0d279798265be092c6c8b56f34";

const VALUE_EXAMPLE: &str = "\
GIVEN is hexadecimal, or `@` and the name of a file that has it; `@-` is standard input.
A key and a value are their bytes, with no length before them.
With --json the members are `answer`, which is `yes` or `no`, and `claim`.

Example:
  gawerunoa check value --family mmr --chunk 1 --keys one-size --values fixed \\
    --key 00000001 --value 0000000000000005 --proof @proof.hex --root e6a0b4f2cccadef9ae3c00ce4ae558d6d3a93d0d279798265be092c6c8b56f34";

const ABSENCE_EXAMPLE: &str = "\
GIVEN is hexadecimal, or `@` and the name of a file that has it; `@-` is standard input.
A key is its bytes, with no length before them.
With --json the members are `answer`, which is `yes` or `no`, and `claim`.

Example:
  gawerunoa check absence --family mmr --chunk 1 --keys one-size --values fixed \\
    --value-size 8 --key 00000002 --proof @proof.hex --root e6a0b4f2cccadef9ae3c00ce4ae558d6d3a93d0d279798265be092c6c8b56f34";

const ROOT_COMMAND: Subcommand = Subcommand {
    name: "root",
    about: "Prints the canonical root of operations",
    example: ROOT_EXAMPLE,
    parameters: &[FAMILY, HASH, CHUNK, FLOOR, JSON, FILE],
};

const PROVE_COMMAND: Subcommand = Subcommand {
    name: "prove",
    about: "Prints the canonical root of operations, and the proof of one of them",
    example: PROVE_EXAMPLE,
    parameters: &[FAMILY, HASH, CHUNK, FLOOR, AT, JSON, FILE],
};

const INSPECT_COMMAND: Subcommand = Subcommand {
    name: "inspect",
    about: "Takes a proof apart, field by field",
    example: INSPECT_EXAMPLE,
    parameters: &[FAMILY, HASH, CHUNK, SHOWS, SVG, JSON, PROOF_FILE],
};

const CHECK_COMMAND: Subcommand = Subcommand {
    name: "check",
    about: "Checks a proof against a root that is trusted",
    example: CHECK_EXAMPLE,
    parameters: &[BATCH, JSON],
};

const OPERATION_CHECK: Subcommand = Subcommand {
    name: "operation",
    about: "Checks that an operation stands at a location, and is active",
    example: OPERATION_EXAMPLE,
    parameters: &[FAMILY, HASH, CHUNK, ROOT, AT, OPERATION, PROOF, JSON],
};

const RANGE_CHECK: Subcommand = Subcommand {
    name: "range",
    about: "Checks that operations stand side by side, and which chunks of activity bits they touch",
    example: RANGE_EXAMPLE,
    parameters: &[
        FAMILY,
        HASH,
        CHUNK,
        ROOT,
        START,
        OPERATIONS,
        CHUNKS,
        MAX_DIGESTS,
        PROOF,
        JSON,
    ],
};

const VALUE_CHECK: Subcommand = Subcommand {
    name: "value",
    about: "Checks that a key has a value",
    example: VALUE_EXAMPLE,
    parameters: &[
        FAMILY, HASH, CHUNK, ROOT, KEYS, VALUES, MIN_KEY, MAX_KEY, KEY, VALUE, PROOF, JSON,
    ],
};

const ABSENCE_CHECK: Subcommand = Subcommand {
    name: "absence",
    about: "Checks that a key has no value",
    example: ABSENCE_EXAMPLE,
    parameters: &[
        FAMILY, HASH, CHUNK, ROOT, KEYS, VALUES, VALUE_SIZE, MIN_KEY, MAX_KEY, MIN_VALUE,
        MAX_VALUE, KEY, PROOF, JSON,
    ],
};

/// Returns the whole command line.
pub(crate) fn command<'a>(alloc: Global) -> Result<Command<'a>, AllocError> {
    let mut commands = all(alloc, &[ROOT_COMMAND, PROVE_COMMAND, INSPECT_COMMAND])?;
    commands.push(check(alloc)?)?;
    commands.push(sync(alloc)?)?;
    program(alloc).subcommands(commands)
}

/// Returns the command line with no subcommand yet.
fn program<'a>(alloc: Global) -> Command<'a> {
    Command::new(alloc, "gawerunoa")
        .version("0.1.0")
        .about(ABOUT)
        .after_help(STATUS)
        .subcommand_required(true)
}

/// Returns the subcommand `check`.
fn check<'a>(alloc: Global) -> Result<Command<'a>, AllocError> {
    let commands = all(
        alloc,
        &[OPERATION_CHECK, RANGE_CHECK, VALUE_CHECK, ABSENCE_CHECK],
    )?;
    with_parameters(alloc, &CHECK_COMMAND)?
        .args_conflicts_with_subcommands(true)
        .subcommands(commands)
}

/// Returns these subcommands.
fn all<'a>(alloc: Global, subcommands: &[Subcommand]) -> Result<Vec<Command<'a>>, AllocError> {
    let mut commands = Vec::new(alloc);
    for it in subcommands {
        commands.push(with_parameters(alloc, it)?)?;
    }
    Ok(commands)
}

/// Returns a subcommand, as the kit's `clap` takes it.
fn with_parameters<'a>(alloc: Global, it: &Subcommand) -> Result<Command<'a>, AllocError> {
    let arguments = arguments(alloc, it.parameters)?;
    Command::new(alloc, it.name)
        .about(it.about)
        .after_help(it.example)
        .args(arguments)
}

/// Returns options, as the kit's `clap` takes them.
fn arguments<'a>(alloc: Global, options: &[Parameter]) -> Result<Vec<Arg<'a>>, AllocError> {
    let mut arguments = Vec::new(alloc);
    for option in options {
        arguments.push(argument(alloc, option))?;
    }
    Ok(arguments)
}

/// Returns an option, as the kit's `clap` takes it.
fn argument<'a>(alloc: Global, option: &Parameter) -> Arg<'a> {
    let arg = Arg::new(alloc, option.name).help(option.help);
    if let Form::Flag = option.form {
        return arg.long(option.name).action(ArgAction::SetTrue);
    }
    let arg = arg.value_name(option.value).action(ArgAction::Set);
    if let Form::Unnamed = option.form {
        return arg.required(true);
    }
    let arg = arg.long(option.name).allow_negative_numbers(true);
    match option.form {
        Form::Usual(value) => arg.default_value(value),
        Form::Among(values) => arg.required(true).value_parser(values),
        Form::UsualAmong(value, values) => arg.default_value(value).value_parser(values),
        Form::Free => arg,
        Form::Many => arg.action(ArgAction::Append),
        _ => arg.required(true),
    }
}
