//! The lines that the server reads.

/// What a line tells the server, or asks it.
#[derive(Clone, Copy, Debug, PartialEq, Eq)]
pub(crate) enum Command<'a> {
    /// Gives a key a value.
    Put { key: &'a str, value: &'a str },
    /// Takes a key out.
    Delete { key: &'a str },
    /// Commits what was put and deleted, and asks for the new root.
    Commit,
    /// Asks for the value of a key at the last commit, or for the proof that it had none.
    Get { key: &'a str },
}

impl Command<'_> {
    /// Reads `put KEY VALUE`, `delete KEY`, `commit` or `get KEY`. The value may have blanks; `None` is any other line.
    pub(crate) fn parse(line: &str) -> Option<Command<'_>> {
        if line == "commit" {
            return Some(Command::Commit);
        }
        match line.split_once(' ')? {
            ("put", rest) => {
                let (key, value) = rest.split_once(' ')?;
                Some(Command::Put { key, value })
            }
            ("delete", key) => Some(Command::Delete { key }),
            ("get", key) => Some(Command::Get { key }),
            _ => None,
        }
    }
}
