//! The arguments of the program.

ghost use Rattle.std.specs.Prelude.{◌≡◌};
ghost use Rattle.std.specs.Option.{SomeIff};
ghost use Rattle.std.specs.Str.Parse.{digits_value};
ghost use Rattle.stateproof_cli.specs.Words.{IsNumber};

use hex::FromHex;
use storage_codec::codec::FixedBytes;

/// A family of trees, MMR or MMB.
#[derive(Clone, Copy, Debug, PartialEq, Eq)]
pub enum Tree {
    /// Merkle mountain ranges.
    Mmr,
    /// Merkle mountain belts.
    Mmb,
}

/// How many bytes a chunk of activity bits has.
#[derive(Clone, Copy, Debug, PartialEq, Eq)]
pub enum Chunk {
    /// 1 byte.
    One,
    /// 32 bytes.
    ThirtyTwo,
}

/// What is asked for.
#[derive(Clone, Copy, Debug, PartialEq, Eq)]
pub enum Action {
    /// The canonical root.
    Root { floor: u64 },
    /// The canonical root, and the proof of the operation at a location.
    Prove { floor: u64, location: u64 },
    /// Whether a proof shows an operation at a location, under a canonical root.
    Check { root: FixedBytes<32>, location: u64 },
    /// What a database answers to the commands and questions on standard input.
    Database,
}

/// The arguments of a run, read.
#[derive(Clone, Copy, Debug, PartialEq, Eq)]
pub struct Command {
    /// The family of the trees.
    pub tree: Tree,
    /// The size of a chunk.
    pub chunk: Chunk,
    /// What is asked for.
    pub action: Action,
}

impl Tree {
    /// Returns the family that `word` names.
    fn named(word: &str) -> Option<Tree> {
        match word {
            "mmr" => Some(Tree::Mmr),
            "mmb" => Some(Tree::Mmb),
            _ => None,
        }
    }
}

impl Chunk {
    /// Returns the chunk size that `word` writes.
    fn named(word: &str) -> Option<Chunk> {
        match word {
            "1" => Some(Chunk::One),
            "32" => Some(Chunk::ThirtyTwo),
            _ => None,
        }
    }
}

impl Action {
    /// Returns what the first word `word` and `rest`, the words after family and chunk, ask for.
    fn named(word: &str, rest: &[String]) -> Option<Action> {
        match (word, rest) {
            ("root", [floor]) => Some(Action::Root {
                floor: number(floor.as_str())?,
            }),
            ("prove", [floor, location]) => Some(Action::Prove {
                floor: number(floor.as_str())?,
                location: number(location.as_str())?,
            }),
            ("check", [root, location]) => Some(Action::Check {
                root: digest(root.as_str())?,
                location: number(location.as_str())?,
            }),
            ("db", []) => Some(Action::Database),
            _ => None,
        }
    }
}

impl Command {
    /// Reads the arguments `words`; none if the program takes no such words.
    pub fn parse(words: &[String]) -> Option<Command> {
        let [action, tree, chunk, rest @ ..] = words else {
            return None;
        };
        let tree = Tree::named(tree.as_str())?;
        let chunk = Chunk::named(chunk.as_str())?;
        let action = Action::named(action.as_str(), rest)?;
        Some(Command {
            tree,
            chunk,
            action,
        })
    }
}

/// Returns the number that `word` writes in 1 to 20 decimal digits, if it is below `2^64`.
pub fn number(word: &str) -> Option<u64>
    ensures { SomeIff result (IsNumber word.now) (digits_value 10 word.now) }
{
    if word.len() > 20 || word.starts_with('+') {
        return None;
    }
    word.parse::<u64>().ok()
}

/// Returns the digest that `word` writes in 64 hexadecimal digits, in either case.
pub fn digest(word: &str) -> Option<FixedBytes<32>> {
    let bytes = <[u8; 32] as FromHex>::from_hex(word).ok()?;
    Some(FixedBytes { bytes })
}
