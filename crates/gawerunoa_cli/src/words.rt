//! Words of the command line that are numbers, sizes and digests.

ghost use Rattle.std.specs.Prelude.{◌≡◌, ◌≤◌, Ok, IfSome};
ghost use Rattle.std.specs.Option.{SomeIff};
ghost use Rattle.std.specs.Str.Parse.{digits_value};
ghost use Rattle.hex.specs.Hex.{decode_of};
ghost use Rattle.storage_bitmap.specs.Chunks.{IsChunkSize};
ghost use Rattle.stateproof_cli.specs.Words.{IsNumber};
ghost use Rattle.light_questions.specs.Agreed.{root_bytes};
ghost use Rattle.gawerunoa_cli.specs.Agreed.{IsRootOf};

use crate::agreed::Function;
use commonware_storage::codec::FixedBytes;
use hex::FromHex;
use light_questions::agreed::Root;
use storage_current::qmdb::current::grafting::chunk_height;

/// Returns the number that `word` writes in 1 to 20 decimal digits, if it is below `2^64`.
pub fn number(word: &str) -> Option<u64>
    ensures { SomeIff result (IsNumber word.now) (digits_value 10 word.now) }
{
    if word.len() > 20 || word.starts_with('+') {
        return None;
    }
    word.parse::<u64>().ok()
}

/// Returns the size of a chunk that `word` writes, if it is at most `most`: a power of two.
pub fn chunk_size(word: &str, most: usize) -> Option<usize>
    ensures { SomeIff result (IsNumber word.now × IsChunkSize (digits_value 10 word.now)
        × (digits_value 10 word.now ≤ most)) (digits_value 10 word.now) }
{
    size_of_chunk(number(word)?, most)
}

/// Returns `number` as the size of a chunk, if it is one of at most `most` bytes: a power of two.
pub fn size_of_chunk(number: u64, most: usize) -> Option<usize>
    ensures { SomeIff result (IsChunkSize number × (number ≤ most)) number }
{
    let size = number as usize;
    if size > most {
        return None;
    }
    chunk_height(size)?;
    Some(size)
}

/// Returns the digest of `function` that `word` writes in hexadecimal, in either case: 64 digits for SHA-256, 128 for
/// SHA-512.
pub fn root_of(word: &str, function: Function) -> Option<Root>
    ensures { IfSome result (λ root. IsRootOf function root × (decode_of word.now ≡ Ok (root_bytes root))) }
{
    match function {
        Function::Sha256 => {
            let bytes = <[u8; 32] as FromHex>::from_hex(word).ok()?;
            Some(Root::Of256(FixedBytes { bytes }))
        }
        Function::Sha512 => {
            let bytes = <[u8; 64] as FromHex>::from_hex(word).ok()?;
            Some(Root::Of512(FixedBytes { bytes }))
        }
    }
}
