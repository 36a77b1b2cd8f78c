//! Messages on a stream: each behind its length, which is eight bytes, the highest first.

use crate::sync::fault::Broken;
use std::io::{Read, Write};

/// Puts the next message of `stream`, of at most `most` bytes, in the place of `message`.
///
/// # Errors
///
/// `Ended` where no message is left; `Cut` where the stream ends inside of one; `Long` where it has more bytes; `Unread`.
pub(super) fn receive<R: Read>(
    stream: &mut R,
    most: u64,
    message: &mut Vec<u8>,
) -> Result<(), Broken> {
    read_up_to(stream, 8, message)?;
    let Ok(head) = <[u8; 8]>::try_from(message.as_slice()) else {
        return Err(if message.is_empty() {
            Broken::Ended
        } else {
            Broken::Cut
        });
    };
    let size = u64::from_be_bytes(head);
    if size > most {
        return Err(Broken::Long { size, most });
    }
    read_up_to(stream, size, message)?;
    if (message.len() as u64) < size {
        return Err(Broken::Cut);
    }
    Ok(())
}

/// Puts the next `count` bytes of `stream`, or all that are left, in the place of `bytes`.
fn read_up_to<R: Read>(stream: &mut R, count: u64, bytes: &mut Vec<u8>) -> Result<(), Broken> {
    bytes.clear();
    match stream.by_ref().take(count).read_to_end(bytes) {
        Ok(_) => Ok(()),
        Err(error) => Err(Broken::Unread(error)),
    }
}

/// Writes `message` to `stream`, behind its length.
pub(super) fn send<W: Write>(stream: &mut W, message: &[u8]) -> Result<(), Broken> {
    let head = (message.len() as u64).to_be_bytes();
    match write_both(stream, &head, message) {
        Ok(()) => Ok(()),
        Err(error) => Err(Broken::Unwritten(error)),
    }
}

/// Writes `head` and `rest` to `stream`.
fn write_both<W: Write>(stream: &mut W, head: &[u8], rest: &[u8]) -> std::io::Result<()> {
    stream.write_all(head)?;
    stream.write_all(rest)?;
    stream.flush()
}
