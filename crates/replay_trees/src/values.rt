//! Lists on values as bytes.

use bytes::Bytes;
use replay_columns::answers::tell_bytes;
use replay_columns::columns::{Fault, array, bytes, number, parse};
use std::alloc::Global;
use storage_codec::codec::{
    Buf, Decode, Encode, EncodeSize, Error, FixedBytes, RangeCfg, Read, U64, UInt,
};

/// `type value`: its bytes, and whether it is read again from them as a slice and as shared bytes.
pub fn values(alloc: Global, columns: &[&str], out: &mut String) -> Result<(), Fault> {
    let [kind, value] = columns else {
        return Err(Fault::Malformed);
    };
    let value = *value;
    match *kind {
        "bool" => through(alloc, value == "true", (), out),
        "u64" => through(alloc, number(value)?, (), out),
        "varint" => through(alloc, UInt(number(value)?), (), out),
        "key" => through(alloc, U64::new(number(value)?), (), out),
        "fixed4" => through(alloc, fixed(value)?, (), out),
        "optional" => through(alloc, Some(fixed(value)?), (), out),
        "two" => through(
            alloc,
            bytes(alloc, value)?,
            (RangeCfg { min: 2, max: 2 }, ()),
            out,
        ),
        _ => Err(Fault::Malformed),
    }
}

/// Returns four bytes.
fn fixed(text: &str) -> Result<FixedBytes<4>, Fault> {
    Ok(FixedBytes {
        bytes: array(text)?,
    })
}

fn through<T: Read + EncodeSize + PartialEq>(
    alloc: Global,
    value: T,
    cfg: T::Cfg,
    out: &mut String,
) -> Result<(), Fault>
where
    T::Cfg: Drop,
{
    tell_through(alloc, &value, &cfg, out)
}

/// Adds the bytes of a value, and whether it is read again from them as a slice and as shared bytes.
fn tell_through<T: Read + EncodeSize + PartialEq>(
    alloc: Global,
    value: &T,
    cfg: &T::Cfg,
    out: &mut String,
) -> Result<(), Fault> {
    let bytes = value.encode(alloc)?;
    tell_bytes(out, &bytes)?;
    let from_slice = is_read(alloc, bytes.as_slice(), cfg, value)?;
    let shared = Bytes::copy_from_slice(alloc, &bytes)?;
    let from_shared = is_read(alloc, shared, cfg, value)?;
    Ok(write!(out, " {from_slice} {from_shared}")?)
}

/// Returns whether the bytes are this value.
fn is_read<T: Read + PartialEq, B: Buf>(
    alloc: Global,
    buf: B,
    cfg: &T::Cfg,
    value: &T,
) -> Result<bool, Fault> {
    match T::decode_cfg(alloc, buf, cfg) {
        Ok(read) => Ok(read == *value),
        Err(Error::Memory) => Err(Fault::Memory),
        Err(_) => Ok(false),
    }
}

/// `bytes count`: the first `count` of five bytes, cut from the front of them as a slice and as shared bytes, each with how many are
/// left.
pub fn cuts(alloc: Global, columns: &[&str], out: &mut String) -> Result<(), Fault> {
    let (text, count): ([u8; 5], usize) = parse(alloc, columns)?;
    cut(alloc, text.as_slice(), count, out)?;
    out.push(' ')?;
    cut(alloc, Bytes::copy_from_slice(alloc, &text)?, count, out)
}

fn cut<B: Buf>(alloc: Global, mut buf: B, count: usize, out: &mut String) -> Result<(), Fault> {
    let front = buf.cut(alloc, count)?;
    tell_bytes(out, &front)?;
    Ok(write!(out, " {}", buf.remaining())?)
}
