//! A light client. It trusts one root, its argument. Each line of the input is an answer of a server, with a proof, and the client
//! prints whether the proof shows it. A line that begins with `demo` is about the snapshot of `./demo`, under another root.
#![tactic(auto)]

mod client;
mod demo;

use anyhow::{Context, Result, bail};
use commonware_storage::codec::FixedBytes;
use hex::FromHex;
use std::alloc::Global;
use std::env;
use std::io::{BufRead, BufReader};

/// Reads a root in hexadecimal.
fn root_of(word: &str) -> Result<FixedBytes<32>> {
    let bytes = <[u8; 32] as FromHex>::from_hex(word)?;
    Ok(FixedBytes { bytes })
}

/// Checks a line `value KEY VALUE PROOF`, `absence KEY PROOF` or `demo QUESTION PROOF`: whether its proof shows it.
/// Running out of memory is an error, and so is any other line.
fn is_shown(alloc: Global, line: &str, root: &FixedBytes<32>) -> Result<bool> {
    let (claim, proof) = line.rsplit_once(' ').context("no proof")?;
    let proof = hex::decode(alloc, proof)?;
    match claim.split_once(' ') {
        Some(("value", claim)) => client::has_value(alloc, claim, &proof, root),
        Some(("absence", key)) => client::is_absent(alloc, key, &proof, root),
        Some(("demo", asked)) => demo::answer(alloc, asked, &proof),
        _ => bail!("neither a value nor an absence"),
    }
}

fn main(rt: HostRuntime) -> Result<()> {
    let root = env::args(&rt)?.nth(1).context("no root is given")?;
    let root = root_of(root.as_str())?;
    for line in BufReader::new(rt.alloc(), rt.reader())?.lines(rt.alloc()) {
        let yes = is_shown(rt.alloc(), line?.as_str(), &root)?;
        println!(rt; "{}", if yes { "yes" } else { "no" })?;
    }
    Ok(())
}
