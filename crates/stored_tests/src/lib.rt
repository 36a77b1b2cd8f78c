//! Tests of databases whose commits are kept by a connection, in memory and in a file: each call once on its happy path, each refusal,
//! a thousand commands, and a load of commits that goes on after what fails.
#![tactic(auto)]

#[cfg(test)]
mod commands;
#[cfg(test)]
mod databases;
#[cfg(test)]
mod kept;
#[cfg(test)]
mod load;
#[cfg(test)]
mod stored;
