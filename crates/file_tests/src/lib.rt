//! Tests of the tables that a database keeps in a file: each call once on its happy path, each refusal, and a file that is opened again.
#![tactic(auto)]

#[cfg(test)]
mod agreed;
#[cfg(test)]
mod files;
#[cfg(test)]
mod journals;
#[cfg(test)]
mod tables;
