//! The worked cases that no line of text can give: runs of the program whose reader fails or whose writers take no more, and proofs of
//! a database that a client checks from their bytes. The other ones are lines of the crate `replay`, each with the name of its case
//! before it. What they expect is what the definitions give, and not what this code answered.
#![tactic(auto)]

#[cfg(test)]
mod database_proofs;
#[cfg(test)]
mod program_faults;
