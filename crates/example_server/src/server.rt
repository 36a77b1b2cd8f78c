//! The database, and the answers that it gives with proofs.

use crate::command::Command;
use anyhow::{Result, bail};
use commonware_storage::codec::Encode;
use commonware_storage::db::{Error, Ordered};
use commonware_storage::digest::Sha256;
use commonware_storage::merkle::mmb::Family;
use commonware_storage::qmdb::any::VariableEncoding;
use std::alloc::Global;

/// Keys and values of any length, an MMB over their operations, and activity bits in chunks of 32 bytes.
type Database = Ordered<Family, Sha256, Vec<u8>, VariableEncoding<Vec<u8>>, 32>;

/// A database that answers commands.
#[derive(Drop)]
pub(crate) struct Server {
    alloc: Global,
    database: Database,
}

impl Server {
    /// Starts with no keys and no commit.
    pub(crate) fn new(alloc: Global) -> Server {
        let database = Database::new(alloc);
        Server { alloc, database }
    }

    /// Carries out `command`. The answer is a line for a commit and for a question, and none for the others.
    pub(crate) fn answer(&mut self, command: Command<'_>) -> Result<Option<String>> {
        match command {
            Command::Put { key, value } => {
                let (key, value) = (self.bytes(key)?, self.bytes(value)?);
                self.database.put(key, value)?;
                Ok(None)
            }
            Command::Delete { key } => {
                let key = self.bytes(key)?;
                self.database.delete(&key)?;
                Ok(None)
            }
            Command::Commit => {
                self.database.commit(None)?;
                Ok(Some(self.root()?))
            }
            Command::Get { key } => Ok(Some(self.get(key)?)),
        }
    }

    /// Writes `root ROOT`, the root that a client trusts.
    fn root(&self) -> Result<String> {
        let Some(root) = self.database.root() else {
            bail!("nothing is committed");
        };
        let root = hex::encode(self.alloc, root.bytes)?;
        Ok(format!(in self.alloc; "root {root}")?)
    }

    /// Writes `value KEY VALUE PROOF` where `key` had a value at the last commit, else `absence KEY PROOF`.
    fn get(&self, key: &str) -> Result<String> {
        match self.database.prove_value(&self.bytes(key)?) {
            Ok((value, proof)) => {
                let value = str::from_utf8(&value)?;
                let proof = hex::encode(self.alloc, proof.encode(self.alloc)?)?;
                Ok(format!(in self.alloc; "value {key} {value} {proof}")?)
            }
            Err(Error::Absent) => self.absence(key),
            Err(Error::NotCommitted) => Ok(format!(in self.alloc; "uncommitted")?),
            Err(error) => Err(error.into()),
        }
    }

    /// Writes `absence KEY PROOF`: `key` had no value at the last commit.
    fn absence(&self, key: &str) -> Result<String> {
        let proof = self.database.prove_absence(&self.bytes(key)?)?;
        let proof = hex::encode(self.alloc, proof.encode(self.alloc)?)?;
        Ok(format!(in self.alloc; "absence {key} {proof}")?)
    }

    /// Returns the bytes of `text`, as a key or a value of the database.
    fn bytes(&self, text: &str) -> Result<Vec<u8>> {
        Ok(text.as_bytes().to_vec(self.alloc)?)
    }
}
