//! A stored database over memory and over a file, by calls without a contract. A call of `Stored` owes that its type takes fewer than
//! 2^63 bytes, which the prover finds of a type in which nothing is left open: so they stand here once for each store.

use sqlite::{Alter, Connection, Error as SqlError, File, FileStore, MemStore};
use std::alloc::{AllocError, Global};
use storage_codec::codec::FixedBytes;
use storage_codec::digest::Sha256;
use storage_file::Agreement;
use storage_merkle::merkle::mmr;
use storage_ops::qmdb::any::FixedEncoding;
use storage_stored::{CompactError, Error, Stored};

type Key = FixedBytes<4>;

type Root = FixedBytes<32>;

type Over<S> = Stored<mmr::Family, Sha256, Key, FixedEncoding<u64>, 1, S>;

/// A database over memory.
pub(crate) type InMemory = Over<MemStore>;

/// A database over a file.
pub(crate) type InFile = Over<FileStore<File>>;

/// Why a call was refused.
pub(crate) type Refusal = Error<mmr::Family>;

/// The root of the last commit, if there is one.
pub(crate) type Last = Option<Root>;

const AGREEMENT: Agreement<'static> = Agreement {
    family: "mmr",
    digest: "sha256",
    chunk_size: 1,
    key_encoding: "fixed 4",
    value_encoding: "fixed 8",
};

fn key(number: u8) -> Key {
    FixedBytes {
        bytes: [0, 0, 0, number],
    }
}

/// What is asked of a database.
#[derive(Clone, Copy)]
pub(crate) enum Change {
    /// A value for the key of a number.
    Put(u8, u64),
    /// That the key of a number has no value.
    Delete(u8),
    /// A commit of what was put and deleted.
    Commit,
}

/// A stored database, over any store.
pub(crate) trait Kept: Sized {
    /// Makes a change. Returns whether the key had a value, of a deletion, else no.
    fn change(&mut self, change: Change) -> Result<bool, Refusal>;

    /// Returns the root of the last commit.
    fn root(&self) -> Result<Last, Refusal>;
}

impl Kept for InMemory {
    fn change(&mut self, change: Change) -> Result<bool, Refusal> {
        match change {
            Change::Put(number, value) => self.put(key(number), value)?,
            Change::Delete(number) => return self.delete(&key(number)),
            Change::Commit => self.commit(None)?,
        }
        Ok(false)
    }

    fn root(&self) -> Result<Last, Refusal> {
        Ok(self.database()?.root())
    }
}

impl Kept for InFile {
    fn change(&mut self, change: Change) -> Result<bool, Refusal> {
        match change {
            Change::Put(number, value) => self.put(key(number), value)?,
            Change::Delete(number) => return self.delete(&key(number)),
            Change::Commit => self.commit(None)?,
        }
        Ok(false)
    }

    fn root(&self) -> Result<Last, Refusal> {
        Ok(self.database()?.root())
    }
}

/// Opens a database over memory, and drops the connection where that is refused.
pub(crate) fn open(alloc: Global, conn: Connection<MemStore>) -> Result<InMemory, Refusal> {
    match Stored::open(alloc, conn, &AGREEMENT, ()) {
        Ok(database) => Ok(database),
        Err((error, _conn)) => Err(error),
    }
}

/// Opens the database of a file, and drops the connection where that is refused.
pub(crate) fn open_file(rt: &HostRuntime, path: &str) -> Result<InFile, Refusal> {
    let conn = match Connection::open(rt, path) {
        Ok(conn) => conn,
        Err(error) => return Err(Refusal::Store(error)),
    };
    match Stored::open(rt.alloc(), conn, &AGREEMENT, ()) {
        Ok(database) => Ok(database),
        Err((error, _conn)) => Err(error),
    }
}

/// Closes the files of a database.
pub(crate) fn close(database: InFile) -> Result<(), Refusal> {
    match database.close() {
        Ok(_files) => Ok(()),
        Err((error, store)) => {
            drop(store.close());
            Err(error)
        }
    }
}

/// Returns the value of the key of a number.
pub(crate) fn value(database: &InMemory, number: u8) -> Result<Option<u64>, Refusal> {
    Ok(database.database()?.get(&key(number)).copied())
}

/// Returns the value that it had at the last commit.
pub(crate) fn committed(database: &InMemory, number: u8) -> Result<Option<u64>, Refusal> {
    Ok(database.database()?.get_committed(&key(number)).copied())
}

/// Returns why updates were not put again.
fn refusal_of(error: &CompactError<mmr::Family>) -> Refusal {
    match error {
        CompactError::Refused(error) => *error,
        CompactError::NotRead(_) => Refusal::Corrupted,
    }
}

/// Puts the oldest active updates again, and returns how many.
pub(crate) fn compact(database: &mut InMemory, count: u64) -> Result<u64, Refusal> {
    match database.compact(count) {
        Ok(moved) => Ok(moved),
        Err(error) => Err(refusal_of(&error)),
    }
}

/// Gives the connection back.
pub(crate) fn connection(database: InMemory) -> Connection<MemStore> {
    database.into_connection()
}

/// Returns an empty database in memory.
pub(crate) fn in_memory(alloc: Global) -> Result<Connection<MemStore>, AllocError> {
    Connection::open_in_memory(alloc)
}

/// Runs a statement.
pub(crate) fn execute<S: Alter>(conn: &mut Connection<S>, statement: &str) -> Result<(), SqlError> {
    conn.execute(statement, &[])?;
    Ok(())
}
