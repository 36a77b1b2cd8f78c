//! What was agreed, read by who does not know it.

use crate::tables::{AGREEMENT, execute, in_memory};
use sqlite::Error as SqlError;
use sqlite_resolve::CompileError;
use std::alloc::Global;
use std::test::Fail;
use storage_file::{Error, OwnedAgreement, create, read_agreement};

/// Reads what was agreed of the tables of a database.
fn agreed(alloc: Global) -> Result<OwnedAgreement, Fail> {
    let mut conn = in_memory(alloc)?;
    create(&mut conn, &AGREEMENT)?;
    Ok(read_agreement(alloc, &mut conn)?)
}

/// Why what was agreed can't be read after a statement.
fn refused_after(alloc: Global, statement: &str) -> Result<Option<Error>, Fail> {
    let mut conn = in_memory(alloc)?;
    create(&mut conn, &AGREEMENT)?;
    execute(&mut conn, statement)?;
    Ok(read_agreement(alloc, &mut conn).err())
}

/// Returns whether that is what the tests agree on.
fn is_as_agreed(found: &OwnedAgreement) -> bool {
    found.family.as_slice() == AGREEMENT.family.as_bytes()
        && found.digest.as_slice() == AGREEMENT.digest.as_bytes()
        && found.chunk_size == 32
        && found.key_encoding.as_slice() == AGREEMENT.key_encoding.as_bytes()
        && found.value_encoding.as_slice() == AGREEMENT.value_encoding.as_bytes()
}

#[test]
fn what_was_agreed_is_read(rt: HostRuntime) -> Result<(), Fail> {
    assert!(rt; is_as_agreed(&agreed(rt.alloc())?));
    Ok(())
}

#[test]
fn no_agreement_is_read_of_other_rows(rt: HostRuntime) -> Result<(), Fail> {
    let version = refused_after(rt.alloc(), "UPDATE agreed SET version = 2")?;
    assert_eq!(rt; version, Some(Error::Foreign));
    let statements = [
        "UPDATE agreed SET number = 1",
        "UPDATE agreed SET chunk_size = -1",
        "DELETE FROM agreed",
    ];
    for statement in statements {
        assert_eq!(rt;
            refused_after(rt.alloc(), statement)?,
            Some(Error::Corrupted)
        );
    }
    let gone = Error::Store(SqlError::SqlInputError(CompileError::NoSuchTable));
    assert_eq!(rt; refused_after(rt.alloc(), "DROP TABLE agreed")?, Some(gone));
    Ok(())
}
