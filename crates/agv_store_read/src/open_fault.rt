//! Why the desk's tables can't be read, and why no desk can be opened in a database.
ghost use Rattle.std.specs.Prelude.{◌≡◌};
ghost use Rattle.agv_store_read.specs.OpenFault.{open_fault_of};

use agv_header::Memory;
use sqlite::{Error, ErrorCode};
use std::alloc::{AllocError, AllocFailed};

/// Why the desk's tables can't be read, and why no desk can be opened in a database.
///
/// If a database has these tables, a query that fails and leaves the store open changes nothing, whatever rows they
/// have, except that it may end the transaction and so undo it.
#[derive(Clone, Copy, Debug, PartialEq, Eq, thiserror::Error)]
pub enum OpenFault {
    /// A row of a table is not valid, contradicts another row or refers to one that doesn't exist: a key that another
    /// row has, a trip without its job or its edges. Tables that have the rows of a lawful world are never damaged.
    /// When a desk is opened also: a table is missing or differs from the desk's, the rows break a rule of the desk, or
    /// the tables can't be created beside what the database has.
    #[error("the database's tables are no desk's, or have the rows of no lawful world")]
    Damaged,
    /// Out of memory.
    #[error("out of memory")]
    Memory,
    /// Any other error of the database: the store failed or was closed by an earlier failure, or the steps of its queries
    /// are limited.
    #[error("the database failed")]
    Storage,
}

impl From<Error> for OpenFault {
    ghost from_gives = { λ error fault. fault ≡ open_fault_of error };

    fn from(error: Error) -> OpenFault {
        match error {
            Error::SqliteFailure(ErrorCode::OutOfMemory) => OpenFault::Memory,
            _ => OpenFault::Storage,
        }
    }
}

impl From<Memory> for OpenFault {
    ghost use Rattle.agv_store_read.specs.declared.open_fault.OpenFault.TheVariants as fault;

    ghost from_gives = { λ _ made. made ≡ fault.Memory };

    fn from(_error: Memory) -> OpenFault {
        OpenFault::Memory
    }
}

impl From<AllocError> for OpenFault {
    ghost use Rattle.agv_store_read.specs.declared.open_fault.OpenFault.TheVariants as fault;

    ghost from_gives = { λ _ made. made ≡ fault.Memory };

    fn from(_error: AllocError) -> OpenFault {
        OpenFault::Memory
    }
}

impl<T: Drop> From<AllocFailed<T>> for OpenFault {
    ghost use Rattle.agv_store_read.specs.declared.open_fault.OpenFault.TheVariants as fault;

    ghost from_gives = { λ _ made. made ≡ fault.Memory };

    fn from(_error: AllocFailed<T>) -> OpenFault {
        OpenFault::Memory
    }
}
