//! Why creating the desk's tables failed.
ghost use Rattle.std.specs.Prelude.{◌≡◌};
ghost use Rattle.agv_store_create.specs.MakingFault.{making_fault_of};

use sqlite::{Error, ErrorCode};

/// Why creating the desk's tables failed.
#[derive(Clone, Copy, Debug, PartialEq, Eq, thiserror::Error)]
pub enum MakingFault {
    /// A table, a view or an index has the name of one of the desk's tables that are to be created. For
    /// [`move_tables`](move_tables) also: a foreign key refers to one of them.
    #[error("a table, a view or an index has the name of one of the desk's tables")]
    Taken,
    /// Out of memory.
    #[error("out of memory")]
    Memory,
    /// Any other error of the database, for example the store failed or was closed by an earlier failure.
    #[error("the database failed")]
    Storage,
}

impl From<Error> for MakingFault {
    ghost from_gives = { λ error fault. fault ≡ making_fault_of error };

    fn from(error: Error) -> MakingFault {
        match error {
            Error::SqliteFailure(ErrorCode::OutOfMemory) => MakingFault::Memory,
            _ => MakingFault::Storage,
        }
    }
}
