//! Why a file isn't read.
ghost use Rattle.std.specs.Prelude.{◌≡◌};
ghost use Rattle.agv_count.specs.Fault.{fault_of};
ghost use Rattle.agv_count.specs.declared.fault.CsvFault.TheVariants as fault;

use csv::{Error, ErrorKind};
use std::alloc::AllocFailed;

/// Why a file isn't read.
#[derive(Clone, Copy, Debug, PartialEq, Eq, thiserror::Error)]
pub enum CsvFault {
    /// The file isn't the table that it should be.
    #[error("the file isn't the table that it should be")]
    BadCsv,
    /// An allocation was refused; the file may be good.
    #[error("out of memory")]
    Memory,
}

impl From<Error> for CsvFault {
    ghost from_gives = { λ error made. made ≡ fault_of error };

    fn from(error: Error) -> CsvFault {
        match error.kind() {
            // A slice is read without an error, so `Io` doesn't occur. If it did, the file would
            // not be to blame.
            ErrorKind::OutOfMemory | ErrorKind::Io(_) => CsvFault::Memory,
            _ => CsvFault::BadCsv,
        }
    }
}

impl<T: Drop> From<AllocFailed<T>> for CsvFault {
    ghost from_gives = { λ _ made. made ≡ fault.Memory };

    fn from(_failed: AllocFailed<T>) -> CsvFault {
        CsvFault::Memory
    }
}
