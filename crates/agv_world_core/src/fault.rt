//! Why a question has no answer, or a change was not made.
ghost use Rattle.std.specs.Prelude.{◌≡◌};

use agv_header::Memory;
use std::alloc::{AllocError, AllocFailed};
use thiserror::Error;

/// Why a question about what the desk knows has no answer, or a change was not written.
#[derive(Clone, Copy, Debug, PartialEq, Eq, Error)]
pub enum Fault {
    /// An allocation was refused.
    #[error("out of memory")]
    Memory,
    /// The store failed, or what it contains cannot be read.
    #[error("the store failed, or what lies in it can't be read")]
    Storage,
}

impl From<Memory> for Fault {
    ghost use Rattle.agv_world_core.specs.declared.fault.Fault.TheVariants as fault;

    ghost from_gives = { λ _ made. made ≡ fault.Memory };

    fn from(_error: Memory) -> Fault {
        Fault::Memory
    }
}

impl From<AllocError> for Fault {
    ghost use Rattle.agv_world_core.specs.declared.fault.Fault.TheVariants as fault;

    ghost from_gives = { λ _ made. made ≡ fault.Memory };

    fn from(_error: AllocError) -> Fault {
        Fault::Memory
    }
}

impl<T: Drop> From<AllocFailed<T>> for Fault {
    ghost use Rattle.agv_world_core.specs.declared.fault.Fault.TheVariants as fault;

    ghost from_gives = { λ _ made. made ≡ fault.Memory };

    fn from(_error: AllocFailed<T>) -> Fault {
        Fault::Memory
    }
}
