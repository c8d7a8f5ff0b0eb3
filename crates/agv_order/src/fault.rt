//! Why a trip can't be planned.
ghost use Rattle.std.specs.Prelude.{◌≡◌};
ghost use Rattle.agv_order.specs.declared.fault.PlanFault.TheVariants as fault;

use agv_header::Memory;
use std::alloc::{AllocError, AllocFailed};
use thiserror::Error;

/// Why a trip can't be planned, or that memory ran out.
#[derive(Clone, Copy, Debug, PartialEq, Eq, Error)]
pub enum PlanFault {
    /// The job or the station of a stop is unknown, or no walk leads to a stop, as when the vehicle's node is unknown.
    #[error("no walk leads to a stop")]
    NoWalk,
    /// The whole way has more than 200 edges.
    #[error("the way has more than 200 edges")]
    TooLong,
    /// More edges are to be released than the way has.
    #[error("more edges are to be released than the way has")]
    Beyond,
    /// Out of memory; the trip may be possible.
    #[error("out of memory")]
    Memory,
}

impl From<AllocError> for PlanFault {
    ghost from_gives = { λ _ made. made ≡ fault.Memory };

    fn from(_error: AllocError) -> PlanFault {
        PlanFault::Memory
    }
}

impl<T: Drop> From<AllocFailed<T>> for PlanFault {
    ghost from_gives = { λ _ made. made ≡ fault.Memory };

    fn from(_error: AllocFailed<T>) -> PlanFault {
        PlanFault::Memory
    }
}

impl From<Memory> for PlanFault {
    ghost from_gives = { λ _ made. made ≡ fault.Memory };

    fn from(_error: Memory) -> PlanFault {
        PlanFault::Memory
    }
}
