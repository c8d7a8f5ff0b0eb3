//! Why a vehicle's claim fails.

use agv_header::{Memory, Thing, VehicleKey};
use thiserror::Error;

/// Why a claim fails: the things are not given to the vehicle.
#[derive(Clone, Copy, Debug, PartialEq, Eq, Error)]
pub enum ClaimFault {
    /// Another vehicle, `by`, holds the thing `what`.
    #[error("another vehicle holds a node or an edge")]
    Held { what: Thing, by: VehicleKey },
    /// Out of memory.
    #[error("out of memory")]
    Memory,
}

impl From<Memory> for ClaimFault {
    ghost use Rattle.std.specs.Prelude.{◌≡◌};
    ghost use Rattle.agv_track_holds.specs.declared.claim_fault.ClaimFault.TheVariants as fault;

    ghost from_gives = { λ _ made. made ≡ fault.Memory };

    fn from(_error: Memory) -> ClaimFault {
        ClaimFault::Memory
    }
}
