//! Why rows give no layout.

use std::alloc::{AllocError, AllocFailed};
use thiserror::Error;

/// Why rows give no layout, or that memory ran out.
#[derive(Clone, Copy, Debug, PartialEq, Eq, Error)]
pub enum LayoutFault {
    /// More than 500 nodes, 1,500 edges or 500 stations.
    #[error("more than 500 nodes, 1,500 edges or 500 stations")]
    Limit,
    /// No node at all; an id twice within a kind; an edge or a station whose node is not listed; an
    /// edge from a node to itself; or a capacity that is not 1 to 999.
    #[error("the rows are no layout")]
    Bad,
    /// Out of memory; the rows may be good.
    #[error("out of memory")]
    Memory,
}

impl From<AllocError> for LayoutFault {
    ghost use Rattle.std.specs.Prelude.{◌≡◌};
    ghost use Rattle.agv_layout.specs.declared.fault.LayoutFault.TheVariants as fault;

    ghost from_gives = { λ _ made. made ≡ fault.Memory };

    fn from(_error: AllocError) -> LayoutFault {
        LayoutFault::Memory
    }
}

impl<T: Drop> From<AllocFailed<T>> for LayoutFault {
    ghost use Rattle.std.specs.Prelude.{◌≡◌};
    ghost use Rattle.agv_layout.specs.declared.fault.LayoutFault.TheVariants as fault;

    ghost from_gives = { λ _ made. made ≡ fault.Memory };

    fn from(_error: AllocFailed<T>) -> LayoutFault {
        LayoutFault::Memory
    }
}
