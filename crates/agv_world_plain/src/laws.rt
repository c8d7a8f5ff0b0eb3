//! What follows from the contract of a floor over a world in memory. The function does nothing: its clause
//! is the law.
ghost use Rattle.std.specs.Prelude.{◌≡◌, ◌≢◌, Err, Result};
ghost use Rattle.agv_world_core.specs.Asks.{failed_by};
ghost use Rattle.agv_world_core.specs.declared.fault.Fault.{Fault};
ghost use Rattle.agv_world_core.specs.declared.fault.Fault.TheVariants as fault;
ghost use Rattle.agv_world_plain.specs.declared.plain_floor.PlainFloor.{PlainFloor as OfPlainFloor};

use crate::PlainFloor;
use agv_world_core::Floor;

/// Proves that a result is no fault of the store, if the floor is over a world in memory and `failed_by` says
/// whether the floor has failed afterwards, as the contract of `decide` of `agv_desk` does.
#[tactic(auto, using(crate::proofs::NoStorage::no_storage))]
pub fn never_fails_in_memory<A>()
    ensures { (floor floor_then : OfPlainFloor) (result : Result A Fault)
        → ⟦<PlainFloor<'static> as Floor>⟧.facts.failed floor_then ≡ failed_by result (⟦<PlainFloor<'static> as Floor>⟧.facts.failed floor)
        → result ≢ Err fault.Storage }
{}
