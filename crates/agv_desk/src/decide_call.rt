//! Deciding a call: its answer, and the rows that it changes.
ghost use Rattle.std.specs.Prelude.{◌≡◌};
ghost use Rattle.agv_world_core.specs.Changes.{changed};
ghost use Rattle.agv_world_core.specs.Asks.{Asks, failed_by};
ghost use Rattle.agv_world_core.specs.Maps.{maps_of};
ghost use Rattle.agv_desk.specs.DecisionEnds.{LeavesWorld};
ghost use Rattle.agv_desk.specs.InOrder.{IsInOrder};
ghost use Rattle.agv_desk.specs.Outcomes.{after, decided};
ghost use Rattle.agv_desk.specs.Sizes.{IsWithinTripLimits};
ghost use Rattle.agv_desk.specs.Step.{step};

use crate::drives::start_drive;
use crate::instants::{cancel, pause, resume};
use crate::jobs::{add_job, stop_job};
use crate::laws::calls::leads_to_the_maps;
use crate::layouts::set_layout;
use crate::loads::{correct_load, leave_load, register_load};
use crate::orders::start_order;
use crate::reads::{get_instant, get_job, get_load, get_order, get_vehicle, name_report};
use crate::states::take_state;
use crate::stocktake::take_stock;
use crate::updates::advance;
use crate::vehicles::{place_vehicle, register_vehicle, resync};
use crate::{Answer, Call, Decision};
use agv_header::Moment;
use agv_world_core::{Fault, Floor};
use std::alloc::Global;

/// Decides a call at a moment in the world of a floor: returns its answer, and the rows that it changes.
///
/// The answer is that of the table of calls (`specs/Step.antt`), and from a world in order the changes take the maps of
/// the world to those of the world after the call; a call that is refused or only reads changes nothing. For an update,
/// a place, a state and a query of the last order message, this holds if the vehicle's trip has at most 200 edges and
/// eight acts, and no more updates than released edges, as every trip of a lawful world has.
///
/// The floor is only queried (`Asks`). So its world is the same after an answer, and also after a fault if the floor is
/// still open (`world`). This and the answer hold if the floor's store has returned what was written to it.
///
/// `Memory` when out of memory, `Storage` where the floor has failed: it then says so as the call ends (`failed`). A
/// world in memory never fails (`laws::never_fails_in_memory` of `agv_world_plain`).
pub fn decide<F: Floor>(
    alloc: Global,
    floor: &mut F,
    at: Moment,
    call: &Call,
) -> Result<Decision, Fault>
    ensures decides { Asks F.facts floor.old floor.new result (λ world decision.
        IsWithinTripLimits world call.now → decision ≡ decided (step (F.facts.seats floor.old) world at call.now)) }
    ensures changes { Asks F.facts floor.old floor.new result (λ world decision.
        IsInOrder world → changed decision.changes (maps_of world) ≡ maps_of (after world (step (F.facts.seats floor.old) world at call.now))) }
    ensures failed { F.facts.failed floor.new ≡ failed_by result (F.facts.failed floor.old) }
    ensures seats { F.facts.seats floor.new ≡ F.facts.seats floor.old }
    ensures world { LeavesWorld F.facts floor.old floor.new result }
{
    leads_to_the_maps();
    decide_each(alloc, floor, at, call)
}

/// Decides the call by the function for its kind.
fn decide_each<F: Floor>(
    alloc: Global,
    floor: &mut F,
    at: Moment,
    call: &Call,
) -> Result<Decision, Fault>
    ensures { Asks F.facts floor.old floor.new result (λ world decision. IsWithinTripLimits world call.now → decision ≡ decided (step (F.facts.seats floor.old) world at call.now)) }
{
    match call {
        Call::SetLayout { rows } => set_layout(alloc, floor, rows.as_slice()),
        Call::RegisterVehicle {
            key,
            node,
            capacity,
        } => register_vehicle(alloc, floor, key, *node, *capacity),
        Call::RegisterLoad { load, station } => register_load(alloc, floor, *load, *station),
        Call::CorrectLoad {
            load,
            reference,
            station,
        } => correct_load(alloc, floor, *load, *reference, *station),
        Call::LeaveLoad { load, reference } => leave_load(alloc, floor, *load, *reference),
        Call::AddJob { job, load, to } => add_job(alloc, floor, *job, *load, *to),
        Call::StopJob { job } => stop_job(alloc, floor, *job),
        Call::StartOrder {
            order,
            key,
            stops,
            edges,
        } => start_order(alloc, floor, at, order, key, stops.as_slice(), *edges),
        Call::StartDrive {
            order,
            key,
            to,
            edges,
        } => start_drive(alloc, floor, at, order, key, *to, *edges),
        Call::Advance {
            key,
            order,
            update,
            edges,
        } => advance(alloc, floor, at, key, order, *update, *edges),
        Call::Cancel { key } => cancel(alloc, floor, at, key),
        Call::Pause { key } => pause(alloc, floor, at, key),
        Call::Resume { key } => resume(alloc, floor, at, key),
        Call::PlaceVehicle {
            key,
            reference,
            node,
        } => place_vehicle(alloc, floor, key, *reference, *node),
        Call::Resync { key } => resync(alloc, floor, key),
        Call::State { key, state } => take_state(alloc, floor, key, state),
        Call::GetOrder { key } => get_order(alloc, floor, *key),
        Call::GetInstant { key } => get_instant(alloc, floor, *key),
        Call::Stocktake { reference, rows } => {
            take_stock(alloc, floor, *reference, rows.as_slice())
        }
        Call::GetLoad { load } => get_load(alloc, floor, *load),
        Call::GetJob { job } => get_job(alloc, floor, *job),
        Call::GetVehicle { key } => get_vehicle(alloc, floor, *key),
        Call::Report(report) => Ok(name_report(alloc, *report)),
    }
}
