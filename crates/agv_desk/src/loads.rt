//! The calls about loads. `can_register`, `can_correct` and `can_leave` have their checks in order.
ghost use Rattle.std.specs.Prelude.{◌≡◌, IfOk};
ghost use Rattle.agv_world_core.specs.Asks.{Asks};
ghost use Rattle.agv_desk.specs.LoadSteps.{place_of, register_load, correct_load, leave_load, recorded, load_registered};
ghost use Rattle.agv_desk.specs.Outcomes.{Made, decided};
ghost use Rattle.agv_desk.specs.Shared.{goal_of};

use crate::decisions::{made_with, refused};
use crate::shared::{is_in_job, is_new, reference_used, station_goal};
use crate::{Answer, Decision};
use agv_header::limits::MAX_RECORDS;
use agv_header::{Memory, Name, Refusal};
use agv_stock::{Goal, Place, can_correct, can_leave, can_register};
use agv_world_core::{Change, Counted, Fault, Floor};
use std::alloc::Global;

/// Registers a load at a station, or at the checking place.
pub(crate) fn register_load<F: Floor>(
    alloc: Global,
    floor: &mut F,
    load: Name,
    station: Option<Name>,
) -> Result<Decision, Fault>
    ensures { Asks F.facts floor.old floor.new result (λ world decision. decision ≡ decided (register_load world load station)) }
{
    let place = floor.place(load)?;
    let goal = goal_of(floor, station)?;
    if let Err(why) = can_register(place, goal) {
        return Ok(refused(alloc, why));
    }
    if floor.count(Counted::Loads)? >= MAX_RECORDS {
        return Ok(refused(alloc, Refusal::Limit));
    }
    Ok(load_registered(alloc, load, place_of(station))?)
}

/// Returns the effect of registering a load at this place.
fn load_registered(alloc: Global, load: Name, to: Place) -> Result<Decision, Memory>
    ensures { IfOk result (λ decision. decision ≡ decided (Made (load_registered load to))) }
{
    let mut changes = Vec::new(alloc);
    changes.push(Change::Load(load, to))?;
    Ok(made_with(Answer::Done, changes))
}

/// Corrects the place of a load to a station, or to the checking place.
pub(crate) fn correct_load<F: Floor>(
    alloc: Global,
    floor: &mut F,
    load: Name,
    reference: Name,
    station: Option<Name>,
) -> Result<Decision, Fault>
    ensures { Asks F.facts floor.old floor.new result (λ world decision. decision ≡ decided (correct_load world load reference station)) }
{
    if !is_new(floor, reference)? {
        return Ok(refused(alloc, Refusal::RefUsed));
    }
    let place = floor.place(load)?;
    let goal = goal_of(floor, station)?;
    let live = is_in_job(floor, load)?;
    if let Err(why) = can_correct(place, live, goal) {
        return Ok(refused(alloc, why));
    }
    if floor.count(Counted::References)? >= MAX_RECORDS {
        return Ok(refused(alloc, Refusal::Limit));
    }
    Ok(recorded(alloc, load, place_of(station), reference)?)
}

/// Returns where a load is to go, with what is known of the place.
fn goal_of<F: Floor>(floor: &mut F, station: Option<Name>) -> Result<Goal, Fault>
    ensures { Asks F.facts floor.old floor.new result (λ world goal. goal ≡ goal_of world station) }
{
    let Some(station) = station else {
        return Ok(Goal::Checking);
    };
    station_goal(floor, station)
}

/// Returns the station as a place, or the checking place if there is none.
fn place_of(station: Option<Name>) -> Place
    ensures { result ≡ place_of station }
{
    match station {
        Some(station) => Place::Station(station),
        None => Place::Checking,
    }
}

/// Records that a load has left the warehouse.
pub(crate) fn leave_load<F: Floor>(
    alloc: Global,
    floor: &mut F,
    load: Name,
    reference: Name,
) -> Result<Decision, Fault>
    ensures { Asks F.facts floor.old floor.new result (λ world decision. decision ≡ decided (leave_load world load reference)) }
{
    if !is_new(floor, reference)? {
        return Ok(refused(alloc, Refusal::RefUsed));
    }
    let place = floor.place(load)?;
    let live = is_in_job(floor, load)?;
    if let Err(why) = can_leave(place, live) {
        return Ok(refused(alloc, why));
    }
    if floor.count(Counted::References)? >= MAX_RECORDS {
        return Ok(refused(alloc, Refusal::Limit));
    }
    Ok(recorded(alloc, load, Place::Left, reference)?)
}

/// Returns the effect of recording the load at this place and using the reference.
fn recorded(alloc: Global, load: Name, to: Place, reference: Name) -> Result<Decision, Memory>
    ensures { IfOk result (λ decision. decision ≡ decided (Made (recorded load to reference))) }
{
    let mut changes = Vec::new(alloc);
    changes.push(Change::Load(load, to))?;
    changes.push(reference_used(reference))?;
    Ok(made_with(Answer::Done, changes))
}
