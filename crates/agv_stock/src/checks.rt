//! The checks of the calls for loads and jobs, each in its order.
ghost use Rattle.std.specs.Prelude.{◌≡◌, ◌≢◌};
ghost use Rattle.agv_stock.specs.Checks.{is_known, has_room, is_there, is_stored, register_check, correct_check, leave_check, job_check};
ghost use Rattle.agv_stock.specs.Rooms.{is_checking, has_left};
ghost use Rattle.agv_stock.specs.declared.goal.Goal.TheVariants as goals;

use crate::{Goal, Place};
use agv_header::Refusal;

/// Checks whether a load with this place, if any, can be registered at the goal. Returns, in this
/// order, `Exists` if it has a place, `NoStation` or `Full`. It takes no memory.
pub fn can_register(place: Option<Place>, goal: Goal) -> Result<(), Refusal>
    ensures { result ≡ register_check place goal }
{
    if place.is_some() {
        return Err(Refusal::Exists);
    }
    if !goal.is_known() {
        return Err(Refusal::NoStation);
    }
    if !goal.has_room() {
        return Err(Refusal::Full);
    }
    Ok(())
}

/// Checks whether the recorded place of a load can be corrected. Returns, in this order, `NoLoad` if
/// it has none, `NoStation`, `Elsewhere` if it has left, `InJob` if it is in a live job, `SameStation`
/// if it is recorded there already, or `Full`. It takes no memory.
pub fn can_correct(place: Option<Place>, live: bool, goal: Goal) -> Result<(), Refusal>
    ensures { result ≡ correct_check place live goal }
{
    let Some(place) = place else {
        return Err(Refusal::NoLoad);
    };
    if !goal.is_known() {
        return Err(Refusal::NoStation);
    }
    if place.has_left() {
        return Err(Refusal::Elsewhere);
    }
    if live {
        return Err(Refusal::InJob);
    }
    if goal.is_there(&place) {
        return Err(Refusal::SameStation);
    }
    if !goal.has_room() {
        return Err(Refusal::Full);
    }
    Ok(())
}

/// Checks whether a load can leave. Returns, in this order, `NoLoad` if it has no place, `Elsewhere`
/// if it has left, or `InJob` if it is in a live job. It takes no memory.
pub fn can_leave(place: Option<Place>, live: bool) -> Result<(), Refusal>
    ensures { result ≡ leave_check place live }
{
    let Some(place) = place else {
        return Err(Refusal::NoLoad);
    };
    if place.has_left() {
        return Err(Refusal::Elsewhere);
    }
    if live {
        return Err(Refusal::InJob);
    }
    Ok(())
}

/// Checks whether there can be a job for a load. Returns, in this order, `Exists` if the job's name is
/// known, `NoLoad`, `NoStation`, `Elsewhere` if the load is at no station, `InJob` if it is in a live
/// job, `SameStation` if it is at the target, or `Full`. A job goes to a station, so the goal is never
/// the checking place. It takes no memory.
pub fn can_job(known: bool, place: Option<Place>, live: bool, goal: Goal) -> Result<(), Refusal>
    requires { goal ≢ goals.Checking }
    ensures { result ≡ job_check known place live goal }
{
    if known {
        return Err(Refusal::Exists);
    }
    let Some(place) = place else {
        return Err(Refusal::NoLoad);
    };
    if !goal.is_known() {
        return Err(Refusal::NoStation);
    }
    if !place.is_stored() {
        return Err(Refusal::Elsewhere);
    }
    if live {
        return Err(Refusal::InJob);
    }
    if goal.is_there(&place) {
        return Err(Refusal::SameStation);
    }
    if !goal.has_room() {
        return Err(Refusal::Full);
    }
    Ok(())
}

impl Goal {
    /// Returns whether it is the checking place or a station of the layout.
    pub fn is_known(&self) -> bool
        ensures { result ≡ is_known self.now }
    {
        match self {
            Goal::Checking | Goal::At(_, _) => true,
            Goal::Unknown => false,
        }
    }

    /// Returns whether one more load fits there. It is true of an unknown station.
    fn has_room(&self) -> bool
        ensures { result ≡ has_room self.now }
    {
        match self {
            Goal::Checking | Goal::Unknown => true,
            Goal::At(_, room) => *room != 0,
        }
    }

    /// Returns whether the place is this goal.
    fn is_there(&self, place: &Place) -> bool
        ensures { result ≡ is_there self.now place.now }
    {
        match self {
            Goal::Checking => place.is_checking(),
            Goal::Unknown => false,
            Goal::At(station, _) => place.is_at(*station),
        }
    }
}

impl Place {
    /// Returns whether it is the checking place.
    fn is_checking(&self) -> bool
        ensures { result ≡ is_checking self.now }
    {
        match self {
            Place::Checking => true,
            Place::Station(_) | Place::Vehicle(_) | Place::Left => false,
        }
    }

    /// Returns whether the load has left the warehouse.
    pub fn has_left(&self) -> bool
        ensures { result ≡ has_left self.now }
    {
        match self {
            Place::Left => true,
            Place::Station(_) | Place::Vehicle(_) | Place::Checking => false,
        }
    }

    /// Returns whether the load is at a station.
    fn is_stored(&self) -> bool
        ensures { result ≡ is_stored self.now }
    {
        match self {
            Place::Station(_) => true,
            Place::Vehicle(_) | Place::Checking | Place::Left => false,
        }
    }
}
