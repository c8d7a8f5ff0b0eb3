//! The room of stations, and what can be done with a load. The stations are A, with room for one load, and C, with room
//! for two; the answers are worked out by hand.

use crate::cases::{check_text, kit, name, number, row, shown, word};
use agv_header::Refusal;
use agv_layout::Station;
use agv_stock::Phase::{Done, Riding, Waiting};
use agv_stock::{Goal, Job, Phase, Place, can_correct, can_job, can_leave, can_register, room};
use std::alloc::Global;
use std::process::Abort;

/// Returns where a load is: nowhere, at a station, or elsewhere.
fn place(rt: &impl Abort, text: &str) -> Option<Place> {
    match text {
        "none" => None,
        "checking" => Some(Place::Checking),
        "left" => Some(Place::Left),
        "vehicle" => Some(Place::Vehicle(kit(rt, "0001"))),
        station => Some(Place::Station(name(rt, station))),
    }
}

/// Returns where a load is to go: the checking place, an unknown place, or a station with this much room.
fn goal(rt: &impl Abort, text: &str, room: &str) -> Goal {
    match text {
        "checking" => Goal::Checking,
        "unknown" => Goal::Unknown,
        station => Goal::At(name(rt, station), number(rt, room)),
    }
}

/// Checks a job. It goes to a station, so the checking place is never asked about.
fn job(known: bool, place: Option<Place>, live: bool, goal: Goal) -> Result<(), Refusal> {
    match goal {
        Goal::Checking => Ok(()),
        Goal::Unknown => can_job(known, place, live, Goal::Unknown),
        Goal::At(station, room) => can_job(known, place, live, Goal::At(station, room)),
    }
}

/// Makes a call: its name, where the load is, whether it has a live job, and where it is to go.
fn answer(rt: &impl Abort, call: &str) -> Result<(), Refusal> {
    let place = place(rt, word(rt, call, 1));
    let live = word(rt, call, 2) == "live";
    let goal = goal(rt, word(rt, call, 3), word(rt, call, 4));
    match word(rt, call, 0) {
        "register" => can_register(place, goal),
        "correct" => can_correct(place, live, goal),
        "leave" => can_leave(place, live),
        "known" => job(true, place, live, goal),
        _ => job(false, place, live, goal),
    }
}

const TABLE: &str = "\
register none free A 1 => Ok(())
register none free checking - => Ok(())
register none free A 0 => Err(Full)
register none free unknown - => Err(NoStation)
register A free unknown - => Err(Exists)
correct A free checking - => Ok(())
correct vehicle free A 1 => Ok(())
correct none live C 0 => Err(NoLoad)
correct none live unknown - => Err(NoLoad)
correct A live unknown - => Err(NoStation)
correct left live C 0 => Err(Elsewhere)
correct A live A 0 => Err(InJob)
correct A free A 1 => Err(SameStation)
correct checking free checking - => Err(SameStation)
correct A free C 0 => Err(Full)
leave A free - 0 => Ok(())
leave A live - 0 => Err(InJob)
leave left live - 0 => Err(Elsewhere)
leave none free - 0 => Err(NoLoad)
job A free C 1 => Ok(())
known none live unknown - => Err(Exists)
job none live unknown - => Err(NoLoad)
job left live unknown - => Err(NoStation)
job left live C 0 => Err(Elsewhere)
job checking free C 1 => Err(Elsewhere)
job A live A 0 => Err(InJob)
job A free A 0 => Err(SameStation)
job A free C 0 => Err(Full)
";

#[test]
fn checks(rt: HostRuntime) {
    for line in TABLE.lines() {
        let (call, wanted) = row(&rt, line);
        let found = shown(&rt, rt.alloc(), &answer(&rt, call));
        check_text(&rt, found.as_str(), wanted, call);
    }
}

/// Returns a station at N1 with this capacity.
fn station(rt: &impl Abort, id: &str, capacity: u32) -> Station {
    Station {
        id: name(rt, id),
        node: name(rt, "N1"),
        capacity,
    }
}

/// Returns a job to this station, in this phase.
fn job_to(rt: &impl Abort, target: &str, phase: Phase) -> Job {
    Job {
        name: name(rt, "J1"),
        load: name(rt, "L1"),
        origin: name(rt, "A"),
        target: name(rt, target),
        phase,
    }
}

/// A has the load L1, and C a job that goes there; a job that is over takes no room.
#[test]
fn rooms(rt: HostRuntime) {
    let (a, c) = (station(&rt, "A", 1), station(&rt, "C", 2));
    let places = [(name(&rt, "L1"), Place::Station(a.id))];
    let jobs = [
        job_to(&rt, "C", Waiting),
        job_to(&rt, "C", Done),
        job_to(&rt, "A", Riding),
    ];
    let rooms = (
        room(&a, &places, &[]),
        room(&c, &places, &[]),
        room(&c, &places, &jobs),
        room(&a, &places, &jobs),
    );
    check_text(
        &rt,
        shown(&rt, rt.alloc(), &rooms).as_str(),
        "(0, 2, 1, 0)",
        "rooms",
    );
}
