//! Plans of trips in the warehouse, worked out by hand, and which stops can be carried out. A job is written with its
//! load, its origin and its target, and a stop with its job.

use crate::cases::{check_text, kit, name, number, part, row, shown, word};
use crate::layouts::{WAREHOUSE, layout};
use crate::trips::kind;
use agv_layout::Layout;
use agv_order::{PlanFault, Stop, Trip, stops_fit};
use agv_stock::{Job, Phase};
use std::alloc::Global;
use std::process::Abort;

/// Reads a waiting job.
fn job(rt: &impl Abort, text: &str) -> Job {
    Job {
        name: name(rt, part(rt, text, ':', 0)),
        load: name(rt, part(rt, text, ':', 1)),
        origin: name(rt, part(rt, text, ':', 2)),
        target: name(rt, part(rt, text, ':', 3)),
        phase: Phase::Waiting,
    }
}

/// Reads a list of jobs.
fn jobs(rt: &impl Abort, alloc: Global, text: &str) -> Vec<Job> {
    let mut jobs = Vec::new(alloc);
    for item in text.split_terminator(',') {
        jobs.push(job(rt, item)).expect(rt, "memory");
    }
    jobs
}

/// Reads a stop.
fn stop(rt: &impl Abort, text: &str) -> Stop {
    Stop {
        kind: kind(part(rt, text, ':', 0)),
        job: name(rt, part(rt, text, ':', 1)),
    }
}

/// Reads a list of stops.
fn stops(rt: &impl Abort, alloc: Global, text: &str) -> Vec<Stop> {
    let mut stops = Vec::new(alloc);
    for item in text.split_terminator(',') {
        stops.push(stop(rt, item)).expect(rt, "memory");
    }
    stops
}

/// Plans the order O1 of KIT/0001. The words of the call after its name are the vehicle's node, the number of released
/// edges, the jobs and the stops.
pub(crate) fn plan(
    rt: &impl Abort,
    alloc: Global,
    layout: &Layout,
    call: &str,
) -> Result<Trip, PlanFault> {
    let (order, vehicle) = (name(rt, "O1"), kit(rt, "0001"));
    let at_node = name(rt, word(rt, call, 1));
    let edges = number(rt, word(rt, call, 2));
    let jobs = jobs(rt, alloc, word(rt, call, 3));
    let stops = stops(rt, alloc, word(rt, call, 4));
    Trip::plan(alloc, layout, vehicle, &jobs, &stops, order, at_node, edges)
}

/// The job from A to B; `NoWalk` comes before `Beyond`. From N3 to A and on to C the way passes N2 and N3 twice; C and
/// B are at one node; and two loads have three acts at one node, in the order of the stops. Then a stop of an unknown
/// job, and one at an unknown station.
const PLANS: &str = "\
plan N1 1 J1:L1:A:B pick:J1,drop:J1 => Ok(Trip { order: O1, vehicle: VehicleKey { manufacturer: KIT, serial: 0001 }, start: N1, edges: Sequence { kept: [Edge { id: E12, start: N1, finish: N2 }, Edge { id: E23, start: N2, finish: N3 }] }, first: 0, base: 1, sent: 0, confirmed: None, seen: 0, acts: Sequence { kept: [Act { kind: Pick, job: J1, load: L1, station: A, place_at: 0, status: Waiting }, Act { kind: Drop, job: J1, load: L1, station: B, place_at: 2, status: Waiting }] } })
plan N1 3 J1:L1:A:B pick:J1,drop:J1 => Err(Beyond)
plan N9 2 J1:L1:A:B pick:J1,drop:J1 => Err(NoWalk)
plan N9 9 J1:L1:A:B pick:J1,drop:J1 => Err(NoWalk)
plan N3 4 J1:L1:A:C,J2:L2:C:B pick:J1,drop:J1 => Ok(Trip { order: O1, vehicle: VehicleKey { manufacturer: KIT, serial: 0001 }, start: N3, edges: Sequence { kept: [Edge { id: E32, start: N3, finish: N2 }, Edge { id: E21, start: N2, finish: N1 }, Edge { id: E12, start: N1, finish: N2 }, Edge { id: E23, start: N2, finish: N3 }] }, first: 0, base: 4, sent: 0, confirmed: None, seen: 0, acts: Sequence { kept: [Act { kind: Pick, job: J1, load: L1, station: A, place_at: 2, status: Waiting }, Act { kind: Drop, job: J1, load: L1, station: C, place_at: 4, status: Waiting }] } })
plan N3 5 J1:L1:A:C,J2:L2:C:B pick:J1,drop:J1 => Err(Beyond)
plan N3 0 J1:L1:A:C,J2:L2:C:B pick:J2,drop:J2 => Ok(Trip { order: O1, vehicle: VehicleKey { manufacturer: KIT, serial: 0001 }, start: N3, edges: Sequence { kept: [] }, first: 0, base: 0, sent: 0, confirmed: None, seen: 0, acts: Sequence { kept: [Act { kind: Pick, job: J2, load: L2, station: C, place_at: 0, status: Waiting }, Act { kind: Drop, job: J2, load: L2, station: B, place_at: 0, status: Waiting }] } })
plan N3 1 J1:L1:A:C,J2:L2:C:B pick:J2,drop:J2 => Err(Beyond)
plan N1 2 J1:L1:A:C,J2:L2:C:B pick:J1,pick:J2,drop:J1,drop:J2 => Ok(Trip { order: O1, vehicle: VehicleKey { manufacturer: KIT, serial: 0001 }, start: N1, edges: Sequence { kept: [Edge { id: E12, start: N1, finish: N2 }, Edge { id: E23, start: N2, finish: N3 }] }, first: 0, base: 2, sent: 0, confirmed: None, seen: 0, acts: Sequence { kept: [Act { kind: Pick, job: J1, load: L1, station: A, place_at: 0, status: Waiting }, Act { kind: Pick, job: J2, load: L2, station: C, place_at: 2, status: Waiting }, Act { kind: Drop, job: J1, load: L1, station: C, place_at: 2, status: Waiting }, Act { kind: Drop, job: J2, load: L2, station: B, place_at: 2, status: Waiting }] } })
plan N1 0 J1:L1:A:B pick:J2,drop:J2 => Err(NoWalk)
plan N1 0 J1:L1:A:B pick:J1,pick:J2,drop:J1,drop:J2 => Err(NoWalk)
plan N3 9 J1:L1:A:D,J2:L2:D:B pick:J1,drop:J1 => Err(NoWalk)
plan N1 0 J1:L1:A:D,J2:L2:D:B pick:J2,drop:J2 => Err(NoWalk)
plan N1 0  pick:J1,drop:J1 => Err(NoWalk)
";

#[test]
fn plans(rt: HostRuntime) {
    let layout = layout(&rt, rt.alloc(), WAREHOUSE);
    for line in PLANS.lines() {
        let (call, wanted) = row(&rt, line);
        let found = shown(&rt, rt.alloc(), &plan(&rt, rt.alloc(), &layout, call));
        check_text(&rt, found.as_str(), wanted, call);
    }
}

/// Plans the drive O1 of KIT/0001. The words of the call after its name are the vehicle's node, the number of released
/// edges, and the node where it is to go.
fn drive(rt: &impl Abort, alloc: Global, layout: &Layout, call: &str) -> Result<Trip, PlanFault> {
    let (order, vehicle) = (name(rt, "O1"), kit(rt, "0001"));
    let at_node = name(rt, word(rt, call, 1));
    let edges = number(rt, word(rt, call, 2));
    let to = name(rt, word(rt, call, 3));
    Trip::plan_drive(alloc, layout, vehicle, order, at_node, to, edges)
}

/// A drive has no acts. There is none to the node where the vehicle is, from or to an unknown one, or with more edges
/// released than it has.
const DRIVES: &str = "\
drive N1 1 N3 => Ok(Trip { order: O1, vehicle: VehicleKey { manufacturer: KIT, serial: 0001 }, start: N1, edges: Sequence { kept: [Edge { id: E12, start: N1, finish: N2 }, Edge { id: E23, start: N2, finish: N3 }] }, first: 0, base: 1, sent: 0, confirmed: None, seen: 0, acts: Sequence { kept: [] } })
drive N3 0 N2 => Ok(Trip { order: O1, vehicle: VehicleKey { manufacturer: KIT, serial: 0001 }, start: N3, edges: Sequence { kept: [Edge { id: E32, start: N3, finish: N2 }] }, first: 0, base: 0, sent: 0, confirmed: None, seen: 0, acts: Sequence { kept: [] } })
drive N1 3 N3 => Err(Beyond)
drive N1 0 N1 => Err(NoWalk)
drive N9 0 N1 => Err(NoWalk)
drive N1 9 N9 => Err(NoWalk)
";

#[test]
fn drives(rt: HostRuntime) {
    let layout = layout(&rt, rt.alloc(), WAREHOUSE);
    for line in DRIVES.lines() {
        let (call, wanted) = row(&rt, line);
        let found = shown(&rt, rt.alloc(), &drive(&rt, rt.alloc(), &layout, call));
        check_text(&rt, found.as_str(), wanted, call);
    }
}

const STOPS: &str = "\
pick:J1,drop:J1 => true
 => false
drop:J1,pick:J1 => false
pick:J1 => false
drop:J1 => false
pick:J1,pick:J1,drop:J1 => false
pick:J1,drop:J1,pick:J1,drop:J1 => false
pick:J1,pick:J2,drop:J1,drop:J2 => true
pick:J1,pick:J2,drop:J1 => false
";

#[test]
fn stops_that_fit(rt: HostRuntime) {
    for line in STOPS.lines() {
        let (text, wanted) = row(&rt, line);
        let fit = stops_fit(&stops(&rt, rt.alloc(), text));
        check_text(&rt, shown(&rt, rt.alloc(), &fit).as_str(), wanted, text);
    }
}
