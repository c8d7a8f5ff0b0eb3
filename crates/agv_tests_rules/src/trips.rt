//! Trips, their messages, and what a state says of the trip of its vehicle, on three nodes N1, N2 and N3 in a row. The
//! expected values are written after the formats and the public standard, or worked out by hand.
//!
//! A trip is written in five words: its order; its start; its edges, each with its start and its finish; the place of
//! the first node of its last message, that of the last node of its base, the number of its last update, the confirmed
//! update and the place that was seen; and its acts, each with its job, load, station, place and status.

use crate::cases::{check_text, kit, name, number, number_or_none, part, parts, row, shown, word};
use crate::layouts::{WAREHOUSE, layout};
use crate::messages::{header, state_of};
use agv_header::{Refusal, Thing};
use agv_layout::Edge;
use agv_message::{ActKind, InstantKind, OrderMessage, Sequence, StateMessage, Status, order_text};
use agv_order::{Act, Trip};
use agv_track::{Pending, Standing, footprint, judge, judge_idle};
use std::alloc::Global;
use std::process::Abort;
use std::str;

/// Reads the kind of an act.
pub(crate) fn kind(text: &str) -> ActKind {
    if text == "pick" {
        ActKind::Pick
    } else {
        ActKind::Drop
    }
}

/// Reads an act.
fn act(rt: &impl Abort, text: &str) -> Act {
    Act {
        kind: kind(part(rt, text, ':', 0)),
        job: name(rt, part(rt, text, ':', 1)),
        load: name(rt, part(rt, text, ':', 2)),
        station: name(rt, part(rt, text, ':', 3)),
        place_at: number(rt, part(rt, text, ':', 4)),
        status: Status::of(part(rt, text, ':', 5)).expect(rt, text),
    }
}

/// Reads a list of acts.
fn acts(rt: &impl Abort, alloc: Global, text: &str) -> Sequence<Act> {
    let mut acts = Vec::new(alloc);
    for item in text.split_terminator(',') {
        acts.push(act(rt, item)).expect(rt, "memory");
    }
    acts.into()
}

/// Reads an edge.
fn edge(rt: &impl Abort, text: &str) -> Edge {
    Edge {
        id: name(rt, part(rt, text, ':', 0)),
        start: name(rt, part(rt, text, ':', 1)),
        finish: name(rt, part(rt, text, ':', 2)),
    }
}

/// Reads a list of edges.
fn edges(rt: &impl Abort, alloc: Global, text: &str) -> Sequence<Edge> {
    let mut edges = Vec::new(alloc);
    for item in text.split_terminator(',') {
        edges.push(edge(rt, item)).expect(rt, "memory");
    }
    edges.into()
}

/// Reads a trip of KIT/0001.
pub(crate) fn trip(rt: &impl Abort, alloc: Global, text: &str) -> Trip {
    let numbers = word(rt, text, 3);
    Trip {
        order: name(rt, word(rt, text, 0)),
        vehicle: kit(rt, "0001"),
        start: name(rt, word(rt, text, 1)),
        edges: edges(rt, alloc, word(rt, text, 2)),
        first: number(rt, part(rt, numbers, ':', 0)),
        base: number(rt, part(rt, numbers, ':', 1)),
        sent: number(rt, part(rt, numbers, ':', 2)),
        confirmed: number_or_none(rt, part(rt, numbers, ':', 3)),
        seen: number(rt, part(rt, numbers, ':', 4)),
        acts: acts(rt, alloc, word(rt, text, 4)),
    }
}

/// Returns the message of a trip that is not too long.
pub(crate) fn message(rt: &impl Abort, alloc: Global, trip: &Trip) -> OrderMessage {
    assert!(rt; trip.edges.len() <= 200, "edges");
    assert!(rt; trip.acts.len() <= 8, "acts");
    trip.message(alloc).expect(rt, "memory")
}

/// Returns the text of a trip's message.
fn text(rt: &impl Abort, alloc: Global, trip: &Trip) -> String {
    let order = message(rt, alloc, trip);
    let bytes = order_text(alloc, &header(rt, 1), &order).expect(rt, "memory");
    let text = str::from_utf8(&bytes).expect(rt, "text");
    String::from_str(alloc, text).expect(rt, "memory")
}

/// Releases more of a trip, within the bounds that a caller has to keep.
fn release(rt: &impl Abort, trip: &mut Trip, n: u32) -> Result<(), Refusal> {
    assert!(rt; trip.sent <= trip.base, "an update for each edge at most");
    assert!(rt; trip.edges.len() <= 200, "200 edges at most");
    trip.release(n)
}

/// Releases more of a copy of the trip, and prints the result and the trip's numbers afterwards.
fn released(rt: &impl Abort, alloc: Global, trip: &Trip, n: u32) -> String {
    let mut trip = trip.copy().expect(rt, "memory");
    let found = release(rt, &mut trip, n);
    shown(rt, alloc, &(found, trip.first, trip.base, trip.sent))
}

/// Returns what a vehicle with this trip holds.
pub(crate) fn held(rt: &impl Abort, alloc: Global, trip: &Trip) -> Vec<Thing> {
    let node = trip.start;
    let trip = Some(trip.copy().expect(rt, "memory"));
    let rest = None;
    let standing = Standing { node, rest, trip };
    footprint(alloc, &standing).expect(rt, "memory")
}

/// Reads the pending action, its kind and its number; `None` for `-`.
fn pending(rt: &impl Abort, text: &str) -> Option<Pending> {
    if text == "-" {
        return None;
    }
    let kind = if part(rt, text, ':', 0) == "cancelOrder" {
        InstantKind::CancelOrder
    } else {
        InstantKind::StartPause
    };
    let number = number(rt, part(rt, text, ':', 1));
    Some(Pending { kind, number })
}

/// Returns the actions of a state, as JSON; each is written as its ID, `=` and its status.
fn actions(rt: &impl Abort, alloc: Global, text: &str) -> String {
    if text == "-" {
        return String::new(alloc);
    }
    let items = text
        .replace(alloc, ',', r#""},{"actionId":""#)
        .expect(rt, "memory");
    let items = items
        .replace(alloc, '=', r#"","actionStatus":""#)
        .expect(rt, "memory");
    format!(in alloc; r#"{{"actionId":"{items}"}}"#).expect(rt, "memory")
}

/// Reads a state: its update, its last node and the number of that, and its actions, from the third word of a call on.
fn state(rt: &impl Abort, alloc: Global, call: &str) -> StateMessage {
    let update = word(rt, call, 2);
    let node = word(rt, call, 3);
    let seq = word(rt, call, 4);
    let actions = actions(rt, alloc, word(rt, call, 5));
    let text = format!(in alloc;
        r#"{{"headerId":2,"timestamp":"2023-11-14T22:13:19.50Z","version":"2.0.0","manufacturer":"KIT","serialNumber":"0001","orderId":"O1","orderUpdateId":{update},"lastNodeId":"{node}","lastNodeSequenceId":{seq},"nodeStates":[],"actionStates":[{actions}],"operatingMode":"AUTOMATIC","errors":[],"safetyState":{{"eStop":"NONE"}}}}"#
    );
    state_of(alloc, text.expect(rt, "memory").as_str()).expect(rt, call)
}

/// Prints what a state says of the trip.
fn judged(rt: &impl Abort, alloc: Global, trip: &Trip, call: &str) -> String {
    let pending = pending(rt, word(rt, call, 1));
    let state = state(rt, alloc, call);
    assert!(rt; trip.acts.len() <= 8, "at most four jobs");
    shown(rt, alloc, &judge(trip, pending, &state))
}

/// Prints whether a trip is well formed in the warehouse.
fn formed(rt: &impl Abort, alloc: Global, trip: &Trip) -> String {
    let layout = layout(rt, alloc, WAREHOUSE);
    shown(rt, alloc, &trip.is_well_formed(&layout))
}

/// Returns the answer of a call for the trip.
fn answer(rt: &impl Abort, alloc: Global, call: &str, trip: &Trip) -> String {
    match word(rt, call, 0) {
        "copy" => shown(rt, alloc, &trip.copy().expect(rt, "memory")),
        "node" => shown(rt, alloc, &trip.node_at(number(rt, word(rt, call, 1)))),
        "message" => shown(rt, alloc, &message(rt, alloc, trip)),
        "text" => text(rt, alloc, trip),
        "release" => released(rt, alloc, trip, number(rt, word(rt, call, 1))),
        "judge" => judged(rt, alloc, trip, call),
        "holds" => shown(rt, alloc, &held(rt, alloc, trip)),
        _ => formed(rt, alloc, trip),
    }
}

/// Checks the answer of one line.
fn check_line(rt: &impl Abort, alloc: Global, line: &str) {
    let (question, wanted) = row(rt, line);
    let (call, text) = parts(rt, question, " | ");
    let trip = trip(rt, alloc, text);
    check_text(
        rt,
        answer(rt, alloc, call, &trip).as_str(),
        wanted,
        question,
    );
}

/// Checks the answer of each line of a table.
fn check_rows(rt: &impl Abort, alloc: Global, table: &str) {
    for line in table.lines() {
        check_line(rt, alloc, line);
    }
}

/// The load L1 from A to B: the order, then the update that releases its second edge. Then both acts at one node; and
/// two loads, with three acts at one node, in the order of the stops.
const MESSAGES: &str =
    r#"copy | O1 N1 E12:N1:N2,E23:N2:N3 0:1:0:-:0 pick:J1:L1:A:0:WAITING,drop:J1:L1:B:2:WAITING => Trip { order: O1, vehicle: VehicleKey { manufacturer: KIT, serial: 0001 }, start: N1, edges: Sequence { kept: [Edge { id: E12, start: N1, finish: N2 }, Edge { id: E23, start: N2, finish: N3 }] }, first: 0, base: 1, sent: 0, confirmed: None, seen: 0, acts: Sequence { kept: [Act { kind: Pick, job: J1, load: L1, station: A, place_at: 0, status: Waiting }, Act { kind: Drop, job: J1, load: L1, station: B, place_at: 2, status: Waiting }] } }
node 0 | O1 N1 E12:N1:N2,E23:N2:N3 0:1:0:-:0  => Some(N1)
node 2 | O1 N1 E12:N1:N2,E23:N2:N3 0:1:0:-:0  => Some(N3)
node 3 | O1 N1 E12:N1:N2,E23:N2:N3 0:1:0:-:0  => None
node 4294967295 | O1 N1 E12:N1:N2,E23:N2:N3 0:1:0:-:0  => None
text | O1 N1 E12:N1:N2,E23:N2:N3 0:1:0:-:0 pick:J1:L1:A:0:WAITING,drop:J1:L1:B:2:WAITING => {"edges":[{"actions":[],"edgeId":"E12","endNodeId":"N2","released":true,"sequenceId":1,"startNodeId":"N1"},{"actions":[],"edgeId":"E23","endNodeId":"N3","released":false,"sequenceId":3,"startNodeId":"N2"}],"headerId":1,"manufacturer":"KIT","nodes":[{"actions":[{"actionId":"O1.0","actionParameters":[{"key":"stationType","value":"station"},{"key":"stationName","value":"A"},{"key":"loadType","value":"load"},{"key":"loadId","value":"L1"}],"actionType":"pick","blockingType":"HARD"}],"nodeId":"N1","released":true,"sequenceId":0},{"actions":[],"nodeId":"N2","released":true,"sequenceId":2},{"actions":[{"actionId":"O1.1","actionParameters":[{"key":"stationType","value":"station"},{"key":"stationName","value":"B"},{"key":"loadType","value":"load"},{"key":"loadId","value":"L1"}],"actionType":"drop","blockingType":"HARD"}],"nodeId":"N3","released":false,"sequenceId":4}],"orderId":"O1","orderUpdateId":0,"serialNumber":"0001","timestamp":"2023-11-14T22:13:20.00Z","version":"2.0.0"}
message | O1 N1 E12:N1:N2,E23:N2:N3 1:2:1:-:0 pick:J1:L1:A:0:WAITING,drop:J1:L1:B:2:WAITING => OrderMessage { order: O1, update: 1, nodes: Sequence { kept: [OrderNode { id: N2, seq: 2, released: true, acts: Sequence { kept: [] } }, OrderNode { id: N3, seq: 4, released: true, acts: Sequence { kept: [OrderAct { n: 1, kind: Drop, station: B, load: L1 }] } }] }, edges: Sequence { kept: [OrderEdge { id: E23, start: N2, finish: N3, seq: 3, released: true }] } }
text | O-4.x:y_z N3  0:0:0:-:0 pick:J4:L1:C:0:WAITING,drop:J4:L1:B:0:WAITING => {"edges":[],"headerId":1,"manufacturer":"KIT","nodes":[{"actions":[{"actionId":"O-4.x:y_z.0","actionParameters":[{"key":"stationType","value":"station"},{"key":"stationName","value":"C"},{"key":"loadType","value":"load"},{"key":"loadId","value":"L1"}],"actionType":"pick","blockingType":"HARD"},{"actionId":"O-4.x:y_z.1","actionParameters":[{"key":"stationType","value":"station"},{"key":"stationName","value":"B"},{"key":"loadType","value":"load"},{"key":"loadId","value":"L1"}],"actionType":"drop","blockingType":"HARD"}],"nodeId":"N3","released":true,"sequenceId":0}],"orderId":"O-4.x:y_z","orderUpdateId":0,"serialNumber":"0001","timestamp":"2023-11-14T22:13:20.00Z","version":"2.0.0"}
message | O5 N1 E12:N1:N2,E23:N2:N3 0:2:0:-:0 pick:J1:L1:A:0:WAITING,pick:J2:L2:C:2:WAITING,drop:J1:L1:C:2:WAITING,drop:J2:L2:B:2:WAITING => OrderMessage { order: O5, update: 0, nodes: Sequence { kept: [OrderNode { id: N1, seq: 0, released: true, acts: Sequence { kept: [OrderAct { n: 0, kind: Pick, station: A, load: L1 }] } }, OrderNode { id: N2, seq: 2, released: true, acts: Sequence { kept: [] } }, OrderNode { id: N3, seq: 4, released: true, acts: Sequence { kept: [OrderAct { n: 1, kind: Pick, station: C, load: L2 }, OrderAct { n: 2, kind: Drop, station: C, load: L1 }, OrderAct { n: 3, kind: Drop, station: B, load: L2 }] } }] }, edges: Sequence { kept: [OrderEdge { id: E12, start: N1, finish: N2, seq: 1, released: true }, OrderEdge { id: E23, start: N2, finish: N3, seq: 3, released: true }] } }
release 0 | O1 N1 E12:N1:N2,E23:N2:N3 0:1:0:-:0  => (Err(Beyond), 0, 1, 0)
release 2 | O1 N1 E12:N1:N2,E23:N2:N3 0:1:0:-:0  => (Err(Beyond), 0, 1, 0)
release 4294967295 | O1 N1 E12:N1:N2,E23:N2:N3 0:1:0:-:0  => (Err(Beyond), 0, 1, 0)
release 1 | O1 N1 E12:N1:N2,E23:N2:N3 0:1:0:-:0  => (Ok(()), 1, 2, 1)
release 1 | O1 N1 E12:N1:N2,E23:N2:N3 1:2:1:-:0  => (Err(Beyond), 1, 2, 1)
"#;

#[test]
fn messages(rt: HostRuntime) {
    check_rows(&rt, rt.alloc(), MESSAGES);
}

/// The pending action, and the update, the node, its number and the actions of a state. Each refusal once; then a whole
/// way by one state, a failed pick and the IDs of others, cancels on the way and at its end, and two loads.
const STATES: &str = "\
judge - 2 N1 0 - | O1 N1 E12:N1:N2,E23:N2:N3 1:2:1:0:0 pick:J1:L1:A:0:WAITING,drop:J1:L1:B:2:WAITING => Err(UpdateNotSent)
judge - 0 N2 2 - | O1 N1 E12:N1:N2,E23:N2:N3 1:2:1:1:1 pick:J1:L1:A:0:WAITING,drop:J1:L1:B:2:WAITING => Err(UpdateBackwards)
judge - 1 N2 3 - | O1 N1 E12:N1:N2,E23:N2:N3 1:2:1:0:0 pick:J1:L1:A:0:WAITING,drop:J1:L1:B:2:WAITING => Err(NotOurNode)
judge - 1 N1 0 - | O1 N1 E12:N1:N2,E23:N2:N3 1:2:1:1:1 pick:J1:L1:A:0:WAITING,drop:J1:L1:B:2:WAITING => Err(Backwards)
judge - 0 N3 4 - | O1 N1 E12:N1:N2,E23:N2:N3 1:2:1:0:0 pick:J1:L1:A:0:WAITING,drop:J1:L1:B:2:WAITING => Err(BeyondBase)
judge - 1 N1 0 O1.0=RUNNING,O1.0=RUNNING | O1 N1 E12:N1:N2,E23:N2:N3 1:2:1:0:0 pick:J1:L1:A:0:WAITING,drop:J1:L1:B:2:WAITING => Err(ActionTwice)
judge - 0 N1 0 O1.0=RUNNING | O1 N1 E12:N1:N2,E23:N2:N3 0:2:0:0:0 pick:J1:L1:A:0:FAILED,drop:J1:L1:B:2:WAITING => Err(ActionBackwards)
judge - 1 N2 2 O1.1=FINISHED | O1 N1 E12:N1:N2,E23:N2:N3 1:2:1:0:0 pick:J1:L1:A:0:WAITING,drop:J1:L1:B:2:WAITING => Err(ActionEarly)
judge - 0 N3 4 O1.0=FAILED,O1.1=FINISHED | O1 N1 E12:N1:N2,E23:N2:N3 0:2:0:0:0 pick:J1:L1:A:0:FAILED,drop:J1:L1:B:2:WAITING => Err(DropFirst)
judge cancelOrder:1 0 N1 0 O1.0=RUNNING,instant-1=FINISHED | O1 N1 E12:N1:N2,E23:N2:N3 0:1:0:-:0 pick:J1:L1:A:0:WAITING,drop:J1:L1:B:2:WAITING => Err(CancelEarly)
judge - 0 N3 4 O1.0=FINISHED,O1.1=FINISHED | O1 N1 E12:N1:N2,E23:N2:N3 0:2:0:-:0 pick:J1:L1:A:0:WAITING,drop:J1:L1:B:2:WAITING => Ok(Progress { seen: 2, confirmed: 0, statuses: [Finished, Finished, Waiting, Waiting, Waiting, Waiting, Waiting, Waiting], pending_over: false, end: Some(Done), rest: None })
judge - 0 N1 0 O1.0=FAILED,O1.01=RUNNING,O1.01=RUNNING | O1 N1 E12:N1:N2,E23:N2:N3 0:2:0:-:0 pick:J1:L1:A:0:WAITING,drop:J1:L1:B:2:WAITING => Ok(Progress { seen: 0, confirmed: 0, statuses: [Failed, Waiting, Waiting, Waiting, Waiting, Waiting, Waiting, Waiting], pending_over: false, end: None, rest: None })
judge cancelOrder:1 0 N1 0 O1.0=FINISHED,instant-1=FINISHED | O1 N1 E12:N1:N2,E23:N2:N3 0:1:0:-:0 pick:J1:L1:A:0:WAITING,drop:J1:L1:B:2:WAITING => Ok(Progress { seen: 0, confirmed: 0, statuses: [Finished, Waiting, Waiting, Waiting, Waiting, Waiting, Waiting, Waiting], pending_over: true, end: Some(Stopped), rest: Some((E12, N2)) })
judge cancelOrder:1 0 N2 2 instant-1=FINISHED | O1 N1 E12:N1:N2,E23:N2:N3 0:1:0:-:0 pick:J1:L1:A:0:WAITING,drop:J1:L1:B:2:WAITING => Ok(Progress { seen: 1, confirmed: 0, statuses: [Waiting, Waiting, Waiting, Waiting, Waiting, Waiting, Waiting, Waiting], pending_over: true, end: Some(Stopped), rest: None })
judge - 0 N3 4 O5.0=FINISHED,O5.1=FINISHED,O5.2=FINISHED,O5.3=RUNNING | O5 N1 E12:N1:N2,E23:N2:N3 0:2:0:-:0 pick:J1:L1:A:0:WAITING,pick:J2:L2:C:2:WAITING,drop:J1:L1:C:2:WAITING,drop:J2:L2:B:2:WAITING => Ok(Progress { seen: 2, confirmed: 0, statuses: [Finished, Finished, Finished, Running, Waiting, Waiting, Waiting, Waiting], pending_over: false, end: None, rest: None })
judge - 0 N3 4 O5.3=FAILED | O5 N1 E12:N1:N2,E23:N2:N3 0:2:0:0:2 pick:J1:L1:A:0:FINISHED,pick:J2:L2:C:2:FINISHED,drop:J1:L1:C:2:FINISHED,drop:J2:L2:B:2:RUNNING => Ok(Progress { seen: 2, confirmed: 0, statuses: [Finished, Finished, Finished, Failed, Waiting, Waiting, Waiting, Waiting], pending_over: false, end: Some(Stopped), rest: None })
holds | O1 N1 E12:N1:N2,E23:N2:N3 0:1:0:-:0  => [Node(N1), Edge(E12), Node(N2)]
holds | O3 N3 E32:N3:N2,E21:N2:N1,E12:N1:N2,E23:N2:N3 0:4:0:-:0  => [Node(N3), Edge(E32), Node(N2), Edge(E21), Node(N1), Edge(E12), Edge(E23)]
holds | O3 N3 E32:N3:N2,E21:N2:N1,E12:N1:N2,E23:N2:N3 0:4:0:-:2  => [Node(N1), Edge(E12), Node(N2), Edge(E23), Node(N3)]
holds | O3 N3 E32:N3:N2,E21:N2:N1,E12:N1:N2,E23:N2:N3 0:4:0:-:4  => [Node(N3)]
";

#[test]
fn states_and_footprints(rt: HostRuntime) {
    check_rows(&rt, rt.alloc(), STATES);
}

/// Trips of the warehouse, the first ones well formed: where they stand, their acts, and their ways.
const FORMS: &str = "\
formed | O1 N1 E12:N1:N2,E23:N2:N3 0:1:0:-:0 pick:J1:L1:A:0:WAITING,drop:J1:L1:B:2:WAITING => true
formed | O1 N1 E12:N1:N2,E23:N2:N3 0:1:0:0:1 pick:J1:L1:A:0:FINISHED,drop:J1:L1:B:2:WAITING => true
formed | O1 N1 E12:N1:N2,E23:N2:N3 1:2:1:0:1 pick:J1:L1:A:0:FINISHED,drop:J1:L1:B:2:WAITING => true
formed | O1 N1 E12:N1:N2,E23:N2:N3 1:2:1:1:2 pick:J1:L1:A:0:FINISHED,drop:J1:L1:B:2:WAITING => true
a base past the end | O1 N1 E12:N1:N2,E23:N2:N3 0:3:0:-:0 pick:J1:L1:A:0:WAITING,drop:J1:L1:B:2:WAITING => false
seen past the base | O1 N1 E12:N1:N2,E23:N2:N3 0:1:0:0:2 pick:J1:L1:A:0:FINISHED,drop:J1:L1:B:2:WAITING => false
too many updates | O1 N1 E12:N1:N2,E23:N2:N3 0:1:2:2:0 pick:J1:L1:A:0:WAITING,drop:J1:L1:B:2:WAITING => false
an order from later on | O1 N1 E12:N1:N2,E23:N2:N3 1:1:0:0:1 pick:J1:L1:A:0:FINISHED,drop:J1:L1:B:2:WAITING => false
an update with no edge | O1 N1 E12:N1:N2,E23:N2:N3 1:1:1:1:1 pick:J1:L1:A:0:FINISHED,drop:J1:L1:B:2:WAITING => false
an update past the base | O1 N1 E12:N1:N2,E23:N2:N3 2:1:1:1:1 pick:J1:L1:A:0:FINISHED,drop:J1:L1:B:2:WAITING => false
an update unconfirmed | O1 N1 E12:N1:N2,E23:N2:N3 0:1:1:-:0 pick:J1:L1:A:0:WAITING,drop:J1:L1:B:2:WAITING => false
seen, not confirmed | O1 N1 E12:N1:N2,E23:N2:N3 0:1:0:-:1 pick:J1:L1:A:0:WAITING,drop:J1:L1:B:2:WAITING => false
picked, not confirmed | O1 N1 E12:N1:N2,E23:N2:N3 0:1:0:-:0 pick:J1:L1:A:0:FINISHED,drop:J1:L1:B:2:WAITING => false
confirmed, not sent | O1 N1 E12:N1:N2,E23:N2:N3 0:1:0:1:0 pick:J1:L1:A:0:WAITING,drop:J1:L1:B:2:WAITING => false
the last number is confirmed | O1 N1 E12:N1:N2,E23:N2:N3 0:1:0:4294967295:0 pick:J1:L1:A:0:WAITING,drop:J1:L1:B:2:WAITING => false
an old update | O1 N1 E12:N1:N2,E23:N2:N3 1:2:2:0:1 pick:J1:L1:A:0:FINISHED,drop:J1:L1:B:2:WAITING => false
seen before it is confirmed | O1 N1 E12:N1:N2,E23:N2:N3 0:2:1:0:1 pick:J1:L1:A:0:FINISHED,drop:J1:L1:B:2:WAITING => false
dropped before its node | O1 N1 E12:N1:N2,E23:N2:N3 0:2:0:0:1 pick:J1:L1:A:0:FINISHED,drop:J1:L1:B:2:FINISHED => false
dropped before it is picked | O1 N1 E12:N1:N2,E23:N2:N3 0:2:0:0:2 pick:J1:L1:A:0:RUNNING,drop:J1:L1:B:2:FINISHED => false
it has ended | O1 N1 E12:N1:N2,E23:N2:N3 0:2:0:0:2 pick:J1:L1:A:0:FINISHED,drop:J1:L1:B:2:FAILED => false
formed | O1 N3  0:0:0:-:0 pick:J1:L1:C:0:WAITING,drop:J1:L1:B:0:WAITING => true
the first edge begins elsewhere | O1 N3 E12:N1:N2,E23:N2:N3 0:2:0:-:0 pick:J1:L1:C:0:WAITING,drop:J1:L1:B:2:WAITING => false
an edge does not begin where the one before it ends | O1 N1 E12:N1:N2,E12:N1:N2,E23:N2:N3 0:3:0:-:0 pick:J1:L1:A:0:WAITING,drop:J1:L1:B:3:WAITING => false
an edge leads elsewhere on the layout | O1 N1 E12:N1:N3 0:1:0:-:0 pick:J1:L1:A:0:WAITING,drop:J1:L1:B:1:WAITING => false
an edge is unknown | O1 N1 E13:N1:N3 0:1:0:-:0 pick:J1:L1:A:0:WAITING,drop:J1:L1:B:1:WAITING => false
the start is unknown | O1 N9  0:0:0:-:0 pick:J1:L1:C:0:WAITING,drop:J1:L1:B:0:WAITING => false
no act | O1 N3  0:0:0:-:0  => false
a drop before its pick | O1 N3  0:0:0:-:0 drop:J1:L1:B:0:WAITING,pick:J1:L1:C:0:WAITING => false
an act at a node before that of the last | O1 N1 E12:N1:N2,E23:N2:N3 0:2:0:-:0 pick:J1:L1:C:2:WAITING,pick:J2:L2:A:0:WAITING,drop:J2:L2:C:2:WAITING,drop:J1:L1:B:2:WAITING => false
the last act is not at the end | O1 N1 E12:N1:N2,E21:N2:N1 0:2:0:-:0 pick:J1:L1:A:0:WAITING,drop:J1:L1:A:0:WAITING => false
a station is at another node | O1 N1 E12:N1:N2,E23:N2:N3 0:2:0:-:0 pick:J1:L1:C:0:WAITING,drop:J1:L1:B:2:WAITING => false
a station is unknown | O1 N1 E12:N1:N2,E23:N2:N3 0:2:0:-:0 pick:J1:L1:D:0:WAITING,drop:J1:L1:B:2:WAITING => false
a job is not dropped, and another not picked | O1 N1 E12:N1:N2,E23:N2:N3 0:2:0:-:0 pick:J1:L1:A:0:WAITING,drop:J2:L2:B:2:WAITING => false
formed | O1 N3  0:0:0:-:0 pick:J1:L1:C:0:WAITING,drop:J1:L1:C:0:WAITING,pick:J2:L1:C:0:WAITING,drop:J2:L1:C:0:WAITING,pick:J3:L1:C:0:WAITING,drop:J3:L1:C:0:WAITING,pick:J4:L1:C:0:WAITING,drop:J4:L1:C:0:WAITING => true
five jobs | O1 N3  0:0:0:-:0 pick:J1:L1:C:0:WAITING,drop:J1:L1:C:0:WAITING,pick:J2:L1:C:0:WAITING,drop:J2:L1:C:0:WAITING,pick:J3:L1:C:0:WAITING,drop:J3:L1:C:0:WAITING,pick:J4:L1:C:0:WAITING,drop:J4:L1:C:0:WAITING,pick:J5:L1:C:0:WAITING,drop:J5:L1:C:0:WAITING => false
";

#[test]
fn well_formed_trips(rt: HostRuntime) {
    check_rows(&rt, rt.alloc(), FORMS);
}

/// States of a vehicle without a trip at N3, with the words after the first one as above.
const IDLE: &str = "\
idle - 0 N3 4 O1.0=FINISHED,O1.1=FINISHED => Ok(false)
idle - 0  0 - => Ok(false)
idle - 0 N2 2 - => Err(NotThere)
idle startPause:12 0 N3 4 instant-12=FAILED => Ok(true)
idle startPause:12 0 N3 4 instant-2=FINISHED,instant-012=FINISHED => Ok(false)
idle startPause:12 0 N2 4 instant-12=RUNNING,instant-12=RUNNING => Err(ActionTwice)
";

/// Prints what a state says of a vehicle without a trip at N3.
fn judged_idle(rt: &impl Abort, alloc: Global, call: &str) -> String {
    let pending = pending(rt, word(rt, call, 1));
    let state = state(rt, alloc, call);
    shown(rt, alloc, &judge_idle(name(rt, "N3"), pending, &state))
}

/// A vehicle that was stopped between two nodes holds its rest.
#[test]
fn without_a_trip(rt: HostRuntime) {
    for line in IDLE.lines() {
        let (call, wanted) = row(&rt, line);
        check_text(
            &rt,
            judged_idle(&rt, rt.alloc(), call).as_str(),
            wanted,
            call,
        );
    }
    let standing = Standing {
        node: name(&rt, "N1"),
        rest: Some((name(&rt, "E12"), name(&rt, "N2"))),
        trip: None,
    };
    let things = footprint(rt.alloc(), &standing).expect(&rt, "memory");
    let found = shown(&rt, rt.alloc(), &things);
    check_text(
        &rt,
        found.as_str(),
        "[Node(N1), Edge(E12), Node(N2)]",
        "a rest",
    );
}
