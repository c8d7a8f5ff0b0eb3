//! What a vehicle does with the messages of trips, and how a status follows another.

use crate::cases::{check_text, row, shown, word};
use crate::trips::{message, trip};
use agv_message::{OrderMessage, Status};
use agv_order::{is_final, is_finished, join, merge};
use std::alloc::Global;
use std::process::Abort;

/// Returns the message of a trip from N1 over N2 to N3 that carries L1 from A to B, with this order at this stage.
fn sent(rt: &impl Abort, alloc: Global, order: &str, standing: &str) -> OrderMessage {
    let text = format!(in alloc;
        "{order} N1 E12:N1:N2,E23:N2:N3 {standing}:-:0 pick:J1:L1:A:0:WAITING,drop:J1:L1:B:2:WAITING"
    );
    message(
        rt,
        alloc,
        &trip(rt, alloc, text.expect(rt, "memory").as_str()),
    )
}

/// Returns what a vehicle does with a message. The call has the stage of the trip whose message the vehicle holds, or
/// `none`; the order of the message; and the stage of its trip.
fn answer(rt: &impl Abort, alloc: Global, call: &str) -> String {
    let message = sent(rt, alloc, word(rt, call, 1), word(rt, call, 2));
    let standing = word(rt, call, 0);
    if standing == "none" {
        return shown(rt, alloc, &join(alloc, None, &message));
    }
    let held = sent(rt, alloc, "O1", standing);
    shown(rt, alloc, &join(alloc, Some(&held), &message))
}

/// The update of O1 releases its second edge, and is joined to the first message; another message begins after the last
/// node of the base before it.
const JOINS: &str = "\
none O1 0:1:0 => Ok(Taken(OrderMessage { order: O1, update: 0, nodes: Sequence { kept: [OrderNode { id: N1, seq: 0, released: true, acts: Sequence { kept: [OrderAct { n: 0, kind: Pick, station: A, load: L1 }] } }, OrderNode { id: N2, seq: 2, released: true, acts: Sequence { kept: [] } }, OrderNode { id: N3, seq: 4, released: false, acts: Sequence { kept: [OrderAct { n: 1, kind: Drop, station: B, load: L1 }] } }] }, edges: Sequence { kept: [OrderEdge { id: E12, start: N1, finish: N2, seq: 1, released: true }, OrderEdge { id: E23, start: N2, finish: N3, seq: 3, released: false }] } }))
none O1 1:2:1 => Err(NotFirst)
0:1:0 O1 1:2:1 => Ok(Taken(OrderMessage { order: O1, update: 1, nodes: Sequence { kept: [OrderNode { id: N1, seq: 0, released: true, acts: Sequence { kept: [OrderAct { n: 0, kind: Pick, station: A, load: L1 }] } }, OrderNode { id: N2, seq: 2, released: true, acts: Sequence { kept: [] } }, OrderNode { id: N3, seq: 4, released: true, acts: Sequence { kept: [OrderAct { n: 1, kind: Drop, station: B, load: L1 }] } }] }, edges: Sequence { kept: [OrderEdge { id: E12, start: N1, finish: N2, seq: 1, released: true }, OrderEdge { id: E23, start: N2, finish: N3, seq: 3, released: true }] } }))
0:1:0 O1 0:1:0 => Ok(Same)
0:1:0 O1 2:2:1 => Err(NotStitched)
0:1:0 O2 1:2:1 => Err(OtherOrder)
0:2:1 O1 1:2:1 => Ok(Same)
0:2:1 O1 0:1:0 => Err(Lower)
";

#[test]
fn messages_are_joined(rt: HostRuntime) {
    for line in JOINS.lines() {
        let (call, wanted) = row(&rt, line);
        let found = answer(&rt, rt.alloc(), call);
        check_text(&rt, found.as_str(), wanted, call);
    }
}

/// The old status, the new one, and the result. Then whether the old status is finished, and whether it is final.
const STATUSES: &str = "\
RUNNING PAUSED => Some(Paused) false false
RUNNING WAITING => None false false
FINISHED FAILED => None true true
FAILED FAILED => Some(Failed) false true
FAILED FINISHED => None false true
FINISHED FINISHED => Some(Finished) true true
WAITING WAITING => Some(Waiting) false false
WAITING FINISHED => Some(Finished) false false
PAUSED INITIALIZING => Some(Initializing) false false
INITIALIZING FAILED => Some(Failed) false false
PAUSED WAITING => None false false
FINISHED RUNNING => None true true
";

/// Prints the status that an old and a new one give, and whether the old one is finished and final.
fn followed(rt: &impl Abort, alloc: Global, old: Status, new: Status) -> String {
    let text = format!(in alloc;
        "{:?} {} {}",
        merge(old, new),
        is_finished(old),
        is_final(old)
    );
    text.expect(rt, "memory")
}

#[test]
fn statuses_follow(rt: HostRuntime) {
    for line in STATUSES.lines() {
        let (call, wanted) = row(&rt, line);
        let old = Status::of(word(&rt, call, 0)).expect(&rt, call);
        let new = Status::of(word(&rt, call, 1)).expect(&rt, call);
        check_text(
            &rt,
            followed(&rt, rt.alloc(), old, new).as_str(),
            wanted,
            call,
        );
    }
}
