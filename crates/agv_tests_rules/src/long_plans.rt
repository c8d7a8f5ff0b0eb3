//! Plans of trips on long ways, of at most 200 edges: the longest trip, its message, and the 401 things that its
//! vehicle holds.

use crate::cases::{check, check_text, kit, number, row, shown, word};
use crate::layouts::layout;
use crate::messages::header;
use crate::plans::plan;
use crate::routes::path_file;
use crate::trips::{held, message};
use agv_header::{Thing, VehicleKey};
use agv_layout::Layout;
use agv_message::order_text;
use agv_order::{PlanFault, Trip};
use agv_track::HoldTable;
use std::alloc::Global;
use std::process::Abort;

/// Returns the layout of a path of this many edges, there and back, with A at its start, B at its end, and C at a node
/// apart.
fn path_layout(rt: &impl Abort, alloc: Global, path: u32) -> Layout {
    let mut file = path_file(rt, alloc, path);
    let more = "node,Q,,\nstation,A,P000,1\nstation,C,Q,1\n";
    write!(file, "{more}station,B,P{path:03},1\n").expect(rt, "memory");
    layout(rt, alloc, file.as_str())
}

/// Plans the trip along a path of this many edges, with the first `edges` released.
fn path_trip(rt: &impl Abort, alloc: Global, path: u32, edges: u32) -> Trip {
    let layout = path_layout(rt, alloc, path);
    let call = format!(in alloc; "plan P000 {edges} J1:L1:A:B pick:J1,drop:J1");
    plan(rt, alloc, &layout, call.expect(rt, "memory").as_str()).expect(rt, "a trip")
}

/// Returns the number of bytes, and their 64-bit FNV-1a hash.
fn digest(bytes: &[u8]) -> (usize, u64) {
    let mut hash: u64 = 0xcbf2_9ce4_8422_2325;
    for byte in bytes {
        hash = (hash ^ u64::from(*byte)).wrapping_mul(0x0100_0000_01b3);
    }
    (bytes.len(), hash)
}

/// Compares the message of a trip with the digest of what another program writes for it: Python's `json.dumps` with
/// sorted members and no whitespace.
fn check_digest(rt: &impl Abort, alloc: Global, trip: &Trip, wanted: &str) {
    let order = message(rt, alloc, trip);
    let text = order_text(alloc, &header(rt, 1), &order).expect(rt, "memory");
    let found = shown(rt, alloc, &digest(&text));
    check_text(rt, found.as_str(), wanted, "the message");
}

#[test]
fn takes_200_edges(rt: HostRuntime) {
    let trip = path_trip(&rt, rt.alloc(), 200, 77);
    check_digest(&rt, rt.alloc(), &trip, "(34406, 1801904630059447310)");
}

#[test]
fn takes_100_edges(rt: HostRuntime) {
    let trip = path_trip(&rt, rt.alloc(), 100, 100);
    check_digest(&rt, rt.alloc(), &trip, "(17360, 11826832062027732926)");
}

/// Jobs along the path, to a node apart, and there and back. A call gives the length of the path, and then the same as
/// in `plans`. `NoWalk` comes before `TooLong`, and that before `Beyond`; the whole way may be too long although no
/// part of it is.
const FAULTS: &str = "\
200 P000 200 J1:L1:A:B pick:J1,drop:J1 => None
200 P000 201 J1:L1:A:B pick:J1,drop:J1 => Some(Beyond)
201 P000 0 J1:L1:A:B pick:J1,drop:J1 => Some(TooLong)
201 P000 201 J1:L1:A:B pick:J1,drop:J1 => Some(TooLong)
201 P000 202 J1:L1:A:B pick:J1,drop:J1 => Some(TooLong)
100 P000 300 J1:L1:A:B,J2:L2:A:C pick:J1,drop:J1,pick:J2,drop:J2 => Some(NoWalk)
201 P000 900 J1:L1:A:B,J2:L2:A:C pick:J1,drop:J1,pick:J2,drop:J2 => Some(NoWalk)
100 P000 200 J3:L3:B:A pick:J3,drop:J3 => None
100 P000 201 J3:L3:B:A pick:J3,drop:J3 => Some(Beyond)
101 P000 0 J3:L3:B:A pick:J3,drop:J3 => Some(TooLong)
";

/// Returns why the plan of a call is refused, if it is.
fn fault(rt: &impl Abort, alloc: Global, call: &str) -> Option<PlanFault> {
    let layout = path_layout(rt, alloc, number(rt, word(rt, call, 0)));
    plan(rt, alloc, &layout, call).err()
}

#[test]
fn refuses_a_long_way(rt: HostRuntime) {
    for line in FAULTS.lines() {
        let (call, wanted) = row(&rt, line);
        let found = shown(&rt, rt.alloc(), &fault(&rt, rt.alloc(), call));
        check_text(&rt, found.as_str(), wanted, call);
    }
}

/// Returns whether this is the holder of each of the things.
fn all_have(table: &HoldTable, things: &[Thing], by: &Option<VehicleKey>) -> bool {
    for thing in things {
        if table.holder(thing) != *by {
            return false;
        }
    }
    true
}

/// The footprint of a vehicle with 200 edges before it.
#[test]
fn the_longest_footprint(rt: HostRuntime) {
    let trip = path_trip(&rt, rt.alloc(), 200, 200);
    let things = held(&rt, rt.alloc(), &trip);
    check(&rt, things.len() == 401, "401 things");
    let one = Some(kit(&rt, "0001"));
    let mut table = HoldTable::new(rt.alloc());
    let first = table.claim(kit(&rt, "0001"), &things);
    check(&rt, first == Ok(()), "all given");
    check(&rt, all_have(&table, &things, &one), "all held");
    let second = shown(&rt, rt.alloc(), &table.claim(kit(&rt, "0002"), &things));
    let wanted =
        "Err(Held { what: Node(P000), by: VehicleKey { manufacturer: KIT, serial: 0001 } })";
    check_text(&rt, second.as_str(), wanted, "another's");
    check(&rt, all_have(&table, &things, &one), "still held");
    table.shed(kit(&rt, "0001"), &things, &[]);
    check(&rt, all_have(&table, &things, &None), "free again");
}
