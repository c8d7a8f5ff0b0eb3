//! The holders of the track of the warehouse, vehicle by vehicle, worked out by hand. They are compared after each
//! call.

use crate::cases::{check_text, kit, name, part, row, shown, word};
use agv_header::{Thing, VehicleKey};
use agv_track::HoldTable;
use std::alloc::Global;
use std::process::Abort;

/// Returns a node if the name begins with N, and otherwise an edge.
pub(crate) fn thing(rt: &impl Abort, id: &str) -> Thing {
    let name = name(rt, id);
    if id.starts_with('N') {
        Thing::Node(name)
    } else {
        Thing::Edge(name)
    }
}

/// Reads a list of things.
fn things(rt: &impl Abort, alloc: Global, ids: &str) -> Vec<Thing> {
    let mut things = Vec::new(alloc);
    for id in ids.split_terminator(',') {
        things.push(thing(rt, id)).expect(rt, "memory");
    }
    things
}

/// Returns the serial number of the holder, or `free`.
fn holder_text(holder: &Option<VehicleKey>) -> &str {
    match holder {
        None => "free",
        Some(by) => by.serial.as_str(),
    }
}

/// Appends the holder of each thing of the track, in this order: three nodes and four edges.
fn put_holders(rt: &impl Abort, text: &mut String, table: &HoldTable) {
    for id in ["N1", "N2", "N3", "E12", "E21", "E23", "E32"] {
        let holder = table.holder(&thing(rt, id));
        write!(text, " {}", holder_text(&holder)).expect(rt, "memory");
    }
}

/// Sheds the old things that aren't among the new ones.
fn shed(rt: &impl Abort, alloc: Global, table: &mut HoldTable, key: VehicleKey, ids: &str) {
    let old = things(rt, alloc, part(rt, ids, '-', 0));
    let new = things(rt, alloc, part(rt, ids, '-', 1));
    table.shed(key, &old, &new);
}

/// Claims or sheds for a vehicle, and returns the answer and the holders afterwards.
fn answer(rt: &impl Abort, alloc: Global, table: &mut HoldTable, call: &str) -> String {
    let key = kit(rt, word(rt, call, 1));
    let ids = word(rt, call, 2);
    let mut text = String::new(alloc);
    if word(rt, call, 0) == "claim" {
        let found = table.claim(key, &things(rt, alloc, ids));
        text = shown(rt, alloc, &found);
    } else {
        shed(rt, alloc, table, key, ids);
    }
    put_holders(rt, &mut text, table);
    text
}

/// Makes call after call on a table, and compares each answer.
fn check_calls(rt: &impl Abort, alloc: Global, calls: &str) {
    let mut table = HoldTable::new(alloc);
    for line in calls.lines() {
        let (call, wanted) = row(rt, line);
        let found = answer(rt, alloc, &mut table, call);
        check_text(rt, found.as_str(), wanted, call);
    }
}

/// A vehicle gets an order, and another one can't go where the first has its way.
const TWO_VEHICLES: &str = "\
claim 0001  => Ok(()) free free free free free free free
claim 0001 N1 => Ok(()) 0001 free free free free free free
claim 0002 N3 => Ok(()) 0001 free 0002 free free free free
claim 0001 N1,E12,N2 => Ok(()) 0001 0001 0002 0001 free free free
claim 0002 N3,E32,N2 => Err(Held { what: Node(N2), by: VehicleKey { manufacturer: KIT, serial: 0001 } }) 0001 0001 0002 0001 free free free
";

/// A thing may be twice in a list, and a vehicle sheds only things that it holds and no longer needs.
const ONLY_ITS_OWN: &str = "\
claim 0001 N1,E12,N2 => Ok(()) 0001 0001 free 0001 free free free
claim 0001 E21,N1,E21 => Ok(()) 0001 0001 free 0001 0001 free free
claim 0002 N3 => Ok(()) 0001 0001 0002 0001 0001 free free
shed 0002 N1,N2,N3,E23-N3 =>  0001 0001 0002 0001 0001 free free
shed 0001 - =>  0001 0001 0002 0001 0001 free free
shed 0001 N1,E12,N2,N1-N2 =>  free 0001 0002 free 0001 free free
shed 0002 N2,N3- =>  free 0001 free free 0001 free free
";

/// There and back: a node that is also further on the way stays held.
const THERE_AND_BACK: &str = "\
claim 0002 N3 => Ok(()) free free 0002 free free free free
claim 0002 N3,E32,N2,E21,N1,E12,E23 => Ok(()) 0002 0002 0002 0002 0002 0002 0002
shed 0002 N3,E32,N2,E21,N1,E12,E23-N2,E21,N1,E12,E23,N3 =>  0002 0002 0002 0002 0002 0002 free
shed 0002 N2,E21,N1,E12,E23,N3-N1,E12,N2,E23,N3 =>  0002 0002 0002 0002 free 0002 free
";

#[test]
fn two_vehicles(rt: HostRuntime) {
    check_calls(&rt, rt.alloc(), TWO_VEHICLES);
    check_calls(&rt, rt.alloc(), ONLY_ITS_OWN);
    check_calls(&rt, rt.alloc(), THERE_AND_BACK);
}
