//! Stocktake files, with rows worked out by hand, and the reports and the export, with texts worked out by hand. In a
//! line `|` ends a line of the file.

use crate::cases::{check_text, kit, name, row, shown};
use crate::layouts::lines;
use agv_count::{hold_report, layout_csv, loads_csv, read_count, stock_report};
use agv_header::Thing;
use agv_layout::{LayoutRow, Station};
use agv_stock::Place;
use std::process::Abort;
use std::str;

/// A station with no load and one with two, the second of them counted at two stations: with lines that end in LF, with
/// a byte order mark and lines that end in CR LF, and with quotes and an empty line. Then counts of nothing, and files
/// that aren't stocktake files.
const FILES: &str = "\
station,load|A,|B,L1|B,L2|C,L2| => Ok([(A, None), (B, Some(L1)), (B, Some(L2)), (C, Some(L2))])
\u{feff}station,load\r|A,\r|B,L1\r|B,L2\r|C,L2 => Ok([(A, None), (B, Some(L1)), (B, Some(L2)), (C, Some(L2))])
station,\"load\"|A,\"\"||B,\"L1\"|\"B\",L2|C,L2| => Ok([(A, None), (B, Some(L1)), (B, Some(L2)), (C, Some(L2))])
station,load|A,| => Ok([(A, None)])
station,load| => Ok([])
station,load => Ok([])
 => Err(BadCsv)
A,L1| => Err(BadCsv)
station|A| => Err(BadCsv)
load,station|L1,A| => Err(BadCsv)
Station,load|A,L1| => Err(BadCsv)
station, load|A,L1| => Err(BadCsv)
station,load,|A,L1,| => Err(BadCsv)
station,load|A,L1,2| => Err(BadCsv)
station,load|A| => Err(BadCsv)
station,load|,L1| => Err(BadCsv)
station,load|,| => Err(BadCsv)
station,load|A, L1| => Err(BadCsv)
station,load|A,L 1| => Err(BadCsv)
station,load|A/B,L1| => Err(BadCsv)
station,load|A,L1|station,load|A,abcdefghijklmnopqrstuvwxyz0123456| => Err(BadCsv)
\u{feff}\u{feff}station,load| => Err(BadCsv)
";

#[test]
fn counts(rt: HostRuntime) {
    for line in FILES.lines() {
        let (text, wanted) = row(&rt, line);
        let file = lines(&rt, rt.alloc(), text);
        let found = read_count(rt.alloc(), file.as_bytes());
        check_text(&rt, shown(&rt, rt.alloc(), &found).as_str(), wanted, text);
    }
    let found = read_count(rt.alloc(), b"station,load\nA,L\xff\n");
    check_text(
        &rt,
        shown(&rt, rt.alloc(), &found).as_str(),
        "Err(BadCsv)",
        "no text",
    );
}

/// Compares bytes with the expected text.
fn check_bytes(rt: &impl Abort, found: &[u8], wanted: &str) {
    let text = str::from_utf8(found).expect(rt, wanted);
    check_text(rt, text, wanted, "a report");
}

/// Returns a station with this capacity, and how many live jobs go there.
fn station(rt: &impl Abort, id: &str, node: &str, capacity: u32, reserved: u32) -> (Station, u32) {
    let station = Station {
        id: name(rt, id),
        node: name(rt, node),
        capacity,
    };
    (station, reserved)
}

/// Returns the stations of the warehouse, with this many live jobs to B.
fn stations(rt: &impl Abort, reserved: u32) -> [(Station, u32); 3] {
    [
        station(rt, "A", "N1", 1, 0),
        station(rt, "B", "N3", 1, reserved),
        station(rt, "C", "N3", 2, 0),
    ]
}

/// One load, at A.
const ONE_LOAD: &str = "station A at N1: 1 of 1, reserved 0
  L1
station B at N3: 0 of 1, reserved 0
station C at N3: 0 of 2, reserved 0
checking: 0
vehicle KIT/0001: 0
left: 0
";

/// Also one on a vehicle, one at the checking place and one that has left, and a job to B.
const ALL_PLACES: &str = "station A at N1: 1 of 1, reserved 0
  L1
station B at N3: 0 of 1, reserved 1
station C at N3: 0 of 2, reserved 0
checking: 1
  L3
vehicle KIT/0001: 1
  L2
vehicle KIT/0002: 0
left: 1
";

const EXPORT: &str = "load,place,at
L1,station,A
L2,vehicle,KIT/0001
L3,checking,
L4,left,
";

#[test]
fn stock(rt: HostRuntime) {
    let keys = [kit(&rt, "0001"), kit(&rt, "0002")];
    let loads = [
        (name(&rt, "L1"), Place::Station(name(&rt, "A"))),
        (name(&rt, "L2"), Place::Vehicle(kit(&rt, "0001"))),
        (name(&rt, "L3"), Place::Checking),
        (name(&rt, "L4"), Place::Left),
    ];
    let found = stock_report(rt.alloc(), &stations(&rt, 0), &loads[..1], &keys[..1]);
    check_bytes(&rt, &found.expect(&rt, "memory"), ONE_LOAD);
    let found = stock_report(rt.alloc(), &stations(&rt, 1), &loads, &keys);
    check_bytes(&rt, &found.expect(&rt, "memory"), ALL_PLACES);
    let found = loads_csv(rt.alloc(), &loads);
    check_bytes(&rt, &found.expect(&rt, "memory"), EXPORT);
}

/// The reports of an empty world.
#[test]
fn nothing(rt: HostRuntime) {
    let found = stock_report(rt.alloc(), &[], &[], &[]);
    check_bytes(&rt, &found.expect(&rt, "memory"), "checking: 0\nleft: 0\n");
    let found = loads_csv(rt.alloc(), &[]);
    check_bytes(&rt, &found.expect(&rt, "memory"), "load,place,at\n");
    let found = layout_csv(rt.alloc(), &[]);
    check_bytes(&rt, &found.expect(&rt, "memory"), "kind,id,from,to\n");
    let found = hold_report(rt.alloc(), &[], 4294967295);
    check_bytes(&rt, &found.expect(&rt, "memory"), "held 0 of 4294967295\n");
}

/// The rows of a layout, in the order given.
#[test]
fn layout(rt: HostRuntime) {
    let rows = [
        LayoutRow::Station {
            id: name(&rt, "A"),
            node: name(&rt, "N2"),
            capacity: 999,
        },
        LayoutRow::Node {
            id: name(&rt, "N2"),
        },
        LayoutRow::Edge {
            id: name(&rt, "E12"),
            start: name(&rt, "N1"),
            finish: name(&rt, "N2"),
        },
    ];
    let found = layout_csv(rt.alloc(), &rows);
    check_bytes(&rt, &found.expect(&rt, "memory"), LAYOUT);
}

const LAYOUT: &str = "kind,id,from,to
station,A,N2,999
node,N2,,
edge,E12,N1,N2
";

const HOLDS: &str = "node N1 KIT/0001
node N2 KIT/0001
edge E12 KIT/0001
held 3 of 7
";

#[test]
fn holds(rt: HostRuntime) {
    let held = [
        (Thing::Node(name(&rt, "N1")), kit(&rt, "0001")),
        (Thing::Node(name(&rt, "N2")), kit(&rt, "0001")),
        (Thing::Edge(name(&rt, "E12")), kit(&rt, "0001")),
    ];
    let found = hold_report(rt.alloc(), &held, 7).expect(&rt, "memory");
    check_bytes(&rt, &found, HOLDS);
}
