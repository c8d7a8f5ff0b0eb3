//! Layout files, the layouts that they give, and the ways there, worked out by hand. In a line `|` ends a line of the
//! file.

use crate::cases::{check_text, name, parts, row, shown, word};
use agv_count::read_layout;
use agv_header::Name;
use agv_layout::{Layout, LayoutRow};
use std::alloc::Global;
use std::process::Abort;

/// Three nodes in a row, with an edge each way between neighbours, and three stations.
pub(crate) const WAREHOUSE: &str = "kind,id,from,to
node,N1,,
node,N2,,
node,N3,,
edge,E12,N1,N2
edge,E21,N2,N1
edge,E23,N2,N3
edge,E32,N3,N2
station,A,N1,1
station,B,N3,1
station,C,N3,2
";

/// Reads the rows of a layout file.
fn rows(rt: &impl Abort, alloc: Global, file: &str) -> Vec<LayoutRow> {
    read_layout(alloc, file.as_bytes()).expect(rt, file)
}

/// Reads the layout of a layout file.
pub(crate) fn layout(rt: &impl Abort, alloc: Global, file: &str) -> Layout {
    Layout::of_rows(alloc, &rows(rt, alloc, file)).expect(rt, file)
}

/// Returns a text with its lines ended as in a file.
pub(crate) fn lines(rt: &impl Abort, alloc: Global, text: &str) -> String {
    text.replace(alloc, '|', "\n").expect(rt, "memory")
}

/// The warehouse in lines that end in LF; others with a byte order mark and lines that end in CR LF, and with quotes
/// and an empty line. Then no rows, rows that give no layout, and files that aren't layout files.
const FILES: &str = "\
kind,id,from,to|node,N1,,|node,N2,,|node,N3,,|edge,E12,N1,N2|edge,E21,N2,N1|edge,E23,N2,N3|edge,E32,N3,N2|station,A,N1,1|station,B,N3,1|station,C,N3,2| => Ok([Node { id: N1 }, Node { id: N2 }, Node { id: N3 }, Edge { id: E12, start: N1, finish: N2 }, Edge { id: E21, start: N2, finish: N1 }, Edge { id: E23, start: N2, finish: N3 }, Edge { id: E32, start: N3, finish: N2 }, Station { id: A, node: N1, capacity: 1 }, Station { id: B, node: N3, capacity: 1 }, Station { id: C, node: N3, capacity: 2 }])
\u{feff}kind,id,from,to\r|node,N1,,\r|edge,E12,N1,N2\r|station,C,N3,2\r| => Ok([Node { id: N1 }, Edge { id: E12, start: N1, finish: N2 }, Station { id: C, node: N3, capacity: 2 }])
\"kind\",id,from,to|\"node\",N1,,||node,\"N2\",\"\",|edge,E12,N1,N2|station,A,N1,001|station,B,N2,01|station,C,N2,\"2\" => Ok([Node { id: N1 }, Node { id: N2 }, Edge { id: E12, start: N1, finish: N2 }, Station { id: A, node: N1, capacity: 1 }, Station { id: B, node: N2, capacity: 1 }, Station { id: C, node: N2, capacity: 2 }])
kind,id,from,to| => Ok([])
kind,id,from,to|station,A,N1,000|node,N1,, => Ok([Station { id: A, node: N1, capacity: 0 }, Node { id: N1 }])
 => Err(BadCsv)
| => Err(BadCsv)
node,N1,,| => Err(BadCsv)
kind,id,from| => Err(BadCsv)
kind,id,from,to,| => Err(BadCsv)
Kind,id,from,to| => Err(BadCsv)
kind,id, from,to| => Err(BadCsv)
\u{feff}\u{feff}kind,id,from,to| => Err(BadCsv)
kind,id,from,to|zone,Z1,,| => Err(BadCsv)
kind,id,from,to|node,N1,,N2| => Err(BadCsv)
kind,id,from,to|node,N1,N2,| => Err(BadCsv)
kind,id,from,to|node,,,| => Err(BadCsv)
kind,id,from,to|node,N 1,,| => Err(BadCsv)
kind,id,from,to|node,N1,| => Err(BadCsv)
kind,id,from,to|node,N1,,,| => Err(BadCsv)
kind,id,from,to|edge,E12,N1,| => Err(BadCsv)
kind,id,from,to|station,A,N1,1000| => Err(BadCsv)
kind,id,from,to|station,A,N1,x| => Err(BadCsv)
kind,id,from,to|station,A,N1,+1| => Err(BadCsv)
kind,id,from,to|station,A,N1,| => Err(BadCsv)
kind,id,from,to|station,A,,1| => Err(BadCsv)
kind,id,from,to|node,N1,,|zone,Z1,,|node,N2,,| => Err(BadCsv)
";

#[test]
fn files(rt: HostRuntime) {
    for line in FILES.lines() {
        let (text, wanted) = row(&rt, line);
        let file = lines(&rt, rt.alloc(), text);
        let found = read_layout(rt.alloc(), file.as_bytes());
        check_text(&rt, shown(&rt, rt.alloc(), &found).as_str(), wanted, text);
    }
    let found = read_layout(rt.alloc(), b"kind,id,from,to\nnode,N\xff,,\n");
    check_text(
        &rt,
        shown(&rt, rt.alloc(), &found).as_str(),
        "Err(BadCsv)",
        "no text",
    );
}

/// Returns why a file gives no layout, if it gives none.
fn fault(rt: &impl Abort, alloc: Global, file: &str) -> String {
    let fault = Layout::of_rows(alloc, &rows(rt, alloc, file)).err();
    shown(rt, alloc, &fault)
}

/// Rows added to those of the warehouse.
const FAULTS: &str = "\
node,N2,,| => Some(Bad)
edge,E12,N2,N3| => Some(Bad)
station,A,N2,1| => Some(Bad)
edge,E14,N1,N4| => Some(Bad)
edge,E41,N4,N1| => Some(Bad)
edge,E11,N1,N1| => Some(Bad)
station,D,N4,1| => Some(Bad)
station,D,N1,0| => Some(Bad)
node,N4,,| => None
edge,F,N1,N2| => None
station,D,N1,999| => None
";

/// Checks why the two texts together give no layout.
fn check_fault(rt: &impl Abort, alloc: Global, first: &str, more: &str, wanted: &str) {
    let file = format!(in alloc; "{first}{more}").expect(rt, "memory");
    check_text(rt, fault(rt, alloc, file.as_str()).as_str(), wanted, more);
}

/// A layout with too many nodes is refused before it is checked for repeated names.
#[test]
fn faults(rt: HostRuntime) {
    for line in FAULTS.lines() {
        let (text, wanted) = row(&rt, line);
        let more = lines(&rt, rt.alloc(), text);
        check_fault(&rt, rt.alloc(), WAREHOUSE, more.as_str(), wanted);
    }
    let nodes = "node,N0,,\n".repeat(rt.alloc(), 500).expect(&rt, "memory");
    let head = "kind,id,from,to\n";
    check_fault(&rt, rt.alloc(), head, nodes.as_str(), "Some(Bad)");
    let head = "kind,id,from,to\nnode,N1,,\n";
    check_fault(&rt, rt.alloc(), head, nodes.as_str(), "Some(Limit)");
}

/// Returns what the layout has by a name: whether it is a node, the edge and the station.
fn said(rt: &impl Abort, alloc: Global, layout: &Layout, text: &str) -> String {
    let id = name(rt, text);
    let said = (layout.node(id), layout.edge(id), layout.station(id));
    shown(rt, alloc, &said)
}

/// Returns how many edges the way from one node to another has, and which.
fn way(rt: &impl Abort, alloc: Global, layout: &Layout, from: Name, to: Name) -> String {
    let hops = layout.hops(alloc, from, to).expect(rt, "memory");
    let route = layout.route(alloc, from, to).expect(rt, "memory");
    format!(in alloc; "{hops:?} {route:?}").expect(rt, "memory")
}

/// Returns the answer of a call.
fn answer(rt: &impl Abort, alloc: Global, layout: &Layout, call: &str) -> String {
    let first = word(rt, call, 1);
    match word(rt, call, 0) {
        "copy" => shown(rt, alloc, &layout.copy().expect(rt, "memory")),
        "says" => said(rt, alloc, layout, first),
        _ => way(
            rt,
            alloc,
            layout,
            name(rt, first),
            name(rt, word(rt, call, 2)),
        ),
    }
}

/// Checks the answer of a call.
fn check_answer(rt: &impl Abort, alloc: Global, layout: &Layout, call: &str, wanted: &str) {
    let found = answer(rt, alloc, layout, call);
    check_text(rt, found.as_str(), wanted, call);
}

/// The warehouse copied, what it has by names, and ways there.
const SAID: &str = "\
copy - => Layout { nodes: {N1, N2, N3}, edges: {E12: EdgeEnds { start: N1, finish: N2 }, E21: EdgeEnds { start: N2, finish: N1 }, E23: EdgeEnds { start: N2, finish: N3 }, E32: EdgeEnds { start: N3, finish: N2 }}, stations: {A: StationSite { node: N1, capacity: 1 }, B: StationSite { node: N3, capacity: 1 }, C: StationSite { node: N3, capacity: 2 }} }
says N1 => (true, None, None)
says N3 => (true, None, None)
says E12 => (false, Some(Edge { id: E12, start: N1, finish: N2 }), None)
says E32 => (false, Some(Edge { id: E32, start: N3, finish: N2 }), None)
says A => (false, None, Some(Station { id: A, node: N1, capacity: 1 }))
says C => (false, None, Some(Station { id: C, node: N3, capacity: 2 }))
says N4 => (false, None, None)
says n1 => (false, None, None)
way N1 N3 => Some(2) Some([E12, E23])
way N2 N2 => Some(0) Some([])
way N1 N9 => None None
way N9 N1 => None None
";

/// Layouts in the order of names, whatever the order of their rows, and a name in each kind; and ways: one that the
/// first edge decides, one by one of two parallel edges, and one against a one-way edge.
const LAYOUTS: &str = "\
copy -:kind,id,from,to|station,C,N3,2|station,A,N1,1|edge,E23,N2,N3|edge,E12,N1,N2|node,N3,,|node,N2,,|node,N1,,| => Layout { nodes: {N1, N2, N3}, edges: {E12: EdgeEnds { start: N1, finish: N2 }, E23: EdgeEnds { start: N2, finish: N3 }}, stations: {A: StationSite { node: N1, capacity: 1 }, C: StationSite { node: N3, capacity: 2 }} }
copy -:kind,id,from,to|node,X,,|node,Y,,|edge,X,X,Y|station,X,Y,999| => Layout { nodes: {X, Y}, edges: {X: EdgeEnds { start: X, finish: Y }}, stations: {X: StationSite { node: Y, capacity: 999 }} }
way P S:kind,id,from,to|node,P,,|node,Q,,|node,R,,|node,S,,|edge,a1,P,Q|edge,a2,P,R|edge,b1,Q,S|edge,b0,R,S| => Some(2) Some([a1, b1])
way P Q:kind,id,from,to|node,P,,|node,Q,,|edge,x2,P,Q|edge,x1,P,Q| => Some(1) Some([x1])
way Q P:kind,id,from,to|node,P,,|node,Q,,|edge,a1,P,Q| => None None
";

#[test]
fn layouts(rt: HostRuntime) {
    let warehouse = layout(&rt, rt.alloc(), WAREHOUSE);
    for line in SAID.lines() {
        let (call, wanted) = row(&rt, line);
        check_answer(&rt, rt.alloc(), &warehouse, call, wanted);
    }
}

/// Checks the answer of a call on the layout of a line.
fn check_layout(rt: &impl Abort, alloc: Global, line: &str) {
    let (question, wanted) = row(rt, line);
    let (call, text) = parts(rt, question, ":");
    let file = lines(rt, alloc, text);
    let layout = layout(rt, alloc, file.as_str());
    check_answer(rt, alloc, &layout, call, wanted);
}

#[test]
fn other_layouts(rt: HostRuntime) {
    for line in LAYOUTS.lines() {
        check_layout(&rt, rt.alloc(), line);
    }
}
