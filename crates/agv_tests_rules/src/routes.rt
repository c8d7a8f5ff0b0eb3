//! The largest layout: 500 nodes, 1,500 edges and 500 stations, as a file, as rows and as a layout, and the way from
//! end to end of it.

use crate::cases::{check, check_text, name, shown};
use crate::layouts::layout;
use agv_layout::Layout;
use std::alloc::Global;
use std::process::Abort;

/// Replaces the mark in a text by the number.
fn marked(rt: &impl Abort, alloc: Global, text: &str, mark: char, number: u32) -> String {
    let number = format!(in alloc; "{number:03}").expect(rt, "memory");
    text.replace(alloc, mark, number.as_str())
        .expect(rt, "memory")
}

/// The node after a path of this many edges, and the edges between it and the last: two forward and one back.
const LINK: &str = "node,P$,,\nedge,G#,P#,P$\nedge,F#,P#,P$\nedge,B#,P$,P#\n";

/// The first node, and a third edge forward between the first three and the next.
const START: &str =
    "kind,id,from,to\nnode,P000,,\nedge,H000,P000,P001\nedge,H001,P001,P002\nedge,H002,P002,P003\n";

/// Returns the file of a path P000, P001 and so on, of this many forward edges F000 and so on. Parallel to each there
/// is an edge back, B000 and so on, and a second forward edge, G000 and so on, and to the first three a third one, H000
/// to H002.
pub(crate) fn path_file(rt: &impl Abort, alloc: Global, path: u32) -> String {
    let mut file = String::from_str(alloc, START).expect(rt, "memory");
    for k in 0..path {
        let from = marked(rt, alloc, LINK, '#', k);
        let link = marked(rt, alloc, from.as_str(), '$', k.saturating_add(1));
        file.push_str(link.as_str()).expect(rt, "memory");
    }
    file
}

/// Prints the forward edges of least name.
fn path_text(rt: &impl Abort, alloc: Global, path: u32) -> String {
    let mut text = String::from_str(alloc, "Some([F000").expect(rt, "memory");
    for k in 1..path {
        write!(text, ", F{k:03}").expect(rt, "memory");
    }
    text.push_str("])").expect(rt, "memory");
    text
}

/// Checks that the way from end to end has the forward edges of least name.
fn check_way(rt: &impl Abort, alloc: Global, layout: &Layout, path: u32) {
    let end = format!(in alloc; "P{path:03}").expect(rt, "memory");
    let (from, to) = (name(rt, "P000"), name(rt, end.as_str()));
    let route = layout.route(alloc, from, to).expect(rt, "memory");
    let wanted = path_text(rt, alloc, path);
    check_text(
        rt,
        shown(rt, alloc, &route).as_str(),
        wanted.as_str(),
        "the route",
    );
    let hops = layout.hops(alloc, from, to).expect(rt, "memory");
    check(rt, hops == Some(path), "from end to end");
}

/// 500 nodes and 1,500 edges.
#[test]
fn crosses_the_largest_layout(rt: HostRuntime) {
    let file = path_file(&rt, rt.alloc(), 499);
    let layout = layout(&rt, rt.alloc(), file.as_str());
    check_way(&rt, rt.alloc(), &layout, 499);
}

/// 250 nodes and 750 edges.
#[test]
fn crosses_half_of_it(rt: HostRuntime) {
    let file = path_file(&rt, rt.alloc(), 249);
    let layout = layout(&rt, rt.alloc(), file.as_str());
    check_way(&rt, rt.alloc(), &layout, 249);
}

/// Prints how many nodes, edges and stations there are.
fn counts(rt: &impl Abort, alloc: Global, layout: &Layout) -> String {
    let nodes = layout.node_count();
    let counts = (nodes, layout.edge_count(), layout.station_count());
    shown(rt, alloc, &counts)
}

/// With a station at each node. One more node is too many; a copy is the same as the layout.
#[test]
fn the_largest_is_copied(rt: HostRuntime) {
    let mut file = path_file(&rt, rt.alloc(), 499);
    for k in 0..500 {
        write!(file, "station,S{k:03},P{k:03},{}\n", k + 500).expect(&rt, "memory");
    }
    let layout = layout(&rt, rt.alloc(), file.as_str());
    let found = counts(&rt, rt.alloc(), &layout);
    check_text(&rt, found.as_str(), "(500, 1500, 500)", "the largest");
    let copy = layout.copy().expect(&rt, "memory");
    let same = shown(&rt, rt.alloc(), &copy) == shown(&rt, rt.alloc(), &layout);
    check(&rt, same, "the copy of the largest");
    check_way(&rt, rt.alloc(), &copy, 499);
}
