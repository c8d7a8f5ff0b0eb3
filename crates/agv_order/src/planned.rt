//! The test whether a trip is planned on a layout.
ghost use Rattle.std.specs.Prelude.{◌≡◌, ◌&&◌, nat_eq};
ghost use Rattle.std.specs.List.{list_all};
ghost use Rattle.std.specs.Cmp.Lexicographic.{pointwise};
ghost use Rattle.agv_order.specs.Stops.{are_paired, kinds_of, is_pick_then_drop};
ghost use Rattle.agv_order.specs.WellFormedTest.{is_edge_of, is_way_of, is_rising, are_in_order, is_at_station, is_planned, stops_of};

use crate::job_progress::JobProgress;
use crate::{Act, Trip};
use agv_header::Name;
use agv_header::limits::{MAX_TRIP_ACTS, MAX_TRIP_EDGES};
use agv_layout::{Edge, Layout};

impl Trip {
    /// Returns whether the trip is planned on the layout.
    pub(crate) fn is_planned(&self, layout: &Layout) -> bool
        ensures { result ≡ is_planned layout.now self.now }
    {
        let edges = self.edges.as_slice();
        let acts = self.acts.as_slice();
        edges.len() <= MAX_TRIP_EDGES
            && acts.len() <= MAX_TRIP_ACTS
            && is_way_of(layout, self.start, edges)
            && are_paired(acts)
            && are_in_order(acts, edges.len())
            && self.are_at_stations(layout)
    }

    /// Returns whether the station of each act is at the node of the act's place.
    fn are_at_stations(&self, layout: &Layout) -> bool
        ensures { result ≡ list_all (is_at_station layout.now self.now) self.now.acts }
    {
        self.acts
            .as_slice()
            .iter()
            .all(|act| self.is_at_station(layout, act))
    }

    /// Returns whether the station of the act is at the node of the act's place.
    fn is_at_station(&self, layout: &Layout, act: &Act) -> bool
        ensures { result ≡ is_at_station layout.now self.now act.now }
    {
        let Some(node) = self.node_at(act.place_at) else {
            return false;
        };
        let Some(station) = layout.station(act.station) else {
            return false;
        };
        station.node == node
    }
}

/// Returns whether the edges are those of the layout and lead from the node, one after another, to a node of it.
fn is_way_of(layout: &Layout, start: Name, edges: &[Edge]) -> bool
    ensures { result ≡ is_way_of layout.now start edges.now }
{
    let mut at = start;
    for edge in edges {
        if !leads_on(layout, at, edge) {
            return false;
        }
        at = edge.finish;
    }
    layout.node(at)
}

/// Returns whether the layout has the edge, with these ends, and it starts at the node.
fn leads_on(layout: &Layout, at: Name, edge: &Edge) -> bool
    ensures { result ≡ (pointwise nat_eq edge.now.start at && is_edge_of layout.now edge.now) }
{
    edge.start == at && is_edge_of(layout, edge)
}

/// Returns whether the layout has the edge, with these ends.
fn is_edge_of(layout: &Layout, edge: &Edge) -> bool
    ensures { result ≡ is_edge_of layout.now edge.now }
{
    match layout.edge(edge.id) {
        Some(known) => known.start == edge.start && known.finish == edge.finish,
        None => false,
    }
}

/// Returns whether each job that an act names is picked and then dropped.
fn are_paired(acts: &[Act]) -> bool
    ensures { result ≡ are_paired (stops_of acts.now) }
{
    are_all_carried(acts)
}

/// Returns whether each job that an act names is picked and then dropped.
fn are_all_carried(acts: &[Act]) -> bool
    ensures { result ≡ list_all (λ act. is_pick_then_drop (kinds_of (stops_of acts.now) act.job)) acts.now }
{
    acts.iter().all(|act| is_carried(acts, act.job))
}

/// Returns whether the acts for this job are a pick, and then a drop.
fn is_carried(acts: &[Act], job: Name) -> bool
    ensures { result ≡ is_pick_then_drop (kinds_of (stops_of acts.now) job) }
{
    let mut served = JobProgress::Waiting;
    for act in acts {
        if act.job == job {
            served = served.then(act.kind);
        }
    }
    served.is_over()
}

/// Returns whether the places of the acts do not decrease and the last of them is this one, or there are no acts.
fn are_in_order(acts: &[Act], end: usize) -> bool
    ensures { result ≡ are_in_order acts.now end }
{
    acts.is_empty() || is_rising(acts, end)
}

/// Returns whether the places of the acts do not decrease and the last of them is this one.
fn is_rising(acts: &[Act], end: usize) -> bool
    ensures { result ≡ is_rising 0 acts.now end }
{
    let mut place = 0;
    for act in acts {
        if act.place_at < place {
            return false;
        }
        place = act.place_at;
    }
    place as usize == end
}
