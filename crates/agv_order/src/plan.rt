//! Planning a trip.
ghost use Rattle.std.specs.Prelude.{◌≡◌, ◌≢◌, ◌⊎◌, ◌≤◌, ◌++◌, [], ◌∷◌, length, map, Some, None, Ok, Err, IfOk, IfErr, OnOk, IsTrue};
ghost use Rattle.agv_order.specs.Plans.{stop_routes_to, way_of, acts_along, planned};
ghost use Rattle.agv_order.specs.Stops.{stops_fit};
ghost use Rattle.agv_order.specs.WellFormed.{IsWellFormed};
ghost use Rattle.agv_order.specs.declared.fault.PlanFault.TheVariants as fault;

use crate::stop_route::{StopRoute, act_at, stop_route_to};
use crate::{Act, PlanFault, Stop, Trip};
use agv_header::limits::MAX_TRIP_EDGES;
use agv_header::{Memory, Name, VehicleKey};
use agv_layout::{Edge, Layout};
use agv_message_core::Sequence;
use agv_stock::Job;
use std::alloc::Global;

impl Trip {
    /// Plans the trip of the order named `order` (its `orderId`): from the node `at_node`, where the vehicle
    /// stands, to the node of each stop in turn, each time by the route of the layout. The job of a stop is
    /// looked up among `jobs`; its load is picked at its origin and dropped at its target. The first `edges`
    /// edges are released.
    ///
    /// It returns
    ///
    /// - `NoWalk` if the job or the station of a stop is unknown, or no walk leads to a stop, as when the
    ///   vehicle's node is unknown;
    /// - otherwise `TooLong` if the whole way has more than 200 edges;
    /// - otherwise `Beyond` if `edges` is more than it has;
    /// - `Memory` only when out of memory.
    ///
    /// The trip is well formed if the stops fit and are at most eight. The time is that of a route
    /// for each stop, and of the edges.
    pub fn plan(
        alloc: Global,
        layout: &Layout,
        vehicle: VehicleKey,
        jobs: &[Job],
        stops: &[Stop],
        order: Name,
        at_node: Name,
        edges: u32,
    ) -> Result<Trip, PlanFault>
        ensures ok { IfOk result (λ trip. planned layout.now vehicle jobs.now stops.now order at_node edges ≡ Ok trip) }
        ensures err { IfErr result (λ error. error ≢ fault.Memory
            → planned layout.now vehicle jobs.now stops.now order at_node edges ≡ Err error) }
        ensures well_formed { IsTrue (stops_fit stops.now) → length stops.now ≤ 8 → IfOk result (IsWellFormed layout.now) }
    {
        let stop_routes = stop_routes_to(alloc, layout, jobs, at_node, stops)?;
        let way = way_of(alloc, &stop_routes)?;
        if way.len() > MAX_TRIP_EDGES {
            return Err(PlanFault::TooLong);
        }
        if edges as usize > way.len() {
            return Err(PlanFault::Beyond);
        }
        Ok(Trip {
            order,
            vehicle,
            start: at_node,
            edges: Sequence::from(way),
            first: 0,
            base: edges,
            sent: 0,
            confirmed: None,
            seen: 0,
            acts: Sequence::from(acts_along(alloc, &stop_routes)?),
        })
    }
}

/// Finds the routes from a node to each stop in turn, or returns `NoWalk` if one of them doesn't exist.
fn stop_routes_to(
    alloc: Global,
    layout: &Layout,
    jobs: &[Job],
    start: Name,
    stops: &[Stop],
) -> Result<Vec<StopRoute>, PlanFault>
    ensures ok { IfOk result (λ stop_routes. stop_routes_to layout.now jobs.now start stops.now ≡ Some stop_routes.items) }
    ensures no_walk { result ≡ Err fault.NoWalk → stop_routes_to layout.now jobs.now start stops.now ≡ None }
    ensures err { IfErr result (λ error. (error ≡ fault.NoWalk) ⊎ (error ≡ fault.Memory)) }
{
    let mut stop_routes = Vec::new(alloc);
    let mut at = start;
    for stop in stops {
        let stop_route = stop_route_to(alloc, layout, jobs, at, *stop)?;
        at = stop_route.goal;
        stop_routes.push(stop_route)?;
    }
    Ok(stop_routes)
}

/// Returns the edges of all routes, one after another.
fn way_of(alloc: Global, stop_routes: &[StopRoute]) -> Result<Vec<Edge>, Memory>
    ensures { IfOk result (λ way. way.items ≡ way_of stop_routes.now) }
{
    let mut way = Vec::new(alloc);
    for stop_route in stop_routes {
        add_edges(&mut way, stop_route)?;
    }
    Ok(way)
}

/// Adds the edges of a route.
fn add_edges(way: &mut Vec<Edge>, stop_route: &StopRoute) -> Result<(), Memory>
    ensures { OnOk result (way.new.items ≡ way.old.items ++ stop_route.now.edges) }
{
    way.extend_from_slice(stop_route.edges.as_slice())?;
    Ok(())
}

/// Returns the acts at the ends of the routes.
fn acts_along(alloc: Global, stop_routes: &[StopRoute]) -> Result<Vec<Act>, Memory>
    requires { length (way_of stop_routes.now) ≤ 200 }
    ensures { IfOk result (λ acts. acts.items ≡ acts_along 0 stop_routes.now) }
{
    let mut acts = Vec::new(alloc);
    let mut place = 0;
    for stop_route in stop_routes {
        place += stop_route.edges.len() as u32;
        acts.push(act_at(stop_route, place))?;
    }
    Ok(acts)
}
