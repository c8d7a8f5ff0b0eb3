//! Planning a drive.
ghost use Rattle.std.specs.Prelude.{◌≡◌, ◌≢◌, Some, Ok, Err, IfOk, IfErr};
ghost use Rattle.agv_order.specs.Drives.{drive_along, drive_planned};
ghost use Rattle.agv_order.specs.WellFormed.{IsWellFormed};
ghost use Rattle.agv_order.specs.declared.fault.PlanFault.TheVariants as fault;

use crate::stop_route::{edges_named, route};
use crate::{PlanFault, Trip};
use agv_header::limits::MAX_TRIP_EDGES;
use agv_header::{Name, VehicleKey};
use agv_layout::{Edge, Layout};
use agv_message_core::Sequence;
use std::alloc::Global;

impl Trip {
    /// Plans the trip of a drive: the order named `order` (its `orderId`) leads from the node `at_node`, where the
    /// vehicle stands, to the node `to` by the route of the layout, and has no actions. The first `edges` edges are
    /// released.
    ///
    /// It returns
    ///
    /// - `NoWalk` if no walk leads to the node, as when one of the nodes is unknown, or the vehicle is there;
    /// - otherwise `TooLong` if the route has more than 200 edges;
    /// - otherwise `Beyond` if `edges` is more than it has;
    /// - `Memory` only when out of memory.
    ///
    /// The trip is well formed. The time is that of a route, and of its edges.
    pub fn plan_drive(
        alloc: Global,
        layout: &Layout,
        vehicle: VehicleKey,
        order: Name,
        at_node: Name,
        to: Name,
        edges: u32,
    ) -> Result<Trip, PlanFault>
        ensures ok { IfOk result (λ trip. drive_planned layout.now vehicle order at_node to edges ≡ Ok trip) }
        ensures err { IfErr result (λ error. error ≢ fault.Memory
            → drive_planned layout.now vehicle order at_node to edges ≡ Err error) }
        ensures well_formed { IfOk result (IsWellFormed layout.now) }
    {
        let Some(ids) = route(alloc, layout, at_node, to)? else {
            return Err(PlanFault::NoWalk);
        };
        let way = edges_named(alloc, layout, ids.as_slice())?;
        drive_along(alloc, vehicle, order, at_node, edges, way)
    }
}

/// Returns the trip of a drive over these edges, or why there is none.
fn drive_along(
    alloc: Global,
    vehicle: VehicleKey,
    order: Name,
    at_node: Name,
    base: u32,
    edges: Sequence<Edge>,
) -> Result<Trip, PlanFault>
    ensures { result ≡ drive_along vehicle order at_node base (Some edges) }
{
    if edges.is_empty() {
        return Err(PlanFault::NoWalk);
    }
    if edges.len() > MAX_TRIP_EDGES {
        return Err(PlanFault::TooLong);
    }
    if base as usize > edges.len() {
        return Err(PlanFault::Beyond);
    }
    Ok(Trip {
        order,
        vehicle,
        start: at_node,
        edges,
        first: 0,
        base,
        sent: 0,
        confirmed: None,
        seen: 0,
        acts: Sequence::from(Vec::new(alloc)),
    })
}
