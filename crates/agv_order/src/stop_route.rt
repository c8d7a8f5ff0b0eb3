//! Routes from one stop to the next.
ghost use Rattle.std.specs.Prelude.{◌≡◌, ◌⊎◌, ◌++◌, [], ◌∷◌, OnOk, Some, None, Err, IfOk, IfErr};
ghost use Rattle.agv_layout.specs.Layout.{Name as NameOf};
ghost use Rattle.agv_order.specs.Plans.{job_named, stop_station, edges_named, stop_route_for, stop_route_to, act_at};
ghost use Rattle.agv_layout.specs.RouteOf.{route_of};
ghost use Rattle.agv_order.specs.declared.fault.PlanFault.TheVariants as fault;

use crate::{Act, PlanFault, Stop};
use agv_header::{Memory, Name};
use agv_layout::{Edge, Layout};
use agv_message_core::{ActKind, Sequence, Status};
use agv_stock::Job;
use std::alloc::Global;

/// The route to a stop from the stop before it, or from the start.
#[derive(Debug, Drop)]
pub(crate) struct StopRoute {
    pub(crate) stop: Stop,
    /// The job of the stop.
    pub(crate) job: Job,
    /// The node of the stop.
    pub(crate) goal: Name,
    /// The edges to drive.
    pub(crate) edges: Sequence<Edge>,
}

/// Returns the job of this name, the first if several have it.
pub fn job_named(jobs: &[Job], name: Name) -> Option<Job>
    ensures { result ≡ job_named jobs.now name }
{
    for job in jobs {
        if job.name == name {
            return Some(*job);
        }
    }
    None
}

/// Finds the route from a node to a stop, or returns `NoWalk` if there is none.
pub(crate) fn stop_route_to(
    alloc: Global,
    layout: &Layout,
    jobs: &[Job],
    at: Name,
    stop: Stop,
) -> Result<StopRoute, PlanFault>
    ensures ok { IfOk result (λ stop_route. stop_route_to layout.now jobs.now at stop ≡ Some stop_route) }
    ensures no_walk { result ≡ Err fault.NoWalk → stop_route_to layout.now jobs.now at stop ≡ None }
    ensures err { IfErr result (λ error. (error ≡ fault.NoWalk) ⊎ (error ≡ fault.Memory)) }
{
    match job_named(jobs, stop.job) {
        Some(job) => stop_route_for(alloc, layout, at, stop, job),
        None => Err(PlanFault::NoWalk),
    }
}

/// Finds the route from a node to a stop of this job, or returns `NoWalk` if there is none.
fn stop_route_for(
    alloc: Global,
    layout: &Layout,
    at: Name,
    stop: Stop,
    job: Job,
) -> Result<StopRoute, PlanFault>
    ensures ok { IfOk result (λ stop_route. stop_route_for layout.now at stop job ≡ Some stop_route) }
    ensures no_walk { result ≡ Err fault.NoWalk → stop_route_for layout.now at stop job ≡ None }
    ensures err { IfErr result (λ error. (error ≡ fault.NoWalk) ⊎ (error ≡ fault.Memory)) }
{
    let Some(station) = layout.station(stop_station(stop.kind, &job)) else {
        return Err(PlanFault::NoWalk);
    };
    let Some(ids) = route(alloc, layout, at, station.node)? else {
        return Err(PlanFault::NoWalk);
    };
    Ok(StopRoute {
        stop,
        job,
        goal: station.node,
        edges: edges_named(alloc, layout, ids.as_slice())?,
    })
}

/// Finds the route from one node to another, if there is one.
pub(crate) fn route(
    alloc: Global,
    layout: &Layout,
    from: Name,
    to: Name,
) -> Result<Option<Sequence<Name>>, Memory>
    ensures { IfOk result (λ route. route ≡ route_of layout.now from to) }
{
    match layout.route(alloc, from, to)? {
        Some(ids) => Ok(Some(Sequence::from(ids))),
        None => Ok(None),
    }
}

/// Returns the edges of these names that the layout has.
pub(crate) fn edges_named(
    alloc: Global,
    layout: &Layout,
    ids: &[Name],
) -> Result<Sequence<Edge>, Memory>
    ensures { IfOk result (λ edges. edges ≡ edges_named layout.now ids.now) }
{
    let mut edges = Vec::new(alloc);
    for id in ids {
        add_edge(&mut edges, layout, *id)?;
    }
    Ok(Sequence::from(edges))
}

/// Adds the edge of this name, if the layout has it.
fn add_edge(edges: &mut Vec<Edge>, layout: &Layout, id: Name) -> Result<(), Memory>
    ensures { OnOk result (edges.new.items ≡ edges.old.items ++ edges_named layout.now (id ∷ [])) }
{
    match layout.edge(id) {
        Some(edge) => {
            edges.push(edge)?;
            Ok(())
        }
        None => Ok(()),
    }
}

/// Returns the act at the end of a route, at this place of the way.
pub(crate) fn act_at(stop_route: &StopRoute, place: u32) -> Act
    ensures { result ≡ act_at stop_route.now place }
{
    Act {
        kind: stop_route.stop.kind,
        job: stop_route.stop.job,
        load: stop_route.job.load,
        station: stop_station(stop_route.stop.kind, &stop_route.job),
        place_at: place,
        status: Status::Waiting,
    }
}

/// Returns the station where the load is picked or dropped.
fn stop_station(kind: ActKind, job: &Job) -> Name
    ensures { result ≡ stop_station kind job.now }
{
    match kind {
        ActKind::Pick => job.origin,
        ActKind::Drop => job.target,
    }
}
