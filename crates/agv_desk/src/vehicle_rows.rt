//! The changes of the rows of a vehicle, its trip and its holds.
ghost use Rattle.std.specs.Prelude.{◌≡◌, ◌≤◌, ◌++◌, Some, length, IfOk, OnOk};
ghost use Rattle.agv_track_holds.specs.Footprints.{footprint_of};
ghost use Rattle.agv_world_core.specs.Maps.{trip_row};
ghost use Rattle.agv_world_core.specs.SameRows.{same_row, same_trip_row};
ghost use Rattle.agv_world_core.specs.VehicleChanges.{hold_changes, leg_removals, leg_writes, own_changes, trip_changes};
ghost use Rattle.agv_desk.specs.Sizes.{IsShort};

use crate::holds::push_holds;
use agv_header::{Memory, Name, VehicleKey};
use agv_layout::Edge;
use agv_order::Trip;
use agv_track_holds::{Standing, footprint};
use agv_world_core::{Change, LegKey, TripRow, VehicleRow};
use std::alloc::Global;

/// Pushes the changes of a vehicle's row, its trip with the edges, and its holds, as far as they change.
pub(crate) fn push_vehicle(
    alloc: Global,
    key: &VehicleKey,
    before: &VehicleRow,
    old: &Standing,
    vehicle: VehicleRow,
    new: &Standing,
    changes: &mut Vec<Change>,
) -> Result<(), Memory>
    requires old_short { IsShort old.now.trip }
    requires new_short { IsShort new.now.trip }
    ensures { OnOk result (changes.new.items ≡ changes.old.items ++ (own_changes key.now (Some before.now) vehicle ++ (trip_changes key.now old.now.trip new.now.trip ++ hold_changes key.now (footprint_of old.now) (footprint_of new.now)))) }
{
    let held = footprint(alloc, old)?;
    let holds = footprint(alloc, new)?;
    push_row(key, before, vehicle, changes)?;
    push_trip(key, &old.trip, &new.trip, changes)?;
    push_holds(key, &held, &holds, changes)
}

/// Pushes the change of a vehicle's row, if the row changes.
pub(crate) fn push_row(
    key: &VehicleKey,
    old: &VehicleRow,
    new: VehicleRow,
    changes: &mut Vec<Change>,
) -> Result<(), Memory>
    ensures { OnOk result (changes.new.items ≡ changes.old.items ++ own_changes key.now (Some old.now) new) }
{
    if !same_row(old, &new) {
        changes.push(Change::Vehicle(*key, new))?;
    }
    Ok(())
}

/// Returns whether the row of a vehicle is unchanged.
fn same_row(old: &VehicleRow, new: &VehicleRow) -> bool
    ensures { result ≡ same_row old.now new.now }
{
    *old == *new
}

/// Pushes the changes of a trip that begins, ends or goes on. One that goes on keeps its order and its edges.
fn push_trip(
    key: &VehicleKey,
    old: &Option<Trip>,
    new: &Option<Trip>,
    changes: &mut Vec<Change>,
) -> Result<(), Memory>
    requires old_short { IsShort old.now }
    requires new_short { IsShort new.now }
    ensures { OnOk result (changes.new.items ≡ changes.old.items ++ trip_changes key.now old.now new.now) }
{
    match (old, new) {
        (None, None) => Ok(()),
        (None, Some(begun)) => {
            changes.push(Change::Trip(begun.order, Some(trip_row(key, begun)?)))?;
            push_legs(&begun.order, begun.edges.as_slice(), changes)
        }
        (Some(ended), None) => {
            changes.push(Change::Trip(ended.order, None))?;
            remove_legs(&ended.order, ended.edges.as_slice(), changes)
        }
        (Some(was), Some(on)) if same_trip_row(was, on) => Ok(()),
        (Some(_), Some(on)) => {
            changes.push(Change::Trip(on.order, Some(trip_row(key, on)?)))?;
            Ok(())
        }
    }
}

/// Returns the row of a trip.
fn trip_row(key: &VehicleKey, trip: &Trip) -> Result<TripRow, Memory>
    ensures { IfOk result (λ made. made ≡ trip_row key.now trip.now) }
{
    Ok(TripRow {
        vehicle: *key,
        start: trip.start,
        first: trip.first,
        base: trip.base,
        sent: trip.sent,
        confirmed: trip.confirmed,
        seen: trip.seen,
        acts: trip.acts.copy()?,
    })
}

/// Pushes the changes that write a row for each edge of a trip.
fn push_legs(order: &Name, edges: &[Edge], changes: &mut Vec<Change>) -> Result<(), Memory>
    requires { length edges.now ≤ 200 }
    ensures { OnOk result (changes.new.items ≡ changes.old.items ++ leg_writes order.now edges.now) }
{
    for (k, edge) in edges.iter().enumerate() {
        let key = LegKey {
            order: *order,
            k: k as u32,
        };
        changes.push(Change::Leg(key, Some(edge.id)))?;
    }
    Ok(())
}

/// Pushes the changes that remove the rows of the edges of a trip.
fn remove_legs(order: &Name, edges: &[Edge], changes: &mut Vec<Change>) -> Result<(), Memory>
    requires { length edges.now ≤ 200 }
    ensures { OnOk result (changes.new.items ≡ changes.old.items ++ leg_removals order.now edges.now) }
{
    for (k, _) in edges.iter().enumerate() {
        let key = LegKey {
            order: *order,
            k: k as u32,
        };
        changes.push(Change::Leg(key, None))?;
    }
    Ok(())
}

/// Returns whether the row of a trip is unchanged.
fn same_trip_row(old: &Trip, new: &Trip) -> bool
    ensures { result ≡ same_trip_row old.now new.now }
{
    old.start == new.start
        && old.first == new.first
        && old.base == new.base
        && old.sent == new.sent
        && old.confirmed == new.confirmed
        && old.seen == new.seen
        && old.acts == new.acts
}
