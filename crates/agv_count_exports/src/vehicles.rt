//! The export of vehicles.
ghost use Rattle.std.specs.Prelude.{◌≡◌, ◌++◌, IfOk, OnOk, Some, decimal, string_bytes};
ghost use Rattle.agv_message_core.specs.Instant.{instant_name};
ghost use Rattle.agv_count_exports.specs.Exports.{or_empty, rest_text, row_text, trip_text, truth_word, vehicle_line, vehicles_text};

use crate::VehicleTold;
use agv_header::{Memory, Name};
use agv_message_core::InstantKind;
use agv_order::Trip;
use agv_world_core::VehicleRow;
use std::alloc::Global;

/// Exports vehicles as CSV: the header
/// `manufacturer,serialNumber,node,capacity,ready,paused,astray,headerId,pending,order,sent,confirmed,released,edges,seen,restEdge,restNode`,
/// and a record for each vehicle, in the order given. The desk gives all vehicles in the order of their keys.
/// `released` is the number of released edges of the open order's way, `edges` the number of all, and `seen` the number
/// of those behind the vehicle. Fields without a value are empty. Each record ends in LF alone.
///
/// Returns `Memory` only when out of memory.
pub fn vehicles_csv(alloc: Global, vehicles: &[VehicleTold]) -> Result<Vec<u8>, Memory>
    ensures { IfOk result (λ export. export.items ≡ vehicles_text vehicles.now) }
{
    let mut out = String::new(alloc);
    writeln!(
        out,
        "manufacturer,serialNumber,node,capacity,ready,paused,astray,headerId,pending,order,sent,confirmed,released,edges,seen,restEdge,restNode"
    )?;
    for vehicle in vehicles {
        write_vehicle(&mut out, vehicle)?;
    }
    Ok(out.into_bytes())
}

/// Writes the record of a vehicle.
fn write_vehicle(out: &mut String, vehicle: &VehicleTold) -> Result<(), Memory>
    ensures { OnOk result (string_bytes out.new ≡ string_bytes out.old ++ vehicle_line vehicle.now) }
{
    write!(out, "{},{},", vehicle.key.manufacturer, vehicle.key.serial)?;
    write_row(out, vehicle.row)?;
    write!(out, ",")?;
    write_trip(out, &vehicle.trip)?;
    write!(out, ",")?;
    write_rest(out, vehicle.row.rest)?;
    writeln!(out)?;
    Ok(())
}

/// Writes the fields of a vehicle's row, all but the edge and the node of its rest.
fn write_row(out: &mut String, row: VehicleRow) -> Result<(), Memory>
    ensures { OnOk result (string_bytes out.new ≡ string_bytes out.old ++ row_text row) }
{
    write!(out, "{},{},", row.node, row.capacity)?;
    write!(out, "{},{},", truth_word(row.ready), truth_word(row.paused))?;
    write!(out, "{},", truth_word(row.rest.is_some()))?;
    write_number(out, row.last_header)?;
    write!(out, ",")?;
    write_pending(out, row.pending)
}

/// Returns the word for a truth value.
fn truth_word(truth: bool) -> &'static str
    ensures { result.now ≡ truth_word truth }
{
    if truth { "true" } else { "false" }
}

/// Writes the fields of an open trip, which are empty without one.
fn write_trip(out: &mut String, trip: &Option<Trip>) -> Result<(), Memory>
    ensures { OnOk result (string_bytes out.new ≡ string_bytes out.old ++ trip_text trip.now) }
{
    match trip {
        Some(trip) => write_open_trip(out, trip)?,
        None => write!(out, ",,,,,")?,
    }
    Ok(())
}

/// Writes the fields of an open trip.
fn write_open_trip(out: &mut String, trip: &Trip) -> Result<(), Memory>
    ensures { OnOk result (string_bytes out.new ≡ string_bytes out.old ++ trip_text (Some trip.now)) }
{
    write!(out, "{},{},", trip.order, trip.sent)?;
    write_number(out, trip.confirmed)?;
    write!(out, ",{},{},{}", trip.base, trip.edges.len(), trip.seen)?;
    Ok(())
}

/// Writes the edge and the node of a rest, which are empty without one.
fn write_rest(out: &mut String, rest: Option<(Name, Name)>) -> Result<(), Memory>
    ensures { OnOk result (string_bytes out.new ≡ string_bytes out.old ++ rest_text rest) }
{
    match rest {
        Some((edge, node)) => write!(out, "{edge},{node}")?,
        None => write!(out, ",")?,
    }
    Ok(())
}

/// Writes a number, or nothing without one.
fn write_number(out: &mut String, number: Option<u32>) -> Result<(), Memory>
    ensures { OnOk result (string_bytes out.new ≡ string_bytes out.old ++ or_empty decimal number) }
{
    match number {
        Some(number) => write!(out, "{number}")?,
        None => {}
    }
    Ok(())
}

/// Writes the name of a pending instant action, or nothing without one.
fn write_pending(out: &mut String, pending: Option<InstantKind>) -> Result<(), Memory>
    ensures { OnOk result (string_bytes out.new ≡ string_bytes out.old ++ or_empty instant_name pending) }
{
    match pending {
        Some(kind) => write!(out, "{}", kind.name())?,
        None => {}
    }
    Ok(())
}
