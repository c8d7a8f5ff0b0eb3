//! The export of jobs.
ghost use Rattle.std.specs.Prelude.{◌≡◌, ◌++◌, IfOk, OnOk, string_bytes};
ghost use Rattle.std.specs.Option.{option_copied};
ghost use Rattle.agv_count_exports.specs.Exports.{job_line, job_text, jobs_text, order_name, carrier_of, carrier_text};

use crate::VehicleTold;
use crate::carriers::carrier_of;
use agv_header::{Memory, Name};
use agv_order::Trip;
use agv_world_core::JobRow;
use std::alloc::Global;

/// Exports jobs as CSV: the header `job,load,from,to,phase,manufacturer,serialNumber,order`, and a record for each job,
/// in the order given. The last three fields are those of the vehicle whose open trip has an unfinished drop of the
/// job, and of its order; they are empty if there is none. The desk gives the live jobs in the order of their names,
/// and all vehicles. Each record ends in LF alone.
///
/// Returns `Memory` only when out of memory.
pub fn jobs_csv(
    alloc: Global,
    jobs: &[(Name, JobRow)],
    vehicles: &[VehicleTold],
) -> Result<Vec<u8>, Memory>
    ensures { IfOk result (λ export. export.items ≡ jobs_text jobs.now vehicles.now) }
{
    let mut out = String::new(alloc);
    writeln!(
        out,
        "job,load,from,to,phase,manufacturer,serialNumber,order"
    )?;
    for (job, row) in jobs {
        write_job(&mut out, *job, *row, vehicles)?;
    }
    Ok(out.into_bytes())
}

/// Writes the record of a job.
fn write_job(
    out: &mut String,
    job: Name,
    row: JobRow,
    vehicles: &[VehicleTold],
) -> Result<(), Memory>
    ensures { OnOk result (string_bytes out.new ≡ string_bytes out.old ++ job_line vehicles.now (job, row)) }
{
    write_row(out, job, row)?;
    write!(out, ",")?;
    write_carrier(out, carrier_of(vehicles, job))?;
    writeln!(out)?;
    Ok(())
}

/// Writes the fields of a job that its row has.
fn write_row(out: &mut String, job: Name, row: JobRow) -> Result<(), Memory>
    ensures { OnOk result (string_bytes out.new ≡ string_bytes out.old ++ job_text (job, row)) }
{
    write!(out, "{job},{},", row.load)?;
    write!(out, "{},{},", row.origin, row.target)?;
    write!(out, "{}", row.phase.name())?;
    Ok(())
}

/// Writes the fields of a job's vehicle and of its order, which are empty without a vehicle.
fn write_carrier(out: &mut String, carrier: Option<&VehicleTold>) -> Result<(), Memory>
    ensures { OnOk result (string_bytes out.new ≡ string_bytes out.old ++ carrier_text (option_copied carrier.entry)) }
{
    match carrier {
        Some(vehicle) => {
            write!(out, "{},{},", vehicle.key.manufacturer, vehicle.key.serial)?;
            write_order(out, &vehicle.trip)?;
        }
        None => write!(out, ",,")?,
    }
    Ok(())
}

/// Writes the name of a trip's order, or nothing without a trip.
fn write_order(out: &mut String, trip: &Option<Trip>) -> Result<(), Memory>
    ensures { OnOk result (string_bytes out.new ≡ string_bytes out.old ++ order_name trip.now) }
{
    match trip {
        Some(trip) => write!(out, "{}", trip.order)?,
        None => {}
    }
    Ok(())
}
