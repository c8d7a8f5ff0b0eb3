//! The report of the stock.
ghost use Rattle.std.specs.Prelude.{◌≡◌, ◌++◌, IfOk, OnOk, string_bytes};
ghost use Rattle.std.specs.List.{count_by, flat_map};
ghost use Rattle.agv_header.specs.Key.{key_cmp};
ghost use Rattle.agv_header.specs.Name.{name_cmp};
ghost use Rattle.agv_count.specs.Reports.{checking_part, left_part, listed, station_part, stock_text, vehicle_part};
ghost use Rattle.agv_stock.specs.Rooms.{has_left};
ghost use Rattle.agv_count.specs.LoadsByPlace.{loads_at};

use crate::loads_by_place::{LoadsByPlace, PlacedLoads, loads_at};
use agv_header::{Memory, Name, VehicleKey};
use agv_layout::Station;
use agv_stock::Place;
use std::alloc::Global;

/// Reports the stock: each station with the loads there and the number of live jobs to it, the loads at the checking
/// place, each vehicle with the loads on it, and how many loads have left.
///
/// All is in the order given. The desk gives stations, loads and vehicles in the order of their names. A load whose
/// station or vehicle isn't given is left out. The time is that of the stations, the loads and the vehicles, each
/// load times the depth of a map. Returns `Memory` only when out of memory.
pub fn stock_report(
    alloc: Global,
    stations: &[(Station, u32)],
    loads: &[(Name, Place)],
    vehicles: &[VehicleKey],
) -> Result<Vec<u8>, Memory>
    ensures { IfOk result (λ report. report.items ≡ stock_text stations.now loads.now vehicles.now) }
{
    let by_place = LoadsByPlace::of_loads(alloc, loads)?;
    let mut out = String::new(alloc);
    write_stations(&mut out, stations, &by_place.stations)?;
    write_checking(&mut out, &by_place.checking)?;
    write_vehicles(&mut out, vehicles, &by_place.vehicles)?;
    write_left(&mut out, left_count(loads))?;
    Ok(out.into_bytes())
}

/// Writes the stations, one after another.
fn write_stations(
    out: &mut String,
    stations: &[(Station, u32)],
    placed: &PlacedLoads<Name>,
) -> Result<(), Memory>
    ensures { OnOk result (string_bytes out.new ≡ string_bytes out.old
        ++ flat_map (λ s. station_part (loads_at name_cmp placed.now s.0.id) s.0 s.1) stations.now) }
{
    for (station, reserved) in stations {
        write_station(out, *station, *reserved, loads_at(placed, station.id))?;
    }
    Ok(())
}

/// Writes a station and the loads there.
fn write_station(
    out: &mut String,
    station: Station,
    reserved: u32,
    here: &[Name],
) -> Result<(), Memory>
    ensures { OnOk result (string_bytes out.new ≡ string_bytes out.old ++ station_part here.now station reserved) }
{
    write!(out, "station {} at {}: ", station.id, station.node)?;
    write!(out, "{} of {}", here.len(), station.capacity)?;
    writeln!(out, ", reserved {reserved}")?;
    write_loads(out, here)
}

/// Writes loads, each on its own line.
fn write_loads(out: &mut String, loads: &[Name]) -> Result<(), Memory>
    ensures { OnOk result (string_bytes out.new ≡ string_bytes out.old ++ listed loads.now) }
{
    for load in loads {
        writeln!(out, "  {load}")?;
    }
    Ok(())
}

/// Writes the checking place and the loads there.
fn write_checking(out: &mut String, here: &[Name]) -> Result<(), Memory>
    ensures { OnOk result (string_bytes out.new ≡ string_bytes out.old ++ checking_part here.now) }
{
    writeln!(out, "checking: {}", here.len())?;
    write_loads(out, here)
}

/// Writes the vehicles, one after another.
fn write_vehicles(
    out: &mut String,
    vehicles: &[VehicleKey],
    placed: &PlacedLoads<VehicleKey>,
) -> Result<(), Memory>
    ensures { OnOk result (string_bytes out.new ≡ string_bytes out.old
        ++ flat_map (λ key. vehicle_part (loads_at key_cmp placed.now key) key) vehicles.now) }
{
    for key in vehicles {
        write_vehicle(out, *key, loads_at(placed, *key))?;
    }
    Ok(())
}

/// Writes a vehicle and the loads on it.
fn write_vehicle(out: &mut String, key: VehicleKey, here: &[Name]) -> Result<(), Memory>
    ensures { OnOk result (string_bytes out.new ≡ string_bytes out.old ++ vehicle_part here.now key) }
{
    write!(out, "vehicle {}/{}", key.manufacturer, key.serial)?;
    writeln!(out, ": {}", here.len())?;
    write_loads(out, here)
}

/// Writes the number of loads that have left.
fn write_left(out: &mut String, gone: usize) -> Result<(), Memory>
    ensures { OnOk result (string_bytes out.new ≡ string_bytes out.old ++ left_part gone) }
{
    writeln!(out, "left: {gone}")?;
    Ok(())
}

/// Returns the number of loads that have left.
fn left_count(loads: &[(Name, Place)]) -> usize
    ensures { result ≡ count_by (λ l. has_left l.1) loads.now }
{
    loads.iter().filter(|load| load.1.has_left()).count()
}
