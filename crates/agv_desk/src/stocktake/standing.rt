//! The loads that are recorded at the stations of a stocktake.
ghost use Rattle.std.specs.Prelude.{◌≡◌, ◌++◌, IfOk, OnOk};
ghost use Rattle.std.specs.FinMap as map;
ghost use Rattle.agv_world_core.specs.Asks.{Asks};
ghost use Rattle.agv_world_core.specs.Questions.{loads_at};
ghost use Rattle.agv_world_core.specs.Worlds.{World};
ghost use Rattle.agv_desk.specs.CountParts.{AreThere, Tells, standing, standing_at};

use agv_header::{Memory, Name};
use agv_layout::StationSite;
use agv_stock::Place;
use agv_world_core::{ByName, Fault, Floor};
use std::alloc::Global;

/// Returns the loads that are recorded at the stations, with their places.
pub(crate) fn standing_loads<F: Floor>(
    alloc: Global,
    floor: &mut F,
    stations: &ByName<StationSite>,
) -> Result<Vec<(Name, Place)>, Fault>
    ensures { Asks F.facts floor.old floor.new result (λ world loads. loads.items ≡ standing world (map.entries stations.now)) }
{
    let stations = stations.list(alloc)?;
    standing_at_each(alloc, floor, &stations)
}

/// Returns the loads that are recorded at these stations, in their order, with their places.
fn standing_at_each<F: Floor>(
    alloc: Global,
    floor: &mut F,
    stations: &[(Name, StationSite)],
) -> Result<Vec<(Name, Place)>, Fault>
    ensures { Asks F.facts floor.old floor.new result (λ world loads. loads.items ≡ standing world stations.now) }
{
    let mut standing = Vec::new(alloc);
    for (station, _) in stations {
        note_standing(floor, &mut standing, *station)?;
    }
    Ok(standing)
}

/// Adds the loads that are recorded at a station.
fn note_standing<F: Floor>(
    floor: &mut F,
    standing: &mut Vec<(Name, Place)>,
    station: Name,
) -> Result<(), Fault>
    ensures { Asks F.facts floor.old floor.new result (λ world done. standing.new.items ≡ standing.old.items ++ standing_at station (loads_at world station)) }
{
    let loads = floor.loads_at(station)?;
    note_loads(standing, station, loads.as_slice())?;
    Ok(())
}

/// Adds these loads, with the station as their place.
fn note_loads(
    standing: &mut Vec<(Name, Place)>,
    station: Name,
    loads: &[Name],
) -> Result<(), Memory>
    ensures { OnOk result (standing.new.items ≡ standing.old.items ++ standing_at station loads.now) }
{
    for load in loads {
        standing.push((*load, Place::Station(station)))?;
    }
    Ok(())
}

/// Returns these loads' places by the loads' names.
pub(crate) fn by_load(alloc: Global, loads: &[(Name, Place)]) -> Result<ByName<Place>, Memory>
    ensures { IfOk result (λ places. (world : World) → AreThere world loads.now → Tells world places) }
{
    let mut places = ByName::new(alloc);
    for (load, place) in loads {
        places.insert(*load, *place)?;
    }
    Ok(places)
}
