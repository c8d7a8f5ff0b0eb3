//! The stations of a stocktake.
ghost use Rattle.std.specs.Prelude.{◌≡◌};
ghost use Rattle.std.specs.FinMap as map;
ghost use Rattle.agv_world_core.specs.Asks.{Asks};
ghost use Rattle.agv_desk.specs.CountParts.{AreCounted, noted_station};

use agv_header::Name;
use agv_layout::StationSite;
use agv_world_core::{ByName, Fault, Floor};
use std::alloc::Global;

/// Returns the stations of the rows, or `None` if one of them is unknown.
pub(crate) fn counted_stations<F: Floor>(
    alloc: Global,
    floor: &mut F,
    rows: &[(Name, Option<Name>)],
) -> Result<Option<ByName<StationSite>>, Fault>
    ensures { Asks F.facts floor.old floor.new result (λ world stations. AreCounted world rows.now stations) }
{
    let mut stations = ByName::new(alloc);
    for (station, _) in rows {
        if !note_station(floor, &mut stations, *station)? {
            return Ok(None);
        }
    }
    Ok(Some(stations))
}

/// Notes the station, and returns whether it is known. It asks the floor only for a station that is not noted yet.
fn note_station<F: Floor>(
    floor: &mut F,
    stations: &mut ByName<StationSite>,
    id: Name,
) -> Result<bool, Fault>
    ensures { Asks F.facts floor.old floor.new result (λ world known. (known, stations.new) ≡ noted_station stations.old id (map.get stations.old id) (map.get world.layout.stations id)) }
{
    if stations.get(id).is_some() {
        return Ok(true);
    }
    let Some(site) = floor.station(id)? else {
        return Ok(false);
    };
    stations.insert(id, site)?;
    Ok(true)
}
