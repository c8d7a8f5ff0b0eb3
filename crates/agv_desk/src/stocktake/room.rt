//! Whether the loads that a stocktake has found fit.
ghost use Rattle.std.specs.Prelude.{◌≡◌, ℕ, List};
ghost use Rattle.std.specs.FinMap as map;
ghost use Rattle.std.specs.List.{list_all};
ghost use Rattle.std.specs.Option.{unwrap_or};
ghost use Rattle.agv_world_core.specs.Asks.{Asks};
ghost use Rattle.agv_world_core.specs.Questions.{reserved};
ghost use Rattle.agv_desk.specs.CountParts.{has_room_for, all_have_room, count_at};

use crate::stocktake::counted_load::CountedLoad;
use crate::stocktake::counted_load_list::counts;
use agv_header::Name;
use agv_layout::StationSite;
use agv_world_core::{ByName, Fault, Floor};
use std::alloc::Global;

/// Returns whether, at each of the stations, the known loads that were found fit, with the live
/// jobs to it.
pub(crate) fn all_fit<F: Floor>(
    alloc: Global,
    floor: &mut F,
    stations: &ByName<StationSite>,
    counted_list: &[CountedLoad],
) -> Result<bool, Fault>
    ensures { Asks F.facts floor.old floor.new result (λ world fit. fit ≡ all_have_room world counted_list.now (map.entries stations.now)) }
{
    let counts = counts(alloc, counted_list)?;
    let stations = stations.list(alloc)?;
    each_fits(floor, &counts, &stations)
}

/// Returns whether the loads that were found at each of the stations fit there, with the live jobs to it.
fn each_fits<F: Floor>(
    floor: &mut F,
    counts: &ByName<usize>,
    stations: &[(Name, StationSite)],
) -> Result<bool, Fault>
    ensures { Asks F.facts floor.old floor.new result (λ world fit. fit ≡ list_all (λ station. has_room_for (unwrap_or (map.get counts.now station.0) 0) (reserved world station.0) station.1) stations.now) }
{
    for (station, site) in stations {
        if !fits(floor, counts, *station, *site)? {
            return Ok(false);
        }
    }
    Ok(true)
}

/// Returns whether the loads that were found at a station fit there, with the live jobs to it.
fn fits<F: Floor>(
    floor: &mut F,
    counts: &ByName<usize>,
    station: Name,
    site: StationSite,
) -> Result<bool, Fault>
    ensures { Asks F.facts floor.old floor.new result (λ world fits. fits ≡ has_room_for (unwrap_or (map.get counts.now station) 0) (reserved world station) site) }
{
    let found = counts.get(station).copied().unwrap_or(0);
    let reserved = floor.reserved(station)?;
    Ok(has_room_for(found, reserved, site))
}

/// Returns whether this many loads and jobs fit at the station.
fn has_room_for(found: usize, reserved: usize, site: StationSite) -> bool
    ensures { result ≡ has_room_for found reserved site }
{
    found.saturating_add(reserved) <= site.capacity as usize
}
