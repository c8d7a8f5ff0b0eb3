//! The loads that a stocktake has found, with what is known of each.
ghost use Rattle.std.specs.Prelude.{◌≡◌, ℕ, ◌<◌, List, IfOk, OnOk};
ghost use Rattle.std.specs.FinMap as map;
ghost use Rattle.std.specs.List.{list_any, filter_map};
ghost use Rattle.std.specs.Option.{unwrap_or};
ghost use Rattle.agv_world_core.specs.Asks.{Asks};
ghost use Rattle.agv_desk.specs.CountParts.{Tells, counted_loads, unknown_one, counted_up, count_at, with_counted_load};
ghost use Rattle.agv_desk.specs.StocktakeSteps.{is_on_vehicle};

use crate::stocktake::counted_load::CountedLoad;
use agv_header::{Memory, Name};
use agv_stock::Place;
use agv_world_core::{ByName, Fault, Floor};
use std::alloc::Global;

/// Looks up the places of the loads of the rows, in their order: in `places`, or else by asking the floor.
pub(crate) fn look_up<F: Floor>(
    alloc: Global,
    floor: &mut F,
    places: &ByName<Place>,
    rows: &[(Name, Option<Name>)],
) -> Result<Vec<CountedLoad>, Fault>
    ensures { Asks F.facts floor.old floor.new result (λ world counted_list. Tells world places.now → counted_list.items ≡ counted_loads world rows.now) }
{
    let mut counted_list = Vec::new(alloc);
    for (station, load) in rows {
        note_counted_load(floor, places, &mut counted_list, *station, *load)?;
    }
    Ok(counted_list)
}

/// Looks up the load of a row, if it has one.
fn note_counted_load<F: Floor>(
    floor: &mut F,
    places: &ByName<Place>,
    counted_list: &mut Vec<CountedLoad>,
    station: Name,
    load: Option<Name>,
) -> Result<(), Fault>
    ensures { Asks F.facts floor.old floor.new result (λ world done. Tells world places.now → counted_list.new.items ≡ with_counted_load world counted_list.old.items station load) }
{
    if let Some(load) = load {
        let place = place_of(floor, places, load)?;
        counted_list.push(CountedLoad {
            station,
            load,
            place,
        })?;
    }
    Ok(())
}

/// Returns where the load is recorded: by `places`, or else by asking the floor.
fn place_of<F: Floor>(
    floor: &mut F,
    places: &ByName<Place>,
    load: Name,
) -> Result<Option<Place>, Fault>
    ensures { Asks F.facts floor.old floor.new result (λ world place. Tells world places.now → place ≡ map.get world.places load) }
{
    if let Some(place) = places.get(load) {
        return Ok(Some(*place));
    }
    floor.place(load)
}

/// Returns whether one of the loads is recorded on a vehicle.
pub(crate) fn some_on_vehicle(counted_list: &[CountedLoad]) -> bool
    ensures { result ≡ list_any (λ one. is_on_vehicle one.place) counted_list.now }
{
    counted_list.iter().any(|one| one.is_on_vehicle())
}

/// Returns the loads that are unknown or have left, in the order of the rows.
pub(crate) fn unknown(alloc: Global, counted_list: &[CountedLoad]) -> Result<Vec<Name>, Memory>
    ensures { IfOk result (λ names. names.items ≡ filter_map unknown_one counted_list.now) }
{
    let mut unknown = Vec::new(alloc);
    for one in counted_list {
        if !one.is_here() {
            unknown.push(one.load)?;
        }
    }
    Ok(unknown)
}

/// Returns how many known loads that have not left were found at each station.
pub(crate) fn counts(alloc: Global, counted_list: &[CountedLoad]) -> Result<ByName<usize>, Memory>
    ensures { IfOk result (λ counts. (station : List ℕ) → unwrap_or (map.get counts station) 0 ≡ count_at counted_list.now station) }
{
    let mut counts = ByName::new(alloc);
    for one in counted_list {
        count_up(&mut counts, one)?;
    }
    Ok(counts)
}

/// Counts a load at the station where it was found, if it is known and has not left.
fn count_up(counts: &mut ByName<usize>, one: &CountedLoad) -> Result<(), Memory>
    requires { unwrap_or (map.get counts.old one.now.station) 0 < usize.MAX }
    ensures { OnOk result ((station : List ℕ) → unwrap_or (map.get counts.new station) 0 ≡ counted_up one.now (unwrap_or (map.get counts.old station) 0) station) }
{
    if one.is_here() {
        let count = counts.get(one.station).copied().unwrap_or(0);
        counts.insert(one.station, count + 1)?;
    }
    Ok(())
}
