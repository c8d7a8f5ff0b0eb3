//! The stocktake: it compares what was counted with what is recorded.
ghost use Rattle.std.specs.Prelude.{◌≡◌, ◌++◌, ◌∷◌, [], true, map, filter_map, length, IfOk};
ghost use Rattle.agv_stock.specs.declared.place.Place.{Place as PlaceOf};
ghost use Rattle.agv_world_core.specs.Asks.{Asks};
ghost use Rattle.agv_world_core.specs.declared.change.Change.TheVariants as row;
ghost use Rattle.agv_desk.specs.CountParts.{count_by_parts, counted_effect, found_in, counted_loads, stations_in};
ghost use Rattle.agv_desk.specs.Outcomes.{Made, decided};
ghost use Rattle.agv_desk.specs.Shared.{reference_key};
ghost use Rattle.agv_desk.specs.StocktakeSteps.{are_known, count_loads, take_stock};

mod counted_load;
mod counted_load_list;
mod found;
mod moves;
mod room;
mod standing;
mod stations;

use crate::decisions::{made_with, refused};
use crate::shared::{is_new, reference_used};
use crate::stocktake::counted_load::CountedLoad;
use crate::stocktake::counted_load_list::{look_up, some_on_vehicle, unknown};
use crate::stocktake::found::found_loads;
use crate::stocktake::moves::{Count, moves_in_job};
use crate::stocktake::room::all_fit;
use crate::stocktake::standing::{by_load, standing_loads};
use crate::stocktake::stations::counted_stations;
use crate::{Answer, Decision};
use agv_header::limits::MAX_RECORDS;
use agv_header::{Memory, Name, Refusal};
use agv_message_core::Sequence;
use agv_stock::Place;
use agv_world_core::{Change, Counted, Fault, Floor};
use std::alloc::Global;

/// Takes stock. Each known load that was found is recorded at the station where it was found; each load
/// that was recorded at a counted station and was not found is recorded at the checking place.
///
/// It asks the floor three questions for each counted station, one for each found load that is recorded at none of
/// them, and one for each load that moves. Everything else takes time in proportion to the rows and to the loads at the
/// counted stations, times the logarithm of their number.
pub(crate) fn take_stock<F: Floor>(
    alloc: Global,
    floor: &mut F,
    reference: Name,
    rows: &[(Name, Option<Name>)],
) -> Result<Decision, Fault>
    ensures { Asks F.facts floor.old floor.new result (λ world decision. decision ≡ decided (take_stock world reference rows.now)) }
{
    if !is_new(floor, reference)? {
        return Ok(refused(alloc, Refusal::RefUsed));
    }
    let Some(stations) = counted_stations(alloc, floor, rows)? else {
        return Ok(refused(alloc, Refusal::NoStation));
    };
    let Some(found) = found_loads(alloc, rows)? else {
        return Ok(refused(alloc, Refusal::CountTwice));
    };
    let standing = standing_loads(alloc, floor, &stations)?;
    let places = by_load(alloc, &standing)?;
    let counted_list = look_up(alloc, floor, &places, rows)?;
    let count = Count {
        stations,
        found,
        standing,
    };
    count_loads(alloc, floor, reference, &count, &counted_list)
}

/// Returns the decision, after the stations and the found loads are known.
fn count_loads<F: Floor>(
    alloc: Global,
    floor: &mut F,
    reference: Name,
    count: &Count,
    counted_list: &[CountedLoad],
) -> Result<Decision, Fault>
    ensures { Asks F.facts floor.old floor.new result (λ world decision. decision ≡ decided (count_by_parts world reference count.now.stations count.now.found counted_list.now count.now.standing.items)) }
{
    if some_on_vehicle(counted_list) {
        return Ok(refused(alloc, Refusal::OnVehicle));
    }
    let moves = count.moves(alloc, counted_list)?;
    if moves_in_job(floor, &moves)? {
        return Ok(refused(alloc, Refusal::InJob));
    }
    if !all_fit(alloc, floor, &count.stations, counted_list)? {
        return Ok(refused(alloc, Refusal::Full));
    }
    if floor.count(Counted::References)? >= MAX_RECORDS {
        return Ok(refused(alloc, Refusal::Limit));
    }
    Ok(counted_decision(alloc, reference, &moves, counted_list)?)
}

/// Returns the effect of these moves.
fn counted_decision(
    alloc: Global,
    reference: Name,
    moves: &[(Name, Place)],
    counted_list: &[CountedLoad],
) -> Result<Decision, Memory>
    ensures { IfOk result (λ decision. decision ≡ decided (Made (counted_effect reference moves.now counted_list.now))) }
{
    let unknown = unknown(alloc, counted_list)?;
    let changes = changes(alloc, reference, moves)?;
    let answer = Answer::Counted {
        moved: moves.len(),
        unknown: Sequence::from(unknown),
    };
    Ok(made_with(answer, changes))
}

/// Returns the changes that put the loads at their new places and use the reference.
fn changes(alloc: Global, reference: Name, moves: &[(Name, Place)]) -> Result<Vec<Change>, Memory>
    ensures { IfOk result (λ changes. changes.items ≡ map (λ move. row.Load move.0 move.1) moves.now ++ (row.Used (reference_key reference) ∷ [])) }
{
    let mut changes = Vec::new(alloc);
    for (load, place) in moves {
        changes.push(Change::Load(*load, *place))?;
    }
    changes.push(reference_used(reference))?;
    Ok(changes)
}
