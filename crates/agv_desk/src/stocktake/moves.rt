//! Where a stocktake puts the loads.
ghost use Rattle.std.specs.Prelude.{◌≡◌, List, IfOk, OnOk};
ghost use Rattle.std.specs.FinMap as map;
ghost use Rattle.std.specs.List.{list_any};
ghost use Rattle.agv_world_core.specs.Asks.{Asks};
ghost use Rattle.agv_desk.specs.CountParts.{moves_in, with_new_place, recorded, settled};
ghost use Rattle.agv_desk.specs.Shared.{is_in_job};
ghost use Rattle.agv_desk.specs.StocktakeSteps.{from_station, new_place};

use crate::stocktake::counted_load::CountedLoad;
use agv_header::{Memory, Name};
use agv_layout::StationSite;
use agv_stock::Place;
use agv_world_core::{ByName, Fault, Floor};
use std::alloc::Global;

/// The stations that were counted, and the loads that were found or are recorded there.
#[derive(Drop)]
pub(crate) struct Count {
    /// The stations that were counted.
    pub(crate) stations: ByName<StationSite>,
    /// The station at which each found load was found.
    pub(crate) found: ByName<Name>,
    /// The loads that are recorded at these stations, with their places.
    pub(crate) standing: Vec<(Name, Place)>,
}

impl Count {
    /// Returns the loads that move, with their new places, in the order of the loads' names.
    #[tactic(auto, unfolding(crate::specs::CountParts::moves_in))]
    pub(crate) fn moves(
        &self,
        alloc: Global,
        counted_list: &[CountedLoad],
    ) -> Result<Vec<(Name, Place)>, Memory>
        ensures { IfOk result (λ moves. moves.items ≡ map.entries (moves_in self.now.stations self.now.found counted_list.now self.now.standing.items)) }
    {
        let mut moves = ByName::new(alloc);
        self.settle_found(&mut moves, counted_list)?;
        self.settle_standing(&mut moves, self.standing.as_slice())?;
        moves.list(alloc)
    }

    /// Notes the new places of the found loads that move.
    #[tactic(auto, unfolding(crate::specs::CountParts::settled))]
    fn settle_found(
        &self,
        moves: &mut ByName<Place>,
        counted_list: &[CountedLoad],
    ) -> Result<(), Memory>
        ensures { OnOk result (moves.new ≡ settled (map.contains_key self.now.stations) self.now.found moves.old (recorded counted_list.now)) }
    {
        for one in counted_list {
            if let Some(place) = one.place {
                self.settle(moves, one.load, place)?;
            }
        }
        Ok(())
    }

    /// Notes the new place of a load that is recorded at this place, if it moves.
    fn settle(&self, moves: &mut ByName<Place>, load: Name, place: Place) -> Result<(), Memory>
        ensures { OnOk result (moves.new ≡ with_new_place moves.old load (new_place (map.contains_key self.now.stations) (map.get self.now.found load) place)) }
    {
        if let Some(to) = self.new_place(load, place) {
            moves.insert(load, to)?;
        }
        Ok(())
    }

    /// Returns the new place of a load that is recorded at this place, if it moves.
    fn new_place(&self, load: Name, place: Place) -> Option<Place>
        ensures { result ≡ new_place (map.contains_key self.now.stations) (map.get self.now.found load) place }
    {
        match place {
            Place::Station(id) => self.from_station(load, id),
            Place::Checking => self.found.get(load).copied().map(Place::Station),
            Place::Vehicle(_) | Place::Left => None,
        }
    }

    /// Returns the new place of a load that is recorded at this station, if it moves.
    fn from_station(&self, load: Name, id: Name) -> Option<Place>
        ensures { result ≡ from_station (map.contains_key self.now.stations id) id (map.get self.now.found load) }
    {
        match self.found.get(load).copied() {
            Some(found) if found == id => None,
            Some(found) => Some(Place::Station(found)),
            None if self.stations.get(id).is_some() => Some(Place::Checking),
            None => None,
        }
    }

    /// Notes the new places of the loads that move among those recorded at the counted stations.
    #[tactic(auto, unfolding(crate::specs::CountParts::settled))]
    fn settle_standing(
        &self,
        moves: &mut ByName<Place>,
        standing: &[(Name, Place)],
    ) -> Result<(), Memory>
        ensures { OnOk result (moves.new ≡ settled (map.contains_key self.now.stations) self.now.found moves.old standing.now) }
    {
        for (load, place) in standing {
            self.settle(moves, *load, *place)?;
        }
        Ok(())
    }
}

/// Returns whether one of the loads that move has a live job.
pub(crate) fn moves_in_job<F: Floor>(floor: &mut F, moves: &[(Name, Place)]) -> Result<bool, Fault>
    ensures { Asks F.facts floor.old floor.new result (λ world found. found ≡ list_any (λ load. is_in_job world load.0) moves.now) }
{
    for (load, _) in moves {
        if floor.job_of(*load)?.is_some() {
            return Ok(true);
        }
    }
    Ok(false)
}
