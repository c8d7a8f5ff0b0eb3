//! The loads of a list, by place.
ghost use Rattle.std.specs.Prelude.{◌≡◌, ℕ, List, ◌++◌, IfOk, OnOk};
ghost use Rattle.std.specs.BTreeMap.{is_at};
ghost use Rattle.agv_header.specs.Key.{key_cmp};
ghost use Rattle.agv_header.specs.Name.{name_cmp};
ghost use Rattle.agv_header.specs.declared.key.VehicleKey.{VehicleKey as Key};
ghost use Rattle.agv_count.specs.Reports.{loads_where};
ghost use Rattle.agv_stock.specs.Rooms.{is_at as is_at_station, is_on, is_checking};
ghost use Rattle.agv_count.specs.LoadsByPlace.{loads_at, one_if};

use agv_header::{Memory, Name, VehicleKey};
use agv_stock::Place;
use std::alloc::Global;
use std::collections::BTreeMap;

/// The loads at each of some places, in the order in which they were added.
pub type PlacedLoads<K> = BTreeMap<K, Vec<Name>>;

/// The loads at stations, on vehicles and at the checking place.
#[derive(Drop)]
pub struct LoadsByPlace {
    pub stations: PlacedLoads<Name>,
    pub vehicles: PlacedLoads<VehicleKey>,
    pub checking: Vec<Name>,
}

impl LoadsByPlace {
    /// Groups a list of loads by place, in one pass with one look-up per load among the stations or the vehicles.
    pub fn of_loads(alloc: Global, loads: &[(Name, Place)]) -> Result<LoadsByPlace, Memory>
        ensures stations { IfOk result (λ by_place. (id : List ℕ) → loads_at name_cmp by_place.stations id ≡ loads_where (is_at_station id) loads.now) }
        ensures vehicles { IfOk result (λ by_place. (key : Key) → loads_at key_cmp by_place.vehicles key ≡ loads_where (is_on key) loads.now) }
        ensures checking { IfOk result (λ by_place. by_place.checking.items ≡ loads_where is_checking loads.now) }
    {
        let mut by_place = LoadsByPlace {
            stations: BTreeMap::new(alloc),
            vehicles: BTreeMap::new(alloc),
            checking: Vec::new(alloc),
        };
        for (load, place) in loads {
            by_place.add(alloc, *load, *place)?;
        }
        Ok(by_place)
    }

    /// Adds a load to those at its place, unless it has left.
    fn add(&mut self, alloc: Global, load: Name, place: Place) -> Result<(), Memory>
        ensures stations { OnOk result ((id : List ℕ) → loads_at name_cmp self.new.stations id
            ≡ loads_at name_cmp self.old.stations id ++ one_if (is_at_station id place) load) }
        ensures vehicles { OnOk result ((key : Key) → loads_at key_cmp self.new.vehicles key
            ≡ loads_at key_cmp self.old.vehicles key ++ one_if (is_on key place) load) }
        ensures checking { OnOk result (self.new.checking.items ≡ self.old.checking.items ++ one_if (is_checking place) load) }
    {
        match place {
            Place::Station(id) => put(alloc, &mut self.stations, id, load)?,
            Place::Vehicle(key) => put(alloc, &mut self.vehicles, key, load)?,
            Place::Checking => self.checking.push(load)?,
            Place::Left => {}
        }
        Ok(())
    }
}

/// Adds a load after those at a place.
fn put<K: Ord + Copy + Drop>(
    alloc: Global,
    placed: &mut PlacedLoads<K>,
    at: K,
    load: Name,
) -> Result<(), Memory>
    ensures { OnOk result ((q : K) → loads_at K.cmp placed.new q ≡ loads_at K.cmp placed.old q ++ one_if (is_at (K.cmp at) q) load) }
{
    let mut loads = placed.remove(&at).unwrap_or(Vec::new(alloc));
    loads.push(load)?;
    placed.insert(at, loads)?;
    Ok(())
}

/// Returns the loads at a place.
pub fn loads_at<K: Ord + Copy>(placed: &PlacedLoads<K>, at: K) -> &[Name]
    ensures { result.now ≡ loads_at K.cmp placed.now at }
{
    match placed.get(&at) {
        Some(loads) => loads,
        None => &[],
    }
}
