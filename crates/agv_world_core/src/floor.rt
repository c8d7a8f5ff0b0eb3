//! Questions about what the desk knows, however it is stored.
ghost use Rattle.std.specs.Prelude.{◌≡◌, ◌≤◌, is_some};
ghost use Rattle.std.specs.FinMap as map;
ghost use Rattle.std.specs.FinSet as set;
ghost use Rattle.agv_world_core.specs.Asks.{Facts, Asks};
ghost use Rattle.agv_world_core.specs.Carriers.{carrier_of};
ghost use Rattle.agv_world_core.specs.Questions.{row_of, trip_of, room_at, has_room_at, holder_of, is_used, layout_set, loads_at, loads_on, job_of, reserved, count_of};

use crate::{Fault, JobRow, UseKind, VehicleRow};
use agv_header::{Name, Thing, VehicleKey};
use agv_layout::{Layout, StationSite};
use agv_message_core::Sequence;
use agv_order::Trip;
use agv_stock::Place;

/// What can be counted.
#[derive(Clone, Copy, Debug, PartialEq, Eq)]
pub enum Counted {
    Vehicles,
    /// The loads, including those that have left.
    Loads,
    /// The jobs, including those that have ended.
    Jobs,
    /// The names of orders that were used.
    Orders,
    /// The references that were used.
    References,
}

/// The vehicle that carries out a job, and the name of its order.
#[derive(Clone, Copy, Debug, PartialEq, Eq)]
pub struct Carrier {
    pub vehicle: VehicleKey,
    pub order: Name,
}

/// What answers questions about a world: tables in memory, or a store.
///
/// An answer is that of the world, if the store has returned what was written to it. A question changes
/// nothing (`specs/Asks.antt`). Each has two faults: `Memory` if an allocation was refused, and `Storage`
/// if the store failed. Only the second one sets `failed`, which stays set.
pub trait Floor {
    /// What is known of it at a moment.
    ghost facts: { Facts Self };

    /// Returns whether the store has failed.
    fn failed(&self) -> bool
        ensures { result ≡ facts.failed self.now };

    /// Returns the largest capacity of a vehicle: 1 to 4.
    fn seats(&self) -> u32
        ensures is { result ≡ facts.seats self.now }
        ensures few { (1 ≤ result) × (result ≤ 4) };

    /// Returns the row of a vehicle, or `None` if there is no such vehicle.
    fn vehicle(&mut self, key: VehicleKey) -> Result<Option<VehicleRow>, Fault>
        ensures { Asks facts self.old self.new result (λ world row. row ≡ row_of world key) };

    /// Returns the open trip of a vehicle, or `None` if it has none or there is no such vehicle.
    fn trip(&mut self, key: VehicleKey) -> Result<Option<Trip>, Fault>
        ensures { Asks facts self.old self.new result (λ world trip. trip ≡ trip_of world key) };

    /// Returns whether a vehicle has an open trip: `false` if there is no such vehicle.
    fn has_trip(&mut self, key: VehicleKey) -> Result<bool, Fault>
        ensures { Asks facts self.old self.new result (λ world has. has ≡ is_some (trip_of world key)) };

    /// Returns where a load is, or `None` if the load is unknown.
    fn place(&mut self, load: Name) -> Result<Option<Place>, Fault>
        ensures { Asks facts self.old self.new result (λ world place. place ≡ map.get world.places load) };

    /// Returns the row of a job, or `None` if the job is unknown.
    fn job(&mut self, job: Name) -> Result<Option<JobRow>, Fault>
        ensures { Asks facts self.old self.new result (λ world row. row ≡ map.get world.jobs job) };

    /// Returns the vehicle whose open trip has an unfinished drop of a job, with the name of that order; `None` if there
    /// is none. In a lawful world a job has such a vehicle exactly if it is riding, and has just one.
    fn carrier(&mut self, job: Name) -> Result<Option<Carrier>, Fault>
        ensures { Asks facts self.old self.new result (λ world carrier. carrier ≡ carrier_of world job) };

    /// Returns how many more loads fit at a station, or `None` if the station is unknown.
    fn room(&mut self, station: Name) -> Result<Option<u32>, Fault>
        ensures { Asks facts self.old self.new result (λ world room. room ≡ room_at world station) };

    /// Returns whether one more load fits at a station, or `None` if the station is unknown.
    fn has_room(&mut self, station: Name) -> Result<Option<bool>, Fault>
        ensures { Asks facts self.old self.new result (λ world fits. fits ≡ has_room_at world station) };

    /// Returns the vehicle that holds a node or an edge, or `None` if it is free.
    fn holder(&mut self, thing: Thing) -> Result<Option<VehicleKey>, Fault>
        ensures { Asks facts self.old self.new result (λ world holder. holder ≡ holder_of world thing) };

    /// Returns whether this is a node of the layout.
    fn node(&mut self, id: Name) -> Result<bool, Fault>
        ensures { Asks facts self.old self.new result (λ world known. known ≡ set.contains world.layout.nodes id) };

    /// Returns where a station is and how many loads fit there, or `None` if the station is unknown.
    fn station(&mut self, id: Name) -> Result<Option<StationSite>, Fault>
        ensures { Asks facts self.old self.new result (λ world site. site ≡ map.get world.layout.stations id) };

    /// Returns whether a name was used in this kind.
    fn used(&mut self, kind: UseKind, name: Name) -> Result<bool, Fault>
        ensures { Asks facts self.old self.new result (λ world used. used ≡ is_used world kind name) };

    /// Returns whether the layout is set.
    fn has_layout(&mut self) -> Result<bool, Fault>
        ensures { Asks facts self.old self.new result (λ world has. has ≡ is_some (layout_set world)) };

    /// Returns a copy of the layout, or `None` before it is set.
    fn layout(&mut self) -> Result<Option<Layout>, Fault>
        ensures { Asks facts self.old self.new result (λ world layout. layout ≡ layout_set world) };

    /// Returns the loads at a station, in the order of their names.
    fn loads_at(&mut self, station: Name) -> Result<Sequence<Name>, Fault>
        ensures { Asks facts self.old self.new result (λ world loads. loads ≡ loads_at world station) };

    /// Returns how many loads are on a vehicle.
    fn loads_on(&mut self, key: VehicleKey) -> Result<usize, Fault>
        ensures { Asks facts self.old self.new result (λ world count. count ≡ loads_on world key) };

    /// Returns the live job of a load, or `None` if it has none.
    fn job_of(&mut self, load: Name) -> Result<Option<Name>, Fault>
        ensures { Asks facts self.old self.new result (λ world job. job ≡ job_of world load) };

    /// Returns how many live jobs go to a station. Each of them reserves room for one load there.
    fn reserved(&mut self, station: Name) -> Result<usize, Fault>
        ensures { Asks facts self.old self.new result (λ world count. count ≡ reserved world station) };

    /// Returns how many vehicles, loads, jobs, orders or references there are.
    fn count(&mut self, counted: Counted) -> Result<usize, Fault>
        ensures { Asks facts self.old self.new result (λ world count. count ≡ count_of world counted) };

    /// `is_later` is reflexive: it is true of a moment and itself.
    ghost starts: { (floor : Self) → facts.is_later floor floor };
}
