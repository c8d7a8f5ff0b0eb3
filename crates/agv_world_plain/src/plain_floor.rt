//! A floor that answers from a world in memory.
ghost use Rattle.std.specs.Prelude.{◌≡◌, ◌≤◌};
ghost use Rattle.agv_world_core.specs.Told.{world_of};

use crate::{carriers, holders, questions};
use agv_header::{Name, Thing, VehicleKey};
use agv_layout::{Layout, StationSite};
use agv_message_core::Sequence;
use agv_order::Trip;
use agv_stock::Place;
use agv_world_core::{Carrier, Counted, Fault, Floor, JobRow, UseKind, VehicleRow, World};
use std::alloc::Global;

/// A world in memory that answers questions, and does not change while it is borrowed.
///
/// It answers from its tables, whatever they contain: for the world that they determine (`Told.antt` of
/// `agv_world_core`), which is the world whose tables they are, if that one has consistent trips. Its only fault is
/// `Memory`. It looks up vehicles, places, jobs, nodes, stations and used names by their keys; for the other
/// questions it goes through whole tables, so it is for tests and small worlds.
///
/// Once the questions are answered, the owner can change the world again: [`World::apply`] writes what
/// was decided by the answers, to tables that still determine the world that was asked about.
#[derive(Debug, Drop)]
pub struct PlainFloor<'a> {
    world: &'a World,
    // The largest capacity of a vehicle: 1 to 4.
    seats: u32,
    alloc: Global,
    ghost few: { (1 ≤ seats) × (seats ≤ 4) },
}

impl<'a> PlainFloor<'a> {
    /// Creates a floor that answers from this world; `seats` is the largest capacity of a vehicle,
    /// 1 to 4.
    pub fn new(alloc: Global, world: &'a World, seats: u32) -> PlainFloor<'a>
        requires { (1 ≤ seats) × (seats ≤ 4) }
        ensures world { ⟦<PlainFloor<'static> as Floor>⟧.facts.world result ≡ world_of world.now }
        ensures seats { ⟦<PlainFloor<'static> as Floor>⟧.facts.seats result ≡ seats }
    {
        PlainFloor {
            world,
            seats,
            alloc,
        }
    }
}

impl Floor for PlainFloor<'_> {
    ghost use Rattle.std.specs.Prelude.{false};
    ghost use Rattle.agv_world_core.specs.Told.{world_of};

    ghost facts = { record {
      world = λ floor. world_of floor.world.now;
      is_clean = λ floor. Unit {0};
      is_open = λ floor. Unit {0};
      failed = λ floor. false;
      seats = λ floor. floor.seats;
      is_later = λ first now. Unit {0};
    } };

    ghost starts = { λ floor. tt };

    fn failed(&self) -> bool {
        false
    }

    fn seats(&self) -> u32 {
        self.seats
    }

    fn vehicle(&mut self, key: VehicleKey) -> Result<Option<VehicleRow>, Fault> {
        Ok(self.world.vehicle(key))
    }

    fn trip(&mut self, key: VehicleKey) -> Result<Option<Trip>, Fault> {
        Ok(self.world.trip(self.alloc, &key)?)
    }

    fn has_trip(&mut self, key: VehicleKey) -> Result<bool, Fault> {
        Ok(questions::has_trip(self.world, &key))
    }

    fn place(&mut self, load: Name) -> Result<Option<Place>, Fault> {
        Ok(self.world.place(load))
    }

    fn job(&mut self, job: Name) -> Result<Option<JobRow>, Fault> {
        Ok(questions::job(self.world, job))
    }

    fn carrier(&mut self, job: Name) -> Result<Option<Carrier>, Fault> {
        Ok(carriers::carrier(self.world, job))
    }

    fn room(&mut self, station: Name) -> Result<Option<u32>, Fault> {
        Ok(questions::room(self.world, station))
    }

    fn has_room(&mut self, station: Name) -> Result<Option<bool>, Fault> {
        Ok(questions::has_room(self.world, station))
    }

    fn holder(&mut self, thing: Thing) -> Result<Option<VehicleKey>, Fault> {
        Ok(holders::holder(self.world, thing))
    }

    fn node(&mut self, id: Name) -> Result<bool, Fault> {
        Ok(self.world.nodes.contains(id))
    }

    fn station(&mut self, id: Name) -> Result<Option<StationSite>, Fault> {
        Ok(questions::site_of(self.world, id))
    }

    fn used(&mut self, kind: UseKind, name: Name) -> Result<bool, Fault> {
        Ok(questions::is_used(self.world, kind, name))
    }

    fn has_layout(&mut self) -> Result<bool, Fault> {
        Ok(self.world.layout(self.alloc)?.is_some())
    }

    fn layout(&mut self) -> Result<Option<Layout>, Fault> {
        Ok(self.world.layout(self.alloc)?)
    }

    fn loads_at(&mut self, station: Name) -> Result<Sequence<Name>, Fault> {
        Ok(questions::loads_at(self.world, self.alloc, station)?)
    }

    fn loads_on(&mut self, key: VehicleKey) -> Result<usize, Fault> {
        Ok(questions::loads_on(self.world, key))
    }

    fn job_of(&mut self, load: Name) -> Result<Option<Name>, Fault> {
        Ok(questions::job_of(self.world, load))
    }

    fn reserved(&mut self, station: Name) -> Result<usize, Fault> {
        Ok(questions::reserved(self.world, station))
    }

    fn count(&mut self, counted: Counted) -> Result<usize, Fault> {
        Ok(self.world.count(counted))
    }
}
