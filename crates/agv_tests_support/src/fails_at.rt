//! A floor over a world in memory that fails after it has answered a number of questions.
ghost use Rattle.std.specs.Prelude.{◌≡◌, true, IfErr, IfOk};
ghost use Rattle.agv_world_core.specs.declared.fault.Fault.TheVariants as fault;

use agv_header::{Name, Thing, VehicleKey};
use agv_layout::{Layout, StationSite};
use agv_message_core::Sequence;
use agv_order::Trip;
use agv_stock::Place;
use agv_world_core::{Carrier, Counted, Fault, Floor, JobRow, UseKind, VehicleRow};
use agv_world_plain::PlainFloor;

/// A floor over a world in memory that fails after it has answered a number of questions.
#[derive(Drop)]
pub struct FailsAt<'a> {
    floor: PlainFloor<'a>,
    /// How many questions it has answered.
    asked: usize,
    /// How many questions it answers before it fails.
    most: usize,
    failed: bool,
}

impl<'a> FailsAt<'a> {
    /// Creates a floor that fails after this many questions.
    pub fn new(floor: PlainFloor<'a>, most: usize) -> FailsAt<'a> {
        FailsAt {
            floor,
            asked: 0,
            most,
            failed: false,
        }
    }

    /// Returns whether it has failed.
    pub fn has_failed(&self) -> bool {
        self.failed
    }

    /// Counts a question; fails with `Storage` if the floor has answered as many as it is to.
    fn ask(&mut self) -> Result<(), Fault>
        ensures answers { IfOk result (λ _. self.new.failed ≡ self.old.failed) }
        ensures fails { IfErr result (λ why. (why ≡ fault.Storage) × (self.new.failed ≡ true)) }
        ensures floor_stays { self.new.floor ≡ self.old.floor }
    {
        if self.asked == self.most {
            self.failed = true;
            return Err(Fault::Storage);
        }
        self.asked = self.asked.saturating_add(1);
        Ok(())
    }
}

impl Floor for FailsAt<'_> {
    ghost use Rattle.agv_tests_support.specs.Within.{facts_beside};

    ghost facts = { facts_beside (λ store. store.floor) (λ store. store.failed) ⟦<PlainFloor<'static> as Floor>⟧.facts };

    ghost starts = { λ store. tt };

    fn failed(&self) -> bool {
        self.failed
    }

    fn seats(&self) -> u32 {
        self.floor.seats()
    }

    fn vehicle(&mut self, key: VehicleKey) -> Result<Option<VehicleRow>, Fault> {
        self.ask()?;
        self.floor.vehicle(key)
    }

    fn trip(&mut self, key: VehicleKey) -> Result<Option<Trip>, Fault> {
        self.ask()?;
        self.floor.trip(key)
    }

    fn has_trip(&mut self, key: VehicleKey) -> Result<bool, Fault> {
        self.ask()?;
        self.floor.has_trip(key)
    }

    fn place(&mut self, load: Name) -> Result<Option<Place>, Fault> {
        self.ask()?;
        self.floor.place(load)
    }

    fn job(&mut self, job: Name) -> Result<Option<JobRow>, Fault> {
        self.ask()?;
        self.floor.job(job)
    }

    fn carrier(&mut self, job: Name) -> Result<Option<Carrier>, Fault> {
        self.ask()?;
        self.floor.carrier(job)
    }

    fn room(&mut self, station: Name) -> Result<Option<u32>, Fault> {
        self.ask()?;
        self.floor.room(station)
    }

    fn has_room(&mut self, station: Name) -> Result<Option<bool>, Fault> {
        self.ask()?;
        self.floor.has_room(station)
    }

    fn holder(&mut self, thing: Thing) -> Result<Option<VehicleKey>, Fault> {
        self.ask()?;
        self.floor.holder(thing)
    }

    fn node(&mut self, id: Name) -> Result<bool, Fault> {
        self.ask()?;
        self.floor.node(id)
    }

    fn station(&mut self, id: Name) -> Result<Option<StationSite>, Fault> {
        self.ask()?;
        self.floor.station(id)
    }

    fn used(&mut self, kind: UseKind, name: Name) -> Result<bool, Fault> {
        self.ask()?;
        self.floor.used(kind, name)
    }

    fn has_layout(&mut self) -> Result<bool, Fault> {
        self.ask()?;
        self.floor.has_layout()
    }

    fn layout(&mut self) -> Result<Option<Layout>, Fault> {
        self.ask()?;
        self.floor.layout()
    }

    fn loads_at(&mut self, station: Name) -> Result<Sequence<Name>, Fault> {
        self.ask()?;
        self.floor.loads_at(station)
    }

    fn loads_on(&mut self, key: VehicleKey) -> Result<usize, Fault> {
        self.ask()?;
        self.floor.loads_on(key)
    }

    fn job_of(&mut self, load: Name) -> Result<Option<Name>, Fault> {
        self.ask()?;
        self.floor.job_of(load)
    }

    fn reserved(&mut self, station: Name) -> Result<usize, Fault> {
        self.ask()?;
        self.floor.reserved(station)
    }

    fn count(&mut self, counted: Counted) -> Result<usize, Fault> {
        self.ask()?;
        self.floor.count(counted)
    }
}
