//! How many there are of each kind that is counted.
ghost use Rattle.std.specs.Prelude.{◌≡◌, ◌≢◌, ◌+◌, ◌<◌};
ghost use Rattle.agv_world_core.specs.Counts.{limit_of, one_more};
ghost use Rattle.agv_world_core.specs.Questions.{count_of};
ghost use Rattle.agv_world_core.specs.Told.{world_of};
ghost use Rattle.agv_world_core.specs.Worlds.{empty_world};
ghost use Rattle.agv_world_core.specs.declared.floor.Counted.{Counted};
ghost use Rattle.agv_store_known.specs.Counts.{count_in};

use agv_world_core::{Counted, World};

/// The numbers of vehicles, loads, jobs, orders and references. They are counted once, when a desk is opened, and
/// updated with each call, so that no call has to count rows.
#[derive(Clone, Copy, Debug)]
pub struct Counts {
    /// The vehicles that are registered.
    pub vehicles: usize,
    /// The loads that are registered.
    pub loads: usize,
    /// The jobs that were added.
    pub jobs: usize,
    /// The order ids that were used.
    pub orders: usize,
    /// The references that were used.
    pub references: usize,
}

impl Counts {
    /// Returns the counts of a new desk, which has none of any kind.
    pub fn none() -> Counts
        ensures { (what : Counted) → count_in result what ≡ count_of empty_world what }
    {
        Counts {
            vehicles: 0,
            loads: 0,
            jobs: 0,
            orders: 0,
            references: 0,
        }
    }

    /// Counts each kind in the world of these tables.
    pub(crate) fn of(tables: &World) -> Counts
        ensures { (what : Counted) → count_in result what ≡ count_of (world_of tables.now) what }
    {
        Counts {
            vehicles: tables.count(Counted::Vehicles),
            loads: tables.count(Counted::Loads),
            jobs: tables.count(Counted::Jobs),
            orders: tables.count(Counted::Orders),
            references: tables.count(Counted::References),
        }
    }

    /// Returns the count of this kind.
    pub fn get(&self, what: Counted) -> usize
        ensures { result ≡ count_in self.now what }
    {
        match what {
            Counted::Vehicles => self.vehicles,
            Counted::Loads => self.loads,
            Counted::Jobs => self.jobs,
            Counted::Orders => self.orders,
            Counted::References => self.references,
        }
    }

    /// Adds one to the count of this kind, if any; the sum is exact if the count was below its limit.
    pub(crate) fn follow(&mut self, more: Option<Counted>)
        ensures { (what : Counted) → (one_more more what ≢ 0 → count_in self.old what < limit_of what) → count_in self.new what ≡ count_in self.old what + one_more more what }
    {
        match more {
            None => {}
            Some(Counted::Vehicles) => self.vehicles = self.vehicles.saturating_add(1),
            Some(Counted::Loads) => self.loads = self.loads.saturating_add(1),
            Some(Counted::Jobs) => self.jobs = self.jobs.saturating_add(1),
            Some(Counted::Orders) => self.orders = self.orders.saturating_add(1),
            Some(Counted::References) => self.references = self.references.saturating_add(1),
        }
    }
}
