//! Whether the tables in memory are those of a lawful world.
ghost use Rattle.std.specs.Prelude.{◌↔◌, ◌≡◌, ◌&&◌, IfOk, IsTrue};
ghost use Rattle.agv_world_core.specs.Kept.{Keeps};
ghost use Rattle.agv_world_core.specs.Lawful.{IsLawful};
ghost use Rattle.agv_world_lawful.specs.LawfulTests.{are_lawful_vehicles};
ghost use Rattle.agv_world_lawful.specs.LoadTests.{are_lawful_loads};
ghost use Rattle.agv_world_core.specs.Worlds.{World as WorldOf};

use crate::acts::{are_acts, are_jobs_apart};
use crate::footprints::are_apart;
use crate::jobs::{are_jobs, are_loads_few, are_places, has_one_job_each};
use crate::laid::is_laid;
use crate::laws::tests_vehicles;
use crate::room::{are_within_capacity, have_room};
use crate::trips::{are_fit, are_legs, are_trips};
use crate::values::has_values;
use crate::vehicles::{are_few, are_vehicles};
use agv_header::Memory;
use agv_world_core::World;
use std::alloc::Global;

/// A test of whether tables are those of a lawful world; the clause is that of the impl for [`World`].
pub trait TestsLawful {
    /// Returns whether these are the tables of a lawful world with capacities of vehicles up to `seats`
    /// (`Lawful.antt` of `agv_world_core`): `true` if and only if there is such a world.
    ///
    /// Returns `Memory` only if an allocation was refused. It takes time in proportion to the rows, times the
    /// logarithm of their number; but for each vehicle, of which there are at most 100, it goes through the
    /// edges of trips and the loads on vehicles several times.
    fn is_lawful(&self, alloc: Global, seats: u32) -> Result<bool, Memory>;
}

impl TestsLawful for World {
    fn is_lawful(&self, alloc: Global, seats: u32) -> Result<bool, Memory>
        ensures { IfOk result (λ lawful. IsTrue lawful ↔ ((world : WorldOf) × Keeps self.now world × IsLawful seats world)) }
    {
        has_values(self);
        tests_vehicles();
        passes(alloc, self, seats)
    }
}

/// Returns whether the tables pass all of the tests.
fn passes(alloc: Global, world: &World, seats: u32) -> Result<bool, Memory>
    ensures { IfOk result (λ passes. passes ≡ (are_lawful_vehicles seats world.now && are_lawful_loads world.now)) }
{
    Ok(are_lawful_vehicles(alloc, world, seats)? && are_lawful_loads(alloc, world)?)
}

/// Returns whether the tables of the layout, the vehicles and their trips pass their tests.
fn are_lawful_vehicles(alloc: Global, world: &World, seats: u32) -> Result<bool, Memory>
    ensures { IfOk result (λ are. are ≡ are_lawful_vehicles seats world.now) }
{
    if !is_laid(world) || !are_few(world) {
        return Ok(false);
    }
    if !are_vehicles(world, seats) || !are_legs(world) {
        return Ok(false);
    }
    Ok(are_trips(alloc, world)? && are_fit(alloc, world)? && are_apart(alloc, world)?)
}

/// Returns whether the tables of loads and jobs pass their tests.
fn are_lawful_loads(alloc: Global, world: &World) -> Result<bool, Memory>
    ensures { IfOk result (λ are. are ≡ are_lawful_loads world.now) }
{
    if !are_loads_few(world) || !are_places(world) || !are_jobs(world) {
        return Ok(false);
    }
    if !has_one_job_each(alloc, world)? || !are_acts(world) || !are_jobs_apart(world) {
        return Ok(false);
    }
    Ok(have_room(alloc, world)? && are_within_capacity(alloc, world)?)
}
