//! What a desk knows beside its tables, so that it reads them less: how many there are of each kind, the layout, how
//! many more loads fit at a station, open trips, rows of vehicles, and the live jobs. It is true of the world whose rows the tables
//! have, and is updated with each write. Each part has a file, which says what is cached and how a written row changes
//! it.
ghost use Rattle.std.specs.Prelude.{◌≡◌, ℕ, IfOk};
ghost use Rattle.agv_world_core.specs.Changes.{change, changed};
ghost use Rattle.agv_world_core.specs.Kept.{Keeps};
ghost use Rattle.agv_world_core.specs.Lawful.{IsLawful};
ghost use Rattle.agv_world_core.specs.Questions.{count_of};
ghost use Rattle.agv_world_core.specs.Maps.{Maps, maps_of};
ghost use Rattle.agv_world_core.specs.Worlds.{World as WorldOf};
ghost use Rattle.agv_world_core.specs.declared.floor.Counted.{Counted};
ghost use Rattle.agv_store_known.specs.Counts.{count_in};
ghost use Rattle.agv_store_known.specs.KeptLayouts.{IsLayoutOf};
ghost use Rattle.agv_store_known.specs.Known.{Follows, IsKnown, IsKnownIn};

use crate::counts::Counts;
use crate::kept_jobs::LiveJobs;
use crate::kept_rooms::RoomsLeft;
use crate::kept_trips::KeptTrips;
use crate::kept_vehicles::KeptVehicles;
use crate::{kept_jobs, kept_layout, kept_rooms, kept_trips, kept_vehicles};
use agv_header::Memory;
use agv_layout::Layout;
use agv_layout::laws::{gives_itself, needs_a_node};
use agv_world_core::change_laws::changes_in_turn;
use agv_world_core::lawful_laws::has_consistent_trips;
use agv_world_core::laws::tables_tell_the_world;
use agv_world_core::{Change, Counted, World};
use std::alloc::Global;

/// What is known beside the tables.
#[derive(Drop)]
pub struct Known {
    /// How many there are of each kind.
    pub counts: Counts,
    /// The layout, once it was read; `None` if it is not set, or was not read since then.
    pub layout: Option<Layout>,
    /// Stations whose room was counted, each with a number of loads: at least that many more fit there.
    pub rooms: RoomsLeft,
    /// The open trips of orders, once they were read, and the vehicles that are known to have none.
    pub trips: KeptTrips,
    /// The rows of vehicles, once they were read or written.
    pub vehicles: KeptVehicles,
    /// The rows of the live jobs, all of them; `None` while they are not known.
    pub jobs: Option<LiveJobs>,
}

impl Known {
    /// Returns what is known of a world that has these counts, and this layout if there is one.
    pub fn new(alloc: Global, counts: Counts, layout: Option<Layout>) -> Known
        ensures { (world : WorldOf) → ((what : Counted) → count_in counts what ≡ count_of world what) → IsLayoutOf layout (maps_of world) → IsKnownIn result world }
    {
        Known {
            counts,
            layout,
            rooms: kept_rooms::none(alloc),
            trips: kept_trips::none(alloc),
            vehicles: kept_vehicles::none(alloc),
            jobs: None,
        }
    }

    /// Returns what is known of the lawful world of these tables.
    ///
    /// # Errors
    /// `Memory` when out of memory.
    pub fn of(alloc: Global, tables: &World) -> Result<Known, Memory>
        ensures { IfOk result (λ known. (seats : ℕ) (world : WorldOf) → IsLawful seats world → Keeps tables.now world → IsKnownIn known world) }
    {
        has_consistent_trips();
        tables_tell_the_world();
        gives_itself();
        needs_a_node();
        let counts = Counts::of(tables);
        let layout = tables.layout(alloc)?;
        let jobs = kept_jobs::of(alloc, &tables.jobs)?;
        let mut known = Known::new(alloc, counts, layout);
        known.jobs = Some(jobs);
        Ok(known)
    }

    /// Updates what is known after a call that made these changes and added one of this kind, if any.
    pub fn follow(&mut self, more: Option<Counted>, changes: &[Change])
        ensures { Follows more changes.now self.old self.new }
    {
        follow_each(self, changes);
        self.counts.follow(more);
    }
}

/// Updates what is known for the changes, except the counts.
fn follow_each(known: &mut Known, changes: &[Change])
    ensures { (count : Counted → ℕ) (maps : Maps) → IsKnown known.old count maps → IsKnown known.new count (changed changes.now maps) }
{
    changes_in_turn();
    for change in changes {
        follow_one(known, change);
    }
}

/// Updates what is known for the change, except the counts.
fn follow_one(known: &mut Known, one: &Change)
    ensures { (count : Counted → ℕ) (maps : Maps) → IsKnown known.old count maps → IsKnown known.new count (change maps one.now) }
{
    kept_layout::follow(&mut known.layout, one);
    kept_rooms::follow(&mut known.rooms, one);
    kept_trips::follow(&mut known.trips, one);
    kept_vehicles::follow(&mut known.vehicles, one);
    kept_jobs::follow(&mut known.jobs, one);
}
