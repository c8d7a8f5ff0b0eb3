//! An open trip of one job, as the table `trip` stores it.
ghost use Rattle.std.specs.Prelude.{◌≡◌, IfOk};
ghost use Rattle.agv_store_migrate.specs.TripLines.{trip_told};

use agv_header::{Memory, Name, VehicleKey};
use agv_message_core::{ActKind, Sequence, Status};
use agv_order::Act;
use agv_world_core::{JobRow, TripRow};
use std::alloc::Global;

/// The row of an open trip of one job: all of the trip except its edges, and except the load and the stations, which
/// are in the row of the job.
#[derive(Clone, Copy, Debug)]
pub struct TripLine {
    pub order: Name,
    pub vehicle: VehicleKey,
    pub job: Name,
    pub start: Name,
    pub first: u32,
    pub base: u32,
    pub sent: u32,
    pub confirmed: Option<u32>,
    pub seen: u32,
    /// The position, on the way, where the load is picked, and where it is dropped.
    pub pick_at: u32,
    pub drop_at: u32,
    pub pick_status: Status,
    pub drop_status: Status,
}

impl TripLine {
    /// Returns the trip, given the row of its job.
    ///
    /// # Errors
    /// `Memory` if an allocation fails.
    pub fn trip(&self, alloc: Global, job: &JobRow) -> Result<TripRow, Memory>
        ensures { IfOk result (λ trip. trip ≡ trip_told self.now job.now) }
    {
        let mut acts = Vec::new(alloc);
        acts.push(Act {
            kind: ActKind::Pick,
            job: self.job,
            load: job.load,
            station: job.origin,
            place_at: self.pick_at,
            status: self.pick_status,
        })?;
        acts.push(Act {
            kind: ActKind::Drop,
            job: self.job,
            load: job.load,
            station: job.target,
            place_at: self.drop_at,
            status: self.drop_status,
        })?;
        Ok(TripRow {
            vehicle: self.vehicle,
            start: self.start,
            first: self.first,
            base: self.base,
            sent: self.sent,
            confirmed: self.confirmed,
            seen: self.seen,
            acts: Sequence::from(acts),
        })
    }
}
