//! The rows of acts.
ghost use Rattle.std.specs.Prelude.{◌≡◌};
ghost use Rattle.agv_store_rows.specs.TripRows.{act_row};
ghost use Rattle.agv_store_rows.specs.TripsTold.{act_told};

use agv_header::Name;
use agv_message_core::{ActKind, Status};
use agv_order::Act;
use agv_world_core::JobRow;

/// An act of an open trip without its order id and its number, which are its key, and without its load and its station,
/// which are those of its job.
#[derive(Clone, Copy, Debug)]
pub struct ActRow {
    /// The job that the act is part of.
    pub job: Name,
    /// Whether the load of the job is picked at the job's origin or dropped at its target.
    pub kind: ActKind,
    /// The position, on the way, of the node where it is done: 0 is the start.
    pub place_at: u32,
    /// Its status, as the vehicle last reported it.
    pub status: Status,
}

impl ActRow {
    /// Returns the row of an act.
    pub fn of(act: &Act) -> ActRow
        ensures { result ≡ act_row act.now }
    {
        ActRow {
            job: act.job,
            kind: act.kind,
            place_at: act.place_at,
            status: act.status,
        }
    }

    /// Returns the act, given the row of its job.
    pub fn act(&self, job: &JobRow) -> Act
        ensures { result ≡ act_told self.now job.now }
    {
        Act {
            kind: self.kind,
            job: self.job,
            load: job.load,
            station: match self.kind {
                ActKind::Pick => job.origin,
                ActKind::Drop => job.target,
            },
            place_at: self.place_at,
            status: self.status,
        }
    }
}
