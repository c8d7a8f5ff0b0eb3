//! How far a list of stops carries out one of its jobs.
ghost use Rattle.std.specs.Prelude.{◌≡◌};
ghost use Rattle.agv_order.specs.JobProgress.{progress_then, is_over};
ghost use Rattle.agv_order.specs.Stops.{kinds_of, is_pick_then_drop};

use crate::Stop;
use agv_header::Name;
use agv_message_core::ActKind;

/// How far the stops read so far carry out the job.
#[derive(Clone, Copy)]
pub(crate) enum JobProgress {
    /// No stop is for the job yet.
    Waiting,
    /// The stops pick its load.
    Picked,
    /// The stops pick its load and then drop it.
    Dropped,
    /// The stops can't be carried out.
    Wrong,
}

impl JobProgress {
    /// Returns the progress after one more stop for the job.
    pub(crate) fn then(self, kind: ActKind) -> JobProgress
        ensures { result ≡ progress_then self kind }
    {
        match (self, kind) {
            (JobProgress::Waiting, ActKind::Pick) => JobProgress::Picked,
            (JobProgress::Picked, ActKind::Drop) => JobProgress::Dropped,
            _ => JobProgress::Wrong,
        }
    }

    /// Returns whether the load is picked and dropped, and nothing more.
    pub(crate) fn is_over(self) -> bool
        ensures { result ≡ is_over self }
    {
        match self {
            JobProgress::Dropped => true,
            JobProgress::Waiting | JobProgress::Picked | JobProgress::Wrong => false,
        }
    }
}

/// Returns whether the stops for this job are a pick, and then a drop.
pub(crate) fn is_picked_then_dropped(stops: &[Stop], job: Name) -> bool
    ensures { result ≡ is_pick_then_drop (kinds_of stops.now job) }
{
    let mut served = JobProgress::Waiting;
    for stop in stops {
        if stop.job == job {
            served = served.then(stop.kind);
        }
    }
    served.is_over()
}
