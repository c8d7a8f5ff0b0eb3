//! Which acts belong to the vehicle that carries out a job.
ghost use Rattle.std.specs.Prelude.{◌≡◌};
ghost use Rattle.std.specs.List.{list_any};
ghost use Rattle.agv_world_core.specs.Carriers.{is_drop_of};

use agv_header::Name;
use agv_order::{Act, is_drop, is_finished};

/// Returns whether one of the acts is an unfinished drop of the job.
pub fn has_drop_among(job: Name, acts: &[Act]) -> bool
    ensures { result ≡ list_any (is_drop_of job) acts.now }
{
    acts.iter().any(|act| is_drop_of(job, act))
}

/// Returns whether the act is an unfinished drop of the job.
fn is_drop_of(job: Name, act: &Act) -> bool
    ensures { result ≡ is_drop_of job act.now }
{
    is_drop(act.kind) && !is_finished(act.status) && act.job == job
}
