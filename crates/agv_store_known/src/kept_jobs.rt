//! The live jobs, cached beside the tables, all of them, so that an export of them reads no row of an ended job. The
//! written row of a live job is cached, and that of an ended one is removed. If there is no memory for a row, the whole
//! cache is dropped.
ghost use Rattle.std.specs.Prelude.{◌≡◌, IfOk, OnOk};
ghost use Rattle.std.specs.FinMap as map;
ghost use Rattle.agv_world_core.specs.Changes.{change};
ghost use Rattle.agv_world_core.specs.Maps.{Maps};
ghost use Rattle.agv_store_known.specs.KeptJobs.{AreJobs, AreLive, JobsOf};

use agv_header::{Memory, Name};
use agv_world_core::{ByName, Change, JobRow};
use std::alloc::Global;

/// The live jobs, each with its row.
pub type LiveJobs = ByName<JobRow>;

/// Returns the live ones of these jobs.
///
/// # Errors
/// `Memory` when out of memory.
pub fn of(alloc: Global, jobs: &ByName<JobRow>) -> Result<LiveJobs, Memory>
    ensures { IfOk result (λ live. AreLive live jobs.now) }
{
    let mut live = ByName::new(alloc);
    for (name, row) in jobs.iter() {
        put_row(&mut live, *name, row)?;
    }
    Ok(live)
}

/// Updates the cached jobs for a change.
pub(crate) fn follow(jobs: &mut Option<LiveJobs>, one: &Change)
    ensures { (maps : Maps) → AreJobs jobs.old maps → AreJobs jobs.new (change maps one.now) }
{
    if let Change::Job(name, row) = one {
        put_if_kept(jobs, *name, row);
    }
}

/// Updates the cached jobs, if any, for the written row of a job; drops them if there is no memory for it.
fn put_if_kept(jobs: &mut Option<LiveJobs>, name: Name, row: &JobRow)
    ensures { (maps : Maps) → AreJobs jobs.old maps → AreJobs jobs.new (record maps { jobs = map.insert maps.jobs name row.now }) }
{
    let Some(mut live) = jobs.take() else {
        return;
    };
    if put_row(&mut live, name, row).is_ok() {
        *jobs = Some(live);
    }
}

/// Inserts the row of a job if it is live, else removes it.
///
/// # Errors
/// `Memory` when out of memory.
fn put_row(live: &mut LiveJobs, name: Name, row: &JobRow) -> Result<(), Memory>
    ensures { OnOk result ((jobs : JobsOf) → AreLive live.old jobs → AreLive live.new (map.insert jobs name row.now)) }
{
    if row.phase.is_live() {
        live.insert(name, *row)?;
    } else {
        live.remove(name);
    }
    Ok(())
}
