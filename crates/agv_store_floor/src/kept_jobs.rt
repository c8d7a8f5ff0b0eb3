//! The live jobs, cached beside the connection, all of them, so that an export of them reads no row of an ended job
//! (`kept_jobs` of agv_store_known).
ghost use Rattle.std.specs.Prelude.{◌≡◌, IfOk, IfSome};
ghost use Rattle.agv_count_exports.specs.Exports.{jobs_told};
ghost use Rattle.agv_store_schema.specs.Connections.{IsClean, IsOpen};
ghost use Rattle.agv_store_known.specs.KeptJobs.{AreLive};
ghost use Rattle.agv_store_floor.specs.Floors.{world_at};

use crate::keyed_floor::KeyedFloor;
use agv_header::{Memory, Name};
use agv_store_known::kept_jobs::LiveJobs;
use agv_world_core::JobRow;
use sqlite::Alter;

impl<S: Alter + Drop> KeyedFloor<S> {
    /// Returns the live jobs by name, if they are cached.
    pub(crate) fn kept_jobs(&self) -> Result<Option<Vec<(Name, JobRow)>>, Memory>
        ensures { IfOk result (λ kept. IfSome kept (λ jobs. IsClean S.Store self.now.held → IsOpen S.Store self.now.held → jobs.items ≡ jobs_told (world_at S.Store self.now.held))) }
    {
        match &self.known.jobs {
            None => Ok(None),
            Some(live) => {
                let jobs = live.list(self.alloc)?;
                Ok(Some(jobs))
            }
        }
    }

    /// Caches the live jobs.
    pub(crate) fn keep_jobs(&mut self, live: LiveJobs)
        requires { IsClean S.Store self.old.held → IsOpen S.Store self.old.held → AreLive live (world_at S.Store self.old.held).jobs }
        ensures { self.new ≡ self.old }
    {
        self.known.jobs = Some(live);
    }
}
