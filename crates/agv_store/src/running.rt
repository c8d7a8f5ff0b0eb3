//! Serving a list of calls, up to the first fault.
ghost use Rattle.std.specs.Prelude.{◌≡◌, true, false, length, vec_capacity};
ghost use Rattle.agv_store_schema.specs.Connections.{IsClean};
ghost use Rattle.agv_store_floor.specs.Floors.{Knows, world_at};
ghost use Rattle.agv_store.specs.Running.{HasAnswered, HasReserved, IsRun, IsStopped, LeavesLast, RunEndsAs};

use crate::desk::Desk;
use agv_desk::laws::calls::serves_in_turn;
use agv_desk::{Answer, Call};
use agv_header::Moment;
use agv_store_changes::change_laws::other_tables_stay;
use agv_store_read_tables::world_laws::a_database_tells_its_world;
use agv_world_core::Fault;
use sqlite::Alter;

impl<S: Alter + Drop> Desk<S> {
    /// Serves the calls in order, each at its moment, up to the first fault, and returns the answers and the fault, if
    /// any. Memory for the answers is reserved before the first call, so that no call is served whose answer can't be
    /// returned (`reserves`).
    ///
    /// The answers are those of the table of calls, from the desk's world on, and the tables then have the rows of the
    /// world after the calls that were answered (`runs`). Without a fault each call has its answer; with one there are
    /// fewer answers than calls (`answered`).
    ///
    /// However the list ends, the store is still open if it was open before, unless its disk had a fault meanwhile
    /// (`runs`). So the desk goes on after `Memory` too ([`laws`](crate::laws)).
    ///
    /// A crash leaves a database with the rows of the world after the calls that were answered or, where there was a
    /// fault, of this world or the world after one more call (`crash`).
    ///
    /// # Errors
    /// `Memory` when out of memory; if there is none for the answers, no call is served. `Storage` where the store
    /// failed or had failed before. If the store hadn't failed before, the fault is `Storage` exactly where
    /// [`failed`](Desk::failed) is `true` in the end (`ends`). A desk that had failed before queries nothing, answers
    /// no call and is unchanged; with memory for the answers the fault is `Storage` if there is a call (`fails`).
    pub fn run(&mut self, calls: &[(Moment, Call)]) -> (Vec<Answer>, Option<Fault>)
        ensures runs { IsClean S.Store self.new.held → IsRun S.Store self.old.held self.new.held calls.now result.0.items result.1 }
        ensures answered { HasAnswered calls.now result.0.items result.1 }
        ensures crash { IsClean S.Store self.new.held → Knows S.Store self.old.held (world_at S.Store self.old.held) → LeavesLast S.Store self.old.held self.new.held calls.now (length result.0.items) result.1 }
        ensures ends { self.old.failed ≡ false → RunEndsAs result.1 self.new.failed }
        ensures fails { self.old.failed ≡ true → IsStopped self.old self.new calls.now (vec_capacity result.0) result.0.items result.1 }
        ensures reserves { HasReserved self.old self.new calls.now (vec_capacity result.0) result.0.items result.1 }
    {
        serves_in_turn();
        a_database_tells_its_world();
        other_tables_stay();
        self.knows();
        let alloc = self.floor.alloc;
        let reserved = Vec::with_capacity(alloc, calls.len());
        let mut given = match reserved {
            Ok(given) => given,
            Err(_) => return (Vec::new(alloc), Some(Fault::Memory)),
        };
        for made in calls {
            let served = self.serve(made.0, &made.1);
            match served {
                Ok(answer) => given.push_reserved(answer),
                Err(why) => {
                    self.knows();
                    return (given, Some(why));
                }
            }
        }
        (given, None)
    }
}
