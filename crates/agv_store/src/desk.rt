//! The desk: a connection to the desk's tables, over which calls are served.
ghost use Rattle.std.specs.Prelude.{◌≡◌, false, true, Err, IfOk, OnErr, OnOk};
ghost use Rattle.sqlite.specs.Held.{state};
ghost use Rattle.sqlite.specs.State.{Survives};
ghost use Rattle.agv_world_core.specs.declared.fault.Fault.TheVariants as fault;
ghost use Rattle.agv_store_schema.specs.Connections.{IsClean, IsOpen};
ghost use Rattle.agv_store_floor.specs.Flags.{EndsAs};
ghost use Rattle.agv_store_floor.specs.Floors.{Knows, world_at};
ghost use Rattle.agv_store.specs.Serving.{IsServedBy, LeavesAll, LeavesCall};

use crate::serving::serve;
use agv_desk::{Answer, Call};
use agv_header::Moment;
use agv_store_floor::KeyedFloor;
use agv_world_core::Fault;
use sqlite::{Alter, Connection};
use std::marker::Model;

/// The desk of one warehouse, over its tables in a database. While its store is open, the tables have the rows of a
/// lawful world (`specs/Floors.antt`), the desk's world, and each call is answered from it.
///
/// A desk is made by [`Desk::create`], [`Desk::adopt`], [`Desk::open`] or [`Desk::migrate`]; [`Desk::release_conn`]
/// returns its connection.
#[derive(Drop)]
pub struct Desk<S: Alter> {
    pub(crate) floor: KeyedFloor<S>,
}

impl<S: Alter> Model for Desk<S> {
    ghost use Rattle.agv_store_floor.specs.Floors.{Keyed, keyed_code};

    ghost Value = { Keyed S };

    ghost coded = { keyed_code S.code };

    ghost view = { λ desk. desk.floor };
}

impl<S: Alter + Drop> Desk<S> {
    /// Proves that the desk knows a world while its store is open. It does nothing; proofs call it for its clause.
    pub fn knows(&self)
        ensures { IsClean S.Store self.now.held → IsOpen S.Store self.now.held → Knows S.Store self.now.held (world_at S.Store self.now.held) }
    {
        self.floor.knows();
    }

    /// Returns whether the database has answered a call with an error other than running out of memory. From then on
    /// every call is answered `Storage`, until the connection is adopted again.
    pub fn failed(&self) -> bool
        ensures { result ≡ self.now.failed }
    {
        self.floor.failed
    }

    /// Serves one call at this moment. It decides the call by queries outside a transaction, writes the changes in one
    /// transaction, and returns the answer after the commit. The answer is that of the table of calls in the desk's
    /// world, and the tables then have the rows of the world after the call (`serves`). A call for a report is answered
    /// with the report's bytes. A refusal is an answer, and changes nothing.
    ///
    /// A crash leaves the rows before the call or after it (`crash`), and once there is an answer those after it
    /// ([`laws`](crate::laws)).
    ///
    /// # Errors
    /// `Memory` when out of memory; then, where the store is still open, all is as before the call. `Storage` where the
    /// store failed or had failed before: exactly where [`failed`](Desk::failed) is `true` as the call ends (`ends`). A
    /// desk that had failed before queries nothing and is unchanged (`stopped`). A fault that leaves the store open
    /// leaves the database's contents unchanged (`unchanged_on_err`).
    pub fn serve(&mut self, at: Moment, call: &Call) -> Result<Answer, Fault>
        ensures knew { IsClean S.Store self.new.held → OnOk result (Knows S.Store self.old.held (world_at S.Store self.old.held)) }
        ensures serves { IsClean S.Store self.new.held → IfOk result (IsServedBy S.Store self.old.held self.new.held at call.now) }
        ensures unchanged_on_err { IsClean S.Store self.new.held → IsOpen S.Store self.new.held → OnErr result (LeavesAll S.Store self.old.held self.new.held) }
        ensures was_open { IsClean S.Store self.new.held → IsOpen S.Store self.new.held → IsOpen S.Store self.old.held }
        ensures crash { Survives (state S.Store self.old.held) (state S.Store self.new.held) (LeavesCall S.Store self.old.held at call.now) }
        ensures ends { EndsAs result self.new.failed }
        ensures fails { self.old.failed ≡ true → self.new.failed ≡ true }
        ensures stopped { self.old.failed ≡ true → (result ≡ Err fault.Storage) × (self.new ≡ self.old) }
    {
        serve(&mut self.floor, at, call)
    }

    /// Returns the connection, with the desk's tables in its database.
    pub fn release_conn(self) -> Connection<S>
        ensures connection { result ≡ self.held }
        ensures idle { result.in_transaction ≡ false }
    {
        let floor = self.floor;
        floor.conn
    }
}
