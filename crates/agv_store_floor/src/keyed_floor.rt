//! A connection to the desk's tables, with what is known beside it.
ghost use Rattle.std.specs.Prelude.{◌≡◌, false, true, Err, OnOk};
ghost use Rattle.agv_world_core.specs.Asks.{Asks};
ghost use Rattle.agv_world_core.specs.declared.fault.Fault.TheVariants as fault;
ghost use Rattle.agv_store_schema.specs.Connections.{IsClean, IsOpen};
ghost use Rattle.agv_store_floor.specs.Flags.{EndsAs};
ghost use Rattle.agv_store_floor.specs.Floors.{IsConsistent, Knows, facts_of, world_at};

use crate::flags::note;
use agv_store_known::Known;
use agv_store_read_tables::meta_reading::query_meta;
use agv_world_core::Fault;
use sqlite::{Alter, Connection};
use std::alloc::Global;
use std::marker::Model;

/// A floor over the desk's tables in a database. While its connection is open, these have the rows of a lawful world;
/// its answers are about that world.
///
/// After `Storage` its store has failed permanently; after `Memory` its connection may be closed, which the next
/// question finds out.
#[derive(Drop)]
pub struct KeyedFloor<S: Alter> {
    /// The connection to the desk's tables.
    pub conn: Connection<S>,
    /// What is known beside the tables.
    pub known: Known,
    /// Whether the store has failed.
    pub failed: bool,
    /// Whether an allocation failed since the connection was last known to be open.
    pub in_doubt: bool,
    /// The allocator.
    pub alloc: Global,
}

impl<S: Alter> Model for KeyedFloor<S> {
    ghost use Rattle.agv_store_floor.specs.Floors.{IsConsistent, Keyed, keyed_code};

    ghost Value = { Keyed S };

    ghost coded = { keyed_code S.code };

    ghost view = { λ floor. record { held = floor.conn; failed = floor.failed } };

    ghost invariant = { λ floor. IsConsistent S.Store floor.conn floor.known floor.failed floor.in_doubt };
}

impl<S: Alter + Drop> KeyedFloor<S> {
    /// Creates the floor over this connection, with what is known beside its tables.
    pub fn new(alloc: Global, conn: Connection<S>, known: Known) -> KeyedFloor<S>
        requires { IsConsistent S.Store conn known false false }
        ensures { result ≡ record { held = conn; failed = false } }
    {
        KeyedFloor {
            conn,
            known,
            failed: false,
            in_doubt: false,
            alloc,
        }
    }

    /// Proves that, while the connection is open, its tables have the rows of a lawful world.
    pub fn knows(&self)
        ensures { IsClean S.Store self.now.held → IsOpen S.Store self.now.held → Knows S.Store self.now.held (world_at S.Store self.now.held) }
    {
        let _failed = self.failed;
    }

    /// Checks that the store has not failed and is open; after a failed allocation it queries the store to find out.
    ///
    /// # Errors
    /// `Storage` if the store has failed, `Memory` when out of memory.
    pub fn settle(&mut self) -> Result<(), Fault>
        ensures asks { Asks (facts_of S.Store) self.old self.new result (λ world done. Unit {0}) }
        ensures knows { IsClean S.Store self.new.held → OnOk result (Knows S.Store self.new.held (world_at S.Store self.new.held)) }
        ensures ends { EndsAs result self.new.failed }
        ensures stopped { self.old.failed ≡ true → (result ≡ Err fault.Storage) × (self.new ≡ self.old) }
    {
        if self.failed {
            return Err(Fault::Storage);
        }
        if self.in_doubt {
            let asked = query_meta(&mut self.conn);
            note(&mut self.failed, &mut self.in_doubt, asked)?;
            self.in_doubt = false;
        }
        Ok(())
    }
}
