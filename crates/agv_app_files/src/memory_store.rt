//! A store whose files are in memory.
ghost use Rattle.std.specs.Prelude.{◌≡◌};
ghost use Rattle.agv_app_files.specs.FullMemory.{outcome_in_memory, IsNamedInMemory};

use sqlite_trees::error::StoreError;
use sqlite_trees::schema::Object;
use sqlite_trees::store::{Alter, Direction, Shape, Store};
use sqlite_value::row::Row;
use std::alloc::{AllocError, Global};

/// A store whose files are in memory: where one of them has no room for a write, the call is out of memory.
///
/// It passes each call on to the store within it, and answers `OutOfMemory` where that answers `Full`. So a caller can
/// go on, as after any other `OutOfMemory`: the transaction is rolled back. Each error of a call is the one of the store
/// within it, named in this way (`names`), and everything else is as that store has it. `Full` also comes at the limits
/// of the format, which no memory reaches.
#[derive(Drop)]
pub struct InMemory<S> {
    store: S,
}

impl<S> InMemory<S> {
    ghost use Rattle.agv_app_files.specs.FullMemory.{store_of};

    /// Returns a store that has its files in memory.
    pub fn new(store: S) -> InMemory<S>
        ensures { store_of result ≡ store }
    {
        InMemory { store }
    }
}

impl<S: Store> Store for InMemory<S> {
    ghost view = { λ s. S.Store.view s.store };

    ghost faults = { λ s. S.Store.faults s.store };

    ghost recovers = { λ s. S.Store.recovers s.store };

    ghost is_shielded = { λ s. S.Store.is_shielded s.store };

    ghost is_step = { λ old new. S.Store.is_step old.store new.store };

    ghost blamed = { λ s. S.Store.blamed s.store };

    ghost names = { λ old new. IsNamedInMemory (S.Store.names old.store new.store) };

    ghost ordered = { λ s. S.Store.ordered s.store };

    ghost shut_if_dirty = { λ s. S.Store.shut_if_dirty s.store };

    ghost empty_if_dirty = { λ s. S.Store.empty_if_dirty s.store };

    ghost broken_if_shut = { λ s. S.Store.broken_if_shut s.store };

    ghost settled = { λ s. S.Store.settled s.store };

    ghost stays = { λ s. S.Store.stays s.store };

    ghost survives = { λ s. S.Store.survives s.store };

    ghost unaltered = { λ s. S.Store.unaltered s.store };

    fn is_broken(&self) -> bool {
        self.store.is_broken()
    }

    fn shape(&self, tree: u32) -> Shape {
        self.store.shape(tree)
    }

    fn tree_count(&self) -> u64 {
        self.store.tree_count()
    }

    fn reals(&self, tree: u32) -> u64 {
        self.store.reals(tree)
    }

    fn seek(
        &mut self,
        cursor: u16,
        tree: u32,
        key: &Row,
        direction: Direction,
    ) -> Result<(), StoreError> {
        in_memory(self.store.seek(cursor, tree, key, direction))
    }

    fn next(&mut self, cursor: u16, row: &mut Row) -> Result<bool, StoreError> {
        in_memory(self.store.next(cursor, row))
    }

    fn get(&mut self, table: u32, id: i64, row: &mut Row) -> Result<bool, StoreError> {
        in_memory(self.store.get(table, id, row))
    }

    fn put(&mut self, table: u32, row: &Row) -> Result<(), StoreError> {
        in_memory(self.store.put(table, row))
    }

    fn delete(&mut self, table: u32, id: i64) -> Result<(), StoreError> {
        in_memory(self.store.delete(table, id))
    }

    fn insert(&mut self, index: u32, entry: &Row) -> Result<(), StoreError> {
        in_memory(self.store.insert(index, entry))
    }

    fn remove(&mut self, index: u32, entry: &Row) -> Result<(), StoreError> {
        in_memory(self.store.remove(index, entry))
    }

    fn commit(&mut self) -> Result<(), StoreError> {
        in_memory(self.store.commit())
    }

    fn rollback(&mut self) {
        self.store.rollback();
    }

    fn savepoint(&mut self) -> Result<(), StoreError> {
        in_memory(self.store.savepoint())
    }

    fn release(&mut self) -> Result<(), StoreError> {
        in_memory(self.store.release())
    }

    fn rollback_to(&mut self) -> Result<(), StoreError> {
        in_memory(self.store.rollback_to())
    }
}

impl<S: Alter> Alter for InMemory<S> {
    ghost listed = { λ s. S.Alter.listed s.store };

    fn objects(&self, alloc: Global) -> Result<Vec<Row>, AllocError> {
        self.store.objects(alloc)
    }

    fn create(&mut self, tree: u32, object: &Object<'_>) -> Result<(), StoreError> {
        in_memory(self.store.create(tree, object))
    }

    fn destroy(&mut self, tree: u32) -> Result<(), StoreError> {
        in_memory(self.store.destroy(tree))
    }

    fn relist(&mut self, changes: &[(u32, Object<'_>)]) -> Result<(), StoreError> {
        in_memory(self.store.relist(changes))
    }

    fn version(&self) -> u32 {
        self.store.version()
    }

    fn set_version(&mut self, version: u32) -> Result<(), StoreError> {
        in_memory(self.store.set_version(version))
    }
}

/// Returns the outcome of a call, with the error that it is in memory.
fn in_memory<T>(outcome: Result<T, StoreError>) -> Result<T, StoreError>
    ensures { result ≡ outcome_in_memory outcome }
{
    match outcome {
        Ok(answer) => Ok(answer),
        Err(StoreError::Full) => Err(StoreError::OutOfMemory),
        Err(why) => Err(why),
    }
}
