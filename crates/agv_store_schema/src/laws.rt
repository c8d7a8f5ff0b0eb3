//! Laws about the definitions that the contracts of this crate cite, whatever the code does. Each function does
//! nothing: its clause is the law.
ghost use Rattle.sqlite_trees.specs.declared.memory.MemStore.{MemStore};
ghost use Rattle.sqlite.specs.Held.{Held};
ghost use Rattle.sqlite.specs.Steps.{over_memory};
ghost use Rattle.agv_store_schema.specs.Connections.{HasStorageCause, IsClean, IsLater, IsOpen};

use sqlite::Alter;

/// Proves that a store in memory is always clean, and that a connection over it which is open stays open at each later
/// moment (`IsLater`). So every answer over memory is exact.
pub fn memory_is_clean_and_open()
    ensures clean { (held : Held MemStore) → IsClean over_memory held }
    ensures stays_open { (old new : Held MemStore) → IsLater over_memory old new
        → IsOpen over_memory old → IsOpen over_memory new }
{}

/// Proves that `IsLater` is reflexive and transitive, and that a cause of a fault since a later moment is also one
/// since an earlier moment. So what several calls promise one by one holds for all of them together.
pub fn later_moments_follow<S: Alter>()
    ensures itself { (held : Held S) → IsLater S.Store held held }
    ensures next { (old mid new : Held S) → IsLater S.Store old mid → IsLater S.Store mid new → IsLater S.Store old new }
    ensures causes { (old mid new : Held S) → IsLater S.Store old mid → IsLater S.Store mid new
        → IsClean S.Store new → HasStorageCause S.Store mid new → HasStorageCause S.Store old new }
{}
