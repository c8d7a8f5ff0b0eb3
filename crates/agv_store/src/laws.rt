//! Laws that follow from the contracts of a desk. Each function does nothing: its clause is the law.
//!
//! The laws of crashes cover all trees that a crash may leave: they are the trees of a database that the law describes.
//! No database with other contents has the same trees (`making_laws::trees_tell_schemas` of `agv_store_create`).
ghost use Rattle.std.specs.Prelude.{◌≡◌, ◌⊎◌, ℕ, List, Option, length};
ghost use Rattle.sqlite.specs.Effect.{Database, IsDatabase};
ghost use Rattle.sqlite.specs.Held.{Held, state};
ghost use Rattle.sqlite.specs.State.{Survives};
ghost use Rattle.sqlite_trees.specs.Tree.{Trees};
ghost use Rattle.agv_world_core.specs.Worlds.{World, empty_world};
ghost use Rattle.agv_world_core.specs.declared.fault.Fault.{Fault};
ghost use Rattle.agv_desk.specs.declared.answer.Answer.{Answer};
ghost use Rattle.agv_desk.specs.declared.call.Call.{Call};
ghost use Rattle.agv_store_create.specs.DeskTables.{LeavesDesk};
ghost use Rattle.agv_store_read.specs.WorldAnswers.{HasNoWorld};
ghost use Rattle.agv_store_schema.specs.Connections.{IsClean, IsOpen, MoreFaults};
ghost use Rattle.agv_store_floor.specs.Floors.{Knows, world_at};
ghost use Rattle.agv_store.specs.Migration.{FirstFound, LeavesMigrated};
ghost use Rattle.agv_store.specs.Opening.{CanBeMade};
ghost use Rattle.agv_store.specs.Running.{HasDatabase, IsRun, world_till};
ghost use Rattle.agv_store.specs.Serving.{FoundIn, LeavesCall, world_after};

use agv_store_create::making_laws::{made_desks_stand, trees_tell_schemas};
use agv_store_read_tables::new_desk_laws::new_desks_know_nothing;
use sqlite::Alter;

/// Proves that after a crash during a call, or after a fault, an opening finds the rows of the world before the call or
/// of the world after it (`either`), and that for a desk that knows a world an opening finds exactly that world
/// (`known`): after an answer, the world after the call.
pub fn crashes_leave_before_or_after<S: Alter>()
    ensures either { (old new : Held S) (at : ℕ) (call : Call) → Knows S.Store old (world_at S.Store old) → IsClean S.Store new
        → Survives (state S.Store old) (state S.Store new) (LeavesCall S.Store old at call)
        → (trees : Trees) → (state S.Store new).may_leave trees
        → HasDatabase (λ found. FoundIn found (world_at S.Store old) ⊎ FoundIn found (world_after (world_at S.Store old) at call)) trees }
    ensures known { (held : Held S) (world : World) → Knows S.Store held world
        → (trees : Trees) → (state S.Store held).may_leave trees → HasDatabase (λ found. FoundIn found world) trees }
{}

/// Proves that after a crash during [`Desk::create`](crate::Desk::create), on an open connection outside a transaction,
/// an opening finds the database as it was, so that a desk can still be made there, or finds the desk with the empty
/// world (`made`); and the same after a crash during [`Desk::open`](crate::Desk::open) (`opened`).
pub fn crashes_leave_no_desk_or_all_of_it<S: Alter>()
    ensures made { (old new : Held S) → IsOpen S.Store old → (state S.Store old).committed ≡ (state S.Store old).now → IsDatabase (state S.Store old).now
        → CanBeMade (state S.Store old).now.schema → IsClean S.Store new → Survives (state S.Store old) (state S.Store new) (LeavesDesk (state S.Store old).now)
        → (trees : Trees) → (state S.Store new).may_leave trees → HasDatabase (λ found. (found ≡ (state S.Store old).now) ⊎ FoundIn found empty_world) trees }
    ensures opened { (old new : Held S) → IsOpen S.Store old → (state S.Store old).committed ≡ (state S.Store old).now → IsDatabase (state S.Store old).now
        → IsClean S.Store new → Survives (state S.Store old) (state S.Store new) (λ trees. CanBeMade (state S.Store old).now.schema × LeavesDesk (state S.Store old).now trees)
        → (trees : Trees) → (state S.Store new).may_leave trees → HasDatabase (λ found. (found ≡ (state S.Store old).now) ⊎ FoundIn found empty_world) trees }
{
    made_desks_stand();
    new_desks_know_nothing();
}

/// Proves that after a crash during [`Desk::migrate`](crate::Desk::migrate), on an open connection outside a
/// transaction, an opening finds the database as it was, which can still be migrated, or finds the second schema's rows
/// of the same world, which can be adopted.
pub fn crashes_leave_the_first_schema_or_this<S: Alter>()
    ensures { (old new : Held S) → IsOpen S.Store old → (state S.Store old).committed ≡ (state S.Store old).now → IsDatabase (state S.Store old).now
        → IsClean S.Store new → Survives (state S.Store old) (state S.Store new) (LeavesMigrated (state S.Store old).now)
        → (trees : Trees) → (state S.Store new).may_leave trees
        → HasDatabase (λ found. (found ≡ (state S.Store old).now) ⊎ ((had : FirstFound (state S.Store old).now) × FoundIn found had.world)) trees }
{}

/// Proves that after a crash during [`Desk::adopt`](crate::Desk::adopt) or [`Desk::report`](crate::Desk::report), on an
/// open connection outside a transaction, an opening finds the database as it was.
pub fn crashes_leave_what_is_only_read<S: Alter>()
    ensures { (old new : Held S) → IsOpen S.Store old → (state S.Store old).committed ≡ (state S.Store old).now → IsDatabase (state S.Store old).now
        → IsClean S.Store new → Survives (state S.Store old) (state S.Store new) (λ _. ⊥)
        → (trees : Trees) → (state S.Store new).may_leave trees → HasDatabase (λ found. found ≡ (state S.Store old).now) trees }
{}

/// Proves that a crash damages nothing: after one during [`Desk::create`](crate::Desk::create) (`made`),
/// [`Desk::open`](crate::Desk::open) (`opened`), [`Desk::adopt`](crate::Desk::adopt) (`adopted`) or
/// [`Desk::migrate`](crate::Desk::migrate) (`migrated`), each database with the trees that are left is the one from
/// before the call, or has the rows of a lawful world, so that adopting it is not `Damaged`. The connection was open and
/// outside a transaction.
pub fn crashes_damage_nothing<S: Alter>()
    ensures made { (old new : Held S) → IsOpen S.Store old → (state S.Store old).committed ≡ (state S.Store old).now → IsDatabase (state S.Store old).now
        → CanBeMade (state S.Store old).now.schema → IsClean S.Store new → Survives (state S.Store old) (state S.Store new) (LeavesDesk (state S.Store old).now)
        → (found : Database) → IsDatabase found → (state S.Store new).may_leave found.trees → (found ≡ (state S.Store old).now) ⊎ (¬ HasNoWorld found) }
    ensures opened { (old new : Held S) → IsOpen S.Store old → (state S.Store old).committed ≡ (state S.Store old).now → IsDatabase (state S.Store old).now
        → IsClean S.Store new → Survives (state S.Store old) (state S.Store new) (λ trees. CanBeMade (state S.Store old).now.schema × LeavesDesk (state S.Store old).now trees)
        → (found : Database) → IsDatabase found → (state S.Store new).may_leave found.trees → (found ≡ (state S.Store old).now) ⊎ (¬ HasNoWorld found) }
    ensures adopted { (old new : Held S) → IsOpen S.Store old → (state S.Store old).committed ≡ (state S.Store old).now → IsDatabase (state S.Store old).now
        → IsClean S.Store new → Survives (state S.Store old) (state S.Store new) (λ _. ⊥)
        → (found : Database) → IsDatabase found → (state S.Store new).may_leave found.trees → found ≡ (state S.Store old).now }
    ensures migrated { (old new : Held S) → IsOpen S.Store old → (state S.Store old).committed ≡ (state S.Store old).now → IsDatabase (state S.Store old).now
        → IsClean S.Store new → Survives (state S.Store old) (state S.Store new) (LeavesMigrated (state S.Store old).now)
        → (found : Database) → IsDatabase found → (state S.Store new).may_leave found.trees → (found ≡ (state S.Store old).now) ⊎ (¬ HasNoWorld found) }
{
    made_desks_stand();
    new_desks_know_nothing();
    trees_tell_schemas();
}

/// Proves that trees determine the world whose rows they have: all databases with the same trees have the same world,
/// so [`Desk::adopt`](crate::Desk::adopt) doesn't find what a crash left damaged.
pub fn trees_tell_worlds()
    ensures { (found other : Database) (world : World) → IsDatabase found → IsDatabase other → other.trees ≡ found.trees → FoundIn found world → FoundIn other world }
{
    trees_tell_schemas();
}

/// Proves that however a list of calls ends, a desk whose store was open knows the world after the calls that were
/// answered, and goes on from there, unless its disk had a fault meanwhile.
pub fn desks_go_on_behind_a_list<S: Alter>()
    ensures { (old new : Held S) (calls : List (ℕ × Call)) (given : List Answer) (ended : Option Fault) → IsRun S.Store old new calls given ended
        → IsClean S.Store new → IsOpen S.Store old → ¬ MoreFaults (state S.Store old).faults (state S.Store new).faults
        → Knows S.Store new (world_till (world_at S.Store old) calls (length given)) }
{}
