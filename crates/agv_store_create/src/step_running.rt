//! Executing SQL texts that write, in one transaction.
ghost use Rattle.std.specs.Prelude.{◌≡◌, ◌⊎◌, [], ◌∷◌, true, false, map, IfErr, IsTrue, OnErr, OnOk};
ghost use Rattle.sqlite.specs.State.{HasCleanDisk, KeepsCommit, Survives};
ghost use Rattle.sqlite.specs.Held.{state};
ghost use Rattle.agv_store_schema.specs.Connections.{HasStorageCause};
ghost use Rattle.agv_store_schema.specs.Errors.{IsOfStore};
ghost use Rattle.agv_store_create.specs.Refusals.{RefusesSteps, RefusesText};
ghost use Rattle.agv_store_create.specs.TextsRun.{LeavesSteps, RunSteps, RunsSteps};

use sqlite::{Alter, Connection, Error, Transaction};

/// Executes the wanted steps in one transaction. If it succeeds, their effect is committed; after an error that leaves
/// the store open nothing is; a store that was closed stays closed; and a crash leaves none of it or all.
pub(crate) fn run_steps<S: Alter>(
    conn: &mut Connection<S>,
    steps: &[(bool, &str)],
) -> Result<(), Error>
    requires { conn.old.in_transaction ≡ false }
    ensures ran { HasCleanDisk (state S.Store conn.new) → OnOk result (RunSteps (map (λ step. (step.0, step.1.now)) steps.now) (state S.Store conn.old).now (state S.Store conn.new).committed) }
    ensures all_committed { HasCleanDisk (state S.Store conn.new) → OnOk result ((state S.Store conn.new).now ≡ (state S.Store conn.new).committed) }
    ensures open { HasCleanDisk (state S.Store conn.new) → OnOk result (IsTrue (state S.Store conn.old).is_open × IsTrue (state S.Store conn.new).is_open) }
    ensures was_open { HasCleanDisk (state S.Store conn.new) → IsTrue (state S.Store conn.new).is_open → IsTrue (state S.Store conn.old).is_open }
    ensures undone { HasCleanDisk (state S.Store conn.new) → IsTrue (state S.Store conn.new).is_open
        → OnErr result (((state S.Store conn.new).now ≡ (state S.Store conn.old).committed) × ((state S.Store conn.new).committed ≡ (state S.Store conn.old).committed)) }
    ensures caused { HasCleanDisk (state S.Store conn.new)
        → IfErr result (λ why. IsOfStore why → HasStorageCause S.Store conn.old conn.new ⊎ RefusesSteps (map (λ step. (step.0, step.1.now)) steps.now) (state S.Store conn.old).now) }
    ensures crash { Survives (state S.Store conn.old) (state S.Store conn.new) (LeavesSteps (map (λ step. (step.0, step.1.now)) steps.now) (state S.Store conn.old).now) }
    ensures idle { conn.new.in_transaction ≡ false }
{
    let mut tx = conn.transaction();
    for step in steps {
        run_step(&mut tx, step.0, step.1)?;
    }
    tx.commit()
}

/// Executes the text, if it is wanted.
fn run_step<S: Alter>(
    tx: &mut Transaction<'_, S>,
    is_wanted: bool,
    sql: &str,
) -> Result<usize, Error>
    ensures same_reference { tx.new.conn.ghost_name ≡ tx.old.conn.ghost_name }
    ensures survives { Survives (state S.Store tx.old.conn.now) (state S.Store tx.new.conn.now) (λ _. ⊥) }
    ensures kept { HasCleanDisk (state S.Store tx.new.conn.now) → KeepsCommit (state S.Store tx.old.conn.now) (state S.Store tx.new.conn.now) }
    ensures ran { HasCleanDisk (state S.Store tx.new.conn.now) → IsTrue (state S.Store tx.old.conn.now).in_transaction
        → OnOk result (RunsSteps ((is_wanted, sql.now) ∷ []) (state S.Store tx.old.conn.now) (state S.Store tx.new.conn.now)) }
    ensures caused { HasCleanDisk (state S.Store tx.new.conn.now) → IsTrue (state S.Store tx.old.conn.now).in_transaction
        → IfErr result (λ why. IsOfStore why → HasStorageCause S.Store tx.old.conn.now tx.new.conn.now ⊎ RefusesSteps ((is_wanted, sql.now) ∷ []) (state S.Store tx.old.conn.now).now) }
{
    if is_wanted { run_text(tx, sql) } else { Ok(0) }
}

/// Executes the text.
pub fn run_text<S: Alter>(tx: &mut Transaction<'_, S>, sql: &str) -> Result<usize, Error>
    ensures same_reference { tx.new.conn.ghost_name ≡ tx.old.conn.ghost_name }
    ensures survives { Survives (state S.Store tx.old.conn.now) (state S.Store tx.new.conn.now) (λ _. ⊥) }
    ensures kept { HasCleanDisk (state S.Store tx.new.conn.now) → KeepsCommit (state S.Store tx.old.conn.now) (state S.Store tx.new.conn.now) }
    ensures ran { HasCleanDisk (state S.Store tx.new.conn.now) → OnOk result (RunsSteps ((true, sql.now) ∷ []) (state S.Store tx.old.conn.now) (state S.Store tx.new.conn.now)) }
    ensures caused { HasCleanDisk (state S.Store tx.new.conn.now) → IsTrue (state S.Store tx.old.conn.now).in_transaction
        → IfErr result (λ why. IsOfStore why → HasStorageCause S.Store tx.old.conn.now tx.new.conn.now ⊎ RefusesText sql.now (state S.Store tx.old.conn.now).now) }
{
    tx.execute(sql, &[])
}
