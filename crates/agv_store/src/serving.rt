//! Serving one call: it is decided by queries outside a transaction, its changes are written in one transaction, and it
//! is answered after the commit.
ghost use Rattle.std.specs.Prelude.{◌≡◌, false, true, None, Err, IfOk, OnErr, OnOk};
ghost use Rattle.sqlite.specs.Held.{state};
ghost use Rattle.sqlite.specs.State.{Survives};
ghost use Rattle.agv_world_core.specs.Asks.{Asks};
ghost use Rattle.agv_world_core.specs.Lawful.{IsLawful};
ghost use Rattle.agv_world_core.specs.declared.fault.Fault.TheVariants as fault;
ghost use Rattle.agv_desk.specs.Reports.{report_asked};
ghost use Rattle.agv_store_schema.specs.SchemaNumbers.{desk_seats};
ghost use Rattle.agv_store_schema.specs.Connections.{IsClean, IsOpen};
ghost use Rattle.agv_store_floor.specs.Flags.{EndsAs};
ghost use Rattle.agv_store_floor.specs.Floors.{Knows, facts_of, world_at};
ghost use Rattle.agv_store.specs.Serving.{Decides, IsServedBy, LeavesAll, LeavesCall};

use crate::reports::serve_report;
use agv_desk::laws::calls::serves_what_was_decided;
use agv_desk::laws::counts::{adds_below_the_limit, counts_follow};
use agv_desk::laws::lawful::{keeps_lawful, serves_lawful_worlds};
use agv_desk::{Answer, Call, Decision, counted_by, decide};
use agv_header::Moment;
use agv_store_changes::change_laws::changes_make_the_next_world;
use agv_store_changes::change_running::write_changes;
use agv_store_floor::KeyedFloor;
use agv_store_floor::flags::raise;
use agv_store_read_tables::world_laws::a_database_tells_its_world;
use agv_world_core::Fault;
use agv_world_core::lawful_laws::has_consistent_trips;
use agv_world_core::laws::maps_tell_the_world;
use sqlite::Alter;

/// Serves a call: answers a call for a report with the report's bytes, and decides every other call.
pub(crate) fn serve<S: Alter + Drop>(
    floor: &mut KeyedFloor<S>,
    at: Moment,
    call: &Call,
) -> Result<Answer, Fault>
    ensures knew { IsClean S.Store floor.new.held → OnOk result (Knows S.Store floor.old.held (world_at S.Store floor.old.held)) }
    ensures serves { IsClean S.Store floor.new.held → IfOk result (IsServedBy S.Store floor.old.held floor.new.held at call.now) }
    ensures unchanged_on_err { IsClean S.Store floor.new.held → IsOpen S.Store floor.new.held → OnErr result (LeavesAll S.Store floor.old.held floor.new.held) }
    ensures was_open { IsClean S.Store floor.new.held → IsOpen S.Store floor.new.held → IsOpen S.Store floor.old.held }
    ensures crash { Survives (state S.Store floor.old.held) (state S.Store floor.new.held) (LeavesCall S.Store floor.old.held at call.now) }
    ensures ends { EndsAs result floor.new.failed }
    ensures fails { floor.old.failed ≡ true → floor.new.failed ≡ true }
    ensures stopped { floor.old.failed ≡ true → (result ≡ Err fault.Storage) × (floor.new ≡ floor.old) }
{
    match call.report() {
        Some(report) => serve_report(floor, report),
        None => serve_decided(floor, at, call),
    }
}

/// Serves a call that asks for no report: decides it and writes its changes.
fn serve_decided<S: Alter + Drop>(
    floor: &mut KeyedFloor<S>,
    at: Moment,
    call: &Call,
) -> Result<Answer, Fault>
    requires no_report { report_asked call.now ≡ None }
    ensures knew { IsClean S.Store floor.new.held → OnOk result (Knows S.Store floor.old.held (world_at S.Store floor.old.held)) }
    ensures serves { IsClean S.Store floor.new.held → IfOk result (IsServedBy S.Store floor.old.held floor.new.held at call.now) }
    ensures unchanged_on_err { IsClean S.Store floor.new.held → IsOpen S.Store floor.new.held → OnErr result (LeavesAll S.Store floor.old.held floor.new.held) }
    ensures was_open { IsClean S.Store floor.new.held → IsOpen S.Store floor.new.held → IsOpen S.Store floor.old.held }
    ensures crash { Survives (state S.Store floor.old.held) (state S.Store floor.new.held) (LeavesCall S.Store floor.old.held at call.now) }
    ensures ends { EndsAs result floor.new.failed }
    ensures fails { floor.old.failed ≡ true → floor.new.failed ≡ true }
    ensures stopped { floor.old.failed ≡ true → (result ≡ Err fault.Storage) × (floor.new ≡ floor.old) }
{
    floor.knows();
    has_consistent_trips();
    maps_tell_the_world();
    let decision = decided(floor, at, call)?;
    if decision.changes.is_empty() {
        return Ok(decision.answer);
    }
    write(floor, decision, at, call)
}

/// Decides the call, checking that the store is open before and after.
fn decided<S: Alter + Drop>(
    floor: &mut KeyedFloor<S>,
    at: Moment,
    call: &Call,
) -> Result<Decision, Fault>
    requires no_report { report_asked call.now ≡ None }
    ensures decides { Asks (facts_of S.Store) floor.old floor.new result (λ world decision. IsLawful desk_seats world → Decides world at call.now decision) }
    ensures knows { IsClean S.Store floor.new.held → OnOk result (Knows S.Store floor.new.held (world_at S.Store floor.new.held)) }
    ensures ends { EndsAs result floor.new.failed }
    ensures stopped { floor.old.failed ≡ true → (result ≡ Err fault.Storage) × (floor.new ≡ floor.old) }
{
    serves_lawful_worlds();
    serves_what_was_decided();
    keeps_lawful();
    let _ms = at.ms();
    call.typing_law();
    let alloc = floor.alloc;
    floor.settle()?;
    let decision = decide(alloc, floor, at, call)?;
    floor.settle()?;
    Ok(decision)
}

/// Writes the decision's changes in one transaction, and updates what is known beside the tables.
fn write<S: Alter + Drop>(
    floor: &mut KeyedFloor<S>,
    decision: Decision,
    at: Moment,
    call: &Call,
) -> Result<Answer, Fault>
    requires knows { IsClean S.Store floor.old.held → Knows S.Store floor.old.held (world_at S.Store floor.old.held) }
    requires decides { IsClean S.Store floor.old.held → Decides (world_at S.Store floor.old.held) at call.now decision }
    requires works { floor.old.failed ≡ false }
    ensures serves { IsClean S.Store floor.new.held → IfOk result (IsServedBy S.Store floor.old.held floor.new.held at call.now) }
    ensures unchanged_on_err { IsClean S.Store floor.new.held → IsOpen S.Store floor.new.held → OnErr result (LeavesAll S.Store floor.old.held floor.new.held) }
    ensures was_open { IsClean S.Store floor.new.held → IsOpen S.Store floor.new.held → IsOpen S.Store floor.old.held }
    ensures crash { Survives (state S.Store floor.old.held) (state S.Store floor.new.held) (LeavesCall S.Store floor.old.held at call.now) }
    ensures ends { EndsAs result floor.new.failed }
{
    a_database_tells_its_world();
    changes_make_the_next_world();
    counts_follow();
    adds_below_the_limit();
    let written = write_changes(&mut floor.conn, decision.changes.as_slice());
    raise(&mut floor.failed, &mut floor.in_doubt, written)?;
    let more = counted_by(call, &decision.answer);
    floor.known.follow(more, decision.changes.as_slice());
    Ok(decision.answer)
}
