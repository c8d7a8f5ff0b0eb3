//! The bytes of reports: the floor reads lists from the tables, which changes nothing, and `agv_count` writes the text.
ghost use Rattle.std.specs.Prelude.{◌≡◌, ℕ, false, true, Err, IfOk, OnOk};
ghost use Rattle.sqlite.specs.Held.{state};
ghost use Rattle.sqlite.specs.State.{Survives};
ghost use Rattle.agv_world_core.specs.Asks.{Asks};
ghost use Rattle.agv_world_core.specs.Lawful.{IsLawful};
ghost use Rattle.agv_world_core.specs.declared.fault.Fault.TheVariants as fault;
ghost use Rattle.agv_desk.specs.Reports.{report_text};
ghost use Rattle.agv_desk.specs.declared.call.Call.TheVariants as call;
ghost use Rattle.agv_desk.specs.declared.report.Report.TheVariants as report;
ghost use Rattle.agv_store_schema.specs.SchemaNumbers.{desk_seats};
ghost use Rattle.agv_store_schema.specs.Connections.{IsClean, IsOpen};
ghost use Rattle.agv_store_floor.specs.Flags.{EndsAs};
ghost use Rattle.agv_store_floor.specs.Floors.{Knows, facts_of, world_at};
ghost use Rattle.agv_store.specs.Serving.{IsServedBy, LeavesAll};

use crate::desk::Desk;
use agv_count::{hold_report, layout_csv, loads_csv, stock_report};
use agv_count_exports::{jobs_csv, vehicles_csv};
use agv_desk::{Answer, Report};
use agv_message_core::Sequence;
use agv_store_floor::KeyedFloor;
use agv_world_core::Fault;
use sqlite::Alter;

impl<S: Alter + Drop> Desk<S> {
    /// Returns the bytes of a report of the desk's current world, which are exactly `report_text` of `agv_desk` in the
    /// world whose rows the tables have (`tells`), the same before and after the call (`knew`, `knows`).
    /// [`serve`](Desk::serve) answers a call for the report with the same bytes.
    ///
    /// It only queries. Where the store is open afterwards, it was open before, and the database's contents are
    /// unchanged (`unchanged`, `was_open`); a crash leaves what it could leave before (`crash`).
    ///
    /// # Errors
    /// `Memory` when out of memory. `Storage` where the store failed or had failed before: exactly where
    /// [`failed`](Desk::failed) is `true` as it ends (`ends`). A desk that had failed before queries nothing and is
    /// unchanged (`fails`, `stopped`).
    pub fn report(&mut self, report: Report) -> Result<Vec<u8>, Fault>
        ensures tells { IsClean S.Store self.new.held → IfOk result (λ bytes. bytes.items ≡ report_text (world_at S.Store self.old.held) report) }
        ensures knew { IsClean S.Store self.new.held → OnOk result (Knows S.Store self.old.held (world_at S.Store self.old.held)) }
        ensures knows { IsClean S.Store self.new.held → OnOk result (Knows S.Store self.new.held (world_at S.Store self.old.held)) }
        ensures unchanged { IsClean S.Store self.new.held → IsOpen S.Store self.new.held → LeavesAll S.Store self.old.held self.new.held }
        ensures was_open { IsClean S.Store self.new.held → IsOpen S.Store self.new.held → IsOpen S.Store self.old.held }
        ensures crash { Survives (state S.Store self.old.held) (state S.Store self.new.held) (λ _. ⊥) }
        ensures ends { EndsAs result self.new.failed }
        ensures fails { self.old.failed ≡ true → self.new.failed ≡ true }
        ensures stopped { self.old.failed ≡ true → (result ≡ Err fault.Storage) × (self.new ≡ self.old) }
    {
        report_bytes(&mut self.floor, report)
    }
}

/// Answers a call for a report with its bytes in the desk's world.
pub(crate) fn serve_report<S: Alter + Drop>(
    floor: &mut KeyedFloor<S>,
    report: Report,
) -> Result<Answer, Fault>
    ensures knew { IsClean S.Store floor.new.held → OnOk result (Knows S.Store floor.old.held (world_at S.Store floor.old.held)) }
    ensures serves { IsClean S.Store floor.new.held → IfOk result (λ answer. (at : ℕ) → IsServedBy S.Store floor.old.held floor.new.held at (call.Report report) answer) }
    ensures unchanged { IsClean S.Store floor.new.held → IsOpen S.Store floor.new.held → LeavesAll S.Store floor.old.held floor.new.held }
    ensures was_open { IsClean S.Store floor.new.held → IsOpen S.Store floor.new.held → IsOpen S.Store floor.old.held }
    ensures crash { Survives (state S.Store floor.old.held) (state S.Store floor.new.held) (λ _. ⊥) }
    ensures ends { EndsAs result floor.new.failed }
    ensures fails { floor.old.failed ≡ true → floor.new.failed ≡ true }
    ensures stopped { floor.old.failed ≡ true → (result ≡ Err fault.Storage) × (floor.new ≡ floor.old) }
{
    let text = report_bytes(floor, report)?;
    Ok(Answer::Report {
        report,
        text: Sequence::from(text),
    })
}

/// Returns the bytes of a report.
fn report_bytes<S: Alter + Drop>(
    floor: &mut KeyedFloor<S>,
    report: Report,
) -> Result<Vec<u8>, Fault>
    ensures tells { IsClean S.Store floor.new.held → IfOk result (λ bytes. bytes.items ≡ report_text (world_at S.Store floor.old.held) report) }
    ensures knew { IsClean S.Store floor.new.held → OnOk result (Knows S.Store floor.old.held (world_at S.Store floor.old.held)) }
    ensures knows { IsClean S.Store floor.new.held → OnOk result (Knows S.Store floor.new.held (world_at S.Store floor.old.held)) }
    ensures unchanged { IsClean S.Store floor.new.held → IsOpen S.Store floor.new.held → LeavesAll S.Store floor.old.held floor.new.held }
    ensures was_open { IsClean S.Store floor.new.held → IsOpen S.Store floor.new.held → IsOpen S.Store floor.old.held }
    ensures crash { Survives (state S.Store floor.old.held) (state S.Store floor.new.held) (λ _. ⊥) }
    ensures ends { EndsAs result floor.new.failed }
    ensures fails { floor.old.failed ≡ true → floor.new.failed ≡ true }
    ensures stopped { floor.old.failed ≡ true → (result ≡ Err fault.Storage) × (floor.new ≡ floor.old) }
{
    floor.knows();
    reported(floor, report)
}

/// Returns the bytes of the report, checking that the store is open before and after.
fn reported<S: Alter + Drop>(floor: &mut KeyedFloor<S>, report: Report) -> Result<Vec<u8>, Fault>
    ensures tells { Asks (facts_of S.Store) floor.old floor.new result (λ world bytes. IsLawful desk_seats world → bytes.items ≡ report_text world report) }
    ensures knows { IsClean S.Store floor.new.held → OnOk result (Knows S.Store floor.new.held (world_at S.Store floor.new.held)) }
    ensures ends { EndsAs result floor.new.failed }
    ensures stopped { floor.old.failed ≡ true → (result ≡ Err fault.Storage) × (floor.new ≡ floor.old) }
{
    floor.settle()?;
    let bytes = bytes_of(floor, report)?;
    floor.settle()?;
    Ok(bytes)
}

/// Returns the bytes of the report from an open store.
fn bytes_of<S: Alter + Drop>(floor: &mut KeyedFloor<S>, report: Report) -> Result<Vec<u8>, Fault>
    ensures { Asks (facts_of S.Store) floor.old floor.new result (λ world bytes. IsLawful desk_seats world → bytes.items ≡ report_text world report) }
{
    match report {
        Report::Stock => stock(floor),
        Report::Holds => holds(floor),
        Report::Loads => export(floor),
        Report::Jobs => jobs(floor),
        Report::Vehicles => vehicles(floor),
        Report::Layout => layout(floor),
    }
}

/// Reports the stations with their loads and the live jobs to them, the vehicles with their loads, and how many loads
/// have left.
fn stock<S: Alter + Drop>(floor: &mut KeyedFloor<S>) -> Result<Vec<u8>, Fault>
    ensures { Asks (facts_of S.Store) floor.old floor.new result (λ world bytes. IsLawful desk_seats world → bytes.items ≡ report_text world report.Stock) }
{
    let alloc = floor.alloc;
    let stations = floor.stations_told()?;
    let loads = floor.loads_told()?;
    let vehicles = floor.vehicles_told()?;
    Ok(stock_report(alloc, &stations, &loads, &vehicles)?)
}

/// Reports what is held and by which vehicle, and how many nodes and edges there are.
fn holds<S: Alter + Drop>(floor: &mut KeyedFloor<S>) -> Result<Vec<u8>, Fault>
    ensures { Asks (facts_of S.Store) floor.old floor.new result (λ world bytes. IsLawful desk_seats world → bytes.items ≡ report_text world report.Holds) }
{
    let alloc = floor.alloc;
    let holds = floor.holds_told()?;
    let things = floor.things_counted()?;
    Ok(hold_report(alloc, &holds, things)?)
}

/// Exports where each load is, as CSV.
fn export<S: Alter + Drop>(floor: &mut KeyedFloor<S>) -> Result<Vec<u8>, Fault>
    ensures { Asks (facts_of S.Store) floor.old floor.new result (λ world bytes. bytes.items ≡ report_text world report.Loads) }
{
    let alloc = floor.alloc;
    let loads = floor.loads_told()?;
    Ok(loads_csv(alloc, &loads)?)
}

/// Exports the live jobs, each with the vehicle that carries it out, as CSV.
fn jobs<S: Alter + Drop>(floor: &mut KeyedFloor<S>) -> Result<Vec<u8>, Fault>
    ensures { Asks (facts_of S.Store) floor.old floor.new result (λ world bytes. bytes.items ≡ report_text world report.Jobs) }
{
    let alloc = floor.alloc;
    let jobs = floor.jobs_told()?;
    let vehicles = floor.vehicles_with_trips_told()?;
    Ok(jobs_csv(alloc, &jobs, &vehicles)?)
}

/// Exports the vehicles with their open orders, as CSV.
fn vehicles<S: Alter + Drop>(floor: &mut KeyedFloor<S>) -> Result<Vec<u8>, Fault>
    ensures { Asks (facts_of S.Store) floor.old floor.new result (λ world bytes. bytes.items ≡ report_text world report.Vehicles) }
{
    let alloc = floor.alloc;
    let vehicles = floor.vehicles_with_trips_told()?;
    Ok(vehicles_csv(alloc, &vehicles)?)
}

/// Exports the layout, as CSV.
fn layout<S: Alter + Drop>(floor: &mut KeyedFloor<S>) -> Result<Vec<u8>, Fault>
    ensures { Asks (facts_of S.Store) floor.old floor.new result (λ world bytes. IsLawful desk_seats world → bytes.items ≡ report_text world report.Layout) }
{
    let alloc = floor.alloc;
    let rows = floor.layout_told()?;
    Ok(layout_csv(alloc, &rows)?)
}
