//! What is true of the exports of the layout, the jobs and the vehicles. Each function's clause is the law.
ghost use Rattle.std.specs.Prelude.{◌≡◌, ◌↔◌, ℕ, true, List, None, Some, Ok, option_map, Contains, map};
ghost use Rattle.std.specs.List.Sorted.{IsStrictlySortedBy};
ghost use Rattle.std.specs.Map.{keys_of};
ghost use Rattle.agv_count.specs.LayoutFile.{layout_rows_in};
ghost use Rattle.agv_count_exports.specs.Exports.{jobs_told, carrier_of, vehicles_told};
ghost use Rattle.agv_count_exports.specs.declared.told.VehicleTold.{VehicleTold};
ghost use Rattle.agv_header.specs.Key.{key_cmp};
ghost use Rattle.agv_header.specs.Name.{name_cmp};
ghost use Rattle.agv_layout.specs.Layout.{KeepsRules};
ghost use Rattle.agv_layout.specs.LayoutOf.{layout_of};
ghost use Rattle.agv_stock.specs.Phase.{is_live};
ghost use Rattle.agv_stock.specs.declared.job.Phase.TheVariants as phase;
ghost use Rattle.agv_world_core.specs.ConsistentTrips.{IsVehicle};
ghost use Rattle.agv_world_core.specs.Lawful.{IsJob, IsLawful};
ghost use Rattle.agv_world_core.specs.Worlds.{World};
ghost use Rattle.agv_world_core.specs.declared.row.JobRow.{JobRow as RowOf};
ghost use Rattle.agv_desk.specs.Exported.{IsCarrier};
ghost use Rattle.agv_desk.specs.Outcomes.{answer_of};
ghost use Rattle.agv_desk.specs.ReadSteps.{open_order};
ghost use Rattle.agv_desk.specs.Reports.{report_text};
ghost use Rattle.agv_desk.specs.Step.{step};
ghost use Rattle.agv_desk.specs.declared.answer.Answer.TheVariants as answer;
ghost use Rattle.agv_desk.specs.declared.call.Call.TheVariants as call;
ghost use Rattle.agv_desk.specs.declared.report.Report.TheVariants as report;

use agv_count::laws::export_gives_layout;

/// Proves that the export of the layout, read back as the body of a call to set it, gives the same layout.
pub fn exports_its_layout()
    ensures { (world : World) → KeepsRules world.layout
        → option_map layout_of (layout_rows_in (report_text world report.Layout)) ≡ Some (Ok world.layout) }
{
    export_gives_layout();
}

/// Proves that in a lawful world the export of jobs names no vehicle for a waiting job, so that the last three fields
/// of its line are empty, and for a riding job the vehicle whose open trip has an unfinished drop of it.
pub fn exports_carriers()
    ensures waiting { (seats : ℕ) (world : World) (job : List ℕ) (row : RowOf) → IsLawful seats world → IsJob world job row
        → row.phase ≡ phase.Waiting → carrier_of (vehicles_told world) job ≡ None }
    ensures riding { (seats : ℕ) (world : World) (job : List ℕ) (row : RowOf) → IsLawful seats world → IsJob world job row
        → row.phase ≡ phase.Riding
        → (vehicle : VehicleTold) × (carrier_of (vehicles_told world) job ≡ Some vehicle) × IsCarrier world job vehicle }
{}

/// Proves that the export of jobs lists exactly the live jobs of the world, each with its row, and each once, in the
/// order of their names.
pub fn exports_live_jobs()
    ensures live { (world : World) (job : List ℕ) (row : RowOf)
        → Contains (jobs_told world) (job, row) ↔ (IsJob world job row × (is_live row.phase ≡ true)) }
    ensures once { (world : World) → IsStrictlySortedBy name_cmp (keys_of (jobs_told world)) }
{}

/// Proves that the export of vehicles lists exactly the vehicles of the world, each with its row and its open trip, and
/// each once, in the order of their keys. A vehicle that is asked for is told with this row and the order of this trip.
pub fn exports_vehicles()
    ensures all { (world : World) (vehicle : VehicleTold)
        → Contains (vehicles_told world) vehicle ↔ IsVehicle world vehicle.key (record { row = vehicle.row; trip = vehicle.trip }) }
    ensures once { (world : World) → IsStrictlySortedBy key_cmp (map (λ (vehicle : VehicleTold). vehicle.key) (vehicles_told world)) }
    ensures told { (seats : ℕ) (world : World) (at : ℕ) (vehicle : VehicleTold) → Contains (vehicles_told world) vehicle
        → answer_of (step seats world at (call.GetVehicle vehicle.key)) ≡ answer.Vehicle vehicle.key vehicle.row (option_map open_order vehicle.trip) }
{}
