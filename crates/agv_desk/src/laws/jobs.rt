//! What is told of a job that is asked for. Each function's clause is the law.
ghost use Rattle.std.specs.Prelude.{◌≡◌, ◌≢◌, ℕ, true, List, None, Some};
ghost use Rattle.std.specs.Option.{option_and_then};
ghost use Rattle.agv_count_exports.specs.Exports.{as_carrier, carrier_of, vehicles_told};
ghost use Rattle.agv_stock.specs.Phase.{is_live};
ghost use Rattle.agv_stock.specs.declared.job.Phase.TheVariants as phase;
ghost use Rattle.agv_world_core.specs.Lawful.{IsJob, IsLawful};
ghost use Rattle.agv_world_core.specs.Worlds.{World};
ghost use Rattle.agv_world_core.specs.declared.floor.Carrier.{Carrier as CarrierOf};
ghost use Rattle.agv_world_core.specs.declared.row.JobRow.{JobRow as RowOf};
ghost use Rattle.agv_desk.specs.Exported.{IsCarriedBy};
ghost use Rattle.agv_desk.specs.Outcomes.{answer_of};
ghost use Rattle.agv_desk.specs.Step.{step};
ghost use Rattle.agv_desk.specs.declared.answer.Answer.TheVariants as answer;
ghost use Rattle.agv_desk.specs.declared.call.Call.TheVariants as call;

use agv_count_exports::gives_the_carrier;

/// Proves that in a lawful world a job that is asked for is told with its row, and a riding one with the vehicle whose
/// open trip has an unfinished drop of it, and that trip's order; another job is told with no vehicle. Of a live job it
/// is the vehicle that the export of jobs names.
pub fn tells_carriers()
    ensures riding { (seats : ℕ) (world : World) (at : ℕ) (job : List ℕ) (row : RowOf) → IsLawful seats world → IsJob world job row
        → row.phase ≡ phase.Riding
        → (carrier : CarrierOf) × (answer_of (step seats world at (call.GetJob job)) ≡ answer.Job job row (Some carrier)) × IsCarriedBy world job carrier }
    ensures none { (seats : ℕ) (world : World) (at : ℕ) (job : List ℕ) (row : RowOf) → IsJob world job row → row.phase ≢ phase.Riding
        → answer_of (step seats world at (call.GetJob job)) ≡ answer.Job job row None }
    ensures exported { (seats : ℕ) (world : World) (at : ℕ) (job : List ℕ) (row : RowOf) → IsLawful seats world → IsJob world job row
        → is_live row.phase ≡ true
        → answer_of (step seats world at (call.GetJob job)) ≡ answer.Job job row (option_and_then as_carrier (carrier_of (vehicles_told world) job)) }
{
    gives_the_carrier();
}
