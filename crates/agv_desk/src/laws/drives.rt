//! What is true of the call that starts a drive. The function's clause is the law.
ghost use Rattle.std.specs.Prelude.{◌≡◌, ◌⊎◌, ℕ, false, List};
ghost use Rattle.agv_header.specs.declared.key.VehicleKey.{VehicleKey};
ghost use Rattle.agv_layout.specs.Layout.{KeepsRules};
ghost use Rattle.agv_world_core.specs.Worlds.{World, empty_layout};
ghost use Rattle.agv_desk.specs.Causes.{is_refusal};
ghost use Rattle.agv_desk.specs.Driven.{IsDriven};
ghost use Rattle.agv_desk.specs.Outcomes.{after, answer_of};
ghost use Rattle.agv_desk.specs.Step.{step};
ghost use Rattle.agv_desk.specs.declared.answer.Answer.TheVariants as answer;
ghost use Rattle.agv_desk.specs.declared.call.Call.TheVariants as call;

use agv_layout::laws::gives_itself;
use agv_order::laws::drives_go_by_the_route;

/// Proves that a drive that is not refused is answered with the number 0, and that the vehicle, which had no open trip,
/// then has the drive from its node to the given one by the layout's route, with as many edges released as the call
/// asks for. The layout is not set yet or follows its rules, as in each lawful world.
pub fn sends_the_drive()
    ensures { (seats : ℕ) (world : World) (at : ℕ) (order : List ℕ) (key : VehicleKey) (to : List ℕ) (edges : ℕ)
        → (world.layout ≡ empty_layout) ⊎ KeepsRules world.layout
        → is_refusal (answer_of (step seats world at (call.StartDrive order key to edges))) ≡ false
        → (answer_of (step seats world at (call.StartDrive order key to edges)) ≡ answer.Update 0)
        × IsDriven at order key to edges world (after world (step seats world at (call.StartDrive order key to edges))) }
{
    drives_go_by_the_route();
    gives_itself();
}
