//! How decisions are made of answers and changes.
ghost use Rattle.std.specs.Prelude.{◌≡◌, IfOk, [], ◌∷◌};
ghost use Rattle.agv_desk.specs.Outcomes.{Made, RowOnly, Refused, decided, answer_only};

use crate::vehicle_rows::push_row;
use crate::{Answer, Decision};
use agv_header::{Memory, Refusal, VehicleKey};
use agv_message_core::Sequence;
use agv_world_core::{Change, VehicleRow};
use std::alloc::Global;

/// Returns the decision that refuses a call, and changes nothing.
pub(crate) fn refused(alloc: Global, why: Refusal) -> Decision
    ensures { result ≡ decided (Refused why) }
{
    Decision {
        answer: Answer::Refused(why),
        changes: Sequence::from(Vec::new(alloc)),
    }
}

/// Returns the decision with this answer and these changes.
pub(crate) fn made_with(answer: Answer, changes: Vec<Change>) -> Decision
    ensures answer { result.answer ≡ answer }
    ensures changes { result.changes ≡ changes.items }
{
    Decision {
        answer,
        changes: Sequence::from(changes),
    }
}

/// Returns the decision with this answer that changes only a vehicle's own row, if the row changes.
pub(crate) fn row_update(
    alloc: Global,
    answer: Answer,
    key: &VehicleKey,
    old: &VehicleRow,
    new: VehicleRow,
) -> Result<Decision, Memory>
    ensures { IfOk result (λ decision. decision ≡ decided (Made (record (answer_only answer) { touched = RowOnly key.now old.now new }))) }
{
    let mut changes = Vec::new(alloc);
    push_row(key, old, new, &mut changes)?;
    Ok(made_with(answer, changes))
}
