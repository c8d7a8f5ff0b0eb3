//! The order of an action's statuses.
ghost use Rattle.std.specs.Prelude.{◌≡◌};
ghost use Rattle.agv_order.specs.Statuses.{merge, may_follow, is_final, is_finished, is_waiting};

use agv_message_core::Status;

/// Returns whether the action is finished: the load was picked or dropped.
pub fn is_finished(status: Status) -> bool
    ensures { result ≡ is_finished status }
{
    matches!(status, Status::Finished)
}

/// Returns whether no other status follows: the action is finished, or it has failed.
pub fn is_final(status: Status) -> bool
    ensures { result ≡ is_final status }
{
    matches!(status, Status::Finished | Status::Failed)
}

/// Returns the new status of an action if it may follow the old one: any may follow Waiting, any but
/// Waiting may follow an active one, and only a final one itself follows it (VDA 5050 2.0, actionStatus).
///
/// Returns `None` if it may not.
pub fn merge(old: Status, new: Status) -> Option<Status>
    ensures { result ≡ merge old new }
{
    if may_follow(old, new) {
        Some(new)
    } else {
        None
    }
}

/// Returns whether the new status may follow the old one.
fn may_follow(old: Status, new: Status) -> bool
    ensures { result ≡ may_follow old new }
{
    match old {
        Status::Waiting => true,
        Status::Initializing | Status::Running | Status::Paused => !is_waiting(new),
        Status::Finished => matches!(new, Status::Finished),
        Status::Failed => matches!(new, Status::Failed),
    }
}

/// Returns whether the action has not begun.
pub(crate) fn is_waiting(status: Status) -> bool
    ensures { result ≡ is_waiting status }
{
    match status {
        Status::Waiting => true,
        Status::Initializing
        | Status::Running
        | Status::Paused
        | Status::Finished
        | Status::Failed => false,
    }
}
