//! Stops: the picks and drops that an order is to make, one after another.
ghost use Rattle.std.specs.Prelude.{◌≡◌};
ghost use Rattle.std.specs.List.{list_all};
ghost use Rattle.agv_order.specs.Stops.{kinds_of, is_pick_then_drop, stops_fit};

use crate::job_progress::is_picked_then_dropped;
use agv_header::Name;
use agv_message_core::ActKind;

/// A stop of an order: the load of a job is to be picked at the job's origin, or dropped at its target.
#[derive(Clone, Copy, Debug, PartialEq, Eq)]
pub struct Stop {
    pub kind: ActKind,
    pub job: Name,
}

/// Returns whether these stops can be carried out: there is at least one, and the load of each job that is
/// named is picked exactly once and, later, dropped exactly once. It takes no memory.
///
/// Each stop is compared with each: the time is that of the square of their number.
#[tactic(auto, unfolding(crate::specs::Stops::stops_fit))]
pub fn stops_fit(stops: &[Stop]) -> bool
    ensures { result ≡ stops_fit stops.now }
{
    !stops.is_empty() && are_all_served(stops)
}

/// Returns whether each job that a stop names is picked and then dropped.
fn are_all_served(stops: &[Stop]) -> bool
    ensures { result ≡ list_all (λ one. is_pick_then_drop (kinds_of stops.now one.job)) stops.now }
{
    stops
        .iter()
        .all(|stop| is_picked_then_dropped(stops, stop.job))
}
