//! The test whether a trip is under way.
ghost use Rattle.std.specs.Prelude.{◌≡◌, ◌&&◌, not, nat_eq};
ghost use Rattle.std.specs.List.{list_all, list_any};
ghost use Rattle.std.specs.Cmp.Lexicographic.{pointwise};
ghost use Rattle.agv_order.specs.WellFormed.{has_not_begun, is_in_turn, is_over, is_picked, is_reached};
ghost use Rattle.agv_order.specs.WellFormedTest.{is_in_base, is_growing, is_confirmed, has_ended, is_under_way};

use crate::status::is_waiting;
use crate::{Act, Trip, is_drop, is_final, is_finished};
use agv_header::Name;

impl Trip {
    /// Returns whether the trip is under way.
    pub(crate) fn is_under_way(&self) -> bool
        ensures { result ≡ is_under_way self.now }
    {
        let acts = self.acts.as_slice();
        self.is_in_base()
            && self.is_growing()
            && self.is_confirmed()
            && are_reached(self.seen, acts)
            && are_in_turn(acts)
            && !self.has_ended()
    }

    /// Returns whether what was seen and sent lies within the base, and the base within the way.
    fn is_in_base(&self) -> bool
        ensures { result ≡ is_in_base self.now }
    {
        self.first <= self.base
            && self.base as usize <= self.edges.len()
            && self.seen <= self.base
            && self.sent <= self.base
    }

    /// Returns whether the order itself begins at the start, and the last update releases more.
    fn is_growing(&self) -> bool
        ensures { result ≡ is_growing self.now }
    {
        if self.sent == 0 {
            self.first == 0
        } else {
            self.first < self.base
        }
    }

    /// Returns whether the vehicle has confirmed nothing and nothing has happened, or it has confirmed the last update,
    /// or the one before it and seen no node past the last message's first.
    fn is_confirmed(&self) -> bool
        ensures { result ≡ is_confirmed self.now self.now.confirmed }
    {
        match self.confirmed {
            None => {
                self.sent == 0
                    && self.first == 0
                    && self.seen == 0
                    && have_not_begun(self.acts.as_slice())
            }
            Some(update) => {
                update == self.sent
                    || (u64::from(update) + 1 == u64::from(self.sent) && self.seen <= self.first)
            }
        }
    }

    /// Returns whether the vehicle has seen the end of the way, and each act is over.
    fn has_ended(&self) -> bool
        ensures { result ≡ has_ended self.now }
    {
        self.seen as usize == self.edges.len() && are_over(self.acts.as_slice())
    }
}

/// Returns whether each act is finished only if the vehicle has reached its node.
fn are_reached(seen: u32, acts: &[Act]) -> bool
    ensures { result ≡ list_all (is_reached seen) acts.now }
{
    acts.iter()
        .all(|act| !is_finished(act.status) || act.place_at <= seen)
}

/// Returns whether each act is a finished drop only if its job's load was picked.
fn are_in_turn(acts: &[Act]) -> bool
    ensures { result ≡ list_all (is_in_turn acts.now) acts.now }
{
    acts.iter().all(|act| is_in_turn(acts, act))
}

/// Returns whether the act is a finished drop only if its job's load was picked.
fn is_in_turn(acts: &[Act], act: &Act) -> bool
    ensures { result ≡ is_in_turn acts.now act.now }
{
    !(is_drop(act.kind) && is_finished(act.status)) || is_picked(acts, act.job)
}

/// Returns whether the load of this job was picked.
fn is_picked(acts: &[Act], job: Name) -> bool
    ensures { result ≡ is_picked acts.now job }
{
    acts.iter().any(|act| !is_drop(act.kind) && is_finished(act.status) && act.job == job)
}

/// Returns whether no act has begun.
fn have_not_begun(acts: &[Act]) -> bool
    ensures { result ≡ list_all has_not_begun acts.now }
{
    acts.iter().all(|act| is_waiting(act.status))
}

/// Returns whether each act is over.
fn are_over(acts: &[Act]) -> bool
    ensures { result ≡ list_all is_over acts.now }
{
    acts.iter().all(|act| is_final(act.status))
}
