//! Laws of the definitions that the contracts of this crate cite. Each function does nothing: its
//! clause is the law.
ghost use Rattle.std.specs.Prelude.{◌≡◌, ◌≤◌, length, IsTrue, None, Option, Ok};
ghost use Rattle.agv_layout.specs.Layout.{Layout as Plan};
ghost use Rattle.agv_message_core.specs.declared.state.StateMessage.{StateMessage};
ghost use Rattle.agv_order.specs.WellFormed.{IsUnderWay, IsWellFormed, is_over};
ghost use Rattle.agv_order.specs.declared.act.Act.{Act};
ghost use Rattle.agv_order.specs.declared.trip.Trip.{Trip};
ghost use Rattle.agv_track.specs.Judgements.{judged};
ghost use Rattle.agv_track.specs.Progressed.{progressed, ActGoesOn, Advances};
ghost use Rattle.agv_track.specs.declared.pending.Pending.{Pending};
ghost use Rattle.agv_track.specs.declared.progress.Progress.{Progress};

/// Proves that a trip under way advances by each state that is accepted: its base and its plan stay, the
/// node and the statuses only go forward, within what is released, and afterwards it is under way or
/// has ended. There is a rest only if the trip ends Stopped, and it is the next released edge and node.
pub fn advances()
    ensures { (trip : Trip) (pending : Option Pending) (state : StateMessage) (progress : Progress)
        → IsUnderWay trip → length trip.acts ≤ 8 → judged trip pending state ≡ Ok progress → Advances trip progress }
{}

/// Proves that a well-formed trip is still well formed after a state that is accepted, unless it has ended.
pub fn stays_well_formed()
    ensures { (layout : Plan) (trip : Trip) (pending : Option Pending) (state : StateMessage) (progress : Progress)
        → IsWellFormed layout trip → judged trip pending state ≡ Ok progress → progress.«end» ≡ None
        → IsWellFormed layout (progressed trip progress) }
{}

/// Proves that an act that is over keeps its status, so no act becomes finished twice.
pub fn keeps_final()
    ensures { (before after : Act) → ActGoesOn before after → IsTrue (is_over before) → after.status ≡ before.status }
{}
