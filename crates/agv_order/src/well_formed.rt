//! The test of a well-formed trip.
ghost use Rattle.std.specs.Prelude.{◌≡◌};
ghost use Rattle.agv_order.specs.WellFormedTest.{is_well_formed};

use crate::Trip;
use agv_layout::Layout;

impl Trip {
    /// Returns whether the trip is well formed on the layout: planned on it, and under way. It takes no memory.
    ///
    /// - Planned: a walk of at most 200 edges of the layout; at most four jobs, each picked and later
    ///   dropped; each act at its station, in the order of the way, the last at its end. Without a job it is a drive.
    /// - Under way: what was sent and seen lies within the base; the last update released more; the
    ///   vehicle has confirmed nothing and nothing has happened, or it has confirmed the last update or the
    ///   one before it; no act is finished before its turn; and the trip has not ended.
    ///
    /// [`tests_well_formed`](crate::laws::tests_well_formed) proves that the test is equivalent to the definition. Its
    /// time is that of looking up each edge and each station; the edges of a longer way are not looked up.
    pub fn is_well_formed(&self, layout: &Layout) -> bool
        ensures { result ≡ is_well_formed layout.now self.now }
    {
        self.is_planned(layout) && self.is_under_way()
    }
}
