//! Releasing more of a trip.
ghost use Rattle.std.specs.Prelude.{◌≡◌, ◌≤◌, ◌↔◌, length, Some, IsTrue, IsOk, IfErr, OnOk, OnErr};
ghost use Rattle.agv_header.specs.declared.refusal.Refusal.TheVariants as refusal;
ghost use Rattle.agv_layout.specs.Layout.{Layout as LayoutOf};
ghost use Rattle.agv_order.specs.Releases.{CanRelease, released};
ghost use Rattle.agv_order.specs.WellFormed.{IsWellFormed};

use crate::Trip;
use agv_header::Refusal;

impl Trip {
    /// Releases the next `n` edges, and the nodes where they finish, by an update. The update begins
    /// at the last node of the old base. It takes no memory.
    ///
    /// Returns `Beyond`, and changes nothing, if `n` is 0 or the base would pass the last node.
    pub fn release(&mut self, n: u32) -> Result<(), Refusal>
        requires sent { self.old.sent ≤ self.old.base }
        requires short { length self.old.edges ≤ 200 }
        ensures ok { IsOk result ↔ CanRelease self.old n }
        ensures released { OnOk result (self.new ≡ released self.old n) }
        ensures beyond { IfErr result (λ error. error ≡ refusal.Beyond) }
        ensures refused { OnErr result (self.new ≡ self.old) }
        // a well-formed trip stays so if the vehicle has confirmed what was sent
        ensures well_formed { (layout : LayoutOf) → IsWellFormed layout self.old → self.old.confirmed ≡ Some self.old.sent
            → OnOk result (IsWellFormed layout self.new) }
    {
        if !self.can_release(n) {
            return Err(Refusal::Beyond);
        }
        self.first = self.base;
        self.base += n;
        self.sent += 1;
        Ok(())
    }

    /// Returns whether this many more edges can be released.
    fn can_release(&self, n: u32) -> bool
        ensures { IsTrue result ↔ CanRelease self.now n }
    {
        n > 0 && self.base as u64 + n as u64 <= self.edges.len() as u64
    }
}
