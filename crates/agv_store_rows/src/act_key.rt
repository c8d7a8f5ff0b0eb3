//! The keys of the rows of acts.

use agv_header::Name;
use std::cmp::Ordering;

/// The key of an act of an open trip: the trip's order id, and the number of the act in the order, from 0. Keys are
/// ordered by the bytes of the order id, then by the number.
#[derive(Clone, Copy, Debug)]
pub struct ActKey {
    pub order: Name,
    pub n: u32,
}

impl PartialEq for ActKey {
    ghost use Rattle.std.specs.Cmp.{partial_equiv_from_equiv};
    ghost use Rattle.agv_store_rows.specs.ActKeys.{act_eq, act_eq-equivalence};

    ghost eq = { act_eq };

    ghost laws = { partial_equiv_from_equiv act_eq-equivalence };

    fn eq(&self, other: &Self) -> bool {
        self.cmp(other).is_eq()
    }
}

impl Eq for ActKey {
    ghost use Rattle.agv_store_rows.specs.ActKeys.{act_eq-equivalence};

    ghost laws = { act_eq-equivalence };
}

impl PartialOrd for ActKey {
    ghost use Rattle.std.specs.Prelude.{Some};
    ghost use Rattle.agv_store_rows.specs.ActKeys.{act_cmp, act_cmp-partial};

    ghost partial_cmp = { λ a b. Some (act_cmp a b) };

    ghost laws = { act_cmp-partial };

    fn partial_cmp(&self, other: &Self) -> Option<Ordering> {
        Some(self.cmp(other))
    }
}

impl Ord for ActKey {
    ghost use Rattle.std.specs.Prelude.{refl};
    ghost use Rattle.agv_store_rows.specs.ActKeys.{act_cmp, act_cmp-total};

    ghost cmp = { act_cmp };

    ghost total = { act_cmp-total };

    ghost matches_partial_cmp = { λ a b. refl };

    ghost matches_eq = { λ a b. refl };

    fn cmp(&self, other: &Self) -> Ordering {
        let first = self.order.cmp(&other.order);
        first.then(self.n.cmp(&other.n))
    }
}
