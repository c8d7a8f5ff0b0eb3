//! The keys of rows whose key is neither a name nor a vehicle.

use agv_header::Name;
use std::cmp::Ordering;

/// An edge of an open trip: the trip's order, and the index of the edge on the way, from 0. Keys are
/// ordered by the order's bytes, then by the index.
#[derive(Clone, Copy, Debug)]
pub struct LegKey {
    pub order: Name,
    pub k: u32,
}

/// A name that was used for an order or as a reference. No name is used twice in its kind. Orders come
/// before references, and names of a kind are ordered by their bytes.
#[derive(Clone, Copy, Debug)]
pub struct UseKey {
    pub kind: UseKind,
    pub name: Name,
}

/// What a name was used for.
#[derive(Clone, Copy, Debug, PartialEq, Eq)]
pub enum UseKind {
    /// The name of an order.
    Order,
    /// The reference of a correction, a leave, a place or a stocktake.
    Reference,
}

impl PartialEq for LegKey {
    ghost use Rattle.std.specs.Cmp.{partial_equiv_from_equiv};
    ghost use Rattle.agv_world_core.specs.KeyOrders.{leg_eq, leg_eq-equivalence};

    ghost eq = { leg_eq };

    ghost laws = { partial_equiv_from_equiv leg_eq-equivalence };

    fn eq(&self, other: &Self) -> bool {
        self.cmp(other).is_eq()
    }
}

impl Eq for LegKey {
    ghost use Rattle.agv_world_core.specs.KeyOrders.{leg_eq-equivalence};

    ghost laws = { leg_eq-equivalence };
}

impl PartialOrd for LegKey {
    ghost use Rattle.std.specs.Prelude.{Some};
    ghost use Rattle.agv_world_core.specs.Keys.{leg_cmp};
    ghost use Rattle.agv_world_core.specs.KeyOrders.{leg_cmp-partial};

    ghost partial_cmp = { λ a b. Some (leg_cmp a b) };

    ghost laws = { leg_cmp-partial };

    fn partial_cmp(&self, other: &Self) -> Option<Ordering> {
        Some(self.cmp(other))
    }
}

impl Ord for LegKey {
    ghost use Rattle.std.specs.Prelude.{refl};
    ghost use Rattle.agv_world_core.specs.Keys.{leg_cmp};
    ghost use Rattle.agv_world_core.specs.KeyOrders.{leg_cmp-total};

    ghost cmp = { leg_cmp };

    ghost total = { leg_cmp-total };

    ghost matches_partial_cmp = { λ a b. refl };

    ghost matches_eq = { λ a b. refl };

    fn cmp(&self, other: &Self) -> Ordering {
        let first = self.order.cmp(&other.order);
        first.then(self.k.cmp(&other.k))
    }
}

impl PartialEq for UseKey {
    ghost use Rattle.std.specs.Cmp.{partial_equiv_from_equiv};
    ghost use Rattle.agv_world_core.specs.KeyOrders.{use_eq, use_eq-equivalence};

    ghost eq = { use_eq };

    ghost laws = { partial_equiv_from_equiv use_eq-equivalence };

    fn eq(&self, other: &Self) -> bool {
        self.cmp(other).is_eq()
    }
}

impl Eq for UseKey {
    ghost use Rattle.agv_world_core.specs.KeyOrders.{use_eq-equivalence};

    ghost laws = { use_eq-equivalence };
}

impl PartialOrd for UseKey {
    ghost use Rattle.std.specs.Prelude.{Some};
    ghost use Rattle.agv_world_core.specs.Keys.{use_cmp};
    ghost use Rattle.agv_world_core.specs.KeyOrders.{use_cmp-partial};

    ghost partial_cmp = { λ a b. Some (use_cmp a b) };

    ghost laws = { use_cmp-partial };

    fn partial_cmp(&self, other: &Self) -> Option<Ordering> {
        Some(self.cmp(other))
    }
}

impl Ord for UseKey {
    ghost use Rattle.std.specs.Prelude.{refl};
    ghost use Rattle.agv_world_core.specs.Keys.{use_cmp};
    ghost use Rattle.agv_world_core.specs.KeyOrders.{use_cmp-total};

    ghost cmp = { use_cmp };

    ghost total = { use_cmp-total };

    ghost matches_partial_cmp = { λ a b. refl };

    ghost matches_eq = { λ a b. refl };

    fn cmp(&self, other: &Self) -> Ordering {
        let first = self.kind.rank().cmp(&other.kind.rank());
        first.then(self.name.cmp(&other.name))
    }
}

impl UseKind {
    ghost use Rattle.std.specs.Prelude.{◌≡◌};
    ghost use Rattle.agv_world_core.specs.Keys.{use_rank};

    /// Returns the rank of the kind in the order of the keys.
    fn rank(self) -> u8
        ensures { result ≡ use_rank self }
    {
        match self {
            UseKind::Order => 0,
            UseKind::Reference => 1,
        }
    }
}

impl UseKey {
    ghost use Rattle.std.specs.Prelude.{◌≡◌};
    ghost use Rattle.agv_world_core.specs.Told.{is_of_kind};

    /// Returns whether the name was used in this kind.
    pub fn is_of_kind(&self, kind: UseKind) -> bool
        ensures { result ≡ is_of_kind kind self.now }
    {
        self.kind.rank() == kind.rank()
    }
}
