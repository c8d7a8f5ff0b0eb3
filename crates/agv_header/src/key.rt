//! The keys of vehicles, and of the nodes and edges of the layout.
ghost use Rattle.std.specs.Cmp.{IsTotalOrder};
ghost use Rattle.std.specs.FinMap.{IsAntisymmetric};

use crate::Name;
use std::cmp::Ordering;

/// The key of a vehicle: its manufacturer and its serial number. Keys are ordered by the
/// manufacturer's bytes, then by the serial number's.
#[derive(Clone, Copy, Debug, PartialEq, Eq)]
pub struct VehicleKey {
    pub manufacturer: Name,
    pub serial: Name,
}

impl PartialOrd for VehicleKey {
    ghost use Rattle.std.specs.Prelude.{Some};
    ghost use Rattle.agv_header.specs.Key.{key_cmp};
    ghost use Rattle.agv_header.specs.KeyOrder.{key_cmp-partial};

    ghost partial_cmp = { λ a b. Some (key_cmp a b) };

    ghost laws = { key_cmp-partial };

    fn partial_cmp(&self, other: &Self) -> Option<Ordering> {
        Some(self.cmp(other))
    }
}

impl Ord for VehicleKey {
    ghost use Rattle.std.specs.Prelude.{refl};
    ghost use Rattle.agv_header.specs.Key.{key_cmp};
    ghost use Rattle.agv_header.specs.KeyOrder.{key_cmp-total, key_cmp-ties};

    ghost cmp = { key_cmp };

    ghost total = { key_cmp-total };

    ghost matches_partial_cmp = { λ a b. refl };

    ghost matches_eq = { key_cmp-ties };

    fn cmp(&self, other: &Self) -> Ordering {
        let first = self.manufacturer.cmp(&other.manufacturer);
        first.then(self.serial.cmp(&other.serial))
    }
}

impl VehicleKey {
    ghost use Rattle.agv_header.specs.Key.{key_cmp};

    /// Proves that the order of keys is total, and that only equal keys tie, as a finite map needs.
    pub fn order_law()
        ensures total { IsTotalOrder key_cmp }
        ensures apart { IsAntisymmetric key_cmp }
    {}
}

/// A node or an edge of the layout, which at most one vehicle holds. Nodes come before edges, and
/// each kind is ordered by its names' bytes.
#[derive(Clone, Copy, Debug)]
pub enum Thing {
    Node(Name),
    Edge(Name),
}

impl PartialEq for Thing {
    ghost use Rattle.std.specs.Cmp.{partial_equiv_from_equiv};
    ghost use Rattle.agv_header.specs.ThingOrder.{thing_eq, thing_eq-equivalence};

    ghost eq = { thing_eq };

    ghost laws = { partial_equiv_from_equiv thing_eq-equivalence };

    fn eq(&self, other: &Self) -> bool {
        self.cmp(other).is_eq()
    }
}

impl Eq for Thing {
    ghost use Rattle.agv_header.specs.ThingOrder.{thing_eq-equivalence};

    ghost laws = { thing_eq-equivalence };
}

impl PartialOrd for Thing {
    ghost use Rattle.std.specs.Prelude.{Some};
    ghost use Rattle.agv_header.specs.Key.{thing_cmp};
    ghost use Rattle.agv_header.specs.ThingOrder.{thing_cmp-partial};

    ghost partial_cmp = { λ a b. Some (thing_cmp a b) };

    ghost laws = { thing_cmp-partial };

    fn partial_cmp(&self, other: &Self) -> Option<Ordering> {
        Some(self.cmp(other))
    }
}

impl Ord for Thing {
    ghost use Rattle.std.specs.Prelude.{refl};
    ghost use Rattle.agv_header.specs.Key.{thing_cmp};
    ghost use Rattle.agv_header.specs.ThingOrder.{thing_cmp-total};

    ghost cmp = { thing_cmp };

    ghost total = { thing_cmp-total };

    ghost matches_partial_cmp = { λ a b. refl };

    ghost matches_eq = { λ a b. refl };

    fn cmp(&self, other: &Self) -> Ordering {
        match (self, other) {
            (Thing::Node(first), Thing::Node(second)) => first.cmp(second),
            (Thing::Node(_), Thing::Edge(_)) => Ordering::Less,
            (Thing::Edge(_), Thing::Node(_)) => Ordering::Greater,
            (Thing::Edge(first), Thing::Edge(second)) => first.cmp(second),
        }
    }
}

impl Thing {
    ghost use Rattle.agv_header.specs.Key.{thing_cmp};

    /// Proves that the order of things is total, and that only equal things tie, as a finite map needs.
    pub fn order_law()
        ensures total { IsTotalOrder thing_cmp }
        ensures apart { IsAntisymmetric thing_cmp }
    {}
}
