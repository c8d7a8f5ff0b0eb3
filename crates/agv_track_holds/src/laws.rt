//! Laws of the definition of footprints. Each function does nothing: its clause is the law.
ghost use Rattle.std.specs.Prelude.{◌↔◌, Contains};
ghost use Rattle.std.specs.List.{IsDistinct};
ghost use Rattle.agv_header.specs.ThingOrder.{thing_eq};
ghost use Rattle.agv_header.specs.declared.key.Thing.{Thing};
ghost use Rattle.agv_track_holds.specs.Footprints.{Occupies, IsOnBase, footprint_of};
ghost use Rattle.agv_track_holds.specs.declared.standing.Standing.{Standing};

/// Proves that a footprint lists exactly the nodes and edges that the vehicle holds, if its trip, if it has
/// one, has not passed the last released node.
pub fn lists_what_is_held()
    ensures { (standing : Standing) → IsOnBase standing.trip → (held : Thing)
        → Contains (footprint_of standing) held ↔ Occupies standing held }
{}

/// Proves that a footprint lists no node or edge twice.
pub fn lists_each_once()
    ensures { (standing : Standing) → IsDistinct thing_eq (footprint_of standing) }
{}
