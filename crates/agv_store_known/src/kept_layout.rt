//! The layout, cached beside the tables, so that it is read only once. A layout is set once for good, so what was read
//! stays true; a change that writes a row of it drops the copy.
ghost use Rattle.std.specs.Prelude.{◌≡◌, IfOk};
ghost use Rattle.agv_world_core.specs.Changes.{change};
ghost use Rattle.agv_world_core.specs.Maps.{Maps};
ghost use Rattle.agv_store_known.specs.KeptLayouts.{IsLayoutOf, is_of_layout};

use agv_header::Memory;
use agv_layout::Layout;
use agv_world_core::Change;

/// Returns a copy of the layout, if there is one.
///
/// # Errors
/// `Memory` when out of memory.
pub fn copy_of(layout: &Option<Layout>) -> Result<Option<Layout>, Memory>
    ensures { IfOk result (λ copy. copy ≡ layout.now) }
{
    match layout {
        None => Ok(None),
        Some(layout) => {
            let copy = layout.copy()?;
            Ok(Some(copy))
        }
    }
}

/// Updates the cached layout for a change: drops it if the change writes a row of the layout.
pub(crate) fn follow(layout: &mut Option<Layout>, one: &Change)
    ensures { (maps : Maps) → IsLayoutOf layout.old maps → IsLayoutOf layout.new (change maps one.now) }
{
    if is_of_layout(one) {
        *layout = None;
    }
}

/// Returns whether the change writes a row of the layout.
pub(crate) fn is_of_layout(change: &Change) -> bool
    ensures { result ≡ is_of_layout change.now }
{
    match change {
        Change::Node(_) | Change::Edge(_, _) | Change::Station(_, _) => true,
        Change::Vehicle(_, _)
        | Change::Trip(_, _)
        | Change::Leg(_, _)
        | Change::Load(_, _)
        | Change::Job(_, _)
        | Change::Hold(_, _)
        | Change::Used(_) => false,
    }
}
