//! The loads that a stocktake has found.
ghost use Rattle.std.specs.Prelude.{◌≡◌, IfOk};
ghost use Rattle.agv_desk.specs.CountParts.{AreFound, noted_load};

use agv_header::{Memory, Name};
use agv_world_core::ByName;
use std::alloc::Global;

/// Returns the loads of the rows, each with the station where it was found, or `None` if a load is on two rows.
pub(crate) fn found_loads(
    alloc: Global,
    rows: &[(Name, Option<Name>)],
) -> Result<Option<ByName<Name>>, Memory>
    ensures { IfOk result (λ found. AreFound rows.now found) }
{
    let mut found = ByName::new(alloc);
    for (station, load) in rows {
        if !note_load(&mut found, *station, *load)? {
            return Ok(None);
        }
    }
    Ok(Some(found))
}

/// Notes the load of a row, and returns whether it was not noted before: `true` too for a row without a load.
fn note_load(found: &mut ByName<Name>, station: Name, load: Option<Name>) -> Result<bool, Memory>
    ensures { IfOk result (λ new. (new, found.new) ≡ noted_load found.old station load) }
{
    let Some(load) = load else {
        return Ok(true);
    };
    if found.get(load).is_some() {
        return Ok(false);
    }
    found.insert(load, station)?;
    Ok(true)
}
