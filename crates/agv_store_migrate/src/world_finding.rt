//! Finding the world of a database of the first schema.
ghost use Rattle.std.specs.Prelude.{◌≡◌, ◌↔◌, IfOk, IsTrue};
ghost use Rattle.agv_store_migrate.specs.FirstFound.{FindsFirst};
ghost use Rattle.agv_world_core.specs.Kept.{Keeps};
ghost use Rattle.agv_world_core.specs.Lawful.{IsLawful};
ghost use Rattle.agv_world_core.specs.Maps.{maps_of};
ghost use Rattle.agv_world_core.specs.Worlds.{World as WorldOf};

use crate::first_laws::first_rows_tell_their_world;
use crate::rows_reading::read_first_tables;
use crate::standing::first_tables_stand;
use crate::world_decoding::world_in_lists;
use agv_header::Memory;
use agv_store_read::{HeldThings, OpenFault};
use agv_world_core::World;
use agv_world_lawful::TestsLawful;
use sqlite::{Alter, Connection};
use std::alloc::Global;

/// Returns the tables of the lawful world, with capacity 1 for each vehicle, whose rows the eleven tables of the first
/// schema have in a database, whoever wrote them. It checks the tables, every row and the holds, and changes nothing.
///
/// # Errors
/// `Damaged` exactly if the rows are not those of such a world: a table is missing or differs, a row can't be decoded,
/// the rows break a rule of the desk, or the holds aren't those of the vehicles. Otherwise as [`OpenFault`] says. All
/// rows are in memory at once, beside the tables that they encode.
pub fn find_first_world<S: Alter>(
    alloc: Global,
    conn: &mut Connection<S>,
) -> Result<World, OpenFault>
    ensures { FindsFirst S.Store conn.old conn.new result }
{
    first_rows_tell_their_world();
    if !first_tables_stand(alloc, conn.schema())? {
        return Err(OpenFault::Damaged);
    }
    let lists = read_first_tables(alloc, conn)?;
    let (tables, held) = world_in_lists(alloc, &lists)?;
    if !are_of_a_first_world(alloc, &tables, &held)? {
        return Err(OpenFault::Damaged);
    }
    Ok(tables)
}

/// Returns whether these are the tables of a lawful world with capacity 1 for each vehicle, and the holds are those of
/// its vehicles.
fn are_of_a_first_world(alloc: Global, tables: &World, held: &HeldThings) -> Result<bool, Memory>
    ensures { IfOk result (λ are. IsTrue are ↔ ((world : WorldOf) × Keeps tables.now world × IsLawful 1 world × (held.now.table ≡ (maps_of world).holds))) }
{
    Ok(tables.is_lawful(alloc, 1)? && held.are_footprints(alloc, tables)?)
}
