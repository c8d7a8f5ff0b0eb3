//! Whether a database has the first schema's tables, whoever made them.
ghost use Rattle.std.specs.Prelude.{◌↔◌, IfOk, IsTrue};
ghost use Rattle.agv_store_migrate.specs.FirstFound.{FirstTablesStand};

use agv_header::Memory;
use agv_store_create::desk_tables::NAMES;
use agv_store_create::standing_tables::{meta_stands, stand_by};
use agv_store_create::table_texts::{creation_texts, texts_define_the_tables};
use agv_store_create::tables_beside::{are_apart, are_unreferred};
use sqlite_schema::schema::Schema;
use std::alloc::Global;

/// Returns whether a database has the eleven tables of the first schema, in any trees: each with exactly its columns
/// and keys, however these are written, and no other constraint, no foreign key that refers to one of them, and no two
/// tables of the database in one tree. Tables of other names, views and plain indexes may be there too.
///
/// # Errors
/// [`Memory`] when out of memory.
pub fn first_tables_stand(alloc: Global, schema: &Schema) -> Result<bool, Memory>
    ensures { IfOk result (λ stand. IsTrue stand ↔ FirstTablesStand schema.now) }
{
    texts_define_the_tables();
    let tables = schema.tables.as_slice();
    if !are_unreferred(tables, &NAMES[..11]) {
        return Ok(false);
    }
    if !are_apart(tables) {
        return Ok(false);
    }
    let has_meta = meta_stands(alloc, schema)?;
    if !has_meta {
        return Ok(false);
    }
    let texts = creation_texts();
    stand_by(alloc, schema, &texts[1..11])
}
