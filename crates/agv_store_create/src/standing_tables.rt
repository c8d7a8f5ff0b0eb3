//! Whether a database has the desk's tables, whoever made them.
ghost use Rattle.std.specs.Prelude.{◌≡◌, ◌↔◌, IfOk, IsTrue, List, Ok, map};
ghost use Rattle.std.specs.List.{AllByRecursion, AllZip};
ghost use Rattle.sqlite_schema.specs.declared.schema.Table.{Table};
ghost use Rattle.sqlite_resolve.specs.Compile.{table_defined_by};
ghost use Rattle.agv_store_create.specs.StandingTables.{IsPlain, AnyStands, StandsAlike, TablesStand, meta_forms};

use crate::table_match::same_table;
use crate::table_texts::{creation_texts, meta_forms_texts};
use crate::tables_beside::allows_desk;
use agv_header::Memory;
use sqlite_resolve::define_table;
use sqlite_resolve::error::CompileError;
use sqlite_schema::schema::{Schema, Table};
use std::alloc::Global;

// The number of a table's tree is below this.
const MAX_TREES: u32 = 1 << 31;

/// Returns whether a database has the desk's fourteen tables, in any trees: each with exactly its columns and keys,
/// however these are written, and no other constraint, no foreign key that refers to one of them, and no two tables of
/// the database in one tree. Tables of other names, views and plain indexes may be there too.
///
/// # Errors
/// [`Memory`] when out of memory.
pub fn tables_stand(alloc: Global, schema: &Schema) -> Result<bool, Memory>
    ensures { IfOk result (λ stand. IsTrue stand ↔ TablesStand schema.now) }
{
    if !allows_desk(schema) {
        return Ok(false);
    }
    let has_meta = meta_stands(alloc, schema)?;
    if !has_meta {
        return Ok(false);
    }
    stand_by(alloc, schema, &creation_texts()[1..])
}

/// Returns whether the schema has `meta` in one of its accepted forms.
pub fn meta_stands(alloc: Global, schema: &Schema) -> Result<bool, Memory>
    ensures { IfOk result (λ stands. IsTrue stands ↔ AnyStands schema.now meta_forms) }
{
    any_stands(alloc, schema, &meta_forms_texts())
}

/// Returns whether the schema has one of the tables that the texts define, under its name.
fn any_stands(alloc: Global, schema: &Schema, texts: &[&str]) -> Result<bool, Memory>
    ensures { (tables : List Table) → AllZip (λ text (table : Table). table_defined_by text ≡ Ok table) (map (λ text. text.now) texts.now) tables → AllByRecursion IsPlain tables
        → IfOk result (λ stands. IsTrue stands ↔ AnyStands schema.now tables) }
{
    let [text, others @ ..] = texts else {
        return Ok(false);
    };
    if stands_by(alloc, schema, text)? {
        return Ok(true);
    }
    any_stands(alloc, schema, others)
}

/// Returns whether the schema has each table that the texts define, under its name.
pub fn stand_by(alloc: Global, schema: &Schema, texts: &[&str]) -> Result<bool, Memory>
    ensures { (tables : List Table) → AllZip (λ text (table : Table). table_defined_by text ≡ Ok table) (map (λ text. text.now) texts.now) tables → AllByRecursion IsPlain tables
        → IfOk result (λ stand. IsTrue stand ↔ AllByRecursion (StandsAlike schema.now) tables) }
{
    let [text, others @ ..] = texts else {
        return Ok(true);
    };
    if !stands_by(alloc, schema, text)? {
        return Ok(false);
    }
    stand_by(alloc, schema, others)
}

/// Returns whether the schema has the table that the text defines, under its name.
fn stands_by(alloc: Global, schema: &Schema, text: &str) -> Result<bool, Memory>
    ensures { (table : Table) → table_defined_by text.now ≡ Ok table → IsPlain table → IfOk result (λ stand. IsTrue stand ↔ StandsAlike schema.now table) }
{
    match define_table(alloc, text.as_bytes()) {
        Ok(wanted) => Ok(stands_alike(schema, &wanted)),
        Err(CompileError::OutOfMemory) => Err(Memory),
        Err(_) => Ok(false),
    }
}

/// Returns whether the schema has exactly this table under its name.
fn stands_alike(schema: &Schema, wanted: &Table) -> bool
    ensures { IsPlain wanted.now → (IsTrue result ↔ StandsAlike schema.now wanted.now) }
{
    let Some(at) = schema.table_named(wanted.name.as_slice()) else {
        return false;
    };
    let Some(found) = schema.tables.get(at) else {
        return false;
    };
    found.tree < MAX_TREES && same_table(found, wanted)
}
