//! Whether the tables of a database allow the desk's beside them.
ghost use Rattle.std.specs.Prelude.{◌≡◌, ◌≢◌, ◌↔◌, not, IsTrue};
ghost use Rattle.std.specs.List.{AllByRecursion, list_all};
ghost use Rattle.sqlite_trees.specs.Tree.{IsAscending};
ghost use Rattle.sqlite_schema.specs.Names.{same_name};
ghost use Rattle.sqlite_schema.specs.declared.schema.Reference.{Reference};
ghost use Rattle.sqlite_schema.specs.declared.schema.Table.{Table};
ghost use Rattle.agv_store_schema.specs.DeskRows.{is_unreferred};
ghost use Rattle.agv_store_create.specs.NewDesk.{AllowsDesk};

use crate::desk_tables::NAMES;
use sqlite_schema::names::same_name;
use sqlite_schema::schema::{Schema, Table};

/// Returns whether the tables of a database allow the desk's beside them: no foreign key refers to one of the desk's
/// names, and no two tables are in one tree. It does not check whether the desk's names are free.
pub fn allows_desk(schema: &Schema) -> bool
    ensures { IsTrue result ↔ AllowsDesk schema.now }
{
    let tables = schema.tables.as_slice();
    are_unreferred(tables, &NAMES) && are_apart(tables)
}

/// Returns whether no foreign key of the tables refers to one of these names.
pub fn are_unreferred(tables: &[Table], names: &[&str]) -> bool
    ensures { result ≡ list_all (λ name. is_unreferred name.now tables.now) names.now }
{
    names
        .iter()
        .all(|name| is_unreferred(tables, name.as_bytes()))
}

/// Returns whether no foreign key of the tables refers to a table of that name.
fn is_unreferred(tables: &[Table], name: &[u8]) -> bool
    ensures { result ≡ is_unreferred name.now tables.now }
{
    tables.iter().all(|table| refers_elsewhere(table, name))
}

/// Returns whether no foreign key of the table refers to a table of that name.
fn refers_elsewhere(table: &Table, name: &[u8]) -> bool
    ensures { result ≡ list_all (λ (r : Reference). not (same_name name.now r.parent)) table.now.references }
{
    table
        .references
        .as_slice()
        .iter()
        .all(|reference| !same_name(name, reference.parent.as_slice()))
}

/// Returns whether no two of these tables are in one tree.
pub fn are_apart(tables: &[Table]) -> bool
    ensures { IsTrue result ↔ IsAscending (λ (s t : Table). s.tree ≢ t.tree) tables.now }
{
    let mut rest = tables;
    while let [first, others @ ..] = rest {
        if !is_free(others, first.tree) {
            return false;
        }
        rest = others;
    }
    true
}

/// Returns whether none of these tables is in that tree.
fn is_free(tables: &[Table], tree: u32) -> bool
    ensures { IsTrue result ↔ AllByRecursion (λ (table : Table). tree ≢ table.tree) tables.now }
{
    tables.iter().all(|table| table.tree != tree)
}
