//! The desk's tables: their rows as text, and the world that is read from them.

use crate::cases::check;
use agv_store_read_tables::world_reading::read_world;
use agv_world::{TestsLawful, World};
use sqlite::types::ValueRef;
use sqlite::{Alter, Connection, Row};
use std::alloc::Global;
use std::process::Abort;
use std::str;

/// The name of each table, and a query of all its rows in the order of its key.
const TABLES: [(&str, &str); 14] = [
    ("meta", "SELECT * FROM meta ORDER BY id"),
    ("node", "SELECT * FROM node ORDER BY id"),
    ("edge", "SELECT * FROM edge ORDER BY id"),
    ("station", "SELECT * FROM station ORDER BY id"),
    (
        "vehicle",
        "SELECT * FROM vehicle ORDER BY manufacturer, serial",
    ),
    ("trip", "SELECT * FROM trip ORDER BY order_id"),
    ("leg", "SELECT * FROM leg ORDER BY order_id, k"),
    ("load", "SELECT * FROM load ORDER BY id"),
    ("job", "SELECT * FROM job ORDER BY id"),
    ("hold", "SELECT * FROM hold ORDER BY kind, id"),
    ("used", "SELECT * FROM used ORDER BY kind, id"),
    (
        "capacity",
        "SELECT * FROM capacity ORDER BY manufacturer, serial",
    ),
    ("journey", "SELECT * FROM journey ORDER BY order_id"),
    ("act", "SELECT * FROM act ORDER BY order_id, n"),
];

/// Appends a value.
fn put_value(rt: &impl Abort, text: &mut String, value: ValueRef<'_>) {
    let put = match value {
        ValueRef::Null => write!(text, " NULL"),
        ValueRef::Int(n) => write!(text, " {n}"),
        ValueRef::Text(bytes) => {
            let word = str::from_utf8(bytes).expect(rt, "a text");
            write!(text, " {word}")
        }
        ValueRef::Real(_) | ValueRef::Blob(_) => panic!(rt; "no value of the desk"),
    };
    put.expect(rt, "memory");
}

/// Appends a row of a table.
fn put_row(rt: &impl Abort, text: &mut String, table: &str, row: &Row) {
    text.push_str(table).expect(rt, "memory");
    for at in 0..row.column_count() {
        put_value(rt, text, row.get_ref(at).expect(rt, table));
    }
    text.push_str("\n").expect(rt, "memory");
}

/// Appends all rows of a table, or that it is missing.
fn put_table<S: Alter>(
    rt: &impl Abort,
    text: &mut String,
    conn: &mut Connection<S>,
    table: &str,
    sql: &str,
) {
    let Ok(rows) = conn.query_all(sql, &[]) else {
        write!(text, "no {table}\n").expect(rt, "memory");
        return;
    };
    for row in &rows {
        put_row(rt, text, table, row);
    }
}

/// Returns the rows of all tables, one per line.
pub(crate) fn rows_text<S: Alter>(
    rt: &impl Abort,
    alloc: Global,
    conn: &mut Connection<S>,
) -> String {
    let mut text = String::new(alloc);
    for (table, sql) in &TABLES {
        put_table(rt, &mut text, conn, table, sql);
    }
    text
}

/// Compares the rows of all tables with these.
pub(crate) fn check_rows<S: Alter>(
    rt: &impl Abort,
    alloc: Global,
    conn: &mut Connection<S>,
    wanted: &str,
) {
    let text = rows_text(rt, alloc, conn);
    check(rt, text.as_str() == wanted, text.as_str());
}

/// Checks that there is this row.
pub(crate) fn check_row<S: Alter>(
    rt: &impl Abort,
    alloc: Global,
    conn: &mut Connection<S>,
    wanted: &str,
) {
    let text = rows_text(rt, alloc, conn);
    let mut found = false;
    for line in text.as_str().lines() {
        if line == wanted {
            found = true;
        }
    }
    check(rt, found, wanted);
}

/// Returns the text of a world.
pub(crate) fn world_text(rt: &impl Abort, alloc: Global, world: &World) -> String {
    format!(in alloc; "{world:?}").expect(rt, "memory")
}

/// Returns whether the tables have the rows of a lawful world, whatever the rows of holds are.
pub(crate) fn is_lawful<S: Alter>(
    rt: &impl Abort,
    alloc: Global,
    conn: &mut Connection<S>,
) -> bool {
    let (world, _) = read_world(alloc, conn).expect(rt, "the world");
    world.is_lawful(alloc, 4).expect(rt, "memory")
}

/// Returns the text of the world of the tables, and checks that it is lawful, and that the holds are those of its
/// vehicles.
pub(crate) fn told_text<S: Alter>(
    rt: &impl Abort,
    alloc: Global,
    conn: &mut Connection<S>,
) -> String {
    let (world, holds) = read_world(alloc, conn).expect(rt, "the world");
    let lawful = world.is_lawful(alloc, 4).expect(rt, "memory");
    check(rt, lawful, "it is lawful");
    let fit = holds.are_footprints(alloc, &world).expect(rt, "memory");
    check(rt, fit, "what is held is what the vehicles hold");
    world_text(rt, alloc, &world)
}

/// Compares the world of the tables with the one in memory.
pub(crate) fn check_read<S: Alter>(
    rt: &impl Abort,
    alloc: Global,
    world: &World,
    conn: &mut Connection<S>,
) {
    let found = told_text(rt, alloc, conn);
    let wanted = world_text(rt, alloc, world);
    check(rt, found.as_str() == wanted.as_str(), found.as_str());
}
