//! The SQL texts for one row: its INSERT, its DELETE by key, and its SELECT by key.
//!
//! There is no text without a use: `meta` is written once, by a text of its own, `trip` stays empty, and journeys, acts
//! and legs are not looked up by their key. So there are 33 here; with the 5 of `row_updates`, the 22 of `query_texts`,
//! the 19 of `table_texts` and the 14 of `rowid_reading` a desk has 93 SQL texts. The migration from the first schema
//! has its own.
ghost use Rattle.std.specs.Prelude.{◌≡◌, true};
ghost use Rattle.agv_store_schema.specs.RowTexts.{deletion_text, insertion_text, is_looked_up, is_written, look_up_text};

use agv_store_schema::table_name::TableName;

/// Returns the INSERT for a row, whose columns are the parameters.
pub(crate) fn insertion(table: TableName) -> &'static str
    requires { is_written table ≡ true }
    ensures { result.now ≡ insertion_text table }
{
    match table {
        TableName::Node => "INSERT INTO node (id) VALUES (?1)",
        TableName::Edge => "INSERT INTO edge (id, start, finish) VALUES (?1, ?2, ?3)",
        TableName::Station => "INSERT INTO station (id, node, capacity) VALUES (?1, ?2, ?3)",
        TableName::Vehicle =>
            "INSERT INTO vehicle (manufacturer, serial, node, rest_edge, rest_node, last_header, reported, ready, paused, order_header, order_at, instant_header, instant_at, pending) VALUES (?1, ?2, ?3, ?4, ?5, ?6, ?7, ?8, ?9, ?10, ?11, ?12, ?13, ?14)",
        TableName::Capacity =>
            "INSERT INTO capacity (manufacturer, serial, capacity) VALUES (?1, ?2, ?3)",
        TableName::Journey =>
            "INSERT INTO journey (order_id, manufacturer, serial, start, first, base, sent, confirmed, seen) VALUES (?1, ?2, ?3, ?4, ?5, ?6, ?7, ?8, ?9)",
        TableName::Act =>
            "INSERT INTO act (order_id, n, job, kind, place_at, status) VALUES (?1, ?2, ?3, ?4, ?5, ?6)",
        TableName::Leg => "INSERT INTO leg (order_id, k, edge) VALUES (?1, ?2, ?3)",
        TableName::Load =>
            "INSERT INTO load (id, kind, station, manufacturer, serial) VALUES (?1, ?2, ?3, ?4, ?5)",
        TableName::Job =>
            "INSERT INTO job (id, load, origin, target, phase) VALUES (?1, ?2, ?3, ?4, ?5)",
        TableName::Hold =>
            "INSERT INTO hold (kind, id, manufacturer, serial) VALUES (?1, ?2, ?3, ?4)",
        TableName::Used => "INSERT INTO used (kind, id) VALUES (?1, ?2)",
        _ => unreachable!(),
    }
}

/// Returns the DELETE for the row of a key, whose columns are the parameters; for acts, for all acts of an order.
pub(crate) fn deletion(table: TableName) -> &'static str
    requires { is_written table ≡ true }
    ensures { result.now ≡ deletion_text table }
{
    match table {
        TableName::Node => "DELETE FROM node WHERE id = ?1",
        TableName::Edge => "DELETE FROM edge WHERE id = ?1",
        TableName::Station => "DELETE FROM station WHERE id = ?1",
        TableName::Vehicle => "DELETE FROM vehicle WHERE manufacturer = ?1 AND serial = ?2",
        TableName::Capacity => "DELETE FROM capacity WHERE manufacturer = ?1 AND serial = ?2",
        TableName::Journey => "DELETE FROM journey WHERE order_id = ?1",
        TableName::Act => "DELETE FROM act WHERE order_id = ?1",
        TableName::Leg => "DELETE FROM leg WHERE order_id = ?1 AND k = ?2",
        TableName::Load => "DELETE FROM load WHERE id = ?1",
        TableName::Job => "DELETE FROM job WHERE id = ?1",
        TableName::Hold => "DELETE FROM hold WHERE kind = ?1 AND id = ?2",
        TableName::Used => "DELETE FROM used WHERE kind = ?1 AND id = ?2",
        _ => unreachable!(),
    }
}

/// Returns the SELECT for the row of a key, whose columns are the parameters.
pub(crate) fn look_up(table: TableName) -> &'static str
    requires { is_looked_up table ≡ true }
    ensures { result.now ≡ look_up_text table }
{
    match table {
        TableName::Node => "SELECT id FROM node WHERE id = ?1",
        TableName::Edge => "SELECT id, start, finish FROM edge WHERE id = ?1",
        TableName::Station => "SELECT id, node, capacity FROM station WHERE id = ?1",
        TableName::Vehicle =>
            "SELECT manufacturer, serial, node, rest_edge, rest_node, last_header, reported, ready, paused, order_header, order_at, instant_header, instant_at, pending FROM vehicle WHERE manufacturer = ?1 AND serial = ?2",
        TableName::Capacity =>
            "SELECT manufacturer, serial, capacity FROM capacity WHERE manufacturer = ?1 AND serial = ?2",
        TableName::Load => "SELECT id, kind, station, manufacturer, serial FROM load WHERE id = ?1",
        TableName::Job => "SELECT id, load, origin, target, phase FROM job WHERE id = ?1",
        TableName::Hold =>
            "SELECT kind, id, manufacturer, serial FROM hold WHERE kind = ?1 AND id = ?2",
        TableName::Used => "SELECT kind, id FROM used WHERE kind = ?1 AND id = ?2",
        _ => unreachable!(),
    }
}
