//! The SQL texts that select rows by columns other than the key, count them, or select all rows of a table.
ghost use Rattle.std.specs.Prelude.{◌≡◌};
ghost use Rattle.agv_store_sql.specs.CountQueries.{count_text};
ghost use Rattle.agv_store_sql.specs.RowQueries.{all_rows_text, query_text};

use agv_store_schema::rows_by::RowsBy;
use agv_store_schema::rows_counted::RowsCounted;
use agv_store_schema::table_name::TableName;

/// Returns the SELECT of the query; its parameters are the values.
pub(crate) fn query(by: RowsBy) -> &'static str
    ensures { result.now ≡ query_text by }
{
    match by {
        RowsBy::VehicleJourney =>
            "SELECT order_id, manufacturer, serial, start, first, base, sent, confirmed, seen FROM journey WHERE manufacturer = ?1 AND serial = ?2",
        RowsBy::OrderActs =>
            "SELECT order_id, n, job, kind, place_at, status FROM act WHERE order_id = ?1",
        RowsBy::OrderLegs => "SELECT order_id, k, edge FROM leg WHERE order_id = ?1",
        RowsBy::StationLoads =>
            "SELECT id, kind, station, manufacturer, serial FROM load WHERE station = ?1",
        RowsBy::LoadJobs =>
            "SELECT id, load, origin, target, phase FROM job WHERE load = ?1 AND phase = ?2",
    }
}

/// Returns the SELECT that counts the rows; its parameters are the values.
pub(crate) fn count_query(by: RowsCounted) -> &'static str
    ensures { result.now ≡ count_text by }
{
    match by {
        RowsCounted::StationLoads => "SELECT count(*) FROM load WHERE station = ?1",
        RowsCounted::VehicleLoads =>
            "SELECT count(*) FROM load WHERE manufacturer = ?1 AND serial = ?2",
        RowsCounted::TargetJobs => "SELECT count(*) FROM job WHERE target = ?1 AND phase = ?2",
    }
}

/// Returns the SELECT of all rows of a table.
pub fn all_rows(table: TableName) -> &'static str
    ensures { result.now ≡ all_rows_text table }
{
    match table {
        TableName::Meta => "SELECT id, schema FROM meta",
        TableName::Node => "SELECT id FROM node",
        TableName::Edge => "SELECT id, start, finish FROM edge",
        TableName::Station => "SELECT id, node, capacity FROM station",
        TableName::Vehicle =>
            "SELECT manufacturer, serial, node, rest_edge, rest_node, last_header, reported, ready, paused, order_header, order_at, instant_header, instant_at, pending FROM vehicle",
        TableName::Trip =>
            "SELECT order_id, manufacturer, serial, job, start, first, base, sent, confirmed, seen, pick_at, drop_at, pick_status, drop_status FROM trip",
        TableName::Leg => "SELECT order_id, k, edge FROM leg",
        TableName::Load => "SELECT id, kind, station, manufacturer, serial FROM load",
        TableName::Job => "SELECT id, load, origin, target, phase FROM job",
        TableName::Hold => "SELECT kind, id, manufacturer, serial FROM hold",
        TableName::Used => "SELECT kind, id FROM used",
        TableName::Capacity => "SELECT manufacturer, serial, capacity FROM capacity",
        TableName::Journey =>
            "SELECT order_id, manufacturer, serial, start, first, base, sent, confirmed, seen FROM journey",
        TableName::Act => "SELECT order_id, n, job, kind, place_at, status FROM act",
    }
}
