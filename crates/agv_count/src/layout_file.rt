//! The layout file.
ghost use Rattle.std.specs.Prelude.{◌≡◌, ◌&&◌, ◌==◌, Err, IfOk, None, Some, codes, length};
ghost use Rattle.std.specs.Str.{bytes_eq};
ghost use Rattle.csv.specs.Records.{fields_of};
ghost use Rattle.agv_count.specs.LayoutFile.{edge_row, layout_columns, layout_rows_in, no_layout_row, node_row, row_in, station_row};
ghost use Rattle.agv_count.specs.Table.{is_record};

use crate::CsvFault;
use crate::fields::{Fields, capacity};
use crate::table::{Row, read_table};
use agv_header::Name;
use agv_layout::LayoutRow;
use csv::ByteRecord;
use std::alloc::Global;

/// Reads the rows of a layout file, in the order of the file.
///
/// Returns `BadCsv` if the file isn't CSV whose records all have the same number of fields, has no record, doesn't
/// begin with the header `kind,id,from,to`, or has a record that is no row: its kind is not `node`, `edge` or
/// `station`, one of its names is no name, a node's `from` or `to` isn't empty, or a station's
/// capacity isn't 1 to 3 digits. Returns `Memory` if an allocation is refused.
pub fn read_layout(alloc: Global, bytes: &[u8]) -> Result<Vec<LayoutRow>, CsvFault>
    ensures ok { IfOk result (λ rows. layout_rows_in bytes.now ≡ Some rows.items) }
    ensures bad { result ≡ Err CsvFault.BadCsv → layout_rows_in bytes.now ≡ None }
{
    read_table(alloc, bytes)
}

impl Row for LayoutRow {
    ghost columns = { layout_columns };

    ghost says = { row_in };

    ghost full = { no_layout_row };

    fn is_header(raw: &ByteRecord) -> bool {
        is_header(raw)
    }

    fn of_record(raw: &ByteRecord) -> Option<LayoutRow> {
        row(raw)
    }
}

/// Returns whether a record is the header.
fn is_header(raw: &ByteRecord) -> bool
    ensures { result ≡ is_record layout_columns (fields_of raw.now) }
{
    Fields::of(raw).is_some_and(|fields| {
        fields.kind == b"kind".as_slice()
            && fields.id == b"id".as_slice()
            && fields.from == b"from".as_slice()
            && fields.to == b"to".as_slice()
    })
}

/// Returns the row of a record, if it is one.
#[tactic(auto, unfolding(crate::specs::LayoutFile::row_in))]
fn row(raw: &ByteRecord) -> Option<LayoutRow>
    ensures { result ≡ row_in (fields_of raw.now) }
{
    let fields = Fields::of(raw)?;
    if is_node(fields.kind) {
        node(fields)
    } else if fields.kind == b"edge".as_slice() {
        edge(fields)
    } else if fields.kind == b"station".as_slice() {
        station(fields)
    } else {
        None
    }
}

/// Returns whether the kind is `node`.
fn is_node(kind: &[u8]) -> bool
    ensures { result ≡ bytes_eq kind.now (codes "node") }
{
    kind == b"node".as_slice()
}

/// Reads a node's record.
#[tactic(auto, unfolding(crate::specs::LayoutFile::node_row))]
fn node(fields: Fields<'_>) -> Option<LayoutRow>
    ensures { result ≡ node_row fields.entry.id.now fields.entry.from.now fields.entry.to.now }
{
    if !are_empty(fields.from, fields.to) {
        return None;
    }
    Some(LayoutRow::Node {
        id: Name::of_bytes(fields.id)?,
    })
}

/// Returns whether both fields after the id are empty.
fn are_empty(from: &[u8], to: &[u8]) -> bool
    ensures { result ≡ (length from.now == 0 && length to.now == 0) }
{
    from.is_empty() && to.is_empty()
}

/// Reads an edge's record.
#[tactic(auto, unfolding(crate::specs::LayoutFile::edge_row))]
fn edge(fields: Fields<'_>) -> Option<LayoutRow>
    ensures { result ≡ edge_row fields.entry.id.now fields.entry.from.now fields.entry.to.now }
{
    Some(LayoutRow::Edge {
        id: Name::of_bytes(fields.id)?,
        start: Name::of_bytes(fields.from)?,
        finish: Name::of_bytes(fields.to)?,
    })
}

/// Reads a station's record.
#[tactic(auto, unfolding(crate::specs::LayoutFile::station_row))]
fn station(fields: Fields<'_>) -> Option<LayoutRow>
    ensures { result ≡ station_row fields.entry.id.now fields.entry.from.now fields.entry.to.now }
{
    Some(LayoutRow::Station {
        id: Name::of_bytes(fields.id)?,
        node: Name::of_bytes(fields.from)?,
        capacity: capacity(fields.to)?,
    })
}
