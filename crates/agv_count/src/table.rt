//! Files that hold a table: a header, and then a record for each row.
ghost use Rattle.std.specs.Prelude.{◌≡◌, ℕ, List, Option, ◌∷◌, ◌++◌, [], Err, IfOk, OnOk, None, Some, false, length, map, option_map};
ghost use Rattle.csv.specs.Records.{fields_of};
ghost use Rattle.agv_header.specs.Each.{each};
ghost use Rattle.agv_count.specs.Records.{has_fields, records_of};
ghost use Rattle.agv_count.specs.Table.{is_record, rows_under};

use crate::CsvFault;
use crate::records::read_records;
use csv::ByteRecord;
use std::alloc::Global;

/// A row of a table, which is read from a record of the file.
pub trait Row: Sized + Drop {
    ghost columns: { List (List ℕ) };

    ghost says: { List (List ℕ) → Option Self };

    /// Returns whether a record is the header, which names the columns.
    fn is_header(raw: &ByteRecord) -> bool
        ensures { result ≡ is_record columns (fields_of raw.now) };

    /// Returns the row of a record, if it is one.
    fn of_record(raw: &ByteRecord) -> Option<Self>
        ensures { result ≡ says (fields_of raw.now) };

    // A row has as many fields as there are columns.
    ghost full: { (fields : List (List ℕ)) → has_fields (length columns) fields ≡ false → says fields ≡ None };
}

/// Reads the rows of a file, in its order.
///
/// Returns `BadCsv` if the file isn't CSV whose records all have the same number of fields, has no record, doesn't
/// begin with the header, or has a record that is no row. Returns `Memory` if an allocation is refused.
pub fn read_table<R: Row>(alloc: Global, bytes: &[u8]) -> Result<Vec<R>, CsvFault>
    ensures ok { IfOk result (λ rows. rows_under R.columns R.says (records_of bytes.now) ≡ Some rows.items) }
    ensures bad { result ≡ Err CsvFault.BadCsv → rows_under R.columns R.says (records_of bytes.now) ≡ None }
{
    let records = read_records(alloc, bytes)?;
    rows_under_header(alloc, &records)
}

/// Reads the rows of the records after the header, or returns `BadCsv` if there is no header.
fn rows_under_header<R: Row>(alloc: Global, records: &[ByteRecord]) -> Result<Vec<R>, CsvFault>
    ensures ok { IfOk result (λ rows. rows_under R.columns R.says (map fields_of records.now) ≡ Some rows.items) }
    ensures bad { result ≡ Err CsvFault.BadCsv → rows_under R.columns R.says (map fields_of records.now) ≡ None }
{
    let Some((header, rest)) = records.split_first() else {
        return Err(CsvFault::BadCsv);
    };
    if !R::is_header(header) {
        return Err(CsvFault::BadCsv);
    }
    rows(alloc, rest)
}

/// Reads the rows of the records, in order.
fn rows<R: Row>(alloc: Global, records: &[ByteRecord]) -> Result<Vec<R>, CsvFault>
    ensures ok { IfOk result (λ rows. each R.says (map fields_of records.now) ≡ Some rows.items) }
    ensures bad { result ≡ Err CsvFault.BadCsv → each R.says (map fields_of records.now) ≡ None }
{
    let mut rows = Vec::new(alloc);
    for record in records {
        add_row(&mut rows, record)?;
    }
    Ok(rows)
}

/// Adds the row of a record, or returns `BadCsv` if it is none.
fn add_row<R: Row>(rows: &mut Vec<R>, raw: &ByteRecord) -> Result<(), CsvFault>
    ensures ok { OnOk result (option_map (λ row. rows.old.items ++ row ∷ []) (R.says (fields_of raw.now)) ≡ Some rows.new.items) }
    ensures bad { result ≡ Err CsvFault.BadCsv → R.says (fields_of raw.now) ≡ None }
{
    match R::of_record(raw) {
        Some(found) => Ok(rows.push(found)?),
        None => Err(CsvFault::BadCsv),
    }
}
