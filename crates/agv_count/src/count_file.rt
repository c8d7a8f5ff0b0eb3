//! The stocktake file.
ghost use Rattle.std.specs.Prelude.{◌≡◌, ◌≢◌, ◌∷◌, [], Err, IfNone, IfOk, IfSome, None, Some, length};
ghost use Rattle.csv.specs.Records.{fields_of};
ghost use Rattle.agv_count.specs.CountFile.{count_columns, count_in, count_row, load_found, no_count_row};
ghost use Rattle.agv_count.specs.Table.{is_record};

use crate::CsvFault;
use crate::table::{Row, read_table};
use agv_header::Name;
use csv::ByteRecord;
use std::alloc::Global;

/// Reads the rows of a stocktake file, in the order of the file: a counted station, and a load found there, if any.
/// A file of the header alone is a count of nothing.
///
/// Returns `BadCsv` if the file isn't CSV whose records all have the same number of fields, has no record, doesn't
/// begin with the header `station,load`, or has a record that is no row: its station is no name, or its load is
/// neither a name nor empty. Returns `Memory` if an allocation is refused.
pub fn read_count(alloc: Global, bytes: &[u8]) -> Result<Vec<(Name, Option<Name>)>, CsvFault>
    ensures ok { IfOk result (λ rows. count_in bytes.now ≡ Some rows.items) }
    ensures bad { result ≡ Err CsvFault.BadCsv → count_in bytes.now ≡ None }
{
    read_table(alloc, bytes)
}

impl Row for (Name, Option<Name>) {
    ghost columns = { count_columns };

    ghost says = { count_row };

    ghost full = { no_count_row };

    fn is_header(raw: &ByteRecord) -> bool {
        is_header(raw)
    }

    fn of_record(raw: &ByteRecord) -> Option<(Name, Option<Name>)> {
        row(raw)
    }
}

/// Returns whether a record is the header.
fn is_header(raw: &ByteRecord) -> bool
    ensures { result ≡ is_record count_columns (fields_of raw.now) }
{
    two_fields(raw).is_some_and(|(station, load)| {
        station == b"station".as_slice() && load == b"load".as_slice()
    })
}

/// Returns the fields of a record that has two.
fn two_fields(raw: &ByteRecord) -> Option<(&[u8], &[u8])>
    ensures some { IfSome result (λ f. fields_of raw.now ≡ f.0.now ∷ f.1.now ∷ []) }
    ensures none { IfNone result (length (fields_of raw.now) ≢ 2) }
{
    if raw.len() != 2 {
        return None;
    }
    Some((raw.get(0)?, raw.get(1)?))
}

/// Returns the row of a record, if it is one.
#[tactic(auto, unfolding(crate::specs::CountFile::count_row))]
fn row(raw: &ByteRecord) -> Option<(Name, Option<Name>)>
    ensures { result ≡ count_row (fields_of raw.now) }
{
    let (station, load) = two_fields(raw)?;
    Some((Name::of_bytes(station)?, load_found(load)?))
}

/// Reads the load of a record: `Some(None)` if the field is empty, and `None` if it is no name.
fn load_found(field: &[u8]) -> Option<Option<Name>>
    ensures { result ≡ load_found field.now }
{
    if field.is_empty() {
        return Some(None);
    }
    Some(Some(Name::of_bytes(field)?))
}
