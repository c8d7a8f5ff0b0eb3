//! The records of a file.
ghost use Rattle.std.specs.Prelude.{◌≡◌, ℕ, Err, IfOk, false, map};
ghost use Rattle.std.specs.List.{list_all};
ghost use Rattle.csv.specs.Records.{fields_of};
ghost use Rattle.agv_count.specs.Records.{has_fields, records_of};

use crate::CsvFault;
use csv::{ByteRecord, ReaderBuilder};
use std::alloc::Global;

/// Reads every record of a file, the header included.
///
/// Returns `BadCsv` if two records differ in their number of fields, and `Memory` if an allocation is refused.
pub fn read_records(alloc: Global, bytes: &[u8]) -> Result<Vec<ByteRecord>, CsvFault>
    ensures ok { IfOk result (λ records. records_of bytes.now ≡ map fields_of records.items) }
    ensures bad { result ≡ Err CsvFault.BadCsv
        → (n : ℕ) → list_all (has_fields n) (records_of bytes.now) ≡ false }
{
    let reader = ReaderBuilder::new()
        .has_headers(false)
        .from_reader(alloc, bytes);
    let mut records = Vec::new(alloc);
    for record in reader.into_byte_records() {
        records.push(record?)?;
    }
    Ok(records)
}
