//! The fields of a record.
ghost use Rattle.std.specs.Prelude.{◌≡◌, ◌≢◌, ◌∷◌, [], IfNone, IfSome, None, Some, if◌then◌else◌, length};
ghost use Rattle.std.specs.Str.Parse.{digits_value};
ghost use Rattle.csv.specs.Records.{fields_of};
ghost use Rattle.agv_count.specs.LayoutFile.{is_capacity};

use agv_header::are_digits;
use csv::ByteRecord;
use std::str;

/// The four fields of a record of a layout file.
#[derive(Clone, Copy)]
pub struct Fields<'a> {
    pub kind: &'a [u8],
    pub id: &'a [u8],
    pub from: &'a [u8],
    pub to: &'a [u8],
}

impl<'a> Fields<'a> {
    /// Returns the fields of a record that has four.
    pub fn of(raw: &'a ByteRecord) -> Option<Fields<'a>>
        ensures some { IfSome result (λ f. fields_of raw.now
            ≡ f.kind.now ∷ f.id.now ∷ f.from.now ∷ f.to.now ∷ []) }
        ensures none { IfNone result (length (fields_of raw.now) ≢ 4) }
    {
        if raw.len() != 4 {
            return None;
        }
        Some(Fields {
            kind: raw.get(0)?,
            id: raw.get(1)?,
            from: raw.get(2)?,
            to: raw.get(3)?,
        })
    }
}

/// The most digits of a capacity.
const MAX_CAPACITY_DIGITS: usize = 3;

/// Reads a field as a capacity, or returns `None` if it isn't 1 to 3 digits.
pub fn capacity(field: &[u8]) -> Option<u32>
    ensures { result ≡ (if is_capacity field.now then Some (digits_value 10 field.now) else None) }
{
    if !is_capacity(field) {
        return None;
    }
    str::from_utf8(field).ok()?.parse().ok()
}

/// Returns whether the field is a capacity: 1 to 3 digits.
fn is_capacity(field: &[u8]) -> bool
    ensures { result ≡ is_capacity field.now }
{
    !field.is_empty() && field.len() <= MAX_CAPACITY_DIGITS && are_digits(field)
}
