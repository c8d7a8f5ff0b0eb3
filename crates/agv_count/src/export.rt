//! The export of loads.
ghost use Rattle.std.specs.Prelude.{◌≡◌, ◌++◌, IfOk, OnOk, string_bytes};
ghost use Rattle.agv_count.specs.Reports.{load_line, loads_text, place_text};

use agv_header::{Memory, Name};
use agv_stock::Place;
use std::alloc::Global;

/// Exports the place of each load as CSV: the header `load,place,at`, and a record for each load, in the order given.
/// The desk gives the loads in the order of their names. Each record ends in LF alone.
///
/// No field needs quotes, since no name has a comma, a quote or the end of a line. Returns `Memory` only when out of
/// memory.
pub fn loads_csv(alloc: Global, loads: &[(Name, Place)]) -> Result<Vec<u8>, Memory>
    ensures { IfOk result (λ export. export.items ≡ loads_text loads.now) }
{
    let mut out = String::new(alloc);
    writeln!(out, "load,place,at")?;
    for (load, place) in loads {
        write_load(&mut out, *load, *place)?;
    }
    Ok(out.into_bytes())
}

/// Writes the record of a load.
fn write_load(out: &mut String, load: Name, place: Place) -> Result<(), Memory>
    ensures { OnOk result (string_bytes out.new ≡ string_bytes out.old ++ load_line (load, place)) }
{
    write!(out, "{load},")?;
    write_place(out, place)?;
    writeln!(out)?;
    Ok(())
}

/// Writes the two fields of a place: its kind, and its station or vehicle.
fn write_place(out: &mut String, place: Place) -> Result<(), Memory>
    ensures { OnOk result (string_bytes out.new ≡ string_bytes out.old ++ place_text place) }
{
    match place {
        Place::Station(id) => write!(out, "station,{id}")?,
        Place::Vehicle(key) => write!(out, "vehicle,{}/{}", key.manufacturer, key.serial)?,
        Place::Checking => write!(out, "checking,")?,
        Place::Left => write!(out, "left,")?,
    }
    Ok(())
}
