//! The export of a layout.
ghost use Rattle.std.specs.Prelude.{◌≡◌, ◌++◌, IfOk, OnOk, string_bytes};
ghost use Rattle.agv_count.specs.Reports.{layout_line, layout_text};

use agv_header::Memory;
use agv_layout::LayoutRow;
use std::alloc::Global;

/// Exports the rows of a layout as CSV: the header `kind,id,from,to`, and a record for each row, in the order given.
/// Each record ends in LF alone.
///
/// No field needs quotes, since no name has a comma, a quote or the end of a line. [`read_layout`](crate::read_layout)
/// reads these rows back if each capacity is at most 999, as it is in a layout. Returns `Memory` only when out of
/// memory.
pub fn layout_csv(alloc: Global, rows: &[LayoutRow]) -> Result<Vec<u8>, Memory>
    ensures { IfOk result (λ export. export.items ≡ layout_text rows.now) }
{
    let mut out = String::new(alloc);
    writeln!(out, "kind,id,from,to")?;
    for row in rows {
        write_row(&mut out, *row)?;
    }
    Ok(out.into_bytes())
}

/// Writes the record of a row.
fn write_row(out: &mut String, row: LayoutRow) -> Result<(), Memory>
    ensures { OnOk result (string_bytes out.new ≡ string_bytes out.old ++ layout_line row) }
{
    match row {
        LayoutRow::Node { id } => writeln!(out, "node,{id},,")?,
        LayoutRow::Edge { id, start, finish } => writeln!(out, "edge,{id},{start},{finish}")?,
        LayoutRow::Station { id, node, capacity } => {
            writeln!(out, "station,{id},{node},{capacity}")?
        }
    }
    Ok(())
}
