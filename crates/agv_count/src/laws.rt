//! Laws of the definitions that the contracts of this crate cite. A function here does nothing: its
//! clause is the law.
ghost use Rattle.std.specs.Prelude.{◌≡◌, ℕ, List, Ok, Some, option_map};
ghost use Rattle.agv_layout.specs.Layout.{KeepsRules, Layout as LayoutOf};
ghost use Rattle.agv_layout.specs.LayoutOf.{layout_of, rows_in};
ghost use Rattle.agv_layout.specs.declared.row.LayoutRow.{LayoutRow as RowOf};
ghost use Rattle.agv_stock.specs.declared.place.Place.{Place as PlaceOf};
ghost use Rattle.agv_count.specs.ExportRecords.{AreLoadsNamed, written_by_csv};
ghost use Rattle.agv_count.specs.LayoutExport.{AreListed};
ghost use Rattle.agv_count.specs.LayoutFile.{layout_rows_in};
ghost use Rattle.agv_count.specs.Reports.{layout_text, loads_text};

use agv_layout::laws::{gives_itself, lists_its_nodes};

/// Proves that the export of loads is what the writer of `csv` writes by its default settings: no field needs quotes.
pub fn exports_records()
    ensures { (loads : List (List ℕ × PlaceOf)) → AreLoadsNamed loads → loads_text loads ≡ written_by_csv loads }
{}

/// Proves that the export of rows is read back as these rows: `read_layout` reads what `layout_csv` writes.
pub fn layout_reads_back()
    ensures { (rows : List RowOf) → AreListed rows → layout_rows_in (layout_text rows) ≡ Some rows }
{}

/// Proves that the export of a layout gives it again: its rows are ones that are read back, and those that are read
/// back give the layout.
pub fn export_gives_layout()
    ensures listed { (layout : LayoutOf) → KeepsRules layout → AreListed (rows_in layout) }
    ensures back { (layout : LayoutOf) → KeepsRules layout
        → option_map layout_of (layout_rows_in (layout_text (rows_in layout))) ≡ Some (Ok layout) }
{
    lists_its_nodes();
    gives_itself();
}
