//! The files that the desk reads, and the reports and exports that it writes.
//!
//! - [`read_layout`] reads the rows of a layout file, and [`read_count`] those of a stocktake file, in the order
//!   of the file: exactly those that `specs/LayoutFile.antt` and `specs/CountFile.antt` define for its bytes. They
//!   return [`CsvFault::BadCsv`] only if there are none, and [`CsvFault::Memory`] if an allocation is refused.
//!   `agv_layout` decides whether the rows are a layout, and the desk what a count changes.
//! - [`stock_report`] and [`hold_report`] write the reports, and [`loads_csv`] and [`layout_csv`] the exports, byte for
//!   byte as `specs/Reports.antt` says, or return [`Memory`](agv_header::Memory).
//! - [`laws`] proves that the export of loads is what `csv` writes of its records, and that [`read_layout`] reads the
//!   export of a layout back, so that it gives the layout again.
//!
//! Files are read as CSV (RFC 4180), as the crate `csv` reads it by its default settings except that there is no
//! header row of its own: records end in LF, CR LF or CR, a field may be quoted, blanks count, and all
//! records have the same number of fields. One byte order mark at the start is dropped.
#![tactic(auto)]

mod count_file;
mod export;
mod fault;
mod fields;
mod holds;
pub mod laws;
mod layout_export;
mod layout_file;
mod loads_by_place;
mod records;
mod stock;
mod table;

pub use count_file::read_count;
pub use export::loads_csv;
pub use fault::CsvFault;
pub use holds::hold_report;
pub use layout_export::layout_csv;
pub use layout_file::read_layout;
pub use stock::stock_report;
