//! The rows of a world: open trips as journeys and acts, how each row is written into the columns of its table, and
//! which rows encode a world.
//!
//! - An open trip has one row for its journey, and one for each of its acts (`specs/TripRows.antt`). The key of a
//!   [`JourneyRow`] is its order id. The key of an [`ActRow`] is its [`ActKey`]: its order id and its number among the
//!   acts of the order, from 0; its load and its station are those of its job. [`trip_row_laws`] proves that each row
//!   has a key of its own, that the rows of an order are those of its trip, and how both lists change when a trip is
//!   written or removed.
//! - A trip is decoded from its journey, its acts and the jobs (`specs/TripsTold.antt`). [`acts_told`] decodes the acts
//!   of one order, and [`trips_told`] the trips of whole tables, whatever rows these have. [`trips_told_laws`] proves
//!   that the open trips of a lawful world are decoded from their rows and the world's jobs, that rows encode no other
//!   trips, and that names and numbers in the rows of a lawful world are as `specs/RowValues.antt` says.
//! - [`decode_value`], [`words`], [`row_values`] and [`key_values`]: how values, rows and keys are written into columns
//!   (`specs/Columns.antt`); [`decode_row`] reads them back, and [`row_laws`] and [`row_fits`] prove that the two fit
//!   each other and the tables.
//! - [`row_list_laws`]: the rows of a world are one list for each of the fourteen tables (`specs/Rows.antt`). The lists
//!   follow each change, and they, and a database that has them, encode only one lawful world.
//! - [`capacity_row`] is a vehicle's capacity. [`trip_laws`] proves that a vehicle's open trip is decoded from its
//!   journey, its acts, their jobs and its edges.
#![tactic(auto)]

mod act_key;
mod act_row;
mod by_act;
pub mod capacity_row;
pub mod decode_row;
pub mod decode_value;
mod journey_row;
pub mod key_values;
pub mod row_fits;
pub mod row_laws;
pub mod row_list_laws;
pub mod row_values;
pub mod trip_laws;
pub mod trip_row_laws;
mod trip_telling;
pub mod trips_told_laws;
pub mod words;

pub use act_key::ActKey;
pub use act_row::ActRow;
pub use by_act::ByAct;
pub use capacity_row::CapacityRow;
pub use journey_row::JourneyRow;
pub use trip_telling::{acts_told, trips_told};
pub use words::{PlaceKind, ThingKind};
