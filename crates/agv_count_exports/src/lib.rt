//! The exports of jobs and vehicles.
//!
//! [`jobs_csv`] writes the live jobs and [`vehicles_csv`] the vehicles as CSV, byte for byte as `specs/Exports.antt`
//! says, or they return [`Memory`](agv_header::Memory). No field needs quotes: names have no comma, no quote and no
//! end of a line. [`carrier`] finds the vehicle that carries out a job.
#![tactic(auto)]

mod carriers;
mod jobs;
mod told;
mod vehicles;

pub use carriers::{carrier, gives_the_carrier};
pub use jobs::jobs_csv;
pub use told::VehicleTold;
pub use vehicles::vehicles_csv;
