//! What a desk knows beside its tables, so that it reads them less, and how that is updated with what a call writes.
//! This crate has no connection: its users query the tables for what is not known, and pass in the answers.
//!
//! - [`Known`] has all of it. It is made of the lawful world of the tables when a desk is opened ([`Known::of`]), and
//!   is then true of that world (`specs/Known.antt`). [`Known::follow`] takes the changes of a call, and leaves what is
//!   true of the world after it.
//! - [`Counts`]: how many vehicles, loads, jobs, orders and references there are.
//! - What is cached once it was read has a file each, which says how a written row changes it: [`kept_layout`], the
//!   layout; [`kept_rooms`], how many more loads fit at stations; [`kept_trips`], the open trips of orders, and the
//!   vehicles without one; [`kept_vehicles`], the rows of vehicles; [`kept_jobs`], the rows of the live jobs.
//!
//! What is cached may be dropped if there is no memory for it; then it is read again.
#![tactic(auto)]

mod counts;
pub mod kept_jobs;
pub mod kept_layout;
pub mod kept_rooms;
pub mod kept_trips;
pub mod kept_vehicles;
mod known;

pub use counts::Counts;
pub use known::Known;
