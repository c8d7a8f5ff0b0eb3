//! The tests of the crates below the world. They are in one crate, since a crate with tests is proved twice; the world
//! and the desk are tested by the scripts of `agv_tests_support`. The expected values are written out or worked out by
//! hand, or come from another program.
//!
//! Each case is a line of a table: a call with its arguments, ` => `, and the expected answer, as it is printed. A
//! function of each file makes the call that a line names.
//!
//! - `cases` reads such lines, and compares.
//! - `names` has names, topics, stamps, moments and header numbers.
//! - `messages` has state messages and instant actions; the orders are in `trips`.
//! - `layouts` has layout files, the layouts that they give, and the ways there.
//! - `stocks` has the room of stations and the checks of what is done with loads.
//! - `counts` has stocktake files, the reports and the export.
//! - `trips` has trips, their messages, and what a state says of them; `plans` has plans, and `joins` what a vehicle
//!   does with messages.
//! - `holds` has what vehicles claim and shed, and who holds what afterwards.
//! - `routes` and `long_plans` have the largest layout, the longest trip and its messages.
#![tactic(auto)]

#[cfg(test)]
mod cases;
#[cfg(test)]
mod counts;
#[cfg(test)]
mod holds;
#[cfg(test)]
mod joins;
#[cfg(test)]
mod layouts;
#[cfg(test)]
mod long_plans;
#[cfg(test)]
mod messages;
#[cfg(test)]
mod names;
#[cfg(test)]
mod plans;
#[cfg(test)]
mod routes;
#[cfg(test)]
mod stocks;
#[cfg(test)]
mod trips;
