//! What is true of the calls, by their definitions. Each function does nothing at run time: its clause
//! is the law.
//!
//! - [`calls`]: of each call, in every world: what it changes, what it leaves unchanged, and what moves loads.
//! - [`counts`]: of the counts of vehicles, loads, jobs, orders and references.
//! - [`drives`]: of the call that starts a drive: what trip its vehicle has afterwards.
//! - [`stocktakes`]: of where the loads are after a stocktake.
//! - [`lawful`]: a lawful world stays lawful after each call. It has two halves: [`vehicles`], of the layout, the
//!   vehicles and their trips, and [`stock`], of the loads and the jobs.
//! - [`histories`]: of lists of calls from a lawful world.
//! - [`jobs`]: of what is told of a job that is asked for.
//! - [`reports`]: of the exports: the layout's is read back as it is, that of jobs has exactly the live jobs, each
//!   with the vehicle that carries it out, and that of vehicles has exactly the vehicles, each as it is told by itself.

pub mod calls;
pub mod counts;
pub mod drives;
pub mod histories;
pub mod jobs;
pub mod lawful;
pub mod reports;
pub mod stock;
pub mod stocktakes;
pub mod vehicles;
