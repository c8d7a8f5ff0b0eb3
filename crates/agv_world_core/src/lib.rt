//! What the desk knows: the world, and the maps that store it.
//!
//! - In a clause a world is a record of a layout, the vehicles with their open trips, the places of
//!   loads, the jobs, and the names that were used (`specs/Worlds.antt`).
//! - It is stored as eleven maps, each from a key to the other columns of its row (`specs/Maps.antt`); a database has
//!   its rows in fourteen tables (docs/TABLES.md). A [`Change`] is one row written or removed (`specs/Changes.antt`).
//! - In memory a [`World`] has these maps as tables, except for the holds, which follow from the
//!   others (`specs/Kept.antt`). [`World::apply`] carries out changes: all of them, or none.
//! - The maps of a world with consistent trips determine it, and so do its tables; the holds among the maps
//!   are the vehicles' footprints ([`laws`]).
//! - For a write of a vehicle, loads, jobs, a name or the layout, the changes lead from the maps of
//!   the world before to those of the world after ([`change_laws`]).
//! - A [`Floor`] answers questions about what the desk knows, however it is stored. One clause says for each question
//!   what it answers, what it leaves unchanged, and what a fault leaves (`specs/Asks.antt`). `agv_world_plain` answers
//!   them from a world in memory, whose tables determine a world (`specs/Told.antt`).
//! - `specs/Lawful.antt` defines lawful worlds; what follows from that is in [`lawful_laws`]. `agv_world_lawful` tests
//!   whether tables are those of a lawful world.
//! - A [`Fault`] says why a question has no answer, or a change was not made.
#![tactic(auto)]

mod carriers;
mod change;
pub mod change_laws;
mod fault;
mod floor;
mod key;
pub mod lawful_laws;
pub mod laws;
mod questions;
mod row;
mod tables;
mod world;
mod world_layout;

pub use carriers::has_drop_among;
pub use change::Change;
pub use fault::Fault;
pub use floor::{Carrier, Counted, Floor};
pub use key::{LegKey, UseKey, UseKind};
pub use row::{JobRow, Sent, TripRow, VehicleRow};
pub use tables::{ByLeg, ByName, ByVehicle, Names, Row, UsedNames};
pub use world::World;
