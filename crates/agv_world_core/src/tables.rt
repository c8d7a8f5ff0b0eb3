//! Tables in memory: a row for each key, or a set of keys. In a clause they are finite maps and finite sets.

mod by_leg;
mod by_name;
mod by_vehicle;
mod names;
mod used_names;

pub use by_leg::ByLeg;
pub use by_name::{ByName, Row};
pub use by_vehicle::ByVehicle;
pub use names::Names;
pub use used_names::UsedNames;
