//! The scripts, by their subjects: requests and their answers, worked out by hand. `starts` has the parts
//! with which they begin.

pub mod cancels;
pub mod drives;
pub mod instants;
pub mod layouts;
pub mod loads;
pub mod orders;
pub mod refusals;
pub mod starts;
pub mod stocktakes;
pub mod trips;
pub mod two_loads;
pub mod ways;
pub mod written;

/// The scripts for vehicles of one load.
pub const FOR_ONE: [&[&[&str]]; 15] = [
    cancels::CANCELS,
    drives::DRIVES,
    instants::INSTANTS,
    layouts::LAYOUTS,
    layouts::MOST_VEHICLES,
    loads::LOADS,
    orders::ORDERS,
    orders::UPDATES,
    refusals::REFUSALS,
    refusals::REFUSED_ORDERS,
    stocktakes::STOCKTAKES,
    stocktakes::OF_TWO_LOADS,
    trips::TRIPS,
    ways::WAYS,
    written::WRITTEN,
];
