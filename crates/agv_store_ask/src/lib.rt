//! Answers the questions of a floor from the tables: by a key ([`key_queries`]), for the open trip of a vehicle
//! ([`trip_queries`]), and about loads and live jobs ([`load_queries`], [`station_loads`]). A caller that already knows
//! the layout passes it to the queries of a trip and of the room of a station ([`known_layout`]).
//!
//! Each result is that of the lawful world whose rows the tables have (`WorldAnswers.antt` of agv_store_read);
//! [`query_laws`] proves what a look-up returns of the rows of a world.
#![tactic(auto)]

pub mod key_queries;
pub mod known_layout;
pub mod load_queries;
pub mod query_laws;
pub mod station_loads;
pub mod trip_queries;
