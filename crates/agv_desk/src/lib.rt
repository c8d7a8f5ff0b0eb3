//! The rules of the desk: the answer and the changes of each call.
//!
//! - A [`Call`] is a request to the desk. The table of calls is a definition (`specs/Step.antt`, with a file beside it
//!   for each family of calls): a world, a moment and a call give an outcome, a refusal or an effect.
//! - [`decide`] queries a floor and returns a [`Decision`]: the [`Answer`] of that table, and the rows that change.
//!   Each call is one private function, in a file for its family; `decide_call` calls them, and `shared` has what
//!   several of them need.
//! - A decision's answer to a call for a [`Report`] only names the report; what is served has its bytes
//!   (`specs/Reports.antt`).
//! - [`moves_of`] lists the loads that a decision moves, and where to, in order.
//! - [`counted_by`] returns which count a call has increased by one; the counts of a world follow it
//!   ([`laws::counts`]).
//! - [`laws::calls`] proves that the changed rows take the maps of the world to those of the world after the call.
//! - From a lawful world each call leads to a lawful world ([`laws::lawful`], with the halves [`laws::vehicles`] and
//!   [`laws::stock`]), and so does each list of calls; [`laws::histories`] has further laws of lists.
//! - A drive that is not refused gives its vehicle the trip along the layout's route ([`laws::drives`]).
//! - The export of the layout is read back as the same layout, the export of jobs lists exactly the live jobs, each
//!   with the vehicle that carries it out, if any, and the export of vehicles lists exactly the vehicles, each as it is
//!   told by itself ([`laws::reports`]). A job that is asked for is told with the vehicle that carries it out, too
//!   ([`laws::jobs`]).
#![tactic(auto, unfolding(crate::specs::Outcomes::refuse_unless, crate::specs::Outcomes::refuse_if_none, crate::specs::Outcomes::checked, crate::specs::Outcomes::unheld, crate::specs::Outcomes::branch, crate::specs::Outcomes::decided, crate::specs::StateSteps::if_judged))]

mod acts;
mod answer;
mod call;
mod counts;
mod decide_call;
mod decisions;
mod drives;
mod holds;
mod instants;
mod jobs;
pub mod laws;
mod layouts;
mod loads;
mod moves;
mod order_jobs;
mod orders;
mod reads;
mod report;
mod shared;
mod sizes;
mod states;
mod stocktake;
mod updates;
mod vehicle_rows;
mod vehicles;

pub use answer::{Answer, Decision, OpenOrder};
pub use call::Call;
pub use counts::counted_by;
pub use decide_call::decide;
pub use moves::moves_of;
pub use report::Report;
