//! Decoding trips from the rows of their journeys and their acts, and from the jobs.
ghost use Rattle.std.specs.Prelude.{◌≡◌, ◌↔◌, IfOk, Some};
ghost use Rattle.std.specs.FinMap as finite;
ghost use Rattle.std.specs.List.{prefix_len};
ghost use Rattle.agv_header.specs.Name.{name_cmp};
ghost use Rattle.agv_world_core.specs.declared.row.TripRow.{TripRow as RowOfTrip};
ghost use Rattle.agv_store_rows.specs.TripRows.{is_of};
ghost use Rattle.agv_store_rows.specs.TripsTold.{AreTripsOf, acts_told};

use crate::{ActKey, ActRow, ByAct, JourneyRow};
use agv_header::{Memory, Name};
use agv_message_core::Sequence;
use agv_order::Act;
use agv_world_core::{ByName, JobRow, TripRow};
use std::alloc::Global;

/// Returns the acts of an order, from their rows in the order of their numbers, which count from 0. Returns `None` if a
/// number is missing or a job is unknown.
///
/// # Errors
/// `Memory` if an allocation fails.
pub fn acts_told(
    alloc: Global,
    rows: &[(ActKey, ActRow)],
    jobs: &ByName<JobRow>,
) -> Result<Option<Sequence<Act>>, Memory>
    ensures { IfOk result (λ acts. acts ≡ acts_told jobs.now 0 rows.now) }
{
    let mut acts = Vec::new(alloc);
    for row in rows {
        if row.0.n as usize != acts.len() {
            return Ok(None);
        }
        match jobs.get(row.1.job) {
            None => return Ok(None),
            Some(job) => acts.push(row.1.act(job))?,
        }
    }
    Ok(Some(Sequence::from(acts)))
}

/// Returns the trips that have exactly these journeys and these acts. Returns `None` if there are none: if the acts of
/// a journey are not numbered from 0 without a gap, an act has no journey, or the job of an act is unknown.
///
/// # Errors
/// `Memory` if an allocation fails.
pub fn trips_told(
    alloc: Global,
    journeys: &ByName<JourneyRow>,
    acts: &ByAct,
    jobs: &ByName<JobRow>,
) -> Result<Option<ByName<TripRow>>, Memory>
    ensures { IfOk result (λ told. (trips : finite.FinMap name_cmp RowOfTrip)
        → (told ≡ Some trips) ↔ AreTripsOf journeys.now acts.now jobs.now trips) }
{
    let list = acts.list(alloc)?;
    let mut rest = list.as_slice();
    let mut trips = ByName::new(alloc);
    for (order, journey) in journeys.iter() {
        let (own, others) = rest.split_at(count_first(*order, rest));
        let told = acts_told(alloc, own, jobs)?;
        match told {
            None => return Ok(None),
            Some(acts) => trips.insert(*order, journey.trip(acts))?,
        }
        rest = others;
    }
    if rest.is_empty() {
        Ok(Some(trips))
    } else {
        Ok(None)
    }
}

/// Returns how many of the first rows are of the order.
fn count_first(order: Name, rows: &[(ActKey, ActRow)]) -> usize
    ensures { result ≡ prefix_len (is_of order) rows.now }
{
    rows.iter().take_while(|row| row.0.order == order).count()
}
