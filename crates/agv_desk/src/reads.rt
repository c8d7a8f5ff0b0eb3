//! The calls that only read.
ghost use Rattle.std.specs.Prelude.{◌≡◌, [], IfOk};
ghost use Rattle.agv_world_core.specs.Asks.{Asks};
ghost use Rattle.agv_world_core.specs.Questions.{trip_of};
ghost use Rattle.agv_desk.specs.Outcomes.{decided, Made, answer_only};
ghost use Rattle.agv_desk.specs.ReadSteps.{last_header, instant_told, open_order, order_told, carrier_told, get_order, get_instant, get_load, get_job, get_vehicle};
ghost use Rattle.agv_desk.specs.Sizes.{IsOfSize};
ghost use Rattle.agv_desk.specs.declared.answer.Answer.TheVariants as answer;

use crate::decisions::{made_with, refused};
use crate::sizes::is_of_size;
use crate::{Answer, Decision, OpenOrder, Report};
use agv_header::{Memory, Name, Refusal, VehicleKey};
use agv_message_core::{Header, InstantKind, InstantMessage, Sequence};
use agv_order::Trip;
use agv_stock::Phase;
use agv_world_core::{Carrier, Fault, Floor, JobRow, Sent, VehicleRow};
use std::alloc::Global;

/// Returns the last order message of the vehicle's open order. A trip larger than any of a lawful
/// world is answered with `Limit`, of which the clause says nothing.
pub(crate) fn get_order<F: Floor>(
    alloc: Global,
    floor: &mut F,
    key: VehicleKey,
) -> Result<Decision, Fault>
    ensures { Asks F.facts floor.old floor.new result (λ world decision. IsOfSize (trip_of world key) → decision ≡ decided (get_order world key)) }
{
    let Some(row) = floor.vehicle(key)? else {
        return Ok(refused(alloc, Refusal::NoVehicle));
    };
    let trip = floor.trip(key)?;
    Ok(answer_only(alloc, order_told(alloc, &key, &row, &trip)?))
}

/// Returns the last order message of an open trip, or `NoMessage` without one. In a lawful world no
/// trip is too long for a message.
fn order_told(
    alloc: Global,
    key: &VehicleKey,
    row: &VehicleRow,
    trip: &Option<Trip>,
) -> Result<Answer, Memory>
    ensures { IsOfSize trip.now → IfOk result (λ answer. answer ≡ order_told key.now row.now trip.now) }
{
    if !is_of_size(trip) {
        return Ok(Answer::Refused(Refusal::Limit));
    }
    let Some(trip) = trip else {
        return Ok(Answer::NoMessage);
    };
    Ok(Answer::Order {
        header: last_header(key, &row.orders),
        order: trip.message(alloc)?,
    })
}

/// Returns the last instantActions message of a vehicle, while its action is pending.
pub(crate) fn get_instant<F: Floor>(
    alloc: Global,
    floor: &mut F,
    key: VehicleKey,
) -> Result<Decision, Fault>
    ensures { Asks F.facts floor.old floor.new result (λ world decision. decision ≡ decided (get_instant world key)) }
{
    let Some(row) = floor.vehicle(key)? else {
        return Ok(refused(alloc, Refusal::NoVehicle));
    };
    Ok(answer_only(alloc, instant_told(&key, &row)))
}

/// Returns the last instantActions message while its action is pending, or else `NoMessage`.
fn instant_told(key: &VehicleKey, row: &VehicleRow) -> Answer
    ensures { result ≡ instant_told key.now row.now row.now.pending }
{
    match row.pending {
        Some(kind) => Answer::Instant {
            header: last_header(key, &row.instants),
            instant: InstantMessage { kind },
        },
        None => Answer::NoMessage,
    }
}

/// Returns the header of the last message of a topic.
fn last_header(key: &VehicleKey, sent: &Sent) -> Header
    ensures { result ≡ last_header key.now sent.now }
{
    Header {
        number: sent.count,
        at: sent.at,
        key: *key,
    }
}

/// Returns where a load is, and its live job.
pub(crate) fn get_load<F: Floor>(
    alloc: Global,
    floor: &mut F,
    load: Name,
) -> Result<Decision, Fault>
    ensures { Asks F.facts floor.old floor.new result (λ world decision. decision ≡ decided (get_load world load)) }
{
    let Some(place) = floor.place(load)? else {
        return Ok(refused(alloc, Refusal::NoLoad));
    };
    let job = floor.job_of(load)?;
    Ok(answer_only(alloc, Answer::Load { load, place, job }))
}

/// Returns a job, and which vehicle carries it out.
pub(crate) fn get_job<F: Floor>(alloc: Global, floor: &mut F, job: Name) -> Result<Decision, Fault>
    ensures { Asks F.facts floor.old floor.new result (λ world decision. decision ≡ decided (get_job world job)) }
{
    let Some(row) = floor.job(job)? else {
        return Ok(refused(alloc, Refusal::NoJob));
    };
    let carrier = carrier_told(floor, job, &row)?;
    Ok(answer_only(alloc, Answer::Job { job, row, carrier }))
}

/// Returns the vehicle that carries out the job of this row, if the job rides.
fn carrier_told<F: Floor>(floor: &mut F, job: Name, row: &JobRow) -> Result<Option<Carrier>, Fault>
    ensures { Asks F.facts floor.old floor.new result (λ world carrier. carrier ≡ carrier_told world job row.now) }
{
    match row.phase {
        Phase::Riding => floor.carrier(job),
        _ => Ok(None),
    }
}

/// Returns what is known of a vehicle, and its open order.
pub(crate) fn get_vehicle<F: Floor>(
    alloc: Global,
    floor: &mut F,
    key: VehicleKey,
) -> Result<Decision, Fault>
    ensures { Asks F.facts floor.old floor.new result (λ world decision. decision ≡ decided (get_vehicle world key)) }
{
    let Some(row) = floor.vehicle(key)? else {
        return Ok(refused(alloc, Refusal::NoVehicle));
    };
    let order = match &floor.trip(key)? {
        Some(trip) => Some(open_order(trip)),
        None => None,
    };
    Ok(answer_only(alloc, Answer::Vehicle { key, row, order }))
}

/// Returns the open order of a trip.
fn open_order(trip: &Trip) -> OpenOrder
    ensures { result ≡ open_order trip.now }
{
    OpenOrder {
        order: trip.order,
        sent: trip.sent,
        confirmed: trip.confirmed,
    }
}

/// Returns the decision that names a report: it has its bytes only once it is served.
pub(crate) fn name_report(alloc: Global, report: Report) -> Decision
    ensures { result ≡ decided (Made (answer_only (answer.Report report []))) }
{
    let text = Sequence::from(Vec::new(alloc));
    answer_only(alloc, Answer::Report { report, text })
}

/// Returns the decision with this answer that changes nothing.
fn answer_only(alloc: Global, answer: Answer) -> Decision
    ensures { result ≡ decided (Made (answer_only answer)) }
{
    made_with(answer, Vec::new(alloc))
}
