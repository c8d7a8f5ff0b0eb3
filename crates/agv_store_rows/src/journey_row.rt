//! The rows of journeys.
ghost use Rattle.std.specs.Prelude.{◌≡◌};
ghost use Rattle.agv_store_rows.specs.TripRows.{journey_of};
ghost use Rattle.agv_store_rows.specs.TripsTold.{trip_told};

use agv_header::{Name, VehicleKey};
use agv_message_core::Sequence;
use agv_order::Act;
use agv_world_core::{Row, TripRow};

/// An open trip without its order id, its edges and its acts.
#[derive(Clone, Copy, Debug)]
pub struct JourneyRow {
    pub vehicle: VehicleKey,
    pub start: Name,
    pub first: u32,
    pub base: u32,
    pub sent: u32,
    pub confirmed: Option<u32>,
    pub seen: u32,
}

impl Row for JourneyRow {
    ghost same = { λ row clone e. e };
}

impl JourneyRow {
    /// Returns the journey row of an open trip.
    pub fn of(trip: &TripRow) -> JourneyRow
        ensures { result ≡ journey_of trip.now }
    {
        JourneyRow {
            vehicle: trip.vehicle,
            start: trip.start,
            first: trip.first,
            base: trip.base,
            sent: trip.sent,
            confirmed: trip.confirmed,
            seen: trip.seen,
        }
    }

    /// Returns the trip with this row and these acts.
    pub fn trip(&self, acts: Sequence<Act>) -> TripRow
        ensures { result ≡ trip_told self.now acts }
    {
        TripRow {
            vehicle: self.vehicle,
            start: self.start,
            first: self.first,
            base: self.base,
            sent: self.sent,
            confirmed: self.confirmed,
            seen: self.seen,
            acts,
        }
    }
}
