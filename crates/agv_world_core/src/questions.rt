//! The answers of the world in memory to the questions of [`Floor`](crate::Floor).
ghost use Rattle.std.specs.Prelude.{◌≡◌, IfOk};
ghost use Rattle.std.specs.FinMap as map;
ghost use Rattle.std.specs.FinSet as set;
ghost use Rattle.agv_world_core.specs.Questions.{row_of, trip_of, count_of};
ghost use Rattle.agv_world_core.specs.Told.{world_of, edge_named, edges_of, first_order, trip_in, open_trip, names_of};

use crate::{Counted, TripRow, UseKind, VehicleRow, World};
use agv_header::{Memory, Name, VehicleKey};
use agv_layout::Edge;
use agv_message_core::Sequence;
use agv_order::Trip;
use agv_stock::Place;
use std::alloc::Global;

impl World {
    /// Returns the row of a vehicle, or `None` if there is no such vehicle.
    pub fn vehicle(&self, key: VehicleKey) -> Option<VehicleRow>
        ensures { result ≡ row_of (world_of self.now) key }
    {
        self.vehicles.get(key).copied()
    }

    /// Returns where a load is, or `None` if the load is unknown.
    pub fn place(&self, load: Name) -> Option<Place>
        ensures { result ≡ map.get self.now.loads load }
    {
        self.loads.get(load).copied()
    }

    /// Returns how many names were used in this kind.
    pub fn used_count(&self, kind: UseKind) -> usize
        ensures { result ≡ set.len (names_of self.now kind) }
    {
        self.used.iter().filter(|key| key.is_of_kind(kind)).count()
    }

    /// Returns how many vehicles, loads, jobs, orders or references there are.
    pub fn count(&self, counted: Counted) -> usize
        ensures { result ≡ count_of (world_of self.now) counted }
    {
        match counted {
            Counted::Vehicles => self.vehicles.len(),
            Counted::Loads => self.loads.len(),
            Counted::Jobs => self.jobs.len(),
            Counted::Orders => self.used_count(UseKind::Order),
            Counted::References => self.used_count(UseKind::Reference),
        }
    }

    /// Returns the trip of a row, with its edges.
    ///
    /// Returns `Memory` if an allocation was refused.
    pub fn trip_in(&self, alloc: Global, order: Name, row: &TripRow) -> Result<Trip, Memory>
        ensures { IfOk result (λ trip. trip ≡ trip_in self.now (order, row.now)) }
    {
        Ok(Trip {
            order,
            vehicle: row.vehicle,
            start: row.start,
            edges: self.edges_of(alloc, order)?,
            first: row.first,
            base: row.base,
            sent: row.sent,
            confirmed: row.confirmed,
            seen: row.seen,
            acts: row.acts.copy()?,
        })
    }

    /// Returns the edges of an order, in the order of the way; an edge that the layout does not
    /// have is left out.
    fn edges_of(&self, alloc: Global, order: Name) -> Result<Sequence<Edge>, Memory>
        ensures { IfOk result (λ edges. edges ≡ edges_of self.now order) }
    {
        let edges: Vec<Edge> = self
            .legs
            .iter()
            .filter(|(key, _)| key.order == order)
            .filter_map(|(_, id)| self.edge(*id))
            .collect(alloc)?;
        Ok(Sequence::from(edges))
    }

    /// Returns the trip of the first row that names the vehicle, or `None` if no row does.
    ///
    /// Returns `Memory` if an allocation was refused.
    pub fn open_trip(&self, alloc: Global, key: VehicleKey) -> Result<Option<Trip>, Memory>
        ensures { IfOk result (λ trip. trip ≡ open_trip self.now key) }
    {
        for (order, row) in self.trips.iter() {
            if row.vehicle == key {
                let trip = self.trip_in(alloc, *order, row)?;
                return Ok(Some(trip));
            }
        }
        Ok(None)
    }

    /// Returns the open trip of a vehicle, or `None` if it has none or there is no such vehicle.
    ///
    /// Returns `Memory` if an allocation was refused.
    pub fn trip(&self, alloc: Global, key: &VehicleKey) -> Result<Option<Trip>, Memory>
        ensures { IfOk result (λ trip. trip ≡ trip_of (world_of self.now) key.now) }
    {
        if self.vehicle(*key).is_none() {
            return Ok(None);
        }
        self.open_trip(alloc, *key)
    }

    /// Returns the order of the first row that names the vehicle, or `None` if no row does.
    pub fn first_order(&self, key: VehicleKey) -> Option<Name>
        ensures { result ≡ first_order self.now key }
    {
        for (order, row) in self.trips.iter() {
            if row.vehicle == key {
                return Some(*order);
            }
        }
        None
    }

    /// Returns the edge of this name with its ends, or `None` if the layout has no such edge.
    pub fn edge(&self, id: Name) -> Option<Edge>
        ensures { result ≡ edge_named self.now.edges id }
    {
        let ends = self.edges.get(id)?;
        Some(Edge {
            id,
            start: ends.start,
            finish: ends.finish,
        })
    }
}
