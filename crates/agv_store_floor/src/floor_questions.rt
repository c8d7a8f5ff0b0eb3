//! The questions of a floor, each answered by look-ups of a key or an index in the desk's tables. Only the vehicles are
//! read whole, to find the one that carries out a job, and the layout, which is cached when a caller asks for it. A
//! node, a station, the edges of a trip and the layout itself are looked up in the cached layout, and queried only if
//! none is cached or it lacks the name. The row of a vehicle, once read or written, and an open trip, once read, are
//! cached and updated with each write. Whether one more load fits at a station follows from the cached room there; if
//! none is cached, the room is counted. An answer that cannot be cached for want of memory is returned all the same,
//! except the layout.

use crate::flags::note;
use crate::keyed_floor::KeyedFloor;
use agv_count_exports::carrier;
use agv_header::{Name, Thing, VehicleKey};
use agv_layout::{Layout, StationSite};
use agv_message_core::Sequence;
use agv_order::Trip;
use agv_stock::Place;
use agv_store_ask::key_queries::{
    query_holder, query_job, query_node, query_place, query_station, query_used,
};
use agv_store_ask::load_queries::{query_job_of, query_loads_on, query_reserved, query_room};
use agv_store_ask::station_loads::query_loads_at;
use agv_store_schema::DESK_SEATS;
use agv_world_core::{Carrier, Counted, Fault, Floor, JobRow, UseKey, UseKind, VehicleRow};
use sqlite::Alter;

impl<S: Alter + Drop> Floor for KeyedFloor<S> {
    ghost use Rattle.std.proofs.Common.{inl, refl};
    ghost use Rattle.std.proofs.Math.Nat.{le_refl};
    ghost use Rattle.agv_store_floor.specs.Floors.{facts_of};

    ghost facts = { facts_of S.Store };

    ghost starts = { λ floor. record {
      survives = record { clean = le_refl _; shield = λ is. is; counts = le_refl _; limit = refl; closes = λ clean still. inl still; crash = λ clean trees left. inl left };
      was_open = λ clean still. still;
      unchanged = λ clean still settled. refl;
      committed = λ clean still. refl;
      idle = λ idle. idle;
    } };

    fn failed(&self) -> bool {
        self.failed
    }

    fn seats(&self) -> u32 {
        DESK_SEATS
    }

    fn vehicle(&mut self, key: VehicleKey) -> Result<Option<VehicleRow>, Fault> {
        if let Some(vehicle) = self.kept_vehicle(&key) {
            self.settle()?;
            return Ok(Some(vehicle));
        }
        let vehicle = self.vehicle_asked(&key)?;
        if let Some(vehicle) = &vehicle {
            let _kept = self.keep_vehicle(&key, vehicle);
        }
        Ok(vehicle)
    }

    fn trip(&mut self, key: VehicleKey) -> Result<Option<Trip>, Fault> {
        let kept = self.kept_trip(&key)?;
        if let Some(kept) = kept {
            self.settle()?;
            return Ok(Some(kept));
        }
        if self.is_known_without_trip(&key) {
            self.settle()?;
            return Ok(None);
        }
        let trip = self.trip_asked(&key)?;
        if let Some(trip) = &trip {
            let _kept = self.keep_trip(&key, trip);
        } else {
            let _kept = self.keep_no_trip(&key);
        }
        Ok(trip)
    }

    fn has_trip(&mut self, key: VehicleKey) -> Result<bool, Fault> {
        if self.is_known_without_trip(&key) {
            self.settle()?;
            return Ok(false);
        }
        self.has_trip_asked(&key)
    }

    fn place(&mut self, load: Name) -> Result<Option<Place>, Fault> {
        let asked = query_place(&mut self.conn, &load);
        note(&mut self.failed, &mut self.in_doubt, asked)
    }

    fn job(&mut self, job: Name) -> Result<Option<JobRow>, Fault> {
        let asked = query_job(&mut self.conn, &job);
        note(&mut self.failed, &mut self.in_doubt, asked)
    }

    fn carrier(&mut self, job: Name) -> Result<Option<Carrier>, Fault> {
        let vehicles = self.vehicles_with_trips_told()?;
        Ok(carrier(&vehicles, job))
    }

    fn room(&mut self, station: Name) -> Result<Option<u32>, Fault> {
        let asked = query_room(&mut self.conn, &self.known.layout, &station);
        note(&mut self.failed, &mut self.in_doubt, asked)
    }

    fn has_room(&mut self, station: Name) -> Result<Option<bool>, Fault> {
        if self.keeps_room(station) {
            self.settle()?;
            return Ok(Some(true));
        }
        let Some(room) = self.room(station)? else {
            return Ok(None);
        };
        if room == 0 {
            return Ok(Some(false));
        }
        let _kept = self.keep_room(station, room);
        Ok(Some(true))
    }

    fn holder(&mut self, thing: Thing) -> Result<Option<VehicleKey>, Fault> {
        let asked = query_holder(&mut self.conn, &thing);
        note(&mut self.failed, &mut self.in_doubt, asked)
    }

    fn node(&mut self, id: Name) -> Result<bool, Fault> {
        if self.keeps_node(id) {
            self.settle()?;
            return Ok(true);
        }
        let asked = query_node(&mut self.conn, &id);
        note(&mut self.failed, &mut self.in_doubt, asked)
    }

    fn station(&mut self, id: Name) -> Result<Option<StationSite>, Fault> {
        if let Some(site) = self.kept_station(id) {
            self.settle()?;
            return Ok(Some(site));
        }
        let asked = query_station(&mut self.conn, &id);
        note(&mut self.failed, &mut self.in_doubt, asked)
    }

    fn used(&mut self, kind: UseKind, name: Name) -> Result<bool, Fault> {
        let asked = query_used(&mut self.conn, &UseKey { kind, name });
        note(&mut self.failed, &mut self.in_doubt, asked)
    }

    fn has_layout(&mut self) -> Result<bool, Fault> {
        if self.keeps_layout() {
            self.settle()?;
            return Ok(true);
        }
        let layout = self.layout_asked()?;
        Ok(layout.is_some())
    }

    fn layout(&mut self) -> Result<Option<Layout>, Fault> {
        let kept = self.kept_layout()?;
        if let Some(kept) = kept {
            self.settle()?;
            return Ok(Some(kept));
        }
        let layout = self.layout_asked()?;
        self.keep_layout(&layout)?;
        Ok(layout)
    }

    fn loads_at(&mut self, station: Name) -> Result<Sequence<Name>, Fault> {
        let asked = query_loads_at(self.alloc, &mut self.conn, &station);
        note(&mut self.failed, &mut self.in_doubt, asked)
    }

    fn loads_on(&mut self, key: VehicleKey) -> Result<usize, Fault> {
        let asked = query_loads_on(&mut self.conn, &key);
        note(&mut self.failed, &mut self.in_doubt, asked)
    }

    fn job_of(&mut self, load: Name) -> Result<Option<Name>, Fault> {
        let asked = query_job_of(&mut self.conn, &load);
        note(&mut self.failed, &mut self.in_doubt, asked)
    }

    fn reserved(&mut self, station: Name) -> Result<usize, Fault> {
        let asked = query_reserved(&mut self.conn, &station);
        note(&mut self.failed, &mut self.in_doubt, asked)
    }

    fn count(&mut self, counted: Counted) -> Result<usize, Fault> {
        self.settle()?;
        Ok(self.known.counts.get(counted))
    }
}
