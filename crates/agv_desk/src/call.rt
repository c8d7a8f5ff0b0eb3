//! Calls.
ghost use Rattle.std.specs.Prelude.{◌≡◌, ◌≤◌, IfSome};
ghost use Rattle.agv_header.specs.Name.{IsName};
ghost use Rattle.agv_layout.specs.Rows.{AreNamed};
ghost use Rattle.agv_world_core.specs.Lawful.{IsKey};
ghost use Rattle.agv_desk.specs.Reports.{report_asked};
ghost use Rattle.agv_desk.specs.WellTyped.{IsWellTyped};
ghost use Rattle.agv_desk.specs.declared.call.Call.TheVariants as call;

use crate::report::Report;
use agv_header::{Name, VehicleKey};
use agv_layout::LayoutRow;
use agv_message_core::{Sequence, StateMessage};
use agv_order::Stop;

/// A request to the desk: a change, or a query.
#[derive(Debug, Drop)]
pub enum Call {
    /// Sets the layout, which can't be changed later.
    SetLayout {
        rows: Sequence<LayoutRow>,
    },
    /// Registers a vehicle that stands at a node, and carries at most this many loads at once.
    RegisterVehicle {
        key: VehicleKey,
        node: Name,
        capacity: u32,
    },
    /// Registers a load that stands at a station, or else at the checking place.
    RegisterLoad {
        load: Name,
        station: Option<Name>,
    },
    /// Corrects the place of a load: a person has found it at this station, or else at the checking place.
    CorrectLoad {
        load: Name,
        reference: Name,
        station: Option<Name>,
    },
    /// Records that a load leaves the warehouse.
    LeaveLoad {
        load: Name,
        reference: Name,
    },
    /// Adds a job to carry a load to a station.
    AddJob {
        job: Name,
        load: Name,
        to: Name,
    },
    /// Stops a waiting job.
    StopJob {
        job: Name,
    },
    /// Starts an order of a vehicle that makes these stops, with the first `edges` edges of its way released.
    StartOrder {
        order: Name,
        key: VehicleKey,
        stops: Sequence<Stop>,
        edges: u32,
    },
    /// Starts an order of a vehicle that leads it to a node, without actions, with the first `edges` edges of its way
    /// released. The loads that it carries stay on it.
    StartDrive {
        order: Name,
        key: VehicleKey,
        to: Name,
        edges: u32,
    },
    /// Releases this many further edges, by the order update of this number.
    Advance {
        key: VehicleKey,
        order: Name,
        update: u32,
        edges: u32,
    },
    /// Asks a vehicle to cancel its order.
    Cancel {
        key: VehicleKey,
    },
    /// Asks a vehicle to pause.
    Pause {
        key: VehicleKey,
    },
    /// Asks a vehicle to go on.
    Resume {
        key: VehicleKey,
    },
    /// Places a vehicle at the node where a person says that it stands. This ends its order, if it has one.
    PlaceVehicle {
        key: VehicleKey,
        reference: Name,
        node: Name,
    },
    /// Forgets the number of the vehicle's last state, for a vehicle that restarts its count.
    Resync {
        key: VehicleKey,
    },
    /// Takes a state message of a vehicle.
    State {
        key: VehicleKey,
        state: StateMessage,
    },
    /// Reads the last order message of the vehicle's open order.
    GetOrder {
        key: VehicleKey,
    },
    /// Reads the last instantActions message, while its action is pending.
    GetInstant {
        key: VehicleKey,
    },
    /// Takes stock: at each of these stations the counted load, or none. All stations of the rows were counted.
    Stocktake {
        reference: Name,
        rows: Sequence<(Name, Option<Name>)>,
    },
    /// Reads the place of a load, and its live job.
    GetLoad {
        load: Name,
    },
    /// Reads a job, ended or not, and which vehicle carries it out.
    GetJob {
        job: Name,
    },
    /// Reads a vehicle: where it stands, its order and its readiness.
    GetVehicle {
        key: VehicleKey,
    },
    /// Reads a report.
    Report(Report),
}

impl Call {
    /// Returns the report that the call asks for, if any.
    pub fn report(&self) -> Option<Report>
        ensures is { result ≡ report_asked self.now }
        ensures call { IfSome result (λ report. self.now ≡ call.Report report) }
    {
        match self {
            Call::Report(report) => Some(*report),
            _ => None,
        }
    }

    /// Proves that a call is well typed: the names that it introduces are names, and the number of a state is in its
    /// range, since the parts of a call are of their types. It changes nothing; proofs call it for its clause.
    pub fn typing_law(&self)
        ensures { IsWellTyped self.now }
    {
        match self {
            Call::SetLayout { rows } => names_law(rows.as_slice()),
            Call::RegisterVehicle { key, .. } => key_law(key),
            Call::RegisterLoad { load, .. } => name_law(load),
            Call::CorrectLoad { reference, .. } => name_law(reference),
            Call::LeaveLoad { reference, .. } => name_law(reference),
            Call::AddJob { job, .. } => name_law(job),
            Call::StartOrder { order, .. } => name_law(order),
            Call::StartDrive { order, .. } => name_law(order),
            Call::PlaceVehicle { reference, .. } => name_law(reference),
            Call::Stocktake { reference, .. } => name_law(reference),
            Call::StopJob { .. } => {}
            Call::Advance { .. } => {}
            Call::Cancel { .. } => {}
            Call::Pause { .. } => {}
            Call::Resume { .. } => {}
            Call::Resync { .. } => {}
            Call::State { state, .. } => number_law(state.header_id),
            Call::GetOrder { .. } => {}
            Call::GetInstant { .. } => {}
            Call::GetLoad { .. } => {}
            Call::GetJob { .. } => {}
            Call::GetVehicle { .. } => {}
            Call::Report(_) => {}
        }
    }
}

/// Proves that the names of the rows are names.
fn names_law(rows: &[LayoutRow])
    ensures { AreNamed rows.now }
{
    for row in rows {
        row.name_law();
    }
}

/// Proves that the parts of a vehicle's key are names.
fn key_law(key: &VehicleKey)
    ensures { IsKey key.now }
{
    name_law(&key.manufacturer);
    name_law(&key.serial);
}

// These functions change nothing: proofs call them for their clauses.

/// Proves that a name is one.
fn name_law(name: &Name)
    ensures { IsName name.now }
{
    let _bytes = name.as_bytes();
}

/// Proves that a `u32` is at most 4,294,967,295.
fn number_law(number: u32)
    ensures { number ≤ 4294967295 }
{}
