//! Answers, and the decision of a call.

use crate::report::Report;
use agv_header::{Name, Refusal, VehicleKey};
use agv_message_core::{Header, InstantMessage, OrderMessage, Sequence};
use agv_stock::Place;
use agv_world_core::{Carrier, Change, JobRow, VehicleRow};

/// The answer to a call.
#[derive(Debug, Drop)]
pub enum Answer {
    /// The call is refused, and nothing has changed.
    Refused(Refusal),
    /// The call is done.
    Done,
    /// The number of the order update that was made.
    Update(u32),
    /// The number of the instantActions message that was made; its action's ID is `instant-` and this number.
    Instructed(u32),
    /// Whether a state is accepted; an old one isn't, and changes nothing.
    Accepted(bool),
    /// There is no such message.
    NoMessage,
    /// An order message.
    Order {
        header: Header,
        order: OrderMessage,
    },
    /// An instantActions message.
    Instant {
        header: Header,
        instant: InstantMessage,
    },
    /// How many loads a stocktake has moved, and the names on its rows, in order, that are of no load or of a load that
    /// has left.
    Counted {
        moved: usize,
        unknown: Sequence<Name>,
    },
    /// The place of a load, and its live job.
    Load {
        load: Name,
        place: Place,
        job: Option<Name>,
    },
    /// A job's row, and the vehicle that carries it out, if it rides.
    Job {
        job: Name,
        row: JobRow,
        carrier: Option<Carrier>,
    },
    /// A vehicle's row, and its open order.
    Vehicle {
        key: VehicleKey,
        row: VehicleRow,
        order: Option<OpenOrder>,
    },
    /// A report with its bytes: empty in the answers of [`decide`](crate::decide), which only name the report; once the
    /// call is served, the bytes are those of the world in which it comes (`served`, `specs/Reports.antt`).
    Report {
        report: Report,
        text: Sequence<u8>,
    },
}

/// The open order of a vehicle: its name, the number of the last update that was sent, and the number of the last
/// update that the vehicle has confirmed.
#[derive(Clone, Copy, Debug, PartialEq, Eq)]
pub struct OpenOrder {
    pub order: Name,
    pub sent: u32,
    pub confirmed: Option<u32>,
}

/// The answer to a call, and the rows that the call changes.
#[derive(Debug, Drop)]
pub struct Decision {
    pub answer: Answer,
    pub changes: Sequence<Change>,
}
