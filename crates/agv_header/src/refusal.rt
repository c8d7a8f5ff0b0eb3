//! Every refusal of the desk, in one table.
ghost use Rattle.std.specs.Prelude.{◌≡◌};

use crate::{Thing, VehicleKey};
use std::error::Error;
use std::fmt;

/// A method of HTTP that the desk serves.
#[derive(Clone, Copy, Debug, PartialEq, Eq)]
pub enum Verb {
    Get,
    Post,
    Put,
    Delete,
}

impl Verb {
    ghost use Rattle.agv_header.specs.Refusal.{verb_text};

    /// Returns its name, as HTTP writes it. Its case counts.
    pub fn name(self) -> &'static str
        ensures { result.now ≡ verb_text self }
    {
        match self {
            Verb::Get => "GET",
            Verb::Post => "POST",
            Verb::Put => "PUT",
            Verb::Delete => "DELETE",
        }
    }
}

/// Why the desk refuses a request. The numbers never change.
#[derive(Clone, Copy, Debug, PartialEq, Eq)]
pub enum Refusal {
    // The HTTP request; each of the first four ends the stream.
    /// The head of the request can't be read.
    BadHead,
    /// A PUT or POST without Content-Length.
    NoLength,
    /// A body of more than 65,536 bytes.
    TooLarge,
    /// A body with a transfer coding.
    Coding,
    /// No such path.
    NoPath,
    /// The path has only the method `allow`.
    BadMethod { allow: Verb },

    // The body.
    /// The body is no JSON text.
    BadJson,
    /// A number has a fraction or an exponent, or is beyond 64 bits.
    Fraction,
    /// A state with a position, a velocity or a trajectory.
    Position,
    /// A member is missing or of the wrong kind.
    BadBody,
    /// The body isn't the CSV table that the call takes.
    BadCsv,
    /// The message's major version isn't 2.
    Version,
    /// The timestamp can't be read, or is not from 1970 to 2099.
    BadTimestamp,
    /// The message is of another vehicle than the path names.
    WrongVehicle,

    // Something is unknown.
    NoVehicle,
    NoNode,
    NoStation,
    NoLoad,
    NoJob,

    // Commands.
    /// The vehicle has no such open order.
    NoOrder,
    /// The name is taken.
    Exists,
    /// The layout is set already.
    LayoutSet,
    /// The rows are not a valid layout.
    LayoutBad,
    /// The vehicle `by` holds the node or edge `what`.
    Held { what: Thing, by: VehicleKey },
    /// The station has no room.
    Full,
    /// The load has a live job.
    InJob,
    /// The load is elsewhere.
    Elsewhere,
    /// The load is at that station already.
    SameStation,
    /// The vehicle has an open order.
    Busy,
    /// The vehicle stands between two nodes.
    Astray,
    /// The loads on the vehicle and the order's jobs are more than its capacity.
    Loaded,
    /// The vehicle isn't ready.
    NotReady,
    /// An instant action is pending.
    InstantPending,
    /// The vehicle hasn't confirmed the last update.
    NotConfirmed,
    /// The update isn't the one after `sent`, the last.
    WrongUpdate { sent: u32 },
    /// The order ends before that.
    Beyond,
    /// No walk leads there.
    NoWalk,
    /// The route has more than 200 edges.
    TooLong,
    /// The topic's numbers are used up.
    Spent,
    /// The reference is used.
    RefUsed,
    /// The job's phase doesn't allow it.
    JobState,
    /// A limit of the desk is reached.
    Limit,
    /// The vehicle reports an order of this name.
    OrderKnown,
    /// No stops, or a job without exactly one pick and, after it, one drop.
    BadStops,

    // Reported states.
    /// The state is of another order.
    OtherOrder,
    /// An update that was never sent.
    UpdateNotSent,
    /// An update before the confirmed one.
    UpdateBackwards,
    /// A node that isn't the route's.
    NotOurNode,
    /// A node before the one last seen.
    Backwards,
    /// A node past the released part.
    BeyondBase,
    /// An action that is listed twice.
    ActionTwice,
    /// A status that can't follow the last one.
    ActionBackwards,
    /// An action that is finished before its node.
    ActionEarly,
    /// A drop that is finished before its pick.
    DropFirst,
    /// A cancel that is finished while an action runs.
    CancelEarly,
    /// The vehicle isn't where the desk has it.
    NotThere,

    // Stocktakes.
    /// A load that is counted twice.
    CountTwice,
    /// A counted load that is on a vehicle.
    OnVehicle,

    // The machine; each ends the stream.
    /// Out of memory.
    Memory,
    /// A fault of the store.
    Storage,
}

impl Refusal {
    ghost use Rattle.agv_header.specs.Refusal.{row, row_of, number_of, name_of, status_of};

    /// Returns its number, from 1 to 91, which the answer's body has as `refusal`.
    pub fn number(&self) -> u8
        ensures { result ≡ number_of self.now }
    {
        self.row().0
    }

    /// Returns its name, which the answer's body has as `name`: the name of the variant.
    pub fn name(&self) -> &'static str
        ensures { result.now ≡ name_of self.now }
    {
        self.row().1
    }

    /// Returns the HTTP status of the answer, from 400 to 503.
    pub fn status(&self) -> u16
        ensures { result ≡ status_of self.now }
    {
        self.row().2
    }

    /// Returns its number, its name and its HTTP status.
    fn row(&self) -> (u8, &'static str, u16)
        ensures { row result.0 result.1.now result.2 ≡ row_of self.now }
    {
        match self {
            Refusal::BadHead => (1, "BadHead", 400),
            Refusal::NoLength => (2, "NoLength", 411),
            Refusal::TooLarge => (3, "TooLarge", 413),
            Refusal::Coding => (4, "Coding", 501),
            Refusal::NoPath => (5, "NoPath", 404),
            Refusal::BadMethod { .. } => (6, "BadMethod", 405),
            Refusal::BadJson => (7, "BadJson", 400),
            Refusal::Fraction => (8, "Fraction", 422),
            Refusal::Position => (9, "Position", 422),
            Refusal::BadBody => (10, "BadBody", 400),
            Refusal::BadCsv => (11, "BadCsv", 400),
            Refusal::Version => (12, "Version", 422),
            Refusal::BadTimestamp => (13, "BadTimestamp", 422),
            Refusal::WrongVehicle => (14, "WrongVehicle", 422),
            Refusal::NoVehicle => (20, "NoVehicle", 404),
            Refusal::NoNode => (21, "NoNode", 404),
            Refusal::NoStation => (22, "NoStation", 404),
            Refusal::NoLoad => (23, "NoLoad", 404),
            Refusal::NoJob => (24, "NoJob", 404),
            Refusal::NoOrder => (25, "NoOrder", 409),
            Refusal::Exists => (30, "Exists", 409),
            Refusal::LayoutSet => (31, "LayoutSet", 409),
            Refusal::LayoutBad => (32, "LayoutBad", 409),
            Refusal::Held { .. } => (33, "Held", 409),
            Refusal::Full => (34, "Full", 409),
            Refusal::InJob => (35, "InJob", 409),
            Refusal::Elsewhere => (36, "Elsewhere", 409),
            Refusal::SameStation => (37, "SameStation", 409),
            Refusal::Busy => (38, "Busy", 409),
            Refusal::Astray => (39, "Astray", 409),
            Refusal::Loaded => (40, "Loaded", 409),
            Refusal::NotReady => (41, "NotReady", 409),
            Refusal::InstantPending => (42, "InstantPending", 409),
            Refusal::NotConfirmed => (43, "NotConfirmed", 409),
            Refusal::WrongUpdate { .. } => (44, "WrongUpdate", 409),
            Refusal::Beyond => (45, "Beyond", 409),
            Refusal::NoWalk => (46, "NoWalk", 409),
            Refusal::TooLong => (47, "TooLong", 409),
            Refusal::Spent => (48, "Spent", 409),
            Refusal::RefUsed => (49, "RefUsed", 409),
            Refusal::JobState => (50, "JobState", 409),
            Refusal::Limit => (51, "Limit", 409),
            Refusal::OrderKnown => (52, "OrderKnown", 409),
            Refusal::BadStops => (53, "BadStops", 409),
            Refusal::OtherOrder => (60, "OtherOrder", 409),
            Refusal::UpdateNotSent => (61, "UpdateNotSent", 409),
            Refusal::UpdateBackwards => (62, "UpdateBackwards", 409),
            Refusal::NotOurNode => (63, "NotOurNode", 409),
            Refusal::Backwards => (64, "Backwards", 409),
            Refusal::BeyondBase => (65, "BeyondBase", 409),
            Refusal::ActionTwice => (66, "ActionTwice", 409),
            Refusal::ActionBackwards => (67, "ActionBackwards", 409),
            Refusal::ActionEarly => (68, "ActionEarly", 409),
            Refusal::DropFirst => (69, "DropFirst", 409),
            Refusal::CancelEarly => (70, "CancelEarly", 409),
            Refusal::NotThere => (71, "NotThere", 409),
            Refusal::CountTwice => (80, "CountTwice", 409),
            Refusal::OnVehicle => (81, "OnVehicle", 409),
            Refusal::Memory => (90, "Memory", 503),
            Refusal::Storage => (91, "Storage", 503),
        }
    }
}

impl fmt::Display for Refusal {
    ghost use Rattle.std.specs.Prelude.{Some};
    ghost use Rattle.agv_header.specs.Refusal.{name_of};

    ghost output = { λ refusal. Some (name_of refusal) };

    fn fmt<W: fmt::Write>(&self, f: &mut fmt::Formatter<W>) -> fmt::Result {
        f.write_str(self.name())
    }
}

impl Error for Refusal {}
