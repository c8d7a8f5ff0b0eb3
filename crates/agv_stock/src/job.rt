//! Jobs: each carries a load from one station to another.
ghost use Rattle.std.specs.Prelude.{◌≡◌};

use agv_header::Name;

/// A job to carry a load. Its name is used only once.
#[derive(Clone, Copy, Debug, PartialEq, Eq)]
pub struct Job {
    pub name: Name,
    /// The load that is carried.
    pub load: Name,
    /// The station where the load is picked.
    pub origin: Name,
    /// The station where the load is dropped.
    pub target: Name,
    /// The phase that the job is in.
    pub phase: Phase,
}

/// The phase of a job. It begins as Waiting, and Done and Stopped are final.
#[derive(Clone, Copy, Debug, PartialEq, Eq)]
pub enum Phase {
    /// No vehicle has an order for it yet.
    Waiting,
    /// An open order of a vehicle has it.
    Riding,
    /// The load was dropped at the target.
    Done,
    /// It was stopped by a call, or its order ended before the load was dropped.
    Stopped,
}

impl Phase {
    ghost use Rattle.agv_stock.specs.Phase.{is_live, phase_name};

    /// Returns whether a job in this phase is still to be carried out: it is Waiting or Riding.
    pub fn is_live(self) -> bool
        ensures { result ≡ is_live self }
    {
        match self {
            Phase::Waiting | Phase::Riding => true,
            Phase::Done | Phase::Stopped => false,
        }
    }

    /// Returns the word for the phase: `waiting`, `riding`, `done` or `stopped`.
    pub fn name(self) -> &'static str
        ensures { result.now ≡ phase_name self }
    {
        match self {
            Phase::Waiting => "waiting",
            Phase::Riding => "riding",
            Phase::Done => "done",
            Phase::Stopped => "stopped",
        }
    }
}
