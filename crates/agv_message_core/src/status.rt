//! The statuses of an action.
ghost use Rattle.std.specs.Prelude.{◌≡◌};

/// The status of an action. Waiting comes first; the vehicle may go between the three active ones in
/// any order; Finished and Failed are final.
#[derive(Clone, Copy, Debug, PartialEq, Eq)]
pub enum Status {
    Waiting,
    Initializing,
    Running,
    Paused,
    Finished,
    Failed,
}

impl Status {
    ghost use Rattle.std.specs.Prelude.{Some};
    ghost use Rattle.agv_message_core.specs.Status.{status_name, status_of};

    /// Returns the status with this text, in capitals, or `None` if the text is no status.
    #[tactic(auto, unfolding(crate::specs::Status::status_of))]
    pub fn of(text: &str) -> Option<Status>
        ensures { result ≡ status_of text.now }
    {
        match text {
            "WAITING" => Some(Status::Waiting),
            "INITIALIZING" => Some(Status::Initializing),
            "RUNNING" => Some(Status::Running),
            "PAUSED" => Some(Status::Paused),
            "FINISHED" => Some(Status::Finished),
            "FAILED" => Some(Status::Failed),
            _ => None,
        }
    }
    /// Returns its text, in capitals: `WAITING`, `INITIALIZING`, `RUNNING`, `PAUSED`, `FINISHED` or
    /// `FAILED`. [`Status::of`] reads it back.
    #[tactic(auto, unfolding(crate::specs::Status::status_of))]
    pub fn name(self) -> &'static str
        ensures text { result.now ≡ status_name self }
        ensures reads_back { status_of result.now ≡ Some self }
    {
        match self {
            Status::Waiting => "WAITING",
            Status::Initializing => "INITIALIZING",
            Status::Running => "RUNNING",
            Status::Paused => "PAUSED",
            Status::Finished => "FINISHED",
            Status::Failed => "FAILED",
        }
    }
}
