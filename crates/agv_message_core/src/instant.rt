//! Instant actions, which a vehicle carries out at once.
ghost use Rattle.std.specs.Prelude.{◌≡◌};

/// An instantActions message (VDA 5050 2.0, instantActions) with one action.
#[derive(Clone, Copy, Debug, PartialEq, Eq)]
pub struct InstantMessage {
    pub kind: InstantKind,
}

/// The action that the vehicle is to carry out at once.
#[derive(Clone, Copy, Debug, PartialEq, Eq)]
pub enum InstantKind {
    StartPause,
    StopPause,
    CancelOrder,
}

impl InstantKind {
    ghost use Rattle.agv_message_core.specs.Instant.{instant_name};

    /// Returns its name in VDA 5050: `startPause`, `stopPause` or `cancelOrder`.
    pub fn name(self) -> &'static str
        ensures { result.now ≡ instant_name self }
    {
        match self {
            InstantKind::StartPause => "startPause",
            InstantKind::StopPause => "stopPause",
            InstantKind::CancelOrder => "cancelOrder",
        }
    }
}
