//! Whether a vehicle is ready, and whether it is paused.
ghost use Rattle.std.specs.Prelude.{◌≡◌, ◌&&◌, false, not, true, IfNone, IfSome, codes, map, option_map};
ghost use Rattle.std.specs.List.{list_any};
ghost use Rattle.std.specs.Str.{bytes_eq};
ghost use Rattle.serde_json.specs.View.{view};
ghost use Rattle.agv_header.specs.Each.{each};
ghost use Rattle.agv_message_json.specs.Members.{text_at};
ghost use Rattle.agv_message_json.specs.Parts.{IsCondition};
ghost use Rattle.agv_message_json.specs.State.{has_condition, is_automatic, is_fatal, levels_at, stop_at};

use crate::members::{items, member, text, truth};
use serde_json::Value;

/// The condition of the vehicle that a state reports.
#[derive(Clone, Copy)]
pub struct Condition {
    pub ready: bool,
    pub paused: bool,
}

impl Condition {
    /// Reads the condition that a state reports, or returns `None` if a member for it is missing or of the wrong
    /// kind.
    #[tactic(auto, unfolding(crate::specs::State::has_condition))]
    pub fn of(state: &Value) -> Option<Condition>
        ensures missing { IfNone result (has_condition (view state.now) ≡ false) }
        ensures present { IfSome result (λ _. has_condition (view state.now) ≡ true) }
        ensures read { IfSome result (IsCondition (view state.now)) }
    {
        let Some(mode) = text(state, "operatingMode") else {
            return None;
        };
        let Some(stop) = stop(state) else {
            return None;
        };
        let Some(fatal) = has_fatal(state) else {
            return None;
        };
        let Some(paused) = truth(state, "paused") else {
            return None;
        };
        Some(Condition {
            ready: is_ready(mode, stop, fatal),
            paused,
        })
    }
}

/// Returns the emergency stop that the state reports, if its members are there.
#[tactic(auto, unfolding(crate::specs::State::stop_at))]
fn stop(state: &Value) -> Option<&str>
    ensures { option_map (λ stop. stop.now) result ≡ stop_at (view state.now) }
{
    text(member(state, "safetyState")?, "eStop")
}

/// Returns whether the state reports a fatal error; `None` if the errors can't be read.
#[tactic(auto, unfolding(crate::specs::State::levels_at))]
fn has_fatal(state: &Value) -> Option<bool>
    ensures { result ≡ option_map (list_any is_fatal) (levels_at (view state.now)) }
{
    match items(state, "errors") {
        Some(errors) => some_is_fatal(errors),
        None => None,
    }
}

/// Returns whether one of the errors is fatal; `None` if a level is missing or of the wrong kind.
fn some_is_fatal(errors: &[Value]) -> Option<bool>
    ensures { result
        ≡ option_map (list_any is_fatal) (each (text_at (codes "errorLevel")) (map view errors.now)) }
{
    let mut fatal = false;
    for error in errors {
        let level = text(error, "errorLevel")?;
        fatal = fatal || is_fatal(level);
    }
    Some(fatal)
}

/// Returns whether an error of this level is fatal.
fn is_fatal(level: &str) -> bool
    ensures { result ≡ is_fatal level.now }
{
    level == "FATAL"
}

/// Returns whether the vehicle is in an automatic mode, with no emergency stop and no fatal error.
fn is_ready(mode: &str, stop: &str, fatal: bool) -> bool
    ensures { result ≡ is_automatic mode.now && bytes_eq stop.now (codes "NONE") && not fatal }
{
    is_automatic(mode) && stop == "NONE" && !fatal
}

/// Returns whether the mode is one in which the desk is in control.
fn is_automatic(mode: &str) -> bool
    ensures { result ≡ is_automatic mode.now }
{
    mode == "AUTOMATIC" || mode == "SEMIAUTOMATIC"
}
