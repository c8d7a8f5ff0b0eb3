//! Decoding the value in a column of a row.
ghost use Rattle.std.specs.Prelude.{◌≡◌};
ghost use Rattle.sqlite_value.specs.Value.{owned};
ghost use Rattle.sqlite_value.specs.Order.{column};
ghost use Rattle.agv_store_rows.specs.ValueEncodings.{act_kind_in, name_in, number_in, flag_in, moment_in, is_absent, maybe_in, phase_in, status_in, instant_in, use_in, place_kind_in, thing_kind_in};

use crate::words::{PlaceKind, ThingKind};
use agv_header::{Moment, Name};
use agv_message_core::{ActKind, InstantKind, Status};
use agv_stock::Phase;
use agv_world_core::UseKind;
use sqlite::Row;
use sqlite::types::ValueRef;

/// Returns the value in a column; NULL past the last one.
pub fn value_at(row: &Row, at: usize) -> ValueRef<'_>
    ensures { owned result ≡ column row.now at }
{
    match row.get_ref(at) {
        Ok(value) => value,
        Err(_) => ValueRef::Null,
    }
}

/// Decodes the name in a column.
pub fn name_at(row: &Row, at: usize) -> Option<Name>
    ensures { result ≡ name_in (column row.now at) }
{
    match value_at(row, at) {
        ValueRef::Text(bytes) => Name::of_bytes(bytes),
        _ => None,
    }
}

/// Decodes the number in a column.
pub fn number_at(row: &Row, at: usize) -> Option<u32>
    ensures { result ≡ number_in (column row.now at) }
{
    match value_at(row, at) {
        ValueRef::Int(n) => u32::try_from(n).ok(),
        _ => None,
    }
}

/// Decodes the truth value in a column.
pub(crate) fn flag_at(row: &Row, at: usize) -> Option<bool>
    ensures { result ≡ flag_in (column row.now at) }
{
    match value_at(row, at) {
        ValueRef::Int(n) => {
            if n == 0 {
                Some(false)
            } else if n == 1 {
                Some(true)
            } else {
                None
            }
        }
        _ => None,
    }
}

/// Decodes the time in a column.
pub(crate) fn moment_at(row: &Row, at: usize) -> Option<Moment>
    ensures { result ≡ moment_in (column row.now at) }
{
    match value_at(row, at) {
        ValueRef::Int(ms) => Moment::of(ms),
        _ => None,
    }
}

/// Decodes the phase in a column.
#[tactic(auto, unfolding(crate::specs::ValueEncodings::phase_in))]
pub(crate) fn phase_at(row: &Row, at: usize) -> Option<Phase>
    ensures { result ≡ phase_in (column row.now at) }
{
    let ValueRef::Text(text) = value_at(row, at) else {
        return None;
    };
    if text == b"waiting".as_slice() {
        Some(Phase::Waiting)
    } else if text == b"riding".as_slice() {
        Some(Phase::Riding)
    } else if text == b"done".as_slice() {
        Some(Phase::Done)
    } else if text == b"stopped".as_slice() {
        Some(Phase::Stopped)
    } else {
        None
    }
}

/// Decodes the status in a column.
#[tactic(auto, unfolding(crate::specs::ValueEncodings::status_in))]
pub fn status_at(row: &Row, at: usize) -> Option<Status>
    ensures { result ≡ status_in (column row.now at) }
{
    let ValueRef::Text(text) = value_at(row, at) else {
        return None;
    };
    if text == b"WAITING".as_slice() {
        Some(Status::Waiting)
    } else if text == b"INITIALIZING".as_slice() {
        Some(Status::Initializing)
    } else if text == b"RUNNING".as_slice() {
        Some(Status::Running)
    } else if text == b"PAUSED".as_slice() {
        Some(Status::Paused)
    } else if text == b"FINISHED".as_slice() {
        Some(Status::Finished)
    } else if text == b"FAILED".as_slice() {
        Some(Status::Failed)
    } else {
        None
    }
}

/// Decodes the pending instant action in a column.
#[tactic(auto, unfolding(crate::specs::ValueEncodings::instant_in))]
pub(crate) fn instant_at(row: &Row, at: usize) -> Option<InstantKind>
    ensures { result ≡ instant_in (column row.now at) }
{
    let ValueRef::Text(text) = value_at(row, at) else {
        return None;
    };
    if text == b"startPause".as_slice() {
        Some(InstantKind::StartPause)
    } else if text == b"stopPause".as_slice() {
        Some(InstantKind::StopPause)
    } else if text == b"cancelOrder".as_slice() {
        Some(InstantKind::CancelOrder)
    } else {
        None
    }
}

/// Decodes the kind of an act in a column.
#[tactic(auto, unfolding(crate::specs::ValueEncodings::act_kind_in))]
pub(crate) fn act_kind_at(row: &Row, at: usize) -> Option<ActKind>
    ensures { result ≡ act_kind_in (column row.now at) }
{
    let ValueRef::Text(text) = value_at(row, at) else {
        return None;
    };
    if text == b"pick".as_slice() {
        Some(ActKind::Pick)
    } else if text == b"drop".as_slice() {
        Some(ActKind::Drop)
    } else {
        None
    }
}

/// Decodes the kind of a used name in a column.
#[tactic(auto, unfolding(crate::specs::ValueEncodings::use_in))]
pub(crate) fn use_at(row: &Row, at: usize) -> Option<UseKind>
    ensures { result ≡ use_in (column row.now at) }
{
    let ValueRef::Text(text) = value_at(row, at) else {
        return None;
    };
    if text == b"order".as_slice() {
        Some(UseKind::Order)
    } else if text == b"ref".as_slice() {
        Some(UseKind::Reference)
    } else {
        None
    }
}

/// Decodes the kind of a place in a column.
#[tactic(auto, unfolding(crate::specs::ValueEncodings::place_kind_in))]
pub(crate) fn place_kind_at(row: &Row, at: usize) -> Option<PlaceKind>
    ensures { result ≡ place_kind_in (column row.now at) }
{
    let ValueRef::Text(text) = value_at(row, at) else {
        return None;
    };
    if text == b"station".as_slice() {
        Some(PlaceKind::Station)
    } else if text == b"vehicle".as_slice() {
        Some(PlaceKind::Vehicle)
    } else if text == b"checking".as_slice() {
        Some(PlaceKind::Checking)
    } else if text == b"left".as_slice() {
        Some(PlaceKind::Left)
    } else {
        None
    }
}

/// Decodes the kind of a held thing in a column.
#[tactic(auto, unfolding(crate::specs::ValueEncodings::thing_kind_in))]
pub(crate) fn thing_kind_at(row: &Row, at: usize) -> Option<ThingKind>
    ensures { result ≡ thing_kind_in (column row.now at) }
{
    let ValueRef::Text(text) = value_at(row, at) else {
        return None;
    };
    if text == b"node".as_slice() {
        Some(ThingKind::Node)
    } else if text == b"edge".as_slice() {
        Some(ThingKind::Edge)
    } else {
        None
    }
}

/// Decodes the name in a column that may be NULL.
pub(crate) fn maybe_name_at(row: &Row, at: usize) -> Option<Option<Name>>
    ensures { result ≡ maybe_in name_in (column row.now at) }
{
    if is_null(row, at) {
        return Some(None);
    }
    Some(Some(name_at(row, at)?))
}

/// Decodes the number in a column that may be NULL.
pub fn maybe_number_at(row: &Row, at: usize) -> Option<Option<u32>>
    ensures { result ≡ maybe_in number_in (column row.now at) }
{
    if is_null(row, at) {
        return Some(None);
    }
    Some(Some(number_at(row, at)?))
}

/// Decodes the pending instant action in a column that may be NULL.
pub(crate) fn maybe_instant_at(row: &Row, at: usize) -> Option<Option<InstantKind>>
    ensures { result ≡ maybe_in instant_in (column row.now at) }
{
    if is_null(row, at) {
        return Some(None);
    }
    Some(Some(instant_at(row, at)?))
}

/// Returns whether a column is NULL.
fn is_null(row: &Row, at: usize) -> bool
    ensures { result ≡ is_absent (column row.now at) }
{
    matches!(value_at(row, at), ValueRef::Null)
}
