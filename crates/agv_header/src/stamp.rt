//! Stamps: the texts of moments in messages.
ghost use Rattle.std.specs.Prelude.{◌≡◌, IfOk, ok_or, string_bytes};
ghost use Rattle.agv_header.specs.Stamp.{moment_of_nanos, moment_said, stamp_of};

use crate::{Memory, Moment};
use jiff::Timestamp;
use jiff::fmt::temporal::DateTimePrinter;
use std::alloc::Global;
use thiserror::Error;

/// Why a text is no stamp.
#[derive(Clone, Copy, Debug, PartialEq, Eq, Error)]
pub enum StampFault {
    /// `jiff` reads no timestamp from it, or one before 1970 or after 2099.
    #[error("the text is no timestamp from 1970 to 2099")]
    Bad,
}

/// Reads the moment that a text says, as `jiff` reads a timestamp, rounded down to milliseconds. It
/// takes no memory.
///
/// Returns `Bad` if `jiff` reads no timestamp, or one before 1970 or after 2099.
#[tactic(auto, unfolding(crate::specs::Stamp::moment_said))]
pub fn read_stamp(text: &str) -> Result<Moment, StampFault>
    ensures { result ≡ ok_or (moment_said text.now) StampFault.Bad }
{
    let Ok(stamp) = text.parse::<Timestamp>() else {
        return Err(StampFault::Bad);
    };
    moment_of(stamp).ok_or(StampFault::Bad)
}

/// Returns the moment of a timestamp, rounded down to milliseconds, if it is from 1970 to 2099.
fn moment_of(stamp: Timestamp) -> Option<Moment>
    ensures { result ≡ moment_of_nanos stamp.nanosecond }
{
    // `as_millisecond` rounds toward 1970, so the instants just before it need a test of their own.
    if stamp.as_nanosecond() < 0 {
        return None;
    }
    Moment::of(stamp.as_millisecond())
}

/// Writes a moment, as `1991-03-11T11:40:03.12Z`: its civil date and time in UTC, cut off to
/// hundredths of a second.
pub fn stamp_text(alloc: Global, moment: Moment) -> Result<String, Memory>
    ensures { IfOk result (λ text. string_bytes text ≡ stamp_of moment) }
{
    match Timestamp::from_millisecond(moment.ms()) {
        Ok(stamp) => {
            let text = DateTimePrinter::new()
                .precision(Some(2))
                .timestamp_text(stamp.to_plain());
            Ok(String::from_str(alloc, text.as_str())?)
        }
        Err(_) => unreachable!(),
    }
}
