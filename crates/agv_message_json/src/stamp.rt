//! Writing stamps: the texts of moments in messages.
ghost use Rattle.serde_json.specs.Written.{compact_text};
ghost use Rattle.agv_header.specs.Stamp.{stamp_of};
ghost use Rattle.agv_message_json.specs.Json.{text};
ghost use Rattle.agv_message_json.specs.Readable.{IsReadable};
ghost use Rattle.agv_message_json.specs.Appending.{Appended};

use crate::words::put_words;
use agv_header::{Memory, Moment};
use jiff::Timestamp;
use jiff::fmt::temporal::DateTimePrinter;

/// Appends a moment, as `"1991-03-11T11:40:03.12Z"`: its civil date and time in UTC, cut off to hundredths of a second.
pub fn put_stamp(out: &mut Vec<u8>, at: Moment) -> Result<(), Memory>
    ensures appended { Appended result out.old out.new (compact_text (text (stamp_of at))) }
    ensures readable { IsReadable (text (stamp_of at)) }
{
    match Timestamp::from_millisecond(at.ms()) {
        Ok(stamp) => {
            let text = DateTimePrinter::new()
                .precision(Some(2))
                .timestamp_text(stamp.to_plain());
            put_words(out, &[b"\"", text.as_str().as_bytes(), b"\""])
        }
        Err(_) => unreachable!(),
    }
}
