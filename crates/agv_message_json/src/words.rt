//! Writing bytes, and the smallest JSON values. Nothing here takes memory if the text fits.
ghost use Rattle.std.specs.Prelude.{◌++◌, decimal};
ghost use Rattle.std.specs.List.{flat_map};
ghost use Rattle.serde_json.specs.Written.{compact_text};
ghost use Rattle.agv_message_json.specs.Appending.{Appended, word_text};
ghost use Rattle.agv_message_core.specs.Instant.{instant_id, instant_name};
ghost use Rattle.agv_message_json.specs.Json.{text, truth, whole};
ghost use Rattle.agv_message_core.specs.Order.{act_id};
ghost use Rattle.agv_message_json.specs.Readable.{IsReadable};

use agv_header::{Memory, Name};
use agv_message_core::InstantKind;
use itoa::Buffer;

/// Appends bytes.
///
/// Returns `Memory` if an allocation is refused.
pub fn put_bytes(out: &mut Vec<u8>, bytes: &[u8]) -> Result<(), Memory>
    ensures { Appended result out.old out.new bytes.now }
{
    out.extend_from_slice(bytes)?;
    Ok(())
}

/// Appends words, with nothing between them.
///
/// Returns `Memory` if an allocation is refused; some of the text may have been appended then.
pub fn put_words(out: &mut Vec<u8>, words: &[&[u8]]) -> Result<(), Memory>
    ensures { Appended result out.old out.new (flat_map word_text words.now) }
{
    for word in words {
        put_bytes(out, word)?;
    }
    Ok(())
}

/// Appends `before`, and a name between quotes.
///
/// Returns `Memory` if an allocation is refused; some of the text may have been appended then.
pub fn put_name_after(out: &mut Vec<u8>, before: &[u8], name: &Name) -> Result<(), Memory>
    ensures appended { Appended result out.old out.new (before.now ++ compact_text (text name.now)) }
    ensures readable { IsReadable (text name.now) }
{
    put_words(out, &[before, b"\"", name.as_bytes(), b"\""])
}

/// Appends a name between quotes.
///
/// Returns `Memory` if an allocation is refused; some of the text may have been appended then.
pub fn put_name(out: &mut Vec<u8>, name: &Name) -> Result<(), Memory>
    ensures appended { Appended result out.old out.new (compact_text (text name.now)) }
    ensures readable { IsReadable (text name.now) }
{
    put_name_after(out, b"", name)
}

/// Appends the digits of a number.
///
/// Returns `Memory` if an allocation is refused; some of the text may have been appended then.
pub fn put_number(out: &mut Vec<u8>, n: u64) -> Result<(), Memory>
    ensures appended { Appended result out.old out.new (decimal n) }
    ensures readable { IsReadable (whole n) }
{
    put_bytes(out, Buffer::new().format(n).as_bytes())
}

/// Appends `true` or `false`.
///
/// Returns `Memory` if an allocation is refused; some of the text may have been appended then.
pub fn put_truth(out: &mut Vec<u8>, is_so: bool) -> Result<(), Memory>
    ensures { Appended result out.old out.new (compact_text (truth is_so)) }
{
    if is_so {
        put_bytes(out, b"true")
    } else {
        put_bytes(out, b"false")
    }
}

/// Appends the name of an instant action between quotes.
///
/// Returns `Memory` if an allocation is refused; some of the text may have been appended then.
pub fn put_instant_kind(out: &mut Vec<u8>, kind: InstantKind) -> Result<(), Memory>
    ensures { Appended result out.old out.new (compact_text (text (instant_name kind))) }
{
    match kind {
        InstantKind::StartPause => put_bytes(out, b"\"startPause\""),
        InstantKind::StopPause => put_bytes(out, b"\"stopPause\""),
        InstantKind::CancelOrder => put_bytes(out, b"\"cancelOrder\""),
    }
}

/// Appends the id of an instantActions message's action between quotes, as `"instant-1"`.
///
/// Returns `Memory` if an allocation is refused; some of the text may have been appended then.
pub fn put_action_id(out: &mut Vec<u8>, n: u32) -> Result<(), Memory>
    ensures appended { Appended result out.old out.new (compact_text (text (instant_id n))) }
    ensures readable { IsReadable (text (instant_id n)) }
{
    put_words(
        out,
        &[b"\"instant-", Buffer::new().format(n).as_bytes(), b"\""],
    )
}

/// Appends the id of an order's action between quotes, as `"O1.2"`.
pub fn put_act_id(out: &mut Vec<u8>, order: &Name, n: u32) -> Result<(), Memory>
    ensures appended { Appended result out.old out.new (compact_text (text (act_id order.now n))) }
    ensures readable { IsReadable (text (act_id order.now n)) }
{
    put_words(
        out,
        &[
            b"\"",
            order.as_bytes(),
            b".",
            Buffer::new().format(n).as_bytes(),
            b"\"",
        ],
    )
}
