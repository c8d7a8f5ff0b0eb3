//! Appending the smallest values of this crate. Nothing here allocates if the text fits.
ghost use Rattle.std.specs.Prelude.{[], ◌∷◌, ◌++◌, map};
ghost use Rattle.json.specs.Print.{escape};
ghost use Rattle.serde_json.specs.Written.{compact_text};
ghost use Rattle.agv_count.specs.Reports.{key_text, thing_text};
ghost use Rattle.agv_message_json.specs.Appending.{Appended};
ghost use Rattle.agv_stock.specs.Phase.{phase_name};
ghost use Rattle.agv_message_json.specs.Json.{list, text};
ghost use Rattle.agv_face_http.specs.answers.Bodies.{place_words};
ghost use Rattle.agv_face_http.specs.answers.Pieces.{more_names};

use agv_header::{Memory, Name, Thing, VehicleKey};
use agv_message_json::{put_bytes, put_name_after, put_words};
use agv_stock::{Phase, Place};

/// Appends `"KIT/0001"`.
pub fn put_key(out: &mut Vec<u8>, key: &VehicleKey) -> Result<(), Memory>
    ensures { Appended result out.old out.new (compact_text (text (key_text key.now))) }
{
    put_key_after(out, b"", key)
}

/// Appends the place of a load, between quotes.
pub fn put_place(out: &mut Vec<u8>, place: &Place) -> Result<(), Memory>
    ensures { Appended result out.old out.new (compact_text (text (place_words place.now))) }
{
    match place {
        Place::Station(id) => put_words(out, &[b"\"station ", id.as_bytes(), b"\""]),
        Place::Vehicle(key) => put_key_after(out, b"vehicle ", key),
        Place::Checking => put_bytes(out, b"\"checking\""),
        Place::Left => put_bytes(out, b"\"left\""),
    }
}

/// Appends `"KIT/0001"`, with `before` in front of the vehicle.
fn put_key_after(out: &mut Vec<u8>, before: &[u8], key: &VehicleKey) -> Result<(), Memory>
    ensures { Appended result out.old out.new (34 ∷ (before.now ++ (escape (key_text key.now) ++ 34 ∷ []))) }
{
    put_words(
        out,
        &[
            b"\"",
            before,
            key.manufacturer.as_bytes(),
            b"/",
            key.serial.as_bytes(),
            b"\"",
        ],
    )
}

/// Appends the word for a phase between quotes, as `"riding"`.
pub fn put_phase(out: &mut Vec<u8>, phase: Phase) -> Result<(), Memory>
    ensures { Appended result out.old out.new (compact_text (text (phase_name phase))) }
{
    match phase {
        Phase::Waiting => put_bytes(out, b"\"waiting\""),
        Phase::Riding => put_bytes(out, b"\"riding\""),
        Phase::Done => put_bytes(out, b"\"done\""),
        Phase::Stopped => put_bytes(out, b"\"stopped\""),
    }
}

/// Appends `"node N2"` or `"edge E12"`.
pub fn put_thing(out: &mut Vec<u8>, thing: &Thing) -> Result<(), Memory>
    ensures { Appended result out.old out.new (compact_text (text (thing_text thing.now))) }
{
    match thing {
        Thing::Node(id) => put_words(out, &[b"\"node ", id.as_bytes(), b"\""]),
        Thing::Edge(id) => put_words(out, &[b"\"edge ", id.as_bytes(), b"\""]),
    }
}

/// Appends an array of names.
pub fn put_names(out: &mut Vec<u8>, names: &[Name]) -> Result<(), Memory>
    ensures { Appended result out.old out.new (compact_text (list (map text names.now))) }
{
    match names.split_first() {
        None => put_bytes(out, b"[]"),
        Some((first, more)) => {
            put_name_after(out, b"[", first)?;
            put_more_names(out, more)?;
            put_bytes(out, b"]")
        }
    }
}

/// Appends names between quotes, each after a comma.
fn put_more_names(out: &mut Vec<u8>, names: &[Name]) -> Result<(), Memory>
    ensures { Appended result out.old out.new (more_names names.now) }
{
    for name in names {
        put_name_after(out, b",", name)?;
    }
    Ok(())
}
