//! The words in the columns for kinds, phases and uses.
ghost use Rattle.std.specs.Prelude.{◌≡◌};
ghost use Rattle.agv_store_rows.specs.ValueEncodings.{use_name};

use agv_world_core::UseKind;

/// The kind of a load's place, without its name.
#[derive(Clone, Copy, Debug)]
pub enum PlaceKind {
    Station,
    Vehicle,
    Checking,
    Left,
}

/// The kind of a held thing, without its name.
#[derive(Clone, Copy, Debug)]
pub enum ThingKind {
    Node,
    Edge,
}

/// Returns the word for what a name was used for.
pub(crate) fn use_text(kind: UseKind) -> &'static str
    ensures { result.now ≡ use_name kind }
{
    match kind {
        UseKind::Order => "order",
        UseKind::Reference => "ref",
    }
}
