//! The report of holds.
ghost use Rattle.std.specs.Prelude.{◌≡◌, ◌++◌, IfOk, OnOk, string_bytes};
ghost use Rattle.agv_count.specs.Reports.{hold_line, hold_text, thing_text};

use agv_header::{Memory, Thing, VehicleKey};
use std::alloc::Global;

/// Reports the holds: a line for each node or edge that is held, with its vehicle, in the order given, and how many
/// of all nodes and edges are held. The desk gives the nodes first, then the edges, each by name.
///
/// Returns `Memory` only when out of memory.
pub fn hold_report(
    alloc: Global,
    holds: &[(Thing, VehicleKey)],
    things: u32,
) -> Result<Vec<u8>, Memory>
    ensures { IfOk result (λ report. report.items ≡ hold_text holds.now things) }
{
    let mut out = String::new(alloc);
    for (thing, key) in holds {
        write_hold(&mut out, *thing, *key)?;
    }
    writeln!(out, "held {} of {things}", holds.len())?;
    Ok(out.into_bytes())
}

/// Writes the line of a hold.
fn write_hold(out: &mut String, thing: Thing, key: VehicleKey) -> Result<(), Memory>
    ensures { OnOk result (string_bytes out.new ≡ string_bytes out.old ++ hold_line (thing, key)) }
{
    write_thing(out, thing)?;
    writeln!(out, " {}/{}", key.manufacturer, key.serial)?;
    Ok(())
}

/// Writes the kind and the name of a node or edge.
fn write_thing(out: &mut String, thing: Thing) -> Result<(), Memory>
    ensures { OnOk result (string_bytes out.new ≡ string_bytes out.old ++ thing_text thing) }
{
    match thing {
        Thing::Node(id) => write!(out, "node {id}")?,
        Thing::Edge(id) => write!(out, "edge {id}")?,
    }
    Ok(())
}
