//! What the faults of queries and writes set.
ghost use Rattle.std.specs.Prelude.{◌≡◌};
ghost use Rattle.agv_world_core.specs.Asks.{failed_by};
ghost use Rattle.agv_store_floor.specs.Flags.{doubted_by, noted};

use agv_store_read::OpenFault;
use agv_world_core::Fault;

/// Converts the result of a query to that of a floor, and sets the flags that its fault sets. Tables that encode no
/// world are a fault of the store.
pub(crate) fn note<T>(
    failed: &mut bool,
    in_doubt: &mut bool,
    asked: Result<T, OpenFault>,
) -> Result<T, Fault>
    ensures is { result ≡ noted asked }
    ensures failed { failed.new ≡ failed_by (noted asked) failed.old }
    ensures in_doubt { in_doubt.new ≡ doubted_by (noted asked) in_doubt.old }
{
    let ended = match asked {
        Ok(answer) => Ok(answer),
        Err(OpenFault::Memory) => Err(Fault::Memory),
        Err(OpenFault::Storage) | Err(OpenFault::Damaged) => Err(Fault::Storage),
    };
    raise(failed, in_doubt, ended)
}

/// Sets the flags for a result: a fault of the store is noted, and so is that memory ran out, which may have closed the
/// store.
pub fn raise<T>(failed: &mut bool, in_doubt: &mut bool, ended: Result<T, Fault>) -> Result<T, Fault>
    ensures is { result ≡ ended }
    ensures failed { failed.new ≡ failed_by ended failed.old }
    ensures in_doubt { in_doubt.new ≡ doubted_by ended in_doubt.old }
{
    match ended {
        Ok(answer) => Ok(answer),
        Err(Fault::Memory) => {
            *in_doubt = true;
            Err(Fault::Memory)
        }
        Err(Fault::Storage) => {
            *failed = true;
            Err(Fault::Storage)
        }
    }
}
