//! How a run of the program ends.
ghost use Rattle.std.specs.Prelude.{◌≡◌};
ghost use Rattle.agv_app_run.specs.Runs.{end_by, end_of, fault_line, opening_fault};

use agv_face::{Ended, Served, StreamFault};
use agv_header::Refusal;
use agv_store_read::OpenFault;

/// Why a run failed, as the program prints it.
#[derive(Clone, Copy, Debug, PartialEq, Eq)]
pub enum RunFault {
    /// The file's tables or rows aren't those of a lawful desk, or the tables that are to be made can't be made in it.
    Damaged,
    /// Out of memory.
    Memory,
    /// A fault of the store: the file can't be opened, read or written.
    Storage,
    /// Standard input can't be read.
    Read,
    /// Standard output can't be written.
    Write,
    /// The port can't be listened on, or a connection can't be accepted.
    Net,
    /// The clock is not between 1970 and 2099.
    Clock,
}

impl RunFault {
    ghost use Rattle.std.specs.Prelude.{◌≡◌};
    ghost use Rattle.agv_app_run.specs.Runs.{fault_line};

    /// Returns the line that is printed for it, with its line end: `fault: ` and its name.
    pub fn line(self) -> &'static str
        ensures { result.now ≡ fault_line self }
    {
        match self {
            RunFault::Damaged => "fault: Damaged\n",
            RunFault::Memory => "fault: Memory\n",
            RunFault::Storage => "fault: Storage\n",
            RunFault::Read => "fault: Read\n",
            RunFault::Write => "fault: Write\n",
            RunFault::Net => "fault: Net\n",
            RunFault::Clock => "fault: Clock\n",
        }
    }
}

impl From<OpenFault> for RunFault {
    ghost use Rattle.agv_app_run.specs.Runs.{opening_fault};

    ghost from_gives = { λ why fault. fault ≡ opening_fault why };

    fn from(why: OpenFault) -> RunFault {
        match why {
            OpenFault::Damaged => RunFault::Damaged,
            OpenFault::Memory => RunFault::Memory,
            OpenFault::Storage => RunFault::Storage,
        }
    }
}

/// Why no connection was served.
#[derive(Clone, Copy, Debug, PartialEq, Eq)]
pub enum NextFault {
    /// No connection can be accepted.
    Net,
    /// The clock is not between 1970 and 2099.
    Clock,
}

impl From<NextFault> for RunFault {
    ghost use Rattle.agv_app_run.specs.Runs.{next_fault};

    ghost from_gives = { λ why fault. fault ≡ next_fault why };

    fn from(why: NextFault) -> RunFault {
        match why {
            NextFault::Net => RunFault::Net,
            NextFault::Clock => RunFault::Clock,
        }
    }
}

/// Returns how a run ends after this end of its stream: with a fault if a read or a write failed or the last answer was
/// the refusal for a fault of the machine, and otherwise with success.
pub fn end_of(ended: Result<Served, StreamFault>) -> Result<(), RunFault>
    ensures { result ≡ end_of ended }
{
    match ended {
        Ok(served) => end_by(served.ended),
        Err(StreamFault::Read { .. }) => Err(RunFault::Read),
        Err(StreamFault::Write { .. }) => Err(RunFault::Write),
    }
}

/// Returns how a run ends whose stream was served to this end.
fn end_by(ended: Ended) -> Result<(), RunFault>
    ensures { result ≡ end_by ended }
{
    match ended {
        Ended::Refused(Refusal::Memory) => Err(RunFault::Memory),
        Ended::Refused(Refusal::Storage) => Err(RunFault::Storage),
        _ => Ok(()),
    }
}
