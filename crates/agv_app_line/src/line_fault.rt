//! Why the arguments give no line, and what is printed then.
ghost use Rattle.std.specs.Prelude.{◌≡◌};
ghost use Rattle.agv_app_line.specs.CommandLine.{refused_status, refused_text, unread_status, unread_text};

use clap::Error;
use std::alloc::AllocError;
use std::{error, fmt};

/// Why words are not accepted, as the text that is printed to standard error.
#[derive(Debug, Drop)]
pub enum LineFault {
    /// The words are wrong, or ask for help; the error is the text.
    Refused(Error),
    /// Out of memory.
    Memory,
}

impl LineFault {
    /// Returns the exit status: 2 if the words are wrong, 1 if out of memory.
    pub fn status(&self) -> u8
        ensures { result ≡ refused_status self.now }
    {
        match self {
            LineFault::Refused(_) => 2,
            LineFault::Memory => 1,
        }
    }
}

impl From<AllocError> for LineFault {
    ghost use Rattle.agv_app_line.specs.declared.line_fault.LineFault.TheVariants as LineFault;

    ghost from_gives = { λ _ fault. fault ≡ LineFault.Memory };

    fn from(_: AllocError) -> LineFault {
        LineFault::Memory
    }
}

impl fmt::Display for LineFault {
    ghost output = { refused_text };

    fn fmt<W: fmt::Write>(&self, f: &mut fmt::Formatter<W>) -> fmt::Result {
        match self {
            LineFault::Refused(error) => write!(f, "{error}"),
            LineFault::Memory => write!(f, "fault: Memory\n"),
        }
    }
}

impl error::Error for LineFault {}

/// Why the arguments of the program can't be read, as the text that is printed to standard error.
#[derive(Clone, Copy, Debug, PartialEq, Eq)]
pub enum WordsFault {
    /// An argument is not UTF-8.
    NotText,
    /// Out of memory.
    Memory,
}

impl WordsFault {
    /// Returns the exit status: 2 if an argument is not UTF-8, 1 if out of memory.
    pub fn status(&self) -> u8
        ensures { result ≡ unread_status self.now }
    {
        match self {
            WordsFault::NotText => 2,
            WordsFault::Memory => 1,
        }
    }
}

impl From<AllocError> for WordsFault {
    ghost use Rattle.agv_app_line.specs.declared.line_fault.WordsFault.TheVariants as WordsFault;

    ghost from_gives = { λ _ fault. fault ≡ WordsFault.Memory };

    fn from(_: AllocError) -> WordsFault {
        WordsFault::Memory
    }
}

impl fmt::Display for WordsFault {
    ghost output = { unread_text };

    fn fmt<W: fmt::Write>(&self, f: &mut fmt::Formatter<W>) -> fmt::Result {
        match self {
            WordsFault::NotText => write!(f, "error: an argument is not UTF-8\n"),
            WordsFault::Memory => write!(f, "fault: Memory\n"),
        }
    }
}

impl error::Error for WordsFault {}
