//! A file in memory.
ghost use Rattle.std.specs.Prelude.{◌≡◌, [], length, true, false, refl, is_ok, is_err, IsTrue, OnOk};
ghost use Rattle.sqlite_disk.specs.Disk.{CountsFault, Cut, Holds, Torn};
ghost use Rattle.sqlite_disk.specs.Refusal.{finds_no_room};

use sqlite_disk::{Disk, Tally, digest_of};
use std::alloc::{AllocError, Global};
use std::io;

/// A file in memory, for a database that lasts for this run only.
///
/// It keeps what was written and no history, so that a sync has nothing to do, and the cost of a write is that of its
/// bytes. A write or an extension for which there is no memory finds no room (`ErrorKind::StorageFull`), like a write to
/// a full disk for a file of the system, and changes nothing; the file stays usable. [`InMemory`](crate::InMemory)
/// answers it as out of memory. Nothing survives the end of the program. The contract of `Disk` about a crash is met for
/// a crash that leaves the memory as it is.
#[derive(Drop)]
pub struct MemoryFile {
    bytes: Vec<u8>,
    faults: u64,
    /// The reads whose bytes did not match their digest.
    mismatches: u64,
    /// The writes and extensions for which there was no memory.
    refused: u64,
}

impl MemoryFile {
    ghost use Rattle.agv_app_files.specs.MemoryFiles.{bytes_of};

    /// Creates an empty file, which takes its memory from this allocator.
    pub fn new(alloc: Global) -> MemoryFile
        ensures { bytes_of result ≡ [] }
    {
        MemoryFile {
            bytes: Vec::new(alloc),
            faults: 0,
            mismatches: 0,
            refused: 0,
        }
    }
}

impl Disk for MemoryFile {
    ghost seen = { λ file. file.bytes.items };

    ghost may_leave = { λ file left. left ≡ file.bytes.items };

    ghost is_usable = { λ _. true };

    ghost faults = { λ file. file.faults };

    ghost is_clean = { λ _. true };

    ghost tally_of = { λ file. record { caught = file.mismatches; refused = file.refused } };

    ghost key_of = { λ _. 0 };

    ghost is_fair = { λ _ _. true };

    ghost fair_if_clean = { λ _ _ _. refl };

    ghost seen_may_stay = { λ _. refl };

    fn mixes(&self) -> bool {
        false
    }

    /// Returns 0: memory returns what was written, so digests need no secret.
    fn key(&self) -> u64 {
        0
    }

    fn tally(&self) -> Tally {
        Tally {
            caught: self.mismatches,
            refused: self.refused,
        }
    }

    fn may_be_used(&self) -> bool {
        true
    }

    fn len(&mut self) -> io::Result<usize> {
        Ok(self.bytes.len())
    }

    fn read_at(&mut self, at: usize, buf: &mut [u8]) -> io::Result<()> {
        if at > self.bytes.len() || buf.len() > self.bytes.len() - at {
            return Err(io::ErrorKind::UnexpectedEof.into());
        }
        buf.copy_from_slice(&self.bytes[at..at + buf.len()]);
        Ok(())
    }

    fn read_checked(&mut self, key: u64, want: u64, at: usize, buf: &mut [u8]) -> io::Result<()> {
        self.read_at(at, buf)?;
        if digest_of(key, buf) != want {
            self.faults = self.faults.saturating_add(1);
            self.mismatches = self.mismatches.saturating_add(1);
            return Err(io::ErrorKind::InvalidData.into());
        }
        Ok(())
    }

    fn write_at(&mut self, at: usize, bytes: &[u8]) -> io::Result<()> {
        let written = put(&mut self.bytes, at, bytes);
        note_fault(written, &mut self.faults, &mut self.refused)
    }

    fn set_len(&mut self, len: usize) -> io::Result<()> {
        let set = resize(&mut self.bytes, len);
        note_fault(set, &mut self.faults, &mut self.refused)
    }

    fn sync(&mut self) -> io::Result<()> {
        Ok(())
    }
}

/// Writes these bytes at an offset, with zeros between the old end and the offset.
fn put(bytes: &mut Vec<u8>, at: usize, new: &[u8]) -> Result<(), AllocError>
    ensures written { OnOk result (Holds bytes.new.items at new.now) }
    ensures others { Torn at (length new.now) bytes.old.items bytes.new.items }
{
    if at == bytes.len() {
        return append(bytes, new);
    }
    let end = at.checked_add(new.len()).ok_or(AllocError)?;
    if end > bytes.len() {
        resize(bytes, end)?;
    }
    bytes[at..end].copy_from_slice(new);
    Ok(())
}

/// Appends these bytes.
fn append(bytes: &mut Vec<u8>, new: &[u8]) -> Result<(), AllocError>
    ensures written { OnOk result (Holds bytes.new.items (length bytes.old.items) new.now) }
    ensures others { Torn (length bytes.old.items) (length new.now) bytes.old.items bytes.new.items }
{
    bytes.extend_from_slice(new)
}

/// Sets the length, with zeros after the old end.
fn resize(bytes: &mut Vec<u8>, len: usize) -> Result<(), AllocError>
    ensures len { OnOk result (length bytes.new.items ≡ len) }
    ensures others { Cut len bytes.old.items bytes.new.items }
{
    bytes.resize(len, 0)
}

/// Returns running out of memory as a file's finding no room, and counts it.
fn note_fault(
    outcome: Result<(), AllocError>,
    faults: &mut u64,
    refused: &mut u64,
) -> io::Result<()>
    ensures variant { is_ok result ≡ is_ok outcome }
    ensures kind { finds_no_room result ≡ is_err outcome }
    ensures faults { CountsFault result faults.old faults.new }
    ensures refused { CountsFault result refused.old refused.new }
{
    match outcome {
        Ok(()) => Ok(()),
        Err(AllocError) => {
            *faults = faults.saturating_add(1);
            *refused = refused.saturating_add(1);
            Err(io::ErrorKind::StorageFull.into())
        }
    }
}
