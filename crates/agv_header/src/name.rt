//! Names: 1 to 32 bytes, kept inline, ordered by their bytes.
ghost use Rattle.std.specs.Prelude.{◌≡◌, ◌↔◌, IsOk, IfOk, Some, nat_eq, refl};
ghost use Rattle.std.specs.Ordering.{nat_cmp};
ghost use Rattle.std.specs.Cmp.Lexicographic.{pointwise, slice_cmp, nat_list_eq_equiv, nat_list_cmp_total, texts_po, texts_ties};
ghost use Rattle.std.specs.Cmp.{partial_equiv_from_equiv};
ghost use Rattle.std.specs.List.{list_all};
ghost use Rattle.agv_header.specs.Name.{is_name_byte, is_name, IsName, as_name};

use std::cmp::Ordering;
use std::marker::Model;
use std::{fmt, str};
use thiserror::Error;

/// The most bytes of a name.
const LONGEST: usize = 32;

/// A name: 1 to 32 bytes of `A-Z a-z 0-9 _ . : -`. In a clause it is the list of its bytes.
#[derive(Clone, Copy)]
pub struct Name {
    bytes: [u8; 32],
    len: usize,
}

impl Model for Name {
    ghost use Rattle.std.specs.Prelude.{ℕ, List};

    ghost Value = { List ℕ };

    ghost use Rattle.agv_header.specs.Padded.{shown, IsPadded, padded, padded-shown};

    ghost view = { shown };

    ghost invariant = { IsPadded };

    ghost inverse = { padded };

    ghost inverse_ok = { padded-shown };
}

/// The error of a text that is no name: it is empty, longer than 32 bytes, or has a byte that no name
/// has.
#[derive(Clone, Copy, Debug, PartialEq, Eq, Error)]
#[error("the text is no name: 1 to 32 bytes of A-Z a-z 0-9 _ . : -")]
pub struct NotName;

impl Name {
    /// Reads a name. It takes no memory.
    ///
    /// Returns `NotName` if the text is empty, has more than 32 bytes, or has a byte that is no ASCII
    /// letter or digit and not `_`, `.`, `:` or `-`.
    pub fn read(text: &str) -> Result<Name, NotName>
        ensures kept { IfOk result (λ name. name ≡ text.now) }
        ensures exact { IsOk result ↔ IsName text.now }
    {
        Name::of_bytes(text.as_bytes()).ok_or(NotName)
    }

    /// Returns the name with these bytes, or `None` if [`Name::read`] would read no name from them. It
    /// takes no memory.
    pub fn of_bytes(bytes: &[u8]) -> Option<Name>
        ensures { result ≡ as_name bytes.now }
    {
        if !spells_name(bytes) {
            return None;
        }
        let mut padded = [0; 32];
        padded[..bytes.len()].copy_from_slice(bytes);
        Some(Name {
            bytes: padded,
            len: bytes.len(),
        })
    }

    /// Returns the bytes of the name: 1 to 32, all ASCII.
    pub fn as_bytes(&self) -> &[u8]
        ensures bytes { result.now ≡ self.now }
        ensures name { IsName self.now }
    {
        &self.bytes[..self.len]
    }

    /// Returns the name as text.
    pub fn as_str(&self) -> &str
        ensures text { result.now ≡ self.now }
        ensures name { IsName self.now }
    {
        match str::from_utf8(self.as_bytes()) {
            Ok(text) => text,
            Err(_) => unreachable!(),
        }
    }
}

impl PartialEq for Name {
    ghost eq = { pointwise nat_eq };

    ghost laws = { partial_equiv_from_equiv nat_list_eq_equiv };

    fn eq(&self, other: &Self) -> bool {
        self.as_bytes() == other.as_bytes()
    }
}

impl Eq for Name {
    ghost laws = { nat_list_eq_equiv };
}

impl PartialOrd for Name {
    ghost partial_cmp = { λ a b. Some (slice_cmp nat_cmp a b) };

    ghost laws = { texts_po };

    fn partial_cmp(&self, other: &Self) -> Option<Ordering> {
        Some(self.cmp(other))
    }
}

impl Ord for Name {
    ghost cmp = { slice_cmp nat_cmp };

    ghost total = { nat_list_cmp_total };

    ghost matches_partial_cmp = { λ a b. refl };

    ghost matches_eq = { texts_ties };

    fn cmp(&self, other: &Self) -> Ordering {
        self.as_bytes().cmp(other.as_bytes())
    }
}

impl fmt::Display for Name {
    ghost output = { λ name. Some name };

    fn fmt<W: fmt::Write>(&self, f: &mut fmt::Formatter<W>) -> fmt::Result {
        write!(f, "{}", self.as_str())
    }
}

impl fmt::Debug for Name {
    fn fmt<W: fmt::Write>(&self, f: &mut fmt::Formatter<W>) -> fmt::Result {
        write!(f, "{}", self.as_str())
    }
}

/// Returns whether the bytes are a name.
fn spells_name(bytes: &[u8]) -> bool
    ensures { result ≡ is_name bytes.now }
{
    !bytes.is_empty() && bytes.len() <= LONGEST && are_allowed(bytes)
}

/// Returns whether each of the bytes may be in a name.
fn are_allowed(bytes: &[u8]) -> bool
    ensures { result ≡ list_all is_name_byte bytes.now }
{
    bytes.iter().all(|byte| is_allowed(*byte))
}

/// Returns whether a name may have the byte.
fn is_allowed(byte: u8) -> bool
    ensures { result ≡ is_name_byte byte }
{
    byte.is_ascii_alphanumeric() || b"_.:-".contains(&byte)
}
