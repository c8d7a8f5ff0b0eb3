//! A list that is the list of its items in clauses.
ghost use Rattle.std.specs.Prelude.{◌≡◌, ◌↔◌, [], IfOk, IsTrue, length};
ghost use Rattle.std.specs.Cmp.Lexicographic.{pointwise, lists_per, lists_equiv};

use agv_header::Memory;
use std::alloc::{AllocError, Global};
use std::marker::Model;

/// A list, made from a `Vec` and converted back to one, neither of which takes memory. In a clause it
/// is the list of its items.
#[derive(Debug, Drop)]
pub struct Sequence<T> {
    kept: Vec<T>,
}

impl<T> Model for Sequence<T> {
    ghost use Rattle.std.specs.Prelude.{List};

    ghost Value = { List T };

    ghost view = { λ sequence. sequence.kept.items };
}

impl<T> Sequence<T> {
    /// Returns the number of items.
    pub fn len(&self) -> usize
        ensures { result ≡ length self.now }
    {
        self.kept.len()
    }

    /// Returns whether it has no items.
    pub fn is_empty(&self) -> bool
        ensures { IsTrue result ↔ (self.now ≡ []) }
    {
        self.kept.is_empty()
    }

    /// Returns the items, in order.
    pub fn as_slice(&self) -> &[T]
        ensures { result.now ≡ self.now }
    {
        self.kept.as_slice()
    }

    /// Returns the allocator of its memory.
    pub(crate) fn allocator(&self) -> Global {
        *self.kept.allocator()
    }

    /// Returns the items as a `Vec`.
    pub fn into_vec(self) -> Vec<T>
        ensures { result.items ≡ self }
    {
        let Sequence { kept } = self;
        kept
    }
}

impl<T: Copy> Sequence<T> {
    /// Returns a list equal to this one.
    ///
    /// Returns `Memory` if an allocation is refused.
    pub fn copy(&self) -> Result<Sequence<T>, Memory>
        ensures { IfOk result (λ copy. copy ≡ self.now) }
    {
        let kept = Vec::from_slice(self.allocator(), self.kept.as_slice())?;
        Ok(Sequence { kept })
    }
}

impl<T: Copy> Clone for Sequence<T> {
    ghost use Rattle.std.specs.Prelude.{◌≡◌};

    ghost is_clone = { λ list clone. clone ≡ list };

    fn clone(&self) -> Result<Sequence<T>, AllocError> {
        let kept = Vec::from_slice(self.allocator(), self.kept.as_slice())?;
        Ok(Sequence { kept })
    }
}

impl<T: PartialEq> PartialEq for Sequence<T> {
    ghost eq = { pointwise T.eq };

    ghost laws = { lists_per T.laws };

    fn eq(&self, other: &Self) -> bool {
        self.kept.as_slice() == other.kept.as_slice()
    }
}

impl<T: Eq> Eq for Sequence<T> {
    ghost laws = { lists_equiv T.Eq.laws };
}

impl<T> From<Vec<T>> for Sequence<T> {
    ghost from_gives = { λ items sequence. sequence ≡ items.items };

    fn from(kept: Vec<T>) -> Sequence<T> {
        Sequence { kept }
    }
}
