//! The table of nodes.
ghost use Rattle.std.specs.Prelude.{◌≡◌, ℕ, true, List, IfOk, OnOk, OnErr};
ghost use Rattle.std.specs.FinSet as set;
ghost use Rattle.std.specs.List.Sorted.{IsStrictlySortedBy};
ghost use Rattle.agv_header.specs.Name.{IsName, name_cmp};

use agv_header::{Memory, Name};
use std::alloc::Global;
use std::collections::{BTreeSet, btree_set};
use std::marker::Model;

/// A set of names of nodes. In a clause it is a finite set.
#[derive(Debug, Drop)]
pub struct Names {
    kept: BTreeSet<Name>,
}

impl Model for Names {
    ghost use Rattle.std.specs.FinSet as set;
    ghost use Rattle.agv_header.specs.Name.{name_cmp};
    ghost use Rattle.agv_world_core.specs.Codes.{name_code};

    ghost Value = { set.FinSet name_cmp };

    ghost coded = { set.code name_code };

    ghost view = { λ table. set.from_list table.kept.keys };
}

impl Names {
    /// Creates an empty set.
    pub fn new(alloc: Global) -> Names
        ensures { result ≡ set.empty }
    {
        Names {
            kept: BTreeSet::new(alloc),
        }
    }

    /// Returns whether the name is in the set.
    pub fn contains(&self, key: Name) -> bool
        ensures { result ≡ set.contains self.now key }
    {
        self.kept.contains(&key)
    }

    /// Returns how many names there are.
    pub fn len(&self) -> usize
        ensures { result ≡ set.len self.now }
    {
        self.kept.len()
    }

    /// Returns the names, in their order.
    pub fn iter(&self) -> btree_set::Iter<'_, Name>
        ensures ordered { IsStrictlySortedBy name_cmp result }
        ensures all { set.from_list result ≡ self.now }
    {
        self.kept.iter()
    }

    /// Proves that each key is a name. It does nothing: a proof calls it for its clause.
    pub fn names_law(&self)
        ensures { (id : List ℕ) → set.contains self.now id ≡ true → IsName id }
    {
        for id in self.iter() {
            let _bytes = id.as_bytes();
        }
    }

    /// Adds a name; does nothing if it is in the set.
    ///
    /// Returns `Memory` if an allocation was refused; then nothing has changed.
    pub fn insert(&mut self, key: Name) -> Result<(), Memory>
        ensures ok { OnOk result (self.new ≡ set.insert self.old key) }
        ensures err { OnErr result (self.new ≡ self.old) }
    {
        self.kept.insert(key)?;
        Ok(())
    }

    /// Returns a set equal to this one.
    ///
    /// Returns `Memory` if an allocation was refused.
    pub fn copy(&self) -> Result<Names, Memory>
        ensures { IfOk result (λ copy. copy ≡ self.now) }
    {
        Ok(Names {
            kept: self.kept.clone()?,
        })
    }
}
