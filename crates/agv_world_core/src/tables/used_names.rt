//! The table of used names.
ghost use Rattle.std.specs.Prelude.{◌≡◌, true, IfOk, OnOk, OnErr};
ghost use Rattle.std.specs.FinSet as set;
ghost use Rattle.std.specs.List.Sorted.{IsStrictlySortedBy};
ghost use Rattle.agv_header.specs.Name.{IsName};
ghost use Rattle.agv_world_core.specs.Keys.{use_cmp};
ghost use Rattle.agv_world_core.specs.declared.key.UseKey.{UseKey as Used};

use crate::UseKey;
use agv_header::Memory;
use std::alloc::Global;
use std::collections::{BTreeSet, btree_set};
use std::marker::Model;

/// The set of names that were used, each in its kind. In a clause it is a finite set.
#[derive(Debug, Drop)]
pub struct UsedNames {
    kept: BTreeSet<UseKey>,
}

impl Model for UsedNames {
    ghost use Rattle.std.specs.FinSet as set;
    ghost use Rattle.agv_world_core.specs.Keys.{use_cmp};
    ghost use Rattle.agv_world_core.specs.Codes.{use_code};

    ghost Value = { set.FinSet use_cmp };

    ghost coded = { set.code use_code };

    ghost view = { λ table. set.from_list table.kept.keys };
}

impl UsedNames {
    /// Creates an empty set.
    pub fn new(alloc: Global) -> UsedNames
        ensures { result ≡ set.empty }
    {
        UsedNames {
            kept: BTreeSet::new(alloc),
        }
    }

    /// Returns whether the name was used in its kind.
    pub fn contains(&self, key: UseKey) -> bool
        ensures { result ≡ set.contains self.now key }
    {
        self.kept.contains(&key)
    }

    /// Returns the names, each in its kind, in the order of the keys.
    pub fn iter(&self) -> btree_set::Iter<'_, UseKey>
        ensures ordered { IsStrictlySortedBy use_cmp result }
        ensures all { set.from_list result ≡ self.now }
    {
        self.kept.iter()
    }

    /// Proves that each key has a name. It does nothing: a proof calls it for its clause.
    pub fn names_law(&self)
        ensures { (key : Used) → set.contains self.now key ≡ true → IsName key.name }
    {
        for key in self.iter() {
            let _bytes = key.name.as_bytes();
        }
    }

    /// Adds a name in its kind; does nothing if it is in the set.
    ///
    /// Returns `Memory` if an allocation was refused; then nothing has changed.
    pub fn insert(&mut self, key: UseKey) -> Result<(), Memory>
        ensures ok { OnOk result (self.new ≡ set.insert self.old key) }
        ensures err { OnErr result (self.new ≡ self.old) }
    {
        self.kept.insert(key)?;
        Ok(())
    }

    /// Returns a set equal to this one.
    ///
    /// Returns `Memory` if an allocation was refused.
    pub fn copy(&self) -> Result<UsedNames, Memory>
        ensures { IfOk result (λ copy. copy ≡ self.now) }
    {
        Ok(UsedNames {
            kept: self.kept.clone()?,
        })
    }
}
