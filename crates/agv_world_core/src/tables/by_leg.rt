//! The table of the edges of open trips.
ghost use Rattle.std.specs.Prelude.{◌≡◌, IfOk, OnOk, OnErr};
ghost use Rattle.std.specs.FinMap as map;
ghost use Rattle.std.specs.Option.{option_copied};

use crate::LegKey;
use agv_header::{Memory, Name};
use std::alloc::Global;
use std::collections::{BTreeMap, btree_map};
use std::marker::Model;

/// The name of each edge of the open trips. In a clause it is the finite map of its rows.
#[derive(Debug, Drop)]
pub struct ByLeg {
    kept: BTreeMap<LegKey, Name>,
}

impl Model for ByLeg {
    ghost use Rattle.std.specs.Prelude.{ℕ, List};
    ghost use Rattle.std.specs.FinMap as map;
    ghost use Rattle.agv_world_core.specs.Keys.{leg_cmp};
    ghost use Rattle.agv_world_core.specs.Codes.{leg_code, name_code};

    ghost Value = { map.FinMap leg_cmp (List ℕ) };

    ghost coded = { map.code leg_code name_code };

    ghost view = { λ table. map.from_entries table.kept.entries };
}

impl ByLeg {
    /// Creates a table without a row.
    pub fn new(alloc: Global) -> ByLeg
        ensures { result ≡ map.empty }
    {
        ByLeg {
            kept: BTreeMap::new(alloc),
        }
    }

    /// Returns the row of a key, if there is one.
    pub fn get(&self, key: LegKey) -> Option<&Name>
        ensures { option_copied result ≡ map.get self.now key }
    {
        self.kept.get(&key)
    }

    /// Returns the rows with their keys, in the order of the keys.
    pub fn iter(&self) -> btree_map::Iter<'_, LegKey, Name>
        ensures { result ≡ map.entries self.now }
    {
        self.kept.iter()
    }

    /// Writes the row of a key, in place of the one that is there.
    ///
    /// Returns `Memory` if an allocation was refused; then nothing has changed.
    pub fn insert(&mut self, key: LegKey, row: Name) -> Result<(), Memory>
        ensures ok { OnOk result (self.new ≡ map.insert self.old key row) }
        ensures err { OnErr result (self.new ≡ self.old) }
    {
        self.kept.insert(key, row)?;
        Ok(())
    }

    /// Removes the row of a key, if there is one.
    pub fn remove(&mut self, key: LegKey)
        ensures { self.new ≡ map.remove self.old key }
    {
        self.kept.remove(&key);
    }

    /// Returns a table equal to this one.
    ///
    /// Returns `Memory` if an allocation was refused.
    pub fn copy(&self) -> Result<ByLeg, Memory>
        ensures { IfOk result (λ copy. copy ≡ self.now) }
    {
        Ok(ByLeg {
            kept: self.kept.clone()?,
        })
    }
}
