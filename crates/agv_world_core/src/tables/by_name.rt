//! Tables whose keys are names.
ghost use Rattle.std.specs.Prelude.{◌≡◌, ℕ, List, Some, IfOk, OnOk, OnErr};
ghost use Rattle.std.specs.FinMap as map;
ghost use Rattle.std.specs.Option.{is_none, option_copied};
ghost use Rattle.agv_header.specs.Name.{IsName};

use crate::{JobRow, TripRow, VehicleRow};
use agv_header::{Memory, Name};
use agv_layout::{EdgeEnds, StationSite};
use agv_stock::Place;
use std::alloc::Global;
use std::collections::{BTreeMap, btree_map};
use std::marker::Model;

/// What a table can store: a row whose clone is equal to it.
pub trait Row: Clone + Drop {
    ghost same: { (row clone : Self) → Self.is_clone row clone → clone ≡ row };
}

impl Row for EdgeEnds {
    ghost same = { λ row clone e. e };
}

impl Row for StationSite {
    ghost same = { λ row clone e. e };
}

impl Row for VehicleRow {
    ghost same = { λ row clone e. e };
}

impl Row for TripRow {
    ghost same = { λ row clone e. e };
}

impl Row for Place {
    ghost same = { λ row clone e. e };
}

impl Row for JobRow {
    ghost same = { λ row clone e. e };
}

impl Row for Name {
    ghost same = { λ row clone e. e };
}

impl Row for usize {
    ghost same = { λ row clone e. e };
}

/// A table with a row for each of its names. In a clause it is the finite map of its rows.
#[derive(Debug, Drop)]
pub struct ByName<V: Row> {
    kept: BTreeMap<Name, V>,
}

impl<V: Row> Model for ByName<V> {
    ghost use Rattle.std.specs.FinMap as map;
    ghost use Rattle.agv_header.specs.Name.{name_cmp};
    ghost use Rattle.agv_world_core.specs.Codes.{name_code};

    ghost Value = { map.FinMap name_cmp V };

    ghost coded = { map.code name_code V.code };

    ghost view = { λ table. map.from_entries table.kept.entries };
}

impl<V: Row> ByName<V> {
    /// Creates a table without a row.
    pub fn new(alloc: Global) -> ByName<V>
        ensures { result ≡ map.empty }
    {
        ByName {
            kept: BTreeMap::new(alloc),
        }
    }

    /// Returns the row of a key, if there is one.
    pub fn get(&self, key: Name) -> Option<&V>
        ensures { option_copied result ≡ map.get self.now key }
    {
        self.kept.get(&key)
    }

    /// Returns how many rows there are.
    pub fn len(&self) -> usize
        ensures { result ≡ map.len self.now }
    {
        self.kept.len()
    }

    /// Returns the rows with their keys, in the order of the keys.
    pub fn iter(&self) -> btree_map::Iter<'_, Name, V>
        ensures { result ≡ map.entries self.now }
    {
        self.kept.iter()
    }

    /// Proves that each key is a name. It does nothing: a proof calls it for its clause.
    pub fn names_law(&self)
        ensures { (id : List ℕ) (row : V) → map.get self.now id ≡ Some row → IsName id }
    {
        for (id, _) in self.iter() {
            let _bytes = id.as_bytes();
        }
    }

    /// Writes the row of a key, in place of the one that is there, if any.
    ///
    /// Returns `Memory` if an allocation was refused; then nothing has changed.
    pub fn insert(&mut self, key: Name, row: V) -> Result<(), Memory>
        ensures ok { OnOk result (self.new ≡ map.insert self.old key row) }
        ensures err { OnErr result (self.new ≡ self.old) }
    {
        self.kept.insert(key, row)?;
        Ok(())
    }

    /// Writes the row of a key, in place of the one that is there, if any, and returns whether
    /// there was none.
    ///
    /// Returns `Memory` if an allocation was refused; then nothing has changed.
    pub fn insert_new(&mut self, key: Name, row: V) -> Result<bool, Memory>
        ensures ok { IfOk result (λ new. (new ≡ is_none (map.get self.old key)) × (self.new ≡ map.insert self.old key row)) }
        ensures err { OnErr result (self.new ≡ self.old) }
    {
        let before = self.kept.insert(key, row)?;
        Ok(before.is_none())
    }

    /// Removes the row of a key, if there is one.
    pub fn remove(&mut self, key: Name)
        ensures { self.new ≡ map.remove self.old key }
    {
        self.kept.remove(&key);
    }

    /// Returns the rows with their names, in the order of the names.
    ///
    /// Returns `Memory` if an allocation was refused.
    pub fn list(&self, alloc: Global) -> Result<Vec<(Name, V)>, Memory>
        ensures { IfOk result (λ list. list.items ≡ map.entries self.now) }
    {
        let mut list = Vec::new(alloc);
        for (key, row) in self.kept.iter() {
            list.push((*key, row.clone()?))?;
        }
        Ok(list)
    }

    /// Returns a table equal to this one.
    ///
    /// Returns `Memory` if an allocation was refused.
    pub fn copy(&self) -> Result<ByName<V>, Memory>
        ensures { IfOk result (λ copy. copy ≡ self.now) }
    {
        Ok(ByName {
            kept: self.kept.clone()?,
        })
    }
}
