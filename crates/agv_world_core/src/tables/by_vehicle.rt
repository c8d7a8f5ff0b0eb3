//! Tables whose keys are vehicles.
ghost use Rattle.std.specs.Prelude.{◌≡◌, Some, IfOk, OnOk, OnErr};
ghost use Rattle.std.specs.FinMap as map;
ghost use Rattle.std.specs.Option.{option_copied};
ghost use Rattle.agv_header.specs.declared.key.VehicleKey.{VehicleKey as Vehicle};
ghost use Rattle.agv_world_core.specs.Lawful.{IsKey};

use crate::Row;
use agv_header::{Memory, VehicleKey};
use std::alloc::Global;
use std::collections::{BTreeMap, btree_map};
use std::marker::Model;

/// A table with a row for each of its vehicles. In a clause it is the finite map of its rows.
#[derive(Debug, Drop)]
pub struct ByVehicle<V: Row> {
    kept: BTreeMap<VehicleKey, V>,
}

impl<V: Row> Model for ByVehicle<V> {
    ghost use Rattle.std.specs.FinMap as map;
    ghost use Rattle.agv_header.specs.Key.{key_cmp};
    ghost use Rattle.agv_world_core.specs.Codes.{key_code};

    ghost Value = { map.FinMap key_cmp V };

    ghost coded = { map.code key_code V.code };

    ghost view = { λ table. map.from_entries table.kept.entries };
}

impl<V: Row> ByVehicle<V> {
    /// Creates a table without a row.
    pub fn new(alloc: Global) -> ByVehicle<V>
        ensures { result ≡ map.empty }
    {
        ByVehicle {
            kept: BTreeMap::new(alloc),
        }
    }

    /// Returns the row of a key, if there is one.
    pub fn get(&self, key: VehicleKey) -> Option<&V>
        ensures { option_copied result ≡ map.get self.now key }
    {
        self.kept.get(&key)
    }

    /// Returns how many rows there are.
    pub fn len(&self) -> usize
        ensures { result ≡ map.len self.now }
    {
        self.kept.len()
    }

    /// Returns the rows with their keys, in the order of the keys.
    pub fn iter(&self) -> btree_map::Iter<'_, VehicleKey, V>
        ensures { result ≡ map.entries self.now }
    {
        self.kept.iter()
    }

    /// Proves that the two parts of each key are names. It does nothing: a proof calls it for its clause.
    pub fn keys_law(&self)
        ensures { (key : Vehicle) (row : V) → map.get self.now key ≡ Some row → IsKey key }
    {
        for (key, _) in self.iter() {
            let _manufacturer = key.manufacturer.as_bytes();
            let _serial = key.serial.as_bytes();
        }
    }

    /// Writes the row of a key, in place of the one that is there, if any.
    ///
    /// Returns `Memory` if an allocation was refused; then nothing has changed.
    pub fn insert(&mut self, key: VehicleKey, row: V) -> Result<(), Memory>
        ensures ok { OnOk result (self.new ≡ map.insert self.old key row) }
        ensures err { OnErr result (self.new ≡ self.old) }
    {
        self.kept.insert(key, row)?;
        Ok(())
    }

    /// Removes the row of a key, if there is one.
    pub fn remove(&mut self, key: VehicleKey)
        ensures { self.new ≡ map.remove self.old key }
    {
        self.kept.remove(&key);
    }

    /// Returns a table equal to this one.
    ///
    /// Returns `Memory` if an allocation was refused.
    pub fn copy(&self) -> Result<ByVehicle<V>, Memory>
        ensures { IfOk result (λ copy. copy ≡ self.now) }
    {
        Ok(ByVehicle {
            kept: self.kept.clone()?,
        })
    }
}
