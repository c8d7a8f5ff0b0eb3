//! The table of the acts of open trips.
ghost use Rattle.std.specs.Prelude.{◌≡◌, IfOk, OnOk, OnErr};
ghost use Rattle.std.specs.FinMap as map;
ghost use Rattle.std.specs.Option.{option_copied};

use crate::{ActKey, ActRow};
use agv_header::Memory;
use std::alloc::Global;
use std::collections::{BTreeMap, btree_map};
use std::marker::Model;

/// The table of the acts of open trips, by order id and number. In a clause it is the finite map of its rows.
#[derive(Debug, Drop)]
pub struct ByAct {
    kept: BTreeMap<ActKey, ActRow>,
}

impl Model for ByAct {
    ghost use Rattle.std.specs.FinMap as map;
    ghost use Rattle.agv_store_rows.specs.ActKeys.{act_cmp, act_code};
    ghost use Rattle.agv_store_rows.specs.declared.act_row.ActRow.{ActRow as RowOfAct};
    ghost use Rattle.agv_store_rows.specs.contracts.act_row.ActRow.{the_row};

    ghost Value = { map.FinMap act_cmp RowOfAct };

    ghost coded = { map.code act_code the_row.coded };

    ghost view = { λ table. map.from_entries table.kept.entries };
}

impl ByAct {
    /// Returns a table without rows.
    pub fn new(alloc: Global) -> ByAct
        ensures { result ≡ map.empty }
    {
        ByAct {
            kept: BTreeMap::new(alloc),
        }
    }

    /// Returns the row of a key, if any.
    pub fn get(&self, key: ActKey) -> Option<&ActRow>
        ensures { option_copied result ≡ map.get self.now key }
    {
        self.kept.get(&key)
    }

    /// Returns the number of rows.
    pub fn len(&self) -> usize
        ensures { result ≡ map.len self.now }
    {
        self.kept.len()
    }

    /// Returns the rows with their keys, in the order of the keys.
    pub fn iter(&self) -> btree_map::Iter<'_, ActKey, ActRow>
        ensures { result ≡ map.entries self.now }
    {
        self.kept.iter()
    }

    /// Writes the row of a key, in place of the one that is there, if any.
    ///
    /// # Errors
    /// `Memory` if an allocation fails; then nothing has changed.
    pub fn insert(&mut self, key: ActKey, row: ActRow) -> Result<(), Memory>
        ensures ok { OnOk result (self.new ≡ map.insert self.old key row) }
        ensures err { OnErr result (self.new ≡ self.old) }
    {
        self.kept.insert(key, row)?;
        Ok(())
    }

    /// Returns a list of the rows with their keys, in the order of the keys.
    ///
    /// # Errors
    /// `Memory` if an allocation fails.
    pub fn list(&self, alloc: Global) -> Result<Vec<(ActKey, ActRow)>, Memory>
        ensures { IfOk result (λ list. list.items ≡ map.entries self.now) }
    {
        let mut list = Vec::new(alloc);
        for (key, row) in self.kept.iter() {
            list.push((*key, *row))?;
        }
        Ok(list)
    }
}
