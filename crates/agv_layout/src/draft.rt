//! The contents of rows before it is known whether they give a layout.
ghost use Rattle.std.specs.Prelude.{◌≡◌, ◌↔◌, ◌&&◌, not, nat_eq, nat_le, [], Err, false, true, IsTrue, IfOk, IfErr, OnOk};
ghost use Rattle.std.specs.Cmp.Lexicographic.{pointwise};
ghost use Rattle.agv_layout.specs.declared.fault.LayoutFault.TheVariants as fault;
ghost use Rattle.agv_layout.specs.Draft.{drawn, has_id, with_row, leads_in_draft, stands_in_draft, HasNode, AllLead, AllStand, IsWhole};
ghost use Rattle.agv_layout.specs.LayoutOf.{layout_in};
ghost use Rattle.agv_header.specs.Name.{IsName};
ghost use Rattle.agv_layout.specs.Rows.{AreNamed, IsEachOnce, id_in};

use crate::{EdgeEnds, LayoutFault, LayoutRow, StationSite};
use agv_header::Name;
use agv_header::limits::MAX_STATION_CAPACITY;
use std::alloc::Global;
use std::collections::{BTreeMap, BTreeSet};

/// The nodes, edges and stations of rows, in which each id is once in its kind.
#[derive(Drop)]
pub(crate) struct Draft {
    pub(crate) nodes: BTreeSet<Name>,
    pub(crate) edges: BTreeMap<Name, EdgeEnds>,
    pub(crate) stations: BTreeMap<Name, StationSite>,
}

impl Draft {
    /// Collects the rows, or returns `Bad` if an id is twice in its kind.
    pub(crate) fn of_rows(alloc: Global, rows: &[LayoutRow]) -> Result<Draft, LayoutFault>
        ensures once { OnOk result (IsEachOnce rows.now) }
        ensures drawn { IfOk result (λ draft. drawn draft ≡ layout_in rows.now) }
        ensures bad { result ≡ Err fault.Bad → ¬ (IsEachOnce rows.now) }
        ensures limit { result ≡ Err fault.Limit → ⊥ }
        ensures named { OnOk result (AreNamed rows.now) }
    {
        let mut draft = Draft::new(alloc);
        for row in rows {
            draft.add(*row)?;
        }
        Ok(draft)
    }

    /// Returns a draft without rows.
    fn new(alloc: Global) -> Draft
        ensures { drawn result ≡ layout_in [] }
    {
        Draft {
            nodes: BTreeSet::new(alloc),
            edges: BTreeMap::new(alloc),
            stations: BTreeMap::new(alloc),
        }
    }

    /// Adds a row, or returns `Bad` if its id is in its kind already.
    fn add(&mut self, row: LayoutRow) -> Result<(), LayoutFault>
        ensures added { OnOk result (drawn self.new ≡ with_row (drawn self.old) row) }
        ensures new { OnOk result (has_id (drawn self.old) row ≡ false) }
        ensures again { result ≡ Err fault.Bad → has_id (drawn self.old) row ≡ true }
        ensures limit { result ≡ Err fault.Limit → ⊥ }
        ensures named { IsName (id_in row) }
    {
        row.name_law();
        let is_new = self.put(row)?;
        if !is_new {
            return Err(LayoutFault::Bad);
        }
        Ok(())
    }

    /// Puts a row into the draft and returns whether its id is new to its kind.
    fn put(&mut self, row: LayoutRow) -> Result<bool, LayoutFault>
        ensures added { IfOk result (λ added. IsTrue added → drawn self.new ≡ with_row (drawn self.old) row) }
        ensures new { IfOk result (λ added. added ≡ not (has_id (drawn self.old) row)) }
        ensures err { IfErr result (λ error. error ≡ fault.Memory) }
    {
        match row {
            LayoutRow::Node { id } => Ok(self.nodes.insert(id)?),
            LayoutRow::Edge { id, start, finish } => {
                Ok(self.edges.insert(id, EdgeEnds { start, finish })?.is_none())
            }
            LayoutRow::Station { id, node, capacity } => {
                Ok(
                    self.stations
                        .insert(id, StationSite { node, capacity })?
                        .is_none(),
                )
            }
        }
    }

    /// Returns whether these are the parts of a layout, apart from how many there are.
    pub(crate) fn is_whole(&self) -> bool
        ensures { IsTrue result ↔ IsWhole (drawn self.now) }
    {
        self.has_node() && self.edges_lead() && self.stations_stand()
    }

    /// Returns whether there is a node.
    fn has_node(&self) -> bool
        ensures { IsTrue result ↔ HasNode (drawn self.now) }
    {
        !self.nodes.is_empty()
    }

    /// Returns whether each edge leads from a node to another.
    fn edges_lead(&self) -> bool
        ensures { IsTrue result ↔ AllLead (drawn self.now) }
    {
        self.edges.values().all(|ends| self.leads(*ends))
    }

    /// Returns whether an edge leads from a node of the draft to another.
    fn leads(&self, ends: EdgeEnds) -> bool
        ensures { result ≡ leads_in_draft self.now ends }
    {
        self.nodes.contains(&ends.start) && self.nodes.contains(&ends.finish) && is_no_loop(ends)
    }

    /// Returns whether each station is at a node and has a capacity of 1 to 999.
    fn stations_stand(&self) -> bool
        ensures { IsTrue result ↔ AllStand (drawn self.now) }
    {
        self.stations.values().all(|site| self.stands(*site))
    }

    /// Returns whether a station is at a node of the draft and has a capacity of 1 to 999.
    fn stands(&self, site: StationSite) -> bool
        ensures { result ≡ stands_in_draft self.now site }
    {
        self.nodes.contains(&site.node) && is_capacity(site.capacity)
    }
}

/// Returns whether an edge finishes at another node than it starts.
fn is_no_loop(ends: EdgeEnds) -> bool
    ensures { result ≡ not (pointwise nat_eq ends.start ends.finish) }
{
    ends.start != ends.finish
}

/// Returns whether a station may have this capacity: 1 to 999.
fn is_capacity(capacity: u32) -> bool
    ensures { result ≡ (nat_le 1 capacity && nat_le capacity 999) }
{
    (1..=MAX_STATION_CAPACITY).contains(&capacity)
}
