//! The distances of nodes from a goal, found level by level against the direction of the edges.
ghost use Rattle.std.specs.Prelude.{◌≡◌, ◌+◌, ◌≤◌, cond, not, ◌&&◌, ◌||◌, is_some, vec_len, IfOk, OnOk, Some, None, true};
ghost use Rattle.std.specs.Option.{option_or};
ghost use Rattle.std.specs.BTreeMap as tree;
ghost use Rattle.std.specs.BTreeMap.{btree_map_len};
ghost use Rattle.std.specs.BTreeSet.{contains};
ghost use Rattle.std.specs.FinSet as set;
ghost use Rattle.std.specs.List.{All, list_any};
ghost use Rattle.agv_layout.specs.declared.edge.EdgeEnds.{EdgeEnds as EndsOf};
ghost use Rattle.agv_layout.specs.Levels.{AreDistances};
ghost use Rattle.agv_header.specs.Name.{name_cmp};
ghost use Rattle.agv_layout.specs.Layout.{Name as NameOf};
ghost use Rattle.agv_layout.specs.Arrivals.{starts_of, leads, leads_to_one, is_so, Joins};
ghost use Rattle.agv_layout.specs.LayoutOf.{is_among};

use crate::EdgeEnds;
use agv_header::{Memory, Name};
use std::alloc::Global;
use std::collections::{BTreeMap, BTreeSet};

/// For each node where an edge finishes, the nodes where such edges start.
pub(crate) type Arrivals = BTreeMap<Name, Vec<Name>>;

/// For each node from which a walk leads to the goal, the least number of edges of such a walk.
pub(crate) type Distances = BTreeMap<Name, u32>;

/// Returns the distance of each node from the goal. A node from which no walk leads there has none.
///
/// Each level has the nodes that are one edge farther than the last, and each node is in only one
/// level, so the time is that of the nodes and the edges, each times the depth of a map.
pub(crate) fn distances_to(
    alloc: Global,
    nodes: &BTreeSet<Name>,
    edges: &BTreeMap<Name, EdgeEnds>,
    goal: Name,
) -> Result<Distances, Memory>
    requires goal { contains name_cmp nodes.now goal ≡ true }
    requires few { set.len (set.from_list {R = name_cmp} nodes.now.keys) ≤ 500 }
    requires starts { (id : NameOf) (ends : EndsOf) → tree.get name_cmp edges.now id ≡ Some ends → contains name_cmp nodes.now ends.start ≡ true }
    ensures { IfOk result (λ distances. AreDistances (Joins edges.now) goal (tree.get name_cmp distances)) }
{
    let arrivals = arrivals_of(alloc, edges)?;
    let mut distances = BTreeMap::new(alloc);
    distances.insert(goal, 0)?;
    let mut level = Vec::new(alloc);
    level.push(goal)?;
    let mut hops = 0;
    while !level.is_empty() {
        hops += 1;
        level = next_level(alloc, &arrivals, &mut distances, &level, hops)?;
    }
    Ok(distances)
}

/// Collects the starts of all edges, by their finishes.
fn arrivals_of(alloc: Global, edges: &BTreeMap<Name, EdgeEnds>) -> Result<Arrivals, Memory>
    ensures all { IfOk result (λ arrivals. (start finish : NameOf) → leads arrivals start finish
        ≡ list_any (is_so start finish) edges.now.entries) }
    ensures found { All (λ e. tree.get name_cmp edges.now e.0 ≡ Some e.1) edges.now.entries }
{
    let mut arrivals = BTreeMap::new(alloc);
    for (_, ends) in edges {
        add_arrival(alloc, &mut arrivals, *ends)?;
    }
    Ok(arrivals)
}

/// Adds the start of an edge to those of its finish.
fn add_arrival(alloc: Global, arrivals: &mut Arrivals, ends: EdgeEnds) -> Result<(), Memory>
    ensures { OnOk result ((start finish : NameOf) → leads arrivals.new start finish
        ≡ (leads arrivals.old start finish || (tree.is_at (name_cmp ends.finish) finish && tree.is_at (name_cmp ends.start) start))) }
{
    let EdgeEnds { start, finish } = ends;
    let mut starts = arrivals.remove(&finish).unwrap_or(Vec::new(alloc));
    starts.push(start)?;
    arrivals.insert(finish, starts)?;
    Ok(())
}

/// Finds the nodes that are one edge farther than a level, and records their distance.
fn next_level(
    alloc: Global,
    arrivals: &Arrivals,
    distances: &mut Distances,
    level: &[Name],
    hops: u32,
) -> Result<Vec<Name>, Memory>
    ensures distances { OnOk result ((id : NameOf) → tree.get name_cmp distances.new id
        ≡ option_or (tree.get name_cmp distances.old id) (cond (leads_to_one arrivals.now id level.now) (Some hops) None)) }
    ensures found { IfOk result (λ found. (id : NameOf) → is_among found.items id
        ≡ (not (is_some (tree.get name_cmp distances.old id)) && leads_to_one arrivals.now id level.now)) }
    ensures count { IfOk result (λ found. btree_map_len distances.new ≡ btree_map_len distances.old + vec_len found) }
    ensures ordered { OnOk result (tree.IsOrdered name_cmp distances.old → tree.IsOrdered name_cmp distances.new) }
{
    let mut found = Vec::new(alloc);
    for node in level {
        note_all(distances, starts_of(arrivals, *node), hops, &mut found)?;
    }
    Ok(found)
}

/// Records this distance for those of the nodes that have none yet, and adds them to `found`.
fn note_all(
    distances: &mut Distances,
    starts: &[Name],
    hops: u32,
    found: &mut Vec<Name>,
) -> Result<(), Memory>
    ensures distances { OnOk result ((id : NameOf) → tree.get name_cmp distances.new id
        ≡ option_or (tree.get name_cmp distances.old id) (cond (is_among starts.now id) (Some hops) None)) }
    ensures found { OnOk result ((id : NameOf) → is_among found.new.items id
        ≡ (is_among found.old.items id || (not (is_some (tree.get name_cmp distances.old id)) && is_among starts.now id))) }
    ensures count { OnOk result (btree_map_len distances.new + vec_len found.old ≡ btree_map_len distances.old + vec_len found.new) }
    ensures ordered { OnOk result (tree.IsOrdered name_cmp distances.old → tree.IsOrdered name_cmp distances.new) }
{
    for start in starts {
        note(distances, *start, hops, found)?;
    }
    Ok(())
}

/// Records this distance for a node if it has none yet, and adds the node to `found`.
fn note(
    distances: &mut Distances,
    start: Name,
    hops: u32,
    found: &mut Vec<Name>,
) -> Result<(), Memory>
    ensures distances { OnOk result ((id : NameOf) → tree.get name_cmp distances.new id
        ≡ option_or (tree.get name_cmp distances.old id) (cond (tree.is_at (name_cmp start) id) (Some hops) None)) }
    ensures found { OnOk result ((id : NameOf) → is_among found.new.items id
        ≡ (is_among found.old.items id || (not (is_some (tree.get name_cmp distances.old id)) && tree.is_at (name_cmp start) id))) }
    ensures count { OnOk result (btree_map_len distances.new + vec_len found.old ≡ btree_map_len distances.old + vec_len found.new) }
    ensures ordered { OnOk result (tree.IsOrdered name_cmp distances.old → tree.IsOrdered name_cmp distances.new) }
{
    if distances.contains_key(&start) {
        return Ok(());
    }
    distances.insert(start, hops)?;
    found.push(start)?;
    Ok(())
}

/// Returns the nodes where the edges to a node start.
fn starts_of(arrivals: &Arrivals, finish: Name) -> &[Name]
    ensures { result.now ≡ starts_of arrivals.now finish }
{
    match arrivals.get(&finish) {
        Some(starts) => starts,
        None => &[],
    }
}
