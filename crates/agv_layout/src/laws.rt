//! Laws of the definitions that the contracts of this crate cite. Each function does nothing: its
//! clause is the law.
ghost use Rattle.std.specs.Prelude.{◌≡◌, List, ◌++◌, Ok, Option, length, option_map};
ghost use Rattle.std.specs.FinSet as set;
ghost use Rattle.agv_layout.specs.declared.row.LayoutRow.{LayoutRow};
ghost use Rattle.agv_layout.specs.Layout.{Layout as Plan, Name as NameOf, AreNodesInOrder, IsNode, KeepsRules};
ghost use Rattle.agv_layout.specs.LayoutOf.{layout_of, nodes_of, rows_in};
ghost use Rattle.agv_layout.specs.RouteOf.{route_of};
ghost use Rattle.agv_layout.specs.Rows.{AreNamed, IsEachOnce, IsLayoutOf, IsOverLimit, IsReadAlike, IsSound};
ghost use Rattle.std.specs.List.Sorted.{IsPermutation};
ghost use Rattle.agv_layout.specs.Walk.{IsWalk, IsHops, IsWayTo};

/// Proves that the order of rows does not count: rows in another order are over the limits, or sound, exactly if these
/// are, and give the same layout.
pub fn ignores_order()
    ensures { (rows others : List LayoutRow) → IsPermutation rows others → IsReadAlike rows others }
{}

/// Proves that rows give at most one layout.
pub fn is_one_layout()
    ensures { (rows : List LayoutRow) (one other : Plan) → IsLayoutOf rows one → IsLayoutOf rows other → one ≡ other }
{}

/// Proves that rows in which each id is once in its kind, and which have exactly what a layout has, are sound, within
/// the limits, and named, so that they give this layout again.
pub fn gives_sound_rows()
    ensures { (rows : List LayoutRow) (layout : Plan) → IsEachOnce rows → IsLayoutOf rows layout → KeepsRules layout
        → (¬ IsOverLimit rows) × IsSound rows × AreNamed rows }
{}

/// Proves that the rows of a layout give it again.
pub fn gives_itself()
    ensures { (layout : Plan) → KeepsRules layout → layout_of (rows_in layout) ≡ Ok layout }
{}

/// Proves that `nodes_of` lists the nodes of a layout, each once, in the order of their names.
pub fn lists_its_nodes()
    ensures { (layout : Plan) → AreNodesInOrder layout (nodes_of layout) }
{}

/// Proves that a layout given by rows keeps the rules of layouts.
pub fn rules_law()
    ensures { (rows : List LayoutRow) (layout : Plan) → AreNamed rows → layout_of rows ≡ Ok layout → KeepsRules layout }
{}

/// Proves that the rows of a plan without nodes give no layout.
pub fn needs_a_node()
    ensures { (empty layout : Plan) → empty.nodes ≡ set.empty → ¬ (layout_of (rows_in empty) ≡ Ok layout) }
{}

/// Proves that there is at most one route from a node to another.
pub fn is_one_way()
    ensures { (layout : Plan) (from to : NameOf) (one other : Option (List NameOf))
        → IsWayTo layout from to one → IsWayTo layout from to other → one ≡ other }
{}

/// Proves that `route_of` gives the route, and none if no walk leads there: the route that contracts define by its
/// properties is the one that they define by a function.
pub fn route_is_found()
    ensures { (layout : Plan) (from to : NameOf) → IsWayTo layout from to (route_of layout from to) }
{}

/// Proves that the route has as many edges as the least number of hops.
pub fn has_as_many_hops()
    ensures { (layout : Plan) (from to : NameOf) (way : Option (List NameOf))
        → IsWayTo layout from to way → IsHops layout from to (option_map length way) }
{}

/// Proves that a walk leads from a node of the layout to a node of the layout, so that both its ends are known names.
pub fn joins_nodes()
    ensures { (layout : Plan) → KeepsRules layout → (from to : NameOf) (ids : List NameOf)
        → IsWalk layout from ids to → IsNode layout from × IsNode layout to }
{}

/// Proves that a walk, followed by a walk from where it ends, is a walk.
pub fn joins_walks()
    ensures { (layout : Plan) (from via to : NameOf) (ids others : List NameOf)
        → IsWalk layout from ids via → IsWalk layout via others to → IsWalk layout from (ids ++ others) to }
{}

/// Proves that a walk splits at each of its nodes: the first part leads to the node, and the second on from there.
pub fn splits_walks()
    ensures { (layout : Plan) → KeepsRules layout → (from to : NameOf) (ids others : List NameOf)
        → IsWalk layout from (ids ++ others) to
        → (via : NameOf) × IsWalk layout from ids via × IsWalk layout via others to }
{}

/// Proves that a walk ends at only one node.
pub fn has_one_end()
    ensures { (layout : Plan) (from to other : NameOf) (ids : List NameOf)
        → IsWalk layout from ids to → IsWalk layout from ids other → to ≡ other }
{}
