//! The call that sets the layout.
ghost use Rattle.std.specs.Prelude.{◌≡◌, IfOk, IfErr, map};
ghost use Rattle.agv_world_core.specs.Asks.{Asks};
ghost use Rattle.agv_world_core.specs.TableChanges.{layout_changes};
ghost use Rattle.agv_desk.specs.LayoutSteps.{IsWhy, lay, row_written, set_layout};
ghost use Rattle.agv_desk.specs.Outcomes.{decided};

use crate::decisions::{made_with, refused};
use crate::{Answer, Decision};
use agv_header::{Memory, Refusal};
use agv_layout::{EdgeEnds, Layout, LayoutFault, LayoutRow, StationSite};
use agv_world_core::{Change, Fault, Floor};
use std::alloc::Global;

/// Why the layout is not set.
#[derive(Clone, Copy)]
enum NotSet {
    Refused(Refusal),
    Failed(Memory),
}

impl From<LayoutFault> for NotSet {
    ghost use Rattle.agv_desk.specs.LayoutSteps.{not_set};

    ghost from_gives = { λ why made. made ≡ not_set why };

    fn from(why: LayoutFault) -> NotSet {
        match why {
            LayoutFault::Limit => NotSet::Refused(Refusal::Limit),
            LayoutFault::Bad => NotSet::Refused(Refusal::LayoutBad),
            LayoutFault::Memory => NotSet::Failed(Memory),
        }
    }
}

impl From<Memory> for NotSet {
    ghost use Rattle.agv_desk.specs.declared.layouts.NotSet.TheVariants as unset;

    ghost from_gives = { λ memory made. made ≡ unset.Failed memory };

    fn from(memory: Memory) -> NotSet {
        NotSet::Failed(memory)
    }
}

/// Sets the layout, which cannot be changed later.
pub(crate) fn set_layout<F: Floor>(
    alloc: Global,
    floor: &mut F,
    rows: &[LayoutRow],
) -> Result<Decision, Fault>
    ensures { Asks F.facts floor.old floor.new result (λ world decision. decision ≡ decided (set_layout world rows.now)) }
{
    if floor.has_layout()? {
        return Ok(refused(alloc, Refusal::LayoutSet));
    }
    match lay(alloc, rows) {
        Ok(decision) => Ok(decision),
        Err(NotSet::Refused(why)) => Ok(refused(alloc, why)),
        Err(NotSet::Failed(memory)) => Err(memory.into()),
    }
}

/// Returns the effect of setting the layout that these rows give.
#[tactic(auto, using(crate::proofs::row_changes::Laying::is_why))]
fn lay(alloc: Global, rows: &[LayoutRow]) -> Result<Decision, NotSet>
    ensures laid { IfOk result (λ decision. decision ≡ decided (lay rows.now)) }
    ensures why { IfErr result (λ why. IsWhy (lay rows.now) why) }
{
    let layout = Layout::of_rows(alloc, rows)?;
    let changes = layout_changes(alloc, &layout)?;
    Ok(made_with(Answer::Done, changes))
}

/// Returns the changes that write the rows of a layout.
fn layout_changes(alloc: Global, layout: &Layout) -> Result<Vec<Change>, Memory>
    ensures { IfOk result (λ changes. changes.items ≡ layout_changes layout.now) }
{
    let rows = layout.rows(alloc)?;
    let mut changes = Vec::new(alloc);
    for row in rows.as_slice() {
        changes.push(row_written(row))?;
    }
    Ok(changes)
}

/// Returns the change that writes the row of a node, an edge or a station.
fn row_written(row: &LayoutRow) -> Change
    ensures { result ≡ row_written row.now }
{
    match row {
        LayoutRow::Node { id } => Change::Node(*id),
        LayoutRow::Edge { id, start, finish } => {
            let (start, finish) = (*start, *finish);
            Change::Edge(*id, EdgeEnds { start, finish })
        }
        LayoutRow::Station { id, node, capacity } => {
            let (node, capacity) = (*node, *capacity);
            Change::Station(*id, StationSite { node, capacity })
        }
    }
}
