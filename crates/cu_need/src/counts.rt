//! The counts of a plan, and their limits.

ghost use Rattle.std.specs.Prelude.{◌≡◌, ◌≤◌, ◌^◌, true, All};
ghost use Rattle.cu_form.specs.Form.{takes_args};
ghost use Rattle.cu_node.specs.Info.{IsInfo};
ghost use Rattle.cu_need.specs.Counts.{form_tasks, form_cells, node_tasks, node_cells, plan_counts, over_limit};
ghost use Rattle.cu_copy.specs.Copies.{IsRechunk};
ghost use Rattle.cu_need.specs.Operands.{operands_of};
ghost use Rattle.cu_need.specs.Need.{ArePartialsWithin, IsNodeWithin, AreWithinLimits};

use crate::copies::copies_counts;
use crate::cost::outline_of;
use crate::live::live_marks;
use crate::operands::copies_of;
use cu_form::{Expr, Form};
use cu_node::NodeInfo;
use cu_tree::{outline_cells, outline_tasks};

/// The most tasks of a plan.
const MOST_TASKS: u64 = 65_536;

/// The most chunks that a plan stores.
const MOST_CELLS: u64 = 262_144;

/// What is counted of a plan in which nothing is merged.
#[derive(Clone, Copy, Debug, PartialEq, Eq)]
pub struct PlanCounts {
    /// The tasks of all operations.
    pub tasks: u64,
    /// The chunks of all arrays that are made.
    pub cells: u64,
}

/// A limit that is exceeded, and the count that exceeds it.
#[derive(Clone, Copy, Debug, PartialEq, Eq)]
pub struct OverLimit {
    /// 1: more than 65,536 tasks; 2: more than 262,144 stored chunks.
    pub which: u8,
    pub count: u64,
}

/// What the node with this number adds to the counts besides copies.
fn own_counts(split_every: u32, infos: &[NodeInfo], number: u32, form: &Form) -> PlanCounts
    requires several { 2 ≤ split_every }
    requires args { takes_args form.now ≡ true }
    requires infos { All IsInfo infos.now }
    requires partials { ArePartialsWithin infos.now number form.now }
    requires operands { All IsRechunk (operands_of infos.now number form.now) }
    ensures tasks { result.tasks ≡ form_tasks split_every infos.now number form.now }
    ensures cells { result.cells ≡ form_cells split_every infos.now number form.now }
    ensures few_tasks { result.tasks ≤ 2 ^ 38 }
    ensures few_cells { result.cells ≤ 2 ^ 39 }
{
    let outline = outline_of(split_every, infos, number, form);
    PlanCounts {
        tasks: outline_tasks(outline.as_slice()),
        cells: outline_cells(outline.as_slice()),
    }
}

/// What the node with this number adds to the counts, where node `out` is stored and a region of a copy has at most `most` bytes.
fn counts_of_node(
    most: u64,
    split_every: u32,
    infos: &[NodeInfo],
    out: u32,
    number: u32,
    form: &Form,
) -> PlanCounts
    requires several { 2 ≤ split_every }
    requires args { takes_args form.now ≡ true }
    requires infos { All IsInfo infos.now }
    requires within { IsNodeWithin infos.now out number form.now }
    ensures tasks { result.tasks ≡ node_tasks most split_every infos.now out number form.now }
    ensures cells { result.cells ≡ node_cells most split_every infos.now out number form.now }
    ensures few_tasks { result.tasks ≤ 2 ^ 44 }
    ensures few_cells { result.cells ≤ 2 ^ 44 }
{
    let copied = copies_counts(most, copies_of(infos, out, number, form).as_slice());
    let own = own_counts(split_every, infos, number, form);
    PlanCounts {
        tasks: copied.tasks + own.tasks,
        cells: copied.cells + own.cells,
    }
}

/// The tasks of the expression's plan in which nothing is merged, and the chunks that they store: the sums over the live nodes. A region of
/// a copy has at most `most` bytes; a copy of a chunk that has more, which a plan doesn't have, counts nothing.
pub fn plan_counts(most: u64, split_every: u32, expr: &Expr, infos: &[NodeInfo]) -> PlanCounts
    requires several { 2 ≤ split_every }
    requires limits { AreWithinLimits expr.now infos.now }
    ensures { result ≡ plan_counts most split_every expr.now infos.now }
{
    let marks = live_marks(expr);
    let nodes = expr.nodes();
    let out = expr.out();
    let mut tasks = 0;
    let mut cells = 0;
    for k in 0..nodes.len() {
        if marks[k] {
            let form = &nodes[k].form;
            let own = counts_of_node(most, split_every, infos, out, k as u32, form);
            tasks += own.tasks;
            cells += own.cells;
        }
    }
    PlanCounts { tasks, cells }
}

impl PlanCounts {
    /// The first limit that is exceeded: that of the tasks, then that of the stored chunks. None where both are kept.
    pub fn over_limit(&self) -> Option<OverLimit>
        ensures { result ≡ over_limit self.now }
    {
        if self.tasks > MOST_TASKS {
            return Some(OverLimit {
                which: 1,
                count: self.tasks,
            });
        }
        if self.cells > MOST_CELLS {
            return Some(OverLimit {
                which: 2,
                count: self.cells,
            });
        }
        None
    }
}
