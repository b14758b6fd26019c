ghost use Rattle.std.specs.Prelude.{◌≡◌, ◌<◌, ◌≤◌, All, IfSome, None, length};
ghost use Rattle.cu_grid.specs.Counts.{IsRegion};
ghost use Rattle.cu_op.specs.Arrays.{array_at};
ghost use Rattle.cu_op.specs.Cells.{regions_of, tasks_of, task_grid, task_lo, task_hi};
ghost use Rattle.cu_op.specs.Schedule.{op_of};
ghost use Rattle.cu_op.specs.Sound.{Sound};
ghost use Rattle.cu_op.specs.TaskView.{task_op, walk_at, IsReadAsIs, StandsFor};
ghost use Rattle.cu_op.specs.Walks.{input_walks, IsWalkOver};

use crate::layout::ArrayInfo;
use crate::operation::Op;
use crate::plan::Plan;
use crate::schedule::{inner_region, task_region, walks_from};
use crate::walks::Walk;
use arrayvec::ArrayVec;
use cu_grid::Region;
use std::marker::Model;

/// A task of a plan, or what stands inside one: the plan, the number of an operation, and the
/// number of one of the regions that the operation's tasks go over. The plan has both.
#[derive(Drop)]
pub struct PlanTask<'a> {
    plan: &'a Plan,
    op: u32,
    number: u32,
    /// The indices of the result that it computes.
    region: Region,
    /// Of each array that it reads the region from which it computes.
    walks: ArrayVec<Walk, 8>,
    ghost operation: { op < length plan.now.ops },
    ghost within: { number < regions_of plan.now.arrays (op_of plan.now op) },
}

impl<'a> Model for PlanTask<'a> {
    ghost use Rattle.cu_op.specs.TaskView.{TaskView, HasTaskRegions};

    ghost Value = { TaskView };

    ghost view = { λ t. record { plan = t.plan.now; op = t.op; number = t.number; operation = t.operation; within = t.within } };

    ghost invariant = { λ t. HasTaskRegions t.plan.now t.op t.number t.region t.walks.items };
}

impl<'a> PlanTask<'a> {
    /// Task `number` of operation `op`.
    pub fn make(plan: &'a Plan, op: u32, number: u32) -> PlanTask<'a>
        requires operation { op < length plan.now.ops }
        requires task { number < tasks_of plan.now.arrays (op_of plan.now op) }
        ensures plan { result.plan ≡ plan.now }
        ensures operation { result.op ≡ op }
        ensures number { result.number ≡ number }
    {
        PlanTask::of_region(plan, op, number)
    }

    /// What computes region `number` of operation `op`.
    fn of_region(plan: &'a Plan, op: u32, number: u32) -> PlanTask<'a>
        requires operation { op < length plan.now.ops }
        requires region { number < regions_of plan.now.arrays (op_of plan.now op) }
        ensures plan { result.plan ≡ plan.now }
        ensures operation { result.op ≡ op }
        ensures number { result.number ≡ number }
    {
        let region = task_region(plan, op, number);
        let walks = walks_from(plan, op, number, &region);
        PlanTask {
            plan,
            op,
            number,
            region,
            walks,
        }
    }

    /// The plan.
    pub fn plan(&self) -> &'a Plan
        ensures plan { result.now ≡ self.now.plan }
        ensures sound { Sound self.now.plan }
    {
        self.plan
    }

    /// An array of the plan, by its number.
    pub fn array(&self, number: u32) -> &'a ArrayInfo
        requires { number < length self.now.plan.arrays }
        ensures array { result.now ≡ array_at self.now.plan.arrays number }
        ensures sound { Sound self.now.plan }
    {
        self.plan.array(number)
    }

    /// The operation.
    pub fn operation(&self) -> &'a Op
        ensures operation { result.now ≡ task_op self.now }
        ensures sound { Sound self.now.plan }
    {
        &self.plan.operation(self.op).op
    }

    /// The indices of the result that it computes.
    pub fn region(&self) -> &Region
        ensures lo { result.now.lo ≡ task_lo self.now.plan.arrays (task_op self.now) self.now.number }
        ensures hi { result.now.hi ≡ task_hi self.now.plan.arrays (task_op self.now) self.now.number }
        ensures inside { IsRegion (task_grid self.now.plan.arrays (task_op self.now)).shape result.now.lo result.now.hi }
        ensures sound { Sound self.now.plan }
    {
        &self.region
    }

    /// Of each array that it reads, by its place, the region from which it computes.
    pub fn input_walks(&self) -> &[Walk]
        ensures walks { result.now ≡ input_walks self.now.plan.arrays (task_op self.now) self.now.number }
        ensures regions { All (IsWalkOver self.now.plan.arrays) result.now }
        ensures few { length result.now ≤ 8 }
        ensures sound { Sound self.now.plan }
    {
        &self.walks
    }

    /// Of an array that it reads and that is made where it is read, by its place, what computes
    /// that region of it; none where the array is stored or the region is empty.
    pub fn inner(&self, place: usize) -> Option<PlanTask<'a>>
        requires { place
            < length (input_walks self.now.plan.arrays (task_op self.now) self.now.number) }
        ensures made { IfSome result (λ t. StandsFor self.now (walk_at self.now place) t) }
        ensures none { result ≡ None → IsReadAsIs self.now.plan.arrays (walk_at self.now place) }
        ensures sound { Sound self.now.plan }
    {
        let walk = &self.walks[place];
        if !self.plan.array(walk.array).inlined {
            return None;
        }
        let (op, number) = inner_region(self.plan, walk)?;
        Some(PlanTask::of_region(self.plan, op, number))
    }
}
