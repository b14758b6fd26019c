//! Views that are operations of a plan.
ghost use Rattle.std.specs.Prelude.{◌≡◌, ◌<◌, ◌≤◌, ℕ, List, All, IsTrue, length, slice_index};
ghost use Rattle.cu_shape.specs.Index.{IsInside};
ghost use Rattle.cu_grid.specs.Counts.{IsRegion, IsWithin};
ghost use Rattle.cu_origin.specs.Pull.{IsInSources};
ghost use Rattle.cu_origin.specs.declared.provenance.Provenance.TheVariants.{From};
ghost use Rattle.cu_op.specs.Operation.{reads_of, target_of};
ghost use Rattle.cu_op.specs.Kind.Pull.{shapes_at, pulled};
ghost use Rattle.cu_op.specs.Schedule.{op_of};
ghost use Rattle.cu_op.specs.Elements.{Elements};
ghost use Rattle.cu_op.specs.Value.{plan_value};
ghost use Rattle.cu_view_box.specs.Reshape.{MeetsRun};
ghost use Rattle.cu_view.specs.Planned.{IsViewOperation, Reshapes, pull_origin, shape_at};

use crate::origins::origin_of;
use crate::touching::touches_of;
use arrayvec::ArrayVec;
use cu_grid::Region;
use cu_op::{Op, Plan};
use cu_origin::Provenance;
use cu_shape::Dims;

/// From where the element of a view's result at an index comes: a source of the operation and the index in it, or a number. So
/// the result's value at the index is that element's, or the number.
pub fn origin(plan: &Plan, op: u32, idx: &Dims) -> Provenance
    requires operation { op < length plan.now.ops }
    requires pull { IsViewOperation (op_of plan.now op) }
    requires inside { IsInside (shape_at plan.now.arrays (target_of (op_of plan.now op))) idx.now }
    ensures origin { result ≡ pull_origin plan.now.arrays (op_of plan.now op) idx.now }
    ensures inside { IsInSources (shapes_at plan.now.arrays (reads_of (op_of plan.now op))) result }
    ensures value { (env : Elements) → plan_value plan.now env (target_of (op_of plan.now op)) idx.now ≡ pulled (reads_of (op_of plan.now op)) (plan_value plan.now env) result }
{
    match &plan.operation(op).op {
        Op::Pull { pull, ins, out } => {
            let shapes = shapes_of(plan, ins.as_slice());
            let shape = plan.array(*out).layout.grid.shape();
            origin_of(pull, shapes.as_slice(), shape, idx)
        }
        _ => Provenance::Const(0),
    }
}

/// Whether an element of the region `out` of a view's result comes from the region `part` of a source of the operation. Of a reshape
/// it may be true where none does: only where the part has an index between those from which two elements of a run of `out` come, whose
/// elements stand together in row-major order.
pub fn touches(plan: &Plan, op: u32, source: u32, out: &Region, part: &Region) -> bool
    requires operation { op < length plan.now.ops }
    requires pull { IsViewOperation (op_of plan.now op) }
    requires source { source < length (reads_of (op_of plan.now op)) }
    requires out { IsRegion (shape_at plan.now.arrays (target_of (op_of plan.now op))) out.now.lo out.now.hi }
    requires part { IsRegion (shape_at plan.now.arrays (slice_index (reads_of (op_of plan.now op)) source)) part.now.lo part.now.hi }
    ensures some { (idx i : List ℕ) → IsWithin out.now.lo out.now.hi idx → pull_origin plan.now.arrays (op_of plan.now op) idx ≡ From source i
        → IsWithin part.now.lo part.now.hi i → IsTrue result }
    ensures only { ¬ Reshapes (op_of plan.now op) → IsTrue result → (idx : List ℕ) × (i : List ℕ) × IsWithin out.now.lo out.now.hi idx
        × (pull_origin plan.now.arrays (op_of plan.now op) idx ≡ From source i) × IsWithin part.now.lo part.now.hi i }
    ensures rows { Reshapes (op_of plan.now op) → IsTrue result
        → MeetsRun (shape_at plan.now.arrays (slice_index (reads_of (op_of plan.now op)) source)) (shape_at plan.now.arrays (target_of (op_of plan.now op))) out.now part.now }
{
    match &plan.operation(op).op {
        Op::Pull {
            pull,
            ins,
            out: made,
        } => {
            let shapes = shapes_of(plan, ins.as_slice());
            let shape = plan.array(*made).layout.grid.shape();
            touches_of(pull, shapes.as_slice(), shape, source, out, part)
        }
        _ => false,
    }
}

/// The shapes of arrays of a plan.
fn shapes_of(plan: &Plan, numbers: &[u32]) -> ArrayVec<Dims, 8>
    requires few { length numbers.now ≤ 8 }
    requires within { All (λ a. a < length plan.now.arrays) numbers.now }
    ensures { result.items ≡ shapes_at plan.now.arrays numbers.now }
{
    let mut shapes = ArrayVec::new();
    for number in numbers {
        shapes.push(*plan.array(*number).layout.grid.shape());
    }
    shapes
}
