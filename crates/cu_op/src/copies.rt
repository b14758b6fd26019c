//! Copies of operations.
ghost use Rattle.std.specs.Prelude.{◌≡◌, IfOk};

use crate::kinds::same_op;
use crate::operation::Planned;
use arrayvec::ArrayVec;
use std::alloc::{AllocError, Global};

/// The same list.
pub(crate) fn same_list<T: Copy + Default, const CAP: usize>(
    list: &ArrayVec<T, CAP>,
) -> ArrayVec<T, CAP>
    ensures { result ≡ list.now }
{
    let mut same = ArrayVec::new();
    match same.try_extend_from_slice(list.as_slice()) {
        Ok(()) => same,
        Err(_) => unreachable!(),
    }
}

/// The same operations, in their order.
pub(crate) fn same_operations(alloc: Global, ops: &[Planned]) -> Result<Vec<Planned>, AllocError>
    ensures { IfOk result (λ v. v.items ≡ ops.now) }
{
    let mut same = Vec::with_capacity(alloc, ops.len())?;
    for planned in ops {
        same.push(Planned {
            op: same_op(&planned.op),
            node: planned.node,
            projected: planned.projected,
        })?;
    }
    Ok(same)
}
