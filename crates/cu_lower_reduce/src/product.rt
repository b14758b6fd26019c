//! The steps of a product of matrices.

ghost use Rattle.std.specs.Prelude.{◌≡◌, ◌≤◌, ◌<◌, Some, slice_get, length};
ghost use Rattle.cu_lower_reduce.specs.Partials.{IsSetting};
ghost use Rattle.cu_lower_reduce.specs.Products.{multiplied, product_steps, IsProduct};

use crate::merges::{bytes_of, merge_step, written_before};
use crate::step::{Setting, Step};
use cu_node::NodeInfo;
use cu_num::FoldKind;
use cu_op::Op;
use cu_tree::{Round, product_bytes, product_partial, product_rounds};

/// A product of two arrays, whose chunks are aligned to one another.
#[derive(Clone, Copy)]
pub struct Product {
    /// The number of the left operand.
    pub left: u32,
    /// The number of the right one.
    pub right: u32,
    /// What is known of the left operand.
    pub left_info: NodeInfo,
    /// What is known of the right one.
    pub right_info: NodeInfo,
    /// What is known of the result.
    pub made: NodeInfo,
}

/// The number of steps of a product.
pub fn product_step_count(s: &Setting, x: &Product) -> u32
    requires setting { IsSetting s.now }
    requires product { IsProduct x.now }
    ensures count { result ≡ length (product_steps s.now x.now) }
    ensures few { result ≤ 25 }
{
    product_rounds(s.split_every, &x.left_info, &x.made).len() as u32 + 1
}

/// A step of a product by its number: first the products over each chunk of the inner axis, and then a merge of them for each round.
pub fn product_step(s: &Setting, x: &Product, at: u32) -> Step
    requires setting { IsSetting s.now }
    requires product { IsProduct x.now }
    requires within { at < length (product_steps s.now x.now) }
    ensures { slice_get (product_steps s.now x.now) at ≡ Some result }
{
    let rounds = product_rounds(s.split_every, &x.left_info, &x.made);
    let partial = product_partial(&x.left_info, &x.made);
    if at == 0 {
        multiply_step(s, x, &partial, rounds.as_slice())
    } else {
        merge_step(
            s,
            FoldKind::Sum,
            &x.made,
            &partial,
            rounds.as_slice(),
            at - 1,
        )
    }
}

/// The first step.
fn multiply_step(s: &Setting, x: &Product, partial: &NodeInfo, rounds: &[Round]) -> Step
    requires setting { IsSetting s.now }
    requires product { IsProduct x.now }
    ensures { slice_get (multiplied s.now x.now partial.now rounds.now) 0 ≡ Some result }
{
    let left = bytes_of(&x.left_info.chunk, x.left_info.dtype);
    let right = bytes_of(&x.right_info.chunk, x.right_info.dtype);
    let made = bytes_of(&x.made.chunk, x.made.dtype);
    Step {
        op: Op::Mul {
            left: x.left,
            right: x.right,
            out: s.first,
        },
        values: None,
        made: written_before(rounds, partial, &x.made),
        need: s.reserved + product_bytes(left, right, made),
    }
}
