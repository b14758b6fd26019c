ghost use Rattle.std.specs.Prelude.{◌≡◌, ◌<◌, length, IfOk};
ghost use Rattle.cu_op.specs.Arrays.{array_at};
ghost use Rattle.cu_op.specs.PlanView.{PlanView, operation_at};
ghost use Rattle.cu_op.specs.Sound.{Sound, IsOperation};

use crate::copies::same_operations;
use crate::layout::ArrayInfo;
use crate::operation::Planned;
use cu_store::NoMemory;
use std::alloc::{AllocError, Global};
use std::marker::Model;

/// A plan: the arrays and the operations that make them, in the order in which they can run.
/// It is sound: each operation reads what is given or made before it and fits its arrays, each chunk of a made array is
/// written by one task, and the numbers lie within the limits.
#[derive(Drop)]
pub struct Plan {
    arrays: Vec<ArrayInfo>,
    ops: Vec<Planned>,
    out: u32,
    allowed: u64,
    reserved: u64,
}

impl Model for Plan {
    ghost use Rattle.cu_op.specs.PlanView.{PlanView};
    ghost use Rattle.cu_op.specs.Sound.{Sound};

    ghost Value = { PlanView };

    ghost view = { λ p. record { arrays = p.arrays.items; ops = p.ops.items; out = p.out; allowed = p.allowed; reserved = p.reserved } };

    ghost invariant = { λ p. Sound (record { arrays = p.arrays.items; ops = p.ops.items; out = p.out; allowed = p.allowed; reserved = p.reserved }) };
}

impl Plan {
    /// The plan of these arrays and operations, whose array `out` is the result. Of the memory of `allowed` bytes a worker
    /// keeps `reserved` for itself.
    pub fn make(
        arrays: Vec<ArrayInfo>,
        ops: Vec<Planned>,
        out: u32,
        allowed: u64,
        reserved: u64,
    ) -> Plan
        requires { Sound (record { arrays = arrays.items; ops = ops.items; out = out; allowed = allowed; reserved = reserved }) }
        ensures plan { result ≡ record { arrays = arrays.items; ops = ops.items; out = out; allowed = allowed; reserved = reserved } }
        ensures sound { Sound result }
    {
        Plan {
            arrays,
            ops,
            out,
            allowed,
            reserved,
        }
    }

    /// The arrays and the operations.
    pub fn parts(self) -> (Vec<ArrayInfo>, Vec<Planned>)
        ensures arrays { result.0.items ≡ self.arrays }
        ensures ops { result.1.items ≡ self.ops }
    {
        let Plan {
            arrays,
            ops,
            out: _,
            allowed: _,
            reserved: _,
        } = self;
        (arrays, ops)
    }

    /// An equal plan.
    pub fn copy(&self, alloc: Global) -> Result<Plan, NoMemory>
        ensures { IfOk result (λ p. p ≡ self.now) }
    {
        match (
            same_arrays(alloc, &self.arrays),
            same_operations(alloc, &self.ops),
        ) {
            (Ok(arrays), Ok(ops)) => Ok(Plan {
                arrays,
                ops,
                out: self.out,
                allowed: self.allowed,
                reserved: self.reserved,
            }),
            _ => Err(NoMemory),
        }
    }

    /// The arrays, by their numbers.
    pub fn arrays(&self) -> &[ArrayInfo]
        ensures arrays { result.now ≡ self.now.arrays }
        ensures sound { Sound self.now }
    {
        &self.arrays
    }

    /// The operations, by their numbers.
    pub fn ops(&self) -> &[Planned]
        ensures ops { result.now ≡ self.now.ops }
        ensures sound { Sound self.now }
    {
        &self.ops
    }

    /// The number of the array that is the result.
    pub fn out(&self) -> u32
        ensures out { result ≡ self.now.out }
        ensures within { result < length self.now.arrays }
        ensures sound { Sound self.now }
    {
        self.out
    }

    /// The bytes of memory that a worker may use.
    pub fn allowed(&self) -> u64
        ensures { result ≡ self.now.allowed }
    {
        self.allowed
    }

    /// The bytes of them that a worker keeps for itself.
    pub fn reserved(&self) -> u64
        ensures { result ≡ self.now.reserved }
    {
        self.reserved
    }

    /// An array by its number.
    pub fn array(&self, number: u32) -> &ArrayInfo
        requires { number < length self.now.arrays }
        ensures array { result.now ≡ array_at self.now.arrays number }
        ensures sound { Sound self.now }
    {
        &self.arrays[number as usize]
    }

    /// An operation by its number.
    pub fn operation(&self, number: u32) -> &Planned
        requires { number < length self.now.ops }
        ensures operation { result.now ≡ operation_at self.now.ops number }
        ensures fits { IsOperation self.now.arrays number result.now.op }
        ensures sound { Sound self.now }
    {
        &self.ops[number as usize]
    }
}

/// The same arrays.
fn same_arrays(alloc: Global, arrays: &[ArrayInfo]) -> Result<Vec<ArrayInfo>, AllocError>
    ensures { IfOk result (λ v. v.items ≡ arrays.now) }
{
    let mut same = Vec::new(alloc);
    same.extend_from_slice(arrays)?;
    Ok(same)
}
