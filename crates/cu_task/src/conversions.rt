//! Maps without a last conversion that changes no number.
ghost use Rattle.std.specs.Prelude.{[], IfSome, IsTrue};
ghost use Rattle.cu_op.specs.KernelTypes.{KernelFits};
ghost use Rattle.cu_kern.specs.Lays.{lay_types};
ghost use Rattle.cu_task.specs.Strips.{GivesSame, GivesType, IsConversion, IsHeldBy, TakesAllTypes};

use arrayvec::ArrayVec;
use cu_kern::Lay;
use cu_num::{Dtype, Fn1, FoldKind, greatest, in_range, least, result1, result2, size};
use cu_op::{Instr, Kernel};

/// A kernel and the type of what it gives.
#[derive(Drop)]
pub(crate) struct TypedKernel {
    pub(crate) kernel: Kernel,
    pub(crate) dtype: Dtype,
}

/// A kernel of type `t` without its last step, where this converts what the step right before it
/// gives to a type that has all its numbers. The elements of its result take no more bytes.
pub(crate) fn unconverted(kernel: &Kernel, lays: &[Lay], t: Dtype) -> Option<TypedKernel>
    requires { KernelFits kernel.now.code.items (lay_types lays.now) [] t }
    ensures { IfSome result (λ s. GivesSame kernel.now.code.items (lay_types lays.now) t s.kernel.code.items s.dtype) }
{
    let code = kernel.code.as_slice();
    if code.len() < 2 {
        return None;
    }
    let before = code.len() - 2;
    let read = converted_by(code[before + 1])?;
    let dtype = type_given(code[before], lays)?;
    if read != before as u32 || !is_held(dtype, t) {
        return None;
    }
    let mut shorter = ArrayVec::new();
    match shorter.try_extend_from_slice(&code[..before + 1]) {
        Ok(()) => Some(TypedKernel {
            kernel: Kernel { code: shorter },
            dtype,
        }),
        Err(_) => None,
    }
}

/// The step that an instruction converts; none where it does anything else.
fn converted_by(instr: Instr) -> Option<u32>
    ensures { IfSome result (λ step. IsConversion instr step) }
{
    match instr {
        Instr::One(Fn1::Astype, _, step) => Some(step),
        _ => None,
    }
}

/// The type of what an instruction gives, where the instruction alone tells it.
fn type_given(instr: Instr, lays: &[Lay]) -> Option<Dtype>
    ensures { IfSome result (λ t. GivesType instr (lay_types lays.now) t) }
{
    match instr {
        Instr::Load(j) if (j as usize) < lays.len() => Some(lays[j as usize].dtype),
        Instr::One(f, t, _) => Some(result1(f, t)),
        Instr::Two(f, t, _, _) => Some(result2(f, t)),
        _ => None,
    }
}

/// Whether a type has all numbers of another, in no fewer bytes.
fn is_held(own: Dtype, t: Dtype) -> bool
    ensures { IsTrue result → IsHeldBy own t }
{
    in_range(t, least(own)) && in_range(t, greatest(own)) && size(own) <= size(t)
}

/// Whether the kind doesn't depend on the type of what it reduces. Least and greatest numbers do.
pub(crate) fn takes_all_types(kind: FoldKind) -> bool
    ensures { IsTrue result → TakesAllTypes kind }
{
    !matches!(kind, FoldKind::Min | FoldKind::Max)
}
