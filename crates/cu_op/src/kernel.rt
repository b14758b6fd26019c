use arrayvec::ArrayVec;
use cu_num::{Dtype, Fn1, Fn2};

/// One step of a kernel. It names earlier steps by number; the value of the last is the kernel's.
#[derive(Clone, Copy)]
pub enum Instr {
    /// The element of an input, by the input's place in the operation's list.
    Load(u32),
    /// A literal.
    Const(i128),
    /// A function of one earlier step. The type is the argument's; of `Astype` it is the new one.
    One(Fn1, Dtype, u32),
    /// A function of two earlier steps. The type is that to which the arguments are promoted.
    Two(Fn2, Dtype, u32, u32),
    /// Where the first step is 1 the second, else the third.
    Select(u32, u32, u32),
}

impl Default for Instr {
    ghost use Rattle.std.specs.Prelude.{◌≡◌};
    ghost use Rattle.cu_op.specs.declared.kernel.Instr.TheVariants.{Load};

    ghost is_default = { λ i. i ≡ Load 0 };

    fn default() -> Instr {
        Instr::Load(0)
    }
}

/// What a map computes for each element of its result: at most 32 steps.
#[derive(Drop)]
pub struct Kernel {
    /// The steps, in order.
    pub code: ArrayVec<Instr, 32>,
}
