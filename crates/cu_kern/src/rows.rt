//! Rows of bytes, one for each step of a kernel: along a row of places a step leaves its results as elements of its own type.
ghost use Rattle.std.specs.Prelude.{◌≡◌, ℤ, IsTrue, Some};
ghost use Rattle.std.specs.List.{slice_get};
ghost use Rattle.cu_op.specs.declared.kernel.Instr.TheVariants.{Const};

use crate::regions::Inputs;
use cu_num::Dtype;
use cu_op::Instr;

/// What a step loads, as the places of the result read it.
#[derive(Clone, Copy)]
pub(crate) enum RowLoad {
    /// Nothing: the step computes, or it is a literal.
    Nothing,
    /// A region in one piece.
    OnePiece,
    /// A region in pieces of so many places. The type doesn't say that there is one: who divides by them tests it.
    Pieces(u64),
}

/// Where a step's results stand: elements of a type from a byte of the bank on. A step has a row only where one is kept: along places
/// of one piece of a region it is read where it lies, and what no step reads isn't computed.
#[derive(Clone, Copy)]
pub(crate) struct Row {
    pub(crate) dtype: Dtype,
    pub(crate) at: usize,
    pub(crate) kept: bool,
    pub(crate) load: RowLoad,
}

/// The steps of a kernel, their rows, and what they load.
#[derive(Clone, Copy)]
pub(crate) struct RowKernel<'a> {
    pub(crate) code: &'a [Instr],
    pub(crate) rows: &'a [Row],
    pub(crate) inputs: Inputs<'a>,
}

/// Places of a result, in row-major order: `count` from `from` on.
#[derive(Clone, Copy)]
pub struct PlaceRange {
    /// The first of them.
    pub from: u64,
    /// How many they are.
    pub count: usize,
}

/// The bytes of the rows of the first `number` steps, along some places.
#[derive(Clone, Copy)]
pub(crate) struct Earlier<'a> {
    pub(crate) kernel: RowKernel<'a>,
    pub(crate) range: PlaceRange,
    pub(crate) bytes: &'a [u8],
    pub(crate) number: usize,
}

/// A step, and of a number that is no step's a load.
pub(crate) fn step_at(code: &[Instr], a: u32) -> Instr
    ensures { (i : Instr) → slice_get code.now a ≡ Some i → result ≡ i }
{
    if a as usize >= code.len() {
        return Instr::Load(0);
    }
    code[a as usize]
}

/// The type of a step's row, and `Bool` where there is none.
pub(crate) fn kind_at(rows: &[Row], a: u32) -> Dtype {
    if a as usize >= rows.len() {
        return Dtype::Bool;
    }
    rows[a as usize].dtype
}

/// Whether a step is a literal, which has no row.
pub(crate) fn is_literal(instr: Instr) -> bool
    ensures { (y : ℤ) → instr ≡ Const y → IsTrue result }
{
    matches!(instr, Instr::Const(_))
}
