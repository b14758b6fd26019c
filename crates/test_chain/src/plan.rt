//! A plan of one sum, y = a + b, and one of two, of which the second reads what the first makes, y = (a + b) + b, over six int32 numbers
//! in chunks of four.
ghost use Rattle.std.specs.Prelude.{◌≡◌, IfOk};
ghost use Rattle.cu_num.specs.declared.types.Dtype.TheVariants.{Int32 as Numbers};
ghost use Rattle.cu_op.specs.OneMap.{addition_of};
ghost use Rattle.cu_op.specs.Sound.{Sound};
ghost use Rattle.test_chain.specs.Chain.{six_in_fours, array_under, addition_plan};

use anyhow::{Result, bail};
use arrayvec::ArrayVec;
use cu_grid::Grid;
use cu_num::{Dtype, Encoding, Endian, Fn2, Sep, promotion_law};
use cu_op::{ArrayInfo, Instr, Kernel, Layout, Op, Plan, Planned};
use cu_shape::Dims;
use cu_store::Key;
use std::alloc::Global;

/// The bytes that a task of a sum needs: a scratch chunk, one of each input and of the result, and 512 for each of three instructions.
const ROOM: u64 = 1600;

/// The key with this text.
pub(crate) fn key(text: &str) -> Result<Key>
    ensures { IfOk result (λ key. key ≡ text.now) }
{
    match Key::make(text) {
        Some(key) => Ok(key),
        None => bail!("a key is too long"),
    }
}

/// Six numbers in chunks of four.
fn grid() -> Result<Grid>
    ensures { IfOk result (λ grid. grid ≡ six_in_fours) }
{
    let (Ok(shape), Ok(chunk)) = (Dims::make(&[6]), Dims::make(&[4])) else {
        bail!("too many axes");
    };
    match Grid::make(shape, chunk, 4) {
        Ok(grid) => Ok(grid),
        Err(_) => bail!("no grid"),
    }
}

/// An array of the plan.
fn array(prefix: Key, grid: Grid, maker: Option<u32>) -> ArrayInfo
    requires { grid ≡ six_in_fours }
    ensures { result ≡ array_under prefix maker }
{
    ArrayInfo {
        prefix,
        layout: Layout {
            dtype: Dtype::Int32,
            grid,
            encoding: Encoding::Plain(Sep::Slash),
            endian: Endian::Little,
            fill: 0,
        },
        maker,
        inlined: false,
    }
}

/// The sum of two arrays.
fn sum(first: u32, second: u32, out: u32) -> Op
    ensures { result ≡ addition_of Numbers first second out }
{
    let mut code = ArrayVec::new();
    code.push(Instr::Load(0));
    code.push(Instr::Load(1));
    code.push(Instr::Two(Fn2::Add, Dtype::Int32, 0, 1));
    let mut ins = ArrayVec::new();
    ins.push(first);
    ins.push(second);
    Op::Map {
        kernel: Kernel { code },
        ins,
        out,
    }
}

/// The plan of one sum.
pub(crate) fn addition(alloc: Global) -> Result<Plan>
    ensures plan { IfOk result (λ plan. plan ≡ addition_plan) }
    ensures sound { IfOk result Sound }
{
    let grid = grid()?;
    let left = array(key("a")?, grid, None);
    let right = array(key("b")?, grid, None);
    let made = array(key("y")?, grid, Some(0));
    let arrays = vec![in alloc; left, right, made]?;
    let only = Planned {
        op: sum(0, 1, 2),
        node: 2,
        projected: ROOM,
    };
    let ops = vec![in alloc; only]?;
    promotion_law();
    Ok(Plan::make(arrays, ops, 2, ROOM, 0))
}

/// The plan of two sums.
pub(crate) fn chain(alloc: Global) -> Result<Plan> {
    let grid = grid()?;
    let left = array(key("a")?, grid, None);
    let right = array(key("b")?, grid, None);
    let middle = array(key("_cubed/y/0")?, grid, Some(0));
    let last = array(key("y")?, grid, Some(1));
    let arrays = vec![in alloc; left, right, middle, last]?;
    let first = Planned {
        op: sum(0, 1, 2),
        node: 0,
        projected: ROOM,
    };
    let second = Planned {
        op: sum(2, 1, 3),
        node: 1,
        projected: ROOM,
    };
    let ops = vec![in alloc; first, second]?;
    promotion_law();
    Ok(Plan::make(arrays, ops, 3, ROOM, 0))
}
