//! The kind of case that types an expression over its inputs.
ghost use Rattle.std.specs.Prelude.{◌≤◌, All, IfOk, length};
ghost use Rattle.cu_expr.specs.Premises.{HasGrid, HaveGrids};
ghost use Rattle.cu_op.specs.Layout.{IsLayout};

use crate::bytes::NamedTexts;
use crate::findings::{CasePlace, Findings};
use crate::members::{Said, list_of, refuse_others, text_of};
use crate::numbers::dtype_of;
use crate::shapes::sizes_of;
use anyhow::{Result, bail};
use cu_expr::{InputInfo, TypeRefused, Types, type_of, typing_law};
use cu_grid::Grid;
use cu_name::IdText;
use cu_num::{Dtype, Encoding, Endian, Sep, size, type_name};
use cu_op::Layout;
use cu_read::{ReadRefused, read_expr};
use cu_shape::Dims;
use serde_json::Value;
use std::alloc::Global;
use std::fmt::Write;

/// Types the expression `expr` of a case over its `inputs`, each of them a name, a type, a shape and a chunk shape. The nodes must
/// be of the `types`, each of them a type, a shape and a chunk shape, or the answer be the fault `refused`: a code, the number of
/// a node, and a place.
pub fn run_typing(
    texts: &NamedTexts<'_>,
    said: &Said<'_>,
    name: &str,
    findings: &mut Findings,
) -> Result<()> {
    refuse_others(said.case, &["name", "inputs", "expr", "types", "refused"])?;
    let Some(expr) = said.member("expr") else {
        bail!("an expression is wanted");
    };
    let must = match (said.member("types"), said.member("refused")) {
        (Some(answer), None) | (None, Some(answer)) => answer.to_vec(texts.alloc)?,
        _ => bail!("either types or a fault are wanted"),
    };
    let inputs = inputs_of(texts.alloc, said.list("inputs")?)?;
    let is = answer_to(texts.alloc, &texts.bytes(expr)?, &inputs)?;
    findings.made();
    findings.expect(&CasePlace::row(name, 0), "the answer", is.as_bytes(), &must)
}

/// The inputs of a list.
pub(crate) fn inputs_of(alloc: Global, list: &[Value]) -> Result<Vec<InputInfo>>
    ensures grids { IfOk result (λ inputs. HaveGrids inputs.items) }
    ensures layouts { IfOk result (λ inputs. All (λ i. IsLayout i.layout) inputs.items) }
{
    let mut inputs = Vec::new(alloc);
    for value in list {
        inputs.push(input_of(value)?)?;
    }
    Ok(inputs)
}

/// An input, from its name, type, shape and chunk shape.
fn input_of(value: &Value) -> Result<InputInfo>
    ensures grid { IfOk result (λ input. HasGrid input.layout) }
    ensures fill { IfOk result (λ input. IsLayout input.layout) }
{
    let [name, dtype, shape, chunk] = list_of(value)? else {
        bail!("an input has a name, a type, a shape and a chunk shape");
    };
    let Some(name) = IdText::make(text_of(name)?) else {
        bail!("a name of an input is too long");
    };
    let layout = layout_of(dtype_of(dtype)?, sizes_of(shape)?, sizes_of(chunk)?)?;
    Ok(InputInfo { name, layout })
}

/// A layout of this type, shape and chunk shape. What else it says has no part in typing.
fn layout_of(dtype: Dtype, shape: Dims, chunk: Dims) -> Result<Layout>
    ensures grid { IfOk result HasGrid }
    ensures fill { IfOk result IsLayout }
{
    let _short = shape.rank();
    let Ok(grid) = Grid::make(shape, chunk, size(dtype)) else {
        bail!("an input has no grid");
    };
    Ok(Layout {
        dtype,
        grid,
        encoding: Encoding::Plain(Sep::Slash),
        endian: Endian::Little,
        fill: 0,
    })
}

/// What typing answers, as the text of a list: a list of a type, a shape and a chunk shape for each node, or the code, the number
/// of the node and the place of the first fault.
fn answer_to(alloc: Global, text: &[u8], inputs: &[InputInfo]) -> Result<String>
    requires { HaveGrids inputs.now }
{
    let expr = match read_expr(alloc, text) {
        Ok(expr) => expr,
        Err(ReadRefused::Fault(fault)) => bail!("no expression: {} {}", fault.code, fault.node),
        Err(ReadRefused::NoMemory) => bail!("no memory"),
    };
    match type_of(alloc, &expr, inputs) {
        Ok(types) => {
            typing_law();
            types_text(alloc, &types, expr.nodes().len())
        }
        Err(TypeRefused::Fault(fault)) => {
            Ok(format!(in alloc; "[{},{},{}]", fault.code, fault.node, fault.place)?)
        }
        Err(TypeRefused::NoMemory) => bail!("no memory"),
    }
}

/// The types of so many nodes, as the text of a list.
fn types_text(alloc: Global, types: &Types, count: usize) -> Result<String>
    requires there { count ≤ length types.now }
    requires few { count ≤ 256 }
{
    let mut text = String::new(alloc);
    for number in 0..count {
        let info = types.at(number as u32);
        let before = if number == 0 { "[" } else { "," };
        write!(text, "{before}[\"{}\",", type_name(info.dtype))?;
        write_sizes(&mut text, &info.dims)?;
        write!(text, ",")?;
        write_sizes(&mut text, &info.chunk)?;
        write!(text, "]")?;
    }
    write!(text, "]")?;
    Ok(text)
}

/// Writes sizes as a list.
fn write_sizes(text: &mut String, sizes: &Dims) -> Result<()> {
    write!(text, "[")?;
    for axis in 0..sizes.rank() {
        let before = if axis == 0 { "" } else { "," };
        write!(text, "{before}{}", sizes.at(axis))?;
    }
    write!(text, "]")?;
    Ok(())
}
