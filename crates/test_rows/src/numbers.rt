//! The kinds of case that ask for scalar functions and for the promotion of types.

ghost use Rattle.std.specs.Prelude.{IfOk};
ghost use Rattle.cu_num.specs.Dtype.{InRange};

use crate::findings::{CasePlace, Findings};
use crate::members::{Said, list_of, refuse_others, text_of};
use anyhow::{Result, bail};
use cu_num::{Dtype, Fn1, Fn2, dtype_named, promote, scalar1, scalar2, wrap};
use cu_read::{binary_named, unary_named};
use serde_json::Value;
use std::alloc::Global;

/// Runs rows of a function's name, a type, the arguments and the value, as `["add","int8",127,1,-128]`.
pub fn run_scalars(
    alloc: Global,
    said: &Said<'_>,
    name: &str,
    findings: &mut Findings,
) -> Result<()> {
    refuse_others(said.case, &["name", "rows"])?;
    for (at, row) in said.list("rows")?.iter().enumerate() {
        let (is, must) = scalar_of(row)?;
        let is = format!(in alloc; "{is}")?;
        let must = format!(in alloc; "{must}")?;
        findings.made();
        let place = CasePlace::row(name, at);
        findings.expect(
            &place,
            "the value",
            is.as_str().as_bytes(),
            must.as_str().as_bytes(),
        )?;
    }
    Ok(())
}

/// The value of a row's function, and the one that the row has.
fn scalar_of(row: &Value) -> Result<(i128, i128)> {
    match list_of(row)? {
        [function, dtype, x, want] => {
            let function = function_of_one(text_of(function)?)?;
            let dtype = dtype_of(dtype)?;
            let x = if function == Fn1::Astype {
                integer_of(x)?
            } else {
                element_of(dtype, x)?
            };
            Ok((scalar1(function, dtype, x), integer_of(want)?))
        }
        [function, dtype, x, y, want] => {
            let function = function_of_two(text_of(function)?)?;
            let dtype = dtype_of(dtype)?;
            let x = element_of(dtype, x)?;
            let y = element_of(dtype, y)?;
            Ok((scalar2(function, dtype, x, y), integer_of(want)?))
        }
        _ => bail!("a row has a function, a type, one or two numbers and a value"),
    }
}

/// Runs rows of two types and the type to which they are promoted, or `null`.
pub fn run_promotions(said: &Said<'_>, name: &str, findings: &mut Findings) -> Result<()> {
    refuse_others(said.case, &["name", "rows"])?;
    for (at, row) in said.list("rows")?.iter().enumerate() {
        let [first, second, want] = list_of(row)? else {
            bail!("a row has three types");
        };
        let want = if want.is_null() {
            None
        } else {
            Some(dtype_of(want)?)
        };
        let is = promote(dtype_of(first)?, dtype_of(second)?);
        findings.made();
        findings.expect_so(&CasePlace::row(name, at), is == want)?;
    }
    Ok(())
}

pub(crate) fn dtype_of(value: &Value) -> Result<Dtype> {
    match dtype_named(text_of(value)?) {
        Some(dtype) => Ok(dtype),
        None => bail!("a type is wanted"),
    }
}

fn integer_of(value: &Value) -> Result<i128> {
    match value.as_number() {
        Some(number) => match number.as_i128() {
            Some(integer) => Ok(integer),
            None => bail!("an integer is wanted"),
        },
        None => bail!("a number is wanted"),
    }
}

/// A number of the type.
fn element_of(dtype: Dtype, value: &Value) -> Result<i128>
    ensures { IfOk result (InRange dtype) }
{
    let integer = integer_of(value)?;
    let wrapped = wrap(dtype, integer);
    if wrapped != integer {
        bail!("{integer} is none of the type's numbers");
    }
    Ok(wrapped)
}

/// A function of one argument, by its name in a text; `astype` stands with the new type.
fn function_of_one(name: &str) -> Result<Fn1> {
    if name == "astype" {
        return Ok(Fn1::Astype);
    }
    match unary_named(name) {
        Some(function) => Ok(function),
        None => bail!("{name} is no function of one argument"),
    }
}

/// A function of two arguments, by its name in a text.
fn function_of_two(name: &str) -> Result<Fn2> {
    match binary_named(name) {
        Some(function) => Ok(function),
        None => bail!("{name} is no function of two arguments"),
    }
}
