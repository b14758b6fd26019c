//! The job of the demonstration: its expression over inputs of a size.
ghost use Rattle.std.specs.Prelude.{◌≡◌, ◌≤◌, IfOk, Ok, Some, string_bytes};
ghost use Rattle.cu_expr.specs.Typing.{typed};
ghost use Rattle.cu_read.specs.Read.{compact_of, expression_of};
ghost use Rattle.cu_demo.specs.Expression.{IsDemoJob, demo_expression, demo_info, demo_inputs};
ghost use Rattle.cu_demo.specs.Expression.{demo_text};

use crate::input::{DemoInput, demo_layout, demo_name};
use cu_command::{Job, JobFault, said_in, types_in};
use cu_expr::{Expr, InputInfo, Types};
use cu_read::ExprText;
use cu_store::NoMemory;
use std::alloc::Global;

/// The text of the expression, with the members of each object in byte order.
const TEXT: &str =
    r#"{"nodes":[{"id":"a","name":"demo_a","op":"input"},{"id":"b","name":"demo_b","op":"input"},{"args":["a","b"],"id":"s","op":"add"},{"args":["s",2],"id":"m","op":"multiply"},{"args":["b"],"axes":[1,0],"id":"p","op":"permute_dims"},{"args":["m","p"],"id":"d","op":"subtract"},{"args":["d"],"axes":[1],"id":"r","op":"sum"},{"args":["r"],"axis":null,"id":"x","op":"argmax"}],"out":"x","store_as":"demo_y"}"#;

/// The text of the expression.
#[tactic(auto, unfolding(crate::specs::Expression::demo_text))]
fn text() -> &'static [u8]
    ensures { result.now ≡ demo_text }
{
    TEXT.as_bytes()
}

/// The one fault that making the job has.
fn memory_fault(fault: JobFault) -> NoMemory
    requires { fault ≡ JobFault.NoMemory }
{
    match fault {
        JobFault::NoMemory => NoMemory,
        _ => unreachable!(),
    }
}

/// The expression of the text.
fn said(alloc: Global) -> Result<ExprText, NoMemory>
    ensures said { IfOk result (λ said. expression_of demo_text ≡ Ok said.expr) }
    ensures compact { IfOk result (λ said. compact_of demo_text ≡ Some (string_bytes said.compact)) }
    ensures expr { IfOk result (λ said. said.expr ≡ demo_expression) }
{
    match said_in(alloc, text()) {
        Ok(said) => Ok(said),
        Err(fault) => Err(memory_fault(fault)),
    }
}

/// What is known of an input of this size.
fn info(input: DemoInput, size: u64) -> InputInfo
    requires some { 1 ≤ size }
    requires few { size ≤ 2048 }
    ensures { result ≡ demo_info input size }
{
    InputInfo {
        name: demo_name(input),
        layout: demo_layout(input, size),
    }
}

/// What is known of both inputs.
fn inputs(alloc: Global, size: u64) -> Result<Vec<InputInfo>, NoMemory>
    requires some { 1 ≤ size }
    requires few { size ≤ 2048 }
    ensures { IfOk result (λ inputs. inputs.items ≡ demo_inputs size) }
{
    let both = [info(DemoInput::Rows, size), info(DemoInput::Columns, size)];
    match Vec::from_array(alloc, both) {
        Ok(inputs) => Ok(inputs),
        Err(_) => Err(NoMemory),
    }
}

/// The types of the nodes over the inputs.
fn types(alloc: Global, size: u64, expr: &Expr, inputs: &[InputInfo]) -> Result<Types, NoMemory>
    requires some { 1 ≤ size }
    requires few { size ≤ 2048 }
    requires expr { expr.now ≡ demo_expression }
    requires inputs { inputs.now ≡ demo_inputs size }
    ensures { IfOk result (λ types. typed (demo_inputs size) expr.now ≡ Ok types) }
{
    match types_in(alloc, expr, inputs) {
        Ok(types) => Ok(types),
        Err(fault) => Err(memory_fault(fault)),
    }
}

/// The expression of the demonstration over inputs of this size, with its types.
pub fn demo_job(alloc: Global, size: u64) -> Result<Job, NoMemory>
    requires some { 1 ≤ size }
    requires few { size ≤ 2048 }
    ensures { IfOk result (IsDemoJob size) }
{
    let ExprText { expr, compact } = said(alloc)?;
    let inputs = inputs(alloc, size)?;
    let types = types(alloc, size, &expr, &inputs)?;
    Ok(Job {
        expr,
        compact,
        inputs,
        types,
    })
}
