//! The text that says what a plan does.

ghost use Rattle.std.specs.Prelude.{◌≡◌, ◌<◌, ◌++◌, codes, length, OnOk, IfOk};
ghost use Rattle.std.specs.Fmt.{decimal};
ghost use Rattle.cu_op.specs.KindText.{kind_text};
ghost use Rattle.cu_plan.specs.Text.{begun_line, begun_text, comma_text, fields_of};
ghost use Rattle.cu_plan.specs.Text.{operation_line, plan_line, plan_text};

use crate::sources::source_numbers;
use crate::sums::{cell_count, cells_of, listed_count, peak, task_count};
use cu_op::{Op, Plan, is_listed, kind_name, listed_number, tasks};
use cu_store::NoMemory;
use std::alloc::{AllocError, Global};

/// What a plan does: a line `op K KIND node=N tasks=T cells=C projected=P` for each operation whose
/// result is stored, with its number among these, its kind, the number of its node, its tasks, the
/// chunks of the arrays that it writes, and the bytes that a task needs; and then a line
/// `plan ops=N tasks=T cells=C peak=P`, with the sums and the most bytes that a task needs.
pub fn plan_text(alloc: Global, plan: &Plan) -> Result<Vec<u8>, NoMemory>
    ensures { IfOk result (λ text. text.items ≡ plan_text plan.now) }
{
    text_of(alloc, plan).map_err(|_| NoMemory)
}

fn text_of(alloc: Global, plan: &Plan) -> Result<Vec<u8>, AllocError>
    ensures { IfOk result (λ text. text.items ≡ plan_text plan.now) }
{
    let mut text = Vec::new(alloc);
    for op in 0..plan.ops().len() as u32 {
        if is_listed(plan, op) {
            push_operation(&mut text, plan, op)?;
        }
    }
    push_plan(&mut text, plan)?;
    Ok(text)
}

/// What a plan that has begun does: the lines of `plan_text`, where that of an operation ends in
/// ` reads=J,..`, the numbers of the operations that it waits for.
pub fn begun_text(alloc: Global, plan: &Plan) -> Result<Vec<u8>, NoMemory>
    ensures { IfOk result (λ text. text.items ≡ begun_text plan.now) }
{
    begun_lines(alloc, plan).map_err(|_| NoMemory)
}

fn begun_lines(alloc: Global, plan: &Plan) -> Result<Vec<u8>, AllocError>
    ensures { IfOk result (λ text. text.items ≡ begun_text plan.now) }
{
    let mut text = Vec::new(alloc);
    for op in 0..plan.ops().len() as u32 {
        if is_listed(plan, op) {
            push_begun(alloc, &mut text, plan, op)?;
        }
    }
    push_plan(&mut text, plan)?;
    Ok(text)
}

/// Appends the line of an operation.
fn push_operation(text: &mut Vec<u8>, plan: &Plan, op: u32) -> Result<(), AllocError>
    requires { op < length plan.now.ops }
    ensures { OnOk result (text.new.items ≡ text.old.items ++ operation_line plan.now op) }
{
    push_fields(text, plan, op)?;
    text.extend_from_slice(b"\n")
}

/// Appends the line of an operation that also says what it waits for.
fn push_begun(alloc: Global, text: &mut Vec<u8>, plan: &Plan, op: u32) -> Result<(), AllocError>
    requires { op < length plan.now.ops }
    ensures { OnOk result (text.new.items ≡ text.old.items ++ begun_line plan.now op) }
{
    push_fields(text, plan, op)?;
    text.extend_from_slice(b" reads=")?;
    let numbers = source_numbers(alloc, plan, op)?;
    push_numbers(text, &numbers)?;
    text.extend_from_slice(b"\n")
}

/// Appends numbers, with a comma between each two.
fn push_numbers(text: &mut Vec<u8>, numbers: &[u32]) -> Result<(), AllocError>
    ensures { OnOk result (text.new.items ≡ text.old.items ++ comma_text numbers.now) }
{
    let [first, rest @ ..] = numbers else {
        return Ok(());
    };
    push_field(text, "", u64::from(*first))?;
    for number in rest {
        push_field(text, ",", u64::from(*number))?;
    }
    Ok(())
}

/// Appends what a line says of an operation.
#[tactic(auto, unfolding(crate::specs::Text::operation_fields))]
fn push_fields(text: &mut Vec<u8>, plan: &Plan, op: u32) -> Result<(), AllocError>
    requires { op < length plan.now.ops }
    ensures { OnOk result (text.new.items ≡ text.old.items ++ fields_of plan.now op) }
{
    let planned = plan.operation(op);
    push_field(text, "op ", u64::from(listed_number(plan, op)))?;
    push_kind(text, &planned.op)?;
    push_field(text, " node=", u64::from(planned.node))?;
    push_field(text, " tasks=", u64::from(tasks(plan, op)))?;
    push_field(text, " cells=", cells_of(plan.arrays(), &planned.op))?;
    push_field(text, " projected=", planned.projected)
}

/// Appends the line of the whole plan.
#[tactic(auto, unfolding(crate::specs::Text::plan_line))]
fn push_plan(text: &mut Vec<u8>, plan: &Plan) -> Result<(), AllocError>
    ensures { OnOk result (text.new.items ≡ text.old.items ++ plan_line plan.now) }
{
    push_field(text, "plan ops=", listed_count(plan))?;
    push_field(text, " tasks=", task_count(plan))?;
    push_field(text, " cells=", cell_count(plan))?;
    push_field(text, " peak=", peak(plan))?;
    text.extend_from_slice(b"\n")?;
    Ok(())
}

/// Appends a space and the name of an operation's kind.
fn push_kind(text: &mut Vec<u8>, op: &Op) -> Result<(), AllocError>
    ensures { OnOk result (text.new.items ≡ text.old.items ++ codes " " ++ kind_text op.now) }
{
    let name = kind_name(op);
    text.extend_from_slice(b" ")?;
    text.extend_from_slice(name.as_bytes())
}

/// Appends a label and a number.
fn push_field(text: &mut Vec<u8>, label: &str, number: u64) -> Result<(), AllocError>
    ensures { OnOk result (text.new.items ≡ text.old.items ++ label.now ++ decimal number) }
{
    let mut digits = itoa::Buffer::new();
    text.extend_from_slice(label.as_bytes())?;
    text.extend_from_slice(digits.format(number).as_bytes())
}
