//! The report.
ghost use Rattle.std.specs.Prelude.{◌≡◌, ◌≤◌, length, OnOk, OnErr};
ghost use Rattle.cu_store.specs.Faults.{Rose};
ghost use Rattle.cu_command.specs.Streams.{WroteFront};
ghost use Rattle.cu_shape.specs.Index.{product};
ghost use Rattle.cu_load.specs.Load.{WrotePart, load_line};
ghost use Rattle.cu_load.specs.LoadForm.{IsGivenArray, given_by};

use crate::load_form::LoadForm;
use cu_command::{LineText, push_field, write_all};
use cu_store::{Failed, Sink};

/// The elements of the array.
fn element_count(form: &LoadForm) -> u64
    requires { IsGivenArray (given_by form.now) }
    ensures { result ≡ product form.now.layout.grid.shape }
{
    match form.layout.grid.shape().elements() {
        Some(elements) => elements,
        None => unreachable!(),
    }
}

/// The line that reports an array that was stored.
fn report_text(form: &LoadForm) -> LineText
    requires { IsGivenArray (given_by form.now) }
    ensures { result.bytes ≡ load_line (given_by form.now) }
{
    let mut line = LineText::new();
    push_field(&mut line, "ok elements=", element_count(form));
    push_field(&mut line, " chunks=", form.layout.grid.count());
    line.push_str("\n");
    line
}

/// Writes the report.
pub(crate) fn report<W: Sink>(out: &mut W, form: &LoadForm) -> Result<(), Failed>
    requires { IsGivenArray (given_by form.now) }
    ensures all { OnOk result (WroteFront (W.written out.old) (W.written out.new) (load_line (given_by form.now)) (length (load_line (given_by form.now)))) }
    ensures front { OnErr result (WrotePart (given_by form.now) (W.written out.old) (W.written out.new)) }
    ensures cause { OnErr result (Rose 1 (W.faults out.old) (W.faults out.new)) }
    ensures count { W.faults out.old ≤ W.faults out.new }
{
    let line = report_text(form);
    write_all(out, line.as_bytes())
}
