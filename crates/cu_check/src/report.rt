//! The line that says that the elements are equal.
ghost use Rattle.std.specs.Prelude.{◌≡◌, ◌≤◌, ℕ, length, OnOk, OnErr};
ghost use Rattle.cu_shape.specs.Index.{product};
ghost use Rattle.cu_store.specs.Faults.{Rose};
ghost use Rattle.cu_command.specs.Streams.{WroteFront};
ghost use Rattle.cu_check.specs.Check.{equal_line};

use cu_command::{LineText, push_field, write_all};
use cu_expr::InputInfo;
use cu_store::{Failed, Sink};

/// The line `equal N`, where N counts the output's elements.
fn equal_text(output: &InputInfo, count: u64) -> LineText
    requires { count ≡ product output.now.layout.grid.shape }
    ensures { result.bytes ≡ equal_line output.now }
{
    let mut line = LineText::new();
    push_field(&mut line, "equal ", count);
    line.push_str("\n");
    line
}

/// Writes the line.
pub(crate) fn report<W: Sink>(out: &mut W, output: &InputInfo, count: u64) -> Result<(), Failed>
    requires { count ≡ product output.now.layout.grid.shape }
    ensures all { OnOk result (WroteFront (W.written out.old) (W.written out.new) (equal_line output.now) (length (equal_line output.now))) }
    ensures front { OnErr result ((n : ℕ) × (n ≤ length (equal_line output.now)) × WroteFront (W.written out.old) (W.written out.new) (equal_line output.now) n) }
    ensures cause { OnErr result (Rose 1 (W.faults out.old) (W.faults out.new)) }
{
    let line = equal_text(output, count);
    write_all(out, line.as_bytes())
}
