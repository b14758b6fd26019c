//! The chunks in which a node's operations want its arguments, and the copies that give them.

ghost use Rattle.std.specs.Prelude.{◌≡◌, ◌≤◌, ◌∷◌, [], true, filter, length};
ghost use Rattle.cu_form.specs.Form.{takes_args};
ghost use Rattle.cu_copy.specs.Copies.{is_misaligned};
ghost use Rattle.cu_need.specs.Operands.{operands_of, copies_of};

use crate::cost::wanted_of;
use arrayvec::ArrayVec;
use cu_copy::Rechunk;
use cu_form::Form;
use cu_node::NodeInfo;

/// The arrays that the operations of the node with this number read in chunks that they tell, in order.
pub fn operands_of(infos: &[NodeInfo], number: u32, form: &Form) -> ArrayVec<Rechunk, 3>
    requires { takes_args form.now ≡ true }
    ensures operands { result.items ≡ operands_of infos.now number form.now }
    ensures few { length result.items ≤ 3 }
{
    wanted_of(infos, number, false, form).operands
}

/// Those of them that have other chunks.
fn misaligned(operands: &[Rechunk]) -> ArrayVec<Rechunk, 3>
    requires { length operands.now ≤ 3 }
    ensures copies { result.items ≡ filter is_misaligned operands.now }
    ensures few { length result.items ≤ 3 }
{
    let mut copies = ArrayVec::new();
    for rechunk in operands {
        if rechunk.is_misaligned() {
            copies.push(*rechunk);
        }
    }
    copies
}

/// One copy.
fn one_copy(copy: Rechunk) -> ArrayVec<Rechunk, 3>
    ensures { result.items ≡ copy ∷ [] }
{
    let mut copies = ArrayVec::new();
    copies.push(copy);
    copies
}

/// The arrays that are copied for the node with this number, in order, where node `out` is stored: the argument of a rechunk, an input that
/// is itself stored, and the operands of any other node that have other chunks than it wants.
pub fn copies_of(infos: &[NodeInfo], out: u32, number: u32, form: &Form) -> ArrayVec<Rechunk, 3>
    requires { takes_args form.now ≡ true }
    ensures copies { result.items ≡ copies_of infos.now out number form.now }
    ensures few { length result.items ≤ 3 }
{
    let wanted = wanted_of(infos, number, number == out, form);
    match wanted.copied {
        Some(copy) => one_copy(copy),
        None => misaligned(wanted.operands.as_slice()),
    }
}
