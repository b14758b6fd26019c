//! What a node costs by its form. A later form is a row of each table.

ghost use Rattle.std.specs.Prelude.{◌≡◌, ◌≤◌, ◌^◌, ◌∷◌, [], true, All, filter, length};
ghost use Rattle.cu_form.specs.Form.{takes_args};
ghost use Rattle.cu_node.specs.Info.{IsInfo};
ghost use Rattle.cu_copy.specs.Copies.{IsRechunk, in_chunks, is_misaligned};
ghost use Rattle.cu_tree.specs.Outlines.{outline_arrays, outline_bytes, plain};
ghost use Rattle.cu_tree.specs.Partials.{IsMiddle};
ghost use Rattle.cu_need.specs.Need.{ArePartialsWithin};
ghost use Rattle.cu_need.specs.Operands.{copies_when, operands_of, own_copy_or};
ghost use Rattle.cu_need.specs.Outline.{outline_of};
ghost use Rattle.cu_need.specs.View.{is_view};

use crate::along::{labels_wanted, sum_axis};
use crate::elementwise::{function_bytes, push_aligned};
use crate::reduction::{array_of, axes_reduced, axes_sought, left_wanted, right_wanted};
use crate::view::view_bytes;
use arrayvec::ArrayVec;
use cu_copy::{Rechunk, chunk_bytes, rechunked, wanted_bytes};
use cu_form::Form;
use cu_node::{NodeInfo, info_at, info_law};
use cu_tree::{
    Outline, Outlined, cumulative_outline, product_outline, reduction_outline, search_outline,
};

/// Whether the form is a view, or an array that is made from nothing. The same elements in other chunks are a copy, and no view.
pub fn is_view(form: &Form) -> bool
    ensures { result ≡ is_view form.now }
{
    match form {
        Form::Input { .. }
        | Form::Rechunk { .. }
        | Form::Elementwise { .. }
        | Form::Reduce { .. }
        | Form::ArgPlace { .. }
        | Form::Matmul { .. }
        | Form::CumulativeSum { .. }
        | Form::GroupBy { .. } => false,
        _ => true,
    }
}

/// What a node wants of its arguments.
#[derive(Drop)]
pub(crate) struct Wanted {
    /// The arrays that its operations read in chunks that they tell, in order.
    pub operands: ArrayVec<Rechunk, 3>,
    /// The copy that the node itself is; where there is none, its operands are copied that have other chunks.
    pub copied: Option<Rechunk>,
}

/// An array in its own chunks.
fn in_own_chunks(source: NodeInfo) -> Rechunk
    ensures { result ≡ in_chunks source source.chunk }
{
    Rechunk {
        source,
        chunk: source.chunk,
    }
}

/// What the node with this number, which is itself stored or isn't, wants of its arguments.
pub(crate) fn wanted_of(infos: &[NodeInfo], number: u32, stored: bool, form: &Form) -> Wanted
    requires { takes_args form.now ≡ true }
    ensures operands { result.operands.items ≡ operands_of infos.now number form.now }
    ensures copies { own_copy_or result.copied (filter is_misaligned result.operands.items) ≡ copies_when stored infos.now number form.now }
    ensures few { length result.operands.items ≤ 3 }
{
    let made = info_at(infos, number);
    let mut operands = ArrayVec::new();
    let mut copied = None;
    match form {
        Form::Input { .. } if stored => copied = Some(in_own_chunks(made)),
        Form::Rechunk { args, .. } => copied = Some(Rechunk {
            source: array_of(infos, args.as_slice(), 0),
            chunk: made.chunk,
        }),
        Form::Elementwise { args, .. } => push_aligned(
            &mut operands,
            &made,
            infos,
            args.as_slice(),
        ),
        Form::Matmul { args } => {
            let left = array_of(infos, args.as_slice(), 0);
            let right = array_of(infos, args.as_slice(), 1);
            operands.push(left_wanted(&made, &left, &right));
            operands.push(right_wanted(&made, &left, &right));
        }
        Form::GroupBy { args, axis, .. } => {
            let source = array_of(infos, args.as_slice(), 0);
            let labels = array_of(infos, args.as_slice(), 1);
            operands.push(in_own_chunks(source));
            operands.push(labels_wanted(&source, *axis, &labels));
        }
        _ => {}
    }
    Wanted { operands, copied }
}

/// One operation, with one array.
fn alone(made: &NodeInfo, bytes: u64) -> Outline
    requires made { IsInfo made.now }
    requires small { bytes ≤ 2 ^ 62 }
    ensures outline { result.items ≡ plain made.now bytes ∷ [] }
    ensures kept { All IsMiddle (outline_arrays result.items) }
    ensures light { outline_bytes result.items ≤ 2 ^ 62 }
{
    let mut outline = ArrayVec::new();
    outline.push(Outlined {
        values: None,
        made: *made,
        bytes,
    });
    outline
}

/// The outline of the node with this number besides copies, where a task merges `split_every` partial results.
pub(crate) fn outline_of(split_every: u32, infos: &[NodeInfo], number: u32, form: &Form) -> Outline
    requires several { 2 ≤ split_every }
    requires args { takes_args form.now ≡ true }
    requires infos { All IsInfo infos.now }
    requires partials { ArePartialsWithin infos.now number form.now }
    requires operands { All IsRechunk (operands_of infos.now number form.now) }
    ensures outline { result.items ≡ outline_of split_every infos.now number form.now }
    ensures kept { All IsMiddle (outline_arrays result.items) }
    ensures few { length result.items ≤ 33 }
    ensures light { outline_bytes result.items ≤ 2 ^ 62 }
{
    info_law();
    let made = info_at(infos, number);
    match form {
        Form::Elementwise { op, args } => {
            alone(&made, function_bytes(&made, infos, *op, args.as_slice()))
        }
        Form::Reduce { args, axes, .. } => {
            let source = array_of(infos, args.as_slice(), 0);
            let axes = axes_reduced(&source, axes);
            reduction_outline(split_every, &made, &source, axes)
        }
        Form::ArgPlace { args, axis, .. } => {
            let source = array_of(infos, args.as_slice(), 0);
            let axes = axes_sought(&source, *axis);
            search_outline(split_every, &made, &source, axes)
        }
        Form::Matmul { args } => {
            let left = array_of(infos, args.as_slice(), 0);
            let right = array_of(infos, args.as_slice(), 1);
            let left_bytes = wanted_bytes(&left_wanted(&made, &left, &right));
            let right_bytes = wanted_bytes(&right_wanted(&made, &left, &right));
            product_outline(split_every, &made, &left, left_bytes, right_bytes)
        }
        Form::CumulativeSum { args, axis } => {
            let source = array_of(infos, args.as_slice(), 0);
            let axis = sum_axis(&source, *axis);
            cumulative_outline(split_every, &made, &source, axis)
        }
        Form::GroupBy { args, axis, .. } => {
            let source = array_of(infos, args.as_slice(), 0);
            let labels = array_of(infos, args.as_slice(), 1);
            let labels = rechunked(&labels_wanted(&source, *axis, &labels));
            let source_bytes = chunk_bytes(&source);
            product_outline(
                split_every,
                &made,
                &labels,
                source_bytes,
                chunk_bytes(&labels),
            )
        }
        Form::Input { .. } | Form::Rechunk { .. } => ArrayVec::new(),
        view => alone(&made, view_bytes(infos, &made, view.args())),
    }
}
