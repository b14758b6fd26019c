ghost use Rattle.std.specs.Prelude.{◌≡◌, ℕ, List, IfOk, OnOk, Some, bytes_eq, if◌then◌else◌};
ghost use Rattle.std.specs.HashMap.{get_by_text};
ghost use Rattle.cu_node.specs.Info.{no_info};
ghost use Rattle.cu_op.specs.Arrays.{no_array};
ghost use Rattle.cu_expr.specs.Inputs.{layout_info, named_input, stored_of, layout_named};

use cu_form::Form;
use cu_grid::Grid;
use cu_name::IdText;
use cu_node::{NodeInfo, info_at};
use cu_num::{Dtype, Encoding, Endian, Sep};
use cu_op::Layout;
use cu_shape::Dims;
use std::alloc::{AllocError, Global};
use std::collections::HashMap;

/// An input of an expression: the name that its nodes use, and the metadata of the stored array of that name.
#[derive(Clone, Copy)]
pub struct InputInfo {
    pub name: IdText,
    pub layout: Layout,
}

/// The layout of an array that means nothing: a bool of rank 0.
fn no_layout() -> Layout
    ensures { result ≡ no_array.layout }
{
    let none = Dims::make(&[]).unwrap();
    Layout {
        dtype: Dtype::Bool,
        grid: Grid::make_middle(none, none),
        encoding: Encoding::Plain(Sep::Slash),
        endian: Endian::Little,
        fill: 0,
    }
}

/// The layout of the first input with this name; where none has it, that of an array that means nothing.
pub fn layout_named(inputs: &[InputInfo], name: &IdText) -> Layout
    ensures { result ≡ layout_named inputs.now name.now }
{
    for input in inputs {
        if name.is(&input.name) {
            return input.layout;
        }
    }
    no_layout()
}

/// What is known of a stored array: the type, shape and chunk shape of its metadata.
fn info_of_layout(layout: &Layout) -> NodeInfo
    ensures { result ≡ layout_info layout.now }
{
    NodeInfo {
        dtype: layout.dtype,
        dims: *layout.grid.shape(),
        chunk: *layout.grid.chunk(),
    }
}

/// The inputs by their names; of several with one name the first.
pub(crate) fn by_name(
    alloc: Global,
    inputs: &[InputInfo],
) -> Result<HashMap<String, NodeInfo>, AllocError>
    ensures { IfOk result (λ m. (q : List ℕ) → get_by_text m q ≡ named_input inputs.now q) }
{
    let mut named = HashMap::new(alloc);
    for k in (0..inputs.len()).rev() {
        add_named(alloc, &mut named, &inputs[k])?;
    }
    Ok(named)
}

/// Adds an input by its name, in place of one that has the name already.
fn add_named(
    alloc: Global,
    named: &mut HashMap<String, NodeInfo>,
    input: &InputInfo,
) -> Result<(), AllocError>
    ensures { OnOk result ((q : List ℕ) → get_by_text named.new q ≡ (if bytes_eq q input.now.name then Some (layout_info input.now.layout) else get_by_text named.old q)) }
{
    let name = String::from_str(alloc, input.name.text())?;
    named.insert(name, info_of_layout(&input.layout))?;
    Ok(())
}

/// What is known of the input with this name, where there is one.
fn info_named(named: &HashMap<String, NodeInfo>, name: &IdText) -> Option<NodeInfo>
    ensures { result ≡ get_by_text named.now name.now }
{
    named.get(name.text()).copied()
}

/// What is known of no array.
fn nothing_known() -> NodeInfo
    ensures { result ≡ no_info }
{
    info_at(&[], 0)
}

/// What is known of the input that a node uses; of no input where it uses none.
pub(crate) fn stored_info(named: &HashMap<String, NodeInfo>, form: &Form) -> NodeInfo
    ensures { result ≡ stored_of (get_by_text named.now) form.now }
{
    match form {
        Form::Input { name } => info_named(named, name).unwrap_or(nothing_known()),
        _ => nothing_known(),
    }
}
