//! The inputs of the demonstration: two arrays of int32 whose elements are made from their indices.
ghost use Rattle.std.specs.Prelude.{◌≡◌, ◌<◌, ◌≤◌, ◌^◌, [], ◌∷◌, pos, IfOk, min, true};
ghost use Rattle.cu_name.specs.Name.{is_name};
ghost use Rattle.cu_demo.specs.Input.{demo_chunk, demo_element, demo_elements, demo_layout};
ghost use Rattle.cu_demo.specs.Input.{demo_name};

use cu_grid::Grid;
use cu_name::IdText;
use cu_num::{Dtype, Encoding, Endian, Sep};
use cu_op::Layout;
use cu_shape::Dims;
use cu_store::NoMemory;
use std::alloc::Global;

/// The most elements of a chunk along the axis on which an input is cut.
const CHUNK: u64 = 64;

/// An input of the demonstration.
#[derive(Clone, Copy)]
pub enum DemoInput {
    /// `demo_a`, in chunks of whole rows.
    Rows,
    /// `demo_b`, in chunks of whole columns.
    Columns,
}

/// The name of the input.
pub fn demo_name(input: DemoInput) -> IdText
    ensures name { result ≡ demo_name input }
    ensures is_name { is_name result ≡ true }
{
    let text = match input {
        DemoInput::Rows => "demo_a",
        DemoInput::Columns => "demo_b",
    };
    match IdText::make(text) {
        Some(name) => name,
        None => unreachable!(),
    }
}

/// How many elements a chunk has along the axis on which an input of this size is cut.
fn chunk_size(size: u64) -> u64
    ensures { result ≡ min 64 size }
{
    CHUNK.min(size)
}

/// Two sizes.
fn pair(rows: u64, columns: u64) -> Dims
    ensures { result ≡ rows ∷ columns ∷ [] }
{
    match Dims::make(&[rows, columns]) {
        Ok(dims) => dims,
        Err(_) => unreachable!(),
    }
}

/// The shape of the input's chunks.
fn demo_chunk(input: DemoInput, size: u64) -> Dims
    ensures { result ≡ demo_chunk input size }
{
    let cut = chunk_size(size);
    match input {
        DemoInput::Rows => pair(cut, size),
        DemoInput::Columns => pair(size, cut),
    }
}

/// How the input of this size is stored: keys as `c/0/0`, the lower bytes first, and fill value 0.
pub fn demo_layout(input: DemoInput, size: u64) -> Layout
    requires some { 1 ≤ size }
    requires few { size ≤ 2048 }
    ensures { result ≡ demo_layout input size }
{
    match Grid::make(pair(size, size), demo_chunk(input, size), 4) {
        Ok(grid) => Layout {
            dtype: Dtype::Int32,
            grid,
            encoding: Encoding::Plain(Sep::Slash),
            endian: Endian::Little,
            fill: 0,
        },
        Err(_) => unreachable!(),
    }
}

/// The element of the input at this row and column.
fn demo_element(input: DemoInput, row: u64, column: u64) -> i128
    requires row { row < 2 ^ 32 }
    requires column { column < 2 ^ 32 }
    ensures { result ≡ pos (demo_element input row column) }
{
    let element = match input {
        DemoInput::Rows => (3 * row + column) % 16 + row % 5,
        DemoInput::Columns => (row + 5 * column) % 16,
    };
    i128::from(element)
}

/// The elements of the input of this size, in row-major order.
pub fn demo_elements(alloc: Global, input: DemoInput, size: u64) -> Result<Vec<i128>, NoMemory>
    requires some { 1 ≤ size }
    requires few { size ≤ 2048 }
    ensures { IfOk result (λ elements. elements.items ≡ demo_elements input size) }
{
    let mut elements = Vec::new(alloc);
    for place in 0..size * size {
        let element = demo_element(input, place / size, place % size);
        let Ok(()) = elements.push(element) else {
            return Err(NoMemory);
        };
    }
    Ok(elements)
}
