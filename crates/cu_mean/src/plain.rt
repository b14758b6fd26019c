ghost use Rattle.std.specs.Prelude.{◌≡◌, ◌<◌, length, slice_get, Some};

use cu_num::Dtype;
use cu_shape::Dims;
use std::marker::Model;

/// An array that is held element by element, in row-major order.
#[derive(Drop)]
pub struct Plain {
    dtype: Dtype,
    dims: Dims,
    cells: Vec<i128>,
}

impl Model for Plain {
    ghost use Rattle.cu_mean.specs.Plain.{PlainArray, IsPlain};

    ghost Value = { PlainArray };

    ghost view = { λ p. record { dtype = p.dtype; dims = p.dims; cells = p.cells.items } };

    ghost invariant = { λ p. IsPlain (record { dtype = p.dtype; dims = p.dims; cells = p.cells.items }) };
}

impl Plain {
    ghost use Rattle.cu_mean.specs.Plain.{IsPlain};

    /// The array of these elements, as many as the shape says, each in the type's range.
    pub fn make(dtype: Dtype, dims: Dims, cells: Vec<i128>) -> Plain
        requires { IsPlain (record { dtype = dtype; dims = dims; cells = cells.items }) }
        ensures array { result ≡ record { dtype = dtype; dims = dims; cells = cells.items } }
        ensures plain { IsPlain result }
    {
        Plain { dtype, dims, cells }
    }

    /// The type of the elements.
    pub fn dtype(&self) -> Dtype
        ensures { result ≡ self.now.dtype }
    {
        self.dtype
    }

    /// The shape, in elements.
    pub fn dims(&self) -> &Dims
        ensures { result.now ≡ self.now.dims }
    {
        &self.dims
    }

    /// The elements, in row-major order.
    pub(crate) fn cells(&self) -> &[i128]
        ensures cells { result.now ≡ self.now.cells }
        ensures plain { IsPlain self.now }
    {
        &self.cells
    }

    /// The element at a place in row-major order.
    pub fn cell(&self, place: u64) -> i128
        requires { place < length self.now.cells }
        ensures cell { slice_get self.now.cells place ≡ Some result }
        ensures plain { IsPlain self.now }
    {
        self.cells[place as usize]
    }
}

/// Arrays by their numbers. Contracts see the list.
#[derive(Drop)]
pub struct Plains {
    list: Vec<Plain>,
}

impl Model for Plains {
    ghost use Rattle.std.specs.Prelude.{List};
    ghost use Rattle.cu_mean.specs.Plain.{PlainArray};

    ghost Value = { List PlainArray };

    ghost view = { λ p. p.list.items };
}

impl Plains {
    /// The arrays of a list.
    pub fn make(list: Vec<Plain>) -> Plains
        ensures { result ≡ list.items }
    {
        Plains { list }
    }

    /// The array of a number.
    pub fn at(&self, place: u32) -> &Plain
        requires { place < length self.now }
        ensures { slice_get self.now place ≡ Some result.now }
    {
        &self.list[place as usize]
    }

    /// The list of the arrays.
    pub(crate) fn into_list(self) -> Vec<Plain>
        ensures { result.items ≡ self }
    {
        self.list
    }
}
