//! A block of products of matrices.

ghost use Rattle.std.specs.Prelude.{◌≡◌, ◌+◌, ◌*◌, ◌<◌, ◌∷◌, ◌++◌, [], ℕ, List, length};
ghost use Rattle.cu_num.specs.Dtype.{size_of, IsInteger};
ghost use Rattle.cu_reduce.specs.Numbers.{HasNumber};
ghost use Rattle.cu_num.specs.Element.{element_at};
ghost use Rattle.cu_num.specs.declared.layout.Endian.TheVariants.{Little};
ghost use Rattle.cu_shape.specs.Index.{product, place_of, back, IsInside};
ghost use Rattle.cu_product.specs.Block.{left_sizes, right_sizes, product_sizes, IsReadThrough, left_number, right_number, inner_product};

use crate::rows::{MatrixSizes, clear};
use crate::types::multiply_matrices;
use cu_num::{Dtype, size};
use cu_shape::{Dims, back, index_of, place};

/// The sizes of blocks of matrices, in elements.
#[derive(Clone, Copy, Debug, PartialEq, Eq)]
pub struct MulDims {
    /// The axes of the result before the matrix.
    pub batch: Dims,
    /// Those of the left operand.
    pub left_batch: Dims,
    /// Those of the right operand.
    pub right_batch: Dims,
    /// The rows of a left matrix.
    pub m: u64,
    /// The columns of a left matrix, and the rows of a right one.
    pub k: u64,
    /// The columns of a right matrix.
    pub n: u64,
}

/// Writes the products of matrices: of `left`, elements of type `left_t`, and `right`, of type `right_t`, each sum exact and wrapped
/// once to type `t`. All elements are little-endian and row-major. The operands are read through broadcasting of the axes before the
/// matrix (Python array API, "Broadcasting"); the sum over no inner place is 0.
pub fn mul_block(
    left_t: Dtype,
    right_t: Dtype,
    t: Dtype,
    dims: &MulDims,
    left: &[u8],
    right: &[u8],
    out: &mut [u8],
)
    requires integer { IsInteger t }
    requires left_batch { IsReadThrough dims.now.left_batch dims.now.batch }
    requires right_batch { IsReadThrough dims.now.right_batch dims.now.batch }
    requires left { length left.now ≡ product (left_sizes dims.now) * size_of left_t }
    requires right { length right.now ≡ product (right_sizes dims.now) * size_of right_t }
    requires out { length out.old ≡ product (product_sizes dims.now) * size_of t }
    ensures { (b : List ℕ) (i j : ℕ) → IsInside dims.now.batch b → i < dims.now.m → j < dims.now.n
        → HasNumber t out.new (place_of (product_sizes dims.now) (b ++ i ∷ j ∷ [])) (inner_product (left_number left_t dims.now left.now b i) (λ q. right_number right_t dims.now right.now b q j) dims.now.k) }
{
    if out.is_empty() {
        return;
    }
    if dims.k == 0 {
        clear(t, out);
        return;
    }
    multiply_batches(left_t, right_t, t, dims, left, right, out);
}

/// `mul_block` of at least one element, with at least one inner place: one product of matrices after another.
fn multiply_batches(
    left_t: Dtype,
    right_t: Dtype,
    t: Dtype,
    dims: &MulDims,
    left: &[u8],
    right: &[u8],
    out: &mut [u8],
)
    requires integer { IsInteger t }
    requires some { 0 < length out.old }
    requires inner { 0 < dims.now.k }
    requires left_batch { IsReadThrough dims.now.left_batch dims.now.batch }
    requires right_batch { IsReadThrough dims.now.right_batch dims.now.batch }
    requires left { length left.now ≡ product (left_sizes dims.now) * size_of left_t }
    requires right { length right.now ≡ product (right_sizes dims.now) * size_of right_t }
    requires out { length out.old ≡ product (product_sizes dims.now) * size_of t }
    ensures { (b : List ℕ) (i j : ℕ) → IsInside dims.now.batch b → i < dims.now.m → j < dims.now.n
        → HasNumber t out.new (place_of (product_sizes dims.now) (b ++ i ∷ j ∷ [])) (inner_product (left_number left_t dims.now left.now b i) (λ q. right_number right_t dims.now right.now b q j) dims.now.k) }
{
    let sizes = MatrixSizes {
        rows: dims.m as usize,
        inner: dims.k as usize,
        columns: dims.n as usize,
    };
    let room = sizes.rows * sizes.columns * size(t) as usize;
    for p in 0..out.len() / room {
        let at = index_of(&dims.batch, p as u64);
        let left_matrix = matrix_at(left_t, &dims.left_batch, dims.m, dims.k, left, &at);
        let right_matrix = matrix_at(right_t, &dims.right_batch, dims.k, dims.n, right, &at);
        let part = &mut out[p * room..(p + 1) * room];
        multiply_matrices(left_t, right_t, t, sizes, left_matrix, right_matrix, part);
    }
}

/// The matrix of an operand that an index of the axes before the matrix reads.
fn matrix_at<'a>(
    t: Dtype,
    batch: &Dims,
    rows: u64,
    columns: u64,
    bytes: &'a [u8],
    at: &Dims,
) -> &'a [u8]
    requires read { IsInside batch.now (back batch.now at.now) }
    requires some_rows { 0 < rows }
    requires some_columns { 0 < columns }
    requires bytes { length bytes.now ≡ product (batch.now ++ rows ∷ columns ∷ []) * size_of t }
    ensures room { length result.now ≡ rows * columns * size_of t }
    ensures elements { (i j : ℕ) → i < rows → j < columns
        → element_at Little t result.now (i * columns + j) ≡ element_at Little t bytes.now (place_of (batch.now ++ rows ∷ columns ∷ []) (back batch.now at.now ++ i ∷ j ∷ [])) }
{
    let room = rows as usize * columns as usize * size(t) as usize;
    let first = place(batch, &back(batch, at)) as usize * room;
    &bytes[first..first + room]
}
