ghost use Rattle.std.specs.Prelude.{◌≡◌, ◌≤◌, ◌<◌, ◌^◌, ◌↔◌, ◌++◌, [], ◌∷◌, IsOk, IfOk, IfErr, IsSome, IfSome, IsTrue, length, slice_index, slice_set, All};
ghost use Rattle.cu_shape.specs.Index.{product};

use crate::fault::ShapeFault;
use std::marker::Model;

/// The most axes that an array has.
const MOST_AXES: usize = 6;

/// The most elements that `elements` counts.
const MOST_ELEMENTS: u64 = 0x100_0000_0000;

/// The sizes of an array's axes, or an index into it: a list of at most six numbers.
#[derive(Clone, Copy, PartialEq, Eq, Debug)]
pub struct Dims {
    rank: u32,
    sizes: [u64; 6],
}

impl Model for Dims {
    ghost use Rattle.std.specs.Prelude.{List, ℕ, take, length};
    ghost use Rattle.cu_shape.specs.Padded.{padded, IsPadded};
    ghost use Rattle.cu_shape.specs.PaddedBack.{padded_back};

    ghost Value = { List ℕ };

    ghost view = { λ d. take d.rank d.sizes };

    ghost invariant = { λ d. IsPadded d.rank d.sizes };

    ghost inverse = { λ xs. record { rank = length xs; sizes = padded xs } };

    ghost inverse_ok = { λ a h. padded_back a h };
}

impl Dims {
    /// The sizes of `list`; refused where it has more than six.
    pub fn make(list: &[u64]) -> Result<Dims, ShapeFault>
        ensures fits { IsOk result ↔ (length list.now ≤ 6) }
        ensures sizes { IfOk result (λ d. d ≡ list.now) }
        ensures rank { IfErr result (λ e. (e ≡ ShapeFault.Rank) × (6 < length list.now)) }
    {
        if list.len() > MOST_AXES {
            return Err(ShapeFault::Rank);
        }
        let mut sizes = [0u64; 6];
        for (axis, size) in list.iter().enumerate() {
            sizes[axis] = *size;
        }
        Ok(Dims {
            rank: list.len() as u32,
            sizes,
        })
    }

    /// The number of axes.
    pub fn rank(&self) -> u32
        ensures rank { result ≡ length self.now }
        ensures short { result ≤ 6 }
    {
        self.rank
    }

    /// The size on an axis, or the index on it.
    pub fn at(&self, axis: u32) -> u64
        requires { axis < length self.now }
        ensures { result ≡ slice_index self.now axis }
    {
        self.sizes[axis as usize]
    }

    /// Replaces the number on an axis.
    pub fn put(&mut self, axis: u32, number: u64)
        requires { axis < length self.old }
        ensures { self.new ≡ slice_set self.old axis number }
    {
        self.sizes[axis as usize] = number;
    }

    /// Appends a number: the size of one more axis, or the index on it.
    pub fn push(&mut self, number: u64)
        requires { length self.old < 6 }
        ensures { self.new ≡ self.old ++ number ∷ [] }
    {
        self.sizes[self.rank as usize] = number;
        self.rank += 1;
    }

    /// Whether these are the same numbers on the same axes.
    pub fn is(&self, other: &Dims) -> bool
        ensures { IsTrue result ↔ (self.now ≡ other.now) }
    {
        self.sizes[..self.rank as usize] == other.sizes[..other.rank as usize]
    }

    /// The product of the sizes, 1 at rank 0; none where it is above 2^40.
    pub fn elements(&self) -> Option<u64>
        ensures counted { IsSome result ↔ (product self.now ≤ 2 ^ 40) }
        ensures count { IfSome result (λ n. n ≡ product self.now) }
    {
        let sizes = &self.sizes[..self.rank as usize];
        if sizes.contains(&0) {
            return Some(0);
        }
        product_of(sizes)
    }
}

impl Default for Dims {
    /// The sizes of an array of rank 0.
    fn default() -> Dims
        ensures { result ≡ [] }
    {
        Dims {
            rank: 0,
            sizes: [0; 6],
        }
    }
}

/// The product of sizes that are not 0; none where it is above 2^40.
fn product_of(sizes: &[u64]) -> Option<u64>
    requires { All (λ n. 0 < n) sizes.now }
    ensures counted { IsSome result ↔ (product sizes.now ≤ 2 ^ 40) }
    ensures count { IfSome result (λ n. n ≡ product sizes.now) }
{
    let mut count = 1;
    for size in sizes {
        if *size > MOST_ELEMENTS / count {
            return None;
        }
        count *= *size;
    }
    Some(count)
}
