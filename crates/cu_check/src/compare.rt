//! The comparison of stored elements with plain ones.
ghost use Rattle.std.specs.Prelude.{◌≡◌, ◌*◌, length, IfErr, OnOk};
ghost use Rattle.cu_num.specs.Dtype.{size_of};
ghost use Rattle.cu_check.specs.Plains.{AreSameBelow, IsFirstDifference};

use cu_mean::Plain;
use cu_num::{Dtype, load};

/// A place at which a stored element isn't the plain one.
#[derive(Clone, Copy)]
pub struct Difference {
    /// The place in row-major order, in elements.
    pub place: u64,
    pub stored: i128,
    pub plain: i128,
}

/// Compares the elements of little-endian bytes with those of an array, place by place. The refusal is the first place at which they
/// differ.
pub(crate) fn compare(
    dtype: Dtype,
    bytes: &[u8],
    plain: &Plain,
    count: u64,
) -> Result<(), Difference>
    requires count { count ≡ length plain.now.cells }
    requires length { length bytes.now ≡ count * size_of dtype }
    ensures same { OnOk result (AreSameBelow dtype bytes.now plain.now.cells count) }
    ensures differs { IfErr result (IsFirstDifference dtype bytes.now plain.now.cells) }
{
    for place in 0..count {
        let stored = load(dtype, bytes, place as usize);
        let plain = plain.cell(place);
        if stored != plain {
            return Err(Difference {
                place,
                stored,
                plain,
            });
        }
    }
    Ok(())
}
