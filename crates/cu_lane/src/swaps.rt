//! Elements in the other byte order (Zarr v3, codec "bytes").
ghost use Rattle.std.specs.Prelude.{◌≡◌, ◌%◌, length};
ghost use Rattle.cu_num.specs.Element.{IsSize};
ghost use Rattle.cu_box.specs.Order.{IsSwapped};

use cu_box::swap;

/// Reverses the bytes of each element in place. Elements have `size` bytes, 1, 2, 4 or 8, and `bytes` are whole elements.
pub fn lane_swap(size: u64, bytes: &mut [u8])
    requires size { IsSize size }
    requires whole { length bytes.old % size ≡ 0 }
    ensures { IsSwapped size bytes.old bytes.new }
{
    swap(size, bytes);
}
