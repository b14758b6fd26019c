ghost use Rattle.std.specs.Prelude.{◌≡◌};
ghost use Rattle.cu_num.specs.Dtype.{is_integer};
ghost use Rattle.cu_node.specs.Types.{in_range};

use cu_num::{Dtype, greatest, is_bool, least};

/// Whether the type is one of the eight integer types.
pub fn is_integer(t: Dtype) -> bool
    ensures { result ≡ is_integer t }
{
    !is_bool(t)
}

/// Whether the number lies in the type's range.
pub fn in_range(t: Dtype, x: i128) -> bool
    ensures { result ≡ in_range t x }
{
    least(t) <= x && x <= greatest(t)
}
