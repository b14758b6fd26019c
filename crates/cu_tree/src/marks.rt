//! Sets of axes, as operations have them.

ghost use Rattle.std.specs.Prelude.{◌≡◌, ◌<◌, ℕ, get_or, false, IfSome};
ghost use Rattle.cu_reduce.specs.Places.{is_sought};
ghost use Rattle.cu_origin.specs.Pull.{has_axis};
ghost use Rattle.cu_tree.specs.Marks.{marked_axes, sought_axes};

use cu_origin::Axes;

/// The axes that are marked.
pub fn marked_axes(marks: &[bool; 6]) -> Axes
    ensures axes { result ≡ marked_axes marks.now }
    ensures has { (d : ℕ) → has_axis result d ≡ get_or marks.now d false }
{
    packed(marks)
}

/// The marks as the bits of a number, the lowest first.
fn packed(marks: &[bool; 6]) -> Axes
    ensures { result ≡ marked_axes marks.now }
{
    let [m0, m1, m2, m3, m4, m5] = *marks;
    let upper = u8::from(m3) + 2 * (u8::from(m4) + 2 * u8::from(m5));
    Axes(u8::from(m0) + 2 * (u8::from(m1) + 2 * (u8::from(m2) + 2 * upper)))
}

/// The axes along which a place is sought: one, or all that an array may have.
pub fn sought_axes(axis: Option<u32>) -> Axes
    requires { IfSome axis (λ d. d < 6) }
    ensures axes { result ≡ sought_axes axis }
    ensures has { (d : ℕ) → d < 6 → has_axis result d ≡ is_sought axis d }
{
    one_or_all(axis)
}

/// The axis alone, or the first six.
fn one_or_all(axis: Option<u32>) -> Axes
    requires { IfSome axis (λ d. d < 6) }
    ensures { result ≡ sought_axes axis }
{
    match axis {
        Some(axis) => Axes(1 << axis),
        None => Axes(63),
    }
}
