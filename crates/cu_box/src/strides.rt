//! The axes and the signed strides of a copy, and steps along them.
ghost use Rattle.std.specs.Prelude.{◌≡◌, ◌+◌, ◌-◌, ◌*◌, ◌<◌, ◌≤◌, ◌^◌};
ghost use Rattle.cu_box.specs.Strided.{up, down};
ghost use Rattle.cu_box.specs.StridedSteps.{later_start, IsStart};

/// How far the next index of an axis stands behind an index, or before it, in elements.
#[derive(Clone, Copy, PartialEq, Eq, Debug)]
pub enum Stride {
    /// So many elements behind it.
    Up(u64),
    /// So many elements before it.
    Down(u64),
}

/// An axis along which elements are copied.
#[derive(Clone, Copy, Debug)]
pub struct Axis {
    /// How many indices it has.
    pub count: u64,
    /// The stride in the buffer that is read.
    pub from: Stride,
    /// The stride in the buffer that is written.
    pub to: Stride,
}

/// The places of the first index of all, in elements.
#[derive(Clone, Copy, Debug)]
pub struct Start {
    /// The place in the buffer that is read.
    pub from: u64,
    /// The place in the buffer that is written.
    pub to: u64,
}

/// The first places behind so many indices of an axis.
#[inline(always)]
pub(crate) fn later(start: Start, axis: Axis, number: u64) -> Start
    requires { IsStart start axis number }
    ensures { result ≡ later_start start axis number }
{
    Start {
        from: moved(start.from, axis.from, number),
        to: moved(start.to, axis.to, number),
    }
}

/// The place that is so many strides behind a place.
#[inline(always)]
fn moved(place: u64, stride: Stride, number: u64) -> u64
    requires natural { number * down stride ≤ place + number * up stride }
    requires small { place + number * up stride - number * down stride < 2 ^ 64 }
    ensures { result ≡ place + number * up stride - number * down stride }
{
    match stride {
        Stride::Up(far) => place + number * far,
        Stride::Down(far) => place - number * far,
    }
}
