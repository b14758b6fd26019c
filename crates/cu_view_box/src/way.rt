ghost use Rattle.std.specs.Prelude.{◌≡◌, ◌<◌, ◌≤◌, ◌↔◌, ◌*◌, ◌^◌, ℕ, min};
ghost use Rattle.cu_view_box.specs.Way.{IsWay, IsInInterval, IsRead};
ghost use Rattle.cu_view_box.specs.declared.way.Way.TheVariants.{Fixed, Up, Down};

/// How an axis of a source is read over a box of a result. Counts along an axis of the result begin at the box's first index.
#[derive(Clone, Copy, Debug)]
pub enum Way {
    /// At this one index.
    Fixed(u64),
    /// At `first`, and `step` indices further for each count along the axis of the result.
    Up {
        /// The axis of the result.
        axis: u32,
        /// The index that is read at count 0.
        first: u64,
        /// The distance from one index to the next.
        step: u64,
    },
    /// At `first`, and `step` indices before it for each count along the axis of the result.
    Down {
        /// The axis of the result.
        axis: u32,
        /// The index that is read at count 0.
        first: u64,
        /// The distance from one index to the next.
        step: u64,
    },
}

impl Default for Way {
    ghost use Rattle.std.specs.Prelude.{◌≡◌};
    ghost use Rattle.cu_view_box.specs.declared.way.Way.TheVariants.{Fixed};

    ghost is_default = { λ way. way ≡ Fixed 0 };

    fn default() -> Way {
        Way::Fixed(0)
    }
}

/// The counts from `from` to below `to`.
#[derive(Clone, Copy, Debug)]
pub struct Interval {
    /// The first count.
    pub from: u64,
    /// One past the last count.
    pub to: u64,
}

impl Way {
    /// The counts below `extent` at which an index from `low` to below `high` is read.
    pub fn read_within(&self, extent: u64, low: u64, high: u64) -> Interval
        requires { IsWay extent self.now }
        ensures exact { (t : ℕ) → IsInInterval result t ↔ IsRead self.now extent low high t }
        ensures within { (result.from ≤ extent) × (result.to ≤ extent) }
    {
        match *self {
            Way::Fixed(index) => fixed(index, extent, low, high),
            Way::Up { first, step, .. } => upward(first, step, extent, low, high),
            Way::Down { first, step, .. } => downward(first, step, extent, low, high),
        }
    }
}

/// The counts at which one index is read: all or none.
fn fixed(index: u64, extent: u64, low: u64, high: u64) -> Interval
    ensures exact { (t : ℕ) → IsInInterval result t ↔ IsRead (Fixed index) extent low high t }
    ensures within { (result.from ≤ extent) × (result.to ≤ extent) }
{
    let is_read = low <= index && index < high;
    Interval {
        from: 0,
        to: if is_read { extent } else { 0 },
    }
}

/// The counts at which a way upward reads in the range.
fn upward(first: u64, step: u64, extent: u64, low: u64, high: u64) -> Interval
    requires { 0 < step }
    ensures exact { (t : ℕ) → IsInInterval result t ↔ IsRead (Up 0 first step) extent low high t }
    ensures within { (result.from ≤ extent) × (result.to ≤ extent) }
{
    let from = low.saturating_sub(first).div_ceil(step);
    let to = high.saturating_sub(first).div_ceil(step);
    below_extent(from, to, extent)
}

/// The counts at which a way downward reads in the range. It passes the range's last index first.
fn downward(first: u64, step: u64, extent: u64, low: u64, high: u64) -> Interval
    requires step { 0 < step }
    requires small { first < 2 ^ 63 }
    requires inside { (t : ℕ) → t < extent → t * step ≤ first }
    ensures exact { (t : ℕ) → IsInInterval result t ↔ IsRead (Down 0 first step) extent low high t }
    ensures within { (result.from ≤ extent) × (result.to ≤ extent) }
{
    let past = first + 1;
    let from = past.saturating_sub(high).div_ceil(step);
    let to = past.saturating_sub(low).div_ceil(step);
    below_extent(from, to, extent)
}

/// The counts from `from` to below `to` that lie below `extent`.
fn below_extent(from: u64, to: u64, extent: u64) -> Interval
    ensures from { result.from ≡ min from extent }
    ensures to { result.to ≡ min to extent }
{
    Interval {
        from: from.min(extent),
        to: to.min(extent),
    }
}
