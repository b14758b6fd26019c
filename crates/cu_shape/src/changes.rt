//! Sizes with an axis more, fewer axes, or other sizes.
ghost use Rattle.std.specs.Prelude.{◌≡◌, ◌+◌, ◌-◌, ◌<◌, ◌≤◌, ◌++◌, length, insert, map, remove, slice_set, take};
ghost use Rattle.std.specs.List.{slice_range};

use crate::dims::Dims;

impl Dims {
    /// Appends the numbers of `from` on its axes from `first` to below `end`.
    pub fn push_range(&mut self, from: &Dims, first: u32, end: u32)
        requires order { first ≤ end }
        requires within { end ≤ length from.now }
        requires room { length self.old + (end - first) ≤ 6 }
        ensures { self.new ≡ self.old ++ slice_range from.now first end }
    {
        for axis in first..end {
            self.push(from.at(axis));
        }
    }

    /// The numbers with one axis more, which stands at `axis` in the result.
    pub fn inserted(&self, axis: u32, number: u64) -> Dims
        requires room { length self.now < 6 }
        requires axis { axis ≤ length self.now }
        ensures { result ≡ insert self.now axis number }
    {
        let mut more = Dims::default();
        more.push_range(self, 0, axis);
        more.push(number);
        more.push_range(self, axis, self.rank());
        more
    }

    /// The numbers without an axis.
    pub fn removed(&self, axis: u32) -> Dims
        requires { axis < length self.now }
        ensures { result ≡ remove self.now axis }
    {
        let rank = self.rank();
        let mut less = Dims::default();
        less.push_range(self, 0, axis);
        less.push_range(self, axis + 1, rank);
        less
    }

    /// The numbers with another one on an axis.
    pub fn changed(&self, axis: u32, number: u64) -> Dims
        requires { axis < length self.now }
        ensures { result ≡ slice_set self.now axis number }
    {
        let mut other = *self;
        other.put(axis, number);
        other
    }

    /// The numbers of the first axes.
    pub fn first(&self, count: u32) -> Dims
        requires { count ≤ length self.now }
        ensures { result ≡ take count self.now }
    {
        let _short = self.rank();
        let mut first = Dims::default();
        first.push_range(self, 0, count);
        first
    }

    /// The same number on each axis.
    pub fn filled(&self, number: u64) -> Dims
        ensures { result ≡ map (λ n. number) self.now }
    {
        let mut same = *self;
        for axis in 0..self.rank() {
            same.put(axis, number);
        }
        same
    }
}
