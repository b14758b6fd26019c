/// A set of axes: bit d of the byte is set exactly for each axis d in it, bit 0 being the lowest.
#[derive(Clone, Copy, PartialEq, Eq, Debug)]
pub struct Axes(pub u8);
