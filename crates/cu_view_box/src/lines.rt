//! Elements that are moved from evenly spaced places to evenly spaced places.
ghost use Rattle.cu_view_box.specs.Line.{FitsLine, IsOneEach, AreConverted, AreOthersKept};

use cu_box::{Spacing, place_on};
use cu_num::{Dtype, load, save};

/// Evenly spaced elements in a buffer.
#[derive(Clone, Copy)]
pub(crate) struct Line {
    /// The type of the elements.
    pub(crate) dtype: Dtype,
    /// Where they stand.
    pub(crate) places: Spacing,
}

/// Writes the number that each of `count` elements of a line is to the places of another, as a number of the other's type.
pub(crate) fn convert_line(
    source: &Line,
    bytes: &[u8],
    target: &Line,
    output: &mut [u8],
    count: u64,
)
    requires source_fits { FitsLine source.now count bytes.now }
    requires target_fits { FitsLine target.now count output.old }
    requires one_each { IsOneEach target.now count }
    ensures moved { AreConverted source.now bytes.now target.now output.new count }
    ensures others { AreOthersKept target.now count output.old output.new }
{
    for j in 0..count {
        let number = load(source.dtype, bytes, place_on(&source.places, j) as usize);
        let at = place_on(&target.places, j);
        save(target.dtype, number, output, at as usize);
    }
}
