use crate::axes::Axes;
use arrayvec::ArrayVec;
use cu_shape::Run;

/// An array each of whose elements is one element of a source, or a number that the index tells (Python array API 2022.12,
/// "Manipulation Functions", "Indexing", "Creation Functions").
#[derive(Drop)]
pub enum Pull {
    /// The indices that a run takes on each axis of the source; axes of size 1 may be taken out, and others put in.
    Slice {
        /// The run of each axis of the source, of an integer entry one of count 1.
        runs: ArrayVec<Run, 6>,
        /// The axes of the source that the result lacks.
        taken: ArrayVec<u32, 6>,
    },
    /// The axes in another order.
    Permute {
        /// The source's axis at each axis of the result.
        axes: ArrayVec<u32, 6>,
    },
    /// The same elements in row-major order, in another shape.
    Reshape,
    /// The sources one behind the other along an axis that they have.
    Concat {
        /// The axis.
        axis: u32,
    },
    /// The sources one behind the other along a new axis.
    Stack {
        /// The new axis, counted in the result.
        axis: u32,
    },
    /// The elements in the opposite order along axes.
    Flip {
        /// The axes.
        axes: Axes,
    },
    /// The elements moved along axes, those past the end to the front.
    Roll {
        /// How far they move on each axis, towards its end where the number is positive.
        shifts: ArrayVec<i64, 6>,
    },
    /// The source broadcast to the result's shape.
    Broadcast,
    /// The lower or upper triangle of the last two axes, and 0 elsewhere.
    Triangle {
        /// Whether it is the lower one.
        lower: bool,
        /// The last diagonal that belongs to it, counted upward from the main one.
        k: i64,
    },
    /// One number everywhere.
    Full {
        /// The number.
        value: i128,
    },
    /// The numbers start, start + step, and so on.
    Arange {
        /// The first number.
        start: i64,
        /// The distance from one to the next.
        step: i64,
    },
    /// 1 on a diagonal, and 0 elsewhere.
    Eye {
        /// The diagonal, counted upward from the main one.
        k: i64,
    },
}
