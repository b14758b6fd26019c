//! What a pull reads: the whole of each source, since from where an element comes only the view tells.
ghost use Rattle.std.specs.Prelude.{◌≡◌, ◌<◌, ◌≤◌, All, length, map};
ghost use Rattle.cu_op.specs.Chunks.{whole_walk};

use crate::copies::same_list;
use crate::layout::ArrayInfo;
use crate::walks::Walk;
use arrayvec::ArrayVec;
use cu_grid::Region;
use cu_origin::Pull;

/// The whole of each of these arrays.
pub(crate) fn whole_walks(arrays: &[ArrayInfo], numbers: &[u32]) -> ArrayVec<Walk, 8>
    requires few { length numbers.now ≤ 8 }
    requires within { All (λ a. a < length arrays.now) numbers.now }
    ensures { result.items ≡ map (whole_walk arrays.now) numbers.now }
{
    let mut walks = ArrayVec::new();
    for array in numbers {
        walks.push(Walk {
            array: *array,
            region: Region::whole(arrays[*array as usize].layout.grid.shape()),
        });
    }
    walks
}

/// The same view.
pub(crate) fn same_pull(pull: &Pull) -> Pull
    ensures { result ≡ pull.now }
{
    match pull {
        Pull::Slice { runs, taken } => Pull::Slice {
            runs: same_list(runs),
            taken: same_list(taken),
        },
        Pull::Permute { axes } => Pull::Permute {
            axes: same_list(axes),
        },
        Pull::Reshape => Pull::Reshape,
        Pull::Concat { axis } => Pull::Concat { axis: *axis },
        Pull::Stack { axis } => Pull::Stack { axis: *axis },
        Pull::Flip { axes } => Pull::Flip { axes: *axes },
        Pull::Roll { shifts } => Pull::Roll {
            shifts: same_list(shifts),
        },
        Pull::Broadcast => Pull::Broadcast,
        Pull::Triangle { lower, k } => Pull::Triangle {
            lower: *lower,
            k: *k,
        },
        Pull::Full { value } => Pull::Full { value: *value },
        Pull::Arange { start, step } => Pull::Arange {
            start: *start,
            step: *step,
        },
        Pull::Eye { k } => Pull::Eye { k: *k },
    }
}
