//! What the copies of a node come to together.

ghost use Rattle.std.specs.Prelude.{◌≡◌, ◌≤◌, ◌^◌, All, length, map, sum_by};
ghost use Rattle.cu_copy.specs.Copies.{IsRechunk, rechunk_need, rechunk_tasks, rechunk_cells};
ghost use Rattle.cu_shape.specs.Counts.{largest};

use cu_copy::{CopyCounts, Rechunk, rechunk_counts, rechunk_need};

/// The most bytes that one of these rechunks needs; 0 where there is none.
pub(crate) fn copies_need(reserved: u64, copies: &[Rechunk]) -> u64
    requires reserved { reserved ≤ 2 ^ 40 }
    requires copies { All IsRechunk copies.now }
    ensures { result ≡ largest (map (rechunk_need reserved) copies.now) }
{
    let mut most = 0;
    for rechunk in copies {
        most = rechunk_need(reserved, rechunk).max(most);
    }
    most
}

/// The tasks of these rechunks, and the chunks that they store.
pub(crate) fn copies_counts(most: u64, copies: &[Rechunk]) -> CopyCounts
    requires copies { All IsRechunk copies.now }
    requires short { length copies.now ≤ 3 }
    ensures tasks { result.tasks ≡ sum_by (rechunk_tasks most) copies.now }
    ensures cells { result.cells ≡ sum_by (rechunk_cells most) copies.now }
    ensures few_tasks { result.tasks ≤ 2 ^ 43 }
    ensures few_cells { result.cells ≤ 2 ^ 43 }
{
    let mut tasks = 0;
    let mut cells = 0;
    for rechunk in copies {
        let own = rechunk_counts(most, rechunk);
        tasks += own.tasks;
        cells += own.cells;
    }
    CopyCounts { tasks, cells }
}
