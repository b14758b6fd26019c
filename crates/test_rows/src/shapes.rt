//! The kinds of case that ask for slices, broadcasting, places and grids.

use crate::findings::{CasePlace, Findings};
use crate::members::{Said, list_of, number_of, refuse_others};
use anyhow::{Result, bail};
use cu_grid::{Grid, GridFault};
use cu_meta_members::sizes_in;
use cu_shape::{Dims, Run, ShapeFault, broadcast, index_of, place, slice_of};
use serde_json::Value;

/// Runs rows of one of these kinds, each of which says what a call must answer.
pub fn run_shapes(kind: &str, said: &Said<'_>, name: &str, findings: &mut Findings) -> Result<()> {
    refuse_others(said.case, &["name", "rows"])?;
    for (at, row) in said.list("rows")?.iter().enumerate() {
        let row = list_of(row)?;
        let is_so = match kind {
            "slices" => is_slice(row)?,
            "broadcasts" => is_broadcast(row)?,
            "places" => is_place(row)?,
            _ => is_grid(row)?,
        };
        findings.made();
        findings.expect_so(&CasePlace::row(name, at), is_so)?;
    }
    Ok(())
}

/// Whether a slice of so many elements begins at this place and has so many: `[start,stop,step,n,first,count]`, or
/// `[start,stop,step,n]` where it is refused.
fn is_slice(row: &[Value]) -> Result<bool> {
    let [start, stop, step, n, want @ ..] = row else {
        bail!("a slice has a start, a stop, a step and a length");
    };
    let Some(step) = step.as_i64() else {
        bail!("a step is a number");
    };
    let answer = slice_of(end_of(start)?, end_of(stop)?, step, number_of(n)?);
    match want {
        [] => Ok(answer == Err(ShapeFault::ZeroStep)),
        [first, count] => Ok(
            answer
                == Ok(Run {
                    first: number_of(first)?,
                    step,
                    count: number_of(count)?,
                }),
        ),
        _ => bail!("a slice answers a first place and a count"),
    }
}

/// An end of a slice: a number, or `null`.
fn end_of(value: &Value) -> Result<Option<i64>> {
    if value.is_null() {
        return Ok(None);
    }
    match value.as_i64() {
        Some(number) => Ok(Some(number)),
        None => bail!("an end is a number or null"),
    }
}

/// Whether two shapes broadcast to a third, or mismatch at an axis of the result.
fn is_broadcast(row: &[Value]) -> Result<bool> {
    let [left, right, want] = row else {
        bail!("a row has two shapes and an answer");
    };
    let answer = broadcast(&sizes_of(left)?, &sizes_of(right)?);
    if let Some(axis) = want.as_u64() {
        return Ok(match answer {
            Err(ShapeFault::Mismatch(at)) => u64::from(at) == axis,
            _ => false,
        });
    }
    Ok(answer == Ok(sizes_of(want)?))
}

/// Whether a place of a shape has this index, and the index this place.
fn is_place(row: &[Value]) -> Result<bool> {
    let [shape, number, index] = row else {
        bail!("a row has a shape, a place and an index");
    };
    let shape = sizes_of(shape)?;
    let number = number_of(number)?;
    match shape.elements() {
        Some(count) if number < count => {
            let is = index_of(&shape, number);
            Ok(is == sizes_of(index)? && place(&shape, &is) == number)
        }
        _ => bail!("no place of the shape"),
    }
}

/// Whether a shape, a chunk shape and a size of elements make a grid of so many chunks on each axis, or are refused with this
/// number.
fn is_grid(row: &[Value]) -> Result<bool> {
    let [shape, chunk, size, want] = row else {
        bail!("a row has a shape, a chunk shape, a size and an answer");
    };
    let size = number_of(size)?;
    if size == 0 {
        bail!("elements have a size");
    }
    match Grid::make(sizes_of(shape)?, sizes_of(chunk)?, size) {
        Err(fault) => Ok(want.as_u64() == Some(fault_number(fault))),
        Ok(grid) => Ok(want.is_array() && grid.counts() == sizes_of(want)?),
    }
}

/// The number of a fault of a grid.
fn fault_number(fault: GridFault) -> u64 {
    match fault {
        GridFault::ZeroChunk => 1,
        GridFault::Rank => 2,
        GridFault::TooManyElements => 3,
        GridFault::TooManyChunks => 4,
        GridFault::ChunkTooLarge => 5,
    }
}

/// The sizes of a list of at most six.
pub(crate) fn sizes_of(value: &Value) -> Result<Dims> {
    match sizes_in(value) {
        Some(sizes) => Ok(sizes),
        None => bail!("a list of at most six sizes is wanted"),
    }
}
