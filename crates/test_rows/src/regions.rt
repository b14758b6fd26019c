//! The kinds of case that ask which chunks a region meets, and for the keys of chunks.
ghost use Rattle.std.specs.Prelude.{◌≡◌, ◌<◌, All, IfOk, IsTrue};
ghost use Rattle.cu_grid.specs.Counts.{IsRegion};

use crate::bytes::key_of;
use crate::findings::{CasePlace, Findings};
use crate::members::{Said, list_of, number_of, refuse_others, text_of};
use anyhow::{Result, bail};
use cu_codec::{chunk_key, metadata_key, zarray_key};
use cu_grid::{Grid, Region};
use cu_num::{Encoding, Sep};
use cu_shape::Dims;
use cu_store::Key;
use serde_json::Value;
use std::alloc::Global;

/// Runs rows of a shape, a chunk shape, the first index of a region, the index past its last, and the coordinates of the chunks
/// that it meets, in row-major order.
pub fn run_regions(
    alloc: Global,
    said: &Said<'_>,
    name: &str,
    findings: &mut Findings,
) -> Result<()> {
    refuse_others(said.case, &["name", "rows"])?;
    for (at, row) in said.list("rows")?.iter().enumerate() {
        let [shape, chunk, lo, hi, want] = list_of(row)? else {
            bail!("a row has two shapes, two indices and a list");
        };
        let shape = numbers_of(alloc, shape)?;
        let lo = numbers_of(alloc, lo)?;
        let hi = numbers_of(alloc, hi)?;
        if !is_region(&shape, &lo, &hi) {
            bail!("no region of the shape");
        }
        let Ok(grid) = Grid::make(dims_of(&shape)?, dims_of(&numbers_of(alloc, chunk)?)?, 1) else {
            bail!("no grid");
        };
        let region = Region {
            lo: dims_of(&lo)?,
            hi: dims_of(&hi)?,
        };
        let mut met = Vec::new(alloc);
        for coord in grid.cover(&region) {
            met.push(coord)?;
        }
        findings.made();
        let is_so = are_these(alloc, &met, list_of(want)?)?;
        findings.expect_so(&CasePlace::row(name, at), is_so)?;
    }
    Ok(())
}

/// Whether these coordinates are those of a list.
fn are_these(alloc: Global, coords: &[Dims], want: &[Value]) -> Result<bool> {
    if coords.len() != want.len() {
        return Ok(false);
    }
    for (coord, value) in coords.iter().zip(want) {
        if *coord != dims_of(&numbers_of(alloc, value)?)? {
            return Ok(false);
        }
    }
    Ok(true)
}

/// Whether the first index is at most the one past the last on each axis, and this at most the size.
fn is_region(shape: &[u64], lo: &[u64], hi: &[u64]) -> bool
    ensures { IsTrue result → IsRegion shape.now lo.now hi.now }
{
    match (shape, lo, hi) {
        ([], [], []) => true,
        ([n, ns @ ..], [l, ls @ ..], [h, hs @ ..]) => l <= h && h <= n && is_region(ns, ls, hs),
        _ => false,
    }
}

/// Runs rows of an array's name, the encoding of its keys, the separator, a chunk's coordinates and its key, or of an array's name, the
/// file of its metadata and its key.
pub fn run_keys(alloc: Global, said: &Said<'_>, name: &str, findings: &mut Findings) -> Result<()> {
    refuse_others(said.case, &["name", "rows"])?;
    for (at, row) in said.list("rows")?.iter().enumerate() {
        let (key, want) = match list_of(row)? {
            [array, file, want] => (metadata_key_said(text_of(array)?, text_of(file)?)?, want),
            [array, encoding, separator, coord, want] => {
                let encoding = encoding_of(text_of(encoding)?, text_of(separator)?)?;
                (
                    chunk_key_said(alloc, text_of(array)?, encoding, coord)?,
                    want,
                )
            }
            _ => bail!(
                "a row has a name, an encoding, a separator, coordinates and a key, or a name, a file and a key"
            ),
        };
        findings.made();
        findings.expect(
            &CasePlace::row(name, at),
            "the key",
            key.text().as_bytes(),
            text_of(want)?.as_bytes(),
        )?;
    }
    Ok(())
}

/// The key of a chunk of the array with this name.
fn chunk_key_said(alloc: Global, array: &str, encoding: Encoding, coord: &Value) -> Result<Key> {
    let array = key_of(array)?;
    let coord = numbers_of(alloc, coord)?;
    if array.text().len() > 45 || !are_coordinates(&coord) {
        bail!("no chunk of an array");
    }
    Ok(chunk_key(&array, encoding, &dims_of(&coord)?))
}

/// The key of this file of metadata of the array with this name.
fn metadata_key_said(array: &str, file: &str) -> Result<Key> {
    let array = key_of(array)?;
    if array.text().len() > 45 {
        bail!("no name of an array");
    }
    match file {
        "zarr.json" => Ok(metadata_key(&array)),
        ".zarray" => Ok(zarray_key(&array)),
        _ => bail!("no file of metadata"),
    }
}

/// Whether each coordinate is below 1,048,576.
fn are_coordinates(coord: &[u64]) -> bool
    ensures { IsTrue result → All (λ i. i < 1048576) coord.now }
{
    coord.iter().all(|i| *i < 1_048_576)
}

/// An encoding of keys by its name and its separator in Zarr v3.
fn encoding_of(name: &str, separator: &str) -> Result<Encoding> {
    let sep = match separator {
        "/" => Sep::Slash,
        "." => Sep::Dot,
        _ => bail!("{separator} is no separator"),
    };
    match name {
        "default" => Ok(Encoding::Plain(sep)),
        "v2" => Ok(Encoding::V2(sep)),
        _ => bail!("{name} is no encoding of keys"),
    }
}

/// The numbers of a list.
fn numbers_of(alloc: Global, value: &Value) -> Result<Vec<u64>> {
    let mut numbers = Vec::new(alloc);
    for item in list_of(value)? {
        numbers.push(number_of(item)?)?;
    }
    Ok(numbers)
}

/// The sizes or the index of a list of at most six.
fn dims_of(list: &[u64]) -> Result<Dims>
    ensures { IfOk result (λ dims. dims ≡ list.now) }
{
    match Dims::make(list) {
        Ok(dims) => Ok(dims),
        Err(_) => bail!("at most six axes"),
    }
}
