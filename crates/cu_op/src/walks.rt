//! Rounds over the chunks that meet regions of arrays.
ghost use Rattle.std.specs.Prelude.{◌≡◌, ◌↔◌, ◌≤◌, IsTrue, All, length, map, []};
ghost use Rattle.std.specs.List.{list_any};
ghost use Rattle.std.specs.Iterator.{YieldsFirst, item_count};
ghost use Rattle.cu_op.specs.Chunks.{cell};
ghost use Rattle.cu_op.specs.Walks.{IsWalkOver, walk_cells, same_walk, new_walks, cells_of_walks, open_cells};

use crate::cells::Cell;
use crate::layout::ArrayInfo;
use arrayvec::ArrayVec;
use cu_grid::{Cover, Region};
use cu_shape::Dims;
use std::marker::Model;

/// A region of an array of a plan, whose chunks are gone over in row-major order.
#[derive(Clone, Copy)]
pub struct Walk {
    /// The number of the array in the plan.
    pub array: u32,
    /// The region.
    pub region: Region,
}

impl Default for Walk {
    ghost use Rattle.std.specs.Prelude.{◌≡◌, []};
    ghost use Rattle.cu_op.specs.Chunks.{walk};

    ghost is_default = { λ w. w ≡ walk 0 [] [] };

    fn default() -> Walk {
        let none = no_numbers();
        Walk {
            array: 0,
            region: Region { lo: none, hi: none },
        }
    }
}

/// A list of no numbers.
fn no_numbers() -> Dims
    ensures { result ≡ [] }
{
    match Dims::make(&[]) {
        Ok(none) => none,
        Err(_) => unreachable!(),
    }
}

/// Whether two walks go over one region of one array.
fn is_same(walk: &Walk, other: &Walk) -> bool
    ensures { result ≡ same_walk walk.now other.now }
{
    walk.array == other.array
        && are_equal(&walk.region.lo, &other.region.lo)
        && are_equal(&walk.region.hi, &other.region.hi)
}

/// Whether two lists are the same numbers.
fn are_equal(numbers: &Dims, others: &Dims) -> bool
    ensures { IsTrue result ↔ (numbers.now ≡ others.now) }
{
    if numbers.rank() != others.rank() {
        return false;
    }
    for axis in 0..numbers.rank() {
        if numbers.at(axis) != others.at(axis) {
            return false;
        }
    }
    true
}

/// Whether an equal walk is among these.
fn is_among(walks: &[Walk], walk: &Walk) -> bool
    ensures { result ≡ list_any (λ v. same_walk v walk.now) walks.now }
{
    for other in walks {
        if is_same(other, walk) {
            return true;
        }
    }
    false
}

/// The walks, each once.
pub(crate) fn each_once(walks: &[Walk]) -> ArrayVec<Walk, 8>
    requires { length walks.now ≤ 8 }
    ensures { result.items ≡ new_walks walks.now [] }
{
    let mut kept = ArrayVec::new();
    for at in 0..walks.len() {
        if !is_among(&walks[..at], &walks[at]) {
            kept.push(walks[at]);
        }
    }
    kept
}

/// The chunks of several walks, one after another, seen as the list of those that are left.
#[derive(Drop)]
pub struct Cells1<'a> {
    arrays: &'a [ArrayInfo],
    walks: ArrayVec<Walk, 8>,
    at: usize,
    array: u32,
    cover: Option<Cover>,
}

/// The chunks that a task reads; a list of the same kind.
pub type Cells2<'a> = Cells1<'a>;

impl<'a> Model for Cells1<'a> {
    ghost use Rattle.std.specs.Prelude.{List, All, drop, length, ◌≤◌};
    ghost use Rattle.cu_op.specs.declared.cells.Cell.{Cell as Chunk};

    ghost Value = { List Chunk };

    ghost use Rattle.cu_op.specs.Walks.{cells_left, IsWalkOver};

    ghost view = { λ w. cells_left w.arrays.now w.array w.cover (drop w.at w.walks.items) };

    ghost invariant = { λ w. (w.at ≤ length w.walks.items) × All (IsWalkOver w.arrays.now) w.walks.items };
}

impl<'a> Cells1<'a> {
    /// The chunks of these walks.
    pub(crate) fn make(arrays: &'a [ArrayInfo], walks: ArrayVec<Walk, 8>) -> Cells1<'a>
        requires { All (IsWalkOver arrays.now) walks.items }
        ensures { result ≡ cells_of_walks arrays.now walks.items }
    {
        Cells1 {
            arrays,
            walks,
            at: 0,
            array: 0,
            cover: None,
        }
    }
}

impl<'a> Iterator for Cells1<'a> {
    type Item = Cell;

    ghost next_gives = { YieldsFirst (λ rest. rest) };

    ghost remaining = { item_count (λ rest. rest) };

    fn next(&mut self) -> Option<Cell> {
        if let Some(cell) = taken(self.array, &mut self.cover) {
            return Some(cell);
        }
        for at in self.at..self.walks.len() {
            let walk = self.walks[at];
            let cover = opened(self.arrays, &walk);
            self.at = at + 1;
            self.array = walk.array;
            self.cover = Some(cover);
            if let Some(cell) = taken(self.array, &mut self.cover) {
                return Some(cell);
            }
        }
        None
    }
}

/// The chunks of a walk.
fn opened(arrays: &[ArrayInfo], walk: &Walk) -> Cover
    requires { IsWalkOver arrays.now walk.now }
    ensures { map (cell walk.now.array) result ≡ walk_cells arrays.now walk.now }
{
    let grid = &arrays[walk.array as usize].layout.grid;
    grid.cover(&walk.region)
}

/// The next chunk of the walk that is open.
fn taken(array: u32, cover: &mut Option<Cover>) -> Option<Cell>
    ensures { YieldsFirst (open_cells array) cover.old result cover.new }
{
    match cover {
        None => None,
        Some(coords) => match coords.next() {
            None => None,
            Some(coord) => Some(Cell { array, coord }),
        },
    }
}
