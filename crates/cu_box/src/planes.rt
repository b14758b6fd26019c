//! Elements of two axes that are copied along strides, by loops that fit the strides.
ghost use Rattle.std.specs.Prelude.{◌≡◌, ◌*◌, ◌<◌, ◌≤◌, [], ◌∷◌, IsTrue, length};
ghost use Rattle.cu_num.specs.Element.{IsSize};
ghost use Rattle.cu_box.specs.Strided.{IsStridedCopy};
ghost use Rattle.cu_box.specs.StridedSteps.{CanCopy, IsDenseAxis, IsStart, plane_axes, inner_block_of, outer_block_of};

use crate::normal::far;
use crate::rows::{copy_array, copy_run};
use crate::strides::{Axis, Start, Stride, later};
use cu_num::Endian;

/// A turned plane of so few rows is copied in stretches of rows.
const MOST_STREAMS: u64 = 16;

/// Rows of fewer elements are not worth a tile.
const FEW: u64 = 8;

/// The elements of such a stretch.
const STRETCH: u64 = 1024;

/// The most elements of a row of a tile, which is a part of a row of the source.
const SIDE: u64 = 64;

/// The most elements of a stripe of tiles in a row of the target.
const STRIPE: u64 = 256;

/// The most bytes of a column of a tile, or of a part of one: they lie in a row of the target.
const COLUMN_BYTES: u64 = 256;

/// The bytes of a tile, which is a part of the first cache.
const TILE_BYTES: usize = 16384;

/// The most bytes of a column of a tile of a large plane.
const LARGE_COLUMN_BYTES: u64 = 4096;

/// The bytes of a tile of a large plane, which is a part of the second cache.
const LARGE_TILE_BYTES: usize = 262144;

/// The fewest rows of a large plane. Each is at least as long as a column of its tiles.
const LARGE_ROWS: u64 = 512;

/// So many rows of the target are written at a time: not more than a processor prefetches.
const GROUP: u64 = 16;

/// Rows of more bytes are long.
const LONG_BYTES: u64 = 64;

/// A block of so many rows and columns that are neighbours is copied without a tile.
const BLOCK: u64 = 32;

/// Rows whose elements are so few bytes apart are neighbours.
const NEAR: u64 = 256;

/// Of a block of so few rows, rows as short are copied by parts.
const SHORT: u64 = 16;

/// The elements of such a part.
const PART: u64 = 4;

/// A tile, into which rows of the source come and from which rows of the target go out.
#[derive(Drop)]
pub(crate) struct Held {
    /// The rows of the source, each of as many elements as a tile can have.
    rows: [u8; TILE_BYTES],
}

impl Held {
    /// A buffer for the tiles of one copy.
    pub(crate) fn make() -> Held {
        Held {
            rows: [0; TILE_BYTES],
        }
    }
}

/// A tile of a large plane, into which rows come and from which rows go out likewise.
#[derive(Drop)]
struct LargeHeld {
    /// The rows of the source, each of as many elements as a tile can have.
    rows: [u8; LARGE_TILE_BYTES],
}

/// Two axes of a copy, with the places of their first index.
#[derive(Clone, Copy, Debug)]
pub(crate) struct Plane {
    /// The axis that is walked outside.
    pub(crate) outer: Axis,
    /// The axis that is walked inside.
    pub(crate) inner: Axis,
    /// The places of the first index.
    pub(crate) start: Start,
}

/// Copies the elements of a plane, by loops that are built for the size of an element.
pub(crate) fn copy_plane(
    size: u64,
    order: Endian,
    plane: &Plane,
    source: &[u8],
    target: &mut [u8],
    held: &mut Option<Held>,
)
    requires can { CanCopy size (plane_axes plane.now) plane.now.start source.now (length target.old) }
    requires rows { 0 < plane.now.outer.count }
    requires some { 0 < plane.now.inner.count }
    ensures { IsStridedCopy size order (plane_axes plane.now) plane.now.start source.now target.old target.new }
{
    match size {
        1 => copy_sized::<1>(order, *plane, source, target, held),
        2 => copy_sized::<2>(order, *plane, source, target, held),
        4 => copy_sized::<4>(order, *plane, source, target, held),
        8 => copy_sized::<8>(order, *plane, source, target, held),
        _ => unreachable!(),
    }
}

/// The same, for elements of N bytes: rows that stand together whole, a turned plane by parts of
/// short rows, by streams or by tiles, and others line by line.
fn copy_sized<const N: usize>(
    order: Endian,
    plane: Plane,
    source: &[u8],
    target: &mut [u8],
    held: &mut Option<Held>,
)
    requires can { CanCopy N (plane_axes plane) plane.start source.now (length target.old) }
    requires rows { 0 < plane.outer.count }
    requires some { 0 < plane.inner.count }
    ensures { IsStridedCopy N order (plane_axes plane) plane.start source.now target.old target.new }
{
    if !is_turned(plane) {
        copy_rows_of::<N>(order, plane, source, target);
    } else if is_short(plane) {
        copy_short::<N>(order, plane, source, target);
    } else if plane.outer.count <= MOST_STREAMS {
        copy_streams::<N>(order, plane, source, target);
    } else if plane.inner.count < FEW || is_near(N as u64, plane) {
        copy_lines::<N>(order, plane, source, target);
    } else if is_large(N as u64, plane) {
        copy_bands::<N>(order, plane, source, target);
    } else {
        copy_stripes::<N>(order, plane, source, target, held);
    }
}

/// Whether what is near in the buffer that is read is far in the one that is written.
fn is_turned(plane: Plane) -> bool {
    let outer = far(plane.outer.from);
    outer != 0 && outer < far(plane.inner.from)
}

/// Whether the rows of the plane are so short that a loop over each would cost more than the
/// elements.
fn is_short(plane: Plane) -> bool {
    plane.inner.count <= PART || plane.outer.count <= SHORT && plane.inner.count <= SHORT
}

/// Whether the plane is a block whose rows are neighbours in both buffers.
fn is_near(size: u64, plane: Plane) -> bool {
    plane.outer.count <= BLOCK
        && plane.inner.count <= BLOCK
        && far(plane.inner.from).saturating_mul(size) <= NEAR
        && far(plane.outer.to).saturating_mul(size) <= NEAR
}

/// Whether the plane is so large that its tiles are too. That is for elements of 4 and 8 bytes,
/// which are moved so fast that the caches decide.
fn is_large(size: u64, plane: Plane) -> bool {
    size >= 4
        && plane.outer.count >= LARGE_ROWS
        && plane.inner.count.saturating_mul(size) >= LARGE_COLUMN_BYTES
}

/// A plane of short rows: by parts of these where the elements of a column stand together in the
/// source and those of a row in the target, which is then known in the loops, and else line by
/// line.
fn copy_short<const N: usize>(order: Endian, plane: Plane, source: &[u8], target: &mut [u8])
    requires can { CanCopy N (plane_axes plane) plane.start source.now (length target.old) }
    requires rows { 0 < plane.outer.count }
    requires some { 0 < plane.inner.count }
    ensures { IsStridedCopy N order (plane_axes plane) plane.start source.now target.old target.new }
{
    let outer = rising(plane.outer.count, 1, far(plane.outer.to));
    let inner = rising(plane.inner.count, far(plane.inner.from), 1);
    if is_axis(plane.outer, outer) && is_axis(plane.inner, inner) {
        copy_parts::<N>(order, plane, outer, inner, source, target);
    } else {
        copy_lines::<N>(order, plane, source, target);
    }
}

/// The same of a plane of these axes, of which the call gives as literals what is known.
#[inline(always)]
fn copy_parts<const N: usize>(
    order: Endian,
    plane: Plane,
    outer: Axis,
    inner: Axis,
    source: &[u8],
    target: &mut [u8],
)
    requires can { CanCopy N (plane_axes plane) plane.start source.now (length target.old) }
    requires rows { 0 < plane.outer.count }
    requires outer { plane.outer ≡ outer }
    requires inner { plane.inner ≡ inner }
    ensures { IsStridedCopy N order (plane_axes plane) plane.start source.now target.old target.new }
{
    let start = plane.start;
    let same = Plane {
        outer,
        inner,
        start,
    };
    copy_each_part::<N>(order, same, source, target);
}

/// The same, one part of all rows after another.
#[inline(always)]
fn copy_each_part<const N: usize>(order: Endian, plane: Plane, source: &[u8], target: &mut [u8])
    requires can { CanCopy N (plane_axes plane) plane.start source.now (length target.old) }
    requires rows { 0 < plane.outer.count }
    ensures { IsStridedCopy N order (plane_axes plane) plane.start source.now target.old target.new }
{
    let mut at = 0;
    while at < plane.inner.count {
        let count = PART.min(plane.inner.count - at);
        let part = inner_block(plane, at, count);
        copy_part::<N>(order, part, source, target);
        at += count;
    }
}

/// One part of all rows. How many elements it has is known in its loop.
#[inline(always)]
fn copy_part<const N: usize>(order: Endian, plane: Plane, source: &[u8], target: &mut [u8])
    requires can { CanCopy N (plane_axes plane) plane.start source.now (length target.old) }
    requires some { 0 < plane.inner.count }
    ensures { IsStridedCopy N order (plane_axes plane) plane.start source.now target.old target.new }
{
    match plane.inner.count {
        1 => copy_counted::<N>(order, 1, plane, source, target),
        2 => copy_counted::<N>(order, 2, plane, source, target),
        3 => copy_counted::<N>(order, 3, plane, source, target),
        _ => copy_counted::<N>(order, PART, plane, source, target),
    }
}

/// The same where `count` is how many elements it has, if it has as many.
#[inline(always)]
fn copy_counted<const N: usize>(
    order: Endian,
    count: u64,
    plane: Plane,
    source: &[u8],
    target: &mut [u8],
)
    requires can { CanCopy N (plane_axes plane) plane.start source.now (length target.old) }
    requires some { 0 < plane.inner.count }
    ensures { IsStridedCopy N order (plane_axes plane) plane.start source.now target.old target.new }
{
    let outer = plane.outer;
    let inner = rising(count, far(plane.inner.from), 1);
    if is_axis(plane.inner, inner) {
        copy_going::<N>(order, plane, outer, inner, source, target);
    } else {
        copy_each_line::<N>(order, plane, source, target);
    }
}

/// An axis of strides that go up.
#[inline(always)]
fn rising(count: u64, from: u64, to: u64) -> Axis
    ensures count { result.count ≡ count }
    ensures from { result.from ≡ Stride.Up from }
    ensures to { result.to ≡ Stride.Up to }
{
    Axis {
        count,
        from: Stride::Up(from),
        to: Stride::Up(to),
    }
}

/// A plane of few rows: stretches of the rows, one after another, so that both buffers are gone
/// through once.
fn copy_streams<const N: usize>(order: Endian, plane: Plane, source: &[u8], target: &mut [u8])
    requires can { CanCopy N (plane_axes plane) plane.start source.now (length target.old) }
    requires rows { 0 < plane.outer.count }
    ensures { IsStridedCopy N order (plane_axes plane) plane.start source.now target.old target.new }
{
    let mut at = 0;
    while at < plane.inner.count {
        let count = STRETCH.min(plane.inner.count - at);
        let stretch = inner_block(plane, at, count);
        copy_lines::<N>(order, stretch, source, target);
        at += count;
    }
}

/// A turned plane: stripes of its rows, each by tiles, so that few pages of either buffer are gone
/// through at a time.
fn copy_stripes<const N: usize>(
    order: Endian,
    plane: Plane,
    source: &[u8],
    target: &mut [u8],
    held: &mut Option<Held>,
)
    requires can { CanCopy N (plane_axes plane) plane.start source.now (length target.old) }
    requires rows { 0 < plane.outer.count }
    ensures { IsStridedCopy N order (plane_axes plane) plane.start source.now target.old target.new }
{
    let tiles = held.get_or_insert_with(Held::make);
    let mut at = 0;
    while at < plane.inner.count {
        let count = STRIPE.min(plane.inner.count - at);
        let stripe = inner_block(plane, at, count);
        copy_stripe::<N>(order, stripe, source, target, tiles);
        at += count;
    }
}

/// One stripe, by rows of tiles.
fn copy_stripe<const N: usize>(
    order: Endian,
    plane: Plane,
    source: &[u8],
    target: &mut [u8],
    held: &mut Held,
)
    requires can { CanCopy N (plane_axes plane) plane.start source.now (length target.old) }
    requires some { 0 < plane.inner.count }
    ensures { IsStridedCopy N order (plane_axes plane) plane.start source.now target.old target.new }
{
    let mut at = 0;
    while at < plane.outer.count {
        let count = SIDE.min(plane.outer.count - at);
        let row = outer_block(plane, at, count);
        copy_tiles::<N>(order, row, source, target, held);
        at += count;
    }
}

/// One row of tiles.
fn copy_tiles<const N: usize>(
    order: Endian,
    plane: Plane,
    source: &[u8],
    target: &mut [u8],
    held: &mut Held,
)
    requires can { CanCopy N (plane_axes plane) plane.start source.now (length target.old) }
    requires rows { 0 < plane.outer.count }
    requires few_rows { plane.outer.count ≤ 64 }
    ensures { IsStridedCopy N order (plane_axes plane) plane.start source.now target.old target.new }
{
    let most = column_length(N as u64);
    let mut at = 0;
    while at < plane.inner.count {
        let count = most.min(plane.inner.count - at);
        let tile = inner_block(plane, at, count);
        copy_tile::<N>(order, tile, source, target, &mut held.rows);
        at += count;
    }
}

/// A large turned plane: bands of its rows, each by tiles as wide as the band. So long parts of few
/// rows of the target are written at a time, and the processor prefetches them.
#[inline(never)]
fn copy_bands<const N: usize>(order: Endian, plane: Plane, source: &[u8], target: &mut [u8])
    requires can { CanCopy N (plane_axes plane) plane.start source.now (length target.old) }
    requires rows { 0 < plane.outer.count }
    ensures { IsStridedCopy N order (plane_axes plane) plane.start source.now target.old target.new }
{
    let mut held = LargeHeld {
        rows: [0; LARGE_TILE_BYTES],
    };
    let most = large_column_length(N as u64);
    let mut at = 0;
    while at < plane.inner.count {
        let count = most.min(plane.inner.count - at);
        let band = inner_block(plane, at, count);
        copy_band::<N>(order, band, source, target, &mut held);
        at += count;
    }
}

/// One band, tile by tile.
fn copy_band<const N: usize>(
    order: Endian,
    plane: Plane,
    source: &[u8],
    target: &mut [u8],
    held: &mut LargeHeld,
)
    requires can { CanCopy N (plane_axes plane) plane.start source.now (length target.old) }
    requires some { 0 < plane.inner.count }
    requires few { plane.inner.count * N ≤ 4096 }
    ensures { IsStridedCopy N order (plane_axes plane) plane.start source.now target.old target.new }
{
    let mut at = 0;
    while at < plane.outer.count {
        let count = SIDE.min(plane.outer.count - at);
        let tile = outer_block(plane, at, count);
        copy_tile::<N>(order, tile, source, target, &mut held.rows);
        at += count;
    }
}

/// How many elements of `size` bytes a column of a tile of a large plane has at most.
fn large_column_length(size: u64) -> u64
    requires { IsSize size }
    ensures some { 0 < result }
    ensures few { result * size ≤ 4096 }
{
    LARGE_COLUMN_BYTES / size
}

/// How many elements of `size` bytes a column of a tile has at most, or a part of a longer one.
#[inline(always)]
fn column_length(size: u64) -> u64
    requires { IsSize size }
    ensures some { 0 < result }
    ensures few { result * size ≤ 256 }
{
    SIDE.min(COLUMN_BYTES / size)
}

/// One tile: rows of the source come in whole, and from a buffer within the first cache, or the
/// second, the elements go out by rows of the target. Columns of the source itself fall into few
/// places of the cache where its rows are as long as a power of two.
fn copy_tile<const N: usize>(
    order: Endian,
    plane: Plane,
    source: &[u8],
    target: &mut [u8],
    rows: &mut [u8],
)
    requires can { CanCopy N (plane_axes plane) plane.start source.now (length target.old) }
    requires rows { 0 < plane.outer.count }
    requires some { 0 < plane.inner.count }
    requires few_rows { plane.outer.count ≤ 64 }
    requires room { plane.inner.count * N * 64 ≤ length rows.old }
    ensures { IsStridedCopy N order (plane_axes plane) plane.start source.now target.old target.new }
{
    let (outer, inner) = (plane.outer, plane.inner);
    let into = Plane {
        outer: Axis {
            count: inner.count,
            from: inner.from,
            to: Stride::Up(SIDE),
        },
        inner: Axis {
            count: outer.count,
            from: outer.from,
            to: Stride::Up(1),
        },
        start: Start {
            from: plane.start.from,
            to: 0,
        },
    };
    copy_tile_rows::<N>(Endian::Little, into, source, rows);
    let out = Plane {
        outer: Axis {
            count: outer.count,
            from: Stride::Up(1),
            to: outer.to,
        },
        inner: Axis {
            count: inner.count,
            from: Stride::Up(SIDE),
            to: inner.to,
        },
        start: Start {
            from: 0,
            to: plane.start.to,
        },
    };
    copy_groups::<N>(order, out, rows, target);
}

/// The columns of a tile, `GROUP` of them at a time.
#[inline(always)]
fn copy_groups<const N: usize>(order: Endian, plane: Plane, source: &[u8], target: &mut [u8])
    requires can { CanCopy N (plane_axes plane) plane.start source.now (length target.old) }
    requires some { 0 < plane.inner.count }
    ensures { IsStridedCopy N order (plane_axes plane) plane.start source.now target.old target.new }
{
    let mut at = 0;
    while at < plane.outer.count {
        let count = GROUP.min(plane.outer.count - at);
        let group = outer_block(plane, at, count);
        copy_group::<N>(order, group, source, target);
        at += count;
    }
}

/// A group of columns, by parts whose length is known in the loop.
#[inline(always)]
fn copy_group<const N: usize>(order: Endian, plane: Plane, source: &[u8], target: &mut [u8])
    requires can { CanCopy N (plane_axes plane) plane.start source.now (length target.old) }
    requires rows { 0 < plane.outer.count }
    ensures { IsStridedCopy N order (plane_axes plane) plane.start source.now target.old target.new }
{
    let most = column_length(N as u64);
    let mut at = 0;
    while at < plane.inner.count {
        let count = most.min(plane.inner.count - at);
        let piece = inner_block(plane, at, count);
        copy_tile_columns::<N>(order, piece, source, target);
        at += count;
    }
}

/// Columns of a tile or parts of them, most of which have `column_length` elements.
#[inline(always)]
fn copy_tile_columns<const N: usize>(order: Endian, plane: Plane, source: &[u8], target: &mut [u8])
    requires can { CanCopy N (plane_axes plane) plane.start source.now (length target.old) }
    requires rows { 0 < plane.outer.count }
    requires some { 0 < plane.inner.count }
    ensures { IsStridedCopy N order (plane_axes plane) plane.start source.now target.old target.new }
{
    let whole = rising(column_length(N as u64), SIDE, 1);
    if is_axis(plane.inner, whole) {
        copy_going::<N>(order, plane, plane.outer, whole, source, target);
    } else {
        copy_short::<N>(order, plane, source, target);
    }
}

/// Rows whole where they stand together, else element by element.
fn copy_rows_of<const N: usize>(order: Endian, plane: Plane, source: &[u8], target: &mut [u8])
    requires can { CanCopy N (plane_axes plane) plane.start source.now (length target.old) }
    requires rows { 0 < plane.outer.count }
    requires some { 0 < plane.inner.count }
    ensures { IsStridedCopy N order (plane_axes plane) plane.start source.now target.old target.new }
{
    if is_dense(plane.inner) {
        let bytes = plane.inner.count * N as u64;
        match order {
            Endian::Big if bytes > LONG_BYTES => copy_reversed_rows::<N>(plane, source, target),
            _ => copy_runs::<N>(order, bytes, plane, source, target),
        }
    } else {
        copy_lines::<N>(order, plane, source, target);
    }
}

/// Long rows whose elements follow one another, with the bytes of each element reversed: one by one,
/// so that each is reversed on its way. The order is a literal: else the loop would test it.
#[inline(never)]
fn copy_reversed_rows<const N: usize>(plane: Plane, source: &[u8], target: &mut [u8])
    requires can { CanCopy N (plane_axes plane) plane.start source.now (length target.old) }
    requires some { 0 < plane.inner.count }
    requires dense { IsDenseAxis plane.inner }
    ensures { IsStridedCopy N Endian.Big (plane_axes plane) plane.start source.now target.old target.new }
{
    let next = rising(plane.inner.count, 1, 1);
    copy_going::<N>(Endian::Big, plane, plane.outer, next, source, target);
}

/// The same for a tile, most of whose rows have as many elements as a tile can have.
#[inline(always)]
fn copy_tile_rows<const N: usize>(order: Endian, plane: Plane, source: &[u8], target: &mut [u8])
    requires can { CanCopy N (plane_axes plane) plane.start source.now (length target.old) }
    requires rows { 0 < plane.outer.count }
    requires some { 0 < plane.inner.count }
    ensures { IsStridedCopy N order (plane_axes plane) plane.start source.now target.old target.new }
{
    if !is_dense(plane.inner) {
        copy_lines::<N>(order, plane, source, target);
    } else if plane.inner.count == SIDE {
        let whole = SIDE * N as u64;
        copy_each_run::<N>(order, whole, plane, source, target);
    } else {
        let bytes = plane.inner.count * N as u64;
        copy_each_run::<N>(order, bytes, plane, source, target);
    }
}

/// A plane's part along its inner axis, from one of its indices on.
#[inline(always)]
fn inner_block(plane: Plane, at: u64, count: u64) -> Plane
    requires { IsStart plane.start plane.inner at }
    ensures { result ≡ inner_block_of plane at count }
{
    Plane {
        outer: plane.outer,
        inner: Axis {
            count,
            from: plane.inner.from,
            to: plane.inner.to,
        },
        start: later(plane.start, plane.inner, at),
    }
}

/// A plane's part along its outer axis, from one of its indices on.
#[inline(always)]
fn outer_block(plane: Plane, at: u64, count: u64) -> Plane
    requires { IsStart plane.start plane.outer at }
    ensures { result ≡ outer_block_of plane at count }
{
    Plane {
        outer: Axis {
            count,
            from: plane.outer.from,
            to: plane.outer.to,
        },
        inner: plane.inner,
        start: later(plane.start, plane.outer, at),
    }
}

/// Whether the elements along an axis follow one another in both buffers.
fn is_dense(axis: Axis) -> bool
    ensures { IsTrue result → IsDenseAxis axis }
{
    is_next(axis.from) && is_next(axis.to)
}

/// Whether a stride goes to the next place.
fn is_next(stride: Stride) -> bool
    ensures { IsTrue result → stride ≡ Stride.Up 1 }
{
    match stride {
        Stride::Up(far) => far == 1,
        Stride::Down(_) => false,
    }
}

/// The same where the elements along the inner axis follow one another, `bytes` at a time. How many
/// bytes a short row has is known in its loop. A call keeps the loops apart from all others, beside
/// which the compiler would hold their numbers in memory: a row would then take two stores.
#[inline(never)]
fn copy_runs<const N: usize>(
    order: Endian,
    bytes: u64,
    plane: Plane,
    source: &[u8],
    target: &mut [u8],
)
    requires can { CanCopy N (plane_axes plane) plane.start source.now (length target.old) }
    requires some { 0 < plane.inner.count }
    requires dense { IsDenseAxis plane.inner }
    requires bytes { bytes ≡ plane.inner.count * N }
    ensures { IsStridedCopy N order (plane_axes plane) plane.start source.now target.old target.new }
{
    match bytes {
        1 => copy_each_run::<N>(order, 1, plane, source, target),
        2 => copy_each_run::<N>(order, 2, plane, source, target),
        3 => copy_each_run::<N>(order, 3, plane, source, target),
        4 => copy_each_run::<N>(order, 4, plane, source, target),
        6 => copy_each_run::<N>(order, 6, plane, source, target),
        8 => copy_eights::<N>(order, plane, source, target),
        12 => copy_each_run::<N>(order, 12, plane, source, target),
        16 => copy_each_run::<N>(order, 16, plane, source, target),
        24 => copy_each_run::<N>(order, 24, plane, source, target),
        32 => copy_each_run::<N>(order, 32, plane, source, target),
        48 => copy_each_run::<N>(order, 48, plane, source, target),
        64 => copy_each_run::<N>(order, 64, plane, source, target),
        _ => copy_each_run::<N>(order, bytes, plane, source, target),
    }
}

/// The same of rows of 8 bytes. Their order is a literal in the loops: else the compiler would move
/// them byte by byte.
#[inline(never)]
fn copy_eights<const N: usize>(order: Endian, plane: Plane, source: &[u8], target: &mut [u8])
    requires can { CanCopy N (plane_axes plane) plane.start source.now (length target.old) }
    requires some { 0 < plane.inner.count }
    requires dense { IsDenseAxis plane.inner }
    requires bytes { 8 ≡ plane.inner.count * N }
    ensures { IsStridedCopy N order (plane_axes plane) plane.start source.now target.old target.new }
{
    match order {
        Endian::Little => copy_each_run::<N>(Endian::Little, 8, plane, source, target),
        Endian::Big => copy_each_run::<N>(Endian::Big, 8, plane, source, target),
    }
}

/// The same for a number of bytes that is known where it is called.
#[inline(always)]
fn copy_each_run<const N: usize>(
    order: Endian,
    bytes: u64,
    plane: Plane,
    source: &[u8],
    target: &mut [u8],
)
    requires can { CanCopy N (plane_axes plane) plane.start source.now (length target.old) }
    requires some { 0 < plane.inner.count }
    requires dense { IsDenseAxis plane.inner }
    requires bytes { bytes ≡ plane.inner.count * N }
    ensures { IsStridedCopy N order (plane_axes plane) plane.start source.now target.old target.new }
{
    for row in 0..plane.outer.count {
        let place = later(plane.start, plane.outer, row);
        copy_dense::<N>(order, bytes, plane.inner, place, source, target);
    }
}

/// Copies elements that follow one another in both buffers, `bytes` in all.
#[inline(always)]
fn copy_dense<const N: usize>(
    order: Endian,
    bytes: u64,
    axis: Axis,
    start: Start,
    source: &[u8],
    target: &mut [u8],
)
    requires can { CanCopy N (axis ∷ []) start source.now (length target.old) }
    requires some { 0 < axis.count }
    requires dense { IsDenseAxis axis }
    requires bytes { bytes ≡ axis.count * N }
    ensures { IsStridedCopy N order (axis ∷ []) start source.now target.old target.new }
{
    let first = start.from * N as u64;
    let at = start.to * N as u64;
    copy_run(
        N as u64,
        order,
        source,
        first as usize,
        target,
        at as usize,
        bytes as usize,
    );
}

/// The same element by element. How far a step goes is known in the loops of the strides that come
/// most often, and in those of a turned plane which way.
fn copy_lines<const N: usize>(order: Endian, plane: Plane, source: &[u8], target: &mut [u8])
    requires can { CanCopy N (plane_axes plane) plane.start source.now (length target.old) }
    requires some { 0 < plane.inner.count }
    ensures { IsStridedCopy N order (plane_axes plane) plane.start source.now target.old target.new }
{
    let (outer, count) = (plane.outer, plane.inner.count);
    let down = Axis {
        count,
        from: Stride::Down(1),
        to: Stride::Up(1),
    };
    let (still, next) = (rising(count, 0, 1), rising(count, 1, 1));
    let up = rising(count, far(plane.inner.from), 1);
    if is_axis(plane.inner, down) {
        copy_going::<N>(order, plane, outer, down, source, target);
    } else if is_axis(plane.inner, still) {
        copy_going::<N>(order, plane, outer, still, source, target);
    } else if is_axis(plane.inner, next) {
        copy_going::<N>(order, plane, outer, next, source, target);
    } else if is_axis(plane.inner, up) {
        copy_going::<N>(order, plane, outer, up, source, target);
    } else {
        copy_each_line::<N>(order, plane, source, target);
    }
}

/// Whether an axis is the one that is known.
#[inline(always)]
fn is_axis(axis: Axis, known: Axis) -> bool
    ensures { IsTrue result → axis ≡ known }
{
    axis.count == known.count && axis.from == known.from && axis.to == known.to
}

/// The same of a plane of these axes, of which each call gives as literals what is known.
#[inline(always)]
fn copy_going<const N: usize>(
    order: Endian,
    plane: Plane,
    outer: Axis,
    inner: Axis,
    source: &[u8],
    target: &mut [u8],
)
    requires can { CanCopy N (plane_axes plane) plane.start source.now (length target.old) }
    requires some { 0 < plane.inner.count }
    requires outer { plane.outer ≡ outer }
    requires inner { plane.inner ≡ inner }
    ensures { IsStridedCopy N order (plane_axes plane) plane.start source.now target.old target.new }
{
    let start = plane.start;
    let same = Plane {
        outer,
        inner,
        start,
    };
    copy_each_line::<N>(order, same, source, target);
}

/// The same, line by line.
#[inline(always)]
fn copy_each_line<const N: usize>(order: Endian, plane: Plane, source: &[u8], target: &mut [u8])
    requires can { CanCopy N (plane_axes plane) plane.start source.now (length target.old) }
    requires some { 0 < plane.inner.count }
    ensures { IsStridedCopy N order (plane_axes plane) plane.start source.now target.old target.new }
{
    for row in 0..plane.outer.count {
        let place = later(plane.start, plane.outer, row);
        copy_line::<N>(order, plane.inner, place, source, target);
    }
}

/// Copies the elements along one axis.
#[inline(always)]
fn copy_line<const N: usize>(
    order: Endian,
    axis: Axis,
    start: Start,
    source: &[u8],
    target: &mut [u8],
)
    requires { CanCopy N (axis ∷ []) start source.now (length target.old) }
    ensures { IsStridedCopy N order (axis ∷ []) start source.now target.old target.new }
{
    for number in 0..axis.count {
        let place = later(start, axis, number);
        copy_element::<N>(order, place, source, target);
    }
}

/// Copies one element.
#[inline(always)]
fn copy_element<const N: usize>(order: Endian, start: Start, source: &[u8], target: &mut [u8])
    requires { CanCopy N [] start source.now (length target.old) }
    ensures { IsStridedCopy N order [] start source.now target.old target.new }
{
    let first = start.from * N as u64;
    let at = start.to * N as u64;
    copy_array::<N>(N as u64, order, source, first as usize, target, at as usize);
}
