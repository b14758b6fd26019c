//! Arrays read at an index of integers, slices, new axes and an ellipsis.
ghost use Rattle.std.specs.Prelude.{◌≡◌, ◌+◌, ◌<◌, ◌≤◌, ◌^◌, ◌++◌, [], ◌∷◌, false, None, IfOk, IfSome, IfNone, length, take, drop};
ghost use Rattle.cu_shape.specs.Index.{axis_by_axis};
ghost use Rattle.cu_node.specs.Info.{IsInfo};
ghost use Rattle.cu_node.specs.Limited.{limited};
ghost use Rattle.cu_typing_view.specs.Entries.{takes_axis, is_ellipsis, width_of, is_index, suits_axis, count_taken, clipped_chunk_size, untaken, is_wrong, first_wrong, sizes_left, chunk_left, index_shape, index_chunk, typed_index};

use cu_node::{FaultCode, IndexItem, NodeFault, NodeInfo, fault_at, size_at, within_limits};
use cu_shape::{Dims, slice_of};

/// The array at an index, in chunks as the array has them, cut to the indices that are taken. The first of these faults is
/// answered: Index with the number of the first entry that is wrong (an integer outside its axis, a step of 0, no axis left, a
/// second ellipsis), Limit.
pub fn type_index(array: &NodeInfo, items: &[IndexItem]) -> Result<NodeInfo, NodeFault>
    requires kept { IsInfo array.now }
    requires short { length items.now < 2 ^ 32 }
    ensures value { result ≡ typed_index array.now items.now }
    ensures kept { IfOk result IsInfo }
{
    let more = untaken(array.dims.rank(), items);
    if let Some(place) = first_wrong(more, items, &array.dims) {
        return Err(fault_at(FaultCode::Index, place));
    }
    index_array(more, items, array)
}

/// The array at an index without a wrong entry.
fn index_array(more: u32, items: &[IndexItem], array: &NodeInfo) -> Result<NodeInfo, NodeFault>
    requires more { more ≤ 6 }
    requires kept { IsInfo array.now }
    requires right { first_wrong more false 0 items.now array.now.dims ≡ None }
    ensures value { result ≡ limited array.now.dtype (index_shape more items.now array.now.dims) (index_chunk more items.now array.now.dims array.now.chunk) }
    ensures kept { IfOk result IsInfo }
{
    match index_shape(more, items, &array.dims) {
        None => Err(fault_at(FaultCode::Limit, 1)),
        Some(shape) => match index_chunk(more, items, array) {
            None => Err(fault_at(FaultCode::Limit, 1)),
            Some(chunk) => within_limits(true, array.dtype, shape, chunk),
        },
    }
}

/// Whether an entry takes one axis.
fn takes_axis(item: &IndexItem) -> bool
    ensures { result ≡ takes_axis item.now }
{
    match item {
        IndexItem::At(_) | IndexItem::Slice { .. } => true,
        IndexItem::New | IndexItem::Ellipsis => false,
    }
}

/// Whether an entry is the ellipsis.
fn is_ellipsis(item: &IndexItem) -> bool
    ensures { result ≡ is_ellipsis item.now }
{
    match item {
        IndexItem::Ellipsis => true,
        IndexItem::At(_) | IndexItem::Slice { .. } | IndexItem::New => false,
    }
}

/// How many axes an entry takes, where the ellipsis stands for `more` of them.
pub fn width_of(more: u32, item: &IndexItem) -> u32
    requires { more ≤ 6 }
    ensures value { result ≡ width_of more item.now }
    ensures small { result ≤ 6 }
{
    match item {
        IndexItem::At(_) | IndexItem::Slice { .. } => 1,
        IndexItem::New => 0,
        IndexItem::Ellipsis => more,
    }
}

/// Whether an integer is an index of an axis of this size, a negative one counted from the end.
fn is_index(index: i64, size: u64) -> bool
    ensures { result ≡ is_index index size }
{
    if index < 0 {
        ((-1 - index) as u64) < size
    } else {
        (index as u64) < size
    }
}

/// Whether an entry suits an axis of this size.
fn suits_axis(item: &IndexItem, size: u64) -> bool
    ensures { result ≡ suits_axis item.now size }
{
    match item {
        IndexItem::At(index) => is_index(*index, size),
        IndexItem::Slice { step, .. } => step.unwrap_or(1) != 0,
        IndexItem::New | IndexItem::Ellipsis => true,
    }
}

/// How many axes no entry takes, of an array of this rank.
pub fn untaken(rank: u32, items: &[IndexItem]) -> u32
    requires { length items.now < 2 ^ 32 }
    ensures value { result ≡ untaken rank items.now }
    ensures small { result ≤ rank }
{
    let taken = items.iter().filter(|item| takes_axis(item)).count();
    rank.saturating_sub(taken as u32)
}

/// Whether an entry is wrong for the axes that are left for it, those from `axis` on.
fn is_wrong(seen: bool, item: &IndexItem, sizes: &Dims, axis: u32) -> bool
    requires { axis ≤ length sizes.now }
    ensures { result ≡ is_wrong seen item.now (drop axis sizes.now) }
{
    let again = is_ellipsis(item) && seen;
    if axis < sizes.rank() {
        !suits_axis(item, sizes.at(axis)) || again
    } else {
        takes_axis(item) || again
    }
}

/// The number of the first wrong entry.
fn first_wrong(more: u32, items: &[IndexItem], sizes: &Dims) -> Option<u32>
    requires more { more ≤ 6 }
    requires short { length items.now < 2 ^ 32 }
    ensures { result ≡ first_wrong more false 0 items.now sizes.now }
{
    let rank = sizes.rank();
    let mut axis = 0;
    let mut seen = false;
    for (place, item) in items.iter().enumerate() {
        if is_wrong(seen, item, sizes, axis) {
            return Some(place as u32);
        }
        seen = seen || is_ellipsis(item);
        axis = (axis + width_of(more, item)).min(rank);
    }
    None
}

/// How many indices a slice takes of an axis of this size; none where the step is 0.
#[tactic(auto, unfolding(crate::specs::Entries::count_taken))]
fn count_taken(start: Option<i64>, stop: Option<i64>, step: Option<i64>, size: u64) -> u64
    ensures { result ≡ count_taken start stop step size }
{
    match slice_of(start, stop, step.unwrap_or(1), size) {
        Ok(run) => run.count,
        Err(_) => 0,
    }
}

/// The chunk size of an axis on which so many indices are taken.
fn cut(count: u64, size: u64) -> u64
    ensures { result ≡ clipped_chunk_size count size }
{
    size.min(count.max(1))
}

/// The chunk sizes cut to the sizes of the array.
fn cut_whole(array: &NodeInfo) -> Dims
    requires { IsInfo array.now }
    ensures { result ≡ axis_by_axis clipped_chunk_size array.now.dims array.now.chunk }
{
    let mut whole = array.chunk;
    for axis in 0..array.dims.rank() {
        whole.put(axis, cut(array.dims.at(axis), array.chunk.at(axis)));
    }
    whole
}

/// The numbers and one more behind; none where they are six.
fn with_one(left: &Dims, number: u64) -> Option<Dims>
    ensures more { IfSome result (λ r. r ≡ left.now ++ number ∷ []) }
    ensures full { IfNone result (length left.now ≡ 6) }
{
    if left.rank() == 6 {
        return None;
    }
    let mut more = *left;
    more.push(number);
    Some(more)
}

/// The numbers and those of `from` on up to `count` axes from `first` on; none where that is more than six.
fn with_range(left: &Dims, from: &Dims, first: u32, count: u32) -> Option<Dims>
    requires within { first ≤ length from.now }
    requires few { count ≤ 6 }
    ensures more { IfSome result (λ r. r ≡ left.now ++ take count (drop first from.now)) }
    ensures full { IfNone result (6 < length left.now + length (take count (drop first from.now))) }
{
    let rank = from.rank();
    let end = (first + count).min(rank);
    if left.rank() + (end - first) > 6 {
        return None;
    }
    let mut more = *left;
    more.push_range(from, first, end);
    Some(more)
}

/// The sizes and those that an entry leaves of the axes from `axis` on; none where that is more than six.
fn with_sizes(left: &Dims, more: u32, item: &IndexItem, sizes: &Dims, axis: u32) -> Option<Dims>
    requires more { more ≤ 6 }
    requires within { axis ≤ length sizes.now }
    ensures left { IfSome result (λ r. r ≡ left.now ++ sizes_left more item.now (drop axis sizes.now)) }
    ensures full { IfNone result (6 < length left.now + length (sizes_left more item.now (drop axis sizes.now))) }
{
    match item {
        IndexItem::At(_) => Some(*left),
        IndexItem::Slice { start, stop, step } => {
            with_one(
                left,
                count_taken(*start, *stop, *step, size_at(sizes, axis)),
            )
        }
        IndexItem::New => with_one(left, 1),
        IndexItem::Ellipsis => with_range(left, sizes, axis, more),
    }
}

/// The chunk sizes and those that an entry leaves of the axes from `axis` on; none where that is more than six. `whole` are
/// those of whole axes.
fn with_chunk(
    left: &Dims,
    more: u32,
    item: &IndexItem,
    array: &NodeInfo,
    whole: &Dims,
    axis: u32,
) -> Option<Dims>
    requires kept { IsInfo array.now }
    requires whole { whole.now ≡ axis_by_axis clipped_chunk_size array.now.dims array.now.chunk }
    requires more { more ≤ 6 }
    requires within { axis ≤ length array.now.dims }
    ensures left { IfSome result (λ r. r ≡ left.now ++ chunk_left more item.now (drop axis array.now.dims) (drop axis array.now.chunk)) }
    ensures full { IfNone result (6 < length left.now + length (chunk_left more item.now (drop axis array.now.dims) (drop axis array.now.chunk))) }
{
    match item {
        IndexItem::At(_) => Some(*left),
        IndexItem::Slice { start, stop, step } => {
            let count = count_taken(*start, *stop, *step, size_at(&array.dims, axis));
            with_one(left, cut(count, size_at(&array.chunk, axis)))
        }
        IndexItem::New => with_one(left, 1),
        IndexItem::Ellipsis => with_range(left, whole, axis, more),
    }
}

/// The shape of the result; none where it has more than six axes.
fn index_shape(more: u32, items: &[IndexItem], sizes: &Dims) -> Option<Dims>
    requires { more ≤ 6 }
    ensures shape { IfSome result (λ r. r ≡ index_shape more items.now sizes.now) }
    ensures full { IfNone result (6 < length (index_shape more items.now sizes.now)) }
{
    let rank = sizes.rank();
    let mut left = Dims::default();
    let mut axis = 0;
    for item in items {
        left = with_sizes(&left, more, item, sizes, axis)?;
        axis = (axis + width_of(more, item)).min(rank);
    }
    with_range(&left, sizes, axis, rank)
}

/// The chunk shape of the result; none where it has more than six axes.
fn index_chunk(more: u32, items: &[IndexItem], array: &NodeInfo) -> Option<Dims>
    requires more { more ≤ 6 }
    requires kept { IsInfo array.now }
    ensures chunk { IfSome result (λ r. r ≡ index_chunk more items.now array.now.dims array.now.chunk) }
    ensures full { IfNone result (6 < length (index_chunk more items.now array.now.dims array.now.chunk)) }
{
    let whole = cut_whole(array);
    let rank = array.dims.rank();
    let mut left = Dims::default();
    let mut axis = 0;
    for item in items {
        left = with_chunk(&left, more, item, array, &whole, axis)?;
        axis = (axis + width_of(more, item)).min(rank);
    }
    with_range(&left, &whole, axis, rank)
}
