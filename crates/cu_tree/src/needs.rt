//! The memory of the operations of reductions and products, in bytes, besides what is reserved.

ghost use Rattle.std.specs.Prelude.{◌≡◌, ◌≤◌, ◌*◌, ◌^◌};
ghost use Rattle.cu_tree.specs.Needs.{fold_bytes, merge_bytes, pair_fold_bytes, pair_merge_bytes, product_bytes};

/// The bytes of a fold of chunks of `source` bytes to chunks of `partial` bytes.
pub fn fold_bytes(source: u64, partial: u64) -> u64
    requires source { source ≤ 2 ^ 28 }
    requires partial { partial ≤ 2 ^ 28 }
    ensures bytes { result ≡ fold_bytes source partial }
    ensures small { result ≤ 2 ^ 40 }
{
    source.max(partial) + source + partial
}

/// The bytes of a merge of groups of `group` chunks of partial results.
pub fn merge_bytes(group: u32, partial: u64) -> u64
    requires partial { partial ≤ 2 ^ 28 }
    ensures bytes { result ≡ merge_bytes group partial }
    ensures small { result ≤ 2 ^ 62 }
{
    partial + (u64::from(group) + 1) * partial
}

/// The bytes of a search for places in chunks of `source` bytes; those of its values, and of its places.
pub fn pair_fold_bytes(source: u64, values: u64, places: u64) -> u64
    requires source { source ≤ 2 ^ 28 }
    requires values { values ≤ 2 ^ 28 }
    requires places { places ≤ 2 ^ 28 }
    ensures bytes { result ≡ pair_fold_bytes source values places }
    ensures small { result ≤ 2 ^ 40 }
{
    source.max(places) + source + values + places
}

/// The bytes of a merge of groups of `group` chunks of values and as many of places.
pub fn pair_merge_bytes(group: u32, values: u64, places: u64) -> u64
    requires values { values ≤ 2 ^ 28 }
    requires places { places ≤ 2 ^ 28 }
    ensures bytes { result ≡ pair_merge_bytes group values places }
    ensures small { result ≤ 2 ^ 62 }
{
    places + (u64::from(group) + 1) * (values + places)
}

/// The bytes of a product of chunks of the operands, aligned to one another, to a chunk of partial results.
pub fn product_bytes(left: u64, right: u64, partial: u64) -> u64
    requires left { left ≤ 2 ^ 28 }
    requires right { right ≤ 2 ^ 28 }
    requires partial { partial ≤ 2 ^ 28 }
    ensures bytes { result ≡ product_bytes left right partial }
    ensures small { result ≤ 2 ^ 40 }
{
    left.max(right.max(partial)) + left + right + partial
}
