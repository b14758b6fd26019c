//! Laws along an axis, of prefix sums and of groups: calls that do nothing and whose clauses are the laws.
ghost use Rattle.std.specs.Prelude.{◌≡◌, ◌<◌, ◌≤◌, ℕ, ℤ, Bool, List, map, length, slice_set, slice_index, Option, None, Some};
ghost use Rattle.std.specs.List.{range_with_len};
ghost use Rattle.cu_num.specs.Dtype.{IsInteger};
ghost use Rattle.cu_num.specs.declared.types.Dtype.{Dtype};
ghost use Rattle.cu_num.specs.declared.folds.FoldKind.TheVariants.{Sum};
ghost use Rattle.cu_num.specs.declared.folds.FoldKind.{FoldKind};
ghost use Rattle.cu_reduce.specs.Folds.{reduced_to};
ghost use Rattle.cu_reduce.specs.Groups.{groups_of, group_counts, group_indices};
ghost use Rattle.cu_reduce.specs.Levels.{Level, AreLevels, HasChunkSums, group_sum, scan_sum};
ghost use Rattle.cu_reduce.specs.Prefix.{Line, line_through, span, cumulative};
ghost use Rattle.cu_reduce.specs.Tiers.{Array, Tier, AreTiers, HasChunkTier, IsOnly, scan_at};
ghost use Rattle.cu_reduce.specs.Kinds.{Accumulates, IsTaken};
ghost use Rattle.cu_reduce.specs.Labels.{grouped_to, marked, chunk_places, chunks_on};
ghost use Rattle.cu_shape.specs.Index.{IsInside};
ghost use Rattle.cu_along.specs.Rounds.{after_rounds};

/// Along a line, whatever the chunks of the source and the size of groups: what is carried into a
/// place is the wrapped sum of all sums before it, and a scan gives each element of the source the
/// wrapped sum of all elements up to it. The elements of a group along one axis are those of a line
/// through it, so what a fold and a merge make of it is the sum of a group of the line.
pub fn scan_law()
    ensures groups { (acc : Dtype) (at : Array) (p : ℕ
        → Bool) (axis q : ℕ) (sizes shape idx : List ℕ)
        → IsOnly p axis → length sizes ≡ length shape → axis < length shape → axis < length idx
        → IsInside (group_counts (groups_of p sizes) shape) (slice_set idx axis q)
        → reduced_to Sum acc (map at (group_indices (groups_of p sizes) shape
        (slice_set idx axis q)))
        ≡ group_sum acc (slice_index sizes axis) (slice_index shape axis)
        (line_through at axis idx) q }
    ensures carries { (acc : Dtype) (g : ℕ) (l : Level) (ls : List Level) (j : ℕ)
        → IsInteger acc → 0 < g → AreLevels acc g l ls → j < l.size
        → l.carry j ≡ reduced_to Sum acc (span l.sums 0 j) }
    ensures chunks { (acc : Dtype) (g c n : ℕ) (f : Line) (l : Level) (ls : List Level) (i : ℕ)
        → IsInteger acc → 0 < g → 0 < c → HasChunkSums acc c n f l → AreLevels acc g l ls → i < n
        → scan_sum acc c f (Some l.carry) i ≡ cumulative acc f i }
    ensures single { (acc : Dtype) (c n : ℕ) (f : Line) (i : ℕ) → n ≤ c → i < n
        → scan_sum acc c f None i ≡ cumulative acc f i }
{}

/// The same for arrays, whatever the shape, the chunks, the axis and the size of groups: where the
/// sums of the chunks along the axis, the sums of groups of these and so on, and what is carried
/// into each are what the operations' rules make of them, a scan of the source gives each element
/// the sum of all elements up to it, wrapped once. Where the axis is no longer than a chunk, a scan
/// into which nothing is carried does so too.
pub fn array_law()
    ensures carried { (acc : Dtype) (p : ℕ → Bool) (axis g : ℕ) (chunk shape : List ℕ) (f : Array)
        (t : Tier) (us : List Tier) (idx : List ℕ)
        → IsInteger acc → 0 < g → IsOnly p axis → length chunk ≡ length shape → axis < length shape
        → 0 < slice_index chunk axis → HasChunkTier acc p chunk shape f t
        → AreTiers acc p axis g t us
        → IsInside shape idx → scan_at acc axis (slice_index chunk axis) f (Some t.carry) idx
        ≡ cumulative acc (line_through f axis idx) (slice_index idx axis) }
    ensures single { (acc : Dtype) (axis c : ℕ) (shape : List ℕ) (f : Array) (idx : List ℕ)
        → axis < length shape → slice_index shape axis ≤ c → IsInside shape idx
        → scan_at acc axis c f None idx
        ≡ cumulative acc (line_through f axis idx) (slice_index idx axis) }
{}

/// What is made of a group in each chunk of an axis, merged at once or in rounds, is what is made
/// of it along the whole axis.
pub fn group_merge_law()
    ensures once { (kind : FoldKind) (t acc : Dtype) (q : ℕ) (label element : ℕ → Option ℤ)
        → Accumulates kind t acc → ((p : ℕ) (x : ℤ) → element p ≡ Some x → IsTaken kind acc x)
        → (size n : ℕ) → 0 < size
        → reduced_to kind acc (map (λ c. grouped_to kind acc q (marked label element
        (chunk_places size n c))) (range_with_len 0 (chunks_on size n)))
        ≡ grouped_to kind acc q (marked label element (range_with_len 0 n)) }
    ensures rounds { (kind : FoldKind) (t acc : Dtype) (q : ℕ) (label element : ℕ → Option ℤ)
        → Accumulates kind t acc → ((p : ℕ) (x : ℤ) → element p ≡ Some x → IsTaken kind acc x)
        → (size n split_every : ℕ) → 0 < size → 2 ≤ split_every
        → after_rounds kind acc split_every (chunks_on size n) (chunks_on size n)
        (λ c. grouped_to kind acc q (marked label element (chunk_places size n c))) 0
        ≡ grouped_to kind acc q (marked label element (range_with_len 0 n)) }
{}
