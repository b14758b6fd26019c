//! The law of grouped sums: a call that does nothing and whose clause is the law.
ghost use Rattle.std.specs.Prelude.{◌^◌, ℕ, ℤ, All, map};
ghost use Rattle.std.specs.List.{range_with_len};
ghost use Rattle.cu_num.specs.Fold.{fold_type};
ghost use Rattle.cu_num.specs.Wrap.{wrapped, DifferByMultiple};
ghost use Rattle.cu_num.specs.declared.folds.FoldKind.TheVariants.{Sum};
ghost use Rattle.cu_num.specs.declared.types.Dtype.{Dtype};
ghost use Rattle.cu_reduce.specs.Folds.{exact_sum};
ghost use Rattle.cu_reduce.specs.Labels.{IsGroup, grouped_at};

/// Where each label is the number of a group, the sum of the groups' sums is congruent to the sum
/// of all elements: they differ by a multiple of 2^64.
pub fn group_law()
    ensures { (t : Dtype) (label element : ℕ → ℤ) (groups n : ℕ)
        → All (λ p. IsGroup groups (label p)) (range_with_len 0 n)
        → DifferByMultiple (2 ^ 64) (exact_sum (map element (range_with_len 0 n)))
        (exact_sum (map (λ q. wrapped (fold_type Sum t) (grouped_at Sum
        (fold_type Sum t) label element q (range_with_len 0 n))) (range_with_len 0 groups))) }
{}
