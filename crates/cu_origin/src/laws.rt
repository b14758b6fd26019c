//! Laws of views: a call that does nothing and whose clause is the law.

ghost use Rattle.std.specs.Prelude.{ℕ, List};
ghost use Rattle.cu_shape.specs.Index.{IsInside};
ghost use Rattle.cu_origin.specs.Pull.{origin_of, IsInSources};
ghost use Rattle.cu_origin.specs.Fits.{FitsPull};
ghost use Rattle.cu_origin.specs.declared.pull.Pull.{Pull};

/// Where a view fits its sources and its result, each element of the result that comes from a source comes from an index inside it.
pub fn origins_inside()
    ensures { (pull : Pull) (sources : List (List ℕ)) (shape idx : List ℕ) → FitsPull pull sources shape → IsInside shape idx → IsInSources sources (origin_of pull sources shape idx) }
{}
