ghost use Rattle.std.specs.Prelude.{◌≡◌};
ghost use Rattle.cu_num.specs.Fold.{fold_accepts, fold_type};

use crate::types::{Dtype, is_bool, is_signed};

/// A reduction (Python array API, statistical and utility functions).
#[derive(Clone, Copy, Debug, PartialEq, Eq)]
pub enum FoldKind {
    Sum,
    Prod,
    Min,
    Max,
    /// whether an element isn't 0
    Any,
    /// whether no element is 0
    All,
}

/// Whether the reduction accepts the type of its argument.
pub fn fold_accepts(kind: FoldKind, t: Dtype) -> bool
    ensures { result ≡ fold_accepts kind t }
{
    match kind {
        FoldKind::Any | FoldKind::All => true,
        _ => !is_bool(t),
    }
}

/// The type of the reduction of an argument of type `t`.
pub fn fold_type(kind: FoldKind, t: Dtype) -> Dtype
    ensures { result ≡ fold_type kind t }
{
    match kind {
        FoldKind::Sum | FoldKind::Prod if is_signed(t) => Dtype::Int64,
        FoldKind::Sum | FoldKind::Prod => Dtype::Uint64,
        FoldKind::Min | FoldKind::Max => t,
        FoldKind::Any | FoldKind::All => Dtype::Bool,
    }
}
