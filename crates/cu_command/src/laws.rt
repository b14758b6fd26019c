//! Laws of the names of inputs and of their metadata: calls that do nothing and whose clauses are the laws.
ghost use Rattle.std.specs.Prelude.{◌≡◌, ◌∷◌, ◌++◌, ℕ, List, Ok};
ghost use Rattle.cu_form.specs.Expression.{Expression};
ghost use Rattle.cu_op.specs.Layout.{layout_view};
ghost use Rattle.cu_op.specs.declared.layout.Layout.{Layout};
ghost use Rattle.cu_meta.specs.Metadata.{read_metadata};
ghost use Rattle.cu_v2.specs.Zarray.{zarray_layout};
ghost use Rattle.cu_expr.specs.Premises.{HasGrid};
ghost use Rattle.cu_command.specs.Inputs.{names_in, used_names, IsFirstUse};

/// Where a name stands among an expression's names, an input node uses it for the first time, and the names before it are those
/// that the nodes before that one use.
pub fn names_law()
    ensures { (e : Expression) (front : List (List ℕ)) (name : List ℕ) (behind : List (List ℕ)) → names_in e ≡ front ++ name ∷ behind → IsFirstUse (used_names e.nodes) front name }
{}

/// Each layout that a reader of metadata accepts, of version 3 or of version 2, is one that typing takes.
pub fn stored_law()
    ensures written { (bytes : List ℕ) (l : Layout) → read_metadata bytes ≡ Ok (layout_view l) → HasGrid l }
    ensures zarray { (bytes : List ℕ) (l : Layout) → zarray_layout bytes ≡ Ok (layout_view l) → HasGrid l }
{}
