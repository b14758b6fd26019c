//! Laws of the definitions: calls that do nothing, and whose clauses are the laws.
ghost use Rattle.std.specs.Prelude.{◌≡◌, ℕ, List, Ok};
ghost use Rattle.cu_load.specs.LoadForm.{GivenArray, load_of, IsGivenArray};
ghost use Rattle.cu_load.specs.Said.{IsTextOf};

/// A text is read as an array exactly where its members say this array, each by itself; and each array that is read is one that may
/// be stored.
pub fn form_law()
    ensures accepted { (text : List ℕ) (a : GivenArray) → load_of text ≡ Ok a → IsTextOf text a }
    ensures said { (text : List ℕ) (a : GivenArray) → IsTextOf text a → load_of text ≡ Ok a }
    ensures given { (text : List ℕ) (a : GivenArray) → load_of text ≡ Ok a → IsGivenArray a }
{}
