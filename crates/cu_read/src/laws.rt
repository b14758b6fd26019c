//! Laws of the reader: each is a call that does nothing and whose clause is the law.
ghost use Rattle.std.specs.Prelude.{◌≡◌, ◌↔◌, ℕ, Some, List, false, Ok};
ghost use Rattle.serde_json.specs.Data.{Data};
ghost use Rattle.serde_json.specs.Read.{read};
ghost use Rattle.serde_json.specs.Written.{has_float};
ghost use Rattle.cu_form.specs.Expression.{Expression};
ghost use Rattle.cu_read.specs.Form.{HasForm};
ghost use Rattle.cu_read.specs.Read.{expression_of};

/// A text is read as an expression exactly where it has the form of that expression.
pub fn form_law()
    ensures { (text : List ℕ) (e : Expression) → (expression_of text ≡ Ok e) ↔ HasForm text e }
{}

/// The JSON value of a text that is read as an expression has no float: each number in it is an integer.
pub fn plain_law()
    ensures { (text : List ℕ) (e : Expression) (d : Data) → expression_of text ≡ Ok e → read text ≡ Some d → has_float d ≡ false }
{}
