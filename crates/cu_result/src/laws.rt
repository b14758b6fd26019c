//! Laws of the words: calls that do nothing and whose clauses are the laws.
ghost use Rattle.std.specs.Prelude.{◌≡◌, ◌⊎◌, Bool, true, false, Option, Some, None, Result, Ok, Err, ⊤};
ghost use Rattle.cu_result.specs.Results.{◌>>=◌ as and_then, check, need};

/// Where a list of steps has a value, each step passed: this one gave a value, and the rest of the list gave its value
/// from that one. A check that passed holds, and what was needed was there.
pub fn passed_steps<A, B, E>()
    ensures step { (r : Result A E) (f : A → Result B E) (y : B) → and_then r f ≡ Ok y → (x : A) × (r ≡ Ok x) × (f x ≡ Ok y) }
    ensures check { (b : Bool) (e : E) (f : ⊤ → Result B E) (y : B) → and_then (check b e) f ≡ Ok y → (b ≡ true) × (f tt ≡ Ok y) }
    ensures need { (o : Option A) (e : E) (f : A → Result B E) (y : B) → and_then (need o e) f ≡ Ok y → (x : A) × (o ≡ Some x) × (f x ≡ Ok y) }
{}

/// Where a list of steps has a fault, it is the first step's, which failed, or that step passed and it is the fault of the
/// rest.
pub fn failed_steps<A, B, E>()
    ensures step { (r : Result A E) (f : A → Result B E) (e : E) → and_then r f ≡ Err e → (r ≡ Err e) ⊎ ((x : A) × (r ≡ Ok x) × (f x ≡ Err e)) }
    ensures check { (b : Bool) (e e' : E) (f : ⊤ → Result B E) → and_then (check b e) f ≡ Err e' → ((b ≡ false) × (e ≡ e')) ⊎ ((b ≡ true) × (f tt ≡ Err e')) }
    ensures need { (o : Option A) (e e' : E) (f : A → Result B E) → and_then (need o e) f ≡ Err e' → ((o ≡ None) × (e ≡ e')) ⊎ ((x : A) × (o ≡ Some x) × (f x ≡ Err e')) }
{}
