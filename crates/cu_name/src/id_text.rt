//! The text of a name or an id.
ghost use Rattle.std.specs.Prelude.{◌≡◌, ◌<◌, ◌≤◌, ◌==◌, ◌↔◌, [], length, MatchOption, IsTrue};
ghost use Rattle.std.specs.Cmp.Rules.{comparing};
ghost use Rattle.std.specs.Cmp.Lexicographic.{pointwise};
ghost use Rattle.std.proofs.Common.{rules};

use std::marker::Model;
use std::{fmt, str};

/// The most bytes that an id has.
pub const ID_BYTES: usize = 32;

/// The name of an array or the id of a node: a text of at most 32 bytes. Contracts see it as the list of its bytes.
#[derive(Clone, Copy)]
pub struct IdText {
    text: [u8; 32],
    len: u8,
}

impl Model for IdText {
    ghost use Rattle.std.specs.Prelude.{◌≡◌, ◌≤◌, ◌-◌, ◌++◌, List, ℕ, length, take, drop, replicate, IsUtf8};
    ghost use Rattle.cu_name.specs.IdText.{id_buffer_again};
    ghost use Rattle.std.proofs.Common.{length-take-le, arith};

    ghost Value = { List ℕ };

    ghost view = { λ k. take k.len k.text };

    // What lies behind the text is zero, so that equal texts are equal ids.
    ghost invariant = { λ k. (k.len ≤ 32) × (length k.text ≡ 32) × (drop k.len k.text ≡ replicate (32 - k.len) 0) × ∥ IsUtf8 (take k.len k.text) ∥₁ };

    ghost inverse = { λ t. record { text = t ++ replicate (32 - length t) 0; len = length t } };

    ghost inverse_ok = { λ k h i. record {
      text = id_buffer_again k.len k.text (omega (arith, h.0, h.1)) h.2 i;
      len = length-take-le k.len k.text (omega (arith, h.0, h.1)) i;
    } };
}

impl IdText {
    /// The id with this text, or `None` where the text is longer than 32 bytes.
    pub fn make(text: &str) -> Option<IdText>
        ensures { MatchOption result (32 < length text.now) (λ k. (k ≡ text.now) × (length text.now ≤ 32)) }
    {
        let bytes = text.as_bytes();
        if bytes.len() > ID_BYTES {
            return None;
        }
        let mut stored = [0u8; 32];
        let (front, _) = stored.split_at_mut(bytes.len());
        front.copy_from_slice(bytes);
        let len = bytes.len() as u8;
        Some(IdText { text: stored, len })
    }

    /// The text of the id.
    pub fn text(&self) -> &str
        ensures text { result.now ≡ self.now }
        ensures short { length self.now ≤ 32 }
    {
        match str::from_utf8(&self.text[..self.len as usize]) {
            Ok(text) => text,
            Err(_) => unreachable!(),
        }
    }

    /// Whether this is the other id.
    pub fn is(&self, other: &IdText) -> bool
        ensures { IsTrue result ↔ (self.now ≡ other.now) }
    {
        self.text().as_bytes() == other.text().as_bytes()
    }
}

impl PartialEq for IdText {
    ghost eq = { λ a b. pointwise ◌==◌ a b };

    ghost laws = { Prim.search (comparing, rules) };

    fn eq(&self, other: &IdText) -> bool {
        self.text().as_bytes() == other.text().as_bytes()
    }
}

impl Eq for IdText {
    ghost laws = { Prim.search (comparing, rules) };
}

impl Default for IdText {
    /// The empty text.
    fn default() -> IdText
        ensures { result ≡ [] }
    {
        IdText {
            text: [0; 32],
            len: 0,
        }
    }
}

impl fmt::Debug for IdText {
    fn fmt<W: fmt::Write>(&self, f: &mut fmt::Formatter<W>) -> fmt::Result {
        f.write_str(self.text())
    }
}
