//! The keys of an array with a name, and of what its plan makes.
ghost use Rattle.std.specs.Prelude.{◌≡◌, ◌+◌, ◌<◌, ◌≤◌, ◌++◌, length, decimal, true};
ghost use Rattle.cu_name.specs.Name.{is_name, IsArrayName};
ghost use Rattle.cu_name.specs.Keys.{record_key_of, made_prefix_of};

use crate::id_text::IdText;
use arrayvec::ArrayString;
use cu_store::Key;

/// The text of a key that is being written.
type Text = ArrayString<96>;

/// The name of an array as a key, which its keys begin with.
pub fn key_of_name(name: &IdText) -> Key
    requires { is_name name.now ≡ true }
    ensures key { result ≡ name.now }
    ensures name { IsArrayName result }
{
    match Key::make(name.text()) {
        Some(key) => key,
        None => unreachable!(),
    }
}

/// The name of an array whose keys begin with this key.
pub fn name_of(key: &Key) -> IdText
    requires { IsArrayName key.now }
    ensures { result ≡ key.now }
{
    match IdText::make(key.text()) {
        Some(name) => name,
        None => unreachable!(),
    }
}

/// The key of the record of the plan that makes the array with this name: `_cubed/NAME/plan.json`.
pub fn record_key(name: &Key) -> Key
    requires { IsArrayName name.now }
    ensures { result ≡ record_key_of name.now }
{
    let mut text = Text::new();
    text.push_str("_cubed/");
    text.push_str(name.text());
    text.push_str("/plan.json");
    key_of(&text)
}

/// What the keys of array number `k` begin with, of the arrays that a plan makes besides the one with this name: `_cubed/NAME/K`.
/// It has at most 45 bytes where `k` is below 100,000.
pub fn made_prefix(name: &Key, k: u32) -> Key
    requires { IsArrayName name.now }
    ensures prefix { result ≡ made_prefix_of name.now k }
    ensures short { k < 100000 → length result ≤ 45 }
{
    let mut text = Text::new();
    text.push_str("_cubed/");
    text.push_str(name.text());
    text.push_str("/");
    push_number(&mut text, k);
    key_of(&text)
}

/// The key with this text.
fn key_of(text: &Text) -> Key
    ensures { result ≡ text.now.bytes }
{
    match Key::make(text.as_str()) {
        Some(key) => key,
        None => unreachable!(),
    }
}

/// Appends a number in decimal, which has at most 10 digits.
fn push_number(text: &mut Text, number: u32)
    requires { length text.old.bytes + 10 ≤ 96 }
    ensures text { text.new.bytes ≡ text.old.bytes ++ decimal number }
{
    let mut digits = itoa::Buffer::new();
    text.push_str(digits.format(number));
}
