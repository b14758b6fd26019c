//! Two keys, and the bytes of both.
ghost use Rattle.std.specs.Prelude.{◌≡◌, IfSome, replicate};
ghost use Rattle.test_depots.specs.Pairs.{IsPair, made_of, pair_map};

use cu_store::{Key, Promise, Promised, Spec};

/// Two keys that differ, and the bytes that both are to hold.
#[derive(Drop)]
pub struct Pair {
    pub a: Key,
    pub b: Key,
    pub bytes: [u8; 64],
}

impl Pair {
    /// The pair of these texts, with 64 times this byte. `None` where a text is longer than a key, or both are one key.
    pub fn make(first: &str, second: &str, byte: u8) -> Option<Pair>
        ensures { IfSome result (λ pair. IsPair pair.a pair.b pair.bytes) }
    {
        let a = Key::make(first)?;
        let b = Key::make(second)?;
        if b.is(&a) {
            return None;
        }
        let bytes = filled(byte);
        Some(Pair { a, b, bytes })
    }
}

/// 64 times this byte.
fn filled(byte: u8) -> [u8; 64]
    ensures { result ≡ replicate 64 byte }
{
    [byte; 64]
}

/// A made key of 64 bytes.
pub(crate) fn made(key: &Key) -> Spec
    ensures { result ≡ made_of key.now }
{
    Spec {
        key: *key,
        len: 64,
        made: true,
    }
}

/// The promise of both keys, where K names it.
pub(crate) fn promised<K: Promised>(pair: &Pair) -> Promise
    requires { K.map ≡ pair_map pair.now.a pair.now.b pair.now.bytes }
    ensures { result.map ≡ pair_map pair.now.a pair.now.b pair.now.bytes }
{
    let _pair = pair;
    Promise::make::<K>()
}
