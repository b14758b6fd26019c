//! What three threads do with the passes of one yard.
ghost use Rattle.std.specs.Prelude.{List, ℕ, IfSome, OnOk, IsTrue};
ghost use Rattle.cu_store.specs.Yard.{is_served, MayPut, IsLater};

use crate::pair::Pair;
use cu_store::{DepotFault, Got, Key, Yard};
use std::thread::{Threads, join};

/// Puts the bytes under both keys.
fn put_both<Y: Yard>(yard: &Y, pass: &mut Y::Pass, pair: &Pair) -> Result<(), DepotFault>
    requires own { Y.owns yard.now pass.old }
    requires a { MayPut (Y.serves yard.now) pair.now.a pair.now.bytes }
    requires b { MayPut (Y.serves yard.now) pair.now.b pair.now.bytes }
    ensures own { Y.owns yard.now pass.new }
    ensures seen { OnOk result (IsTrue ((Y.knows pass.new).seen pair.now.b)) }
{
    yard.put(pass, &pair.a, &pair.bytes)?;
    yard.put(pass, &pair.b, &pair.bytes)
}

/// Puts both so many times, at least once. `None` where a put fails.
fn puts<Y: Yard>(yard: &Y, mut pass: Y::Pass, pair: &Pair, times: u32) -> Option<Y::Pass>
    requires own { Y.owns yard.now pass }
    requires a { MayPut (Y.serves yard.now) pair.now.a pair.now.bytes }
    requires b { MayPut (Y.serves yard.now) pair.now.b pair.now.bytes }
    ensures own { IfSome result (λ p. Y.owns yard.now p) }
    ensures seen { IfSome result (λ p. IsTrue ((Y.knows p).seen pair.now.b)) }
{
    for at in 1..times {
        let _at = at;
        put_both(yard, &mut pass, pair).ok()?;
    }
    put_both(yard, &mut pass, pair).ok()?;
    Some(pass)
}

/// Whether a get of a key that was seen gives these bytes.
fn has<Y: Yard>(yard: &Y, pass: &mut Y::Pass, key: &Key, bytes: &[u8; 64]) -> bool
    requires own { Y.owns yard.now pass.old }
    requires served { IsTrue (is_served (Y.serves yard.now).specs key.now) }
    requires seen { IsTrue ((Y.knows pass.old).seen key.now) }
    ensures own { Y.owns yard.now pass.new }
    ensures later { IsLater (Y.knows pass.old) (Y.knows pass.new) }
{
    let mut buf = [0; 64];
    yard.get(pass, key, &mut buf) == Ok(Got::Held(64)) && buf == *bytes
}

/// Gets the first so many times, and says whether each get gave its bytes.
fn gets<Y: Yard>(yard: &Y, mut pass: Y::Pass, pair: &Pair, times: u32) -> (Y::Pass, bool)
    requires own { Y.owns yard.now pass }
    requires served { IsTrue (is_served (Y.serves yard.now).specs pair.now.a) }
    requires seen { IsTrue ((Y.knows pass).seen pair.now.a) }
    ensures { Y.owns yard.now result.0 }
{
    let mut all = true;
    for at in 0..times {
        let _at = at;
        all = has(yard, &mut pass, &pair.a, &pair.bytes) && all;
    }
    (pass, all)
}

/// One thread puts both, and the other gets the first.
fn put_and_get<Y: Yard, R: Threads + Sync>(
    rt: &R,
    yard: &Y,
    two: Y::Pass,
    three: Y::Pass,
    pair: &Pair,
    times: u32,
) -> (Option<Y::Pass>, (Y::Pass, bool))
    requires two { Y.owns yard.now two }
    requires three { Y.owns yard.now three }
    requires a { MayPut (Y.serves yard.now) pair.now.a pair.now.bytes }
    requires b { MayPut (Y.serves yard.now) pair.now.b pair.now.bytes }
    requires served { IsTrue (is_served (Y.serves yard.now).specs pair.now.a) }
    requires seen { IsTrue ((Y.knows three).seen pair.now.a) }
    ensures two { IfSome result.0 (λ p. Y.owns yard.now p) }
    ensures three { Y.owns yard.now result.1.0 }
{
    join(
        rt,
        || -> Option<Y::Pass>
            requires own { Y.owns yard.now two }
            requires a { MayPut (Y.serves yard.now) pair.now.a pair.now.bytes }
            requires b { MayPut (Y.serves yard.now) pair.now.b pair.now.bytes }
        { puts(yard, two, pair, times) },
        || -> (Y::Pass, bool)
            requires own { Y.owns yard.now three }
            requires served { IsTrue (is_served (Y.serves yard.now).specs pair.now.a) }
            requires seen { IsTrue ((Y.knows three).seen pair.now.a) }
        { gets(yard, three, pair, times) },
    )
}

/// Two threads put both keys, and the third gets the first one.
fn race<Y: Yard, R: Threads + Sync>(
    rt: &R,
    yard: &Y,
    passes: (Y::Pass, Y::Pass, Y::Pass),
    pair: &Pair,
    times: u32,
) -> (Option<Y::Pass>, (Option<Y::Pass>, (Y::Pass, bool)))
    requires own { Y.owns yard.now passes.0 × Y.owns yard.now passes.1 × Y.owns yard.now passes.2 }
    requires a { MayPut (Y.serves yard.now) pair.now.a pair.now.bytes }
    requires b { MayPut (Y.serves yard.now) pair.now.b pair.now.bytes }
    requires served { IsTrue (is_served (Y.serves yard.now).specs pair.now.a) }
    requires seen { IsTrue ((Y.knows passes.2).seen pair.now.a) }
    ensures one { IfSome result.0 (λ p. Y.owns yard.now p × IsTrue ((Y.knows p).seen pair.now.b)) }
    ensures two { IfSome result.1.0 (λ p. Y.owns yard.now p) }
    ensures three { Y.owns yard.now result.1.1.0 }
{
    let (one, two, three) = passes;
    join(
        rt,
        || -> Option<Y::Pass>
            requires own { Y.owns yard.now one }
            requires a { MayPut (Y.serves yard.now) pair.now.a pair.now.bytes }
            requires b { MayPut (Y.serves yard.now) pair.now.b pair.now.bytes }
        { puts(yard, one, pair, times) },
        || -> (Option<Y::Pass>, (Y::Pass, bool))
            requires two { Y.owns yard.now two }
            requires three { Y.owns yard.now three }
            requires a { MayPut (Y.serves yard.now) pair.now.a pair.now.bytes }
            requires b { MayPut (Y.serves yard.now) pair.now.b pair.now.bytes }
            requires served { IsTrue (is_served (Y.serves yard.now).specs pair.now.a) }
            requires seen { IsTrue ((Y.knows three).seen pair.now.a) }
        { put_and_get(rt, yard, two, three, pair, times) },
    )
}

/// Puts the first, and splits three passes, which have seen it. `None` where the put fails.
fn begun<Y: Yard>(yard: &Y, root: &mut Y::Pass, pair: &Pair) -> Option<(Y::Pass, Y::Pass, Y::Pass)>
    requires own { Y.owns yard.now root.old }
    requires a { MayPut (Y.serves yard.now) pair.now.a pair.now.bytes }
    ensures own { Y.owns yard.now root.new }
    ensures later { IsLater (Y.knows root.old) (Y.knows root.new) }
    ensures passes { IfSome result (λ r. Y.owns yard.now r.0 × Y.owns yard.now r.1 × Y.owns yard.now r.2) }
    ensures seen { IfSome result (λ r. IsTrue ((Y.knows root.new).seen pair.now.a) × IsTrue ((Y.knows r.2).seen pair.now.a)) }
{
    match yard.put(root, &pair.a, &pair.bytes) {
        Ok(()) => {}
        Err(_) => return None,
    }
    let one = yard.split(root);
    let two = yard.split(root);
    let three = yard.split(root);
    Some((one, two, three))
}

/// Takes in what another pass has seen.
fn joined<Y: Yard>(yard: &Y, pass: &mut Y::Pass, other: Y::Pass)
    requires own { Y.owns yard.now pass.old × Y.owns yard.now other }
    ensures own { Y.owns yard.now pass.new }
    ensures later { IsLater (Y.knows pass.old) (Y.knows pass.new) }
    ensures more { (key : List ℕ) → IsTrue ((Y.knows other).seen key) → IsTrue ((Y.knows pass.new).seen key) }
{
    yard.join(pass, other);
}

/// Joins three passes, of which the first has seen the second key.
fn ended<Y: Yard>(yard: &Y, root: &mut Y::Pass, passes: (Y::Pass, Y::Pass, Y::Pass), pair: &Pair)
    requires root { Y.owns yard.now root.old }
    requires own { Y.owns yard.now passes.0 × Y.owns yard.now passes.1 × Y.owns yard.now passes.2 }
    requires b { IsTrue ((Y.knows passes.0).seen pair.now.b) }
    ensures own { Y.owns yard.now root.new }
    ensures later { IsLater (Y.knows root.old) (Y.knows root.new) }
    ensures seen { IsTrue ((Y.knows root.new).seen pair.now.b) }
{
    let _pair = pair;
    let (one, two, three) = passes;
    joined(yard, root, one);
    joined(yard, root, two);
    joined(yard, root, three);
}

/// Whether gets of both give their bytes.
fn has_both<Y: Yard>(yard: &Y, pass: &mut Y::Pass, pair: &Pair) -> bool
    requires own { Y.owns yard.now pass.old }
    requires a { IsTrue (is_served (Y.serves yard.now).specs pair.now.a) }
    requires b { IsTrue (is_served (Y.serves yard.now).specs pair.now.b) }
    requires seen { IsTrue ((Y.knows pass.old).seen pair.now.a) × IsTrue ((Y.knows pass.old).seen pair.now.b) }
    ensures own { Y.owns yard.now pass.new }
    ensures later { IsLater (Y.knows pass.old) (Y.knows pass.new) }
{
    has(yard, pass, &pair.a, &pair.bytes) && has(yard, pass, &pair.b, &pair.bytes)
}

/// Puts the first key, lets two threads put both and a third get the first one, takes their passes back, and gets both. `None` where
/// a put failed; else whether each get gave the bytes.
pub(crate) fn run<Y: Yard, R: Threads + Sync>(
    rt: &R,
    yard: &Y,
    root: &mut Y::Pass,
    pair: &Pair,
    times: u32,
) -> Option<bool>
    requires own { Y.owns yard.now root.old }
    requires a { MayPut (Y.serves yard.now) pair.now.a pair.now.bytes }
    requires b { MayPut (Y.serves yard.now) pair.now.b pair.now.bytes }
    requires served { IsTrue (is_served (Y.serves yard.now).specs pair.now.a) × IsTrue (is_served (Y.serves yard.now).specs pair.now.b) }
    ensures own { Y.owns yard.now root.new }
    ensures later { IsLater (Y.knows root.old) (Y.knows root.new) }
    ensures seen { IfSome result (λ all. IsTrue ((Y.knows root.new).seen pair.now.a) × IsTrue ((Y.knows root.new).seen pair.now.b)) }
{
    let passes = begun(yard, root, pair)?;
    let (one, (two, (three, all))) = race(rt, yard, passes, pair, times);
    let (one, two) = (one?, two?);
    ended(yard, root, (one, two, three), pair);
    let both = has_both(yard, root, pair);
    Some(all && both)
}
