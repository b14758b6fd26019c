//! Three threads over two keys that a depot shares.
ghost use Rattle.std.specs.Prelude.{◌≡◌, IfSome};
ghost use Rattle.cu_store.specs.Held.{Holds};
ghost use Rattle.test_depots.specs.Pairs.{IsPair, IsEmptyDepot, pair_map};

use crate::pair::{Pair, made, promised};
use crate::race::run;
use cu_store::{Promised, Share};
use std::alloc::Global;
use std::marker::Brand;
use std::thread::Threads;

/// The same, where K names what is promised.
fn exchange_promised<K: Promised, D: Share, R: Threads + Sync>(
    rt: &R,
    alloc: Global,
    depot: &mut D,
    pair: &Pair,
    times: u32,
) -> Option<bool>
    requires names { K.map ≡ pair_map pair.now.a pair.now.b pair.now.bytes }
    requires pair { IsPair pair.now.a pair.now.b pair.now.bytes }
    requires fresh { IsEmptyDepot (D.shown depot.old) }
    ensures a { IfSome result (λ all. Holds (D.shown depot.new).held pair.now.a pair.now.bytes) }
    ensures b { IfSome result (λ all. Holds (D.shown depot.new).held pair.now.b pair.now.bytes) }
{
    let promise = promised::<K>(pair);
    let specs = [made(&pair.a), made(&pair.b)];
    match depot.share(alloc, &specs, &promise) {
        Ok((yard, mut root)) => {
            let all = run(rt, &yard, &mut root, pair, times);
            depot.unshare(yard, root);
            all
        }
        Err(_) => None,
    }
}

/// Shares both keys of a depot that holds nothing. The first is put before the passes are split; then two threads put both keys so
/// many times each, at least once, and a third gets the first as often. After the joins both are got once more, and given back: the
/// depot then holds both. `None` where it isn't shared or a put failed; else whether each get gave the bytes of its key.
pub fn exchange<D: Share, R: Threads + Sync>(
    rt: &R,
    alloc: Global,
    depot: &mut D,
    pair: &Pair,
    times: u32,
) -> Option<bool>
    requires pair { IsPair pair.now.a pair.now.b pair.now.bytes }
    requires fresh { IsEmptyDepot (D.shown depot.old) }
    ensures a { IfSome result (λ all. Holds (D.shown depot.new).held pair.now.a pair.now.bytes) }
    ensures b { IfSome result (λ all. Holds (D.shown depot.new).held pair.now.b pair.now.bytes) }
{
    exchange_promised::<Brand, D, R>(rt, alloc, depot, pair, times)
}
