//! How chunks are reached: straight in a depot, or in a yard by a pass.
ghost use Rattle.std.specs.Prelude.{List, ℕ, OnOk};
ghost use Rattle.cu_store.specs.Held.{Gets, Holds};
ghost use Rattle.cu_store.specs.Steps.{Shown, NoChange, PutOf, Steps, Caused};
ghost use Rattle.cu_store.specs.Yard.{shown_by, MayGet, MayPut};
ghost use Rattle.cu_store.specs.Chunks.{Adds, StaysOpen};

use crate::{DepotFault, Got, Key, PutStore, Yard};
use std::marker::PhantomData;

/// Chunks under keys that are read and written. `Store` is what is shared, and `Access` what the caller has for itself.
///
/// It is what a depot and a yard have in common, so that reading and writing regions is written once for both.
pub trait Chunks {
    type Store;

    type Access;

    /// What is seen by an access.
    ghost shown: { Self.Access → Shown };

    /// Whether the access belongs to the store.
    ghost belongs: { Self.Store → Self.Access → Type 0 };

    /// Which keys may be asked for.
    ghost may_get: { Self.Store → Self.Access → List ℕ → Type 0 };

    /// Which keys may be put, with which bytes.
    ghost may_put: { Self.Store → List ℕ → List ℕ → Type 0 };

    /// How much a call for a key adds to the tally of an access. A store gives any weights: with 1 for one key and 0 for all
    /// others, the tally is how often that key was called. One that gives none tells nothing of this.
    ghost weight: { Self.Store → List ℕ → ℕ } = { λ _ _. 0 };

    /// The tally of an access: the weights of all calls that it made, together.
    ghost tally: { Self.Access → ℕ } = { λ _. 0 };

    /// Copies as many bytes of the key's value as `buf` has room for, and says how long the value is.
    fn get(
        store: &Self::Store,
        access: &mut Self::Access,
        key: &Key,
        buf: &mut [u8],
    ) -> Result<Got, DepotFault>
        requires belongs { belongs store.now access.old }
        requires may { may_get store.now access.old key.now }
        ensures got { Gets (shown access.new).held key.now buf.new result }
        ensures step { Steps NoChange 1 1 (shown access.old) (shown access.new) }
        ensures cause { Caused 1 (shown access.old) (shown access.new) result }
        ensures called { Adds (weight store.now key.now) (tally access.old) (tally access.new) }
        ensures open { StaysOpen (belongs store.now access.new) (may_get store.now access.old) (may_get store.now access.new) };

    /// Stores these bytes under the key.
    fn put(
        store: &Self::Store,
        access: &mut Self::Access,
        key: &Key,
        bytes: &[u8],
    ) -> Result<(), DepotFault>
        requires belongs { belongs store.now access.old }
        requires may { may_put store.now key.now bytes.now }
        ensures stored { OnOk result (Holds (shown access.new).held key.now bytes.now) }
        ensures step { Steps (PutOf key.now bytes.now) 1 1 (shown access.old) (shown access.new) }
        ensures cause { Caused 1 (shown access.old) (shown access.new) result }
        ensures called { Adds (weight store.now key.now) (tally access.old) (tally access.new) }
        ensures got { OnOk result (may_get store.now access.new key.now) }
        ensures open { StaysOpen (belongs store.now access.new) (may_get store.now access.old) (may_get store.now access.new) };
}

/// Chunks that lie straight in a depot, or in another store of puts. Any key may be asked for and put. Their calls have no weight.
pub struct InDepot<D: PutStore> {
    of: PhantomData<D>,
}

impl<D: PutStore> Chunks for InDepot<D> {
    type Store = ();

    type Access = D;

    ghost shown = { D.shown };

    ghost belongs = { λ _ _. Unit {0} };

    ghost may_get = { λ _ _ _. Unit {0} };

    ghost may_put = { λ _ _ _. Unit {0} };

    fn get(_place: &(), access: &mut D, key: &Key, buf: &mut [u8]) -> Result<Got, DepotFault> {
        access.get(key, buf)
    }

    fn put(_place: &(), access: &mut D, key: &Key, bytes: &[u8]) -> Result<(), DepotFault> {
        access.put(key, bytes)
    }
}

/// Chunks that lie in a yard, reached by a pass. Keys may be asked for that the yard serves, the made ones once they were seen; a
/// made key may be put, with the promised bytes.
pub struct InYard<Y: Yard> {
    of: PhantomData<Y>,
}

impl<Y: Yard> Chunks for InYard<Y> {
    type Store = Y;

    type Access = Y::Pass;

    ghost shown = { λ pass. shown_by (Y.knows pass) };

    ghost belongs = { Y.owns };

    ghost may_get = { λ yard pass key. MayGet (Y.serves yard).specs (Y.knows pass).seen key };

    ghost may_put = { λ yard key bytes. MayPut (Y.serves yard) key bytes };

    ghost weight = { Y.weight };

    ghost tally = { Y.tally };

    fn get(store: &Y, access: &mut Y::Pass, key: &Key, buf: &mut [u8]) -> Result<Got, DepotFault> {
        store.get(access, key, buf)
    }

    fn put(store: &Y, access: &mut Y::Pass, key: &Key, bytes: &[u8]) -> Result<(), DepotFault> {
        store.put(access, key, bytes)
    }
}
