//! A depot that writes down each call.
ghost use Rattle.std.specs.Prelude.{◌≡◌, [], Some, OnOk, OnErr, IfOk, IfErr};
ghost use Rattle.std.specs.Option.{option_copied};
ghost use Rattle.cu_store.specs.Held.{Gets, Answers, Holds, IsGone};
ghost use Rattle.cu_store.specs.Steps.{NoChange, PutOf, RemovalOf, Steps, LandsLate, AddsOnlyFailed, Caused};
ghost use Rattle.cu_store.specs.Yard.{bytes_under};
ghost use Rattle.cu_store.specs.Share.{IsShared, IsShareFault, MayShare, MayGiveBack, HoldsSeen, AddsCounts, PutPromised, KeysDiffer};
ghost use Rattle.test_depots.specs.Log.{NotesCall, NotesAll, log_of, pass_calls};

use crate::log::{Log, LoggedCall};
use crate::watched_yard::{WatchedPass, WatchedYard};
use cu_cells::CallKind;
use cu_store::{Depot, DepotFault, Got, Key, Promise, Share, Spec, Yard};
use std::alloc::Global;

/// A depot, and the calls that were made of it and of its yards.
#[derive(Drop)]
pub struct Watched<D: Depot + Drop> {
    pub depot: D,
    log: Log,
    alloc: Global,
}

impl<D: Depot + Drop> Watched<D> {
    /// The depot, of which no call is written down yet.
    pub fn new(alloc: Global, depot: D) -> Watched<D>
        ensures depot { result.depot ≡ depot }
        ensures calls { log_of result ≡ Some [] }
    {
        Watched {
            depot,
            log: Log::new(alloc),
            alloc,
        }
    }

    /// The calls in their order, or `None` where there was no memory to write one down.
    pub fn calls(&self) -> Option<&[LoggedCall]>
        ensures { option_copied result ≡ log_of self.now }
    {
        self.log.calls()
    }

    /// Forgets the calls.
    pub fn forget(&mut self)
        ensures depot { self.new.depot ≡ self.old.depot }
        ensures calls { log_of self.new ≡ Some [] }
    {
        self.log.clear();
    }
}

impl<D: Depot + Drop> Depot for Watched<D> {
    ghost shown = { λ w. D.shown w.depot };

    fn get(&mut self, key: &Key, buf: &mut [u8]) -> Result<Got, DepotFault>
        ensures got { Gets (D.shown self.new.depot).held key.now buf.new result }
        ensures step { Steps NoChange 1 1 (D.shown self.old.depot) (D.shown self.new.depot) }
        ensures cause { Caused 1 (D.shown self.old.depot) (D.shown self.new.depot) result }
        ensures logged { NotesCall CallKind.Get key.now (log_of self.old) (log_of self.new) }
    {
        self.log.note(CallKind::Get, key);
        self.depot.get(key, buf)
    }

    fn has(&mut self, key: &Key) -> Result<bool, DepotFault>
        ensures answer { Answers (D.shown self.new.depot).held key.now result }
        ensures step { Steps NoChange 1 1 (D.shown self.old.depot) (D.shown self.new.depot) }
        ensures cause { Caused 1 (D.shown self.old.depot) (D.shown self.new.depot) result }
        ensures logged { NotesCall CallKind.Has key.now (log_of self.old) (log_of self.new) }
    {
        self.log.note(CallKind::Has, key);
        self.depot.has(key)
    }

    fn put(&mut self, key: &Key, bytes: &[u8]) -> Result<(), DepotFault>
        ensures stored { OnOk result (Holds (D.shown self.new.depot).held key.now bytes.now) }
        ensures step { Steps (PutOf key.now bytes.now) 1 1 (D.shown self.old.depot) (D.shown self.new.depot) }
        ensures refused { OnErr result (LandsLate (D.shown self.old.depot) (D.shown self.new.depot)) }
        ensures late_unless_failed { AddsOnlyFailed result (D.shown self.old.depot).late (D.shown self.new.depot).late }
        ensures cause { Caused 1 (D.shown self.old.depot) (D.shown self.new.depot) result }
        ensures logged { NotesCall CallKind.Put key.now (log_of self.old) (log_of self.new) }
    {
        self.log.note(CallKind::Put, key);
        self.depot.put(key, bytes)
    }

    fn remove(&mut self, key: &Key) -> Result<(), DepotFault>
        ensures gone { OnOk result (IsGone (D.shown self.new.depot).held key.now) }
        ensures step { Steps (RemovalOf key.now) 1 1 (D.shown self.old.depot) (D.shown self.new.depot) }
        ensures refused { OnErr result (LandsLate (D.shown self.old.depot) (D.shown self.new.depot)) }
        ensures cause { Caused 1 (D.shown self.old.depot) (D.shown self.new.depot) result }
        ensures logged { NotesCall CallKind.Remove key.now (log_of self.old) (log_of self.new) }
    {
        self.log.note(CallKind::Remove, key);
        self.depot.remove(key)
    }
}

impl<D: Share + Drop> Share for Watched<D> {
    type Yard = WatchedYard<D::Yard>;

    ghost lent = { λ w. D.lent w.depot };

    ghost yards_lack = { λ w. D.yards_lack w.depot };

    /// It isn't written down. The calls of the yard's passes are, once they are given back.
    fn share(
        &mut self,
        alloc: Global,
        specs: &[Spec],
        promise: &Promise,
    ) -> Result<(WatchedYard<D::Yard>, WatchedPass<<D::Yard as Yard>::Pass>), DepotFault>
        requires apart { KeysDiffer specs.now }
        requires may { MayShare (record { specs = specs.now; promise = bytes_under promise.now.map }) (D.shown self.old.depot) }
        ensures own { IfOk result (λ r. D.Yard.owns r.0.yard r.1.pass) }
        ensures shared { IfOk result (λ r. IsShared (record { specs = specs.now; promise = bytes_under promise.now.map }) (D.yards_lack self.old.depot) (D.shown self.new.depot) (D.Yard.serves r.0.yard) (D.Yard.knows r.1.pass)) }
        ensures lent { IfOk result (λ r. D.lent self.new.depot ≡ record { specs = specs.now; promise = bytes_under promise.now.map }) }
        ensures refused { OnErr result (D.lent self.new.depot ≡ D.lent self.old.depot) }
        ensures lack { D.yards_lack self.new.depot ≡ D.yards_lack self.old.depot }
        ensures step { Steps NoChange 0 1 (D.shown self.old.depot) (D.shown self.new.depot) }
        ensures cause { IfErr result (IsShareFault 1 (D.shown self.old.depot) (D.shown self.new.depot)) }
        ensures fresh { IfOk result (λ r. pass_calls r.1 ≡ Some []) }
        ensures unlogged { log_of self.new ≡ log_of self.old }
    {
        let (yard, pass) = self.depot.share(alloc, specs, promise)?;
        let alloc = self.alloc;
        let log = Log::new(alloc);
        Ok((WatchedYard { yard, alloc }, WatchedPass { pass, log }))
    }

    /// The calls of the pass are written down behind those of the depot.
    fn unshare(&mut self, yard: WatchedYard<D::Yard>, pass: WatchedPass<<D::Yard as Yard>::Pass>)
        requires own { D.Yard.owns yard.yard pass.pass }
        requires may { MayGiveBack (D.lent self.old.depot) (D.shown self.old.depot) (D.Yard.serves yard.yard) (D.Yard.knows pass.pass) }
        ensures held { HoldsSeen (D.lent self.old.depot) (D.Yard.knows pass.pass).seen (D.shown self.new.depot).held }
        ensures step { Steps (PutPromised (D.lent self.old.depot)) 0 (D.Yard.knows pass.pass).calls (D.shown self.old.depot) (D.shown self.new.depot) }
        ensures counts { AddsCounts (D.Yard.knows pass.pass) (D.shown self.old.depot) (D.shown self.new.depot) }
        ensures lent { D.lent self.new.depot ≡ D.lent self.old.depot }
        ensures lack { D.yards_lack self.new.depot ≡ D.yards_lack self.old.depot }
        ensures logged { NotesAll (pass_calls pass) (log_of self.old) (log_of self.new) }
    {
        let WatchedYard { yard, alloc: _ } = yard;
        let WatchedPass { pass, log } = pass;
        self.depot.unshare(yard, pass);
        self.log.append(&log);
    }
}
