//! A yard that writes down each call, with the pass by which it is made.
ghost use Rattle.std.specs.Prelude.{◌≡◌, [], Some, IsTrue, OnOk};
ghost use Rattle.cu_store.specs.Held.{Gets, Holds};
ghost use Rattle.cu_store.specs.Steps.{NoChange, PutOf, Steps, Caused};
ghost use Rattle.cu_store.specs.Yard.{is_made, shown_by, MayGet, MayPut, IsPresent, IsLater, uncounted, IsJoined};
ghost use Rattle.test_depots.specs.Log.{NotesCall, NotesAll, pass_calls};

use crate::log::Log;
use cu_cells::CallKind;
use cu_store::{DepotFault, Got, Key, Yard};
use std::alloc::Global;

/// A yard whose passes write down each call.
#[derive(Drop)]
pub struct WatchedYard<Y: Yard> {
    pub(crate) yard: Y,
    pub(crate) alloc: Global,
}

/// A pass, and the calls that were made with it.
#[derive(Drop)]
pub struct WatchedPass<P: Send + Drop> {
    pub(crate) pass: P,
    pub(crate) log: Log,
}

impl<Y: Yard> Yard for WatchedYard<Y> {
    type Pass = WatchedPass<Y::Pass>;

    ghost serves = { λ y. Y.serves y.yard };

    ghost knows = { λ p. Y.knows p.pass };

    ghost owns = { λ y p. Y.owns y.yard p.pass };

    ghost together = { λ p q. Y.together p.pass q.pass };

    ghost laws = { record { one_yard = λ y p q. Y.laws.one_yard y.yard p.pass q.pass; own = λ y p q. Y.laws.own y.yard p.pass q.pass; same = λ p q. Y.laws.same p.pass q.pass; fits = λ y p. Y.laws.fits y.yard p.pass } };

    fn get(
        &self,
        pass: &mut WatchedPass<Y::Pass>,
        key: &Key,
        buf: &mut [u8],
    ) -> Result<Got, DepotFault>
        requires own { Y.owns self.now.yard pass.old.pass }
        requires may { MayGet (Y.serves self.now.yard).specs (Y.knows pass.old.pass).seen key.now }
        ensures own { Y.owns self.now.yard pass.new.pass }
        ensures got { Gets (shown_by (Y.knows pass.new.pass)).held key.now buf.new result }
        ensures present { IsTrue (is_made (Y.serves self.now.yard).specs key.now) → IsPresent result }
        ensures step { Steps NoChange 1 1 (shown_by (Y.knows pass.old.pass)) (shown_by (Y.knows pass.new.pass)) }
        ensures later { IsLater (Y.knows pass.old.pass) (Y.knows pass.new.pass) }
        ensures cause { Caused 1 (shown_by (Y.knows pass.old.pass)) (shown_by (Y.knows pass.new.pass)) result }
        ensures logged { NotesCall CallKind.Get key.now (pass_calls pass.old) (pass_calls pass.new) }
    {
        pass.log.note(CallKind::Get, key);
        self.yard.get(&mut pass.pass, key, buf)
    }

    fn put(
        &self,
        pass: &mut WatchedPass<Y::Pass>,
        key: &Key,
        bytes: &[u8],
    ) -> Result<(), DepotFault>
        requires own { Y.owns self.now.yard pass.old.pass }
        requires may { MayPut (Y.serves self.now.yard) key.now bytes.now }
        ensures own { Y.owns self.now.yard pass.new.pass }
        ensures stored { OnOk result (Holds (shown_by (Y.knows pass.new.pass)).held key.now bytes.now) }
        ensures seen { OnOk result (IsTrue ((Y.knows pass.new.pass).seen key.now)) }
        ensures step { Steps (PutOf key.now bytes.now) 1 1 (shown_by (Y.knows pass.old.pass)) (shown_by (Y.knows pass.new.pass)) }
        ensures later { IsLater (Y.knows pass.old.pass) (Y.knows pass.new.pass) }
        ensures cause { Caused 1 (shown_by (Y.knows pass.old.pass)) (shown_by (Y.knows pass.new.pass)) result }
        ensures logged { NotesCall CallKind.Put key.now (pass_calls pass.old) (pass_calls pass.new) }
    {
        pass.log.note(CallKind::Put, key);
        self.yard.put(&mut pass.pass, key, bytes)
    }

    /// The second pass has no call written down.
    fn split(&self, pass: &mut WatchedPass<Y::Pass>) -> WatchedPass<Y::Pass>
        requires { Y.owns self.now.yard pass.old.pass }
        ensures own { Y.owns self.now.yard pass.new.pass × Y.owns self.now.yard result.pass }
        ensures first { Y.knows pass.new.pass ≡ Y.knows pass.old.pass }
        ensures second { Y.knows result.pass ≡ uncounted (Y.knows pass.old.pass) }
        ensures logged { (pass_calls pass.new ≡ pass_calls pass.old) × (pass_calls result ≡ Some []) }
    {
        WatchedPass {
            pass: self.yard.split(&mut pass.pass),
            log: Log::new(self.alloc),
        }
    }

    /// The second pass has no call written down; the first keeps those of its own.
    fn hand(&self, pass: &mut WatchedPass<Y::Pass>) -> WatchedPass<Y::Pass>
        requires { Y.owns self.now.yard pass.old.pass }
        ensures own { Y.owns self.now.yard pass.new.pass × Y.owns self.now.yard result.pass }
        ensures first { Y.knows pass.new.pass ≡ uncounted (Y.knows pass.old.pass) }
        ensures second { Y.knows result.pass ≡ Y.knows pass.old.pass }
        ensures logged { (pass_calls pass.new ≡ pass_calls pass.old) × (pass_calls result ≡ Some []) }
    {
        WatchedPass {
            pass: self.yard.hand(&mut pass.pass),
            log: Log::new(self.alloc),
        }
    }

    /// The calls of the other pass are written down behind its own.
    fn join(&self, pass: &mut WatchedPass<Y::Pass>, other: WatchedPass<Y::Pass>)
        requires { Y.owns self.now.yard pass.old.pass × Y.owns self.now.yard other.pass }
        ensures own { Y.owns self.now.yard pass.new.pass }
        ensures joined { IsJoined (Y.knows pass.old.pass) (Y.knows other.pass) (Y.knows pass.new.pass) }
        ensures logged { NotesAll (pass_calls other) (pass_calls pass.old) (pass_calls pass.new) }
    {
        let WatchedPass { pass: second, log } = other;
        self.yard.join(&mut pass.pass, second);
        pass.log.append(&log);
    }
}
