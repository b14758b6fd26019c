//! A depot of which the calls of a span fail.
ghost use Rattle.std.specs.Prelude.{◌≡◌, ◌+◌, ◌≤◌, min, true, false, OnOk, OnErr, IfSome};
ghost use Rattle.cu_store.specs.Faults.{last_count};
ghost use Rattle.cu_store.specs.Held.{Gets, Answers, Holds, IsGone};
ghost use Rattle.cu_store.specs.Steps.{NoChange, PutOf, RemovalOf, Steps, LandsLate, AddsOnlyFailed, Caused, MadeCalls};
ghost use Rattle.test_depots.specs.FailingCounts.{IsCallOfSpan, FailsBy};
ghost use Rattle.test_depots.specs.Failing.{seen_of, span_of, call_number, late_of};
ghost use Rattle.test_depots.specs.Late.{shown_with, due_put, still_late, KeepsAtMost, LandsOnly};

use crate::failing_yard::{FailingPass, FailingYard, copied};
use crate::late::{FailedPut, keep, land};
use crate::silent::Silent;
use crate::span::{FailingCalls, refuse, settle};
use cu_store::{Depot, DepotFault, Got, Key, Promise, Share, Spec, Yard};
use std::alloc::Global;
use std::sync::atomic::AtomicU64;

/// A depot around another. Its calls and those of its yard's passes are numbered in the order of their making, and those of a span
/// fail: they don't reach the depot in it. The first put of the span may land later: then it is put into the depot in it before one of
/// the calls that follow.
#[derive(Drop)]
pub struct Failing<D: Depot + Drop> {
    pub depot: D,
    alloc: Global,
    span: FailingCalls,
    late: Option<FailedPut>,
    made: u64,
    faults: u64,
    calls: u64,
}

impl<D: Depot + Drop> Failing<D> {
    /// The depot, of which no call fails.
    pub fn new(alloc: Global, depot: D) -> Failing<D>
        ensures depot { result.depot ≡ depot }
        ensures span { (span_of result).times ≡ 0 }
        ensures late { late_of result ≡ None }
    {
        Failing {
            depot,
            alloc,
            span: FailingCalls::none(),
            late: None,
            made: 0,
            faults: 0,
            calls: 0,
        }
    }

    /// From now on the calls of this span fail, counted from the next one. A put that is late stays so.
    pub fn set_span(&mut self, span: FailingCalls)
        ensures span { span_of self.new ≡ span }
        ensures number { call_number self.new ≡ 0 }
        ensures late { late_of self.new ≡ late_of self.old }
        ensures seen { seen_of D.shown self.new ≡ seen_of D.shown self.old }
    {
        self.span = span;
        self.made = 0;
    }

    /// How many calls were made since the span was set.
    pub fn made(&self) -> u64
        ensures { result ≡ call_number self.now }
    {
        self.made
    }

    /// What each call does first: it is numbered, the late put lands if it is due, and the span says whether the call fails.
    fn begin(&mut self) -> bool
        ensures spanned { result ≡ true → IsCallOfSpan self.old.span self.old.made }
        ensures free { result ≡ false → IsCallOfSpan self.old.span self.old.made → ⊥ }
        ensures span { self.new.span ≡ self.old.span }
        ensures made { self.new.made ≡ min (self.old.made + 1) last_count }
        ensures faults { self.new.faults ≡ self.old.faults }
        ensures calls { self.new.calls ≡ min (self.old.calls + 1) last_count }
        ensures waits { self.new.late ≡ still_late self.old.late }
        ensures lands { IfSome (due_put self.old.late) (λ put. MadeCalls 1 1 (D.shown self.old.depot).calls (D.shown self.new.depot).calls) }
        ensures count { (D.shown self.old.depot).faults ≤ (D.shown self.new.depot).faults }
        ensures landed { LandsOnly (shown_with (D.shown self.old.depot) self.old.late 0 0) (shown_with (D.shown self.new.depot) self.new.late 0 0) }
    {
        let number = self.made;
        self.made = self.made.saturating_add(1);
        self.calls = self.calls.saturating_add(1);
        land(&mut self.depot, &mut self.late);
        self.span.has(number)
    }
}

impl<D: Depot + Drop> Depot for Failing<D> {
    ghost shown = { seen_of D.shown };

    /// Copies as many bytes of the key's value as `buf` has room for. A call of the span fails, and is never made.
    fn get(&mut self, key: &Key, buf: &mut [u8]) -> Result<Got, DepotFault>
        ensures got { Gets (seen_of D.shown self.new).held key.now buf.new result }
        ensures step { Steps NoChange 1 1 (seen_of D.shown self.old) (seen_of D.shown self.new) }
        ensures cause { Caused 1 (seen_of D.shown self.old) (seen_of D.shown self.new) result }

        ensures fails { FailsBy (span_of self.old) (call_number self.old) (D.shown self.old.depot).faults (D.shown self.new.depot).faults result }
        ensures number { call_number self.new ≡ min (call_number self.old + 1) last_count }
        ensures waits { late_of self.new ≡ still_late (late_of self.old) }
    {
        if self.begin() {
            return refuse(&mut self.faults);
        }
        let answer = self.depot.get(key, buf);
        settle(&mut self.faults, answer)
    }

    /// Whether the key is held. A call of the span fails, and is never made.
    fn has(&mut self, key: &Key) -> Result<bool, DepotFault>
        ensures answer { Answers (seen_of D.shown self.new).held key.now result }
        ensures step { Steps NoChange 1 1 (seen_of D.shown self.old) (seen_of D.shown self.new) }
        ensures cause { Caused 1 (seen_of D.shown self.old) (seen_of D.shown self.new) result }

        ensures fails { FailsBy (span_of self.old) (call_number self.old) (D.shown self.old.depot).faults (D.shown self.new.depot).faults result }
        ensures number { call_number self.new ≡ min (call_number self.old + 1) last_count }
        ensures waits { late_of self.new ≡ still_late (late_of self.old) }
    {
        if self.begin() {
            return refuse(&mut self.faults);
        }
        let answer = self.depot.has(key);
        settle(&mut self.faults, answer)
    }

    /// Stores these bytes under the key. A call of the span fails: it is made later, if it is to land, and else never.
    fn put(&mut self, key: &Key, bytes: &[u8]) -> Result<(), DepotFault>
        ensures stored { OnOk result (Holds (seen_of D.shown self.new).held key.now bytes.now) }
        ensures step { Steps (PutOf key.now bytes.now) 1 1 (seen_of D.shown self.old) (seen_of D.shown self.new) }
        ensures refused { OnErr result (LandsLate (seen_of D.shown self.old) (seen_of D.shown self.new)) }
        ensures late_unless_failed { AddsOnlyFailed result (seen_of D.shown self.old).late (seen_of D.shown self.new).late }
        ensures cause { Caused 1 (seen_of D.shown self.old) (seen_of D.shown self.new) result }

        ensures fails { FailsBy (span_of self.old) (call_number self.old) (D.shown self.old.depot).faults (D.shown self.new.depot).faults result }
        ensures number { call_number self.new ≡ min (call_number self.old + 1) last_count }
        ensures kept { KeepsAtMost (span_of self.old).land key.now bytes.now (still_late (late_of self.old)) (late_of self.new) }
    {
        if self.begin() {
            keep(self.alloc, &mut self.late, self.span.land, key, bytes);
            return refuse(&mut self.faults);
        }
        let answer = self.depot.put(key, bytes);
        settle(&mut self.faults, answer)
    }

    /// Makes the key absent. A call of the span fails, and is never made.
    fn remove(&mut self, key: &Key) -> Result<(), DepotFault>
        ensures gone { OnOk result (IsGone (seen_of D.shown self.new).held key.now) }
        ensures step { Steps (RemovalOf key.now) 1 1 (seen_of D.shown self.old) (seen_of D.shown self.new) }
        ensures refused { OnErr result (LandsLate (seen_of D.shown self.old) (seen_of D.shown self.new)) }
        ensures cause { Caused 1 (seen_of D.shown self.old) (seen_of D.shown self.new) result }

        ensures fails { FailsBy (span_of self.old) (call_number self.old) (D.shown self.old.depot).faults (D.shown self.new.depot).faults result }
        ensures number { call_number self.new ≡ min (call_number self.old + 1) last_count }
        ensures waits { late_of self.new ≡ still_late (late_of self.old) }
    {
        if self.begin() {
            return refuse(&mut self.faults);
        }
        let answer = self.depot.remove(key);
        settle(&mut self.faults, answer)
    }
}

impl<D: Share + Silent + Drop> Share for Failing<D> {
    type Yard = FailingYard<D::Yard>;

    ghost lent = { λ d. D.lent d.depot };

    ghost yards_lack = { λ d. D.yards_lack d.depot };

    /// It is no call, and never fails by the span. What is late goes to the pass.
    fn share(
        &mut self,
        alloc: Global,
        specs: &[Spec],
        promise: &Promise,
    ) -> Result<(FailingYard<D::Yard>, FailingPass<<D::Yard as Yard>::Pass>), DepotFault> {
        let answer = self.depot.share(alloc, specs, promise);
        let (yard, pass) = settle(&mut self.faults, answer)?;
        Ok((
            FailingYard {
                yard,
                alloc,
                span: self.span,
                made: AtomicU64::new(self.made),
                specs: copied(alloc, specs),
            },
            FailingPass {
                pass,
                late: self.late.take(),
                faults: 0,
                calls: 0,
            },
        ))
    }

    /// What is late in the pass is late in the depot from now on.
    fn unshare(&mut self, yard: FailingYard<D::Yard>, pass: FailingPass<<D::Yard as Yard>::Pass>) {
        let FailingYard { yard, made, .. } = yard;
        let FailingPass {
            pass,
            late,
            faults,
            calls,
        } = pass;
        self.depot.unshare(yard, pass);
        self.made = made.into_inner();
        self.faults = self.faults.saturating_add(faults);
        self.calls = self.calls.saturating_add(calls);
        if late.is_some() {
            self.late = late;
        }
    }
}
