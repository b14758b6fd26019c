//! A yard of which the calls of a span fail, whichever pass makes them.
ghost use Rattle.std.specs.Prelude.{◌≡◌, ◌↔◌, ℕ, IsTrue, IfSome};
ghost use Rattle.cu_store.specs.Yard.{is_made};
ghost use Rattle.test_depots.specs.FailingCounts.{known_with, IsCallOfSpan};
ghost use Rattle.test_depots.specs.FailingLaws.{same_with, fits_with, IsOwnWith, MakesAtMost};

use crate::late::{FailedPut, due, keep};
use crate::span::{FailingCalls, refuse, settle};
use cu_store::{DepotFault, Got, Key, Spec, Yard};
use std::alloc::Global;
use std::sync::atomic::{AtomicU64, Ordering};

/// A yard around another. The number of its next call is shared by all passes.
#[derive(Drop)]
pub struct FailingYard<Y: Yard> {
    pub(crate) yard: Y,
    pub(crate) alloc: Global,
    pub(crate) span: FailingCalls,
    pub(crate) made: AtomicU64,
    /// The keys that are served, as far as there was memory for them.
    pub(crate) specs: Vec<Spec>,
}

/// A pass, counts of its own, and a put of it that is late.
#[derive(Drop)]
pub struct FailingPass<P: Send + Drop> {
    pub(crate) pass: P,
    pub(crate) late: Option<FailedPut>,
    pub(crate) faults: u64,
    pub(crate) calls: u64,
}

/// A copy of the specs. Where there is no memory for it, it is empty, and late puts wait until the yard is given back.
pub(crate) fn copied(alloc: Global, specs: &[Spec]) -> Vec<Spec>
    ensures { MakesAtMost specs.now result.items }
{
    let mut copy = Vec::new(alloc);
    match copy.extend_from_slice(specs) {
        Ok(()) => copy,
        Err(_) => Vec::new(alloc),
    }
}

/// Whether the key is one that may be put.
fn is_made(specs: &[Spec], key: &Key) -> bool
    ensures { result ≡ is_made specs.now key.now }
{
    specs.iter().any(|spec| spec.made && spec.key.is(key))
}

/// The late put of a pass that is to land now. One on a key that isn't put here waits for the depot.
fn due_here(specs: &[Spec], late: &mut Option<FailedPut>) -> Option<FailedPut>
    ensures { IfSome result (λ put. IsTrue (is_made specs.now put.key)) }
{
    let put = due(late)?;
    if is_made(specs, &put.key) {
        return Some(put);
    }
    *late = Some(put);
    None
}

/// Numbers a call, and says whether it fails: some number decides it.
fn fails(span: FailingCalls, made: &AtomicU64) -> bool
    ensures { (number : ℕ) × (IsTrue result ↔ IsCallOfSpan span number) }
{
    span.has(made.fetch_add(1, Ordering::SeqCst))
}

impl<Y: Yard> Yard for FailingYard<Y> {
    type Pass = FailingPass<Y::Pass>;

    ghost serves = { λ y. Y.serves y.yard };

    ghost knows = { λ p. known_with (Y.knows p.pass) p.faults p.calls };

    ghost owns = { λ y p. IsOwnWith (Y.owns y.yard p.pass) (Y.serves y.yard) y.specs.items };

    ghost together = { λ p q. Y.together p.pass q.pass };

    ghost laws = { record { one_yard = λ y p q first second. Y.laws.one_yard y.yard p.pass q.pass first.0 second.0; own = λ y p q mine both. (Y.laws.own y.yard p.pass q.pass mine.0 both, mine.1, mine.2); same = λ p q t. same_with (Y.laws.same p.pass q.pass t); fits = λ y p mine. fits_with (Y.laws.fits y.yard p.pass mine.0) } };

    fn get(
        &self,
        pass: &mut FailingPass<Y::Pass>,
        key: &Key,
        buf: &mut [u8],
    ) -> Result<Got, DepotFault> {
        pass.calls = pass.calls.saturating_add(1);
        if let Some(put) = due_here(&self.specs, &mut pass.late) {
            // A pass of its own, since this one doesn't see it. Nobody waits for its answer.
            let mut second = self.yard.split(&mut pass.pass);
            let _ = self.yard.put(&mut second, &put.key, &put.bytes);
        }
        if fails(self.span, &self.made) {
            return refuse(&mut pass.faults);
        }
        let answer = self.yard.get(&mut pass.pass, key, buf);
        settle(&mut pass.faults, answer)
    }

    fn put(
        &self,
        pass: &mut FailingPass<Y::Pass>,
        key: &Key,
        bytes: &[u8],
    ) -> Result<(), DepotFault> {
        pass.calls = pass.calls.saturating_add(1);
        if let Some(put) = due_here(&self.specs, &mut pass.late) {
            // A pass of its own, since this one doesn't see it. Nobody waits for its answer.
            let mut second = self.yard.split(&mut pass.pass);
            let _ = self.yard.put(&mut second, &put.key, &put.bytes);
        }
        if fails(self.span, &self.made) {
            keep(self.alloc, &mut pass.late, self.span.land, key, bytes);
            return refuse(&mut pass.faults);
        }
        let answer = self.yard.put(&mut pass.pass, key, bytes);
        settle(&mut pass.faults, answer)
    }

    fn split(&self, pass: &mut FailingPass<Y::Pass>) -> FailingPass<Y::Pass> {
        FailingPass {
            pass: self.yard.split(&mut pass.pass),
            late: None,
            faults: 0,
            calls: 0,
        }
    }

    /// What is late stays in the first pass.
    fn hand(&self, pass: &mut FailingPass<Y::Pass>) -> FailingPass<Y::Pass> {
        let handed = FailingPass {
            pass: self.yard.split(&mut pass.pass),
            late: None,
            faults: pass.faults,
            calls: pass.calls,
        };
        pass.faults = 0;
        pass.calls = 0;
        handed
    }

    /// What is late in the other pass is late in this one from now on.
    fn join(&self, pass: &mut FailingPass<Y::Pass>, other: FailingPass<Y::Pass>) {
        let FailingPass {
            pass: second,
            late,
            faults,
            calls,
        } = other;
        self.yard.join(&mut pass.pass, second);
        pass.faults = pass.faults.saturating_add(faults);
        pass.calls = pass.calls.saturating_add(calls);
        if late.is_some() {
            pass.late = late;
        }
    }
}
