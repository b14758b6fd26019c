//! Which calls fail.
ghost use Rattle.std.specs.Prelude.{◌≡◌, ◌≤◌, ◌↔◌, IsTrue, Err};
ghost use Rattle.test_depots.specs.FailingCounts.{AddsFault, IsCountedFault, IsCallOfSpan};

use cu_store::DepotFault;

/// The calls that fail: the first, counted from 0, and how many.
#[derive(Clone, Copy)]
pub struct FailingCalls {
    pub first: u64,
    pub times: u64,
    /// After how many further calls the first put among them lands, if it lands at all.
    pub land: Option<u32>,
}

impl FailingCalls {
    /// No call.
    pub fn none() -> FailingCalls
        ensures { result.times ≡ 0 }
    {
        FailingCalls {
            first: 0,
            times: 0,
            land: None,
        }
    }

    /// Whether the call of this number fails.
    pub(crate) fn has(&self, number: u64) -> bool
        ensures { IsTrue result ↔ IsCallOfSpan self.now number }
    {
        number >= self.first && number - self.first < self.times
    }
}

/// A call that fails, which is counted.
pub(crate) fn refuse<A>(faults: &mut u64) -> Result<A, DepotFault>
    ensures answer { result ≡ Err DepotFault.Failed }
    ensures fault { IsCountedFault faults.old faults.new result }
    ensures count { faults.old ≤ faults.new }
{
    *faults = faults.saturating_add(1);
    Err(DepotFault::Failed)
}

/// Counts a call that failed.
pub(crate) fn settle<A>(faults: &mut u64, answer: Result<A, DepotFault>) -> Result<A, DepotFault>
    ensures same { result ≡ answer }
    ensures counted { AddsFault faults.old faults.new answer }
    ensures count { faults.old ≤ faults.new }
{
    if let Err(DepotFault::Failed) = &answer {
        *faults = faults.saturating_add(1);
    }
    answer
}
