//! Which calls fail.
ghost use Rattle.std.specs.Prelude.{◌≡◌, ◌≤◌, ◌∷◌, [], None, map, length, ◌||◌, if◌then◌else◌, find, option_and_then};
ghost use Rattle.std.specs.List.{list_any};
ghost use Rattle.std.specs.Str.{bytes_eq};
ghost use Rattle.cu_cells.specs.Script.{matches, fails_by, fate, has_stopped, counted, started, next, progress};

use arrayvec::ArrayVec;
use cu_store::Key;

/// The calls of a depot or a yard.
#[derive(Clone, Copy, Debug, Default, PartialEq, Eq)]
pub enum CallKind {
    /// `get`.
    #[default]
    Get,
    /// `has`.
    Has,
    /// `put`.
    Put,
    /// `remove`.
    Remove,
}

/// Lets calls fail: those of its kind and, where it names a key, on this key, counted by this rule
/// alone from 0, whose number lies from `skip` to below `skip + times`.
#[derive(Clone, Copy, Default)]
pub struct Rule {
    /// The kind of the calls that it matches.
    pub call: CallKind,
    /// The key that they are on. `None`: any key.
    pub key: Option<Key>,
    /// How many of these calls work before the first that fails.
    pub skip: u32,
    /// How many of them fail.
    pub times: u32,
    /// After how many further calls of the depot or the pass, of any kind, a put that fails lands:
    /// at the start of the first call after them, so of the next call where it is 0. `None`: it
    /// never lands.
    pub land: Option<u32>,
}

/// Which calls fail. A rule with a `land` has `times` 1.
#[derive(Drop)]
pub struct Script {
    /// A call fails where any of them says so. The first of these gives the `land`.
    pub rules: ArrayVec<Rule, 8>,
    /// After so many calls under this script each further call fails. A put that fails by this
    /// alone never lands.
    pub stop_after: Option<u64>,
}

impl Script {
    /// The script by which no call fails.
    pub fn none() -> Script
        ensures rules { result.rules.items ≡ [] }
        ensures stop_after { result.stop_after ≡ None }
    {
        Script {
            rules: ArrayVec::new(),
            stop_after: None,
        }
    }

    /// The script of one rule.
    pub fn one(rule: Rule) -> Script
        ensures rules { result.rules.items ≡ rule ∷ [] }
        ensures stop_after { result.stop_after ≡ None }
    {
        let mut rules = ArrayVec::new();
        rules.push(Rule {
            call: rule.call,
            key: rule.key,
            skip: rule.skip,
            times: rule.times,
            land: rule.land,
        });
        Script {
            rules,
            stop_after: None,
        }
    }
}

/// A rule, and how many calls have matched it. The count stops at the last value of a `u64`.
#[derive(Clone, Copy, Default)]
pub struct Counted {
    rule: Rule,
    count: u64,
}

impl Counted {
    /// Counts a call, where the rule matches it.
    fn count_one(&mut self, kind: CallKind, key: &Key)
        ensures { self.new ≡ counted kind key.now self.old }
    {
        if matches(&self.rule, kind, key) {
            self.count = self.count.saturating_add(1);
        }
    }
}

/// What becomes of a call.
#[derive(Clone, Copy)]
pub enum Fate {
    Works,
    /// It fails; a put lands after so many further calls, or never.
    Fails(Option<u32>),
}

/// A script and what it has counted. The count of its calls stops at the last value of a `u64`.
#[derive(Drop)]
pub struct Running {
    rules: ArrayVec<Counted, 8>,
    stop_after: Option<u64>,
    calls: u64,
}

impl Running {
    /// A script that has counted nothing.
    pub fn start(script: Script) -> Running
        ensures { progress result ≡ started script }
    {
        Running {
            rules: uncounted(script.rules.as_slice()),
            stop_after: script.stop_after,
            calls: 0,
        }
    }

    /// What becomes of a call, which is counted.
    pub fn next(&mut self, kind: CallKind, key: &Key) -> Fate
        ensures fate { result ≡ fate (progress self.old) kind key.now }
        ensures next { progress self.new ≡ next (progress self.old) kind key.now }
    {
        let stopped = has_stopped(self.stop_after, self.calls);
        let fate = fate_by(self.rules.as_slice(), stopped, kind, key);
        count_call(self.rules.as_mut_slice(), kind, key);
        self.calls = self.calls.saturating_add(1);
        fate
    }
}

/// Whether two keys are the same text.
pub fn same_key(a: &Key, b: &Key) -> bool
    ensures { result ≡ bytes_eq a.now b.now }
{
    a.text() == b.text()
}

/// The rules, none of which a call has matched.
fn uncounted(rules: &[Rule]) -> ArrayVec<Counted, 8>
    requires { length rules.now ≤ 8 }
    ensures { result.items ≡ map (λ r. record { rule = r; count = 0 }) rules.now }
{
    let mut made = ArrayVec::new();
    for rule in rules {
        made.push(Counted {
            rule: *rule,
            count: 0,
        });
    }
    made
}

/// Whether the script has stopped every call.
fn has_stopped(stop_after: Option<u64>, calls: u64) -> bool
    ensures { result ≡ has_stopped stop_after calls }
{
    match stop_after {
        None => false,
        Some(limit) => limit <= calls,
    }
}

/// What becomes of a call, where the script has stopped every call or not.
fn fate_by(rules: &[Counted], stopped: bool, kind: CallKind, key: &Key) -> Fate
    ensures { result ≡ (if list_any (λ c. fails_by c kind key.now) rules.now || stopped then Fate.Fails (option_and_then (λ c. c.rule.land) (find (λ c. fails_by c kind key.now) rules.now)) else Fate.Works) }
{
    for counted in rules {
        if fails_by(counted, kind, key) {
            return Fate::Fails(counted.rule.land);
        }
    }
    if stopped {
        Fate::Fails(None)
    } else {
        Fate::Works
    }
}

/// Counts a call at each rule that it matches.
fn count_call(rules: &mut [Counted], kind: CallKind, key: &Key)
    ensures { rules.new ≡ map (counted kind key.now) rules.old }
{
    for counted in rules.iter_mut() {
        counted.count_one(kind, key);
    }
}

/// Whether the rule matches a call.
fn matches(rule: &Rule, kind: CallKind, key: &Key) -> bool
    ensures { result ≡ matches rule.now kind key.now }
{
    rule.call == kind
        && match &rule.key {
            None => true,
            Some(named) => same_key(named, key),
        }
}

/// Whether a call fails by this rule.
fn fails_by(counted: &Counted, kind: CallKind, key: &Key) -> bool
    ensures { result ≡ fails_by counted.now kind key.now }
{
    let skip = u64::from(counted.rule.skip);
    matches(&counted.rule, kind, key)
        && skip <= counted.count
        && counted.count < skip + u64::from(counted.rule.times)
}
