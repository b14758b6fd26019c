//! What is done to each single call of a depot: it fails once or for good, a put lands late, or all stops before it;
//! and each smaller sink.
ghost use Rattle.std.specs.Prelude.{◌≡◌, IfOk, None};
ghost use Rattle.cu_mem.specs.Script.{LandsOnce};

use crate::case::{Case, Wanted};
use anyhow::{Result, bail};
use cu_mem::{CallKind, MemDepot, Rule, Script};
use serde_json::Value;
use std::sync::Wait;
use std::thread::Threads;
use test_depots::{LoggedCall, Watched};
use test_rows::{
    CasePlace, Findings, NamedTexts, Said, list_of, number_of, refuse_others, text_of,
};

/// A case that was run, and the calls that it made of the depot.
#[derive(Clone, Copy)]
pub(crate) struct Trial<'a> {
    pub(crate) case: &'a Case<'a>,
    pub(crate) calls: &'a [LoggedCall],
    pub(crate) name: &'a str,
    pub(crate) row: u64,
}

/// Carries out the loops that a table says:
///
/// - `ends` has for each call the line of a run that stops before it or for which it fails for good, how many of the keys are
///   then stored, and, where a second call follows, the line of this one; `again` says what is other about it;
/// - `fronts`, where it is true, says that a front of the output is written then, and else nothing is;
/// - `once` lets each call fail once, and says that from the call `from` on the output is `output`;
/// - `late` lets each put fail once and land after 0, 1 and so on to below so many calls;
/// - `sinks`, where it is true, tries each sink that is too small.
pub(crate) fn run_loops(
    threads: &(impl Threads + Wait + Sync),
    trial: &Trial<'_>,
    again: &Case<'_>,
    texts: &NamedTexts<'_>,
    value: &Value,
    findings: &mut Findings,
) -> Result<()> {
    refuse_others(value, &["ends", "again", "fronts", "once", "late", "sinks"])?;
    let said = Said {
        row: value,
        case: value,
        shared: value,
    };
    let fronts = said.is_set("fronts")?;
    if said.member("ends").is_some() {
        trial.each_end(threads, again, said.list("ends")?, fronts, findings)?;
    }
    let late = said.number("late")?;
    match (said.member("once"), late) {
        (Some(once), late) => trial.each_again(threads, texts, once, late.unwrap_or(0), findings)?,
        (None, Some(_)) => bail!("late puts are tried with once"),
        (None, None) => {}
    }
    if said.is_set("sinks")? {
        trial.each_sink(threads, findings)?;
    }
    Ok(())
}

impl Trial<'_> {
    /// Runs the case over a depot of its own with this script.
    fn run(
        &self,
        threads: &(impl Threads + Wait + Sync),
        script: Script,
        room: u64,
        wanted: &Wanted<'_>,
        place: &CasePlace<'_>,
        findings: &mut Findings,
    ) -> Result<Watched<MemDepot>>
        requires { LandsOnce script.rules.items }
    {
        let mut depot = self.case.depot()?;
        depot.depot.set_script(script);
        self.case
            .run(threads, &mut depot, room, wanted, place, findings)?;
        Ok(depot)
    }

    fn place<'b>(&'b self, what: &'b str, number: usize) -> CasePlace<'b> {
        CasePlace {
            case: self.name,
            row: self.row,
            what,
            number: number as u64,
        }
    }

    /// Stops before each call, and lets each fail for good.
    fn each_end(
        &self,
        threads: &(impl Threads + Wait + Sync),
        again: &Case<'_>,
        ends: &[Value],
        fronts: bool,
        findings: &mut Findings,
    ) -> Result<()> {
        if ends.len() != self.calls.len() {
            let place = self.place("ends for calls", self.calls.len());
            return findings.expect_so(&place, false);
        }
        for (at, end) in ends.iter().enumerate() {
            self.end(threads, again, at, end, fronts, findings)?;
        }
        Ok(())
    }

    /// Stops before a call, and lets it fail for good.
    fn end(
        &self,
        threads: &(impl Threads + Wait + Sync),
        again: &Case<'_>,
        at: usize,
        end: &Value,
        fronts: bool,
        findings: &mut Findings,
    ) -> Result<()> {
        let [line, stored, second @ ..] = list_of(end)? else {
            bail!("an end has a line and a count");
        };
        let wanted = Wanted {
            line: text_of(line)?,
            output: if fronts { &self.case.output } else { &[] },
            or_lines: &[],
            or_outputs: &[],
            is_front: true,
            stored: count_of(stored)?,
        };
        let mut stop = Script::none();
        stop.stop_after = Some(at as u64);
        let place = self.place("stopped before call", at);
        let mut depot = self.run(threads, stop, self.case.room, &wanted, &place, findings)?;
        run_again(
            threads, again, &mut depot, &wanted, second, &place, findings,
        )?;
        let place = self.place("failing for good, call", at);
        let script = Script::one(self.rule_for_good(at)?);
        let mut depot = self.run(threads, script, self.case.room, &wanted, &place, findings)?;
        run_again(
            threads, again, &mut depot, &wanted, second, &place, findings,
        )
    }

    /// Lets a call and each of its kind on its key that follows fail.
    fn rule_for_good(&self, at: usize) -> Result<Rule>
        ensures { IfOk result (λ rule. rule.land ≡ None) }
    {
        let Some(made) = self.calls.get(at) else {
            bail!("call {at} wasn't made");
        };
        let mut skip = 0u32;
        for earlier in self.calls.iter().take(at) {
            if earlier.kind == made.kind && earlier.key.is(&made.key) {
                skip = skip.saturating_add(1);
            }
        }
        Ok(Rule {
            call: made.kind,
            key: Some(made.key),
            skip,
            times: u32::MAX,
            land: None,
        })
    }

    /// Lets each call fail once, and each put also land late.
    fn each_again(
        &self,
        threads: &(impl Threads + Wait + Sync),
        texts: &NamedTexts<'_>,
        once: &Value,
        late: u64,
        findings: &mut Findings,
    ) -> Result<()> {
        refuse_others(once, &["from", "output"])?;
        let output = match once.get("output") {
            None => self.case.output.clone()?,
            Some(output) => texts.bytes(output)?,
        };
        let from = match once.get("from") {
            None => 0,
            Some(from) => count_of(from)?,
        };
        for (at, made) in self.calls.iter().enumerate() {
            let wanted = Wanted {
                line: self.case.line,
                output: if at < from {
                    &self.case.output
                } else {
                    &output
                },
                or_lines: &[],
                or_outputs: &[],
                is_front: false,
                stored: self.case.stored(),
            };
            self.fail_once(threads, at, made.kind, &wanted, findings)?;
            if made.kind == CallKind::Put {
                self.land_late(threads, at, late, &wanted, findings)?;
            }
        }
        Ok(())
    }

    /// Lets a call fail once.
    fn fail_once(
        &self,
        threads: &(impl Threads + Wait + Sync),
        at: usize,
        kind: CallKind,
        wanted: &Wanted<'_>,
        findings: &mut Findings,
    ) -> Result<()> {
        let rule = Rule {
            call: kind,
            key: None,
            skip: self.calls_before(at, kind),
            times: 1,
            land: None,
        };
        let place = self.place("failing once, call", at);
        self.run(
            threads,
            Script::one(rule),
            self.case.room,
            wanted,
            &place,
            findings,
        )?;
        Ok(())
    }

    /// Lets a put fail once and land after 0, 1 and so on to below so many calls.
    fn land_late(
        &self,
        threads: &(impl Threads + Wait + Sync),
        at: usize,
        late: u64,
        wanted: &Wanted<'_>,
        findings: &mut Findings,
    ) -> Result<()> {
        let skip = self.calls_before(at, CallKind::Put);
        for wait in 0..small(late) {
            let rule = Rule {
                call: CallKind::Put,
                key: None,
                skip,
                times: 1,
                land: Some(wait),
            };
            let place = self.place("landing late, call", at);
            self.run(
                threads,
                Script::one(rule),
                self.case.room,
                wanted,
                &place,
                findings,
            )?;
        }
        Ok(())
    }

    /// How many calls of a kind were made before a call.
    fn calls_before(&self, at: usize, kind: CallKind) -> u32 {
        let mut count = 0u32;
        for made in self.calls.iter().take(at) {
            if made.kind == kind {
                count = count.saturating_add(1);
            }
        }
        count
    }

    /// Tries each sink that is too small for the output: it takes as much of it as it has room for.
    fn each_sink(
        &self,
        threads: &(impl Threads + Wait + Sync),
        findings: &mut Findings,
    ) -> Result<()> {
        for room in 0..self.case.output.len() {
            let wanted = Wanted {
                line: "error 12",
                output: self.case.output.get(..room).unwrap_or(&[]),
                or_lines: &[],
                or_outputs: &[],
                is_front: false,
                stored: self.case.stored(),
            };
            let place = self.place("sink of bytes", room);
            self.run(
                threads,
                Script::none(),
                room as u64,
                &wanted,
                &place,
                findings,
            )?;
        }
        Ok(())
    }
}

/// Makes a second call over the depot that the first one left, of which no call fails any more, where the table says its line:
/// without a line all keys are stored then, and with one those that were.
fn run_again(
    threads: &(impl Threads + Wait + Sync),
    again: &Case<'_>,
    depot: &mut Watched<MemDepot>,
    first: &Wanted<'_>,
    second: &[Value],
    place: &CasePlace<'_>,
    findings: &mut Findings,
) -> Result<()> {
    let line = match second {
        [] => return Ok(()),
        [line] => text_of(line)?,
        _ => bail!("an end has at most a line, a count and a line"),
    };
    depot.depot.set_script(Script::none());
    let wanted = if line.is_empty() {
        again.wanted()
    } else {
        Wanted {
            line,
            output: &[],
            or_lines: &[],
            or_outputs: &[],
            is_front: false,
            stored: first.stored,
        }
    };
    let place = CasePlace {
        case: place.case,
        row: place.row,
        what: "a second call after the end at call",
        number: place.number,
    };
    again.run(threads, depot, again.room, &wanted, &place, findings)
}

fn count_of(value: &Value) -> Result<usize> {
    Ok(number_of(value)? as usize)
}

fn small(number: u64) -> u32 {
    match u32::try_from(number) {
        Ok(small) => small,
        Err(_) => u32::MAX,
    }
}
