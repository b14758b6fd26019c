//! Calls of the program over a depot in memory, and what must come of them.
ghost use Rattle.std.specs.Prelude.{◌≡◌, map, string_bytes};
ghost use Rattle.test_cases.specs.Late.{MayCall, is_going_on};

use anyhow::{Result, bail};
use cu_mem::{MemDepot, MemSink, MemSource, Script};
use cu_store::{Depot, Got, Key, Share};
use cu_top::{Status, number, status_line, top};
use serde_json::Value;
use std::alloc::Global;
use std::sync::Wait;
use std::thread::Threads;
use test_depots::{Awaited, Held, Meeting, Watched};
use test_rows::{
    CasePlace, Findings, NamedTexts, Said, key_of, list_of, number_of, pair_of, text_of,
};

/// What a key holds; `None` where it is absent.
#[derive(Drop)]
pub(crate) struct Content {
    key: Key,
    bytes: Option<Vec<u8>>,
    /// Whether it may be absent as well.
    is_optional: bool,
}

/// What must come of a call.
#[derive(Clone, Copy)]
pub(crate) struct Wanted<'a> {
    /// The line of its status.
    pub(crate) line: &'a str,
    pub(crate) output: &'a [u8],
    /// Other lines, of which each is right too.
    pub(crate) or_lines: &'a [Value],
    /// Other outputs, of which each is right too.
    pub(crate) or_outputs: &'a [Value],
    /// Whether a front of the output is enough.
    pub(crate) is_front: bool,
    /// How many of the keys that the call leaves are then as it leaves them.
    pub(crate) stored: usize,
}

impl<'a> Wanted<'a> {
    /// The line that this one must be: one of the other lines if it is the same, and else the first.
    fn line_for(&self, text: &str) -> Result<&'a str> {
        for other in self.or_lines {
            if text_of(other)? == text {
                return text_of(other);
            }
        }
        Ok(self.line)
    }

    /// The output that this one must be: one of the other outputs if it is the same, and else the first, or a front of it.
    fn output_for(&self, output: &[u8]) -> Result<&'a [u8]> {
        for other in self.or_outputs {
            let other = text_of(other)?.as_bytes();
            if other == output {
                return Ok(other);
            }
        }
        if self.is_front {
            return Ok(self.output.get(..output.len()).unwrap_or(self.output));
        }
        Ok(self.output)
    }
}

/// A call: what it is given, and what must come of it.
#[derive(Drop)]
pub(crate) struct Case<'a> {
    pub(crate) alloc: Global,
    words: Vec<String>,
    input: Vec<u8>,
    source_fails_at: Option<u64>,
    sink_fails_at: Option<u64>,
    pub(crate) room: u64,
    /// What the depot holds before the call, and after it what the call leaves in its order. The last of a key counts.
    contents: Vec<Content>,
    /// How many of them stand before the call.
    before: usize,
    pub(crate) line: &'a str,
    pub(crate) output: Vec<u8>,
    or_lines: &'a [Value],
    or_outputs: &'a [Value],
    pub(crate) is_front: bool,
    /// Which tasks are held, and until which have come.
    held: &'a [Value],
    awaited: &'a [Value],
}

/// The room of a sink where the table doesn't say it.
const ROOM: u64 = 10_000;

impl<'a> Case<'a> {
    /// The call that a table says, over a depot with these contents.
    pub(crate) fn read(
        texts: &NamedTexts<'_>,
        said: &Said<'a>,
        mut contents: Vec<Content>,
    ) -> Result<Case<'a>> {
        let before = contents.len();
        add_contents(&mut contents, texts, said.list("leaves")?, false)?;
        add_contents(&mut contents, texts, said.list("may_leave")?, true)?;
        let input = match said.member("input") {
            None => Vec::new(texts.alloc),
            Some(input) => texts.bytes(input)?,
        };
        let output = match said.member("output") {
            None => Vec::new(texts.alloc),
            Some(output) => texts.bytes(output)?,
        };
        Ok(Case {
            alloc: texts.alloc,
            words: words_of(texts.alloc, said.list("words")?)?,
            input,
            source_fails_at: said.number("source_fails_at")?,
            sink_fails_at: said.number("sink_fails_at")?,
            room: said.number("sink_room")?.unwrap_or(ROOM),
            contents,
            before,
            line: said.text("line")?,
            output,
            or_lines: said.list("or_lines")?,
            or_outputs: said.list("or_outputs")?,
            is_front: said.is_set("front")?,
            held: said.list("hold")?,
            awaited: said.list("until")?,
        })
    }

    /// What the depot holds after the call.
    pub(crate) fn into_contents(self) -> Vec<Content> {
        self.contents
    }

    /// What must come of the call where nothing was changed about it.
    pub(crate) fn wanted(&self) -> Wanted<'_> {
        Wanted {
            line: self.line,
            output: &self.output,
            or_lines: self.or_lines,
            or_outputs: self.or_outputs,
            is_front: self.is_front,
            stored: self.stored(),
        }
    }

    /// How many keys the call leaves.
    pub(crate) fn stored(&self) -> usize {
        self.contents.len().saturating_sub(self.before)
    }

    /// A depot with what stands before the call, of which no call fails.
    pub(crate) fn depot(&self) -> Result<Watched<MemDepot>> {
        let mut depot = MemDepot::make(self.alloc, Script::none());
        for content in self.contents.iter().take(self.before) {
            if let Some(bytes) = &content.bytes
                && depot.insert(&content.key, bytes).is_err()
            {
                bail!("no memory");
            }
        }
        Ok(Watched::new(self.alloc, depot))
    }

    /// Makes the call over a depot in memory, of which no put is late, and compares what comes of it with what must come.
    pub(crate) fn run(
        &self,
        threads: &(impl Threads + Wait + Sync),
        depot: &mut Watched<MemDepot>,
        room: u64,
        wanted: &Wanted<'_>,
        place: &CasePlace<'_>,
        findings: &mut Findings,
    ) -> Result<()> {
        if !depot.depot.none_late() {
            bail!("a put of an earlier call is late");
        }
        if is_going_on(&self.words) {
            bail!("a run goes on, and a part is run, over a folder alone");
        }
        depot.forget();
        self.answer(threads, depot, room, wanted, place, findings)?;
        self.expect_contents(depot, wanted.stored, place, findings)?;
        self.expect_rest(depot, wanted.stored, place, findings)
    }

    /// Makes the call, and compares its status and its output with what must come.
    pub(crate) fn answer<D: Share>(
        &self,
        threads: &(impl Threads + Wait + Sync),
        depot: &mut D,
        room: u64,
        wanted: &Wanted<'_>,
        place: &CasePlace<'_>,
        findings: &mut Findings,
    ) -> Result<()>
        requires { MayCall (map string_bytes self.now.words.items) (D.shown depot.old).held (D.shown depot.old).late }
    {
        let Ok(mut sink) = MemSink::make(self.alloc, room, self.sink_fails_at) else {
            bail!("no memory");
        };
        let gate = gate_of(self.alloc, self.held, self.awaited)?;
        let status = self.ask(threads, &mut sink, depot, &gate)?;
        findings.made();
        expect_status(self.alloc, &status, wanted, place, findings)?;
        if gate.given_up() != 0 {
            findings.differ(place, "the gate", "given up", "passed")?;
        }
        if gate.come() != self.awaited.len() {
            findings.differ(place, "the gate", "not reached", "passed")?;
        }
        let output = sink.text();
        findings.expect(place, "the output", output, wanted.output_for(output)?)
    }

    /// Puts or removes what stands before the call.
    pub(crate) fn fill<D: Depot>(&self, depot: &mut D) -> Result<()> {
        for content in self.contents.iter().take(self.before) {
            let done = match &content.bytes {
                Some(bytes) => depot.put(&content.key, bytes),
                None => depot.remove(&content.key),
            };
            if done.is_err() {
                bail!("a key can't be filled");
            }
        }
        Ok(())
    }

    /// Reads back by `get` what the call has left, and compares it with what must be there.
    pub(crate) fn read_back<D: Depot>(
        &self,
        depot: &mut D,
        place: &CasePlace<'_>,
        findings: &mut Findings,
    ) -> Result<()> {
        for content in self.contents.iter().skip(self.before) {
            let length = content.bytes.as_ref().map_or(0, |bytes| bytes.len());
            let mut buf = vec![in self.alloc; 0u8; length]?;
            let got = depot.get(&content.key, &mut buf);
            let key = content.key.text();
            match (&content.bytes, got) {
                (None, Ok(Got::Absent)) => {}
                (Some(_), Ok(Got::Absent)) if content.is_optional => {}
                (Some(bytes), Ok(Got::Held(count))) if count == length as u64 => {
                    findings.expect(place, key, &buf, bytes)?;
                }
                _ => findings.differ(place, key, "not so", "as the case says")?,
            }
        }
        Ok(())
    }

    /// Makes the call.
    #[tactic(auto, using(crate::proofs::Calm::may_run, crate::proofs::Calm::may_resume, crate::proofs::Calm::may_part, crate::proofs::Calm::may_demo))]
    fn ask<D: Share>(
        &self,
        threads: &(impl Threads + Wait + Sync),
        sink: &mut MemSink,
        depot: &mut D,
        gate: &Meeting,
    ) -> Result<Status>
        requires { MayCall (map string_bytes self.now.words.items) (D.shown depot.old).held (D.shown depot.old).late }
    {
        let input = self.input.clone()?;
        let mut source = MemSource::make(input, self.source_fails_at);
        Ok(top(
            threads,
            self.alloc,
            &self.words,
            &mut source,
            sink,
            depot,
            gate,
        ))
    }

    /// Compares what is held under each key that the case names.
    fn expect_contents(
        &self,
        depot: &Watched<MemDepot>,
        stored: usize,
        place: &CasePlace<'_>,
        findings: &mut Findings,
    ) -> Result<()> {
        for content in &self.contents {
            self.expect_key(&content.key, depot, stored, place, findings)?;
        }
        Ok(())
    }

    /// Compares what is held under each key that the call has put or removed, also where the case doesn't name it: no other
    /// key can have changed.
    fn expect_rest(
        &self,
        depot: &Watched<MemDepot>,
        stored: usize,
        place: &CasePlace<'_>,
        findings: &mut Findings,
    ) -> Result<()> {
        let Some(calls) = depot.calls() else {
            bail!("no memory");
        };
        for made in calls {
            if self.content_of(&made.key, usize::MAX).is_none() {
                self.expect_key(&made.key, depot, stored, place, findings)?;
            }
        }
        Ok(())
    }

    /// Compares what is held under a key.
    fn expect_key(
        &self,
        key: &Key,
        depot: &Watched<MemDepot>,
        stored: usize,
        place: &CasePlace<'_>,
        findings: &mut Findings,
    ) -> Result<()> {
        let found = depot.depot.lookup(key);
        let content = self.content_of(key, self.before.saturating_add(stored));
        let must = content.and_then(|content| content.bytes.as_ref());
        match (found, must) {
            (None, None) => Ok(()),
            (Some(found), Some(must)) => findings.expect(place, key.text(), found, must),
            (Some(_), None) => findings.differ(place, key.text(), "held", "absent"),
            (None, Some(_)) if content.is_some_and(|content| content.is_optional) => Ok(()),
            (None, Some(_)) => findings.differ(place, key.text(), "absent", "held"),
        }
    }

    /// What the key holds by the first so many contents.
    fn content_of(&self, key: &Key, count: usize) -> Option<&Content> {
        let mut last = None;
        for content in self.contents.iter().take(count) {
            if content.key.is(key) {
                last = Some(content);
            }
        }
        last
    }
}

/// Whether the words are for a run that goes on, or for a part of a plan. Where a depot tells its
/// contents, both want to know that they are what the plan left, which no table can say.
fn is_going_on(words: &[String]) -> bool
    ensures { result ≡ is_going_on (map string_bytes words.now) }
{
    match words {
        [first, ..] => first.as_str() == "resume" || first.as_str() == "part",
        [] => false,
    }
}

/// Compares a status with its line, and its number with the first of the line.
fn expect_status(
    alloc: Global,
    status: &Status,
    wanted: &Wanted<'_>,
    place: &CasePlace<'_>,
    findings: &mut Findings,
) -> Result<()> {
    let text = status_line(status);
    let line = wanted.line_for(text.as_str())?;
    findings.expect(place, "the line", text.as_str().as_bytes(), line.as_bytes())?;
    let is = format!(in alloc; "{}", number(status))?;
    let must = line.split(' ').nth(1).unwrap_or("0");
    findings.expect(place, "the status", is.as_str().as_bytes(), must.as_bytes())
}

/// The contents that a list of pairs says, each of a key and its bytes, or `null` where it is absent.
pub(crate) fn add_contents(
    contents: &mut Vec<Content>,
    texts: &NamedTexts<'_>,
    list: &[Value],
    is_optional: bool,
) -> Result<()> {
    for item in list {
        let (key, value) = pair_of(item)?;
        let bytes = if value.is_null() {
            None
        } else {
            Some(texts.bytes(value)?)
        };
        contents.push(Content {
            key: key_of(text_of(key)?)?,
            bytes,
            is_optional,
        })?;
    }
    Ok(())
}

/// The gate that holds the tasks of a list, each an operation and a number, until those of another have come, each so often.
fn gate_of(alloc: Global, held: &[Value], awaited: &[Value]) -> Result<Meeting> {
    let mut holds = Vec::new(alloc);
    for item in held {
        let [op, task] = list_of(item)? else {
            bail!("a task that is held has an operation and a number");
        };
        let (op, task) = (small(op)?, small(task)?);
        holds.push(Held { op, task })?;
    }
    let mut awaits = Vec::new(alloc);
    for item in awaited {
        let [op, task, times] = list_of(item)? else {
            bail!("a task that is awaited has an operation, a number and a count");
        };
        awaits.push(Awaited::new(small(op)?, small(task)?, number_of(times)?))?;
    }
    Ok(Meeting::new(holds, awaits))
}

/// A small number.
fn small(value: &Value) -> Result<u32> {
    match u32::try_from(number_of(value)?) {
        Ok(number) => Ok(number),
        Err(_) => bail!("a number is too large"),
    }
}

/// The words of a list of texts.
fn words_of(alloc: Global, list: &[Value]) -> Result<Vec<String>> {
    let mut words = Vec::new(alloc);
    for item in list {
        words.push(String::from_str(alloc, text_of(item)?)?)?;
    }
    Ok(words)
}
