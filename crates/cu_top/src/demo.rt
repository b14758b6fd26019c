//! The demonstration: it stores two inputs that are made from their indices, and runs an expression over them.
ghost use Rattle.std.specs.Prelude.{◌≡◌, ◌+◌, ◌*◌, ◌≤◌, ◌++◌, ℕ, IfErr, IfOk, OnErr, OnOk, All, Some};
ghost use Rattle.std.specs.Prelude.{length};
ghost use Rattle.cu_store.specs.Faults.{Rose};
ghost use Rattle.cu_command.specs.Streams.{WroteFront};
ghost use Rattle.cu_store.specs.Held.{Contents};
ghost use Rattle.cu_store.specs.Steps.{NoChange, OnceEach};
ghost use Rattle.cu_command.specs.Seen.{Stepped, WithinCalls, seen, stream};
ghost use Rattle.cu_demo.specs.Expression.{IsDemoJob, demo_expression};
ghost use Rattle.cu_demo.specs.declared.input.DemoInput.TheVariants.{Rows, Columns};
ghost use Rattle.cu_load.specs.Load.{ArrayPut, IsArrayCalm, StoresGiven, chunks_in};
ghost use Rattle.cu_lower.specs.declared.options.Options.{Options};
ghost use Rattle.cu_work.specs.Order.{IsFree};
ghost use Rattle.cu_top.specs.Calls.{DemosWithin};
ghost use Rattle.cu_top.specs.Demo.{AreInputsCalm, AreInputsFree, DemoTells, InputsPut};
ghost use Rattle.cu_top.specs.Demo.{IsDemoAskEnd, IsDemoCalm, IsInputsFault, IsResult};
ghost use Rattle.cu_top.specs.Demo.{IsResultUnread, StoresDemoInputs, WhereTold, demo_array, demo_case};
ghost use Rattle.cu_top.specs.Demo.{IsDemoRefused, IsInputPutEnd, ResultTells, result_key};
ghost use Rattle.cu_top.specs.Demo.{result_line};
ghost use Rattle.cu_top.specs.Prepare.{HasNoOwnInput, HasPlan, job_plan, asked_keys};
ghost use Rattle.cu_top.specs.Report.{report_line};
ghost use Rattle.cu_top.specs.Words.{IsInRange};

use crate::ask::{answer_of, ask_plan};
use crate::drive::make_ready;
use crate::prepare::{Prepared, unplanned_status};
use crate::report::{RunCounts, report};
use crate::run::store_plan;
use cu_codec::chunk_key;
use cu_command::{LineText, Status, push_field, write_all};
use cu_demo::{DemoInput, demo_elements, demo_job, demo_layout, demo_name};
use cu_load::{LoadForm, ask_keys, store_array, take_room};
use cu_lower::Options;
use cu_meta::meta_law;
use cu_name::key_of_name;
use cu_num::{Dtype, Encoding, Sep, load};
use cu_op::Plan;
use cu_plan::{merged_plan_law, plan};
use cu_run_law::complete_law;
use cu_shape::Dims;
use cu_store::{DepotFault, Failed, Gate, Got, Key, PutStore, SharedStore, Sink, get_tries};
use std::alloc::Global;
use std::sync::Wait;
use std::thread::Threads;

/// The bytes of the one chunk of the output.
const RESULT_BYTES: u64 = 8;

/// Makes the plan of the demonstration, over inputs of this size that aren't stored yet.
fn plan_demo(alloc: Global, options: &Options, size: u64) -> Result<Prepared, Status>
    requires options { IsInRange options.now }
    requires some { 1 ≤ size }
    requires few { size ≤ 2048 }
    ensures job { IfOk result (λ p. IsDemoJob size p.job) }
    ensures planned { IfOk result (λ p. HasPlan options.now p.job) }
    ensures plan { IfOk result (λ p. p.plan ≡ job_plan options.now p.job) }
    ensures refused { IfErr result (IsDemoRefused options.now size) }
{
    let Ok(job) = demo_job(alloc, size) else {
        return Err(Status::NoMemory);
    };
    match plan(alloc, &job.expr, &job.types, &job.inputs, options) {
        Ok(plan) => Ok(Prepared { job, plan }),
        Err(fault) => Err(unplanned_status(fault)),
    }
}

/// Asks for the keys of the inputs and then for those of the plan, and refuses the first that is held.
fn ask_demo<D: PutStore>(depot: &mut D, prepared: &Prepared, retries: u32) -> Result<(), Status>
    requires { prepared.now.job.expr ≡ demo_expression }
    ensures inputs { OnOk result (AreInputsFree (D.shown depot.old).held) }
    ensures keys { (options : Options) (entry : Contents) → prepared.now.plan ≡ job_plan options prepared.now.job → (D.shown depot.old).held ≡ Some entry
        → OnOk result (All (IsFree entry) (asked_keys options prepared.now.job)) }
    ensures own { OnOk result (HasNoOwnInput prepared.now.job.expr) }
    ensures step { Stepped NoChange (D.shown depot.old) (D.shown depot.new) }
    ensures refused { (options : Options) → prepared.now.plan ≡ job_plan options prepared.now.job
        → IfErr result (IsDemoAskEnd (retries + 1) (asked_keys options prepared.now.job) (D.shown depot.old) (D.shown depot.new)) }
    ensures calls { (options : Options) → prepared.now.plan ≡ job_plan options prepared.now.job
        → WithinCalls ((6 + length (asked_keys options prepared.now.job)) * (retries + 1)) (D.shown depot.old) (D.shown depot.new) }
    ensures once { (options : Options) → prepared.now.plan ≡ job_plan options prepared.now.job
        → OnceEach (6 + length (asked_keys options prepared.now.job)) (D.shown depot.old) (D.shown depot.new) }
{
    let rows = key_of_name(&demo_name(DemoInput::Rows));
    if let Err(status) = ask_keys(depot, &rows, retries) {
        return Err(status);
    }
    let columns = key_of_name(&demo_name(DemoInput::Columns));
    if let Err(status) = ask_keys(depot, &columns, retries) {
        return Err(status);
    }
    match ask_plan(depot, &prepared.job, &prepared.plan, retries) {
        Ok(()) => Ok(()),
        Err(fault) => Err(answer_of(fault)),
    }
}

/// Makes an input and stores it.
fn store_input<D: PutStore>(
    alloc: Global,
    depot: &mut D,
    input: DemoInput,
    size: u64,
    retries: u32,
) -> Result<(), Status>
    requires some { 1 ≤ size }
    requires few { size ≤ 2048 }
    ensures step { Stepped (ArrayPut (demo_array input size)) (D.shown depot.old) (D.shown depot.new) }
    ensures stores { IsArrayCalm (demo_array input size) (D.shown depot.old).late → OnOk result (StoresGiven (demo_array input size) (D.shown depot.new).held) }
    ensures refused { IfErr result (IsInputPutEnd (retries + 1) (demo_array input size) (D.shown depot.old) (D.shown depot.new)) }
    ensures calls { WithinCalls ((chunks_in (demo_array input size) + 1) * (retries + 1)) (D.shown depot.old) (D.shown depot.new) }
    ensures once { OnceEach (chunks_in (demo_array input size) + 1) (D.shown depot.old) (D.shown depot.new) }
{
    let Ok(elements) = demo_elements(alloc, input, size) else {
        return Err(Status::NoMemory);
    };
    let form = LoadForm {
        name: demo_name(input),
        layout: demo_layout(input, size),
        elements,
    };
    let Ok(mut room) = take_room(alloc, &form) else {
        return Err(Status::NoMemory);
    };
    store_array(
        depot,
        &form,
        &room.input,
        &room.metadata,
        &mut room.chunk,
        retries,
    )
}

/// Makes both inputs, one after the other, and stores them.
fn store_inputs<D: PutStore>(
    alloc: Global,
    depot: &mut D,
    size: u64,
    retries: u32,
) -> Result<(), Status>
    requires some { 1 ≤ size }
    requires few { size ≤ 2048 }
    ensures step { Stepped (InputsPut size) (D.shown depot.old) (D.shown depot.new) }
    ensures stores { AreInputsCalm size (D.shown depot.old).late → OnOk result (StoresDemoInputs size (D.shown depot.new).held) }
    ensures refused { IfErr result (IsInputsFault (retries + 1) size (D.shown depot.old) (D.shown depot.new)) }
    ensures calls { WithinCalls (((chunks_in (demo_array Rows size) + 1) + (chunks_in (demo_array Columns size) + 1)) * (retries + 1))
        (D.shown depot.old) (D.shown depot.new) }
    ensures once { OnceEach ((chunks_in (demo_array Rows size) + 1) + (chunks_in (demo_array Columns size) + 1))
        (D.shown depot.old) (D.shown depot.new) }
{
    if let Err(status) = store_input(alloc, depot, DemoInput::Rows, size, retries) {
        return Err(status);
    }
    store_input(alloc, depot, DemoInput::Columns, size, retries)
}

/// The key of the one chunk of the output.
fn result_key() -> Key
    ensures { result ≡ result_key }
{
    let (Some(name), Ok(coord)) = (Key::make("demo_y"), Dims::make(&[])) else {
        unreachable!();
    };
    chunk_key(&name, Encoding::Plain(Sep::Slash), &coord)
}

/// Reads the one element of the output. A chunk that is absent has the fill value, which is 0.
fn read_result<D: PutStore>(depot: &mut D, retries: u32) -> Result<i128, Status>
    ensures element { IfOk result (IsResult (D.shown depot.new).held) }
    ensures step { Stepped NoChange (D.shown depot.old) (D.shown depot.new) }
    ensures refused { IfErr result (IsResultUnread (retries + 1) (D.shown depot.old) (D.shown depot.new)) }
    ensures calls { WithinCalls (retries + 1) (D.shown depot.old) (D.shown depot.new) }
    ensures once { OnceEach 1 (D.shown depot.old) (D.shown depot.new) }
{
    let key = result_key();
    let mut bytes = [0u8; 8];
    let got = match get_tries(depot, &key, &mut bytes, retries) {
        Ok(Got::Held(got)) => got,
        Ok(Got::Absent) => return Ok(0),
        Err(DepotFault::Failed) => return Err(Status::DepotFailed { key }),
        Err(DepotFault::NoMemory) => return Err(Status::NoMemory),
    };
    if got != RESULT_BYTES {
        return Err(Status::BadChunk {
            key,
            got,
            want: RESULT_BYTES,
        });
    }
    Ok(load(Dtype::Int64, &bytes, 0))
}

/// The line of the result.
#[tactic(auto, unfolding(crate::specs::Demo::result_line))]
fn result_text(size: u64, element: i128) -> LineText
    ensures { result.bytes ≡ result_line size element }
{
    let mut line = LineText::new();
    push_field(&mut line, "demo ", size);
    line.push_str(" result=");
    let mut digits = itoa::Buffer::new();
    line.push_str(digits.format(element));
    line.push_str("\n");
    line
}

/// Writes the line of the result.
fn write_result<W: Sink>(out: &mut W, size: u64, element: i128) -> Result<(), Failed>
    ensures all { OnOk result (WroteFront (W.written out.old) (W.written out.new) (result_line size element) (length (result_line size element))) }
    ensures front { OnErr result ((n : ℕ) × (n ≤ length (result_line size element)) × WroteFront (W.written out.old) (W.written out.new) (result_line size element) n) }
    ensures cause { OnErr result (Rose 1 (W.faults out.old) (W.faults out.new)) }
    ensures count { W.faults out.old ≤ W.faults out.new }
{
    let line = result_text(size, element);
    write_all(out, line.as_bytes())
}

/// Reads the one element of the output, and writes its line and that of the report.
fn tell_result<W: Sink, D: PutStore>(
    out: &mut W,
    depot: &mut D,
    size: u64,
    plan: &Plan,
    counts: &RunCounts,
    retries: u32,
) -> Status
    ensures answer { ResultTells (retries + 1) (λ x. result_line size x ++ report_line plan.now counts.now)
        (seen (stream (W.written out.old) (W.faults out.old)) (D.shown depot.old)) (seen (stream (W.written out.new) (W.faults out.new)) (D.shown depot.new)) result }
    ensures step { Stepped NoChange (D.shown depot.old) (D.shown depot.new) }
    ensures calls { WithinCalls (retries + 1) (D.shown depot.old) (D.shown depot.new) }
    ensures once { OnceEach 1 (D.shown depot.old) (D.shown depot.new) }
{
    let element = match read_result(depot, retries) {
        Ok(element) => element,
        Err(status) => return status,
    };
    match write_result(out, size, element) {
        Ok(()) => match report(out, plan, counts) {
            Ok(()) => Status::Done,
            Err(_) => Status::WriteFault,
        },
        Err(_) => Status::WriteFault,
    }
}

/// Stores two inputs of this size that are made from their indices, computes an expression over them, stores the array that it makes,
/// and writes its one element and the report.
///
/// All keys are asked for before anything is stored: those of the inputs, and then those of the plan.
pub fn demo<H: Threads + Wait + Sync, W: Sink, D: SharedStore, G: Gate>(
    rt: &H,
    alloc: Global,
    options: &Options,
    size: u64,
    out: &mut W,
    depot: &mut D,
    gate: &G,
) -> Status
    requires options { IsInRange options.now }
    requires some { 1 ≤ size }
    requires few { size ≤ 2048 }
    requires quiet { WhereTold (D.shown depot.old).held (IsDemoCalm options.now size (D.shown depot.old)) }
    ensures answer { DemoTells (D.yards_lack depot.new) (demo_case options.now size
        (seen (stream (W.written out.old) (W.faults out.old)) (D.shown depot.old)) (seen (stream (W.written out.new) (W.faults out.new)) (D.shown depot.new))) result }
    ensures calls { DemosWithin (demo_case options.now size
        (seen (stream (W.written out.old) (W.faults out.old)) (D.shown depot.old)) (seen (stream (W.written out.new) (W.faults out.new)) (D.shown depot.new))) result }
{
    meta_law();
    merged_plan_law();
    complete_law();
    let prepared = match plan_demo(alloc, options, size) {
        Ok(prepared) => prepared,
        Err(status) => return status,
    };
    if let Err(status) = ask_demo(depot, &prepared, options.retries) {
        return status;
    }
    let Ok(ready) = make_ready(alloc, options, prepared) else {
        return Status::NoMemory;
    };
    if let Err(status) = store_inputs(alloc, depot, size, options.retries) {
        return status;
    }
    match store_plan(rt, alloc, options, &ready, depot, gate) {
        Ok(counts) => tell_result(out, depot, size, &ready.plan, &counts, options.retries),
        Err(status) => status,
    }
}
