//! What is compared: the expression of a text with its types, and the output as its metadata says.
ghost use Rattle.std.specs.Prelude.{◌≡◌, ◌+◌, ◌*◌, ◌≤◌, ◌↔◌, IsTrue, Ok, length, IfErr, IfOk, OnOk};
ghost use Rattle.cu_expr.specs.Typing.{typed};
ghost use Rattle.cu_store.specs.Steps.{NoChange, Steps, OnceEach};
ghost use Rattle.cu_zarr.specs.Key.{metadata_key_of};
ghost use Rattle.cu_command.specs.Job.{status_of, IsJob};
ghost use Rattle.cu_command.specs.Seen.{Stream, Stepped, WithinCalls, seen};
ghost use Rattle.cu_command.specs.Stored.{IsArrayLayout, HoldsLayout, IsMetadataFault};
ghost use Rattle.cu_check.specs.Check.{IsOutputRead, IsLikeStoredNode, IsMisfit, elements_in_all, metadata_keys, Compares};

use cu_command::{
    Job, JobFault, Status, metadata_room, read_inputs, read_written, said_in, types_in,
};
use cu_expr::{Expr, InputInfo, NodeInfo, Types, typing_law};
use cu_op::Layout;
use cu_read::ExprText;
use cu_store::PutStore;
use std::alloc::Global;

/// The most elements that are compared, those of all nodes together.
const MOST_ELEMENTS: u64 = 4_194_304;

/// The code for an output of another type or shape than its expression's.
const OTHER_OUTPUT: u8 = 11;

/// The expression of a text over stored arrays, and the array under whose name its output is stored.
#[derive(Drop)]
pub struct Compared {
    pub job: Job,
    pub output: InputInfo,
}

/// Reads the metadata of the output, of version 3 alone, as which it is stored.
fn read_output<D: PutStore>(
    alloc: Global,
    depot: &mut D,
    expr: &Expr,
    retries: u32,
) -> Result<InputInfo, JobFault>
    ensures name { IfOk result (λ output. output.name ≡ expr.now.store_as) }
    ensures layout { IfOk result (λ output. IsArrayLayout output.layout) }
    ensures found { IfOk result (λ output. HoldsLayout (D.shown depot.new).held (metadata_key_of expr.now.store_as) output.layout) }
    ensures step { Steps NoChange 0 (retries + 1) (D.shown depot.old) (D.shown depot.new) }
    ensures once { OnceEach 1 (D.shown depot.old) (D.shown depot.new) }
    ensures cause { IfErr result (λ fault. IsMetadataFault (retries + 1) (D.shown depot.old).faults (D.shown depot.new).faults (D.shown depot.new).held expr.now.store_as (status_of fault)) }
{
    let Ok(mut room) = metadata_room(alloc) else {
        return Err(JobFault::NoMemory);
    };
    read_written(alloc, depot, expr.store_as(), retries, &mut room)
}

/// Reads the expression of a text, the metadata of its inputs and then of its output, and types it.
fn read_typed<D: PutStore>(
    alloc: Global,
    depot: &mut D,
    text: &[u8],
    retries: u32,
) -> Result<Compared, Status>
    ensures job { IfOk result (λ c. IsJob (D.shown depot.old) text.now c.job) }
    ensures output { IfOk result (λ c. IsOutputRead (D.shown depot.old) c.job.expr c.output) }
    ensures step { Stepped NoChange (D.shown depot.old) (D.shown depot.new) }
    ensures cause { (out next : Stream) → IfErr result (Compares (retries + 1) text.now (seen out (D.shown depot.old)) (seen next (D.shown depot.new))) }
    ensures calls { WithinCalls (metadata_keys text.now * (retries + 1)) (D.shown depot.old) (D.shown depot.new) }
    ensures once { OnceEach (metadata_keys text.now) (D.shown depot.old) (D.shown depot.new) }
{
    let said = match said_in(alloc, text) {
        Ok(said) => said,
        Err(fault) => return Err(Status::from(fault)),
    };
    let inputs = match read_inputs(alloc, depot, &said.expr, retries) {
        Ok(inputs) => inputs,
        Err(fault) => return Err(Status::from(fault)),
    };
    let output = match read_output(alloc, depot, &said.expr, retries) {
        Ok(output) => output,
        Err(fault) => return Err(Status::from(fault)),
    };
    let types = match types_in(alloc, &said.expr, &inputs) {
        Ok(types) => types,
        Err(fault) => return Err(Status::from(fault)),
    };
    let ExprText { expr, compact } = said;
    let job = Job {
        expr,
        compact,
        inputs,
        types,
    };
    Ok(Compared { job, output })
}

/// Whether a stored array has a node's type and shape.
fn is_of_node(info: &NodeInfo, layout: &Layout) -> bool
    ensures { IsTrue result ↔ ((layout.now.dtype ≡ info.now.dtype) × (layout.now.grid.shape ≡ info.now.dims)) }
{
    layout.dtype == info.dtype && layout.grid.shape().is(&info.dims)
}

/// The elements of all nodes together, where there are so many nodes.
fn count_elements(types: &Types, nodes: u32) -> u64
    requires nodes { nodes ≡ length types.now }
    requires few { nodes ≤ 256 }
    ensures { result ≡ elements_in_all types.now }
{
    let mut count = 0;
    for node in 0..nodes {
        match types.at(node).dims.elements() {
            Some(more) => count += more,
            None => unreachable!(),
        }
    }
    count
}

/// Whether the output may be compared with its node: it has the node's type and shape, and there aren't too many elements.
fn check_output(job: &Job, output: &InputInfo) -> Result<(), Status>
    requires { typed job.now.inputs.items job.now.expr ≡ Ok job.now.types }
    ensures node { OnOk result (IsLikeStoredNode job.now output.now) }
    ensures few { OnOk result (elements_in_all job.now.types ≤ 4194304) }
    ensures refused { IfErr result (IsMisfit job.now output.now) }
{
    typing_law();
    if !is_of_node(job.types.at(job.expr.out()), &output.layout) {
        return Err(Status::BadMeta {
            name: output.name,
            code: OTHER_OUTPUT,
        });
    }
    let count = count_elements(&job.types, job.expr.nodes().len() as u32);
    if count > MOST_ELEMENTS {
        return Err(Status::OverLimit { which: 3, count });
    }
    Ok(())
}

/// Reads what is compared, and tests it. The faults come in this order: the text's; that metadata of the inputs, or then of the output,
/// isn't read; the types'; that the output has another type or shape; and that there are too many elements.
pub(crate) fn read_compared<D: PutStore>(
    alloc: Global,
    depot: &mut D,
    text: &[u8],
    retries: u32,
) -> Result<Compared, Status>
    ensures job { IfOk result (λ c. IsJob (D.shown depot.old) text.now c.job) }
    ensures output { IfOk result (λ c. IsOutputRead (D.shown depot.old) c.job.expr c.output) }
    ensures node { IfOk result (λ c. IsLikeStoredNode c.job c.output) }
    ensures few { IfOk result (λ c. elements_in_all c.job.types ≤ 4194304) }
    ensures step { Stepped NoChange (D.shown depot.old) (D.shown depot.new) }
    ensures cause { (out next : Stream) → IfErr result (Compares (retries + 1) text.now (seen out (D.shown depot.old)) (seen next (D.shown depot.new))) }
    ensures calls { WithinCalls (metadata_keys text.now * (retries + 1)) (D.shown depot.old) (D.shown depot.new) }
    ensures once { OnceEach (metadata_keys text.now) (D.shown depot.old) (D.shown depot.new) }
{
    let compared = match read_typed(alloc, depot, text, retries) {
        Ok(compared) => compared,
        Err(status) => return Err(status),
    };
    match check_output(&compared.job, &compared.output) {
        Ok(()) => Ok(compared),
        Err(status) => Err(status),
    }
}
