//! The command: the text, the metadata, the chunks, the elements, and the line.
ghost use Rattle.std.specs.Prelude.{◌≡◌, ◌+◌, ◌*◌, All, Ok, IfErr, OnOk};
ghost use Rattle.cu_expr.specs.Typing.{typed};
ghost use Rattle.cu_store.specs.Steps.{Shown, NoChange, OnceEach};
ghost use Rattle.cu_command.specs.Seen.{Stepped, WithinCalls, stream, seen};
ghost use Rattle.cu_command.specs.Stored.{IsArrayLayout};
ghost use Rattle.cu_command.specs.declared.status.Status.TheVariants.{Unequal};
ghost use Rattle.cu_check.specs.Arrays.{chunks_of_all, compared_arrays};
ghost use Rattle.cu_check.specs.Check.{IsLikeStoredNode, IsEqual, WhereThere, IsCompareFault, Compares, ComparesWithin, ComparesOnce, PrintsLine, Checked, ChecksWithin, ChecksOnce};

use crate::arrays::{element_count, read_array};
use crate::compare::{Difference, compare};
use crate::inputs::read_nodes;
use crate::metadata::{Compared, read_compared};
use crate::report::report;
use cu_command::{Status, StreamRefused, read_all};
use cu_mean::{Plains, whole};
use cu_store::{PutStore, Sink, Source};
use std::alloc::Global;

/// What is answered where the elements differ.
fn unequal(difference: &Difference) -> Status
    ensures { result ≡ Unequal difference.now.place difference.now.stored difference.now.plain }
{
    Status::Unequal {
        place: difference.place,
        stored: difference.stored,
        plain: difference.plain,
    }
}

/// Reads the arrays of the input nodes, in node order, and the output, and compares the output's elements with those that the expression
/// means.
fn compare_output<D: PutStore>(
    alloc: Global,
    depot: &mut D,
    compared: &Compared,
    retries: u32,
) -> Result<(), Status>
    requires types { typed compared.now.job.inputs.items compared.now.job.expr ≡ Ok compared.now.job.types }
    requires layouts { All (λ i. IsArrayLayout i.layout) compared.now.job.inputs.items }
    requires name { compared.now.output.name ≡ compared.now.job.expr.store_as }
    requires layout { IsArrayLayout compared.now.output.layout }
    requires node { IsLikeStoredNode compared.now.job compared.now.output }
    ensures equal { OnOk result ((entry : Shown) → Stepped NoChange entry (D.shown depot.old) → WhereThere entry compared.now.job compared.now.output (IsEqual compared.now.job compared.now.output)) }
    ensures step { Stepped NoChange (D.shown depot.old) (D.shown depot.new) }
    ensures cause { IfErr result (λ status. (entry : Shown) → Stepped NoChange entry (D.shown depot.old)
        → IsCompareFault (retries + 1) entry (D.shown depot.old) (D.shown depot.new) compared.now status) }
    ensures calls { WithinCalls (chunks_of_all (compared_arrays compared.now.job compared.now.output) * (retries + 1)) (D.shown depot.old) (D.shown depot.new) }
    ensures once { OnceEach (chunks_of_all (compared_arrays compared.now.job compared.now.output)) (D.shown depot.old) (D.shown depot.new) }
{
    let job = &compared.job;
    let layout = &compared.output.layout;
    let inputs = match read_nodes(alloc, depot, &job.expr, &job.inputs, retries) {
        Ok(inputs) => inputs,
        Err(status) => return Err(status),
    };
    let stored = match read_array(alloc, depot, &compared.output, retries) {
        Ok(stored) => stored,
        Err(status) => return Err(status),
    };
    let Ok(plains) = whole(alloc, &job.expr, &job.types, Plains::make(inputs)) else {
        return Err(Status::NoMemory);
    };
    let plain = plains.at(job.expr.out());
    match compare(layout.dtype, &stored, plain, element_count(layout)) {
        Ok(()) => Ok(()),
        Err(difference) => Err(unequal(&difference)),
    }
}

/// Compares the stored output of the expression of a text, and writes the line.
fn check_text<W: Sink, D: PutStore>(
    alloc: Global,
    retries: u32,
    text: &[u8],
    out: &mut W,
    depot: &mut D,
) -> Status
    ensures answer { Compares (retries + 1) text.now (seen (stream (W.written out.old) (W.faults out.old)) (D.shown depot.old))
        (seen (stream (W.written out.new) (W.faults out.new)) (D.shown depot.new)) result }
    ensures printed { PrintsLine result (W.written out.old) (W.written out.new) }
    ensures step { Stepped NoChange (D.shown depot.old) (D.shown depot.new) }
    ensures calls { ComparesWithin (retries + 1) text.now (D.shown depot.old) (D.shown depot.new) }
    ensures once { ComparesOnce text.now (D.shown depot.old) (D.shown depot.new) }
{
    let compared = match read_compared(alloc, depot, text, retries) {
        Ok(compared) => compared,
        Err(status) => return status,
    };
    match compare_output(alloc, depot, &compared, retries) {
        Ok(()) => {
            let count = element_count(&compared.output.layout);
            match report(out, &compared.output, count) {
                Ok(()) => Status::Done,
                Err(_) => Status::WriteFault,
            }
        }
        Err(status) => status,
    }
}

/// Compares the array that is stored under an expression's name with what the expression means over the stored arrays that it uses, and
/// writes `equal N`, where N counts the output's elements. The expression is read from the source as JSON.
///
/// The faults come in this order. `ReadFault`: the source failed. `BadExpr`: the text is no expression. `DepotFailed`, `NoArray` and
/// `BadMeta` with codes 1 to 10 or 21 to 30: the metadata of an input, in node order, isn't read, of version 3 or where that is absent
/// of version 2; the same, with codes 1 to 10, for the output, of version 3 alone. `BadType`: the expression has
/// no types. `BadMeta` with code 11: the output has another type or shape than the expression. `OverLimit` with which 3: the nodes have
/// more than 4,194,304 elements together, an axis of size 0 counting as 0. `DepotFailed` and `BadChunk`: a chunk of an input node's
/// array, in node order, or then of the output isn't read, which each chunk is with at most `retries + 1` calls. `Unequal`: at this
/// place, row-major, the elements differ; the first such place. `WriteFault`: the sink failed. Nothing is written to the depot.
///
/// It takes 16 bytes for each element of each node, and a chunk.
pub fn check<R: Source, W: Sink, D: PutStore>(
    alloc: Global,
    retries: u32,
    src: &mut R,
    out: &mut W,
    depot: &mut D,
) -> Status
    ensures answer { Checked retries (stream (R.left src.old) (R.faults src.old)) (stream (R.left src.new) (R.faults src.new))
        (seen (stream (W.written out.old) (W.faults out.old)) (D.shown depot.old)) (seen (stream (W.written out.new) (W.faults out.new)) (D.shown depot.new)) result }
    ensures calls { ChecksWithin (retries + 1) (stream (R.left src.old) (R.faults src.old)) (stream (R.left src.new) (R.faults src.new)) (D.shown depot.old) (D.shown depot.new) }
    ensures once { ChecksOnce (stream (R.left src.old) (R.faults src.old)) (stream (R.left src.new) (R.faults src.new)) (D.shown depot.old) (D.shown depot.new) }
{
    match read_all(alloc, src) {
        Ok(text) => check_text(alloc, retries, &text, out, depot),
        Err(StreamRefused::Fault) => Status::ReadFault,
        Err(StreamRefused::NoMemory) => Status::NoMemory,
    }
}
