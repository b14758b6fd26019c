//! The command's one call: from the text to the stored array and the report.
ghost use Rattle.std.specs.Prelude.{◌+◌, ◌*◌};
ghost use Rattle.cu_store.specs.Steps.{OnceEach};
ghost use Rattle.cu_command.specs.Seen.{stream, seen, WithinCalls};
ghost use Rattle.cu_load.specs.Load.{Stored, Loaded, LoadsWithin, LoadsOnce, chunks_in};
ghost use Rattle.cu_load.specs.LoadForm.{IsGivenArray, given_by};

use crate::ask::ask_keys;
use crate::load_form::{LoadForm, LoadRefused, read_load};
use crate::report::report;
use crate::room::take_room;
use crate::store::store_array;
use cu_command::{Status, StreamRefused, read_all};
use cu_name::key_of_name;
use cu_store::{PutStore, Sink, Source};
use std::alloc::Global;

/// Stores the array that a text of the load form says, and writes a report.
///
/// The text is all that the source has left, of at most 1,048,576 bytes. The chunks are stored in row-major order, each
/// whole, and the metadata last; a call of the depot that fails is tried again, up to `retries` times. The answers are `Done`; `ReadFault` where
/// the source failed; `BadLoad` where the text says no array, with the code of the reason; `Exists` where the record of a plan
/// that stores the array, or metadata of its name, of either version, is held already; `DepotFailed` where all calls for a key failed; `WriteFault` where
/// the sink failed, with the array stored; and `NoMemory`. On `ReadFault`, `BadLoad` and `Exists` nothing is stored.
pub fn load<R: Source, W: Sink, D: PutStore>(
    alloc: Global,
    retries: u32,
    src: &mut R,
    out: &mut W,
    depot: &mut D,
) -> Status
    ensures answer { Loaded retries (stream (R.left src.old) (R.faults src.old)) (stream (R.left src.new) (R.faults src.new))
        (seen (stream (W.written out.old) (W.faults out.old)) (D.shown depot.old)) (seen (stream (W.written out.new) (W.faults out.new)) (D.shown depot.new)) result }
    ensures calls { LoadsWithin retries (R.left src.old) (R.left src.new) (D.shown depot.old) (D.shown depot.new) }
    ensures once { LoadsOnce (R.left src.old) (R.left src.new) (D.shown depot.old) (D.shown depot.new) }
{
    let text = match read_all(alloc, src) {
        Ok(text) => text,
        Err(StreamRefused::Fault) => return Status::ReadFault,
        Err(StreamRefused::NoMemory) => return Status::NoMemory,
    };
    let form = match read_load(alloc, &text) {
        Ok(form) => form,
        Err(LoadRefused::Code(code)) => return Status::BadLoad { code },
        Err(LoadRefused::NoMemory) => return Status::NoMemory,
    };
    store_form(alloc, retries, &form, out, depot)
}

/// Stores the array that was read.
fn store_form<W: Sink, D: PutStore>(
    alloc: Global,
    retries: u32,
    form: &LoadForm,
    out: &mut W,
    depot: &mut D,
) -> Status
    requires { IsGivenArray (given_by form.now) }
    ensures answer { Stored retries (given_by form.now)
        (seen (stream (W.written out.old) (W.faults out.old)) (D.shown depot.old)) (seen (stream (W.written out.new) (W.faults out.new)) (D.shown depot.new)) result }
    ensures calls { WithinCalls ((chunks_in (given_by form.now) + 4) * (retries + 1)) (D.shown depot.old) (D.shown depot.new) }
    ensures once { OnceEach (chunks_in (given_by form.now) + 4) (D.shown depot.old) (D.shown depot.new) }
{
    let name = key_of_name(&form.name);
    if let Err(status) = ask_keys(depot, &name, retries) {
        return status;
    }
    let Ok(mut room) = take_room(alloc, form) else {
        return Status::NoMemory;
    };
    match store_array(
        depot,
        form,
        &room.input,
        &room.metadata,
        &mut room.chunk,
        retries,
    ) {
        Ok(()) => match report(out, form) {
            Ok(()) => Status::Done,
            Err(_) => Status::WriteFault,
        },
        Err(status) => status,
    }
}
