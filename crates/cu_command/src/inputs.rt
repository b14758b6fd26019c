//! The metadata of the arrays that an expression uses, in the order of its nodes.
ghost use Rattle.std.specs.Prelude.{◌≡◌, ℕ, ◌+◌, ◌*◌, List, IfErr, IfOk, OnErr, OnOk, All, bytes_eq, length, true};
ghost use Rattle.std.specs.List.{list_any};
ghost use Rattle.cu_form.specs.Form.{in_ranges};
ghost use Rattle.cu_name.specs.Name.{is_name};
ghost use Rattle.cu_store.specs.Steps.{NoChange, Shown, Steps, OnceEach};
ghost use Rattle.cu_zarr.specs.Key.{metadata_key_of};
ghost use Rattle.cu_command.specs.Inputs.{name_before, names_in, names_of, names_from, IsReadAt, IsInputFault, HasRead, IsMetadataStatus};
ghost use Rattle.cu_command.specs.Job.{status_of};
ghost use Rattle.cu_command.specs.Stored.{IsArrayLayout, HoldsLayout, FindsLayout, IsMetadataFault, IsFindFault};

use crate::Status;
use crate::job::JobFault;
use crate::stored::{find_layout, metadata_room, read_layout};
use cu_expr::{Expr, Form, InputInfo};
use cu_name::{IdText, key_of_name};
use cu_store::PutStore;
use std::alloc::Global;

/// Whether an input has this name.
fn has_name(inputs: &[InputInfo], name: &IdText) -> bool
    ensures { result ≡ list_any (λ i. bytes_eq name.now i.name) inputs.now }
{
    inputs.iter().any(|input| name.text() == input.name.text())
}

/// The fault that a command answers by this status, which is one of those for metadata that isn't read.
fn metadata_fault(status: Status) -> JobFault
    requires { IsMetadataStatus status }
    ensures { status_of result ≡ status }
{
    match status {
        Status::DepotFailed { key } => JobFault::DepotFailed { key },
        Status::NoArray { name } => JobFault::NoArray { name },
        Status::BadMeta { name, code } => JobFault::BadMeta { name, code },
        Status::NoMemory => JobFault::NoMemory,
        _ => unreachable!(),
    }
}

/// Reads the metadata of the array with this name, of either version: with at most `retries + 1` calls for each of its two keys.
/// `room` has the bytes of the longest text of metadata and one more.
pub fn read_input<D: PutStore>(
    alloc: Global,
    depot: &mut D,
    name: &IdText,
    retries: u32,
    room: &mut [u8],
) -> Result<InputInfo, JobFault>
    requires name { is_name name.now ≡ true }
    requires room { length room.old ≡ 1048577 }
    ensures room { length room.new ≡ 1048577 }
    ensures name { IfOk result (λ i. i.name ≡ name.now) }
    ensures layout { IfOk result (λ i. IsArrayLayout i.layout) }
    ensures found { IfOk result (λ i. FindsLayout (D.shown depot.old).held (D.shown depot.new).held name.now i.layout) }
    ensures step { Steps NoChange 0 (2 * (retries + 1)) (D.shown depot.old) (D.shown depot.new) }
    ensures once { OnceEach 2 (D.shown depot.old) (D.shown depot.new) }
    ensures cause { IfErr result (λ fault. IsFindFault (retries + 1) (D.shown depot.old) (D.shown depot.new) name.now (status_of fault)) }
{
    match find_layout(alloc, depot, &key_of_name(name), retries, room) {
        Ok(layout) => Ok(InputInfo {
            name: *name,
            layout,
        }),
        Err(status) => Err(metadata_fault(status)),
    }
}

/// Reads the metadata of the array with this name by its metadata of version 3 alone, as an array is stored here, with at most
/// `retries + 1` calls. `room` has the bytes of the longest text of metadata and one more.
pub fn read_written<D: PutStore>(
    alloc: Global,
    depot: &mut D,
    name: &IdText,
    retries: u32,
    room: &mut [u8],
) -> Result<InputInfo, JobFault>
    requires name { is_name name.now ≡ true }
    requires room { length room.old ≡ 1048577 }
    ensures room { length room.new ≡ 1048577 }
    ensures name { IfOk result (λ i. i.name ≡ name.now) }
    ensures layout { IfOk result (λ i. IsArrayLayout i.layout) }
    ensures found { IfOk result (λ i. HoldsLayout (D.shown depot.new).held (metadata_key_of name.now) i.layout) }
    ensures step { Steps NoChange 0 (retries + 1) (D.shown depot.old) (D.shown depot.new) }
    ensures once { OnceEach 1 (D.shown depot.old) (D.shown depot.new) }
    ensures cause { IfErr result (λ fault. IsMetadataFault (retries + 1) (D.shown depot.old).faults (D.shown depot.new).faults (D.shown depot.new).held name.now (status_of fault)) }
{
    match read_layout(alloc, depot, &key_of_name(name), retries, room) {
        Ok(layout) => Ok(InputInfo {
            name: *name,
            layout,
        }),
        Err(status) => Err(metadata_fault(status)),
    }
}

/// Reads the metadata of the array that a node uses, where the node is an input and no node before it uses the same array.
fn read_next<D: PutStore>(
    alloc: Global,
    depot: &mut D,
    form: &Form,
    retries: u32,
    room: &mut [u8],
    inputs: &mut Vec<InputInfo>,
) -> Result<(), JobFault>
    requires ranges { in_ranges form.now ≡ true }
    requires room { length room.old ≡ 1048577 }
    ensures room { length room.new ≡ 1048577 }
    ensures names { OnOk result ((rest : List (List ℕ)) → names_from (names_of inputs.new.items) rest ≡ names_from (names_of inputs.old.items) (name_before form.now rest)) }
    ensures read { OnOk result ((entry : Shown) → HasRead (2 * (retries + 1)) entry (D.shown depot.old) inputs.old.items → HasRead (2 * (retries + 1)) entry (D.shown depot.new) inputs.new.items) }
    ensures cause { (entry : Shown) (rest : List (List ℕ)) → HasRead (2 * (retries + 1)) entry (D.shown depot.old) inputs.old.items
        → IfErr result (IsInputFault (retries + 1) (names_from (names_of inputs.old.items) (name_before form.now rest)) entry (D.shown depot.new)) }
    ensures step { (entry : Shown) (rest : List (List ℕ)) → HasRead (2 * (retries + 1)) entry (D.shown depot.old) inputs.old.items
        → OnErr result (Steps NoChange 0 (2 * (retries + 1) * length (names_from (names_of inputs.old.items) (name_before form.now rest))) entry (D.shown depot.new)) }
    ensures once { (entry : Shown) (rest : List (List ℕ)) → HasRead (2 * (retries + 1)) entry (D.shown depot.old) inputs.old.items
        → OnErr result (OnceEach (2 * length (names_from (names_of inputs.old.items) (name_before form.now rest))) entry (D.shown depot.new)) }
{
    let Form::Input { name } = form else {
        return Ok(());
    };
    if has_name(inputs, name) {
        return Ok(());
    }
    let input = match read_input(alloc, depot, name, retries, room) {
        Ok(input) => input,
        Err(fault) => return Err(fault),
    };
    match inputs.push(input) {
        Ok(()) => Ok(()),
        Err(_) => Err(JobFault::NoMemory),
    }
}

/// Reads the metadata of the arrays that an expression uses: for the names of its input nodes in node order, each name's once, at
/// the first node that uses it.
pub fn read_inputs<D: PutStore>(
    alloc: Global,
    depot: &mut D,
    expr: &Expr,
    retries: u32,
) -> Result<Vec<InputInfo>, JobFault>
    ensures names { IfOk result (λ inputs. names_of inputs.items ≡ names_in expr.now) }
    ensures read { IfOk result (λ inputs. All (IsReadAt (D.shown depot.old)) inputs.items) }
    ensures step { Steps NoChange 0 (2 * (retries + 1) * length (names_in expr.now)) (D.shown depot.old) (D.shown depot.new) }
    ensures once { OnceEach (2 * length (names_in expr.now)) (D.shown depot.old) (D.shown depot.new) }
    ensures cause { IfErr result (IsInputFault (retries + 1) (names_in expr.now) (D.shown depot.old) (D.shown depot.new)) }
{
    let Ok(mut room) = metadata_room(alloc) else {
        return Err(JobFault::NoMemory);
    };
    let mut inputs = Vec::new(alloc);
    for node in expr.nodes() {
        match read_next(alloc, depot, &node.form, retries, &mut room, &mut inputs) {
            Ok(()) => {}
            Err(fault) => return Err(fault),
        }
    }
    Ok(inputs)
}
