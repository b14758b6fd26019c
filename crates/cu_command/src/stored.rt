//! The layout of a stored array, by its metadata.
ghost use Rattle.std.specs.Prelude.{◌≡◌, ◌+◌, ◌*◌, ◌≤◌, IfErr, IfOk, length, take};
ghost use Rattle.cu_meta.specs.Fault.{fault_view};
ghost use Rattle.cu_store.specs.Steps.{NoChange, Steps, OnceEach};
ghost use Rattle.cu_zarr.specs.Key.{metadata_key_of, zarray_key_of};
ghost use Rattle.cu_name.specs.Name.{IsArrayName};
ghost use Rattle.cu_command.specs.Stored.{IsArrayLayout, IsMetadata, IsZarrayOf, HoldsFront, HoldsLayout, HoldsZarray, FindsLayout, IsTextFault, IsTextRefusal, IsRefusedText, IsRefusedZarray, IsMetadataFault, IsZarrayFault, IsFindFault, code_of};

use crate::Status;
use cu_codec::{metadata_key, zarray_key};
use cu_meta::{MetaFault, MetaRefused, read_meta};
use cu_name::name_of;
use cu_op::Layout;
use cu_store::{DepotFault, Got, Key, NoMemory, PutStore, get_tries};
use cu_v2::{V2Refused, fault_code, read_zarray};
use std::alloc::Global;

/// The most bytes of an array's metadata, of either version. One more is read, to tell a longer text.
const METADATA_BYTES: usize = 1_048_576;

/// The code of a reason for which metadata isn't accepted.
fn code_of(fault: &MetaFault) -> u8
    ensures { result ≡ code_of (fault_view fault.now) }
{
    match fault {
        MetaFault::Json => 1,
        MetaFault::Format => 2,
        MetaFault::Field(_) => 3,
        MetaFault::BadDtype => 4,
        MetaFault::BadGrid => 5,
        MetaFault::KeyEncoding => 6,
        MetaFault::Fill => 7,
        MetaFault::Codec => 8,
        MetaFault::Unknown => 9,
        MetaFault::TooLong => 10,
        MetaFault::Other => 11,
    }
}

/// A buffer with room for the longest text of metadata that is read.
pub fn metadata_room(alloc: Global) -> Result<Vec<u8>, NoMemory>
    ensures { IfOk result (λ buf. length buf.items ≡ 1048577) }
{
    zeros(alloc, METADATA_BYTES + 1)
}

/// A buffer of so many bytes.
pub fn zeros(alloc: Global, len: usize) -> Result<Vec<u8>, NoMemory>
    ensures { IfOk result (λ buf. length buf.items ≡ len) }
{
    match vec![in alloc; 0u8; len] {
        Ok(buf) => Ok(buf),
        Err(_) => Err(NoMemory),
    }
}

/// Reads the text of metadata of the array with this name that this key holds, and says how many bytes of it `buf` has: all, or as many as it has room for.
fn read_text<D: PutStore>(
    depot: &mut D,
    name: &Key,
    key: &Key,
    retries: u32,
    buf: &mut [u8],
) -> Result<usize, Status>
    requires name { IsArrayName name.now }
    requires room { length buf.old ≡ 1048577 }
    ensures room { length buf.new ≡ 1048577 }
    ensures within { IfOk result (λ len. len ≤ 1048577) }
    ensures found { IfOk result (λ len. HoldsFront (D.shown depot.new).held key.now (take len buf.new)) }
    ensures step { Steps NoChange 1 (retries + 1) (D.shown depot.old) (D.shown depot.new) }
    ensures once { OnceEach 1 (D.shown depot.old) (D.shown depot.new) }
    ensures cause { IfErr result (IsTextFault (retries + 1) (D.shown depot.old) (D.shown depot.new) name.now key.now) }
{
    match get_tries(depot, key, buf, retries) {
        Ok(Got::Held(len)) if len <= METADATA_BYTES as u64 => Ok(len as usize),
        Ok(Got::Held(_)) => Ok(METADATA_BYTES + 1),
        Ok(Got::Absent) => Err(Status::NoArray {
            name: name_of(name),
        }),
        Err(DepotFault::Failed) => Err(Status::DepotFailed { key: *key }),
        Err(DepotFault::NoMemory) => Err(Status::NoMemory),
    }
}

/// The layout that a text of metadata says, of the array with this name.
fn layout_in(alloc: Global, name: &Key, text: &[u8]) -> Result<Layout, Status>
    requires { IsArrayName name.now }
    ensures ok { IfOk result (λ l. IsMetadata l text.now) }
    ensures refused { IfErr result (IsTextRefusal name.now (IsRefusedText text.now)) }
{
    match read_meta(alloc, text) {
        Ok(layout) => {
            let _shape = layout.grid.shape();
            Ok(layout)
        }
        Err(MetaRefused::Fault(fault)) => Err(Status::BadMeta {
            name: name_of(name),
            code: code_of(&fault),
        }),
        Err(MetaRefused::NoMemory) => Err(Status::NoMemory),
    }
}

/// The layout that a text of metadata of version 2 says, of the array with this name.
fn zarray_in(alloc: Global, name: &Key, text: &[u8]) -> Result<Layout, Status>
    requires { IsArrayName name.now }
    ensures ok { IfOk result (λ l. IsZarrayOf l text.now) }
    ensures refused { IfErr result (IsTextRefusal name.now (IsRefusedZarray text.now)) }
{
    match read_zarray(alloc, text) {
        Ok(layout) => {
            let _shape = layout.grid.shape();
            Ok(layout)
        }
        Err(V2Refused::Fault(fault)) => Err(Status::BadMeta {
            name: name_of(name),
            code: fault_code(&fault),
        }),
        Err(V2Refused::NoMemory) => Err(Status::NoMemory),
    }
}

/// The layout of the array with this name, by its metadata of version 3. `buf` has room for the longest text.
pub fn read_layout<D: PutStore>(
    alloc: Global,
    depot: &mut D,
    name: &Key,
    retries: u32,
    buf: &mut [u8],
) -> Result<Layout, Status>
    requires name { IsArrayName name.now }
    requires room { length buf.old ≡ 1048577 }
    ensures room { length buf.new ≡ 1048577 }
    ensures input { IfOk result IsArrayLayout }
    ensures found { IfOk result (HoldsLayout (D.shown depot.new).held (metadata_key_of name.now)) }
    ensures step { Steps NoChange 1 (retries + 1) (D.shown depot.old) (D.shown depot.new) }
    ensures once { OnceEach 1 (D.shown depot.old) (D.shown depot.new) }
    ensures cause { IfErr result (IsMetadataFault (retries + 1) (D.shown depot.old).faults (D.shown depot.new).faults (D.shown depot.new).held name.now) }
{
    match read_text(depot, name, &metadata_key(name), retries, buf) {
        Ok(len) => layout_in(alloc, name, &buf[..len]),
        Err(status) => Err(status),
    }
}

/// The layout of the array with this name, by its metadata of version 2.
fn read_layout_of_v2<D: PutStore>(
    alloc: Global,
    depot: &mut D,
    name: &Key,
    retries: u32,
    buf: &mut [u8],
) -> Result<Layout, Status>
    requires name { IsArrayName name.now }
    requires room { length buf.old ≡ 1048577 }
    ensures room { length buf.new ≡ 1048577 }
    ensures input { IfOk result IsArrayLayout }
    ensures found { IfOk result (HoldsZarray (D.shown depot.new).held (zarray_key_of name.now)) }
    ensures step { Steps NoChange 1 (retries + 1) (D.shown depot.old) (D.shown depot.new) }
    ensures once { OnceEach 1 (D.shown depot.old) (D.shown depot.new) }
    ensures cause { IfErr result (IsZarrayFault (retries + 1) (D.shown depot.old) (D.shown depot.new) name.now) }
{
    match read_text(depot, name, &zarray_key(name), retries, buf) {
        Ok(len) => zarray_in(alloc, name, &buf[..len]),
        Err(status) => Err(status),
    }
}

/// The layout of the array with this name, of either version: by its metadata of version 3, and where that is absent, of version 2.
/// `buf` has room for the longest text.
pub fn find_layout<D: PutStore>(
    alloc: Global,
    depot: &mut D,
    name: &Key,
    retries: u32,
    buf: &mut [u8],
) -> Result<Layout, Status>
    requires name { IsArrayName name.now }
    requires room { length buf.old ≡ 1048577 }
    ensures room { length buf.new ≡ 1048577 }
    ensures input { IfOk result IsArrayLayout }
    ensures found { IfOk result (FindsLayout (D.shown depot.old).held (D.shown depot.new).held name.now) }
    ensures step { Steps NoChange 1 (2 * (retries + 1)) (D.shown depot.old) (D.shown depot.new) }
    ensures once { OnceEach 2 (D.shown depot.old) (D.shown depot.new) }
    ensures cause { IfErr result (IsFindFault (retries + 1) (D.shown depot.old) (D.shown depot.new) name.now) }
{
    match read_layout(alloc, depot, name, retries, buf) {
        Err(Status::NoArray { .. }) => read_layout_of_v2(alloc, depot, name, retries, buf),
        answer => answer,
    }
}
