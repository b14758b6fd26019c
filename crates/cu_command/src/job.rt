//! Jobs: the expression of a text, over stored arrays whose metadata is read, with its types.
ghost use Rattle.std.specs.Prelude.{◌≡◌, ◌+◌, ◌*◌, Some, Ok, IfErr, IfOk, length, string_bytes, All};
ghost use Rattle.cu_read.specs.Read.{compact_of, expression_of};
ghost use Rattle.cu_expr.specs.Typing.{typed};
ghost use Rattle.cu_store.specs.Steps.{NoChange, Steps, OnceEach};
ghost use Rattle.cu_command.specs.Stored.{IsArrayLayout};
ghost use Rattle.cu_command.specs.Job.{names_said, IsUnread, IsUntyped, IsJob, IsJobFault, IsTypable, StoodStill};

use crate::Status;
use crate::inputs::read_inputs;
use cu_expr::{Expr, InputInfo, TypeRefused, Types, type_of};
use cu_name::IdText;
use cu_read::{ExprText, ReadRefused, read_expr_text};
use cu_store::{Key, PutStore};
use std::alloc::Global;

/// An expression over stored arrays, with its types.
#[derive(Drop)]
pub struct Job {
    pub expr: Expr,
    /// The expression's text, written compactly.
    pub compact: String,
    /// The arrays that the input nodes use, one for each name, in the order of the first node that uses it.
    pub inputs: Vec<InputInfo>,
    /// The types, shapes and chunk shapes of the nodes.
    pub types: Types,
}

/// Why a text gives no job.
#[derive(Clone, Copy)]
pub enum JobFault {
    /// The text isn't an expression, for the reason with this code (1 to 7) at the node with this number.
    Expression { code: u8, node: u32 },
    /// All tries of a call for this key failed, which is that of an input's metadata.
    DepotFailed { key: Key },
    /// The metadata of the array with this name is absent.
    NoArray { name: IdText },
    /// The metadata of the array with this name isn't accepted, for the reason with this code (1 to 10, and 21 to 30 in version 2).
    BadMeta { name: IdText, code: u8 },
    /// The node with this number has no type, for the reason with this code (1 to 9).
    Typing { code: u8, node: u32 },
    /// Memory was wanted and not had.
    NoMemory,
}

impl From<JobFault> for Status {
    ghost use Rattle.std.specs.Prelude.{◌≡◌};
    ghost use Rattle.cu_command.specs.Job.{status_of};

    ghost from_gives = { λ fault status. status ≡ status_of fault };

    fn from(fault: JobFault) -> Status {
        match fault {
            JobFault::Expression { code, node } => Status::BadExpr { code, node },
            JobFault::DepotFailed { key } => Status::DepotFailed { key },
            JobFault::NoArray { name } => Status::NoArray { name },
            JobFault::BadMeta { name, code } => Status::BadMeta { name, code },
            JobFault::Typing { code, node } => Status::BadType { code, node },
            JobFault::NoMemory => Status::NoMemory,
        }
    }
}

/// The expression of a text, and the text written compactly.
pub fn said_in(alloc: Global, text: &[u8]) -> Result<ExprText, JobFault>
    ensures said { IfOk result (λ said. expression_of text.now ≡ Ok said.expr) }
    ensures compact { IfOk result (λ said. compact_of text.now ≡ Some (string_bytes said.compact)) }
    ensures fault { IfErr result (IsUnread text.now) }
{
    match read_expr_text(alloc, text) {
        Ok(said) => Ok(said),
        Err(ReadRefused::Fault(fault)) => Err(JobFault::Expression {
            code: fault.code,
            node: fault.node,
        }),
        Err(ReadRefused::NoMemory) => Err(JobFault::NoMemory),
    }
}

/// The types of an expression over inputs that were read, or its first fault.
pub fn types_in(alloc: Global, expr: &Expr, inputs: &[InputInfo]) -> Result<Types, JobFault>
    requires { All (λ i. IsArrayLayout i.layout) inputs.now }
    ensures types { IfOk result (λ types. typed inputs.now expr.now ≡ Ok types) }
    ensures fault { IfErr result (IsUntyped inputs.now expr.now) }
{
    match type_of(alloc, expr, inputs) {
        Ok(types) => Ok(types),
        Err(TypeRefused::Fault(fault)) => Err(JobFault::Typing {
            code: fault.code,
            node: fault.node,
        }),
        Err(TypeRefused::NoMemory) => Err(JobFault::NoMemory),
    }
}

/// Reads the expression of a text, and then the metadata of the arrays that it uses, and types it. The faults come in this order:
/// the text's; then, for the names of the input nodes in node order, each name at the first node that uses it, that all tries of
/// a call for its metadata failed, that the metadata of both versions is absent, or that it isn't accepted; and then the types'.
/// Each name's metadata is read once, that of version 2 where that of version 3 is absent.
pub fn read_job<D: PutStore>(
    alloc: Global,
    depot: &mut D,
    text: &[u8],
    retries: u32,
) -> Result<Job, JobFault>
    ensures job { IfOk result (IsJob (D.shown depot.old) text.now) }
    ensures step { Steps NoChange 0 (2 * (retries + 1) * length (names_said text.now)) (D.shown depot.old) (D.shown depot.new) }
    ensures once { OnceEach (2 * length (names_said text.now)) (D.shown depot.old) (D.shown depot.new) }
    ensures cause { IfErr result (IsJobFault (retries + 1) text.now (D.shown depot.old) (D.shown depot.new)) }
    ensures complete { IsTypable (D.shown depot.old) text.now → StoodStill (D.shown depot.old).faults (D.shown depot.new).faults → IfErr result (λ fault. fault ≡ JobFault.NoMemory) }
{
    let said = match said_in(alloc, text) {
        Ok(said) => said,
        Err(fault) => return Err(fault),
    };
    let inputs = match read_inputs(alloc, depot, &said.expr, retries) {
        Ok(inputs) => inputs,
        Err(fault) => return Err(fault),
    };
    let types = match types_in(alloc, &said.expr, &inputs) {
        Ok(types) => types,
        Err(fault) => return Err(fault),
    };
    let ExprText { expr, compact } = said;
    Ok(Job {
        expr,
        compact,
        inputs,
        types,
    })
}
