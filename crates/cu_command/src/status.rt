//! What a command answers, and the line that says it.
ghost use Rattle.std.specs.Prelude.{◌≡◌, ◌+◌, ◌≤◌, ◌++◌, length, decimal};
ghost use Rattle.std.specs.Fmt.{signed_decimal};
ghost use Rattle.cu_command.specs.Status.{exit_status, line_of};

use arrayvec::ArrayString;
use cu_name::IdText;
use cu_store::Key;

/// What a command answers. Each answer has a number, which is the exit status of the program.
#[derive(Clone, Copy)]
pub enum Status {
    /// 0: the command was carried out.
    Done,
    /// 2: the words are wrong. Code 1 is for the command, code 2 for its options and code 3 for a name.
    BadWords {
        code: u8,
    },
    /// 3: the text isn't an expression, for the reason with this code (1 to 7) at the node with this number.
    BadExpr {
        code: u8,
        node: u32,
    },
    /// 4: the node with this number has no type, for the reason with this code (1 to 9).
    BadType {
        code: u8,
        node: u32,
    },
    /// 5: this node needs `need` bytes, and `allowed` are allowed.
    OverMemory {
        node: u32,
        need: u64,
        allowed: u64,
    },
    /// 6: there are too many. Which 1 is for tasks, 2 for cells of tasks and 3 for elements that are compared.
    OverLimit {
        which: u8,
        count: u64,
    },
    /// 7: the metadata of this array isn't accepted, for the reason with this code (1 to 10, in the order of `MetaFault`, and 21 to 30
    /// in that of `V2Fault`).
    BadMeta {
        name: IdText,
        code: u8,
    },
    /// 8: no array of this name is stored: its metadata is absent.
    NoArray {
        name: IdText,
    },
    /// 9: this key is held already.
    Exists {
        key: Key,
    },
    /// 10: the tries of this task of this operation are used up.
    TaskFailed {
        op: u32,
        task: u32,
    },
    /// 11: a read of the source failed.
    ReadFault,
    /// 12: a write to the sink failed.
    WriteFault,
    /// 13: this chunk holds `got` bytes in place of `want`.
    BadChunk {
        key: Key,
        got: u64,
        want: u64,
    },
    /// 14: the record of another plan is held, which differs from this plan's first at this byte.
    OtherPlan {
        place: u64,
    },
    /// 15: no record of this plan is held.
    NoPlan,
    /// 16: all tries of a call for this key failed.
    DepotFailed {
        key: Key,
    },
    /// 17: the element that is stored at this place isn't the one that the expression has there.
    Unequal {
        place: u64,
        stored: i128,
        plain: i128,
    },
    /// 18: the text isn't one that gives an array, for the reason with this code (1 to 8).
    BadLoad {
        code: u8,
    },
    /// 20: the plan has no such tasks of this operation, which has so many; 0 where there is no such operation.
    NoTasks {
        op: u64,
        tasks: u64,
    },
    /// 21: a chunk that this task of this operation reads, and an operation makes, isn't there.
    NotReady {
        op: u32,
        task: u32,
    },
    /// 70: memory was wanted and not had.
    NoMemory,
}

/// A line of text, of at most 256 bytes.
pub type LineText = ArrayString<256>;

/// The number of an answer, which is the exit status of the program.
pub fn number(status: &Status) -> u8
    ensures { result ≡ exit_status status.now }
{
    match status {
        Status::Done => 0,
        Status::BadWords { .. } => 2,
        Status::BadExpr { .. } => 3,
        Status::BadType { .. } => 4,
        Status::OverMemory { .. } => 5,
        Status::OverLimit { .. } => 6,
        Status::BadMeta { .. } => 7,
        Status::NoArray { .. } => 8,
        Status::Exists { .. } => 9,
        Status::TaskFailed { .. } => 10,
        Status::ReadFault => 11,
        Status::WriteFault => 12,
        Status::BadChunk { .. } => 13,
        Status::OtherPlan { .. } => 14,
        Status::NoPlan => 15,
        Status::DepotFailed { .. } => 16,
        Status::Unequal { .. } => 17,
        Status::BadLoad { .. } => 18,
        Status::NoTasks { .. } => 20,
        Status::NotReady { .. } => 21,
        Status::NoMemory => 70,
    }
}

/// The line of an answer, with no line feed. It is empty where the command was carried out.
pub fn status_line(status: &Status) -> LineText
    ensures { result.bytes ≡ line_of status.now }
{
    let mut line = LineText::new();
    match status {
        Status::Done => {}
        Status::BadWords { code } => push_field(&mut line, "error 2 code=", *code as u64),
        Status::BadExpr { code, node } => {
            push_field(&mut line, "error 3 code=", *code as u64);
            push_field(&mut line, " node=", *node as u64);
        }
        Status::BadType { code, node } => {
            push_field(&mut line, "error 4 code=", *code as u64);
            push_field(&mut line, " node=", *node as u64);
        }
        Status::OverMemory {
            node,
            need,
            allowed,
        } => {
            push_field(&mut line, "error 5 node=", *node as u64);
            push_field(&mut line, " need=", *need);
            push_field(&mut line, " allowed=", *allowed);
        }
        Status::OverLimit { which, count } => {
            push_field(&mut line, "error 6 which=", *which as u64);
            push_field(&mut line, " count=", *count);
        }
        Status::BadMeta { name, code } => {
            push_name(&mut line, "error 7 name=", name);
            push_field(&mut line, " code=", *code as u64);
        }
        Status::NoArray { name } => push_name(&mut line, "error 8 name=", name),
        Status::Exists { key } => push_key(&mut line, "error 9 key=", key),
        Status::TaskFailed { op, task } => {
            push_field(&mut line, "error 10 op=", *op as u64);
            push_field(&mut line, " task=", *task as u64);
        }
        Status::ReadFault => line.push_str("error 11"),
        Status::WriteFault => line.push_str("error 12"),
        Status::BadChunk { key, got, want } => {
            push_key(&mut line, "error 13 key=", key);
            push_field(&mut line, " got=", *got);
            push_field(&mut line, " want=", *want);
        }
        Status::OtherPlan { place } => push_field(&mut line, "error 14 place=", *place),
        Status::NoPlan => line.push_str("error 15"),
        Status::DepotFailed { key } => push_key(&mut line, "error 16 key=", key),
        Status::Unequal {
            place,
            stored,
            plain,
        } => {
            push_field(&mut line, "error 17 place=", *place);
            push_element(&mut line, " stored=", *stored);
            push_element(&mut line, " plain=", *plain);
        }
        Status::BadLoad { code } => push_field(&mut line, "error 18 code=", *code as u64),
        Status::NoTasks { op, tasks } => {
            push_field(&mut line, "error 20 op=", *op);
            push_field(&mut line, " tasks=", *tasks);
        }
        Status::NotReady { op, task } => {
            push_field(&mut line, "error 21 op=", *op as u64);
            push_field(&mut line, " task=", *task as u64);
        }
        Status::NoMemory => line.push_str("error 70"),
    }
    line
}

/// Appends a label and a key.
fn push_key(line: &mut LineText, label: &str, key: &Key)
    requires { length line.old.bytes + length label.now + 96 ≤ 256 }
    ensures bytes { line.new.bytes ≡ line.old.bytes ++ label.now ++ key.now }
    ensures len { length line.new.bytes ≤ length line.old.bytes + length label.now + 96 }
{
    line.push_str(label);
    line.push_str(key.text());
}

/// Appends a label and a name.
fn push_name(line: &mut LineText, label: &str, name: &IdText)
    requires { length line.old.bytes + length label.now + 32 ≤ 256 }
    ensures bytes { line.new.bytes ≡ line.old.bytes ++ label.now ++ name.now }
    ensures len { length line.new.bytes ≤ length line.old.bytes + length label.now + 32 }
{
    line.push_str(label);
    line.push_str(name.text());
}

/// Appends a label and a number.
pub fn push_field(line: &mut LineText, label: &str, number: u64)
    requires { length line.old.bytes + length label.now + 20 ≤ 256 }
    ensures bytes { line.new.bytes ≡ line.old.bytes ++ label.now ++ decimal number }
    ensures len { length line.new.bytes ≤ length line.old.bytes + length label.now + 20 }
{
    line.push_str(label);
    push_number(line, number);
}

/// Appends a label and an element.
fn push_element(line: &mut LineText, label: &str, element: i128)
    requires { length line.old.bytes + length label.now + 40 ≤ 256 }
    ensures bytes { line.new.bytes ≡ line.old.bytes ++ label.now ++ signed_decimal element }
    ensures len { length line.new.bytes ≤ length line.old.bytes + length label.now + 40 }
{
    line.push_str(label);
    let mut digits = itoa::Buffer::new();
    line.push_str(digits.format(element));
}

/// Appends a number, digit by digit.
fn push_number(line: &mut LineText, number: u64)
    requires { length line.old.bytes + length (decimal number) ≤ 256 }
    ensures { line.new.bytes ≡ line.old.bytes ++ decimal number }
{
    if number >= 10 {
        push_number(line, number / 10);
    }
    line.push((b'0' + (number % 10) as u8) as char);
}
