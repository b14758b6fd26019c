ghost use Rattle.std.specs.Prelude.{◌≡◌, ◌≤◌, ◌<◌, IfSome};
ghost use Rattle.cu_node.specs.Axes.{axis_of, marked_of, all_marked};

/// The axis that a number names in an array of this rank: from -rank to rank - 1, a negative number counting from the end
/// (Python array API). None for any other number.
pub fn axis_of(number: i64, rank: u32) -> Option<u32>
    ensures axis { result ≡ axis_of number rank }
    ensures inside { IfSome result (λ axis. axis < rank) }
{
    let counted = if number < 0 {
        number as i128 + rank as i128
    } else {
        number as i128
    };
    if counted >= 0 && counted < rank as i128 {
        Some(counted as u32)
    } else {
        None
    }
}

/// The axes that a list names, as a mark for each axis that an array may have. None where an entry names no axis of an array
/// of this rank, or one that an entry before it names.
pub fn named_axes(numbers: &[i64], rank: u32) -> Option<[bool; 6]>
    requires { rank ≤ 6 }
    ensures { result ≡ marked_of rank numbers.now }
{
    let mut marks = [false; 6];
    for number in numbers {
        match axis_of(*number, rank) {
            Some(axis) => {
                if marks[axis as usize] {
                    return None;
                }
                marks[axis as usize] = true;
            }
            None => return None,
        }
    }
    Some(marks)
}

/// The marks of all axes.
pub fn all_axes() -> [bool; 6]
    ensures { result ≡ all_marked }
{
    [true; 6]
}
