/// A round of merges: on one axis neighbouring partial results are merged in groups, the last of which may be shorter.
#[derive(Clone, Copy, Default, PartialEq, Eq, Debug)]
pub struct Round {
    /// The axis on which partial results are merged.
    pub axis: u32,
    /// The number of partial results on the axis before the round.
    pub from: u64,
    /// Their number after it: one for each group.
    pub to: u64,
}
