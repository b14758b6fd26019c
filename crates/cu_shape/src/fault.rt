use thiserror::Error;

/// Why a shape or a slice is refused.
#[derive(Debug, Clone, Copy, PartialEq, Eq, Error)]
pub enum ShapeFault {
    /// Two shapes do not broadcast: on this axis of the result their sizes differ and neither is 1.
    #[error("the sizes on axis {0} differ and neither is 1")]
    Mismatch(u32),
    /// The step of a slice is 0.
    #[error("the step of a slice is 0")]
    ZeroStep,
    /// A list of sizes is longer than 6.
    #[error("an array has at most 6 axes")]
    Rank,
}
