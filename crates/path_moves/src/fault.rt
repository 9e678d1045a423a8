//! Why a page cannot go where it is asked to go.

/// Why a page cannot go where it is asked to go.
#[derive(Clone, Copy, Debug, PartialEq, Eq)]
pub enum PathFault {
    /// The page would go below itself.
    IntoItself,
    /// A step above 1,679,615 would be needed.
    StepsFull,
    /// A page would have more than 63 steps.
    TooDeep,
    /// Memory ran out.
    Memory,
}
