//! The two versions that a ticking table has of its rows.

/// Which of a table's rows are meant.
#[derive(Clone, Copy, PartialEq, Eq, Debug)]
pub enum Version {
    /// Those from before the step.
    Before,
    /// Those of now.
    Now,
}
