//! The leave to begin a count of reads, and the leave to copy a table.
//!
//! Each read of a table's cell is counted by the counter that the reader is given, and what a step may read is bounded by it. A copy reads all
//! cells and is not counted. So only who lists this crate can make a counter or a copy: no operator does.
#![tactic(auto)]

/// The leave to begin one count. It takes no bytes.
#[derive(Drop)]
pub struct NewCount {
    seal: (),
}

/// Gives the leave.
pub fn new_count() -> NewCount {
    NewCount { seal: () }
}

/// The leave to copy one table whole. It takes no bytes.
#[derive(Drop)]
pub struct NewCopy {
    seal: (),
}

/// Gives the leave.
pub fn new_copy() -> NewCopy {
    NewCopy { seal: () }
}
