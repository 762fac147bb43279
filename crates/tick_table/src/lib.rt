//! Tables that tell how they changed in the last step.
//!
//! A `TickTable` has the rows of a table as they are and as they were before the step, and the update between the two.
//! A contract sees it as two plain tables and an update (`specs/Ticking.antt`). A change is applied in place: what a step
//! costs is the rows that it touches. The rows are found by their positions (`placed`), which a shift does not change, and lie in
//! slots of one vector of cells (`slots`). The rows that a step touches are read by rising keys without a search (`reading`).
#![tactic(auto)]

mod change;
mod placed;
mod places;
mod reading;
mod slots;
mod stepping;
mod steps;
mod table;
mod version;

pub use change::Change;
pub use reading::RowReader;
pub use steps::Steps;
pub use table::{Shared, TickTable};
pub use version::Version;
