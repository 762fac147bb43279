//! How the change of an operator is made of the rows that a step touches.
//!
//! An operator names the rows that its step touches, as small sets of keys (`Touched`), and says where rows are read
//! (`Rows`). `change_of_touched` reads these rows alone, and gives exactly the change between the tables before and now.
//! One that has the rows at hand tells them itself (`ChangedRows`).
//! `mapped` does so for operators that have a row for each row of their input, under its key.
#![tactic(auto)]

mod made;
mod mapping;
mod rows;
mod told;
mod touched;

pub use made::change_of_touched;
pub use mapping::mapped;
pub use rows::Rows;
pub use told::ChangedRows;
pub use touched::Touched;
