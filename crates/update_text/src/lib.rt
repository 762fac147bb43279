//! The printed records of changes and of snapshots.
//!
//! A record is a line of fields, joined by commas. A field that holds a comma, a double quote, a carriage return or a line feed stands in
//! double quotes, with each double quote in it doubled. The definitions of all texts stand in `tick_model`, in `specs/Texts.antt`.
//!
//! Each call makes its text whole and then writes it as one piece, so that after an error a prefix of that text was written.
#![tactic(auto)]

mod changes;
mod fault;
mod fields;
mod laws;
mod printed;
mod read_back;
mod read_changes;
mod read_fields;
mod read_rows;
mod record;
mod record_back;
mod rows;
mod shown;
mod snapshot_back;
mod snapshots;
mod told;
mod updates;

pub use fault::WriteFault;
pub use laws::update_text_is_one_to_one;
pub use printed::{Printed, PrintedFault, Snapshot};
pub use read_back::read_update;
pub use record::write_fields;
pub use record_back::{read_first_fields, read_number, read_record};
pub use shown::Shown;
pub use snapshot_back::read_snapshot;
pub use snapshots::write_snapshot;
pub use updates::write_update;
