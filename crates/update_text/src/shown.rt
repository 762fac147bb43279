//! What is shown of a table: its name and its columns.

use tick_model::items::Items;
use tick_model::name::Name;
use tick_model::plan::ColumnSpec;

/// What is printed of a table beside its rows: its name and its columns.
#[derive(Drop)]
pub struct Shown {
    pub name: Name,
    pub columns: Items<ColumnSpec>,
}
