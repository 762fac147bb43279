//! Which rows and columns of a table are asked for.

use tick_model::items::Items;

/// The rows at the positions from `first` on, `count` of them or as many as there are, with the chosen columns alone.
#[derive(Drop)]
pub struct Slice {
    pub first: u64,
    pub count: u32,
    /// The numbers of the columns, rising.
    pub columns: Items<u32>,
}
