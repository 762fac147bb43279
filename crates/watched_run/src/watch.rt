//! What is watched.

ghost use Rattle.std.specs.List.{range_with_len};
ghost use Rattle.std.specs.Prelude.{◌≡◌, IfOk};
ghost use Rattle.watched_run.specs.Messages.{slice_with};

use std::alloc::{AllocError, Global};
use tick_model::items::Items;
use viewport::Slice;

/// Which rows of a node are watched, and how often a message tells them.
#[derive(Clone, Copy, Debug, PartialEq, Eq)]
pub struct Watch {
    /// The number of the node.
    pub node: u32,
    /// The first position.
    pub first: u32,
    /// How many positions.
    pub count: u32,
    /// How many steps lie between two messages.
    pub every: u32,
}

/// The numbers of so many columns.
fn columns_of(alloc: Global, width: u32) -> Result<Items<u32>, AllocError>
    ensures { IfOk result (λ columns. columns ≡ range_with_len 0 width) }
{
    let mut columns = Items::new(alloc);
    for column in 0..width {
        columns.push(column)?;
    }
    Ok(columns)
}

/// The slice that is watched: all columns of the node, of which there are so many.
pub(crate) fn slice_of(alloc: Global, watch: &Watch, width: u32) -> Result<Slice, AllocError>
    ensures { IfOk result (λ slice. slice ≡ slice_with watch.now width) }
{
    Ok(Slice {
        first: u64::from(watch.first),
        count: watch.count,
        columns: columns_of(alloc, width)?,
    })
}
