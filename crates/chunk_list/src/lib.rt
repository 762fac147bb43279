//! Long lists in chunks: an item comes or leaves without a move of all items behind it, and in a list that counts the items of each chunk it is found by its position without a look at every chunk.
#![tactic(auto)]

mod change;
mod chunks;
mod counts;
mod list;

pub use change::ItemChange;
pub use chunks::Chunks;
pub use counts::{ChunkPosition, Counts};
pub use list::ChunkList;
