//! Snapshots of published tables: many callers read whole tables of one completed step, while one writer goes on.
//!
//! The store has the words of each published table at a step in one of two banks, and the writer fills the banks in turn.
//! A caller looks at the clock, reads a table in the bank of the step that is completed, and looks again. Where the clock
//! is near, no word that it read can have been overwritten in between. An attempt takes no lock and no memory. A caller
//! whose attempts fail takes the turn, as the writer does from `begin` to `finish` or `abandon`, and its reading then
//! cannot fail.
//!
//! A caller is seen as its looks, the clock values that it has loaded in order. They never fall. The completed step of the
//! last one is what it has seen, and no later snapshot of it is older.
#![tactic(auto)]

mod answers;
mod board;
mod callers;
mod end;
mod laws;
mod layout;
mod notes;
mod plays;
mod rows;
mod start;
mod store;
mod turns;
mod writers;

pub use answers::{Attempt, Ended, Full, Taken};
pub use callers::Caller;
pub use laws::{
    banks_hold_steps, counts_stay_within_limits, readings_are_true_to_their_step,
    the_clock_is_past_every_look, the_turn_is_had_once,
};
pub use layout::Layout;
pub use notes::Note;
pub use store::Store;
pub use writers::{Phase, Writer};
