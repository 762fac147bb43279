//! Where kept rows move when the keys of a table change.
//!
//! A `ShiftData` is seen as its list of ranges, and each call is a function of such lists and of the rising lists of
//! keys that sets are: `specs/ShiftLists.antt` has what is known of every list, `specs/Moves.antt` the words of the
//! calls, `specs/Pushes.antt` and `specs/Faults.antt` those of the refusals. No call passes over keys one by one: the
//! cost is that of the ranges of the shift, and of the ranges of a set that they touch.
#![tactic(auto)]

mod ahead;
mod apply;
mod canonical;
mod in_place;
mod order;
mod pairs;
mod parts;
mod search;
mod shifts;
mod stretches;
mod unapply;

pub use shifts::{Broken, ShiftData, ShiftFault};
