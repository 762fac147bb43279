//! Joins: each row of the left input, followed by cells of a right row with its key cells.
//!
//! A natural join (`JoinOp`) takes of the right rows with the same key cells the first or the last one; an as-of join (`AsOfOp`)
//! takes of those that are not later than the left row the last one of the latest (`pick`). A natural join is the as-of join in
//! which all rows have one time, and in which of the rows of the latest time the chosen one is taken. So all but the operators
//! themselves serves both.
//!
//! A step costs the rows that it touches. Both inputs are kept by their key cells and in order of time (`keyed`), so that the
//! match of a left row is the first or the last row of its group, or is found by a search (`latest`).
//!
//! What a step may change. Take a left row that stays as it is, with its key cells and its time `t`. Let `p` be the right row
//! that it took before the step and `q` the one that it takes now. Where the step touches neither `p` nor `q`, they are one row,
//! since a shift keeps the order of the rows that stay. Where it touches one of them, the later of their two times is that of a
//! touched row, before or now: call it `s`. No right row of the group, before or now, has a time after `s` and up to `t`. So
//! the left row takes what is taken at `s`, both before and now.
//!
//! So it is enough to look at the times of touched right rows, each with its key cells: those of removed rows, those of added
//! rows, and both of modified ones. For each such place the right row that was taken at it is noted (`notes`) before the
//! indexes are brought on (`lookup`). A note speaks for the left rows of its group from its time until the next right row's or
//! the next note's (`turned`). Where there was no left row before the step, each one is new, and nothing is noted.
//!
//! The reads. A note costs the taken cells of two right rows, the one before and the one of now, however many left rows it
//! speaks for; and there are no more notes than the right input counts: removed rows, added rows and twice the modified ones.
//! Only where these cells differ are the note's left rows compared. Each of them that the left input does not count differs in
//! the result, which counts it twice, and it is read once before and once now. So the reads stay within a few rows' widths for
//! each row that is counted, and a left row for which a note speaks but whose cells stay is not read at all.
//!
//! A left row with two matches, where there is to be one, is in the group of a note or is new in its own, since there was none
//! before (`duplicates`). Where each right row has been alone in its group, there is none.
#![tactic(auto)]

mod as_of_op;
mod duplicates;
mod in_plan;
mod join_op;
mod keyed;
mod latest;
mod lookup;
mod matches;
mod notes;
mod pick;
mod rows;
mod turned;

pub use as_of_op::AsOfOp;
pub use join_op::{JoinFault, JoinOp};
