//! The words that callers and the writer share, and what a seat among them knows.
//!
//! Word 0 is the clock and word 1 the turn, 0 where it is free and 1 where it is held. Two banks follow: bank `step % 2`
//! has the published tables of a step, one after the other. Words past the rows in use hold any value.

use crate::plays::BankRule;
use atomic_table::{Seat, Table};
use std::alloc::Global;
use std::collections::LinkedList;
use std::snapshot::Snapshot;
use tick_model::feed::Run;

/// What a seat does between two steps. No value of it is made.
pub enum Doing {
    Rest,
    /// It has looked at the clock, and will read a table.
    Looked {
        first: u64,
    },
    /// It reads the table of this number, after this look, and has read these words.
    Reading {
        number: u64,
        first: u64,
        words: LinkedList<u64>,
    },
    /// It is the writer's. `step` is completed, and so many words of the next one are stored.
    Writing {
        step: u64,
        stored: u64,
    },
}

/// What a seat knows. No value of it is made.
pub struct StoreView {
    /// The run of the store, or none where the seat was joined to another.
    pub run: Option<Run>,
    /// The clock values that it has looked at, in order.
    pub looks: LinkedList<u64>,
    /// The greatest clock value that it has looked at, has set, or was told by another seat.
    pub floor: u64,
    /// Whether it has the turn.
    pub turn: bool,
    /// How often it has asked for the turn while another had it.
    pub refusals: u64,
    pub doing: Doing,
}

/// The words, of the run that is their key.
pub(crate) type Board = Table<(), StoreView, Snapshot<Run>, BankRule, Global>;

/// A seat at the words, which has no bytes.
pub(crate) type BoardSeat = Seat<(), StoreView>;
