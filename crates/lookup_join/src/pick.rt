//! Which of the right rows with its key cells a left row takes.

ghost use Rattle.std.specs.Prelude.{◌≡◌};
ghost use Rattle.lookup_join.specs.Keyed.{time_of};
ghost use Rattle.lookup_join.specs.Matched.{pick_of};

use crate::keyed::Side;
use tick_model::cells::cell;
use tick_model::plan::{Choice, OnPair};

/// Which right row is taken of several with the same key cells.
#[derive(Clone, Copy)]
pub enum Pick {
    /// The first one.
    First,
    /// The last one.
    Last,
    /// Of those that are not later than the left row the latest, and of several of that time the last. The columns have the times.
    Latest(OnPair),
}

impl Pick {
    /// What a choice takes. Where there is to be one match, it is the first.
    pub(crate) fn of(choice: Choice) -> Pick
        ensures { result ≡ pick_of choice }
    {
        match choice {
            Choice::Error | Choice::First => Pick::First,
            Choice::Last => Pick::Last,
        }
    }

    /// The time of a row. Where none is asked for, all rows have the same.
    pub(crate) fn time(self, side: Side, row: &[i64]) -> i64
        ensures { result ≡ time_of side self row.now }
    {
        match self {
            Pick::First | Pick::Last => 0,
            Pick::Latest(at) => cell(row, side.column(at)),
        }
    }
}
