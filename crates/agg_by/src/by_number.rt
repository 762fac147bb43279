//! What is kept for each group by its number.

ghost use Rattle.std.specs.Prelude.{◌≡◌, ℤ, [], OnOk, length, option_copied, slice_get, ◌<◌};
ghost use Rattle.agg_by.specs.ByNumber.{IsHeld, changed_at, changed_by};

use std::alloc::{AllocError, Global};
use std::marker::Model;
use tick_model::formula::is_null;

/// What is kept of those cells of a group that hold something.
pub(crate) trait OfCells: Drop {
    /// What is kept of no cells.
    ghost none: { Self };

    /// What is kept of one cell more.
    ghost with_cell: { ℤ → Self → Self };

    /// What is kept of one cell less, which is among them.
    ghost without_cell: { ℤ → Self → Self };

    /// Whether a cell is among those that it is kept of, as far as that has to be known to take it out.
    ghost has_cell: { ℤ → Self → Type 0 };

    /// What is kept of no cells. It takes no memory.
    fn new(alloc: Global) -> Self
        ensures { result ≡ none };

    /// Puts a cell in.
    fn put(&mut self, value: i64) -> Result<(), AllocError>
        ensures { OnOk result (self.new ≡ with_cell value self.old) };

    /// Takes a cell out.
    fn take(&mut self, value: i64) -> Result<(), AllocError>
        requires { has_cell value self.old }
        ensures { OnOk result (self.new ≡ without_cell value self.old) };
}

/// What is kept for each group by its number. A number that is past the end stands for no cells.
#[derive(Drop)]
pub struct ByNumber<T> {
    entries: Vec<T>,
}

impl<T> Model for ByNumber<T> {
    ghost use Rattle.std.specs.Prelude.{List};

    ghost Value = { List T };

    ghost view = { λ by_number. by_number.entries.items };
}

impl<T: OfCells> ByNumber<T> {
    /// No groups. It takes no memory.
    pub(crate) fn new(alloc: Global) -> ByNumber<T>
        ensures { result ≡ [] }
    {
        ByNumber {
            entries: Vec::new(alloc),
        }
    }

    /// What is kept for the group with a number.
    pub(crate) fn get(&self, number: usize) -> Option<&T>
        ensures { option_copied result ≡ slice_get self.now number }
    {
        self.entries.get(number)
    }

    /// Makes room for the group with a number.
    fn make_room(&mut self, number: usize) -> Result<(), AllocError>
        ensures room { OnOk result (number < length self.new) }
        ensures same { OnOk result ((change : T → T) → changed_at T.none number change self.new ≡ changed_at T.none number change self.old) }
    {
        while self.entries.len() <= number {
            let none = T::new(*self.entries.allocator());
            self.entries.push(none)?;
        }
        Ok(())
    }

    /// Puts a cell into the group with a number, if it holds something.
    pub(crate) fn put(&mut self, number: usize, value: i64) -> Result<(), AllocError>
        ensures { OnOk result (self.new ≡ changed_by T.none T.with_cell number value self.old) }
    {
        if is_null(value) {
            return Ok(());
        }
        self.make_room(number)?;
        self.entries[number].put(value)
    }

    /// Takes a cell out of the group with a number, if it holds something.
    pub(crate) fn take(&mut self, number: usize, value: i64) -> Result<(), AllocError>
        requires { IsHeld T.none T.has_cell number value self.old }
        ensures { OnOk result (self.new ≡ changed_by T.none T.without_cell number value self.old) }
    {
        if is_null(value) {
            return Ok(());
        }
        self.make_room(number)?;
        self.entries[number].take(value)
    }
}
