//! The numbers of the groups by their key cells.
ghost use Rattle.std.specs.Prelude.{◌≡◌, ◌+◌, List, ℤ, IfOk, length, Some, None, OnOk, OnErr};
ghost use Rattle.row_groups.specs.Rows.{number_below, single_cell};

use std::alloc::{AllocError, Global};
use std::collections::HashMap;

/// The list has at most this many places.
const PLACES: usize = 1 << 16;

/// The list has so many places before there are many groups.
const FEW: usize = 256;

/// The number of each group, by its key cells. Where a group has one small cell, no hash is taken.
#[derive(Drop)]
pub(crate) struct GroupNumbers {
    alloc: Global,
    /// By a cell that is alone and small the number of its group and one, and 0 where there is no group. Beside `FEW` it has at
    /// most twice as many places as there were groups at once.
    pub(crate) by_cell: Vec<u32>,
    /// The numbers of the groups whose cells have no place in the list.
    pub(crate) by_cells: HashMap<Vec<i64>, usize>,
}

/// What stands in the list for a number, or for none: memory runs out before there are more numbers.
fn above(number: Option<usize>) -> Result<u32, AllocError>
    ensures { IfOk result (λ above. number_below above ≡ number) }
{
    let Some(number) = number else {
        return Ok(0);
    };
    let above = number.checked_add(1).ok_or(AllocError)?;
    u32::try_from(above).ok().ok_or(AllocError)
}

/// The number for which this stands in the list.
fn below(above: u32) -> Option<usize>
    ensures { result ≡ number_below above }
{
    if above == 0 {
        None
    } else {
        Some(above as usize - 1)
    }
}

/// The cell that is alone and not below 0.
fn cell_alone(cells: &[i64]) -> Option<usize>
    ensures { result ≡ single_cell cells.now }
{
    match cells {
        [cell] => usize::try_from(*cell).ok(),
        _ => None,
    }
}

impl GroupNumbers {
    ghost use Rattle.row_groups.specs.Rows.{Leads, number_under, place_in};

    /// No numbers. It takes no memory.
    pub(crate) fn new(alloc: Global) -> GroupNumbers
        ensures { (cells : List ℤ) → number_under cells result ≡ None }
    {
        GroupNumbers {
            alloc,
            by_cell: Vec::new(alloc),
            by_cells: HashMap::new(alloc),
        }
    }

    /// The place of these cells in the list, if they have one.
    fn place_of(&self, cells: &[i64]) -> Option<usize>
        ensures { result ≡ place_in cells.now self.now.by_cell.items }
    {
        match cell_alone(cells) {
            Some(cell) if cell < self.by_cell.len() => Some(cell),
            _ => None,
        }
    }

    /// The number of the group with these cells.
    pub(crate) fn get(&self, cells: &[i64]) -> Option<usize>
        ensures { result ≡ number_under cells.now self.now }
    {
        match self.place_of(cells) {
            Some(place) => below(self.by_cell[place]),
            None => self.by_cells.get(cells).copied(),
        }
    }

    /// Gives the next cell a place in the list. After a refusal all is as it was.
    fn grow(&mut self) -> Result<(), AllocError>
        ensures longer { OnOk result (length self.new.by_cell.items ≡ length self.old.by_cell.items + 1) }
        ensures same { (other : List ℤ) → number_under other self.new ≡ number_under other self.old }
    {
        let cells = [self.by_cell.len() as i64];
        let number = self.by_cells.get(cells.as_slice()).copied();
        self.by_cell.push(above(number)?)?;
        if number.is_some() {
            self.by_cells.remove(cells.as_slice());
        }
        Ok(())
    }

    /// Gives small cells their places in the list up to these, if they are alone and there are groups enough.
    fn reach(&mut self, cells: &[i64], groups: usize) -> Result<(), AllocError>
        ensures { (other : List ℤ) → number_under other self.new ≡ number_under other self.old }
    {
        let Some(cell) = cell_alone(cells) else {
            return Ok(());
        };
        if cell >= PLACES || cell / 2 >= groups.saturating_add(FEW / 2) {
            return Ok(());
        }
        if self.by_cells.is_empty() && self.by_cell.len() <= cell {
            return self.by_cell.resize(cell + 1, 0);
        }
        while self.by_cell.len() <= cell {
            self.grow()?;
        }
        Ok(())
    }

    /// Lets these cells lead to a number. After a refusal they lead where they led.
    pub(crate) fn insert(&mut self, cells: &[i64], number: usize) -> Result<(), AllocError>
        ensures ok { OnOk result (Leads cells.now (Some number) self.old self.new) }
        ensures err { OnErr result ((other : List ℤ) → number_under other self.new ≡ number_under other self.old) }
    {
        self.reach(cells, number)?;
        if let Some(place) = self.place_of(cells) {
            self.by_cell[place] = above(Some(number))?;
            return Ok(());
        }
        let key = Vec::from_slice(self.alloc, cells)?;
        self.by_cells.insert(key, number)?;
        Ok(())
    }

    /// Lets these cells lead to no number.
    pub(crate) fn remove(&mut self, cells: &[i64])
        ensures { Leads cells.now None self.old self.new }
    {
        match self.place_of(cells) {
            Some(place) => self.by_cell[place] = 0,
            None => {
                self.by_cells.remove(cells);
            }
        }
    }
}
