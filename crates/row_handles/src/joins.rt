//! Blocks of few rows that become one.
ghost use Rattle.std.specs.Prelude.{◌≡◌, ℕ, false, map, Some};
ghost use Rattle.std.specs.List.{AllByRecursion};
ghost use Rattle.slab.specs.Slab.{ContainsKey, get};
ghost use Rattle.row_handles.specs.Entries.{AreDistinct};
ghost use Rattle.row_handles.specs.Blocks.{IsIndex, place_in, rows};
ghost use Rattle.row_handles.specs.Moves.{handle_in, has_handle};

use crate::block::BlockRow;
use crate::index::{HandleIndex, Location};
use slab::Slab;
use std::alloc::AllocError;

/// Two blocks become one where they have no more rows than these together.
const JOINED_LEN: usize = 64;

/// Puts the rows into the block with this number.
fn settle(places: &mut Slab<Location>, rows: &[BlockRow], number: u32)
    requires there { AllByRecursion (λ row. ContainsKey places.old row.handle) rows.now }
    requires distinct { AreDistinct (map handle_in rows.now) }
    ensures settled { AllByRecursion (λ row. get places.new row.handle ≡ Some (place_in number row.depth)) rows.now }
    ensures others { (handle : ℕ) → has_handle handle rows.now ≡ false → get places.new handle ≡ get places.old handle }
{
    for row in rows {
        places[row.handle as usize] = Location {
            block: number,
            depth: row.depth,
        };
    }
}

impl HandleIndex {
    /// Makes one block of the block at an index and the next, where they have few rows and their keys are not too far apart.
    fn join(&mut self, index: usize) -> Result<(), AllocError>
        requires { IsIndex self.old }
        ensures same { rows self.new.blocks.items ≡ rows self.old.blocks.items }
        ensures sound { IsIndex self.new }
    {
        let last = self.blocks.len().saturating_sub(1);
        if index >= last {
            return Ok(());
        }
        let left = &self.blocks[index];
        let right = &self.blocks[index + 1];
        if left.rows.len() + right.rows.len() > JOINED_LEN || left.ceiling < right.first {
            return Ok(());
        }
        let Some(moved) = right.rows_under(left.ceiling)? else {
            return Ok(());
        };
        let left = &mut self.blocks[index];
        left.rows.extend_from_slice(&moved)?;
        settle(&mut self.places, &moved, left.number);
        let gone = self.blocks.remove(index + 1);
        let _ = self.ceilings.try_remove(gone.number as usize);
        Ok(())
    }

    /// Joins neighbours among the blocks from `from` on up to the one at `to`. Where memory runs out they stay apart.
    pub(crate) fn join_between(&mut self, from: usize, to: usize)
        requires { IsIndex self.old }
        ensures same { rows self.new.blocks.items ≡ rows self.old.blocks.items }
        ensures sound { IsIndex self.new }
    {
        let mut index = to;
        while index > from {
            index -= 1;
            let _ = self.join(index);
        }
    }
}
