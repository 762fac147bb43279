//! The steps of a made run: what each changes of `trades`.

ghost use Rattle.std.specs.Prelude.{◌≡◌, ◌<◌, ◌≤◌, ◌+◌, ◌*◌, ◌%◌, ◌==◌, [], ◌∷◌, map, true, IfOk, if◌then◌else◌};
ghost use Rattle.std.specs.List.{range_with_len};
ghost use Rattle.made_run.specs.Draws.{after};
ghost use Rattle.made_run.specs.Steps.{batch_after, block_of, draws_in, modified_in, removed_in, removes as removes_rows, shifts_in, survivors as survivors_of};

use crate::draws::{Draws, drawn_rows, put_drawn_row};
use std::alloc::{AllocError, Global};
use tick_model::feed::{Batch, Block};
use tick_model::items::Items;
use tick_model::row_list::RowList;
use tick_model::update::{KeyRange, ShiftRange};

/// Each step adds so many rows.
const ADDED: usize = 20;

/// Whether a step removes the first ten rows.
fn removes(step: u32) -> bool
    ensures { result ≡ removes_rows step }
{
    step % 5 == 0
}

/// How many of so many rows a step leaves.
fn survivors(step: u32, rows: u64) -> u64
    requires { removes_rows step ≡ true → 10 < rows }
    ensures { result ≡ survivors_of step rows }
{
    if removes(step) { rows - 10 } else { rows }
}

fn removed(alloc: Global, step: u32) -> Result<Items<KeyRange>, AllocError>
    ensures { IfOk result (λ ranges. ranges ≡ removed_in step) }
{
    let mut ranges = Items::new(alloc);
    if removes(step) {
        ranges.push(KeyRange { first: 0, last: 9 })?;
    }
    Ok(ranges)
}

fn shifts(alloc: Global, step: u32, rows: u64) -> Result<Items<ShiftRange>, AllocError>
    requires { removes_rows step ≡ true → 10 < rows }
    ensures { IfOk result (λ ranges. ranges ≡ shifts_in step rows) }
{
    let mut ranges = Items::new(alloc);
    if removes(step) {
        ranges.push(ShiftRange {
            begin: 10,
            end: rows - 1,
            delta: -10,
        })?;
    }
    Ok(ranges)
}

#[tactic(auto, unfolding(crate::specs::Draws::after))]
fn modified(alloc: Global, step: u32, rows: u64, draws: &mut Draws) -> Result<RowList, AllocError>
    requires { step % 2 ≡ 0 → 0 < rows }
    ensures rows { IfOk result (λ modified. modified ≡ modified_in step rows draws.old.state) }
    ensures state { IfOk result (λ modified. draws.new.state ≡ after (if step % 2 == 0 then 5 else 0) draws.old.state) }
{
    let mut modified = RowList::new(alloc);
    if step % 2 == 0 {
        let key = draws.below(rows);
        put_drawn_row(&mut modified, key, draws)?;
    }
    Ok(modified)
}

/// The block of a step, on so many rows.
fn block(alloc: Global, step: u32, rows: u64, draws: &mut Draws) -> Result<Block, AllocError>
    requires few { rows ≤ 200000 }
    requires removable { removes_rows step ≡ true → 10 < rows }
    requires modifiable { step % 2 ≡ 0 → 0 < survivors_of step rows }
    ensures block { IfOk result (λ block. block ≡ block_of step rows draws.old.state) }
    ensures state { IfOk result (λ block. draws.new.state ≡ after (draws_in step) draws.old.state) }
{
    let staying = survivors(step, rows);
    Ok(Block {
        table: 0,
        number: 1,
        removed: removed(alloc, step)?,
        shifts: shifts(alloc, step, rows)?,
        added: drawn_rows(alloc, staying, ADDED, draws)?,
        modified: modified(alloc, step, staying, draws)?,
    })
}

fn batch(alloc: Global, step: u32, rows: u64, draws: &mut Draws) -> Result<Batch, AllocError>
    requires few { rows ≤ 200000 }
    requires removable { removes_rows step ≡ true → 10 < rows }
    requires modifiable { step % 2 ≡ 0 → 0 < survivors_of step rows }
    ensures block { IfOk result (λ batch. batch.blocks ≡ block_of step rows draws.old.state ∷ []) }
    ensures state { IfOk result (λ batch. draws.new.state ≡ after (draws_in step) draws.old.state) }
{
    let mut blocks = Items::new(alloc);
    blocks.push(block(alloc, step, rows, draws)?)?;
    Ok(Batch { blocks })
}

/// The batches of so many steps.
pub fn batches(alloc: Global, steps: u32) -> Result<Items<Batch>, AllocError>
    requires { steps ≤ 10000 }
    ensures { IfOk result (λ batches. batches ≡ map batch_after (range_with_len 0 steps)) }
{
    let mut draws = Draws::new();
    let mut rows = 0u64;
    let mut batches = Vec::with_capacity(alloc, steps as usize)?;
    for before in 0..steps {
        let step = before + 1;
        batches.push(batch(alloc, step, rows, &mut draws)?)?;
        rows = survivors(step, rows) + ADDED as u64;
    }
    Ok(Items::of(batches))
}
