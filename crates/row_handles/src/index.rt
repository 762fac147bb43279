//! The rows in both orders: by key, in blocks, and by handle.
ghost use Rattle.std.specs.Prelude.{◌≡◌, ◌+◌, ◌^◌, ◌<◌, ◌≤◌, [], length, take, drop, IsSome, Some, None, IfOk, OnErr};
ghost use Rattle.std.specs.List.{AllByRecursion};
ghost use Rattle.row_handles.specs.Entries.{Ascend, handle_under, key_with, with_row};
ghost use Rattle.row_handles.specs.Blocks.{AtBlock, IsBlock, IsIndex, rows};
ghost use Rattle.row_handles.specs.Moves.{IsBeside};

use crate::block::{BlockRow, RowBlock};
use crate::search::{inside, likely_place};
use slab::Slab;
use std::alloc::{AllocError, Global};

/// The depth of the first row of a block: there is room for others on both sides of it.
const MIDDLE: u32 = 1 << 31;

/// Where the row with a handle stands: the number of its block and its depth there.
#[derive(Clone, Copy)]
pub(crate) struct Location {
    pub(crate) block: u32,
    pub(crate) depth: u32,
}

/// The rows of a table.
#[derive(Drop)]
pub(crate) struct HandleIndex {
    /// The blocks, by rising keys.
    pub(crate) blocks: Vec<RowBlock>,
    /// The ceilings of the blocks, by their numbers.
    pub(crate) ceilings: Slab<u64>,
    /// The places of the rows, by their handles.
    pub(crate) places: Slab<Location>,
}

/// How many of the blocks begin at the key or before it. Where the last one does, no other is looked at; else they are looked for
/// where they are likely to end, and farther from there by growing steps.
pub(crate) fn begun_by(blocks: &[RowBlock], key: u64) -> usize
    requires sound { AllByRecursion IsBlock blocks.now }
    requires ascend { Ascend (rows blocks.now) }
    ensures within { result ≤ length blocks.now }
    ensures begun { AllByRecursion (λ block. block.first ≤ key) (take result blocks.now) }
    ensures others { AllByRecursion (λ block. key < block.first) (drop result blocks.now) }
{
    let (Some(first), Some(last)) = (blocks.first(), blocks.last()) else {
        return 0;
    };
    if last.first <= key {
        return blocks.len();
    }
    let mut guess = likely_place(first.first, last.first, key, blocks.len());
    let mut step: usize = 1;
    let mut low = 0;
    let mut high = blocks.len();
    while low < high {
        let middle = inside(guess, low, high);
        let far = step;
        step = step.saturating_mul(2);
        if blocks[middle].first <= key {
            low = middle + 1;
            guess = middle.saturating_add(far);
        } else {
            high = middle;
            guess = middle.saturating_sub(far);
        }
    }
    low
}

/// As many of the blocks as `begun_by` counts. Where that is `near` of them, no block but two is looked at.
fn begun_near(blocks: &[RowBlock], key: u64, near: usize) -> usize
    requires sound { AllByRecursion IsBlock blocks.now }
    requires ascend { Ascend (rows blocks.now) }
    ensures within { result ≤ length blocks.now }
    ensures begun { AllByRecursion (λ block. block.first ≤ key) (take result blocks.now) }
    ensures others { AllByRecursion (λ block. key < block.first) (drop result blocks.now) }
{
    match (blocks.get(near.saturating_sub(1)), blocks.get(near)) {
        (Some(last), Some(next)) if last.first <= key && key < next.first => near,
        _ => begun_by(blocks, key),
    }
}

/// A number of a row or a block in 32 bits: memory runs out before there are more of them.
pub fn short(number: usize) -> Result<u32, AllocError>
    ensures { IfOk result (λ short. short ≡ number) }
{
    u32::try_from(number).ok().ok_or(AllocError)
}

impl HandleIndex {
    /// An index of no rows.
    pub(crate) fn new(alloc: Global) -> HandleIndex
        ensures blocks { result.blocks.items ≡ [] }
    {
        HandleIndex {
            blocks: Vec::new(alloc),
            ceilings: Slab::new(alloc),
            places: Slab::new(alloc),
        }
    }

    /// The handle of the row under a key.
    pub(crate) fn handle_at(&self, key: u64) -> Option<usize>
        requires { IsIndex self.now }
        ensures { result ≡ handle_under key (rows self.now.blocks.items) }
    {
        self.handle_begun(key, begun_by(&self.blocks, key))
    }

    /// The handle of the row under a key. So many blocks as `near` begin at the last key or before it, and then at this one.
    pub(crate) fn handle_near(&self, key: u64, near: &mut usize) -> Option<usize>
        requires { IsIndex self.now }
        ensures { result ≡ handle_under key (rows self.now.blocks.items) }
    {
        *near = begun_near(&self.blocks, key, *near);
        self.handle_begun(key, *near)
    }

    /// The handle of the row under a key, where so many of the blocks begin at it or before it.
    fn handle_begun(&self, key: u64, next: usize) -> Option<usize>
        requires sound { IsIndex self.now }
        requires within { next ≤ length self.now.blocks.items }
        requires begun { AllByRecursion (λ block. block.first ≤ key) (take next self.now.blocks.items) }
        requires others { AllByRecursion (λ block. key < block.first) (drop next self.now.blocks.items) }
        ensures { result ≡ handle_under key (rows self.now.blocks.items) }
    {
        if next == 0 {
            return None;
        }
        let block = &self.blocks[next - 1];
        block.handle_at(key)
    }

    /// The key of the row with a handle.
    pub(crate) fn key_at(&self, handle: usize) -> u64
        requires sound { IsIndex self.now }
        requires there { IsSome (key_with handle (rows self.now.blocks.items)) }
        ensures { key_with handle (rows self.now.blocks.items) ≡ Some result }
    {
        let place = self.places[handle];
        self.ceilings[place.block as usize].saturating_sub(place.depth as u64)
    }

    /// Puts a row into a block at an index.
    fn insert_row(&mut self, index: usize, key: u64, depth: u32) -> Result<usize, AllocError>
        requires sound { IsIndex self.old }
        requires within { index < length self.old.blocks.items }
        requires depth { AtBlock self.old.blocks.items index (λ block. depth + key ≡ block.ceiling) }
        requires below { AllByRecursion (λ entry. entry.key < key) (rows (take index self.old.blocks.items)) }
        requires above { AllByRecursion (λ block. key < block.first) (drop (index + 1) self.old.blocks.items) }
        requires small { key < 2 ^ 62 }
        requires absent { handle_under key (rows self.old.blocks.items) ≡ None }
        ensures ok { IfOk result (λ handle. rows self.new.blocks.items ≡ with_row key handle (rows self.old.blocks.items)) }
        ensures fresh { IfOk result (λ handle. key_with handle (rows self.old.blocks.items) ≡ None) }
        ensures err { OnErr result (rows self.new.blocks.items ≡ rows self.old.blocks.items) }
        ensures sound { IsIndex self.new }
    {
        self.places.reserve(1)?;
        let handle = short(self.places.vacant_key())?;
        let block = &mut self.blocks[index];
        let place = block.rows_below(key);
        block.rows.insert(place, BlockRow { depth, handle })?;
        block.first = block.first.min(key);
        let number = block.number;
        Ok(
            self.places.insert_reserved(Location {
                block: number,
                depth,
            }),
        )
    }

    /// Puts a row into a block of its own.
    fn insert_block(&mut self, key: u64) -> Result<usize, AllocError>
        requires sound { IsIndex self.old }
        requires beside { AllByRecursion (IsBeside key) self.old.blocks.items }
        requires small { key < 2 ^ 62 }
        requires absent { handle_under key (rows self.old.blocks.items) ≡ None }
        ensures ok { IfOk result (λ handle. rows self.new.blocks.items ≡ with_row key handle (rows self.old.blocks.items)) }
        ensures fresh { IfOk result (λ handle. key_with handle (rows self.old.blocks.items) ≡ None) }
        ensures err { OnErr result (rows self.new.blocks.items ≡ rows self.old.blocks.items) }
        ensures sound { IsIndex self.new }
    {
        let next = begun_by(&self.blocks, key);
        self.ceilings.reserve(1)?;
        self.places.reserve(1)?;
        let number = short(self.ceilings.vacant_key())?;
        let handle = short(self.places.vacant_key())?;
        let ceiling = key + MIDDLE as u64;
        let mut rows = Vec::new(*self.blocks.allocator());
        rows.push(BlockRow {
            depth: MIDDLE,
            handle,
        })?;
        let block = RowBlock {
            number,
            first: key,
            ceiling,
            rows,
        };
        self.blocks.insert(next, block)?;
        let _ = self.ceilings.insert_reserved(ceiling);
        Ok(
            self.places.insert_reserved(Location {
                block: number,
                depth: MIDDLE,
            }),
        )
    }

    /// Puts a row under a key that has none, and gives it a handle.
    pub(crate) fn add(&mut self, key: u64) -> Result<usize, AllocError>
        requires sound { IsIndex self.old }
        requires small { key < 2 ^ 62 }
        requires absent { handle_under key (rows self.old.blocks.items) ≡ None }
        ensures ok { IfOk result (λ handle. rows self.new.blocks.items ≡ with_row key handle (rows self.old.blocks.items)) }
        ensures fresh { IfOk result (λ handle. key_with handle (rows self.old.blocks.items) ≡ None) }
        ensures err { OnErr result (rows self.new.blocks.items ≡ rows self.old.blocks.items) }
        ensures sound { IsIndex self.new }
    {
        let index = begun_by(&self.blocks, key).saturating_sub(1);
        if index < self.blocks.len() {
            let block = &self.blocks[index];
            if let Some(depth) = block.depth_for(key) {
                return self.insert_row(index, key, depth);
            }
        }
        self.cut(key)?;
        self.insert_block(key)
    }
}
