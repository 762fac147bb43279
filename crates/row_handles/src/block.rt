//! A block of rows that follow one another.
ghost use Rattle.std.specs.Prelude.{◌≡◌, ◌+◌, ◌-◌, ◌^◌, ◌<◌, ◌≤◌, length, take, drop, Some, IfSome, IfOk};
ghost use Rattle.std.specs.List.{AllByRecursion};
ghost use Rattle.row_handles.specs.Entries.{Ascend, handle_under};

use std::alloc::AllocError;

/// At most this many rows are in one block.
const BLOCK_LEN: usize = 128;

/// A row, by how far its key is below the ceiling of its block.
#[derive(Clone, Copy)]
pub(crate) struct BlockRow {
    pub(crate) depth: u32,
    pub(crate) handle: u32,
}

impl BlockRow {
    /// The key of the row in a block with this ceiling.
    pub(crate) fn key(&self, ceiling: u64) -> u64
        ensures { result ≡ ceiling - self.now.depth }
    {
        ceiling.saturating_sub(self.depth as u64)
    }

    /// The handle as it is shown.
    fn handle(&self) -> usize
        ensures { result ≡ self.now.handle }
    {
        self.handle as usize
    }
}

/// Rows of a block: those from one place up to another.
#[derive(Clone, Copy)]
pub(crate) struct Span {
    pub(crate) from: usize,
    pub(crate) to: usize,
}

/// Rows that follow one another by rising key. There is one at least.
#[derive(Drop)]
pub(crate) struct RowBlock {
    /// The number by which the places of its rows name the block.
    pub(crate) number: u32,
    /// The key of the first row.
    pub(crate) first: u64,
    /// The key of a row is the ceiling less the row's depth. It may be no key of a row, and no key at all.
    pub(crate) ceiling: u64,
    pub(crate) rows: Vec<BlockRow>,
}

impl RowBlock {
    ghost use Rattle.row_handles.specs.Blocks.{AreRowsUnder, rows_of};

    /// How many of its rows have smaller keys. Where the last one has, no other is looked at.
    pub(crate) fn rows_below(&self, key: u64) -> usize
        requires { Ascend (rows_of self.now) }
        ensures within { result ≤ length self.now.rows.items }
        ensures below { AllByRecursion (λ row. self.now.ceiling - row.depth < key) (take result self.now.rows.items) }
        ensures others { AllByRecursion (λ row. key ≤ self.now.ceiling - row.depth) (drop result self.now.rows.items) }
    {
        match self.rows.last() {
            Some(last) if last.key(self.ceiling) < key => self.rows.len(),
            _ => self.rows.partition_point(|row| row.key(self.ceiling) < key),
        }
    }

    /// Its rows under the keys from first to last.
    pub(crate) fn rows_between(&self, first: u64, last: u64) -> Span
        requires ascend { Ascend (rows_of self.now) }
        requires order { first ≤ last }
        requires small { last < 2 ^ 62 }
        ensures order { result.from ≤ result.to }
        ensures within { result.to ≤ length self.now.rows.items }
        ensures below { AllByRecursion (λ row. self.now.ceiling - row.depth < first) (take result.from self.now.rows.items) }
        ensures begun { AllByRecursion (λ row. first ≤ self.now.ceiling - row.depth) (drop result.from self.now.rows.items) }
        ensures ended { AllByRecursion (λ row. self.now.ceiling - row.depth < last + 1) (take result.to self.now.rows.items) }
        ensures above { AllByRecursion (λ row. last + 1 ≤ self.now.ceiling - row.depth) (drop result.to self.now.rows.items) }
    {
        Span {
            from: self.rows_below(first),
            to: self.rows_below(last + 1),
        }
    }

    /// The handle of the row under a key. Rows mostly stand under keys that follow one another: it is looked for there first.
    pub(crate) fn handle_at(&self, key: u64) -> Option<usize>
        requires { Ascend (rows_of self.now) }
        ensures { result ≡ handle_under key (rows_of self.now) }
    {
        let likely = key.wrapping_sub(self.first) as usize;
        match self.handle_there(likely, key) {
            Some(handle) => Some(handle),
            None => self.handle_there(self.rows_below(key), key),
        }
    }

    /// The handle of the row at a place, if there is one and it has this key.
    fn handle_there(&self, place: usize, key: u64) -> Option<usize>
        requires { Ascend (rows_of self.now) }
        ensures found { IfSome result (λ handle. handle_under key (rows_of self.now) ≡ Some handle) }
        ensures all { AllByRecursion (λ row. self.now.ceiling - row.depth < key) (take place self.now.rows.items) →
            AllByRecursion (λ row. key ≤ self.now.ceiling - row.depth) (drop place self.now.rows.items) → result ≡ handle_under key (rows_of self.now) }
    {
        let row = self.rows.get(place).copied()?;
        if row.key(self.ceiling) == key {
            Some(row.handle())
        } else {
            None
        }
    }

    /// The depth of a row with this key, where the block has room for it.
    pub(crate) fn depth_for(&self, key: u64) -> Option<u32>
        ensures { IfSome result (λ depth. depth + key ≡ self.now.ceiling) }
    {
        if self.rows.len() >= BLOCK_LEN {
            return None;
        }
        depth_below(self.ceiling, key)
    }

    /// Its rows as they are below another ceiling, or None where a key is above it or too far below.
    pub(crate) fn rows_under(&self, ceiling: u64) -> Result<Option<Vec<BlockRow>>, AllocError>
        ensures { IfOk result (λ found. IfSome found (λ rows. AreRowsUnder ceiling rows.items (rows_of self.now))) }
    {
        let mut rows = Vec::with_capacity(*self.rows.allocator(), self.rows.len())?;
        for row in &self.rows {
            let Some(depth) = depth_below(ceiling, row.key(self.ceiling)) else {
                return Ok(None);
            };
            rows.push(BlockRow {
                depth,
                handle: row.handle,
            })?;
        }
        Ok(Some(rows))
    }
}

/// The depth of a row with this key below a ceiling, if there is one.
fn depth_below(ceiling: u64, key: u64) -> Option<u32>
    ensures { IfSome result (λ depth. depth + key ≡ ceiling) }
{
    let depth = ceiling.checked_sub(key)?;
    u32::try_from(depth).ok()
}
