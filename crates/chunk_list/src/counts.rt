//! Numbers with the sums of their blocks, so that a sum of the first of them is found without adding up all of these.
ghost use Rattle.std.specs.Prelude.{◌≡◌, ℕ, ◌+◌, ◌-◌, ◌*◌, ◌^◌, ◌<◌, ◌≤◌, [], length, take, drop, insert, remove, slice_index, slice_set, sum, IfOk, OnErr, OnOk, vec_capacity, vec_len};
ghost use Rattle.chunk_list.specs.Blocks.{IsSum, AreBlocks};

use std::alloc::{AllocError, Global};
use std::marker::Model;

/// So many numbers are in one block.
const BLOCK_LEN: usize = 64;

/// A number's index, and how far a sum goes into this number.
#[derive(Clone, Copy)]
pub struct ChunkPosition {
    pub index: usize,
    pub offset: usize,
}

/// Numbers, with the sum of each block of them.
#[derive(Drop)]
pub struct Counts {
    each: Vec<usize>,
    blocks: Vec<usize>,
    total: usize,
}

impl Model for Counts {
    ghost use Rattle.std.specs.Prelude.{List, ℕ};
    ghost use Rattle.chunk_list.specs.Blocks.{AreCounts};

    ghost Value = { List ℕ };

    ghost view = { λ counts. counts.each.items };

    ghost invariant = { λ counts. AreCounts counts.each.items counts.blocks.items counts.total };
}

/// The sum of numbers.
fn sum_of(numbers: &[usize]) -> usize
    requires { sum numbers.now < 2 ^ 64 }
    ensures { result ≡ sum numbers.now }
{
    numbers.iter().sum()
}

/// The sum of a block.
fn sum_block(numbers: &[usize], block: usize) -> usize
    requires within { block * 64 ≤ length numbers.now }
    requires fits { sum numbers.now < 2 ^ 64 }
    ensures { IsSum numbers.now block result }
{
    let start = block * BLOCK_LEN;
    let end = numbers.len().min(start + BLOCK_LEN);
    sum_of(&numbers[start..end])
}

/// Sums the blocks from one on.
fn sum_blocks(blocks: &mut [usize], numbers: &[usize], from: usize)
    requires fits { sum numbers.now < 2 ^ 64 }
    requires within { from ≤ length blocks.old }
    requires needed { length blocks.old * 64 < length numbers.now + 64 }
    requires before { (block : ℕ) → block < from → IsSum numbers.now block (slice_index blocks.old block) }
    ensures { (block : ℕ) → block < length blocks.new → IsSum numbers.now block (slice_index blocks.new block) }
{
    for block in from..blocks.len() {
        blocks[block] = sum_block(numbers, block);
    }
}

/// Makes room in the blocks for one more number than these.
fn begin_block(blocks: &mut Vec<usize>, numbers: usize) -> Result<(), AllocError>
    requires cover { numbers ≤ length blocks.old.items * 64 }
    requires needed { length blocks.old.items * 64 < numbers + 64 }
    ensures cover { OnOk result (numbers + 1 ≤ length blocks.new.items * 64) }
    ensures needed { OnOk result (length blocks.new.items * 64 < numbers + 65) }
    ensures same { (block : ℕ) → slice_index blocks.new.items block ≡ slice_index blocks.old.items block }
    ensures err { OnErr result (blocks.new.items ≡ blocks.old.items) }
{
    if numbers % BLOCK_LEN == 0 {
        blocks.push(0)?;
    }
    Ok(())
}

/// Takes out the last block where these numbers, one less than before, do not need it.
fn end_block(blocks: &mut Vec<usize>, numbers: usize)
    requires cover { numbers + 1 ≤ length blocks.old.items * 64 }
    requires needed { length blocks.old.items * 64 < numbers + 65 }
    ensures cover { numbers ≤ length blocks.new.items * 64 }
    ensures needed { length blocks.new.items * 64 < numbers + 64 }
    ensures same { (block : ℕ) → block < length blocks.new.items → slice_index blocks.new.items block ≡ slice_index blocks.old.items block }
{
    if numbers % BLOCK_LEN == 0 {
        blocks.pop();
    }
}

/// Where a sum stands in numbers: the number into which it goes.
fn find_in(numbers: &[usize], position: usize) -> ChunkPosition
    requires { position < sum numbers.now }
    ensures index { result.index < length numbers.now }
    ensures offset { result.offset < slice_index numbers.now result.index }
    ensures position { sum (take result.index numbers.now) + result.offset ≡ position }
{
    let mut index = 0;
    let mut rest = position;
    while rest >= numbers[index] {
        rest -= numbers[index];
        index += 1;
    }
    ChunkPosition {
        index,
        offset: rest,
    }
}

/// Puts a number in where there is room for it.
pub(crate) fn put_within<T: Drop>(items: &mut Vec<T>, at: usize, item: T)
    requires within { at ≤ vec_len items.old }
    requires room { vec_len items.old < vec_capacity items.old }
    ensures items { items.new.items ≡ insert items.old.items at item }
{
    let _ = items.insert(at, item);
}

impl Counts {
    /// No numbers. They take no memory.
    pub fn new(alloc: Global) -> Counts
        ensures { result ≡ [] }
    {
        Counts {
            each: Vec::new(alloc),
            blocks: Vec::new(alloc),
            total: 0,
        }
    }

    /// The sum of all numbers.
    pub fn total(&self) -> usize
        ensures { result ≡ sum self.now }
    {
        self.total
    }

    /// The sum of the numbers before an index.
    pub fn before(&self, index: usize) -> usize
        requires { index ≤ length self.now }
        ensures { result ≡ sum (take index self.now) }
    {
        let block = index / BLOCK_LEN;
        sum_of(&self.blocks[..block]) + sum_of(&self.each[block * BLOCK_LEN..index])
    }

    /// Where a sum stands: the number into which it goes. That it is the last one is seen without a look at the others.
    pub fn find(&self, position: usize) -> ChunkPosition
        requires { position < sum self.now }
        ensures index { result.index < length self.now }
        ensures offset { result.offset < slice_index self.now result.index }
        ensures position { sum (take result.index self.now) + result.offset ≡ position }
    {
        let last = self.each.len() - 1;
        let before_last = self.total - self.each[last];
        if position >= before_last {
            return ChunkPosition {
                index: last,
                offset: position - before_last,
            };
        }
        let block = find_in(&self.blocks, position);
        let start = block.index * BLOCK_LEN;
        let place = find_in(&self.each[start..], block.offset);
        ChunkPosition {
            index: start + place.index,
            offset: place.offset,
        }
    }

    /// Makes a number larger.
    pub fn add(&mut self, index: usize, by: usize)
        requires within { index < length self.old }
        requires fits { sum self.old + by < 2 ^ 64 }
        ensures { self.new ≡ slice_set self.old index (slice_index self.old index + by) }
    {
        self.each[index] += by;
        self.blocks[index / BLOCK_LEN] += by;
        self.total += by;
    }

    /// Makes a number smaller.
    pub fn sub(&mut self, index: usize, by: usize)
        requires within { index < length self.old }
        requires enough { by ≤ slice_index self.old index }
        ensures { self.new ≡ slice_set self.old index (slice_index self.old index - by) }
    {
        self.each[index] -= by;
        self.blocks[index / BLOCK_LEN] -= by;
        self.total -= by;
    }

    /// Puts a number in at an index. After a refusal the numbers are as before.
    pub fn insert(&mut self, index: usize, number: usize) -> Result<(), AllocError>
        requires within { index ≤ length self.old }
        requires fits { sum self.old + number < 2 ^ 64 }
        ensures ok { OnOk result (self.new ≡ insert self.old index number) }
        ensures err { OnErr result (self.new ≡ self.old) }
    {
        self.each.reserve(1)?;
        begin_block(&mut self.blocks, self.each.len())?;
        put_within(&mut self.each, index, number);
        self.total += number;
        sum_blocks(&mut self.blocks, &self.each, index / BLOCK_LEN);
        Ok(())
    }

    /// Equal numbers.
    pub fn copy(&self) -> Result<Counts, AllocError>
        ensures { IfOk result (λ copy. copy ≡ self.now) }
    {
        let alloc = *self.each.allocator();
        Ok(Counts {
            each: Vec::from_slice(alloc, &self.each)?,
            blocks: Vec::from_slice(alloc, &self.blocks)?,
            total: self.total,
        })
    }

    /// Takes the number at an index out.
    pub fn remove(&mut self, index: usize)
        requires { index < length self.old }
        ensures { self.new ≡ remove self.old index }
    {
        let number = self.each.remove(index);
        self.total -= number;
        end_block(&mut self.blocks, self.each.len());
        sum_blocks(&mut self.blocks, &self.each, index / BLOCK_LEN);
    }

    /// Takes all numbers but the first ones out.
    pub fn truncate(&mut self, count: usize)
        ensures { self.new ≡ take count self.old }
    {
        let mut end = self.each.len();
        while end > count {
            end -= 1;
            self.remove(end);
        }
    }
}
