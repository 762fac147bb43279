//! How many keys come before each block of places, where the first places may be free.
ghost use Rattle.std.specs.Prelude.{◌≡◌, ℕ, ◌+◌, ◌-◌, ◌*◌, ◌^◌, ◌<◌, ◌≤◌, length, drop, vec_capacity};
ghost use Rattle.row_set.specs.Ranges.{AreRanges, keys_before};
ghost use Rattle.row_set.specs.Runs.{AreCounted, AreStarts, start_of};

use crate::ranges::{BLOCK, Range};
use crate::search::count_in;

/// The number of keys before a block.
pub(crate) fn keys_before_block(starts: &[u64], block: usize) -> u64
    requires { block ≤ length starts.now }
    ensures { result ≡ start_of starts.now block }
{
    if block == 0 { 0 } else { starts[block - 1] }
}

/// The number of keys in a block, where all its places are there.
fn keys_in_block(all: &[Range], front: usize, block: usize) -> u64
    requires free { front ≤ length all.now }
    requires within { 16 * block + 16 ≤ length all.now }
    requires ranges { AreRanges (drop front all.now) }
    ensures { keys_before (16 * block - front) (drop front all.now) + result ≡ keys_before (16 * block + 16 - front) (drop front all.now) }
{
    let begin = block * BLOCK;
    count_in(&all[begin.max(front)..(begin + BLOCK).max(front)])
}

/// Puts the starts of the blocks that are missing behind those that are there. There is room for them.
pub(crate) fn count_rest(starts: &mut Vec<u64>, all: &[Range], front: usize)
    requires free { front ≤ length all.now }
    requires starts { AreStarts front all.now starts.old.items }
    requires room { length all.now ≤ 16 * vec_capacity starts.old + 16 }
    requires ranges { AreRanges (drop front all.now) }
    ensures counted { AreCounted front all.now starts.new.items }
    ensures capacity { vec_capacity starts.old ≤ vec_capacity starts.new }
{
    let mut block = starts.len();
    let mut next = keys_before_block(starts, block);
    while (block + 1) * BLOCK < all.len() {
        next += keys_in_block(all, front, block);
        let _ = starts.push(next);
        block += 1;
    }
}

/// Counts the keys anew before each block that begins at the place `from` or after it. The starts of those before are right,
/// and there is room.
pub(crate) fn recount(starts: &mut Vec<u64>, all: &[Range], front: usize, from: usize)
    requires free { front ≤ length all.now }
    requires within { from ≤ length all.now }
    requires before { (block : ℕ) → block ≤ length starts.old.items → 16 * block < from → start_of starts.old.items block ≡ keys_before (16 * block - front) (drop front all.now) }
    requires room { length all.now ≤ 16 * vec_capacity starts.old + 16 }
    requires ranges { AreRanges (drop front all.now) }
    ensures counted { AreCounted front all.now starts.new.items }
    ensures capacity { vec_capacity starts.old ≤ vec_capacity starts.new }
{
    starts.truncate(from.saturating_sub(1) / BLOCK);
    count_rest(starts, all, front);
}

/// Counts the keys anew before each block after the `first` one up to the `last`. The start of the first is right.
fn recount_blocks(starts: &mut [u64], all: &[Range], front: usize, first: usize, last: usize)
    requires free { front ≤ length all.now }
    requires starts { 16 * length starts.old ≤ length all.now - 1 }
    requires order { first ≤ last }
    requires within { last ≤ length starts.old }
    requires begin { start_of starts.old first ≡ keys_before (16 * first - front) (drop front all.now) }
    requires ranges { AreRanges (drop front all.now) }
    ensures len { length starts.new ≡ length starts.old }
    ensures counted { (block : ℕ) → first < block → block ≤ last → start_of starts.new block ≡ keys_before (16 * block - front) (drop front all.now) }
    ensures before { (block : ℕ) → block ≤ first → start_of starts.new block ≡ start_of starts.old block }
    ensures after { (block : ℕ) → last < block → start_of starts.new block ≡ start_of starts.old block }
{
    let mut next = keys_before_block(starts, first);
    for block in first..last {
        next += keys_in_block(all, front, block);
        starts[block] = next;
    }
}

/// Before each block after the `last` one come `came` more keys than did, less `gone`.
fn move_starts(starts: &mut [u64], last: usize, came: u64, gone: u64)
    requires few { (block : ℕ) → last < block → block ≤ length starts.old → start_of starts.old block + came < 2 ^ 64 }
    requires some { (block : ℕ) → last < block → block ≤ length starts.old → gone ≤ start_of starts.old block + came }
    ensures len { length starts.new ≡ length starts.old }
    ensures before { (block : ℕ) → block ≤ last → start_of starts.new block ≡ start_of starts.old block }
    ensures after { (block : ℕ) → last < block → block ≤ length starts.old → start_of starts.new block + gone ≡ start_of starts.old block + came }
{
    if came == gone {
        return;
    }
    for block in last..starts.len() {
        starts[block] = starts[block] + came - gone;
    }
}

/// Counts the keys anew before each block that begins after the place `from` and up to the place `end`. Before those that
/// begin later come `came` more keys than did, less `gone`.
pub(crate) fn recount_between(
    starts: &mut [u64],
    all: &[Range],
    front: usize,
    from: usize,
    end: usize,
    came: u64,
    gone: u64,
)
    requires free { front ≤ length all.now }
    requires starts { 16 * length starts.old ≤ length all.now - 1 }
    requires ranges { AreRanges (drop front all.now) }
    requires order { from ≤ end }
    requires few { gone ≤ 2 ^ 62 + 1 }
    requires before { (block : ℕ) → block ≤ length starts.old → 16 * block ≤ from → start_of starts.old block ≡ keys_before (16 * block - front) (drop front all.now) }
    requires after { (block : ℕ) → block ≤ length starts.old → end ≤ 16 * block → start_of starts.old block + came ≡ keys_before (16 * block - front) (drop front all.now) + gone }
    ensures len { length starts.new ≡ length starts.old }
    ensures counts { AreStarts front all.now starts.new }
{
    let first = (from / BLOCK).min(starts.len());
    let last = (end / BLOCK).min(starts.len());
    recount_blocks(starts, all, front, first, last);
    move_starts(starts, last, came, gone);
}
