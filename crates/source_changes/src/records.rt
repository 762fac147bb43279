//! The record of the feed at which a block breaks a rule.

ghost use Rattle.std.specs.Prelude.{◌≡◌, ◌+◌, ◌^◌, ◌<◌, ◌==◌, if◌then◌else◌, length, nat_lt};
ghost use Rattle.std.specs.List.{position_or_len};
ghost use Rattle.tick_model.specs.Shifts.{holds};
ghost use Rattle.tick_model.specs.Sources.{added_record, is_within, modified_record, record_of as record_said, removed_record, shift_record};

use tick_model::feed::Block;
use tick_model::row_list::RowList;
use tick_model::update::{FeedRule, KeyRange, ShiftRange, UpdateFault};

/// The place of the first range with a key, or how many there are.
fn range_place(ranges: &[KeyRange], key: u64) -> usize
    ensures { result ≡ position_or_len (λ range. is_within range key) ranges.now }
{
    ranges
        .iter()
        .position(|range| range.first <= key && key <= range.last)
        .unwrap_or(ranges.len())
}

/// The place of the first range of a shift with a key, or how many there are.
fn shift_place(ranges: &[ShiftRange], key: u64) -> usize
    ensures { result ≡ position_or_len (λ range. holds range key) ranges.now }
{
    ranges
        .iter()
        .position(|range| range.begin <= key && key <= range.end)
        .unwrap_or(ranges.len())
}

/// The place of the first row under a key, or how many there are.
fn row_place(rows: &RowList, key: u64) -> usize
    ensures { result ≡ position_or_len (λ row. row.key == key) rows.now }
{
    rows.keys()
        .iter()
        .position(|own| *own == key)
        .unwrap_or(rows.len())
}

/// The record of the removed range with a key.
fn removed_record_of(block: &Block, key: u64) -> u64
    requires { removed_record block.now key < 2 ^ 64 }
    ensures { result ≡ removed_record block.now key }
{
    block.number + 1 + range_place(block.removed.as_slice(), key) as u64
}

/// The place of the first range of a shift with the second key, or else with the first one.
fn broken_place(ranges: &[ShiftRange], first: u64, second: u64) -> usize
    ensures { result ≡ (if nat_lt (position_or_len (λ range. holds range second) ranges.now) (length ranges.now)
        then position_or_len (λ range. holds range second) ranges.now
        else position_or_len (λ range. holds range first) ranges.now) }
{
    let of_second = shift_place(ranges, second);
    if of_second < ranges.len() {
        of_second
    } else {
        shift_place(ranges, first)
    }
}

/// The record of the range of the shift with the second key, or else with the first one.
fn shift_record_of(block: &Block, first: u64, second: u64) -> u64
    requires { shift_record block.now first second < 2 ^ 64 }
    ensures { result ≡ shift_record block.now first second }
{
    let place = broken_place(block.shifts.as_slice(), first, second);
    block.number + 1 + block.removed.len() as u64 + place as u64
}

/// The record of the added row under a key.
fn added_record_of(block: &Block, key: u64) -> u64
    requires { added_record block.now key < 2 ^ 64 }
    ensures { result ≡ added_record block.now key }
{
    let before = block.number + 1 + block.removed.len() as u64 + block.shifts.len() as u64;
    before + row_place(&block.added, key) as u64
}

/// The record of the modified row under a key.
fn modified_record_of(block: &Block, key: u64) -> u64
    requires { modified_record block.now key < 2 ^ 64 }
    ensures { result ≡ modified_record block.now key }
{
    let before = block.number + 1 + block.removed.len() as u64 + block.shifts.len() as u64;
    before + block.added.len() as u64 + row_place(&block.modified, key) as u64
}

/// The record at which a block breaks a rule.
pub(crate) fn record_of(block: &Block, rule: FeedRule) -> u64
    requires { record_said block.now rule < 2 ^ 64 }
    ensures { result ≡ record_said block.now rule }
{
    match rule {
        FeedRule::Update(UpdateFault::RemovedAbsent { key }) => removed_record_of(block, key),
        FeedRule::Update(UpdateFault::ShiftBreaks { first, second }) => {
            shift_record_of(block, first, second)
        }
        FeedRule::Update(UpdateFault::AddedTaken { key }) => added_record_of(block, key),
        FeedRule::Update(UpdateFault::ModifiedAbsent { key }) => modified_record_of(block, key),
        FeedRule::Update(UpdateFault::ModifiedAdded { key }) => modified_record_of(block, key),
        FeedRule::Update(UpdateFault::Memory) => block.number,
        FeedRule::TooManyRows { .. } => block.number,
    }
}
