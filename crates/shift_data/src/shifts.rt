//! The shift itself: what it is made of, and what it answers.
ghost use Rattle.std.specs.Prelude.{◌≡◌, ℕ, ◌+◌, ◌-◌, ◌^◌, ◌<◌, ◌≤◌, List, [], ◌∷◌, ◌++◌, length, pos, negsuc, ◌<ℤ◌, None, IfSome, IfOk, OnOk, OnErr, MatchResult, option_map, false};
ghost use Rattle.std.specs.List.{AllByRecursion};
ghost use Rattle.key_lists.specs.Keys.{without};
ghost use Rattle.tick_model.specs.Rules.{is_past, landed, shift_fault};
ghost use Rattle.tick_model.specs.Shifts.{as_key, moved, shifted};
ghost use Rattle.shift_data.specs.Moves.{IsLawful, canonical, canonical_through, pairs_of, unapplied};
ghost use Rattle.shift_data.specs.Pushes.{push_fault};
ghost use Rattle.shift_data.specs.ShiftLists.{IsShiftList, offset_by};

use crate::apply::moved_keys;
use crate::canonical::{canonical, canonical_through, canonical_without};
use crate::in_place::{move_keys, move_through};
use crate::order::broken;
use crate::pairs::ranges_of_pairs;
use crate::search::{place_of, range_of};
use crate::unapply::unapplied;
use row_set::RowSet;
use std::alloc::{AllocError, Global};
use std::marker::Model;
use tick_model::update::ShiftRange;

/// Two keys that show that a shift breaks the order of a set: `second` moves past the limit (then `first` is `second`),
/// or not past `first`, the key before it.
#[derive(Clone, Copy, Debug, PartialEq, Eq)]
pub struct Broken {
    pub first: u64,
    pub second: u64,
}

/// Why a range cannot be put behind those of a shift. The causes are tried in this order.
#[derive(Clone, Copy, Debug, PartialEq, Eq)]
pub enum ShiftFault {
    /// The range ends before it begins.
    Backward,
    /// The range begins at `begin`, which is not past the `end` of the last range.
    NotAscending { end: u64, begin: u64 },
    /// The range moves nothing.
    ZeroDelta,
    /// Out of memory.
    Memory,
}

/// How the rows of a table move. A contract sees the list of its ranges.
pub struct ShiftData {
    ranges: Vec<ShiftRange>,
}

impl Drop for ShiftData {
    fn drop(self) {
        let Self { ranges: _ } = self;
    }
}

impl Model for ShiftData {
    ghost use Rattle.std.specs.Prelude.{List};
    ghost use Rattle.tick_model.specs.declared.update.ShiftRange.{ShiftRange};
    ghost use Rattle.shift_data.specs.ShiftLists.{IsShiftList};

    ghost Value = { List ShiftRange };

    ghost view = { λ shift. shift.ranges.items };

    ghost invariant = { λ shift. IsShiftList shift.ranges.items };
}

impl ShiftData {
    ghost use Rattle.shift_data.specs.Faults.{breaks};

    /// The shift that moves nothing.
    pub fn new(alloc: Global) -> ShiftData
        ensures { result ≡ [] }
    {
        ShiftData {
            ranges: Vec::new(alloc),
        }
    }

    /// The ranges of the pairs of two sets of keys, one key by one.
    pub fn of_pairs(alloc: Global, old: &RowSet, new: &RowSet) -> Result<ShiftData, AllocError>
        ensures { IfOk result (λ shift. shift ≡ shifted (pairs_of old.now new.now)) }
    {
        let ranges = ranges_of_pairs(alloc, old, new)?;
        Ok(ShiftData { ranges })
    }

    /// Puts a range behind the others. After a refusal the shift is as before.
    pub fn push(&mut self, begin: u64, end: u64, delta: i64) -> Result<(), ShiftFault>
        requires begin { begin < 2 ^ 62 }
        requires end { end < 2 ^ 62 }
        requires up { delta <ℤ pos (2 ^ 62) }
        requires down { negsuc (2 ^ 62 - 1) <ℤ delta }
        ensures ok { OnOk result (self.new ≡ self.old ++ (record { begin = begin; end = end; delta = delta }) ∷ []) }
        ensures err { OnErr result (self.new ≡ self.old) }
        ensures refused { IfSome (push_fault self.old begin end delta) (λ fault. result ≡ Err fault) }
        ensures memory { push_fault self.old begin end delta ≡ None → MatchResult result (λ _. Unit {0}) (λ fault. fault ≡ ShiftFault.Memory) }
    {
        if let Some(fault) = push_fault(&self.ranges, begin, end, delta) {
            return Err(fault);
        }
        let range = ShiftRange { begin, end, delta };
        self.ranges.push(range).map_err(|_| ShiftFault::Memory)
    }

    /// The ranges, rising.
    pub fn ranges(&self) -> &[ShiftRange]
        ensures ranges { result.now ≡ self.now }
        ensures shift { IsShiftList self.now }
    {
        &self.ranges
    }

    /// The number to which a key moves: the key plus the delta of the range that holds it, or the key.
    pub fn moved(&self, key: u64) -> i64
        requires { key < 2 ^ 62 }
        ensures place { result ≡ moved self.now key }
        ensures shift { IsShiftList self.now }
    {
        match range_of(&self.ranges, key) {
            Some(range) => place_of(key, range.delta),
            None => place_of(key, 0),
        }
    }

    /// The key to which a row moves that stays.
    pub fn landing(&self, key: u64) -> u64
        requires key { key < 2 ^ 62 }
        requires inside { is_past (2 ^ 62) (moved self.now key) ≡ false }
        ensures place { result ≡ as_key (moved self.now key) }
        ensures shift { IsShiftList self.now }
    {
        self.moved(key) as u64
    }

    /// Whether every key moves to one below the limit and the moved keys rise: then None. Else the least key that does not
    /// move so, with the key before it where it moves not past that one, and else with itself.
    pub fn keeps_order(&self, keys: &RowSet, limit: u64) -> Option<Broken>
        requires { limit ≤ 2 ^ 62 }
        ensures { option_map breaks result ≡ shift_fault limit self.now keys.now }
    {
        let none = RowSet::new(*self.ranges.allocator());
        broken(&self.ranges, keys, &none, limit)
    }

    /// The same of the keys but those that are left out. The sets are searched and not walked: the cost is that of the ranges
    /// of the shift, and of those that are left out where one of them begins or ends.
    pub fn keeps_order_without(
        &self,
        keys: &RowSet,
        left_out: &RowSet,
        limit: u64,
    ) -> Option<Broken>
        requires { limit ≤ 2 ^ 62 }
        ensures { option_map breaks result ≡ shift_fault limit self.now (without left_out.now keys.now) }
    {
        broken(&self.ranges, keys, left_out, limit)
    }

    /// The keys to which these keys move.
    pub fn apply(&self, keys: &RowSet) -> Result<RowSet, AllocError>
        requires { IsLawful self.now keys.now }
        ensures { IfOk result (λ places. places ≡ landed self.now keys.now) }
    {
        moved_keys(*self.ranges.allocator(), &self.ranges, keys)
    }

    /// The same keys, moved where they lie. Ranges of keys that stay are gone over only where there are few of them, about
    /// eight, for each that moves or each of the shift. After a refusal the keys are gone.
    pub fn apply_in_place(&self, keys: RowSet) -> Result<RowSet, AllocError>
        requires { IsLawful self.now keys }
        ensures { IfOk result (λ places. places ≡ landed self.now keys) }
    {
        move_keys(*self.ranges.allocator(), &self.ranges, keys)
    }

    /// The same keys, moved where they lie by this shift and then by the next: at once, where both have few ranges. After a
    /// refusal the keys are gone.
    pub fn apply_both_in_place(&self, next: &ShiftData, keys: RowSet) -> Result<RowSet, AllocError>
        requires lawful { IsLawful self.now keys }
        requires next_lawful { IsLawful next.now (landed self.now keys) }
        ensures { IfOk result (λ places. places ≡ landed next.now (landed self.now keys)) }
    {
        move_through(*self.ranges.allocator(), &self.ranges, &next.ranges, keys)
    }

    /// Those of the survivors whose moved key is in `after`.
    pub fn unapply(&self, survivors: &RowSet, after: &RowSet) -> Result<RowSet, AllocError>
        requires { IsLawful self.now survivors.now }
        ensures { IfOk result (λ keys. keys ≡ unapplied self.now survivors.now after.now) }
    {
        let alloc = *self.ranges.allocator();
        unapplied(alloc, &self.ranges, survivors, &RowSet::new(alloc), after)
    }

    /// Those of the keys, but those that are left out, whose moved key is in `after`. The sets are searched and not walked: the
    /// cost is that of the ranges of the shift, of those that are left out, and of those that move to keys in `after`.
    pub fn unapply_without(
        &self,
        keys: &RowSet,
        left_out: &RowSet,
        after: &RowSet,
    ) -> Result<RowSet, AllocError>
        requires { IsLawful self.now (without left_out.now keys.now) }
        ensures { IfOk result (λ asked. asked ≡ unapplied self.now (without left_out.now keys.now) after.now) }
    {
        let alloc = *self.ranges.allocator();
        unapplied(alloc, &self.ranges, keys, left_out, after)
    }

    /// The ranges of the rows under these keys: one for each longest stretch of neighbouring rows that move by one delta
    /// other than 0, from its first key to its last.
    pub fn canonical(&self, survivors: &RowSet) -> Result<ShiftData, AllocError>
        requires { IsLawful self.now survivors.now }
        ensures { IfOk result (λ shift. shift ≡ canonical self.now survivors.now) }
    {
        let ranges = canonical(*self.ranges.allocator(), &self.ranges, survivors)?;
        Ok(ShiftData { ranges })
    }

    /// The ranges of the rows under these keys but those that are left out. The sets are searched and not walked: the cost
    /// is that of the ranges of the shift, and of those that are left out where one of them begins or ends.
    pub fn canonical_without(
        &self,
        keys: &RowSet,
        left_out: &RowSet,
    ) -> Result<ShiftData, AllocError>
        requires { IsLawful self.now (without left_out.now keys.now) }
        ensures { IfOk result (λ shift. shift ≡ canonical self.now (without left_out.now keys.now)) }
    {
        let alloc = *self.ranges.allocator();
        if self.ranges.is_empty() {
            return Ok(ShiftData::new(alloc));
        }
        let ranges = canonical_without(alloc, &self.ranges, keys, left_out)?;
        Ok(ShiftData { ranges })
    }

    /// The ranges of the rows under these keys, which move by this shift and then by the next.
    pub fn then(&self, next: &ShiftData, survivors: &RowSet) -> Result<ShiftData, AllocError>
        requires lawful { IsLawful self.now survivors.now }
        requires next_lawful { IsLawful next.now (landed self.now survivors.now) }
        ensures { IfOk result (λ shift. shift ≡ canonical_through self.now next.now survivors.now) }
    {
        let alloc = *self.ranges.allocator();
        let ranges = canonical_through(alloc, &self.ranges, &next.ranges, survivors)?;
        Ok(ShiftData { ranges })
    }

    /// The same moves, `by` keys higher.
    pub fn offset(&self, by: u64) -> Result<ShiftData, AllocError>
        requires { AllByRecursion (λ range. range.end + by < 2 ^ 62) self.now }
        ensures { IfOk result (λ shift. shift ≡ offset_by by self.now) }
    {
        let mut ranges = Vec::with_capacity(*self.ranges.allocator(), self.ranges.len())?;
        for range in &self.ranges {
            ranges.push(ShiftRange {
                begin: range.begin + by,
                end: range.end + by,
                delta: range.delta,
            })?;
        }
        Ok(ShiftData { ranges })
    }

    /// An equal shift.
    pub fn copy(&self) -> Result<ShiftData, AllocError>
        ensures { IfOk result (λ shift. shift ≡ self.now) }
    {
        let ranges = Vec::from_slice(*self.ranges.allocator(), &self.ranges)?;
        Ok(ShiftData { ranges })
    }
}

/// Why a range cannot be put behind these, memory aside.
fn push_fault(shifts: &[ShiftRange], begin: u64, end: u64, delta: i64) -> Option<ShiftFault>
    ensures { result ≡ push_fault shifts.now begin end delta }
{
    if end < begin {
        return Some(ShiftFault::Backward);
    }
    match shifts.last() {
        Some(last) if begin <= last.end => Some(ShiftFault::NotAscending {
            end: last.end,
            begin,
        }),
        _ if delta == 0 => Some(ShiftFault::ZeroDelta),
        _ => None,
    }
}
