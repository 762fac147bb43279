//! The keys of a set, one after the other.
ghost use Rattle.std.specs.Iterator.{YieldsFirst, item_count};

use crate::ranges::Range;
use std::marker::Model;

/// The keys of a set that are still to come, rising. A contract sees the list of them.
#[derive(Drop)]
pub struct Keys<'a> {
    /// The next key of the range at hand.
    pub(crate) next: u64,
    /// The key past the last of that range.
    pub(crate) end: u64,
    /// The ranges after it.
    pub(crate) ranges: &'a [Range],
}

impl<'a> Model for Keys<'a> {
    ghost use Rattle.std.specs.Prelude.{List, ℕ, ◌-◌, ◌++◌};
    ghost use Rattle.std.specs.List.{range_with_len};
    ghost use Rattle.row_set.specs.Ranges.{AreApart, keys_of};

    ghost Value = { List ℕ };

    ghost view = { λ keys. range_with_len keys.next (keys.end - keys.next) ++ keys_of keys.ranges.now };

    ghost invariant = { λ keys. AreApart 0 keys.ranges.now };
}

impl<'a> Iterator for Keys<'a> {
    type Item = u64;

    ghost next_gives = { YieldsFirst (λ keys. keys) };

    ghost remaining = { item_count (λ keys. keys) };

    fn next(&mut self) -> Option<u64> {
        if self.next < self.end {
            let key = self.next;
            self.next += 1;
            return Some(key);
        }
        let (range, others) = self.ranges.split_first()?;
        self.ranges = others;
        self.next = range.first + 1;
        self.end = range.last + 1;
        Some(range.first)
    }
}
