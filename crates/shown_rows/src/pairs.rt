//! The keys of rows that stay, before a step and now.

ghost use Rattle.std.specs.Prelude.{◌≡◌, ◌^◌, ◌<◌, [], ◌∷◌, ◌++◌, filter, if◌then◌else◌, length, IfOk};
ghost use Rattle.std.specs.List.{AllByRecursion};
ghost use Rattle.std.specs.Iterator.{YieldsFirst, item_count};
ghost use Rattle.key_lists.specs.Keys.{is_among};
ghost use Rattle.row_set.specs.Sets.{IsKeySet};
ghost use Rattle.table_update.specs.Kept.{old_modified};
ghost use Rattle.tick_model.specs.Tables.{keys};
ghost use Rattle.tick_model.specs.Updates.{new_keys, old_keys, pairs as pairs_kept};
ghost use Rattle.tick_table.specs.Exact.{IsExact};

use crate::keys::put_last;
use row_set::{Keys, RowSet};
use std::alloc::{AllocError, Global};
use std::marker::Model;
use tick_model::update::KeyPair;
use tick_table::TickTable;

/// The old and the new keys of rows that stay. Both rise, and so a contract sees the list of the pairs.
#[derive(Drop)]
pub struct KeyPairs {
    from: RowSet,
    to: RowSet,
}

impl Model for KeyPairs {
    ghost use Rattle.std.specs.Prelude.{◌≡◌, List, length};
    ghost use Rattle.shift_data.specs.Moves.{pairs_of};
    ghost use Rattle.tick_model.specs.declared.update.KeyPair.{KeyPair};

    ghost Value = { List KeyPair };

    ghost view = { λ pairs. pairs_of pairs.from pairs.to };

    ghost invariant = { λ pairs. length pairs.from ≡ length pairs.to };
}

impl KeyPairs {
    /// No pairs.
    pub fn new(alloc: Global) -> KeyPairs
        ensures { result ≡ [] }
    {
        KeyPairs {
            from: RowSet::new(alloc),
            to: RowSet::new(alloc),
        }
    }

    /// The pairs of the rows that an exact table modifies.
    pub fn modified(input: &TickTable) -> Result<KeyPairs, AllocError>
        requires { IsExact input.now }
        ensures { IfOk result (λ pairs. pairs ≡ filter (λ pair. is_among pair.new input.now.update.modified) (pairs_kept input.now.old input.now.update)) }
    {
        let update = input.update();
        let from = update.modified_before(input.prev_rows())?;
        let to = update.modified().copy()?;
        Ok(KeyPairs { from, to })
    }

    /// The pairs with one behind them.
    pub fn with_last(self, pair: KeyPair) -> Result<KeyPairs, AllocError>
        requires old_small { pair.old < 2 ^ 62 }
        requires new_small { pair.new < 2 ^ 62 }
        requires old { AllByRecursion (λ other. other < pair.old) (old_keys self) }
        requires new { AllByRecursion (λ other. other < pair.new) (new_keys self) }
        ensures { IfOk result (λ pairs. pairs ≡ self ++ pair ∷ []) }
    {
        let KeyPairs { mut from, mut to } = self;
        put_last(&mut from, pair.old)?;
        put_last(&mut to, pair.new)?;
        Ok(KeyPairs { from, to })
    }

    /// The pairs with one behind them, if so it is to be.
    pub fn with_last_if(self, wanted: bool, pair: KeyPair) -> Result<KeyPairs, AllocError>
        requires old_small { pair.old < 2 ^ 62 }
        requires new_small { pair.new < 2 ^ 62 }
        requires old { AllByRecursion (λ other. other < pair.old) (old_keys self) }
        requires new { AllByRecursion (λ other. other < pair.new) (new_keys self) }
        ensures { IfOk result (λ pairs. pairs ≡ self ++ (if wanted then pair ∷ [] else [])) }
    {
        if wanted {
            self.with_last(pair)
        } else {
            Ok(self)
        }
    }

    /// The old keys and the new ones.
    pub fn into_keys(self) -> (RowSet, RowSet)
        ensures old { result.0 ≡ old_keys self }
        ensures new { result.1 ≡ new_keys self }
        ensures even { length result.0 ≡ length result.1 }
    {
        (self.from, self.to)
    }
}

impl<'a> IntoIterator for &'a KeyPairs {
    type Item = KeyPair;

    type IntoIter = Pairs<'a>;

    ghost into_iter_gives = { λ pairs coming. (coming ≡ pairs.now) × IsKeySet (old_keys pairs.now) × IsKeySet (new_keys pairs.now) };

    fn into_iter(self) -> Self::IntoIter {
        Pairs {
            from: self.from.iter(),
            to: self.to.iter(),
        }
    }
}

/// The pairs that are still to come. A contract sees the list of them.
#[derive(Drop)]
pub struct Pairs<'a> {
    from: Keys<'a>,
    to: Keys<'a>,
}

impl<'a> Model for Pairs<'a> {
    ghost use Rattle.std.specs.Prelude.{◌≡◌, List, length};
    ghost use Rattle.shift_data.specs.Moves.{pairs_of};
    ghost use Rattle.tick_model.specs.declared.update.KeyPair.{KeyPair};

    ghost Value = { List KeyPair };

    ghost view = { λ pairs. pairs_of pairs.from pairs.to };

    ghost invariant = { λ pairs. length pairs.from ≡ length pairs.to };
}

impl<'a> Pairs<'a> {
    /// The pairs of the rows that an exact table modifies, where `from` has their old keys.
    pub fn modified(input: &'a TickTable, from: &'a RowSet) -> Pairs<'a>
        requires exact { IsExact input.now }
        requires from { from.now ≡ old_modified (keys input.now.old.rows) input.now.update }
        ensures pairs { result ≡ filter (λ pair. is_among pair.new input.now.update.modified) (pairs_kept input.now.old input.now.update) }
        ensures old { IsKeySet (old_keys result) }
        ensures new { IsKeySet (new_keys result) }
    {
        Pairs {
            from: from.iter(),
            to: input.update().modified().iter(),
        }
    }
}

impl<'a> Iterator for Pairs<'a> {
    type Item = KeyPair;

    ghost next_gives = { YieldsFirst (λ pairs. pairs) };

    ghost remaining = { item_count (λ pairs. pairs) };

    fn next(&mut self) -> Option<KeyPair> {
        let old = self.from.next()?;
        let new = self.to.next()?;
        Some(KeyPair { old, new })
    }
}
