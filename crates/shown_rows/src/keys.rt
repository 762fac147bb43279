//! Sets of keys that are made one key after the other.

ghost use Rattle.std.specs.Prelude.{◌≡◌, ◌^◌, ◌<◌, [], ◌∷◌, ◌++◌, if◌then◌else◌, IfOk, OnErr, OnOk};
ghost use Rattle.std.specs.List.{AllByRecursion};
ghost use Rattle.row_set.specs.Sets.{common};

use row_set::RowSet;
use std::alloc::{AllocError, Global};

/// Puts a key behind all others of a set, which is as before after a refusal.
pub fn put_last(keys: &mut RowSet, key: u64) -> Result<(), AllocError>
    requires small { key < 2 ^ 62 }
    requires last { AllByRecursion (λ other. other < key) keys.old }
    ensures keys { OnOk result (keys.new ≡ keys.old ++ key ∷ []) }
    ensures refused { OnErr result (keys.new ≡ keys.old) }
{
    keys.insert_range(key, key)
}

/// Puts a key behind all others of a set, if so it is to be. After a refusal the set is as before.
pub fn put_last_if(wanted: bool, keys: &mut RowSet, key: u64) -> Result<(), AllocError>
    requires small { key < 2 ^ 62 }
    requires last { AllByRecursion (λ other. other < key) keys.old }
    ensures keys { OnOk result (keys.new ≡ keys.old ++ (if wanted then key ∷ [] else [])) }
    ensures refused { OnErr result (keys.new ≡ keys.old) }
{
    if wanted {
        put_last(keys, key)?;
    }
    Ok(())
}

/// Those of the keys of a small set that are in a large one, by a search for each of them.
pub fn keys_among(alloc: Global, keys: &RowSet, others: &RowSet) -> Result<RowSet, AllocError>
    ensures { IfOk result (λ found. found ≡ common keys.now others.now) }
{
    let mut found = RowSet::new(alloc);
    for key in keys {
        put_last_if(others.contains(key), &mut found, key)?;
    }
    Ok(found)
}
