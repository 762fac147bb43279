//! Entries of one ascending column: where they stand, that they leave, and that they get the keys to which rows move.
ghost use Rattle.std.specs.Prelude.{◌≡◌, ◌∷◌, [], IfOk, length, pos};
ghost use Rattle.sort_op.specs.Entries.{entries, rising_keys};

use shift_data::{ShiftData, ShiftFault};
use sort_op::{Entry, SortOrder};
use std::alloc::{AllocError, Global};
use std::test::Fail;
use tick_model::items::Items;
use tick_model::plan::SortBy;

/// An order by the first column, ascending.
fn by_first_column(alloc: Global) -> Result<SortOrder, AllocError>
    ensures by { IfOk result (λ order. length order.by ≡ 1) }
    ensures empty { IfOk result (λ order. order.chunks ≡ []) }
{
    let mut by = Items::new(alloc);
    by.push(SortBy {
        column: 0,
        descending: false,
    })?;
    Ok(SortOrder::new(alloc, by))
}

/// The keys 1 and 2 move by 5.
fn shift(alloc: Global) -> Result<ShiftData, ShiftFault>
    ensures { IfOk result (λ shift. shift ≡ (record { begin = 1; end = 2; delta = pos 5 }) ∷ []) }
{
    let mut shift = ShiftData::new(alloc);
    shift.push(1, 2, 5)?;
    Ok(shift)
}

fn entry(alloc: Global, cell: i64, key: u64) -> Result<Entry, AllocError>
    ensures cells { IfOk result (λ entry. length entry.cells ≡ 1) }
    ensures key { IfOk result (λ entry. entry.key ≡ key) }
{
    let mut cells = Items::new(alloc);
    cells.push(cell)?;
    Ok(Entry { cells, key })
}

/// Puts an entry in, or says None where it is there.
fn put(order: &mut SortOrder, alloc: Global, cell: i64, key: u64) -> Result<Option<u64>, AllocError>
    requires { length order.old.by ≡ 1 }
    ensures { length order.new.by ≡ 1 }
{
    let entry = entry(alloc, cell, key)?;
    match order.position(&entry) {
        Ok(_) => Ok(None),
        Err(_) => Ok(Some(order.insert(entry)?)),
    }
}

/// The places at which the cells 5, 20 and 10 come, at which 10 and 15 are found, and the answers where 5 leaves twice.
fn places(
    order: &mut SortOrder,
    alloc: Global,
) -> Result<([Option<u64>; 3], [Result<u64, u64>; 2], [Option<u64>; 2]), AllocError>
    requires { length order.old.by ≡ 1 }
{
    let five = put(order, alloc, 5, 0)?;
    let twenty = put(order, alloc, 20, 1)?;
    let ten = put(order, alloc, 10, 2)?;
    let found = order.position(&entry(alloc, 10, 2)?);
    let absent = order.position(&entry(alloc, 15, 0)?);
    let leaving = entry(alloc, 5, 0)?;
    let left = order.remove(&leaving);
    let again = order.remove(&leaving);
    Ok(([five, twenty, ten], [found, absent], [left, again]))
}

#[test]
fn entries_stand_by_cell(rt: HostRuntime) -> Result<(), Fail> {
    let mut order = by_first_column(rt.alloc())?;
    let (came, found, left) = places(&mut order, rt.alloc())?;
    assert!(rt; came == [Some(0), Some(1), Some(1)]);
    assert!(rt; found == [Ok(1), Err(2)]);
    assert!(rt; left == [Some(0), None]);
    assert!(rt; order.len() == 2 && order.by().len() == 1);
    assert_eq!(rt; order.get(1).map(|entry| entry.key), Some(1));
    assert!(rt; order.get(2).is_none());
    Ok(())
}

/// An order of one row, whose key is 1.
fn of_one_row(alloc: Global) -> Result<SortOrder, AllocError>
    ensures { IfOk result (λ order. rising_keys (entries order) ≡ 1 ∷ []) }
{
    let mut order = by_first_column(alloc)?;
    order.insert(entry(alloc, 5, 1)?)?;
    Ok(order)
}

#[test]
fn entries_get_the_keys_to_which_rows_move(rt: HostRuntime) -> Result<(), Fail> {
    let mut order = of_one_row(rt.alloc())?;
    order.rekey(&shift(rt.alloc())?);
    assert_eq!(rt; order.get(0).map(|entry| entry.key), Some(6));
    assert!(rt; order.len() == 1);
    Ok(())
}
