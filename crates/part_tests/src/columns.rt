//! Cells by row key, as they are and as they were when the step began.

use column_source::Column;
use row_set::RowSet;
use shift_data::ShiftData;
use std::test::Fail;

/// A row goes, one moves, and the place of the first is taken anew.
#[test]
fn cells_are_told_now_and_before(rt: HostRuntime) -> Result<(), Fail> {
    let mut column = Column::new(rt.alloc());
    column.set(0, 5)?;
    column.set(1, 6)?;
    column.begin_step();
    let mut gone = RowSet::new(rt.alloc());
    gone.insert_range(0, 0)?;
    column.drop_keys(&gone)?;
    let mut shifts = ShiftData::new(rt.alloc());
    let pushed = shifts.push(1, 1, 3);
    assert!(rt; pushed.is_ok());
    column.shift(&shifts)?;
    column.set(0, 9)?;
    assert_eq!(rt; column.get(4), 6);
    assert_eq!(rt; column.get(0), 9);
    assert_eq!(rt; column.get_prev(0), 5);
    assert_eq!(rt; column.get_prev(1), 6);
    Ok(())
}
