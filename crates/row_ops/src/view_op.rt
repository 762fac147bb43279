//! `view`: each row of the input, followed by the values of formulas, under its key.
//!
//! The rows that come, go, move and are modified are those of the input, since the input's cells stand in each. Only in the columns
//! of values are rows compared. So no row is read but the added and the modified ones, and none is searched for.

ghost use Rattle.std.specs.Prelude.{◌≡◌, ℕ, ◌+◌, ◌*◌, ◌≤◌, ◌++◌, ◌&&◌, ◌||◌, length, nat_lt, not, IfOk, OnErr, OnOk};
ghost use Rattle.std.specs.List.{AllByRecursion, list_any};
ghost use Rattle.std.specs.Ordering.{int_eq};
ghost use Rattle.key_lists.specs.Keys.{IsRising, is_among};
ghost use Rattle.row_changes.specs.Parts.{cells_under};
ghost use Rattle.row_ops.specs.Viewer.{viewed, with_values};
ghost use Rattle.shift_data.specs.Moves.{pairs_of};
ghost use Rattle.table_update.specs.Kept.{old_modified};
ghost use Rattle.tick_model.specs.Changes.{change_of};
ghost use Rattle.tick_model.specs.Formulas.{IsWithin, value as value_of};
ghost use Rattle.tick_model.specs.Tables.{cell as cell_of, keys};
ghost use Rattle.tick_model.specs.Updates.{differs_in};
ghost use Rattle.tick_model.specs.View.{view_table};
ghost use Rattle.tick_table.specs.Exact.{IsExact, counted, tick_of};

use formula::value;
use std::alloc::{AllocError, Global};
use std::marker::Model;
use std::sync::ledger::Ledger;
use table_update::ColumnSet;
use tick_model::cells::cell;
use tick_model::items::Items;
use tick_model::plan::Expr;
use tick_table::{Change, Steps, TickTable};

/// Puts computed columns behind those of its input. It keeps nothing of the rows that it saw.
#[derive(Drop)]
pub struct ViewOp {
    exprs: Items<Expr>,
    width: u32,
}

impl Model for ViewOp {
    ghost use Rattle.std.specs.Prelude.{◌+◌, ◌≤◌, length};
    ghost use Rattle.std.specs.List.{AllByRecursion};
    ghost use Rattle.std.specs.Coded.{codes};
    ghost use Rattle.tick_model.specs.contracts.plan.Expr as expr_type;
    ghost use Rattle.tick_model.specs.Formulas.{IsWithin};
    ghost use Rattle.row_ops.specs.Viewer.{Viewer, IsViewer};

    ghost Value = { Viewer };

    ghost coded = { Prim.hlevel (codes, expr_type.the_row.coded) };

    ghost view = { λ viewer. record { exprs = viewer.exprs; width = viewer.width } };

    ghost invariant = { λ viewer. IsViewer viewer.exprs viewer.width };
}

impl ViewOp {
    /// An operator that has seen no rows, for an input of this width.
    pub fn new(_alloc: Global, exprs: Items<Expr>, width: u32) -> ViewOp
        requires few { width + length exprs ≤ 32 }
        requires within { AllByRecursion (IsWithin width) exprs }
        ensures exprs { result.exprs ≡ exprs }
        ensures width { result.width ≡ width }
    {
        ViewOp { exprs, width }
    }

    /// The operator after the step that the input shows, and the change of its rows. After a refusal it is given up, and no
    /// more is read than that change may take.
    pub fn step<L: Ledger>(
        self,
        alloc: Global,
        input: &TickTable,
        reads: &mut Steps<L>,
    ) -> Result<(ViewOp, Change), AllocError>
        requires exact { IsExact input.now }
        requires width { input.now.new.width ≡ self.width }
        ensures same { IfOk result (λ out. out.0 ≡ self) }
        ensures change { IfOk result (λ out. out.1 ≡ change_of (viewed self.exprs (tick_of input.now))) }
        ensures reads { IfOk result (λ out. reads.new ≤ reads.old + 4 * (input.now.new.width + (input.now.new.width + length self.exprs)) * (counted input.now.update + counted out.1.update)) }
        ensures refused { OnErr result (reads.new ≤ reads.old + 4 * (input.now.new.width + (input.now.new.width + length self.exprs)) * (counted input.now.update + counted (change_of (viewed self.exprs (tick_of input.now))).update)) }
    {
        let change = view_change(alloc, self.exprs.as_slice(), input, reads)?;
        Ok((self, change))
    }
}

/// The change of the view.
fn view_change<L: Ledger>(
    alloc: Global,
    exprs: &[Expr],
    input: &TickTable,
    reads: &mut Steps<L>,
) -> Result<Change, AllocError>
    requires exact { IsExact input.now }
    requires few { input.now.new.width + length exprs.now ≤ 32 }
    requires within { AllByRecursion (IsWithin input.now.new.width) exprs.now }
    ensures change { IfOk result (λ change. change ≡ change_of (viewed exprs.now (tick_of input.now))) }
    ensures reads { reads.new ≤ reads.old + input.now.new.width * (2 * length input.now.update.modified + length input.now.update.added) }
{
    let mut update = input.update().copy()?;
    let rows = (update.added.len() as usize).saturating_add(update.modified.len() as usize);
    let width = input.width() as usize + exprs.len();
    let mut cells = Vec::with_capacity(alloc, rows.saturating_mul(width))?;
    put_added(exprs, input, &mut cells, reads)?;
    update.columns = put_modified(exprs, input, &mut cells, reads)?;
    let cells = Items::of(cells);
    Ok(Change { update, cells })
}

/// Puts the added rows, each with its values, behind the cells.
fn put_added<L: Ledger>(
    exprs: &[Expr],
    input: &TickTable,
    cells: &mut Vec<i64>,
    reads: &mut Steps<L>,
) -> Result<(), AllocError>
    requires exact { IsExact input.now }
    requires within { AllByRecursion (IsWithin input.now.new.width) exprs.now }
    ensures cells { OnOk result (cells.new.items ≡ cells.old.items ++ cells_under (view_table exprs.now input.now.new) input.now.update.added) }
    ensures reads { reads.new ≤ reads.old + input.now.new.width * length input.now.update.added }
{
    for place in 0..input.update().added().len() {
        put_row(exprs, input.added_row(place, reads), cells)?;
    }
    Ok(())
}

/// Puts the modified rows, each with its values, behind the cells, and gives the columns in which one of them differs.
fn put_modified<L: Ledger>(
    exprs: &[Expr],
    input: &TickTable,
    cells: &mut Vec<i64>,
    reads: &mut Steps<L>,
) -> Result<ColumnSet, AllocError>
    requires exact { IsExact input.now }
    requires few { input.now.new.width + length exprs.now ≤ 32 }
    requires within { AllByRecursion (IsWithin input.now.new.width) exprs.now }
    ensures cells { OnOk result (cells.new.items ≡ cells.old.items ++ cells_under (view_table exprs.now input.now.new) input.now.update.modified) }
    ensures columns { IfOk result (λ columns. (column : ℕ) → is_among column columns ≡ (nat_lt column (view_table exprs.now input.now.new).width && list_any (differs_in (view_table exprs.now input.now.old) (view_table exprs.now input.now.new) column) (pairs_of (old_modified (keys input.now.old.rows) input.now.update) input.now.update.modified))) }
    ensures rising { IfOk result (λ columns. IsRising columns) }
    ensures reads { reads.new ≤ reads.old + input.now.new.width * (2 * length input.now.update.modified) }
{
    let mut columns = input.update().columns().copy();
    for place in 0..input.update().modified().len() {
        let start = cells.len();
        put_row(exprs, input.modified_row(place, reads), cells)?;
        let before = input.modified_row_before(place, reads);
        let (_, now) = cells.split_at(start);
        columns = with_differing(columns, exprs, before, now);
    }
    Ok(columns)
}

/// Puts a row of the input, with its values, behind the cells.
fn put_row(exprs: &[Expr], row: &[i64], cells: &mut Vec<i64>) -> Result<(), AllocError>
    requires { AllByRecursion (IsWithin (length row.now)) exprs.now }
    ensures { OnOk result (cells.new.items ≡ cells.old.items ++ with_values exprs.now row.now) }
{
    cells.extend_from_slice(row)?;
    for expr in exprs {
        let value = value(expr, row);
        cells.push(value)?;
    }
    Ok(())
}

/// The columns with those of the values in which a row of the view differs from the one before, of which the input's cells are given.
fn with_differing(mut columns: ColumnSet, exprs: &[Expr], before: &[i64], now: &[i64]) -> ColumnSet
    requires few { length before.now + length exprs.now ≤ 32 }
    requires within { AllByRecursion (IsWithin (length before.now)) exprs.now }
    requires rising { IsRising columns }
    ensures rising { IsRising result }
    ensures columns { (column : ℕ) → is_among column result ≡ (is_among column columns || (nat_lt column (length before.now + length exprs.now) && (not (nat_lt column (length before.now)) && not (int_eq (cell_of (with_values exprs.now before.now) column) (cell_of now.now column))))) }
{
    for (place, expr) in exprs.iter().enumerate() {
        let column = (before.len() + place) as u32;
        if !columns.has(column) && differs(expr, before, now, column) {
            columns = columns.with(column);
        }
    }
    columns
}

/// Whether the value of a row before differs from the cell that stands for it now.
fn differs(expr: &Expr, before: &[i64], now: &[i64], column: u32) -> bool
    requires { IsWithin (length before.now) expr.now }
    ensures { result ≡ not (int_eq (value_of expr.now before.now) (cell_of now.now column)) }
{
    value(expr, before) != cell(now, column)
}
