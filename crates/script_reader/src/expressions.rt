//! Formulas and tests over the numbers of columns and texts.

ghost use Rattle.std.specs.Prelude.{◌≡◌, map};
ghost use Rattle.script_lines.specs.Answers.{Gives};
ghost use Rattle.script_reader.specs.Checks.{expr_of as expr_over, pred_of as pred_over, exprs_of as exprs_over};
ghost use Rattle.script_reader.specs.Plain.{plain, plain_test};

use crate::columns::column_named;
use crate::numbers::number;
use crate::texts::Texts;
use script_lines::fault::LineFault;
use script_lines::line::{Computed, Formula, Test};
use std::alloc::Global;
use tick_model::items::Items;
use tick_model::plan::{ColumnSpec, Expr, Pred};

/// A formula over the columns of an input. Its texts are numbered behind those that are there.
#[tactic(auto, unfolding(crate::specs::Checks::expr_of))]
fn expr_of(
    alloc: Global,
    columns: &[ColumnSpec],
    literals: &mut Texts,
    formula: &Formula,
) -> Result<Expr, LineFault>
    ensures { Gives (λ expr. (plain expr, literals.new)) result (expr_over columns.now literals.old formula.now) }
{
    match formula {
        Formula::Column(name) => Ok(Expr::Cell(column_named(columns, name)?)),
        Formula::Number(number) => Ok(Expr::Number(*number)),
        Formula::Text(text) => Ok(Expr::Literal(number(literals.number(text.as_str())?)?)),
        Formula::Null => Ok(Expr::Null),
        Formula::Neg(a) => {
            let a = expr_of(alloc, columns, literals, a)?;
            Ok(Expr::Neg(Box::new(alloc, a)?))
        }
        Formula::Add(a, b) => {
            let a = expr_of(alloc, columns, literals, a)?;
            let b = expr_of(alloc, columns, literals, b)?;
            Ok(Expr::Add(Box::new(alloc, a)?, Box::new(alloc, b)?))
        }
        Formula::Sub(a, b) => {
            let a = expr_of(alloc, columns, literals, a)?;
            let b = expr_of(alloc, columns, literals, b)?;
            Ok(Expr::Sub(Box::new(alloc, a)?, Box::new(alloc, b)?))
        }
        Formula::Mul(a, b) => {
            let a = expr_of(alloc, columns, literals, a)?;
            let b = expr_of(alloc, columns, literals, b)?;
            Ok(Expr::Mul(Box::new(alloc, a)?, Box::new(alloc, b)?))
        }
    }
}

/// A test over the columns of an input.
#[tactic(auto, unfolding(crate::specs::Checks::pred_of))]
pub(crate) fn pred_of(
    alloc: Global,
    columns: &[ColumnSpec],
    literals: &mut Texts,
    test: &Test,
) -> Result<Pred, LineFault>
    ensures { Gives (λ pred. (plain_test pred, literals.new)) result (pred_over columns.now literals.old test.now) }
{
    match test {
        Test::Compare(how, a, b) => {
            let a = expr_of(alloc, columns, literals, a)?;
            let b = expr_of(alloc, columns, literals, b)?;
            Ok(Pred::Compare(*how, a, b))
        }
        Test::And(a, b) => {
            let a = pred_of(alloc, columns, literals, a)?;
            let b = pred_of(alloc, columns, literals, b)?;
            Ok(Pred::And(Box::new(alloc, a)?, Box::new(alloc, b)?))
        }
        Test::Or(a, b) => {
            let a = pred_of(alloc, columns, literals, a)?;
            let b = pred_of(alloc, columns, literals, b)?;
            Ok(Pred::Or(Box::new(alloc, a)?, Box::new(alloc, b)?))
        }
        Test::Not(a) => {
            let a = pred_of(alloc, columns, literals, a)?;
            Ok(Pred::Not(Box::new(alloc, a)?))
        }
    }
}

/// The formulas of new columns, in order.
pub(crate) fn exprs_of(
    alloc: Global,
    columns: &[ColumnSpec],
    literals: &mut Texts,
    computed: &[Computed],
) -> Result<Items<Expr>, LineFault>
    ensures { Gives (λ exprs. (map plain exprs, literals.new)) result (exprs_over columns.now literals.old computed.now) }
{
    let mut exprs = Items::new(alloc);
    for column in computed {
        let expr = expr_of(alloc, columns, literals, &column.formula)?;
        exprs.push(expr)?;
    }
    Ok(exprs)
}
