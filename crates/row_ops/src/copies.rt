//! Copies of what an operator is made of.

ghost use Rattle.std.specs.Prelude.{◌≡◌, IfOk};
ghost use Rattle.row_ops.specs.Copies.{AreCopies, IsCopy, IsTestCopy};

use std::alloc::{AllocError, Global};
use tick_model::items::Items;
use tick_model::plan::{Expr, Pred};

/// A formula once more.
fn copied_expr(alloc: Global, expr: &Expr) -> Result<Expr, AllocError>
    ensures { IfOk result (λ copy. IsCopy copy expr.now) }
{
    match expr {
        Expr::Cell(column) => Ok(Expr::Cell(*column)),
        Expr::Number(number) => Ok(Expr::Number(*number)),
        Expr::Null => Ok(Expr::Null),
        Expr::Literal(text) => Ok(Expr::Literal(*text)),
        Expr::Rank(rank) => Ok(Expr::Rank(*rank)),
        Expr::Neg(a) => {
            let a = copied_expr(alloc, a)?;
            Ok(Expr::Neg(Box::new(alloc, a)?))
        }
        Expr::Add(a, b) => {
            let a = copied_expr(alloc, a)?;
            let b = copied_expr(alloc, b)?;
            Ok(Expr::Add(Box::new(alloc, a)?, Box::new(alloc, b)?))
        }
        Expr::Sub(a, b) => {
            let a = copied_expr(alloc, a)?;
            let b = copied_expr(alloc, b)?;
            Ok(Expr::Sub(Box::new(alloc, a)?, Box::new(alloc, b)?))
        }
        Expr::Mul(a, b) => {
            let a = copied_expr(alloc, a)?;
            let b = copied_expr(alloc, b)?;
            Ok(Expr::Mul(Box::new(alloc, a)?, Box::new(alloc, b)?))
        }
    }
}

/// A test once more.
pub(crate) fn copied_test(alloc: Global, test: &Pred) -> Result<Pred, AllocError>
    ensures { IfOk result (λ copy. IsTestCopy copy test.now) }
{
    match test {
        Pred::Compare(how, a, b) => {
            let a = copied_expr(alloc, a)?;
            let b = copied_expr(alloc, b)?;
            Ok(Pred::Compare(*how, a, b))
        }
        Pred::And(a, b) => {
            let a = copied_test(alloc, a)?;
            let b = copied_test(alloc, b)?;
            Ok(Pred::And(Box::new(alloc, a)?, Box::new(alloc, b)?))
        }
        Pred::Or(a, b) => {
            let a = copied_test(alloc, a)?;
            let b = copied_test(alloc, b)?;
            Ok(Pred::Or(Box::new(alloc, a)?, Box::new(alloc, b)?))
        }
        Pred::Not(a) => {
            let a = copied_test(alloc, a)?;
            Ok(Pred::Not(Box::new(alloc, a)?))
        }
    }
}

/// Formulas once more.
pub(crate) fn copied_exprs(alloc: Global, exprs: &Items<Expr>) -> Result<Items<Expr>, AllocError>
    ensures { IfOk result (λ copies. AreCopies copies exprs.now) }
{
    let mut copies = Items::new(alloc);
    for expr in exprs.as_slice() {
        let copy = copied_expr(alloc, expr)?;
        copies.push(copy)?;
    }
    Ok(copies)
}
