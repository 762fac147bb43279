//! Formulas and tests over the rows of a table: of which kind they are, and what they say of a row.
//!
//! Arithmetic wraps in 64 bits, and is null where an operand is. A comparison is that of the numbers, of which null is the
//! least. No call takes memory.
#![tactic(auto)]

ghost use Rattle.std.specs.Prelude.{◌≡◌};
ghost use Rattle.tick_model.specs.Columns.{kind_of as kind_over, test_fits as test_fits_over};

pub use tick_model::formula::{passes, value};
use tick_model::kinds;
use tick_model::plan::{Expr, Kind, Pred};

/// The kind of a formula over a row whose columns have these kinds: none where a column is out of range or a text stands
/// under arithmetic. Null alone is a long.
pub fn kind_of(expr: &Expr, kinds: &[Kind]) -> Option<Kind>
    ensures { result ≡ kind_over expr.now kinds.now }
{
    kinds::kind_of(expr, kinds)
}

/// Whether each comparison of a test has two sides of one kind over such a row, where null alone fits either kind.
pub fn test_fits(test: &Pred, kinds: &[Kind]) -> bool
    ensures { result ≡ test_fits_over test.now kinds.now }
{
    kinds::test_fits(test, kinds)
}
