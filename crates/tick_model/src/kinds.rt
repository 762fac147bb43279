//! Kinds of columns and formulas.

ghost use Rattle.std.specs.Prelude.{◌≡◌, map, slice_get};
ghost use Rattle.tick_model.specs.Columns.{same_kind as same_kind_of, long_alone as long_alone_of, both_long as both_long_of, kind_of as kind_over, is_null_alone as is_null_alone_in, kinds_meet as kinds_meet_of, test_fits as test_fits_over, is_bound as is_bound_in, is_test_bound as is_test_bound_in};

use crate::plan::{ColumnSpec, Expr, Kind, Pred};

/// What is of a kind.
pub trait HasKind {
    ghost use Rattle.std.specs.Prelude.{◌≡◌};
    ghost use Rattle.tick_model.specs.declared.plan.Kind.{Kind};

    ghost own_kind: { Self → Kind };

    /// Its kind.
    fn kind(&self) -> Kind
        ensures { result ≡ own_kind self.now };
}

impl HasKind for Kind {
    ghost own_kind = { λ it. it };

    fn kind(&self) -> Kind {
        *self
    }
}

impl HasKind for ColumnSpec {
    ghost own_kind = { λ column. column.kind };

    fn kind(&self) -> Kind {
        self.kind
    }
}

/// Whether two kinds are one.
pub fn same_kind(a: Kind, b: Kind) -> bool
    ensures { result ≡ same_kind_of a b }
{
    match (a, b) {
        (Kind::Long, Kind::Long) | (Kind::Text, Kind::Text) => true,
        (Kind::Long, Kind::Text) | (Kind::Text, Kind::Long) => false,
    }
}

/// A kind that may stand under arithmetic.
pub fn long_alone(kind: Option<Kind>) -> Option<Kind>
    ensures { result ≡ long_alone_of kind }
{
    match kind {
        Some(Kind::Long) => Some(Kind::Long),
        Some(Kind::Text) | None => None,
    }
}

fn both_long(a: Option<Kind>, b: Option<Kind>) -> Option<Kind>
    ensures { result ≡ both_long_of a b }
{
    match a {
        Some(Kind::Long) => long_alone(b),
        Some(Kind::Text) | None => None,
    }
}

/// The kind of a column.
pub fn kind_at<T: HasKind>(columns: &[T], column: u32) -> Option<Kind>
    ensures { result ≡ slice_get (map T.own_kind columns.now) column }
{
    match columns.get(column as usize) {
        Some(column) => Some(column.kind()),
        None => None,
    }
}

/// The kind of a formula: none where a column is out of range or a text stands under arithmetic.
pub fn kind_of<T: HasKind>(expr: &Expr, columns: &[T]) -> Option<Kind>
    ensures { result ≡ kind_over expr.now (map T.own_kind columns.now) }
{
    match expr {
        Expr::Cell(column) => kind_at(columns, *column),
        Expr::Number(_) | Expr::Null => Some(Kind::Long),
        Expr::Literal(_) | Expr::Rank(_) => Some(Kind::Text),
        Expr::Neg(a) => long_alone(kind_of(a, columns)),
        Expr::Add(a, b) | Expr::Sub(a, b) | Expr::Mul(a, b) => both_long(
            kind_of(a, columns),
            kind_of(b, columns),
        ),
    }
}

/// Whether two sides of a comparison have kinds that may be compared.
pub fn kinds_meet(a: Option<Kind>, b: Option<Kind>, null_side: bool) -> bool
    ensures { result ≡ kinds_meet_of a b null_side }
{
    match (a, b) {
        (Some(a), Some(b)) => same_kind(a, b) || null_side,
        (_, _) => false,
    }
}

fn is_null_alone(expr: &Expr) -> bool
    ensures { result ≡ is_null_alone_in expr.now }
{
    matches!(expr, Expr::Null)
}

/// Whether each comparison of a test has two sides of one kind, where null alone fits either.
pub fn test_fits<T: HasKind>(test: &Pred, columns: &[T]) -> bool
    ensures { result ≡ test_fits_over test.now (map T.own_kind columns.now) }
{
    match test {
        Pred::Compare(_, a, b) => kinds_meet(
            kind_of(a, columns),
            kind_of(b, columns),
            is_null_alone(a) || is_null_alone(b),
        ),
        Pred::And(a, b) | Pred::Or(a, b) => test_fits(a, columns) && test_fits(b, columns),
        Pred::Not(a) => test_fits(a, columns),
    }
}

/// Whether a formula has no text left without its rank.
pub fn is_bound(expr: &Expr) -> bool
    ensures { result ≡ is_bound_in expr.now }
{
    match expr {
        Expr::Cell(_) | Expr::Number(_) | Expr::Null | Expr::Rank(_) => true,
        Expr::Literal(_) => false,
        Expr::Neg(a) => is_bound(a),
        Expr::Add(a, b) | Expr::Sub(a, b) | Expr::Mul(a, b) => is_bound(a) && is_bound(b),
    }
}

/// Whether a test has no text left without its rank.
pub fn is_test_bound(test: &Pred) -> bool
    ensures { result ≡ is_test_bound_in test.now }
{
    match test {
        Pred::Compare(_, a, b) => is_bound(a) && is_bound(b),
        Pred::And(a, b) | Pred::Or(a, b) => is_test_bound(a) && is_test_bound(b),
        Pred::Not(a) => is_test_bound(a),
    }
}
