//! The two ends of a table, each with a type that names it.

ghost use Rattle.std.specs.Prelude.{◌≡◌};
ghost use Rattle.head_tail.specs.Ends.{cut};

/// An end of a table.
#[derive(Clone, Copy)]
pub enum End {
    First,
    Last,
}

impl End {
    /// The position that parts the `count` rows at this end from the others, in a table of so many rows.
    pub(crate) fn position(self, count: u64, rows: u64) -> u64
        ensures { result ≡ cut self count rows }
    {
        match self {
            End::First => count,
            End::Last => rows.saturating_sub(count),
        }
    }
}

/// A type that names an end.
pub trait AtEnd {
    ghost use Rattle.std.specs.Prelude.{◌≡◌};
    ghost use Rattle.head_tail.specs.declared.end.End.{End};

    ghost end: { End };

    fn end() -> End
        ensures { result ≡ end };
}

/// The first rows.
pub struct AtFirst;

impl AtEnd for AtFirst {
    ghost use Rattle.head_tail.specs.declared.end.End.TheVariants.{First};

    ghost end = { First };

    fn end() -> End {
        End::First
    }
}

/// The last rows.
pub struct AtLast;

impl AtEnd for AtLast {
    ghost use Rattle.head_tail.specs.declared.end.End.TheVariants.{Last};

    ghost end = { Last };

    fn end() -> End {
        End::Last
    }
}
