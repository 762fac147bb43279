//! The rows that an operator chooses of its input's.

/// Says which rows of a table are shown, under their keys.
pub trait Chooses {
    ghost use Rattle.tick_model.specs.declared.table.PlainTable.{PlainTable};

    /// The table of the rows that are shown.
    ghost chosen: { Self → PlainTable → PlainTable };
}
