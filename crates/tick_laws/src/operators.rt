//! Laws of operators: what they make of tables, and of the changes of tables.

ghost use Rattle.std.specs.Prelude.{◌≡◌, ℕ, true};
ghost use Rattle.tick_model.specs.Numbers.{HasOpNumbers};
ghost use Rattle.tick_laws.specs.Operated.{EachInput, operated};
ghost use Rattle.tick_laws.specs.Room.{HasRoom};
ghost use Rattle.tick_model.specs.Changes.{is_empty};
ghost use Rattle.tick_model.specs.Operators.{result as result_of};
ghost use Rattle.tick_model.specs.Tables.{HasCells, IsTable};
ghost use Rattle.tick_model.specs.Sources.{unchanged};
ghost use Rattle.tick_model.specs.Updates.{Tick, IsTick, between};
ghost use Rattle.tick_model.specs.declared.plan.Op.{Op};
ghost use Rattle.tick_model.specs.declared.table.PlainTable.{PlainTable};

/// Each operator makes a table of tables. Only a merge asks for more: that its inputs have one width,
/// and that their regions end where keys do.
pub fn operators_make_tables()
    ensures { (op : Op) (table : ℕ → PlainTable)
        → EachInput op (λ input. IsTable (table input)) → HasRoom op table
        → IsTable (result_of op table) }
{}

/// The cells of the table are numbers of 64 bits, where those of the inputs and the numbers of the
/// formulas are.
pub fn operators_keep_cells()
    ensures { (op : Op) (table : ℕ → PlainTable)
        → EachInput op (λ input. IsTable (table input)) → EachInput op (λ input. HasCells (table input))
        → HasOpNumbers op → HasCells (result_of op table) }
{}

/// The pairs that an operator keeps are those of a tick, where its inputs' are and its results are tables.
pub fn operators_keep()
    ensures { (op : Op) (tick : ℕ → Tick) → EachInput op (λ input. IsTick (tick input))
        → IsTable (result_of op (λ n. (tick n).old)) → IsTable (result_of op (λ n. (tick n).new))
        → IsTick (operated op tick) }
{}

/// Where no input of an operator changes, neither does its table, and each of its rows stays where it is.
pub fn still_inputs_change_nothing()
    ensures { (op : Op) (tick : ℕ → Tick) → EachInput op (λ input. IsTick (tick input))
        → EachInput op (λ input. is_empty (between (tick input)) ≡ true)
        → operated op tick ≡ unchanged (result_of op (λ n. (tick n).old)) }
{}
