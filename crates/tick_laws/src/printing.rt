//! Laws of printing: which changes can be printed.

ghost use Rattle.std.specs.Prelude.{◌≡◌, ℕ, ◌<◌, List, length, true};
ghost use Rattle.tick_laws.specs.Fitting.{HasColumns};
ghost use Rattle.tick_laws.specs.Reached.{IsReached, KeepsRules};
ghost use Rattle.tick_model.specs.Changes.{change_of};
ghost use Rattle.tick_model.specs.Evaluation.{has_table, outcome_at, table_at};
ghost use Rattle.tick_model.specs.LawfulRuns.{IsLawfulRun};
ghost use Rattle.tick_model.specs.Plans.{columns_at};
ghost use Rattle.tick_model.specs.Printable.{IsPrintable};
ghost use Rattle.tick_model.specs.States.{state, tick};
ghost use Rattle.tick_model.specs.Updates.{Tick, IsTick};
ghost use Rattle.tick_model.specs.declared.feed.Run.{Run};
ghost use Rattle.tick_model.specs.declared.plan.ColumnSpec.{ColumnSpec};

/// The change of a tick is printable, where the rows of its new table fit the columns.
pub fn fitting_changes_are_printable()
    ensures { (columns : List ColumnSpec) (texts : List (List ℕ)) (tick : Tick)
        → IsTick tick → tick.new.width ≡ length columns → HasColumns columns (length texts) tick.new
        → IsPrintable columns texts (change_of tick) }
{}

/// While no batch of a lawful run breaks a rule, the rows of each node that has a table fit its columns:
/// a cell of a text column is null or the number of a text, and every cell is a number of 64 bits.
pub fn rows_fit_their_columns()
    ensures { (run : Run) → IsLawfulRun run → (step : ℕ) → KeepsRules run step
        → (node : ℕ) → node < length run.plan.nodes → has_table (outcome_at (state run step) node) ≡ true
        → HasColumns (columns_at run.plan.nodes node) (length run.texts) (table_at (state run step) node) }
{}

/// At each step that a lawful run reaches, the change of every node is printable.
pub fn reached_changes_are_printable()
    ensures { (run : Run) → IsLawfulRun run → (step : ℕ) → IsReached run step
        → (node : ℕ) → node < length run.plan.nodes
        → IsPrintable (columns_at run.plan.nodes node) run.texts (change_of (tick run step node)) }
{}
