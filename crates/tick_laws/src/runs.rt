//! Laws of runs: every node's table and every node's change, at each step that a run reaches.

ghost use Rattle.std.specs.Prelude.{◌≡◌, ℕ, ◌+◌, ◌<◌, ◌≤◌, Some, length, slice_index, true};
ghost use Rattle.tick_laws.specs.Bounded.{AreSourceTables, IsNodeTable};
ghost use Rattle.tick_laws.specs.Reached.{IsReached, IsTickFrom, KeepsRules, table_before};
ghost use Rattle.tick_model.specs.Evaluation.{has_table, outcome_at, table_at};
ghost use Rattle.tick_model.specs.LawfulRuns.{IsLawfulRun, sources_of};
ghost use Rattle.tick_model.specs.Plans.{columns_at, key_bounds};
ghost use Rattle.tick_model.specs.Sources.{HasTables, sources};
ghost use Rattle.tick_model.specs.Spoiled.{good};
ghost use Rattle.tick_model.specs.States.{state, tick, HasLesserInputs, HaveTables};
ghost use Rattle.tick_model.specs.declared.feed.Run.{Run};

/// At each step that no batch spoils, and where all nodes have tables before and after it, every node's
/// change is a tick from its table before to its table after.
pub fn nodes_are_ticks()
    ensures { (run : Run) → HasTables run → HasLesserInputs run.plan → (step : ℕ) → KeepsRules run (step + 1)
        → HaveTables run.plan (state run step) → HaveTables run.plan (state run (step + 1))
        → (node : ℕ) → node < length run.plan.nodes
        → IsTickFrom (table_at (state run step) node) (table_at (state run (step + 1)) node)
        (tick run (step + 1) node) }
{}

/// A lawful run has tables, and the inputs of its nodes are lesser nodes.
pub fn lawful_runs_have_tables()
    ensures tables { (run : Run) → IsLawfulRun run → HasTables run }
    ensures inputs { (run : Run) → IsLawfulRun run → HasLesserInputs run.plan }
{}

/// While no batch of a lawful run breaks a rule, its sources stay within their bounds, and each node that
/// has a table has one of its own width, with keys below its key bound and at most 4,194,304 rows.
pub fn lawful_runs_stay_within_bounds()
    ensures sources { (run : Run) → IsLawfulRun run → (step : ℕ) → KeepsRules run step
        → AreSourceTables (sources_of run.plan.nodes) (sources run step) }
    ensures nodes { (run : Run) → IsLawfulRun run → (step : ℕ) → KeepsRules run step
        → (node : ℕ) → node < length run.plan.nodes → has_table (outcome_at (state run step) node) ≡ true
        → IsNodeTable (length (columns_at run.plan.nodes node)) (slice_index (key_bounds run.plan.nodes) node)
        (table_at (state run step) node) }
{}

/// A run reaches its last good step, and with it all steps before.
pub fn good_steps_are_reached()
    ensures within { (run : Run) (last : ℕ) → good run ≡ Some last → last ≤ length run.batches }
    ensures reached { (run : Run) (last : ℕ) → good run ≡ Some last → IsReached run last }
    ensures before { (run : Run) (step last : ℕ) → step ≤ last → IsReached run last → IsReached run step }
{}

/// At each step that a lawful run reaches, every node has a table.
pub fn reached_steps_have_tables()
    ensures { (run : Run) → IsLawfulRun run → (step : ℕ) → IsReached run step
        → HaveTables run.plan (state run step) }
{}

/// At each such step, the opening too, every node's change is a tick from its table before the step to
/// its table after it.
pub fn reached_steps_are_ticks()
    ensures { (run : Run) → IsLawfulRun run → (step : ℕ) → IsReached run step
        → (node : ℕ) → node < length run.plan.nodes
        → IsTickFrom (table_before run step node) (table_at (state run step) node) (tick run step node) }
{}
