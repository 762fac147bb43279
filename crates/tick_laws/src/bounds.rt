//! Laws of plans: how large the keys of their nodes are, and how many rows they have.

ghost use Rattle.std.specs.List.{AllByRecursion};
ghost use Rattle.std.specs.Prelude.{◌≡◌, ℕ, ◌<◌, ◌^◌, List, length, slice_index, true};
ghost use Rattle.tick_laws.specs.Bounded.{AreSourceTables, IsNodeTable};
ghost use Rattle.tick_model.specs.Evaluation.{eval, has_table, outcome_at, table_at};
ghost use Rattle.tick_model.specs.LawfulRuns.{sources_of};
ghost use Rattle.tick_model.specs.Plans.{columns_at, is_lawful, key_bounds};
ghost use Rattle.tick_model.specs.declared.plan.Plan.{Plan};
ghost use Rattle.tick_model.specs.declared.table.PlainTable.{PlainTable};

/// In a lawful plan, over sources of its widths with keys below 2 ^ 40 and at most 4,194,304 rows each,
/// each node that has a table has one of its own width, with keys below its key bound and at most
/// 4,194,304 rows.
pub fn nodes_stay_within_bounds()
    ensures { (plan : Plan) (sources : List PlainTable)
        → is_lawful plan ≡ true → AreSourceTables (sources_of plan.nodes) sources
        → (node : ℕ) → node < length plan.nodes → has_table (outcome_at (eval plan sources) node) ≡ true
        → IsNodeTable (length (columns_at plan.nodes node)) (slice_index (key_bounds plan.nodes) node)
        (table_at (eval plan sources) node) }
{}

/// No key bound of a lawful plan is past 2 ^ 62, so that every key of a node, a merge's too, is below it.
pub fn bounds_are_below_keys()
    ensures { (plan : Plan) → is_lawful plan ≡ true
        → AllByRecursion (λ bound. bound < 2 ^ 62) (key_bounds plan.nodes) }
{}
