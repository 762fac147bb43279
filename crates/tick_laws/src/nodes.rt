//! Laws of nodes: each is made of its inputs, which are lesser nodes.

ghost use Rattle.std.specs.Prelude.{◌≡◌, ℕ, ◌<◌, List, length, slice_index_or};
ghost use Rattle.tick_laws.specs.Reached.{table_before};
ghost use Rattle.tick_model.specs.Evaluation.{eval, outcome_at, outcome_of, source_number, table_at};
ghost use Rattle.tick_model.specs.Tables.{no_table};
ghost use Rattle.tick_model.specs.Sources.{source_ticks, tick_at};
ghost use Rattle.tick_model.specs.States.{state, tick, tick_of, ticks, HasLesserInputs};
ghost use Rattle.tick_model.specs.declared.feed.Run.{Run};
ghost use Rattle.tick_model.specs.declared.plan.Node.{Node};
ghost use Rattle.tick_model.specs.declared.plan.Plan.{Plan};
ghost use Rattle.tick_model.specs.declared.table.PlainTable.{PlainTable};

/// Each node has one outcome: that of its operator over the outcomes of all nodes, of which it reads
/// those of its inputs, or the table of its source.
pub fn nodes_apply_their_operators()
    ensures count { (plan : Plan) (sources : List PlainTable)
        → length (eval plan sources) ≡ length plan.nodes }
    ensures each { (plan : Plan) (sources : List PlainTable) → HasLesserInputs plan
        → (node : ℕ) (d : Node) → node < length plan.nodes
        → let own = slice_index_or sources (source_number plan.nodes node) no_table in
        outcome_at (eval plan sources) node
        ≡ outcome_of (slice_index_or plan.nodes node d).op own (eval plan sources) }
{}

/// Each node has one tick at each step: that of its operator over the ticks of all nodes, of which it
/// reads those of its inputs, from its table before the step to its table after it, or that of its source.
pub fn nodes_make_their_ticks()
    ensures count { (run : Run) (step : ℕ) → length (ticks run step) ≡ length run.plan.nodes }
    ensures each { (run : Run) (step : ℕ) → HasLesserInputs run.plan
        → (node : ℕ) (d : Node) → node < length run.plan.nodes
        → let own = tick_at (source_ticks run step) (source_number run.plan.nodes node) in
        tick run step node
        ≡ tick_of (slice_index_or run.plan.nodes node d).op own (ticks run step)
        (table_before run step node) (table_at (state run step) node) }
{}
