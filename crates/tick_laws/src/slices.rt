//! Laws of slices: what the messages of a subscription carry.

ghost use Rattle.std.specs.Prelude.{◌≡◌, ℕ, ◌+◌, ◌<◌, List, length};
ghost use Rattle.tick_laws.specs.Reached.{IsReached};
ghost use Rattle.tick_model.specs.Changes.{change_of, changed};
ghost use Rattle.tick_model.specs.Evaluation.{table_at};
ghost use Rattle.tick_model.specs.LawfulRuns.{IsLawfulRun};
ghost use Rattle.tick_model.specs.Slices.{first_tick, slice, slice_tick};
ghost use Rattle.tick_model.specs.States.{state};
ghost use Rattle.tick_model.specs.Updates.{IsTick};
ghost use Rattle.tick_model.specs.declared.feed.Run.{Run};

/// The change of a slice of a node, from one step to a later one that a lawful run reaches, is a tick.
pub fn slices_are_ticks()
    ensures first { (run : Run) → IsLawfulRun run → (node : ℕ) → node < length run.plan.nodes
        → (first count : ℕ) (columns : List ℕ) (step : ℕ) → IsReached run step
        → IsTick (first_tick run node (slice first count columns) step) }
    ensures later { (run : Run) → IsLawfulRun run → (node : ℕ) → node < length run.plan.nodes
        → (first count : ℕ) (columns : List ℕ) (step more : ℕ) → IsReached run (step + more)
        → IsTick (slice_tick run node (slice first count columns) step more) }
{}

/// So the change makes the slice at the later step of the slice at the step before.
pub fn messages_carry_slices()
    ensures { (run : Run) → IsLawfulRun run → (node : ℕ) → node < length run.plan.nodes
        → (first count : ℕ) (columns : List ℕ) (step more : ℕ) → IsReached run (step + more)
        → let cut = slice first count columns in
        changed (cut (table_at (state run step) node)) (change_of (slice_tick run node cut step more))
        ≡ cut (table_at (state run (step + more)) node) }
{}
