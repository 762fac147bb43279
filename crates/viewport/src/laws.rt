//! Laws of subscriptions: what their messages make of a mirror.

ghost use Rattle.std.specs.Prelude.{◌≡◌, ℕ, ◌+◌, ◌<◌, List, None, Some, length, suc};
ghost use Rattle.tick_laws.specs.Reached.{IsReached};
ghost use Rattle.tick_model.specs.Changes.{change_of, changed};
ghost use Rattle.tick_model.specs.Evaluation.{table_at};
ghost use Rattle.tick_model.specs.LawfulRuns.{IsLawfulRun};
ghost use Rattle.tick_model.specs.Slices.{slice_tick};
ghost use Rattle.tick_model.specs.States.{state, tick};
ghost use Rattle.tick_model.specs.Updates.{IsTick, Tick};
ghost use Rattle.tick_model.specs.declared.feed.Run.{Run};
ghost use Rattle.tick_table.specs.Ticking.{no_rows};
ghost use Rattle.viewport.specs.Mirrored.{mirror_fault, mirrored};
ghost use Rattle.viewport.specs.Slices.{cut};
ghost use Rattle.viewport.specs.Subscribed.{last_step, messages, watching_at};
ghost use Rattle.viewport.specs.Watching.{message_tick, passed, started};
ghost use Rattle.viewport.specs.declared.slice.Slice.{Slice};

/// A mirror takes the change of every tick from its rows, and then has those of the tick's new table.
pub fn mirrors_take_ticks()
    ensures taken { (tick : Tick) → IsTick tick → mirror_fault tick.old (change_of tick) ≡ None }
    ensures rows { (tick : Tick) → IsTick tick → changed tick.old (change_of tick) ≡ tick.new }
{}

/// A viewport that starts at a step of a run, passes each later one and then gives a message follows the run: at each step that
/// the run reaches it stands for what became of the slice, and its message is the change of the slice over these steps.
pub fn viewports_follow_runs()
    ensures start { (run : Run) (node : ℕ) (slice : Slice) (step : ℕ)
        → IsLawfulRun run → node < length run.plan.nodes → IsReached run step
        → started slice (table_at (state run step) node) ≡ watching_at run node slice step 0 }
    ensures pass { (run : Run) (node : ℕ) (slice : Slice) (step more : ℕ)
        → IsLawfulRun run → node < length run.plan.nodes → IsReached run (step + suc more)
        → passed (watching_at run node slice step more) (tick run (step + suc more) node) ≡ watching_at run node slice step (suc more) }
    ensures message { (run : Run) (node : ℕ) (slice : Slice) (step more : ℕ)
        → message_tick (watching_at run node slice step more) ≡ slice_tick run node (cut slice) step more }
{}

/// A mirror of the slice's width takes all messages of a subscription, from the first on, and has the slice at the step of the
/// last one.
pub fn mirrors_follow_subscriptions()
    ensures { (run : Run) (node : ℕ) (slice : Slice) (step : ℕ) (steps : List ℕ)
        → IsLawfulRun run → node < length run.plan.nodes → IsReached run (last_step step steps)
        → mirrored (no_rows (length slice.columns)) (messages run node slice step steps)
        ≡ Some (cut slice (table_at (state run (last_step step steps)) node)) }
{}
