//! Laws of made runs. Each function does nothing: its contract is the law.

ghost use Rattle.std.specs.List.{range_with_len};
ghost use Rattle.std.specs.Prelude.{◌≡◌, ℕ, ◌≤◌, None};
ghost use Rattle.feed_reader.specs.Assembled.{plain_run};
ghost use Rattle.tick_model.specs.Evaluation.{table_at};
ghost use Rattle.tick_model.specs.LawfulRuns.{IsLawfulRun};
ghost use Rattle.tick_model.specs.Spoiled.{first_spoiled};
ghost use Rattle.tick_model.specs.States.{state};
ghost use Rattle.tick_model.specs.Tables.{keys};
ghost use Rattle.tick_model.specs.declared.feed.Run.{Run};
ghost use Rattle.made_run.specs.Run.{made};
ghost use Rattle.made_run.specs.Steps.{rows_after};

/// Each made run is lawful, wherever the formulas of its plan lie.
pub fn made_runs_are_lawful()
    ensures made { (steps : ℕ) → steps ≤ 10000 → IsLawfulRun (made steps) }
    ensures anywhere { (steps : ℕ) (run : Run) → steps ≤ 10000 → plain_run run ≡ made steps → IsLawfulRun run }
{}

/// No step of a made run is spoiled.
pub fn made_runs_have_no_spoiled_step()
    ensures { (steps : ℕ) → steps ≤ 10000 → first_spoiled (made steps) ≡ None }
{}

/// After each step `trades`, the first node, has as many rows as its definition says, under the keys from 0 on.
pub fn made_runs_number_their_trades()
    ensures { (steps step : ℕ) → steps ≤ 10000 → step ≤ steps
        → keys (table_at (state (made steps) step) 0).rows ≡ range_with_len 0 (rows_after step) }
{}
