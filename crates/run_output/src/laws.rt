//! Laws of the outputs of runs: what is read back of them.
ghost use Rattle.std.specs.Prelude.{◌≡◌, ℕ, ◌+◌, ◌^◌, ◌<◌, ◌≤◌, ◌++◌, List, Some, true};
ghost use Rattle.std.specs.List.{AllByRecursion};
ghost use Rattle.key_lists.specs.Keys.{is_among};
ghost use Rattle.tick_model.specs.declared.feed.Run.{Run};
ghost use Rattle.tick_model.specs.Choices.{IsChoice};
ghost use Rattle.tick_model.specs.Evaluation.{table_at};
ghost use Rattle.tick_model.specs.LawfulRuns.{IsLawfulRun};
ghost use Rattle.tick_model.specs.Spoiled.{good};
ghost use Rattle.tick_model.specs.States.{empty_at, state};
ghost use Rattle.tick_model.specs.Texts.{snapshots_text, updates_text};
ghost use Rattle.run_output.specs.declared.entry.OutputEntry.{OutputEntry};
ghost use Rattle.run_output.specs.Entries.{AreShown, IsEntry, output_text};
ghost use Rattle.run_output.specs.Runs.{copy_after, snapshot_entries, tables_of, update_entries};

/// The nodes of a lawful run can be shown, so that its output can be read back.
pub fn nodes_of_runs_are_shown()
    ensures { (run : Run) → IsLawfulRun run → AreShown (tables_of run) run.texts }
{}

/// The texts of a run's updates and snapshots are those of their entries.
pub fn runs_are_outputs()
    ensures updates { (run : Run) (last : ℕ) → updates_text run last ≡ output_text (tables_of run) run.texts (update_entries run last) }
    ensures snapshots { (run : Run) (choice : List (List ℕ)) → snapshots_text run choice ≡ output_text (tables_of run) run.texts (snapshot_entries run choice) }
{}

/// Up to the last good step of a lawful run they are entries that can be told. So they are what is read back.
pub fn entries_of_runs_are_told()
    ensures updates { (run : Run) → IsLawfulRun run → (last : ℕ) → good run ≡ Some last
        → AllByRecursion (IsEntry (tables_of run) run.texts) (update_entries run last) }
    ensures snapshots { (run : Run) → IsLawfulRun run → (last callers snaps : ℕ) (choice : List (List ℕ)) → good run ≡ Some last
        → callers < 2 ^ 32 → snaps + 1 < 2 ^ 32 → IsChoice callers snaps last choice
        → AllByRecursion (IsEntry (tables_of run) run.texts) (snapshot_entries run choice) }
{}

/// A copy of a printed node's table, which is empty at first, is the table of each good step after the updates up to that step. The updates
/// up to a step stand before those after it.
pub fn updates_make_tables()
    ensures tables { (run : Run) → IsLawfulRun run → (step last : ℕ) → good run ≡ Some last → step ≤ last
        → (node : ℕ) → is_among node run.plan.printed ≡ true
        → copy_after node (empty_at run.plan node) (update_entries run step) ≡ table_at (state run step) node }
    ensures before { (run : Run) (step last : ℕ) → step ≤ last
        → (later : List OutputEntry) × (update_entries run last ≡ update_entries run step ++ later) }
{}
