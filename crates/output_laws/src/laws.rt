//! The laws.
ghost use Rattle.std.specs.Prelude.{◌≡◌, ℕ, ◌≤◌, List, [], Some, length};
ghost use Rattle.std.specs.List.{AllByRecursion};
ghost use Rattle.feed_run.specs.Verdicts.{Verdict};
ghost use Rattle.feed_run.specs.Wholes.{IsLawful, whole};
ghost use Rattle.replay.specs.Outcomes.{IsLawfulChoice, last_written, text_until};
ghost use Rattle.replay.specs.declared.outcome.Knobs.{Knobs};
ghost use Rattle.tick_model.specs.declared.feed.Run.{Run};
ghost use Rattle.tick_model.specs.Evaluation.{table_at};
ghost use Rattle.tick_model.specs.LawfulRuns.{IsLawfulRun};
ghost use Rattle.tick_model.specs.Spoiled.{good};
ghost use Rattle.tick_model.specs.States.{state};
ghost use Rattle.tick_table.specs.Ticking.{no_rows};
ghost use Rattle.update_text.specs.declared.shown.Shown.{Shown};
ghost use Rattle.viewport.specs.Slices.{cut};
ghost use Rattle.watched_run.specs.declared.watch.Watch.{Watch};
ghost use Rattle.watched_run.specs.Messages.{IsWatch, slice_of};
ghost use Rattle.watched_run.specs.ToCome.{watch_until};
ghost use Rattle.run_output.specs.Entries.{IsEntry, output_text};
ghost use Rattle.run_output.specs.Runs.{copy_after, tables_of};
ghost use Rattle.output_laws.specs.Wholes.{IsRun, IsShownTo, verdict_entries};
ghost use Rattle.output_laws.specs.Written.{messages, run_entries, watch_entries};

/// What `run_feed` writes of a lawful run is the text of its entries, and each of them can be told.
pub fn runs_are_read()
    ensures text { (run : Run) (knobs : Knobs) (choice : List (List ℕ))
        → text_until run (last_written run knobs) choice ≡ output_text (tables_of run) run.texts (run_entries run (last_written run knobs) choice) }
    ensures entries { (run : Run) → IsLawfulRun run → (knobs : Knobs) → knobs.callers ≤ 16 → knobs.snaps ≤ 64
        → (choice : List (List ℕ)) → IsLawfulChoice knobs (last_written run knobs) choice
        → AllByRecursion (IsEntry (tables_of run) run.texts) (run_entries run (last_written run knobs) choice) }
{}

/// So is what `watch_feed` writes.
pub fn watches_are_read()
    ensures text { (run : Run) (watch : Watch) → watch_until run watch (good run) ≡ output_text (tables_of run) run.texts (watch_entries run watch (good run)) }
    ensures entries { (run : Run) → IsLawfulRun run → (watch : Watch) → IsWatch run watch
        → AllByRecursion (IsEntry (tables_of run) run.texts) (watch_entries run watch (good run)) }
{}

/// A copy of the watched rows, which is empty at first, is what the slice shows of the node's table at the last good step after all messages.
pub fn messages_make_slices()
    ensures { (run : Run) → IsLawfulRun run → (watch : Watch) → IsWatch run watch → (last : ℕ) → good run ≡ Some last
        → copy_after watch.node (no_rows (length (slice_of run watch).columns)) (messages run watch last)
        ≡ cut (slice_of run watch) (table_at (state run last) watch.node) }
{}

/// What the program writes of a verdict, but for the summary of a made run, is the text of its entries, the end among them, and each of them
/// can be told.
pub fn verdicts_are_read()
    ensures text { (verdict : Verdict) (choice : List (List ℕ)) (tables : List Shown) (texts : List (List ℕ)) → IsShownTo verdict tables texts
        → whole verdict choice ≡ output_text tables texts (verdict_entries verdict choice) }
    ensures entries { (verdict : Verdict) (choice : List (List ℕ)) (tables : List Shown) (texts : List (List ℕ)) → IsShownTo verdict tables texts
        → IsRun verdict → IsLawful verdict choice → AllByRecursion (IsEntry tables texts) (verdict_entries verdict choice) }
{}
