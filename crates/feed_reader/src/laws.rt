//! Laws of table files and feeds: what is read, and then coded by the ranks of texts, keeps the rules of runs.

ghost use Rattle.std.specs.Prelude.{◌≡◌, ℕ, ◌^◌, ◌<◌, ◌≤◌, true, [], List, Ok, flat_map, length};
ghost use Rattle.std.specs.List.{AllByRecursion};
ghost use Rattle.tick_model.specs.LawfulRuns.{IsLawfulBlock, IsLawfulRun, IsOpening, sources_of};
ghost use Rattle.tick_model.specs.Numbers.{HasPlanNumbers};
ghost use Rattle.tick_model.specs.Plans.{is_lawful};
ghost use Rattle.tick_model.specs.declared.feed.Run.{Run};
ghost use Rattle.tick_model.specs.declared.plan.ColumnSpec.{ColumnSpec};
ghost use Rattle.tick_model.specs.declared.plan.Plan.{Plan};
ghost use Rattle.script_reader.specs.Binding.{bound};
ghost use Rattle.script_reader.specs.declared.script.Script.{Script};
ghost use Rattle.script_reader.specs.Scripts.{script_of};
ghost use Rattle.script_laws.specs.Literals.{NamesLiterals};
ghost use Rattle.feed_reader.specs.Assembled.{AreTablesOf, plain_run, run_of};
ghost use Rattle.feed_reader.specs.Coding.{batch_texts, coded_feed, coded_table, table_texts};
ghost use Rattle.feed_reader.specs.Feeds.{feed_of};
ghost use Rattle.feed_reader.specs.Runs.{IsAmong};
ghost use Rattle.feed_reader.specs.Tables.{table_of};
ghost use Rattle.feed_reader.specs.declared.raw.RawFeed.{RawFeed};
ghost use Rattle.feed_reader.specs.declared.raw.RawTable.{RawTable};

/// A table file that is read for a source's columns is a lawful opening of the source, by the ranks of texts among which each of its
/// texts is. So is a table without rows.
pub fn read_tables_are_openings()
    ensures read { (columns : List ColumnSpec) (bytes : List ℕ) (table : RawTable) (texts : List (List ℕ))
        → table_of columns bytes ≡ Ok table → length texts < 2 ^ 63
        → AllByRecursion (IsAmong texts) (table_texts table)
        → IsOpening columns (length texts) (coded_table texts (length columns) table) }
    ensures no_rows { (columns : List ColumnSpec) (texts : List (List ℕ))
        → IsOpening columns (length texts) (coded_table texts (length columns) (record { rows = [] })) }
{}

/// A feed that is read for a plan has at most 100,000 steps, and each of its blocks is lawful, by the ranks of texts among which each of
/// its texts is.
pub fn read_feeds_are_lawful()
    ensures steps { (plan : Plan) (bytes : List ℕ) (feed : RawFeed) → feed_of plan bytes ≡ Ok feed
        → length feed.batches ≤ 100000 }
    ensures blocks { (plan : Plan) (bytes : List ℕ) (feed : RawFeed) (texts : List (List ℕ))
        → feed_of plan bytes ≡ Ok feed → length texts < 2 ^ 63
        → AllByRecursion (IsAmong texts) (flat_map batch_texts feed.batches)
        → AllByRecursion (λ batch. AllByRecursion (IsLawfulBlock plan (length texts)) batch.blocks) (coded_feed texts feed) }
{}

/// A run that is assembled from a lawful script, from one table for each of its sources, and from a feed that is read for its plan, is
/// lawful. The script is lawful where its plan, with ranks in the place of its literals, keeps the rules of plans, where its numbers are
/// of 64 bits, and where each of its literals is one of its texts.
pub fn assembled_runs_are_lawful()
    ensures { (script : Script) (tables : List RawTable) (bytes : List ℕ) (feed : RawFeed) (run : Run)
        → plain_run run ≡ run_of script tables feed → AreTablesOf (sources_of script.plan.nodes) tables
        → feed_of script.plan bytes ≡ Ok feed → length run.texts < 2 ^ 63
        → is_lawful (bound script run.texts) ≡ true → HasPlanNumbers script.plan → NamesLiterals script
        → IsLawfulRun run }
{}

/// A run that is assembled from a script that is read, from one table for each of its sources, and from a feed that is read for its plan,
/// is lawful.
pub fn read_runs_are_lawful()
    ensures { (lines : List ℕ) (script : Script) (tables : List RawTable) (bytes : List ℕ) (feed : RawFeed) (run : Run)
        → script_of lines ≡ Ok script → plain_run run ≡ run_of script tables feed → AreTablesOf (sources_of script.plan.nodes) tables
        → feed_of script.plan bytes ≡ Ok feed → length run.texts < 2 ^ 63
        → IsLawfulRun run }
{}
