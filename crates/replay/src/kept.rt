//! How many words the snapshots of a run may have.
ghost use Rattle.std.specs.Prelude.{◌≡◌, ◌^◌, ◌≤◌, ◌<◌};
ghost use Rattle.tick_model.specs.LawfulRuns.{IsLawfulRun};
ghost use Rattle.tick_model.specs.Plans.{table_words as words_of_table};
ghost use Rattle.replay.specs.Kept.{kept_words as words_kept, largest_words as words_of_largest};

use crate::Knobs;
use tick_model::feed::Run;
use tick_model::plan::Published;

/// More words than these are not kept.
pub(crate) const MOST_WORDS: u64 = 16_777_216;

/// The most words of a published table: its row count and, up to its limit of rows, a key and cells for each.
fn table_words(published: &Published) -> u64
    ensures { result ≡ words_of_table published.now }
{
    1 + u64::from(published.limit) * (1 + u64::from(published.width))
}

/// The words of the largest published table.
fn largest_words(published: &[Published]) -> u64
    ensures { result ≡ words_of_largest published.now }
{
    let mut largest = 0;
    for table in published {
        largest = table_words(table).max(largest);
    }
    largest
}

/// The words of all snapshots: so many for each call of each caller.
pub(crate) fn kept_words(run: &Run, knobs: &Knobs) -> u64
    requires lawful { IsLawfulRun run.now }
    requires few_callers { knobs.now.callers ≤ 16 }
    requires few_snaps { knobs.now.snaps ≤ 64 }
    ensures { result ≡ words_kept run.now knobs.now }
{
    let calls = u64::from(knobs.callers) * (u64::from(knobs.snaps) + 1);
    calls * largest_words(run.plan.published.as_slice())
}
