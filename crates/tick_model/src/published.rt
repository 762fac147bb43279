//! How much room the snapshots of published tables take.

ghost use Rattle.std.specs.Prelude.{◌≡◌, ◌^◌, ◌≤◌};
ghost use Rattle.tick_model.specs.Plans.{published_words as words_of, table_words as words_of_table};

use crate::items::Items;
use crate::plan::Published;

fn table_words(published: &Published) -> u128
    ensures value { result ≡ words_of_table published.now }
    ensures small { result ≤ 2 ^ 64 }
{
    1 + u128::from(published.limit) * (1 + u128::from(published.width))
}

/// The words of the snapshot store: two, and two banks, each with a count of rows for each published table and, up to
/// its limit of rows, a key and cells for each row.
pub fn published_words(published: &Items<Published>) -> u128
    ensures { result ≡ words_of published.now }
{
    let mut words = 0u128;
    for table in published.as_slice() {
        words += table_words(table);
    }
    2 + 2 * words
}
