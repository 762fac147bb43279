//! The words of a table, copied row by row.

ghost use Rattle.std.specs.Int.{w64, cast_unsigned};
ghost use Rattle.std.specs.Prelude.{◌≡◌, ◌+◌, ◌*◌, ◌<◌, ◌≤◌, ◌++◌, ◌∷◌, length, map, vec_len, vec_capacity};
ghost use Rattle.tick_model.specs.Words.{words as words_of_table};

use new_counts::new_count;
use std::marker::Brand;
use std::sync::ledger::{Blank, Ledger};
use tick_table::{RowReader, Steps, TickTable, Version};

// Copies the key and the cells of a row behind the words.
fn copy_row(key: u64, cells: &[i64], words: &mut Vec<u64>)
    requires room { vec_len words.old + (1 + length cells.now) ≤ vec_capacity words.old }
    ensures words { words.new.items ≡ words.old.items ++ key ∷ map (cast_unsigned w64) cells.now }
    ensures long { vec_len words.new ≡ vec_len words.old + (1 + length cells.now) }
    ensures room { vec_capacity words.new ≡ vec_capacity words.old }
{
    words.push_reserved(key);
    for cell in cells {
        words.push_reserved(cell.cast_unsigned());
    }
}

// The same as `copy_table`, with a counter of reads.
fn copy_counting<L: Ledger>(table: &TickTable, words: &mut Vec<u64>, blank: Blank)
    requires name { blank.name ≡ L.name }
    requires parts { blank.parts ≡ L.parts }
    requires some { 0 < blank.parts }
    requires room { 1 + length table.now.new.rows * (1 + table.now.new.width) ≤ vec_capacity words.old }
    ensures words { words.new.items ≡ words_of_table table.now.new }
    ensures room { vec_capacity words.new ≡ vec_capacity words.old }
{
    let mut reads = Steps::<L>::new(blank, new_count());
    let keys = table.rows();
    let mut rows = RowReader::of(table, Version::Now);
    words.clear();
    words.push_reserved(keys.len());
    for key in keys {
        copy_row(key, rows.row(key, &mut reads), words);
    }
}

/// Puts the words of a table as it is now in place of the others, which have room for them.
pub(crate) fn copy_table(table: &TickTable, words: &mut Vec<u64>)
    requires { 1 + length table.now.new.rows * (1 + table.now.new.width) ≤ vec_capacity words.old }
    ensures words { words.new.items ≡ words_of_table table.now.new }
    ensures room { vec_capacity words.new ≡ vec_capacity words.old }
{
    copy_counting::<Brand>(table, words, Blank::new(1));
}
