//! Where the words of each published table stand in a bank.

ghost use Rattle.std.specs.Prelude.{◌≡◌, ◌^◌, ◌+◌, ◌<◌, ◌≤◌, IfOk, ℕ, length};
ghost use Rattle.tick_model.specs.Plans.{published_words};
ghost use Rattle.snapshot_store.specs.Lines.{limit_in, width_in, size_in, start_in, total_in};

use std::alloc::{AllocError, Global};
use std::marker::Model;
use tick_model::items::Items;
use tick_model::plan::Published;

/// The layout of a bank. Contracts see the published tables that it is for.
#[derive(Drop)]
pub struct Layout {
    tables: Vec<Published>,
    /// The first word of each table.
    starts: Vec<usize>,
    /// The words of a bank.
    bank: usize,
    /// The words of the largest table.
    largest: usize,
}

impl Model for Layout {
    ghost use Rattle.std.specs.Prelude.{List};
    ghost use Rattle.tick_model.specs.declared.plan.Published.{Published};
    ghost use Rattle.snapshot_store.specs.Models.{IsLaid};

    ghost Value = { List Published };

    ghost view = { λ layout. layout.tables.items };

    ghost invariant = { λ layout. IsLaid layout.tables.items layout.starts.items layout.bank layout.largest };
}

impl Layout {
    /// The layout of the published tables of a run. The words of the store are at most 1,048,576.
    pub fn of(alloc: Global, published: &Items<Published>) -> Result<Layout, AllocError>
        requires { published_words published.now ≤ 1048576 }
        ensures { IfOk result (λ layout. layout ≡ published.now) }
    {
        let published = published.as_slice();
        let mut tables = Vec::with_capacity(alloc, published.len())?;
        let mut starts = Vec::with_capacity(alloc, published.len())?;
        let mut bank = 0;
        let mut largest = 0;
        for table in published {
            let size = 1 + table.limit as usize * (1 + table.width as usize);
            tables.push_reserved(*table);
            starts.push_reserved(bank);
            bank += size;
            largest = size.max(largest);
        }
        Ok(Layout {
            tables,
            starts,
            bank,
            largest,
        })
    }

    /// How many tables are published.
    pub(crate) fn len(&self) -> usize
        ensures { result ≡ length self.now }
    {
        self.tables.len()
    }

    /// The first word of a table in a bank.
    pub(crate) fn start(&self, number: u32) -> usize
        requires { number < length self.now }
        ensures value { result ≡ start_in self.now number }
        ensures small { result ≤ total_in self.now }
    {
        self.starts[number as usize]
    }

    /// The most rows of a table.
    pub(crate) fn limit(&self, number: u32) -> u64
        requires { number < length self.now }
        ensures { result ≡ limit_in self.now number }
    {
        u64::from(self.tables[number as usize].limit)
    }

    /// The columns of a table.
    pub(crate) fn width(&self, number: u32) -> usize
        requires { number < length self.now }
        ensures value { result ≡ width_in self.now number }
        ensures small { result < 2 ^ 32 }
    {
        self.tables[number as usize].width as usize
    }

    /// The words of a bank.
    pub(crate) fn bank(&self) -> usize
        ensures value { result ≡ total_in self.now }
        ensures small { result < 2 ^ 20 }
    {
        self.bank
    }

    /// The words of the largest table.
    pub(crate) fn largest(&self) -> usize
        ensures { (p : ℕ) → p < length self.now → size_in self.now p ≤ result }
    {
        self.largest
    }
}
