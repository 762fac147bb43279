//! The running sum of the cells of a group.

ghost use Rattle.std.specs.Prelude.{◌≡◌};
ghost use Rattle.agg_by.specs.Sums.{sum_or_null};

use crate::by_number::OfCells;
use std::alloc::{AllocError, Global};
use tick_model::formula::NULL;

/// What cells add up to that hold something, and how many of them there are. Both wrap, so that what was added is taken away
/// again exactly.
#[derive(Clone, Copy)]
pub struct Total {
    pub sum: i64,
    pub count: i64,
}

impl Total {
    /// The sum, or null where it is of no cells.
    pub(crate) fn value(&self) -> i64
        ensures { result ≡ sum_or_null self.now }
    {
        if self.count == 0 { NULL } else { self.sum }
    }
}

impl OfCells for Total {
    ghost use Rattle.agg_by.specs.Sums.{HasAny, minus, no_total, plus};

    ghost none = { no_total };

    ghost with_cell = { plus };

    ghost without_cell = { minus };

    ghost has_cell = { HasAny };

    fn new(_alloc: Global) -> Total {
        Total { sum: 0, count: 0 }
    }

    fn put(&mut self, value: i64) -> Result<(), AllocError> {
        self.sum = self.sum.wrapping_add(value);
        self.count = self.count.wrapping_add(1);
        Ok(())
    }

    fn take(&mut self, value: i64) -> Result<(), AllocError> {
        self.sum = self.sum.wrapping_sub(value);
        self.count = self.count.wrapping_sub(1);
        Ok(())
    }
}
