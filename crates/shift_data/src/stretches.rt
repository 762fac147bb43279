//! The ranges of a shift, put together from parts that follow one another.
ghost use Rattle.std.specs.Prelude.{◌≡◌, List, [], ◌∷◌, ◌++◌, OnOk, IfOk};
ghost use Rattle.tick_model.specs.declared.update.ShiftRange.{ShiftRange as Stretch};
ghost use Rattle.shift_data.specs.Stretches.{joined, built};

use crate::parts::Part;
use std::alloc::{AllocError, Global};
use tick_model::update::ShiftRange;

/// Ranges that are whole, and the last one, which the next part may make longer.
#[derive(Drop)]
pub(crate) struct Stretches {
    whole: Vec<ShiftRange>,
    last: Option<ShiftRange>,
}

impl Stretches {
    /// No range.
    pub(crate) fn new(alloc: Global) -> Stretches
        ensures { (others : List Stretch) → built result.whole.items result.last others ≡ built [] None others }
    {
        Stretches {
            whole: Vec::new(alloc),
            last: None,
        }
    }

    /// Puts a part behind the others.
    pub(crate) fn add(&mut self, part: Part) -> Result<(), AllocError>
        ensures { OnOk result ((others : List Stretch)
            → built self.new.whole.items self.new.last others
            ≡ built self.old.whole.items self.old.last (joined (record { begin = part.first; end = part.last; delta = part.delta }) others)) }
    {
        let begin = match self.last {
            Some(last) if last.delta == part.delta => last.begin,
            _ => {
                self.close()?;
                part.first
            }
        };
        self.last = Some(ShiftRange {
            begin,
            end: part.last,
            delta: part.delta,
        });
        Ok(())
    }

    /// Makes the last range whole.
    fn close(&mut self) -> Result<(), AllocError>
        ensures whole { OnOk result (self.new.whole.items ≡ built self.old.whole.items self.old.last []) }
        ensures last { OnOk result (self.new.last ≡ None) }
    {
        if let Some(last) = self.last {
            if last.delta != 0 {
                self.whole.push(last)?;
            }
        }
        self.last = None;
        Ok(())
    }

    /// All ranges.
    pub(crate) fn into_ranges(mut self) -> Result<Vec<ShiftRange>, AllocError>
        ensures { IfOk result (λ ranges. ranges.items ≡ built self.whole.items self.last []) }
    {
        self.close()?;
        let Stretches { whole, last: _ } = self;
        Ok(whole)
    }
}
