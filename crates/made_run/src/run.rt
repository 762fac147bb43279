//! The made run of so many steps.

ghost use Rattle.std.specs.Prelude.{◌≡◌, ◌≤◌, IfOk};
ghost use Rattle.feed_reader.specs.Assembled.{plain_run};
ghost use Rattle.made_run.specs.Run.{made};

use crate::opening::{opening, texts};
use crate::plan::plan;
use crate::steps::batches;
use std::alloc::{AllocError, Global};
use tick_model::feed::Run;

/// The made run of so many steps.
pub fn made_run(alloc: Global, steps: u32) -> Result<Run, AllocError>
    requires { steps ≤ 10000 }
    ensures { IfOk result (λ run. plain_run run ≡ made steps) }
{
    Ok(Run {
        plan: plan(alloc)?,
        opening: opening(alloc)?,
        batches: batches(alloc, steps)?,
        texts: texts(alloc)?,
    })
}
