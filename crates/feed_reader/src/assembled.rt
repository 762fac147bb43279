//! Runs, put together from what is read.

ghost use Rattle.std.specs.Prelude.{◌≡◌, ◌^◌, ◌<◌, All, IfOk, length};
ghost use Rattle.feed_reader.specs.Assembled.{plain_run, run_of};

use crate::coded::code;
use crate::raw::{RawFeed, RawTable};
use script_reader::script::Script;
use std::alloc::{AllocError, Global};
use tick_model::feed::Run;
use tick_model::items::Items;

/// The run of a script, of the tables that its sources open with, and of a feed. The texts of all three are gathered, and the rank of
/// each stands in its place. There is one table for each source, in order of their nodes' numbers.
pub fn assemble(
    alloc: Global,
    script: Script,
    tables: Items<RawTable>,
    feed: RawFeed,
) -> Result<Run, AllocError>
    requires { All (λ node. length node.columns < 2 ^ 32) script.plan.nodes }
    ensures { IfOk result (λ run. plain_run run ≡ run_of script tables feed) }
{
    let coded = code(alloc, &script.plan, &script.literals, tables, feed)?;
    let plan = script.bind(alloc, &coded.texts)?;
    Ok(Run {
        plan,
        opening: coded.opening,
        batches: coded.batches,
        texts: coded.texts,
    })
}
