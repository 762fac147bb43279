//! The bytes of files, up to a limit.

ghost use Rattle.std.specs.Prelude.{◌≡◌, ◌≤◌, ◌∷◌, [], ℕ, List};
ghost use Rattle.tick_io.specs.Asked.{AsksFor};
ghost use Rattle.tick_io.specs.Counts.{Rose};
ghost use Rattle.feed_run.specs.Headline.{NoLoadFailed};
ghost use Rattle.feed_run.specs.Stops.{IsUnread, Loads, OnFound};

use crate::refusal::LoadStop;
use std::alloc::Global;
use tick_io::{Inputs, LoadFault};
use tick_model::name::Name;

/// That a file could not be read.
fn unread(alloc: Global, name: &str) -> LoadStop
    ensures { IsUnread name.now result }
{
    match String::from_str(alloc, name) {
        Ok(name) => LoadStop::Unread(Name::of(name)),
        Err(_) => LoadStop::Memory,
    }
}

/// The bytes of a file, or `None` where it has more than so many.
pub(crate) fn load<I: Inputs>(
    alloc: Global,
    inputs: &mut I,
    name: &str,
    most: usize,
) -> Result<Option<Vec<u8>>, LoadStop>
    ensures loads { Loads I.told most (I.content inputs.old name.now)
        (Rose (I.failures inputs.old name.now) (I.failures inputs.new name.now)) name.now result }
    ensures never_falls { (other : List ℕ) → I.failures inputs.old other ≤ I.failures inputs.new other }
    ensures kept { I.content inputs.new ≡ I.content inputs.old }
    ensures asks { AsksFor (I.asked inputs.old) (I.asked inputs.new) (name.now ∷ []) }
    ensures steady { OnFound result (NoLoadFailed I.failures inputs.old inputs.new) }
{
    match inputs.load(alloc, name, most) {
        Ok(bytes) => Ok(Some(bytes)),
        Err(LoadFault::Memory) => Err(LoadStop::Memory),
        Err(LoadFault::TooLong { .. }) => Ok(None),
        Err(LoadFault::Failed) => Err(unread(alloc, name)),
    }
}
