//! How one message is told.

ghost use Rattle.std.specs.Io.KnownBytes.{append_known};
ghost use Rattle.std.specs.Prelude.{◌≡◌, ◌≤◌, IfErr, IfOk, IsErrOf, OnErr, OnOk, length};
ghost use Rattle.tick_io.specs.Counts.{Rose};
ghost use Rattle.tick_io.specs.Written.{AppendsPrefix};
ghost use Rattle.tick_model.specs.Changes.{changed};
ghost use Rattle.tick_model.specs.Texts.{change_records, records_text};
ghost use Rattle.replay.specs.Outcomes.{IsTold, OnTold};
ghost use Rattle.watched_run.specs.Told.{IsMessage};

use replay::Outcome;
use std::alloc::Global;
use tick_io::Sink;
use tick_model::items::Items;
use tick_model::name::Name;
use tick_table::Change;
use update_text::{Shown, write_update};
use viewport::{Mirror, MirrorFault};

/// Gives a message to the mirror, and writes its records at a step.
pub(crate) fn tell<S: Sink>(
    alloc: Global,
    out: &mut S,
    step: u64,
    shown: &Shown,
    texts: &Items<Name>,
    mirror: Mirror,
    message: Change,
) -> Result<Mirror, Outcome>
    requires { IsMessage shown.now.columns (length texts.now) mirror.new message }
    ensures mirror { IfOk result (λ next. next.new ≡ changed mirror.new message) }
    ensures whole { OnOk result (S.bytes out.new ≡ append_known (S.bytes out.old)
        (records_text (change_records step shown.now.name shown.now.columns texts.now message))) }
    ensures prefix { OnErr result (AppendsPrefix (S.bytes out.old) (S.bytes out.new)
        (records_text (change_records step shown.now.name shown.now.columns texts.now message))) }
    ensures no_cause { IfErr result (λ outcome. IsTold outcome → ⊥) }
    ensures failed { IsErrOf result Outcome.Write → Rose (S.failures out.old) (S.failures out.new) }
    ensures never_falls { S.failures out.old ≤ S.failures out.new }
    ensures steady { OnTold result (S.failures out.new ≡ S.failures out.old) }
{
    let mirror = match mirror.apply(message) {
        Ok(mirror) => mirror,
        Err(fault) => match fault {
            MirrorFault::Memory => return Err(Outcome::Memory),
            _ => unreachable!(),
        },
    };
    write_update(alloc, out, step, shown, texts, mirror.table())?;
    Ok(mirror)
}
