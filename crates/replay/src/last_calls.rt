//! The last call of each caller, after the feed.
ghost use Rattle.std.specs.Prelude.{◌≡◌, ◌+◌, ◌<◌, ◌≤◌, IfOk, OnOk, length, map};
ghost use Rattle.snapshot_store.specs.Lines.{count};
ghost use Rattle.snapshot_store.specs.Models.{IsOf};
ghost use Rattle.tick_laws.specs.Reached.{IsReached};
ghost use Rattle.replay.specs.Snapshots.{AreLast, AreTaking, EachReader, HasEnded, HasRead};

use crate::Knobs;
use crate::opening::Publication;
use crate::readers::{KeptSnapshot, Reader};
use snapshot_store::{Caller, Store, Writer};
use std::alloc::{AllocError, Global};
use std::sync::Wait;
use tick_model::items::Items;

/// The last call of a caller, once it knows what the writer has completed.
fn call_last<R: Wait>(
    rt: &R,
    alloc: Global,
    knobs: &Knobs,
    store: &Store,
    published: u32,
    number: u32,
    writer: &mut Writer,
    reader: &mut Reader,
) -> Result<(), AllocError>
    requires own { IsOf store.now writer.old.table writer.old.run }
    requires read { HasRead store.now knobs.now.attempts number knobs.now.snaps reader.old }
    requires published { published ≡ count store.now.run }
    requires some { 0 < published }
    requires few { number < 16 }
    requires few_snaps { knobs.now.snaps ≤ 64 }
    ensures same { writer.new ≡ writer.old }
    ensures ended { OnOk result (HasEnded store.now knobs.now.attempts number knobs.now.snaps writer.old.step reader.new) }
{
    if reader.short {
        return Err(AllocError);
    }
    let note = store.note(writer);
    store.learn(&mut reader.caller, note);
    reader.take(
        rt,
        alloc,
        store,
        published,
        knobs.attempts,
        number,
        knobs.snaps,
    )
}

/// The last calls of all callers.
fn call_all<R: Wait>(
    rt: &R,
    alloc: Global,
    knobs: &Knobs,
    store: &Store,
    published: u32,
    writer: &mut Writer,
    readers: &mut [Reader],
) -> Result<(), AllocError>
    requires own { IsOf store.now writer.old.table writer.old.run }
    requires read { EachReader (λ number. HasRead store.now knobs.now.attempts number knobs.now.snaps) readers.old }
    requires published { published ≡ count store.now.run }
    requires some { 0 < length readers.old → 0 < published }
    requires few { length readers.old ≤ 16 }
    requires few_snaps { knobs.now.snaps ≤ 64 }
    ensures same { writer.new ≡ writer.old }
    ensures ended { OnOk result (EachReader (λ number. HasEnded store.now knobs.now.attempts number knobs.now.snaps writer.old.step) readers.new) }
{
    for number in 0..readers.len() {
        let reader = &mut readers[number];
        call_last(
            rt,
            alloc,
            knobs,
            store,
            published,
            number as u32,
            writer,
            reader,
        )?;
    }
    Ok(())
}

/// The callers apart from what they have kept.
fn parted(
    alloc: Global,
    readers: Vec<Reader>,
) -> Result<(Items<Caller>, Items<Items<KeptSnapshot>>), AllocError>
    ensures callers { IfOk result (λ parts. parts.0 ≡ map (λ reader. reader.caller) readers.items) }
    ensures kept { IfOk result (λ parts. parts.1 ≡ map (λ reader. reader.kept) readers.items) }
{
    let mut callers = Items::new(alloc);
    let mut kept = Items::new(alloc);
    for reader in readers {
        let Reader {
            caller,
            kept: snapshots,
            short: _,
        } = reader;
        callers.push(caller)?;
        kept.push(snapshots)?;
    }
    Ok((callers, kept))
}

/// What the callers have kept after their last calls. The store ends.
pub(crate) fn last_snapshots<R: Wait>(
    rt: &R,
    alloc: Global,
    knobs: &Knobs,
    published: u32,
    publication: Publication,
) -> Result<Items<Items<KeptSnapshot>>, AllocError>
    requires own { IsOf publication.store publication.writer.table publication.writer.run }
    requires read { EachReader (λ number. HasRead publication.store knobs.now.attempts number knobs.now.snaps) publication.readers.items }
    requires published { published ≡ count publication.store.run }
    requires reached { IsReached publication.store.run publication.writer.step }
    requires some { 0 < length publication.readers.items → 0 < published }
    requires few { length publication.readers.items ≤ 16 }
    requires few_snaps { knobs.now.snaps ≤ 64 }
    ensures count { IfOk result (λ all. length all ≡ length publication.readers.items) }
    ensures last { IfOk result (λ all. AreLast publication.store.run knobs.now.snaps publication.writer.step 0 all) }
    ensures tried { IfOk result (AreTaking knobs.now.attempts) }
{
    let Publication {
        store,
        mut writer,
        mut readers,
    } = publication;
    call_all(
        rt,
        alloc,
        knobs,
        &store,
        published,
        &mut writer,
        readers.as_mut_slice(),
    )?;
    let (callers, kept) = parted(alloc, readers)?;
    let _ended = store.end(writer, callers);
    Ok(kept)
}
