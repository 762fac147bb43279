//! Feeds.

ghost use Rattle.std.specs.Prelude.{◌≡◌, ◌<◌, ◌≤◌, ◌^◌, true, IfOk, OnOk, length, map};
ghost use Rattle.feed_reader.specs.Answers.{Answers};
ghost use Rattle.feed_reader.specs.Feeds.{feed_of};
ghost use Rattle.feed_reader.specs.Cells.{kinds_in};
ghost use Rattle.feed_reader.specs.Entries.{entry_of};
ghost use Rattle.feed_reader.specs.ReadSteps.{AreReadSteps, IsStep};
ghost use Rattle.feed_reader.specs.Records.{are_texts, at_hand};

use crate::cells::{ReadCells, kinds_of};
use crate::entries::read_entry;
use crate::fault::{TextFault, TextKind};
use crate::gathered::FeedBuilder;
use crate::place::BlockState;
use crate::raw::{RawBatches, RawFeed};
use crate::records::{Next, Records};
use crate::tables::MOST_BYTES;
use std::alloc::{AllocError, Global};
use tick_model::items::Items;
use tick_model::plan::{Kind, Plan};

/// The kinds of the columns of each node.
fn kinds_by_node(alloc: Global, plan: &Plan) -> Result<Items<Items<Kind>>, AllocError>
    ensures { IfOk result (λ kinds. kinds ≡ map (λ node. kinds_in node.columns) plan.now.nodes) }
{
    let nodes = plan.nodes.as_slice();
    let mut kinds = Vec::with_capacity(alloc, nodes.len())?;
    for node in nodes {
        kinds.push(kinds_of(alloc, node.columns.as_slice())?)?;
    }
    Ok(Items::of(kinds))
}

/// What is read of a feed so far.
#[derive(Drop)]
struct ReadSteps {
    place: BlockState,
    read: ReadCells,
    feed: FeedBuilder,
}

impl ReadSteps {
    /// Takes what the record of a number says, or gives the first kind that refuses it. After that the steps are given up.
    fn take(
        &mut self,
        alloc: Global,
        plan: &Plan,
        number: u64,
        fields: &Records<'_>,
    ) -> Result<Result<(), TextKind>, AllocError>
        requires text { are_texts (at_hand fields.now) ≡ true }
        requires nodes { length plan.now.nodes < 2 ^ 32 }
        requires steps { AreReadSteps plan.now self.old }
        ensures steps { IfOk result (λ told. OnOk told (AreReadSteps plan.now self.new)) }
        ensures told { IfOk result (λ told. IsStep plan.now number self.old self.new told (entry_of plan.now self.old.place (length self.old.feed.batches) (at_hand fields.now))) }
    {
        let ended = self.feed.batches.len();
        match read_entry(alloc, plan, self.place, ended, fields, &mut self.read)? {
            Ok(entry) => {
                self.place = self.place.after(&entry);
                let cells = self.read.cells.as_slice();
                self.feed.put(alloc, number, entry, cells)?;
                Ok(Ok(()))
            }
            Err(kind) => Ok(Err(kind)),
        }
    }
}

/// Reads a feed of the sources of a plan: one batch for each step, and in it the blocks in the feed's order, of which several may be of
/// one source. `Refused` comes exactly where the definition refuses the feed, with its first refused record and the first kind that
/// applies to it. It takes one pass over the bytes; a number is read without memory.
pub fn read_feed(alloc: Global, bytes: &[u8], plan: &Plan) -> Result<RawFeed, TextFault>
    requires { length plan.now.nodes < 2 ^ 32 }
    ensures answers { Answers (feed_of plan.now bytes.now) result }
    ensures steps { IfOk result (λ feed. length feed.batches ≤ 100000) }
{
    if bytes.len() > MOST_BYTES {
        return Err(TextFault::Refused {
            number: 0,
            kind: TextKind::TooLong,
        });
    }
    let mut records = Records::of(alloc, bytes);
    let mut steps = ReadSteps {
        place: BlockState::Outside,
        read: ReadCells::new(alloc),
        feed: FeedBuilder::new(alloc),
    };
    let mut number = 0;
    'records: loop {
        match records.next()? {
            Next::End => break,
            Next::NotText => {
                return Err(TextFault::Refused {
                    number: number + 1,
                    kind: TextKind::NotUtf8,
                });
            }
            Next::Record => {
                number += 1;
                match steps.take(alloc, plan, number, &records)? {
                    Ok(()) => {}
                    Err(kind) => return Err(TextFault::Refused { number, kind }),
                }
            }
        }
    }
    let ReadSteps { place, read, feed } = steps;
    if place.is_outside() {
        Ok(RawFeed {
            batches: RawBatches {
                kinds: kinds_by_node(alloc, plan)?,
                texts: read.texts.into_texts(),
                batches: feed.batches,
            },
        })
    } else {
        Err(TextFault::Refused {
            number,
            kind: TextKind::Unfinished,
        })
    }
}
