//! The natural join: what it keeps, and its step.

ghost use Rattle.std.specs.Prelude.{◌≡◌, ◌+◌, ◌*◌, ◌<◌, ◌≤◌, ◌++◌, None, length, map, true, IfErr, IfOk, OnErr, OnOk};
ghost use Rattle.std.specs.List.{AllByRecursion};
ghost use Rattle.key_lists.specs.Keys.{is_among};
ghost use Rattle.lookup_join.specs.Duplicates.{cells_under, least_of};
ghost use Rattle.lookup_join.specs.Joiner.{IsCause, Stands, joined_ticks, joiner_of, standing};
ghost use Rattle.row_groups.specs.Members.{keys_of};
ghost use Rattle.tick_model.specs.Changes.{change_of};
ghost use Rattle.tick_model.specs.Join.{join_fault};
ghost use Rattle.tick_table.specs.Exact.{IsExact, counted, tick_of};

use crate::duplicates::{Duplicate, first_duplicate};
use crate::lookup::{LookupResult, lookup_step};
use crate::notes::PriorMatches;
use crate::pick::Pick;
use row_groups::NumberedGroups;
use row_set::RowSet;
use std::alloc::{AllocError, Global};
use std::marker::Model;
use std::sync::ledger::Ledger;
use tick_model::items::Items;
use tick_model::plan::{Choice, OnPair};
use tick_table::{Change, Steps, TickTable};

/// Why a join has no change.
#[derive(Clone, Copy, Debug, PartialEq, Eq)]
pub enum JoinFault {
    /// Want of memory.
    Memory,
    /// There is to be one match, and a left row has two or more: the least such row, and its two least matches.
    DuplicateRight {
        left_key: u64,
        first: u64,
        second: u64,
    },
}

impl From<AllocError> for JoinFault {
    ghost use Rattle.lookup_join.specs.declared.join_op.JoinFault.TheVariants.{Memory};

    ghost from_gives = { λ _ fault. fault ≡ Memory };

    fn from(_error: AllocError) -> JoinFault {
        JoinFault::Memory
    }
}

/// Puts cells of a matching right row behind each left row. It stands for the rows of both inputs that it saw last.
#[derive(Drop)]
pub struct JoinOp {
    on: Items<OnPair>,
    take: Items<u32>,
    choice: Choice,
    left_width: u32,
    right_width: u32,
    /// The rows of the left input by their key cells.
    left: NumberedGroups,
    /// Those of the right input.
    right: NumberedGroups,
    /// Room for the key cells of a row.
    buffer: Vec<i64>,
}

impl Model for JoinOp {
    ghost use Rattle.std.specs.Prelude.{◌+◌, ◌≤◌, ◌<◌, length};
    ghost use Rattle.std.specs.List.{AllByRecursion};
    ghost use Rattle.lookup_join.specs.Joiner.{Joiner};
    ghost use Rattle.lookup_join.specs.Matcher.{IsMatcher};
    ghost use Rattle.row_groups.specs.Members.{groups_of};

    ghost Value = { Joiner };

    ghost view = { λ join. record {
      on = join.on;
      take = join.take;
      choice = join.choice;
      left_width = join.left_width;
      right_width = join.right_width;
      left = groups_of join.left;
      right = groups_of join.right;
    } };

    ghost invariant = { λ join. IsMatcher join.take join.left_width join.right_width };
}

impl JoinOp {
    /// An operator that has seen no rows, for inputs of these widths. It takes no memory.
    pub fn new(
        alloc: Global,
        on: Items<OnPair>,
        take: Items<u32>,
        choice: Choice,
        left_width: u32,
        right_width: u32,
    ) -> JoinOp
        requires few { left_width + length take ≤ 32 }
        requires take { AllByRecursion (λ column. column < right_width) take }
        ensures { result ≡ joiner_of on take choice left_width right_width }
    {
        let width = on.len();
        JoinOp {
            on,
            take,
            choice,
            left_width,
            right_width,
            left: NumberedGroups::new(alloc, width),
            right: NumberedGroups::new(alloc, width),
            buffer: Vec::new(alloc),
        }
    }

    /// The operator after the step that the inputs show, and the change of its rows. It must stand for the inputs' rows before
    /// the step; after a refusal it is given up, and no more is read than that change may take.
    pub fn step<L: Ledger>(
        self,
        alloc: Global,
        left: &TickTable,
        right: &TickTable,
        reads: &mut Steps<L>,
    ) -> Result<(JoinOp, Change), JoinFault>
        requires left_exact { IsExact left.now }
        requires right_exact { IsExact right.now }
        requires left_width { left.now.new.width ≡ self.left_width }
        requires right_width { right.now.new.width ≡ self.right_width }
        requires stands { Stands self left.now.old right.now.old }
        ensures stands { IfOk result (λ out. out.0 ≡ standing self left.now.new right.now.new) }
        ensures sound { OnOk result (join_fault self.on self.choice left.now.new right.now.new ≡ None) }
        ensures cause { IfErr result (λ fault. IsCause fault (join_fault self.on self.choice left.now.new right.now.new)) }
        ensures change { IfOk result (λ out. out.1 ≡ change_of (joined_ticks self.on self.take self.choice (tick_of left.now) (tick_of right.now))) }
        ensures reads { IfOk result (λ out. reads.new ≤ reads.old
            + 4 * (left.now.new.width + right.now.new.width + (left.now.new.width + length self.take)) * (counted left.now.update + counted right.now.update + counted out.1.update)) }
        ensures refused { OnErr result (reads.new ≤ reads.old
            + 4 * (left.now.new.width + right.now.new.width + (left.now.new.width + length self.take)) * (counted left.now.update + counted right.now.update + counted (change_of (joined_ticks self.on self.take self.choice (tick_of left.now) (tick_of right.now))).update)) }
    {
        let JoinOp {
            on,
            take,
            choice,
            left_width,
            right_width,
            left: mut left_rows,
            right: mut right_rows,
            mut buffer,
        } = self;
        let LookupResult {
            change,
            notes,
            came,
        } = lookup_step(
            alloc,
            on.as_slice(),
            Pick::of(choice),
            take.as_slice(),
            &mut left_rows,
            &mut right_rows,
            left,
            right,
            &mut buffer,
            reads,
        )?;
        if let Some(duplicate) = fault_now(choice, &left_rows, &right_rows, &notes, &came) {
            return Err(JoinFault::DuplicateRight {
                left_key: duplicate.left_key,
                first: duplicate.first,
                second: duplicate.second,
            });
        }
        Ok((
            JoinOp {
                on,
                take,
                choice,
                left_width,
                right_width,
                left: left_rows,
                right: right_rows,
                buffer,
            },
            change,
        ))
    }
}

/// The least left row with two matches, where there is to be one, by the groups that the step touches.
fn fault_now(
    choice: Choice,
    left: &NumberedGroups,
    right: &NumberedGroups,
    notes: &PriorMatches,
    came: &RowSet,
) -> Option<Duplicate>
    requires { AllByRecursion (λ key. is_among key (keys_of left.now.members) ≡ true) came.now }
    ensures { result ≡ least_of choice left.now.members right.now.members (map (λ note. note.cells) notes.now.notes ++ map (cells_under left.now.members) came.now) }
{
    match choice {
        Choice::Error => first_duplicate(left, right, notes, came),
        Choice::First | Choice::Last => None,
    }
}
